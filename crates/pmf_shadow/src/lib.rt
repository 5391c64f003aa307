//! Shadow memory: what is kept of each byte while a section is checked.
//!
//! A [`Shadow`] keeps the states of bytes in a map of runs (`pmf_runs`), with cache lines in front of it where that pays, and stands for the first `p`
//! events of a list by `specs/Shadow`: then its questions are answered as `pmf_event`'s definitions answer them for those
//! events. What a cache line is, is asked of its bytes. A [`ByteState`] takes 16 bytes, and [`Bounds`] of
//! some states tell whether a change or a question may meet one of them.
//!
//! Not promised here: how much memory a shadow takes.
#![tactic(auto)]

mod byte;
mod front;
pub mod laws;
mod line;
mod order;
mod pairs;
mod shadow;
mod standing;
mod stretches;
mod totals;
mod wide;

pub use byte::{Bounds, ByteState, Stored};
pub use shadow::{FlushLines, Shadow};
pub use standing::Standing;

#[cfg(test)]
mod tests;
