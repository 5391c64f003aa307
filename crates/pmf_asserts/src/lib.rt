//! What the assertions of a section and its write-backs find, by the shadow of the events before them.
//!
//! Each call gives exactly the finding of `pmf_event`'s definitions, `specs/Persist`, `specs/Order`
//! and `specs/FlushWarnings`, whatever events the shadow stands for. None takes memory.
//!
//! Not promised here: that the shadow stands for the events of a section; the caller's calls of the
//! shadow make it so.
#![tactic(auto)]

mod flushes;
mod ordering;
mod persisting;

pub use flushes::{FlushFindings, check_flush};
pub use ordering::check_ordered;
pub use persisting::check_persist;

#[cfg(test)]
mod tests;
