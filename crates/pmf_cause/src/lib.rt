//! Why a section's rows are no PASS, and what would cure them.
//!
//! The [`Cause`] of a row looks back over the section's events (`specs/Cause`): what the row's byte lacks that had to be durable, or
//! which event is missing or too many. Each row that counts as fail or as a warning has exactly one ([`laws`]).
//!
//! A cure is a list of changes ([`Edit`]) of the section. [`try_edits`] checks the section with them: nothing may fail that didn't.
//! A row is cured where nothing that counts as fail or as a warning is left of it; an assertion whose bytes were not durable has to stand,
//! check the same bytes, and pass (`specs/Cure`). [`propose`] makes such lists.
//!
//! Not promised here: that a cure is found wherever there is one, and that it has no change too many.
#![tactic(auto)]

mod cause;
mod changing;
mod edit;
mod judging;
mod lack;
mod later;
pub mod laws;
mod marks;
mod need;
mod needs;
mod past;
mod plan;
mod proposing;
mod reach;
mod stored;
#[cfg(test)]
mod tests;
mod trial;
mod walk;
mod watch;

pub use cause::Cause;
pub use edit::Edit;
pub use lack::Lack;
pub use later::asks_byte;
pub use need::Need;
pub use proposing::{Proposal, propose};
pub use trial::{Trial, try_edits};
pub use walk::causes;
