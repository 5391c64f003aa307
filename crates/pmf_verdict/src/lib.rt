//! The verdict of one section: the rows that the checker gives its events.
//!
//! A [`Verdict`] holds a section, and its type keeps that its rows are those of that section's own
//! events, by `specs/Rows`. What a row shows as `PERSIST PASS`, `ORDERED PASS` or
//! `CHECKEND PASS` holds in every crash image that the rules allow, torn stores included, by
//! `specs/Sound`, and of what it shows as a FAIL of these [`explain`] gives an image that contradicts the
//! assertion, by `specs/Explained`: so its rows say exactly which assertions hold, by `specs/Exact`. The text of a row is
//! `specs/Text`.
//!
//! Not promised here: that the section holds all of its thread's stores, write-backs and fences on
//! its lines, that no other thread writes those lines meanwhile, that the hardware keeps the rules
//! of `pmf_image`, or that a failed assertion is a fault of the program that was logged.
#![tactic(auto)]

mod checking;
mod explaining;
mod laws;
mod outcome;
mod text;
mod verdict;

pub use checking::{CheckFault, Checker, check};
pub use explaining::{certificate_of, explain};
pub use laws::{later_events_change_no_row, pass_stays, rows_look_back};
pub use outcome::{Outcome, outcome_of};
pub use text::{push_row, write_rows, write_rows_at};
pub use verdict::Verdict;

#[cfg(test)]
mod tests;
