//! The events of a persistent-memory log, the section that holds them, and the findings of a check.
//!
//! A [`Span`] is a valid range of bytes, a [`Section`] is a name and at most 2^20 events, and a
//! [`Row`] is what the checker says at one place. The definitions that several crates cite stand in
//! `specs/`: cache line (`Line`), last store and epoch (`Store`), persist interval (`Interval`),
//! exclusion (`Exclusion`), checked byte and the finding of a persist assertion (`Persist`), unordered
//! and certified pairs and the finding of an order assertion (`Order`), clean and pending lines and
//! the findings of a write-back (`FlushWarnings`).
//!
//! Not promised here: that a log is what the program did, or that the hardware keeps the rules.
#![tactic(auto)]

mod event;
mod events;
mod finding;
mod interval;
pub mod laws;
mod lines;
mod name;
mod packed;
mod profile;
mod row;
mod section;
mod span;

pub use event::Event;
pub use events::Events;
pub use finding::Finding;
pub use interval::Interval;
pub use lines::Lines;
pub use name::Name;
pub use profile::Profile;
pub use row::{Row, Rows};
pub use section::{EVENT_LIMIT, Section, SectionFault};
pub use span::{ADDRESS_LIMIT, LINE_SIZE, SPAN_LIMIT, Span, SpanFault, line_of};
pub use std::alloc::AllocError as OutOfMemory;

#[cfg(test)]
mod tests;
