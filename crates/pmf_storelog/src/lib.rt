//! The reader of a persistent-memory log's text: from bytes, in one piece or many, to sections.
//!
//! A marker `PMT.SECTION` makes a section current, a new one or one that comes again; before the first
//! marker section 0 is. A section's events are those at which it was current (`LogText.events_in`).
//!
//! [`read_log`] answers exactly what `LogText.log_of` says of the bytes: the sections with the number
//! of skipped records, or the first faulty record's fault. [`LogReader`] answers the same of all
//! pieces fed to it, joined, and refuses as soon as the bytes fed show a fault that no later byte can
//! change (`LogText.shown_fault`, `LogText.IsFaultOfAll`). The numbers of the sections are a set in
//! order, and rise (`Rising`, [`laws`]). The text itself is defined in `Separators`,
//! `Numbers` and `Records`; what a reader in mid-log stands for, in `Reader`; that want of memory is
//! left out of each promise, in `Answers`.
//!
//! Parts of a piece can be read before their turn ([`Ahead`]), by threads of their own; a reader that is fed the piece with them
//! answers what it answers of the piece alone.
//!
//! [`write_section`] writes a section as such a text (`Canonical`), and the text reads as that section
//! and nothing else.
//!
//! [`read_event`] reads a single text line as one event (`Lines`), and [`read_number_in_front`] a number
//! at the front of a text (`Numbers`): with [`push_event`] they serve other texts that hold events.
//! [`next_part`], [`trim`] and [`read_record`] (`Separators`, `Records`) serve who goes through a log's records itself.
//!
//! Not promised here: that memory suffices, or that a log is what the program did.
#![tactic(auto)]

mod ahead;
#[cfg(test)]
mod ahead_tests;
mod fault;
mod fields;
pub mod laws;
mod line;
#[cfg(test)]
mod line_tests;
mod log;
mod number;
mod plain;
mod progress;
mod quick;
#[cfg(test)]
mod quick_tests;
mod reader;
mod reading;
mod record;
mod sections;
mod stretch;
mod tally;
#[cfg(test)]
mod tests;
mod trimming;
mod writing;
#[cfg(test)]
mod writing_tests;

pub use ahead::Ahead;
pub use fault::{Cause, LOG_LIMIT, LogFault, SECTION_LIMIT};
pub use line::{LineFault, read_event};
pub use log::Log;
pub use number::read_number_in_front;
pub use progress::next_part;
pub use reader::LogReader;
pub use reading::read_log;
pub use record::{Saying, read_record};
pub use trimming::trim;
pub use writing::{push_event, write_section};
