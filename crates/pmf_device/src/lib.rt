//! Streams of bytes that count their failed calls.
//!
//! What is read comes from a [`Source`], what is written goes to a [`Sink`]: by [`write_text`] a whole text, by [`Page`] one that is
//! made part by part. The clauses cite std's `KnownBytes` for the bytes, `specs/Failures` for the failed calls, and `specs/Pages` for
//! a text that is not written to its end.
//!
//! Not promised here: what a device does with the bytes.
#![tactic(auto)]

mod device;
mod failed;
mod memory;
mod page;
mod sink;
mod source;
#[cfg(test)]
mod tests;
mod writing;

pub use device::{Counted, Device};
pub use failed::Failed;
pub use memory::ByteSink;
pub use page::{Page, Stop};
pub use sink::{Sink, StdSink};
pub use source::{Source, StdSource, read_piece};
pub use writing::{Cut, write_text};
