//! Ledger texts of any length, merged block by block.
//!
//! A [`BlockReader`](pmf_ledger::BlockReader) reads each text from a source, piece by piece, and keeps one section. [`merge_to`] writes the
//! least of the sections that wait, again and again, so that what is written is the report, or the text, of the ledger of them all
//! (`specs/Merging`). It keeps one section of each text, and never a whole text.
//!
//! [`trust_to`] merges texts block by block as they stand, and checks no section (`specs/Trusting`). It keeps one block of each text.
//!
//! Not promised here: what a device does with the bytes, or that memory suffices; of what is merged on trust, that a row is true, which of
//! several faults of a text is told, or whether a row that was told counts as fail.
#![tactic(auto)]

mod ahead;
mod fault;
mod feed;
mod heads;
mod laws;
mod merging;
mod raw_feed;
mod raw_heads;
mod raw_written;
#[cfg(test)]
mod tests;
mod trusting;
mod unread;
mod waiting;
mod written;

pub use fault::MergeFault;
pub use laws::trust_keeps_ledgers;
pub use merging::merge_to;
pub use trusting::trust_to;
