//! The transaction checker: depth, the backed-up bytes of the running transaction, and the scope in
//! which transactions are checked, with the bytes that were stored to in it.
//!
//! A [`TxState`] stands for the events that it was told of, by `specs/Tracking`, and each call gives
//! exactly the finding of `pmf_event`'s `specs/Transactions`. Sets of bytes are kept as runs, so that
//! time and memory follow the runs and not the bytes.
//!
//! Not promised here: that the events are those of a section, or that the shadow that is handed in stands
//! for them too; the caller's calls make it so.
#![tactic(auto)]

pub mod laws;
mod state;
#[cfg(test)]
mod tests;

pub use state::TxState;
