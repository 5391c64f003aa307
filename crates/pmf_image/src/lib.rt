//! Crash images: what memory may hold after a crash, and when an assertion holds in all of them.
//!
//! The definitions stand in `specs/Image` (count, floor, cut, torn bytes, allowed image, what an
//! image shows) and `specs/Holds` (when a persist assertion, an order assertion and the end of a scope
//! hold); [`laws`] has what is proved of them. They stand on the definitions of `pmf_event` alone, and
//! know neither epochs nor intervals.
//!
//! A [`Certificate`] names one image, by `specs/Certificate`; [`cut`], [`shows`] and [`last_store`]
//! answer about it. `specs/Contradiction` says when it rules an assertion out, and [`contradicts`] tells.
//!
//! Not promised here: that the hardware keeps these rules. Not modelled: values of bytes.
#![tactic(auto)]

mod borders;
mod certificate;
mod contradicting;
pub mod laws;
mod questions;
mod transactions;

pub use certificate::{Certificate, cut, last_store, shows};
pub use contradicting::contradicts;

#[cfg(test)]
mod tests;
