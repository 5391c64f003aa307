//! What the tests of several crates share: events by their numbers, a ledger's text, numbers that look random, and a plain checker.
//!
//! Nothing of the program stands on it, and it promises nothing: a test compares what it makes.
#![tactic(auto)]

mod images;
mod ledger;
mod numbers;
mod packed;
pub mod plain;
mod step;

pub use images::{BYTES, Image, images_after};
pub use ledger::LEDGER;
pub use numbers::Numbers;
pub use packed::{listed, section_with};
pub use step::{FENCE, FLUSH, OTHER, Refused, STORE, Step, events_of};
