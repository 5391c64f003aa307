//! Cuts of a section: what a part begins with, so that what is found behind the cut stays what it is in the whole.
//!
//! A [`Part`] keeps what its events leave open, and [`Part::renewed`] makes the part that goes on behind a cut, with its
//! head: events that tell again what is open (`specs/Parts`). [`laws`] say which rows of the parts are those of the
//! whole (`specs/Alike`, `specs/Laws`). A [`Cutter`] cuts the sections of a log's text so, record by record: what it hands out says just
//! such parts (`specs/Written`).
//!
//! Not promised here: where a cutter cuts, or that memory suffices.
#![tactic(auto)]

mod comparing;
mod cutter;
mod deferred;
mod fault;
mod head;
pub mod laws;
mod lost;
mod notes;
mod output;
mod part;
mod record;
mod renewing;
mod section;
#[cfg(test)]
mod tests;

pub use cutter::Cutter;
pub use fault::CutFault;
pub use output::Text;
pub use part::{Part, PartFault};
pub use renewing::Renewal;
