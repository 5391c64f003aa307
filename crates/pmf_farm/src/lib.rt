//! The farm: sections checked by workers on threads of their own, and gathered whoever was lost.
//!
//! [`run`] gives the ledger of all sections handed in, for 1 to 64 workers: whichever of them was lost by its gate, never
//! started or refused memory, and whatever verdict arrived twice or not at all. It refuses exactly what `specs/Running`
//! says, with the least name that stands twice (`Repeats` of `pmf_ledger`). [`work`] is what one worker does on a board, with a
//! [`Gate`] and an [`Outbox`] of the caller's: the verdicts that it puts are those of the sections that it marks, in their
//! order; it takes those and at most the one in its hand, and ends with all only where it has seen each section done, or
//! handed out 8 times, and as lost only where its gate answers so about a section that it took (`specs/Working`). What is said of the ledger rests on none of this, but on what `specs/Rolls` keeps.
//!
//! Not promised here: that memory suffices, that a worker is started or gets on, who takes what, or that a verdict arrives.
#![tactic(auto)]

mod fault;
mod gate;
mod outbox;
mod queue;
mod roll;
mod running;
mod slot;
#[cfg(test)]
mod tests;
mod working;

pub use fault::FarmFault;
pub use gate::{Gate, OpenGate, Turn};
pub use outbox::{ChannelOutbox, Outbox};
pub use pmf_board::MOST_WORKERS;
pub use running::run;
pub use working::{Ended, work};
