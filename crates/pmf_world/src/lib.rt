//! The world: every schedule of a farm, played by hand.
//!
//! A [`World`] is the machine of a farm as a value: sections with their hand-outs, workers that take, check, send, mark and
//! may be lost at any point, messages that arrive any number of times and in any order, and ledgers that are joined. It is
//! stepped by [`World::step`], whose answer, refusal and world after it are those of `specs/Steps` and `specs/Turns`, for every
//! state that the world stands for (`specs/Worlds`); a refusal leaves the world as it was. [`World::new`] gives the first state,
//! or refuses exactly what `specs/Opening` says.
//!
//! Of those definitions alone, the laws of `specs/Laws` hold after every list of steps: each ledger is that of just the sections
//! gathered there, no task is given twice, and of each section that is done a message was sent.
//!
//! [`sim_text`] plays a schedule in a world of a log's sections: a step on each text line (`specs/Schedule`), and of each step a text
//! line with its number and its answer or refusal, then each ledger's report (`specs/Lines`, `specs/Simulation`); or it refuses
//! with the first [`SimFault`] that applies.
//!
//! Not promised here: that memory suffices, or that the threads of a running farm make one list of such steps.
#![tactic(auto)]

mod doing;
mod fault;
mod floor;
mod gathering;
mod laws;
mod lines;
mod playing;
mod schedule;
mod simulating;
mod step;
#[cfg(test)]
mod tests;
mod turns;
mod world;

pub use doing::Doing;
pub use fault::{MOST_LEDGERS, WorldNewFault};
pub use laws::{
    done_was_sent, ledgers_are_of_the_gathered, sets_are_of_the_gathered, tasks_differ,
};
pub use simulating::{SCHEDULE_LIMIT, SimFault, sim_text};
pub use step::{WorldAnswer, WorldFault, WorldStep};
pub use world::World;
