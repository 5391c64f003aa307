//! Maps from numbers to states that are kept as runs of equal states, in leaves under summaries.
//!
//! A [`RunMap`] is a total function from numbers to states, by `specs/Runs`. A change alters exactly its
//! range, and leaves no two neighbours of a leaf alike; a question is a search of `pmf_event`'s
//! `specs/Ranges` over the states. What a summary tells of some states bears on time alone.
//!
//! Not promised here: how much memory a map takes, how long a change or a question takes, and that two
//! leaves differ at their border, or two runs that are yet to be given a flag.
#![tactic(auto)]

mod flagged;
mod group;
mod keys;
mod leaf;
mod level;
mod members;
mod page;
mod part;
mod room;
mod runs;
mod state;
#[cfg(test)]
mod tests;
mod walk;

pub use members::{IsIn, IsOut, Members, PutIn};
pub use runs::RunMap;
pub use state::{Change, Effect, Key, State, Test};
