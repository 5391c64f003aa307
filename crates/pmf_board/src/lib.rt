//! The board: which sections were handed out and which are done, for workers on threads of their own, with no lock.
//!
//! A [`Board`] has a word for each section, its hand-outs (0 to 8) and whether it is done; each call is a few atomic
//! steps on such words, and only [`Board::new`] takes memory. Every worker has a [`Pass`]. Contracts see of it a view:
//! what it took, marked and saw, and its shares (`specs/Views`). [`Board::take_fresh`] and [`Board::take_again`] give a
//! [`Task`] that was found on offer, with a number above all that the pass had seen, or tell that each section was seen
//! handed out or done; what a pass marked or saw done is done for ever, by [`Board::is_done`] and by takes, and its
//! hand-outs are what they were then. Passes are split and joined; no hand-out is in two. Who holds all 65 shares closes
//! the board and knows it whole: its [`Tally`] has each hand-out that the pass took, once, and as done just what it
//! marked.
//!
//! The definitions: `specs/Machine` (what stands of a section, takes and marks, with no word of atomics), `specs/Rule`
//! (what holds of the words and of the views of all passes, between any two steps), `specs/Laws` (that the words and
//! the rule follow the machine), `specs/Steps` (what one step tells), `specs/Calls` (what a call does to what its pass
//! knows), `specs/Passes`.
//!
//! Not promised here: that memory suffices, who takes what, how often a lost exchange is tried again, or anything
//! between passes that never meet beyond the rule.
#![tactic(auto)]

mod board;
mod closing;
mod entry;
mod fault;
mod laws;
mod marking;
mod pass;
mod passing;
mod rule;
mod steps;
mod taking;
mod tally;
mod task;
#[cfg(test)]
mod tests;
mod view;

pub use board::{Board, MOST_SECTIONS, MOST_WORKERS};
pub use entry::Entry;
pub use fault::BoardFault;
pub use laws::words_follow_the_machine;
pub use pass::Pass;
pub use tally::Tally;
pub use task::Task;
pub use view::{Sight, View};
