//! What a command can be asked for.
//!
//! Types alone, with no function: [`Request`] is what the words of a command line come to, [`Input`] where a log is read from, [`Joining`] how ledgers are joined and [`Wanted`] what is written of them, and
//! [`Settings`], [`Question`], [`Whole`], [`Sought`], [`Reasons`], [`Patches`], [`Overview`] and [`Lengths`] are what the commands are told. Each field is public, and any value of its
//! type is one.
//!
//! Not promised here: which words ask for which request (`pmf_words`), or what is done for it (`pmf_stream`).
#![tactic(auto)]

mod request;
mod settings;

pub use request::{Cuts, Files, Input, Joining, Request, Simulation, Wanted};
pub use settings::{Lengths, Overview, Patches, Question, Reasons, Settings, Sought, Whole};
