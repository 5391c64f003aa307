//! The words of the command line, and what they ask for.
//!
//! [`request_of`] is a function of the words alone: the program's commands and options are a value of `specs/Words`, and
//! the request is of the command that the parser finds in the words.
//!
//! Not promised here: the words of help and of errors, or that a number spelled otherwise than in its plain decimal digits
//! is the one that is meant.
#![tactic(auto)]

mod commands;
mod options;
mod request;

pub use request::request_of;
