//! What the program does for the words of its command line, and how it ends.
//!
//! [`execute`] does what the words ask for, over the streams of `pmf_stream`; which words ask for what is said in
//! `pmf_words`. The statuses stand in `specs/Statuses`: each answer of a command has one, by [`Ending`], and the process ends with it,
//! by [`Ended`]; how each request is answered, from the bytes that are read to the status, is said once (`specs/Answered`). Every text that is written to standard output, help too, goes out by `write_text`.
//!
//! Not promised here: the words of help and fault lines.
#![tactic(auto)]

mod commands;
mod diagnostics;
mod ended;
mod ending;
mod files;
mod hints;
pub mod laws;
mod list;
mod requests;
mod shelf;
mod status;

pub use commands::execute;
pub use ended::Ended;
pub use ending::Ending;
pub use pmf_request::{
    Cuts, Files, Input, Joining, Lengths, Patches, Reasons, Request, Simulation, Wanted,
};
pub use pmf_words::request_of;
pub use status::Status;
