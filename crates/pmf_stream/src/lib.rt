//! What each command does over streams of bytes: reads, checks or answers, and writes one text.
//!
//! What is read comes from a `Source`, what is written goes to a `Sink`, both of `pmf_device`, which count their failed calls. What a
//! command answers is one definition of its own (`specs/Checking`, `specs/Joining`, `specs/Simulated`, and of each question of
//! `pmf_query`, by [`answer_stream`] or [`recite_stream`], that question's) in the words of one skeleton (`specs/Answering`): at Ok its
//! whole text was written, at WriteFault exactly so many bytes of it, and ReadFault and WriteFault are told exactly where a read or a
//! write failed.
//!
//! Not promised here: what a device does with the bytes, or that memory suffices.
#![tactic(auto)]

mod ahead;
mod answering;
mod beside;
mod checking;
mod cutting;
mod excerpt;
mod fault;
mod joining;
mod memory;
mod outlet;
mod reading;
mod simulating;
#[cfg(test)]
mod tests;
mod writing;

pub use answering::{answer_stream, recite_stream};
pub use checking::{CheckLogFault, Done, check_stream};
pub use cutting::{Notes, Pieces, cut_stream};
pub use excerpt::Excerpt;
pub use fault::StreamFault;
pub use joining::{JoinTextFault, Joined, join_texts, join_to};
pub use outlet::{NoFile, Outlet, write_whole};
pub use pmf_request::Settings;
pub use reading::read_all;
pub use simulating::sim_to;
pub use writing::write_answer;
