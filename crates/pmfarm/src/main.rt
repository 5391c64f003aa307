//! The command `pmfarm`: a log that is read, and a report on standard output.
//!
//! What the words ask for is done by [`pmf_command::execute`], over the streams of `pmf_stream`. The public calls
//! of both are the program's, and stand here by name.
//!
//! Not promised here: what a device does with the bytes, or the words of help and fault lines.
#![tactic(auto)]

#[cfg(test)]
mod words_tests;

pub use pmf_command::{
    Cuts, Ended, Files, Input, Joining, Lengths, Patches, Reasons, Request, Simulation, Status,
    Wanted, request_of,
};
pub use pmf_device::{
    Counted, Cut, Device, Failed, Page, Sink, Source, StdSink, StdSource, Stop, write_text,
};
pub use pmf_farm::{FarmFault, Gate, OpenGate, Turn};
pub use pmf_lint::{Linted, Overview, Survey};
pub use pmf_query::{
    Answer, EventFault, EventRefusal, LogRefusal, Query, Question, Sought, StreamedQuery,
    Unanswered, Whole, explain_all, explain_text,
};
pub use pmf_stream::{
    CheckLogFault, Done, Excerpt, JoinTextFault, Joined, Settings, StreamFault, answer_stream,
    check_stream, join_texts, join_to, read_all, recite_stream, sim_to,
};
pub use pmf_why::{Patch, PatchRefusal, Way, Why, patch_text, tell_why};
pub use pmf_world::{
    MOST_LEDGERS, SCHEDULE_LIMIT, SimFault, World, WorldAnswer, WorldFault, WorldNewFault,
    WorldStep, sim_text,
};

fn main(rt: HostRuntime) -> Ended {
    pmf_command::execute(&rt, &rt)
}
