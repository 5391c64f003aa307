//! What the words of a command line ask for.

use crate::settings::{Lengths, Overview, Patches, Question, Reasons, Settings, Sought, Whole};

/// Where a log is read from.
#[derive(Clone, Copy, Debug, PartialEq, Drop)]
pub enum Input<'a> {
    /// Standard input.
    Standard,
    /// The file with this name.
    File(&'a str),
}

/// What is to be written of joined ledgers.
#[derive(Clone, Copy, Debug, PartialEq, Eq)]
pub enum Wanted {
    /// The report: all rows of each section, and the sums.
    Report,
    /// The summary: the rows that fail or warn, the sums of each run, and all sums.
    Summary,
    /// The ledger text.
    Ledger,
}

/// How ledgers are to be joined.
#[derive(Clone, Copy, Debug, PartialEq, Eq)]
pub enum Joining {
    /// Each is read whole, and its sections checked again.
    Load,
    /// They are merged as they are read, of any length, and their sections checked again.
    Merge,
    /// They are merged as they stand, and no section is checked again.
    Trust,
}

/// Which ledgers are to be joined.
#[derive(Debug, PartialEq, Drop)]
pub struct Files<'a> {
    /// The files of the ledgers, in the order of the words.
    pub names: Vec<&'a str>,
    /// The file that names further ones, one on each of its text lines, if there is one.
    pub list: Option<&'a str>,
    /// How they are joined.
    pub joining: Joining,
    /// How many threads check the sections of a merge: 1 to 64.
    pub workers: u32,
    /// What is written of them.
    pub wanted: Wanted,
}

/// How a log is to be cut, and into what.
#[derive(Clone, Copy, Debug, PartialEq, Drop)]
pub struct Cuts<'a> {
    /// How long the parts are.
    pub lengths: Lengths,
    /// The front of the names of the files that are written in the place of standard output, if any are.
    pub files: Option<&'a str>,
    /// The most bytes of such a file.
    pub bytes: u64,
}

/// In which world a schedule is to be played.
#[derive(Debug, PartialEq, Drop)]
pub struct Simulation<'a> {
    /// The file of the log whose sections the world is of.
    pub log: &'a str,
    /// How many workers there are.
    pub workers: u32,
    /// How many ledgers there are.
    pub ledgers: u32,
}

/// What the words of a command line ask for.
#[derive(Debug, PartialEq, Drop)]
pub enum Request<'a> {
    /// Check the log, and write its report, or its ledger text, to standard output.
    Check(Settings, Input<'a>),
    /// Read the log, and write the explanation of one event to standard output.
    Explain(Question, Input<'a>),
    /// Read the log, and write the explanation of each row that counts as fail to standard output.
    ExplainAll(Whole, Input<'a>),
    /// Read the log, and write where one event stands in it to standard output.
    Locate(Sought, Input<'a>),
    /// Read the log, and write why rows are no PASS, and what cures them, to standard output.
    Why(Reasons, Input<'a>),
    /// Read the log, and write it with the changes put in that are to cure its rows to standard output.
    Patch(Patches, Input<'a>),
    /// Read the log, and write what it holds to standard output.
    Lint(Overview, Input<'a>),
    /// Read the log on standard input, and write it with its sections cut to standard output, or to files.
    Cut(Cuts<'a>),
    /// Join the ledgers of the files, and write the report of all, or what else is wanted of them, to standard output.
    Join(Files<'a>),
    /// Play the schedule on standard input, and write what each step comes to, and each ledger's report, to standard
    /// output.
    Sim(Simulation<'a>),
}
