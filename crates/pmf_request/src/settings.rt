//! What a command is asked for.

use pmf_event::Profile;

/// What `check` is told by its words.
#[derive(Clone, Copy, Debug, PartialEq, Eq)]
pub struct Settings {
    /// How many workers check the sections: 1 to 64.
    pub workers: u32,
    /// The run in the name of each section.
    pub run: u64,
    /// By which rule order assertions judge two bytes of one line.
    pub profile: Profile,
    /// Whether the ledger text is written in the place of the report.
    pub ledger: bool,
    /// Whether the log is looked through for warnings as well, and something has to pass.
    pub strict: bool,
}

/// What `explain` is told by its words.
#[derive(Clone, Copy, Debug, PartialEq, Eq)]
pub struct Question {
    /// The run in the name of each section.
    pub run: u64,
    /// By which rule order assertions judge two bytes of one line.
    pub profile: Profile,
    /// The number of the section.
    pub section: u64,
    /// The place of the event in its section, from 1.
    pub event: u32,
}

/// What `locate` is told by its words.
#[derive(Clone, Copy, Debug, PartialEq, Eq)]
pub struct Sought {
    /// The run in the name of each section.
    pub run: u64,
    /// The number of the section.
    pub section: u64,
    /// The place of the event in its section, from 1.
    pub event: u32,
}

/// What `explain --all` is told by its words.
#[derive(Clone, Copy, Debug, PartialEq, Eq)]
pub struct Whole {
    /// The run in the name of each section.
    pub run: u64,
    /// By which rule order assertions judge two bytes of one line.
    pub profile: Profile,
    /// The most rows that are explained, if it is named.
    pub first: Option<u32>,
}

/// What `why` is told by its words.
#[derive(Clone, Copy, Debug, PartialEq, Eq)]
pub struct Reasons {
    /// The run in the name of each section.
    pub run: u64,
    /// By which rule order assertions judge two bytes of one line.
    pub profile: Profile,
    /// The number of the only section that is told of, if one is named.
    pub section: Option<u64>,
    /// The place of the only event that is told of, if one is named: that of each section, from 1.
    pub event: Option<u32>,
    /// The most rows that are told.
    pub first: u32,
    /// Whether each row is told, and not the first of each kind alone.
    pub all: bool,
}

/// What `why --patch` is told by its words.
#[derive(Clone, Copy, Debug, PartialEq, Eq)]
pub struct Patches {
    /// The run in the name of each section.
    pub run: u64,
    /// By which rule order assertions judge two bytes of one line.
    pub profile: Profile,
    /// The number of the only section that is changed, if one is named.
    pub section: Option<u64>,
}

/// What `lint` is told by its words.
#[derive(Clone, Copy, Debug, PartialEq, Eq)]
pub struct Overview {
    /// Whether the stores are named that no assertion covers.
    pub unasserted: bool,
}

/// What `cut` is told by its words.
#[derive(Clone, Copy, Debug, PartialEq, Eq)]
pub struct Lengths {
    /// The most events of a part: 1 to 2^20.
    pub events: u32,
    /// What a part's number is above that of the one before it.
    pub step: u64,
}
