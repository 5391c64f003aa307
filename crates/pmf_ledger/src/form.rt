//! What is written of a ledger.

/// What is written of a ledger.
#[derive(Clone, Copy, Debug, PartialEq, Eq)]
pub enum Form {
    /// Its report: all rows of each section, and the sums.
    Report,
    /// Its summary: the rows of each section that fail or warn, the sums of each run, and all sums. It is no ledger text.
    Summary,
    /// Its own text, which can be loaded.
    Ledger,
}
