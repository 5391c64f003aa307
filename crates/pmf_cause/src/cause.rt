//! Why a row is no PASS.

use crate::lack::Lack;
use crate::need::Need;

/// Why a row counts as fail or as a warning. Places are those of events, counted from 1, and 0 is no place.
#[derive(Clone, Copy, Debug, PartialEq, Eq)]
pub enum Cause {
    /// The row's byte was not durable by the place that asked for it.
    NotDurable {
        /// What was asked for.
        need: Need,
        /// What is lacking.
        lack: Lack,
    },
    /// A line was written back already, or had nothing to write back.
    WrittenBackBefore {
        /// Its last write-back in front of this one, or 0.
        by: u32,
    },
    /// A byte was backed up already.
    BackedUpBefore {
        /// The last TXADD of it in front of this one.
        by: u32,
    },
    /// The transaction does not back the byte up.
    NotBackedUp {
        /// Where it began, the outermost one.
        begin: u32,
    },
    /// A scope ends in a transaction.
    TransactionRuns {
        /// Where it began, the outermost one.
        begin: u32,
    },
    /// No transaction runs.
    NoTransaction {
        /// The place in front that ended the last one that ran, or 0 where none did.
        ended: u32,
    },
    /// A scope is open.
    ScopeOpen {
        /// The CHECKSTART that opened it.
        start: u32,
    },
    /// No scope is open.
    NoScope {
        /// The place in front that closed the last one that was open, or 0 where none was.
        ended: u32,
    },
}
