//! Why a log is refused.

ghost use Rattle.std.specs.Prelude.{◌≡◌, ◌+◌};

use pmf_event::SpanFault;
use std::alloc::{AllocError, AllocFailed};
use std::error::Error;
use std::fmt;

/// The greatest length of a log, in bytes: 2^28.
pub const LOG_LIMIT: usize = 1 << 28;

/// The greatest number of sections of a log: 65,536.
pub const SECTION_LIMIT: usize = 1 << 16;

/// Why a log is refused. Within a record the first that applies decides, in this order:
/// UnknownMarker, TooFewFields, BadNumber, BadSpan, TooManySections, TooManyEvents, OutOfMemory.
#[derive(Clone, Copy, Debug, PartialEq, Eq)]
pub enum Cause {
    /// The record lacks a field that its name asks for.
    TooFewFields,
    /// A field that is to be a number is none, or is 2^64 or more.
    BadNumber,
    /// The numbers are no span. Of two spans the first one's fault comes first.
    BadSpan(SpanFault),
    /// The name begins with `PMT.` and is no marker that is known.
    UnknownMarker,
    /// The marker would make one section more than [`SECTION_LIMIT`].
    TooManySections,
    /// The event would be one too many in its section.
    TooManyEvents,
    /// The log has more than [`LOG_LIMIT`] bytes.
    TooLong,
    /// The room for a section, an event, an unfinished record or the list of sections was refused.
    OutOfMemory,
    /// The reader has refused before.
    Spent,
}

impl fmt::Display for Cause {
    ghost use Rattle.std.specs.Prelude.{Some};
    ghost use Rattle.pmf_storelog.specs.FaultText.{words_of_cause};

    ghost output = { λ cause. Some (words_of_cause cause) };

    fn fmt<W: fmt::Write>(&self, f: &mut fmt::Formatter<W>) -> fmt::Result {
        match self {
            Cause::TooFewFields => f.write_str("too few fields"),
            Cause::BadNumber => f.write_str("bad number"),
            Cause::BadSpan(fault) => write!(f, "{fault}"),
            Cause::UnknownMarker => f.write_str("unknown marker"),
            Cause::TooManySections => f.write_str("too many sections"),
            Cause::TooManyEvents => f.write_str("too many events in the section"),
            Cause::TooLong => f.write_str("log is too long"),
            Cause::OutOfMemory => f.write_str("out of memory"),
            Cause::Spent => f.write_str("the reader is spent"),
        }
    }
}

impl Error for Cause {}

/// The first fault of a log.
#[derive(Clone, Copy, Debug, PartialEq, Eq)]
pub struct LogFault {
    /// The number of the faulty record, counted from 1 over all records that aren't empty. With
    /// [`Cause::TooLong`] one more than the number of records that a separator among the first
    /// [`LOG_LIMIT`] bytes ended; with [`Cause::OutOfMemory`] and [`Cause::Spent`] 0.
    pub at: u64,
    /// Why it is refused.
    pub cause: Cause,
}

impl fmt::Display for LogFault {
    ghost use Rattle.std.specs.Prelude.{Some};
    ghost use Rattle.pmf_storelog.specs.FaultText.{text_of_fault};

    ghost output = { λ fault. Some (text_of_fault fault) };

    fn fmt<W: fmt::Write>(&self, f: &mut fmt::Formatter<W>) -> fmt::Result {
        if self.at == 0 {
            write!(f, "{}", self.cause)
        } else {
            write!(f, "record {}: {}", self.at, self.cause)
        }
    }
}

impl Error for LogFault {}

impl LogFault {
    /// Want of memory, which is no record's fault.
    pub(crate) const OUT_OF_MEMORY: LogFault = LogFault {
        at: 0,
        cause: Cause::OutOfMemory,
    };

    /// The answer of a reader that has refused before.
    pub(crate) const SPENT: LogFault = LogFault {
        at: 0,
        cause: Cause::Spent,
    };
}

impl<T: Drop> From<AllocFailed<T>> for Cause {
    ghost use Rattle.pmf_storelog.specs.declared.fault.Cause.TheVariants.{OutOfMemory};

    ghost from_gives = { λ _ cause. cause ≡ OutOfMemory };

    fn from(_refused: AllocFailed<T>) -> Cause {
        Cause::OutOfMemory
    }
}

impl From<AllocError> for LogFault {
    ghost use Rattle.pmf_storelog.specs.LogText.{out_of_memory};

    ghost from_gives = { λ _ fault. fault ≡ out_of_memory };

    fn from(_refused: AllocError) -> LogFault {
        LogFault::OUT_OF_MEMORY
    }
}

impl<T: Drop> From<AllocFailed<T>> for LogFault {
    ghost use Rattle.pmf_storelog.specs.LogText.{out_of_memory};

    ghost from_gives = { λ _ fault. fault ≡ out_of_memory };

    fn from(_refused: AllocFailed<T>) -> LogFault {
        LogFault::OUT_OF_MEMORY
    }
}
