//! Why a log gives no answer.

ghost use Rattle.std.specs.Prelude.{◌≡◌};

use pmf_request::Sought;
use pmf_storelog::LogFault;
use std::alloc::AllocError;
use std::error::Error;
use std::fmt;
use thiserror::Error;

/// Why a log is not told of: the first that applies, in this order.
#[derive(Clone, Copy, Debug, PartialEq, Eq, Error)]
pub enum LogRefusal {
    /// The log is refused, or room for its events was.
    #[error("{0}")]
    Log(LogFault),
    /// Room for a verdict or the text was refused.
    #[error("out of memory")]
    OutOfMemory,
}

impl From<AllocError> for LogRefusal {
    ghost use Rattle.pmf_query.specs.declared.refusal.LogRefusal.TheVariants.{OutOfMemory};

    ghost from_gives = { λ _ fault. fault ≡ OutOfMemory };

    fn from(_refused: AllocError) -> LogRefusal {
        LogRefusal::OutOfMemory
    }
}

/// Why an event of a log is not told of: the first that applies, in this order.
#[derive(Clone, Copy, Debug, PartialEq, Eq, Error)]
pub enum EventFault {
    /// The log is refused, or room for its events was.
    #[error("{0}")]
    Log(LogFault),
    /// The log has no section of this number.
    #[error("no such section")]
    NoSection,
    /// The section has no event of this number: it is 0, or above the number of its events.
    #[error("no such event")]
    NoEvent,
    /// Room for a verdict or the text was refused.
    #[error("out of memory")]
    OutOfMemory,
}

impl From<AllocError> for EventFault {
    ghost use Rattle.pmf_query.specs.declared.refusal.EventFault.TheVariants.{OutOfMemory};

    ghost from_gives = { λ _ fault. fault ≡ OutOfMemory };

    fn from(_refused: AllocError) -> EventFault {
        EventFault::OutOfMemory
    }
}

/// Why an event of a log is not told of, with the event.
#[derive(Clone, Copy, Debug, PartialEq, Eq)]
pub struct EventRefusal {
    /// The event.
    pub sought: Sought,
    /// Why it is not told of.
    pub fault: EventFault,
}

impl fmt::Display for EventRefusal {
    ghost use Rattle.std.specs.Prelude.{Some};
    ghost use Rattle.pmf_query.specs.Refusals.{text_of_refusal};

    ghost output = { λ refusal. Some (text_of_refusal refusal.sought refusal.fault) };

    fn fmt<W: fmt::Write>(&self, f: &mut fmt::Formatter<W>) -> fmt::Result {
        let sought = self.sought;
        match self.fault {
            EventFault::Log(fault) => write!(f, "{fault}"),
            EventFault::NoSection => write!(f, "no section {}.{}", sought.run, sought.section),
            EventFault::NoEvent => write!(
                f,
                "no event {} in section {}.{}",
                sought.event, sought.run, sought.section
            ),
            EventFault::OutOfMemory => f.write_str("out of memory"),
        }
    }
}

impl Error for EventRefusal {}
