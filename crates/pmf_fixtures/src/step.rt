//! Events by their numbers, as a test writes them.

use pmf_event::{Event, Span, SpanFault};
use std::alloc::{AllocFailed, Global};

/// An event by its numbers: the first byte and the size of each span.
#[derive(Clone, Copy, Debug, PartialEq, Eq)]
pub enum Step {
    Store(u64, u64),
    Flush(u64, u64),
    Fence,
    Persist(u64, u64),
    Ordered((u64, u64), (u64, u64)),
    Exclude(u64, u64),
    Include(u64, u64),
    TxBegin,
    TxAdd(u64, u64),
    TxEnd,
    CheckStart,
    CheckEnd,
}

/// A store to eight bytes of the line 0x1000.
pub const STORE: Step = Step::Store(0x1000, 8);

/// A write-back of that line.
pub const FLUSH: Step = Step::Flush(0x1000, 0x40);

pub const FENCE: Step = Step::Fence;

/// A store to another line.
pub const OTHER: Step = Step::Store(0x2000, 8);

/// Why a list of steps gives no events.
#[derive(Clone, Copy, Debug, PartialEq, Eq, thiserror::Error)]
pub enum Refused {
    #[error("{0}")]
    NoSpan(SpanFault),
    #[error("out of memory")]
    OutOfMemory,
}

impl From<SpanFault> for Refused {
    fn from(fault: SpanFault) -> Refused {
        Refused::NoSpan(fault)
    }
}

impl<T: Drop> From<AllocFailed<T>> for Refused {
    fn from(_refused: AllocFailed<T>) -> Refused {
        Refused::OutOfMemory
    }
}

impl Step {
    /// The event, or why one of its spans is none.
    pub fn event(self) -> Result<Event, SpanFault> {
        match self {
            Step::Store(first, size) => Ok(Event::Store(Span::make(first, size)?)),
            Step::Flush(first, size) => Ok(Event::Flush(Span::make(first, size)?)),
            Step::Fence => Ok(Event::Fence),
            Step::Persist(first, size) => Ok(Event::Persist(Span::make(first, size)?)),
            Step::Ordered(a, b) => {
                let first = Span::make(a.0, a.1)?;
                let second = Span::make(b.0, b.1)?;
                Ok(Event::Ordered(first, second))
            }
            Step::Exclude(first, size) => Ok(Event::Exclude(Span::make(first, size)?)),
            Step::Include(first, size) => Ok(Event::Include(Span::make(first, size)?)),
            Step::TxBegin => Ok(Event::TxBegin),
            Step::TxAdd(first, size) => Ok(Event::TxAdd(Span::make(first, size)?)),
            Step::TxEnd => Ok(Event::TxEnd),
            Step::CheckStart => Ok(Event::CheckStart),
            Step::CheckEnd => Ok(Event::CheckEnd),
        }
    }
}

/// The events of these steps.
pub fn events_of(alloc: Global, steps: &[Step]) -> Result<Vec<Event>, Refused> {
    let mut events = Vec::new(alloc);
    for step in steps {
        let event = step.event()?;
        events.push(event)?;
    }
    Ok(events)
}
