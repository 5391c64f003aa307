//! The events of a section.

use crate::span::Span;

/// What one record of a section's log says. A section's events are numbered from 1 by their place.
#[derive(Clone, Copy, Debug, PartialEq, Eq)]
pub enum Event {
    /// A store to the bytes of the span.
    Store(Span),
    /// A write-back (CLWB) of every cache line that the span meets.
    Flush(Span),
    /// A store fence (SFENCE).
    Fence,
    /// Asserts that the last store of each checked byte of the span is durable.
    Persist(Span),
    /// Asserts that the first span's last stores were durable before the second's were made.
    Ordered(Span, Span),
    /// Takes the bytes of the span out of every check.
    Exclude(Span),
    /// Takes the bytes of the span back into the checks.
    Include(Span),
    /// Begins a transaction, or a nested one.
    TxBegin,
    /// Backs the bytes of the span up in the running transaction.
    TxAdd(Span),
    /// Ends the innermost transaction.
    TxEnd,
    /// Opens the scope of the transaction checker.
    CheckStart,
    /// Closes the scope of the transaction checker.
    CheckEnd,
}

impl Event {
    ghost use Rattle.pmf_event.specs.Section.{IsValidEvent};

    /// Does nothing. It says that each span of the event is valid, as every span is.
    pub fn has_valid_spans(&self)
        ensures { IsValidEvent self.now }
    {
        match self {
            Event::Store(span) => {
                span.first();
            }
            Event::Flush(span) => {
                span.first();
            }
            Event::Persist(span) => {
                span.first();
            }
            Event::Ordered(a, b) => {
                a.first();
                b.first();
            }
            Event::Exclude(span) => {
                span.first();
            }
            Event::Include(span) => {
                span.first();
            }
            Event::TxAdd(span) => {
                span.first();
            }
            _ => {}
        }
    }
}
