//! What is kept of an event: its kind and a span, in 13 bytes.

ghost use Rattle.std.specs.Prelude.{◌≡◌, ◌≤◌, length};
ghost use Rattle.pmf_event.specs.{Packed.{IsWithin, behind, event_of, number_of, to_number}, declared.section.TheConstants.{EVENT_LIMIT}};

use crate::event::Event;
use crate::section::EVENT_LIMIT;
use crate::span::Span;

/// The number of an order assertion among those of its section. It takes 4 bytes and no alignment.
#[derive(Clone, Copy, Debug, PartialEq, Eq)]
pub(crate) struct Number {
    bytes: [u8; 4],
}

impl Number {
    pub(crate) fn new(number: u32) -> Number
        ensures { result ≡ to_number number }
    {
        Number {
            bytes: number.to_le_bytes(),
        }
    }

    pub(crate) fn value(self) -> u32
        ensures { result ≡ number_of self }
    {
        u32::from_le_bytes(self.bytes)
    }
}

/// What is kept of one event. An order assertion has two spans, by which each event would take 25 bytes; it names them by their number.
#[derive(Clone, Copy, Debug, PartialEq, Eq)]
pub(crate) enum Packed {
    Store(Span),
    Flush(Span),
    Fence,
    Persist(Span),
    Ordered(Number),
    Exclude(Span),
    Include(Span),
    TxBegin,
    TxAdd(Span),
    TxEnd,
    CheckStart,
    CheckEnd,
}

impl Packed {
    /// The event that is kept so, where these are the spans of order assertions.
    #[inline(always)]
    pub(crate) fn event(self, pairs: &[(Span, Span)]) -> Event
        requires { IsWithin (length pairs.now) self }
        ensures { result ≡ event_of pairs.now self }
    {
        match self {
            Packed::Store(span) => Event::Store(span),
            Packed::Flush(span) => Event::Flush(span),
            Packed::Fence => Event::Fence,
            Packed::Persist(span) => Event::Persist(span),
            Packed::Ordered(number) => {
                let (a, b) = pairs[number.value() as usize];
                Event::Ordered(a, b)
            }
            Packed::Exclude(span) => Event::Exclude(span),
            Packed::Include(span) => Event::Include(span),
            Packed::TxBegin => Event::TxBegin,
            Packed::TxAdd(span) => Event::TxAdd(span),
            Packed::TxEnd => Event::TxEnd,
            Packed::CheckStart => Event::CheckStart,
            Packed::CheckEnd => Event::CheckEnd,
        }
    }

    /// The same event, where so many order assertions stand before.
    pub(crate) fn behind(self, before: usize) -> Packed
        requires before { before ≤ EVENT_LIMIT }
        requires within { IsWithin EVENT_LIMIT self }
        ensures { result ≡ behind before self }
    {
        match self {
            Packed::Ordered(number) => {
                Packed::Ordered(Number::new(before as u32 + number.value()))
            }
            _ => self,
        }
    }
}
