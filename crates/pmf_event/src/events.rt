//! The events of a section, 13 bytes for each.

ghost use Rattle.std.specs.Vec.{vec_len, vec_capacity};
ghost use Rattle.std.specs.Prelude.{◌≡◌, ◌↔◌, ◌+◌, ◌≤◌, ◌<◌, [], ◌∷◌, ◌++◌, length, map, suc, Some, slice_get, IsTrue, OnOk, OnErr};
ghost use Rattle.pmf_event.specs.{Packed.{AreWithin, IsWithin, behind, event_of}, Store.{event_at}, declared.event.Event.TheVariants.{Ordered}, declared.section.TheConstants.{EVENT_LIMIT}};

use crate::event::Event;
use crate::packed::{Number, Packed};
use crate::section::EVENT_LIMIT;
use crate::span::Span;
use std::alloc::{AllocError, Global};
use std::marker::Model;

/// A list of at most [`EVENT_LIMIT`] events. An event takes 13 bytes, and an order assertion 24 more.
#[derive(Debug, Drop)]
pub struct Events {
    packed: Vec<Packed>,
    /// The spans of order assertions.
    pairs: Vec<(Span, Span)>,
}

impl Model for Events {
    ghost use Rattle.std.specs.Prelude.{◌≤◌, List, length, map};
    ghost use Rattle.pmf_event.specs.{Packed.{event_of, AreWithin}, declared.event.Event.{Event}, declared.section.TheConstants.{EVENT_LIMIT}};

    ghost Value = { List Event };

    ghost view = { λ s. map (event_of s.pairs.items) s.packed.items };

    ghost invariant = { λ s. (length s.packed.items ≤ EVENT_LIMIT) × (length s.pairs.items ≤ length s.packed.items) × AreWithin (length s.pairs.items) s.packed.items };
}

impl Events {
    /// No events. Takes no memory.
    pub fn new(alloc: Global) -> Events
        ensures { result ≡ [] }
    {
        Events {
            packed: Vec::new(alloc),
            pairs: Vec::new(alloc),
        }
    }

    /// How many events there are.
    #[inline(always)]
    pub fn len(&self) -> usize
        ensures value { result ≡ length self.now }
        ensures limit { length self.now ≤ EVENT_LIMIT }
    {
        self.packed.len()
    }

    /// Whether there are none.
    pub fn is_empty(&self) -> bool
        ensures { IsTrue result ↔ (self.now ≡ []) }
    {
        self.len() == 0
    }

    /// The event at this index, which is that of the place behind it.
    #[inline(always)]
    pub fn at(&self, index: usize) -> Event
        requires { index < length self.now }
        ensures value { slice_get self.now index ≡ Some result }
        ensures place { event_at self.now (suc index) ≡ Some result }
    {
        self.packed[index].event(&self.pairs)
    }

    /// The event at this index, if there is one.
    pub fn get(&self, index: usize) -> Option<Event>
        ensures { result ≡ slice_get self.now index }
    {
        if index < self.len() {
            Some(self.at(index))
        } else {
            None
        }
    }

    /// Adds the event at the end. After an `Err` the events are unchanged.
    #[inline(always)]
    pub(crate) fn push(&mut self, event: Event) -> Result<(), AllocError>
        requires { length self.old < EVENT_LIMIT }
        ensures ok { OnOk result (self.new ≡ self.old ++ event ∷ []) }
        ensures unchanged { OnErr result (self.new ≡ self.old) }
    {
        match event {
            Event::Store(span) => self.pack(Packed::Store(span)),
            Event::Flush(span) => self.pack(Packed::Flush(span)),
            Event::Fence => self.pack(Packed::Fence),
            Event::Persist(span) => self.pack(Packed::Persist(span)),
            Event::Ordered(a, b) => self.pack_ordered(a, b),
            Event::Exclude(span) => self.pack(Packed::Exclude(span)),
            Event::Include(span) => self.pack(Packed::Include(span)),
            Event::TxBegin => self.pack(Packed::TxBegin),
            Event::TxAdd(span) => self.pack(Packed::TxAdd(span)),
            Event::TxEnd => self.pack(Packed::TxEnd),
            Event::CheckStart => self.pack(Packed::CheckStart),
            Event::CheckEnd => self.pack(Packed::CheckEnd),
        }
    }

    // Adds an event that is no order assertion.
    #[inline(always)]
    fn pack(&mut self, packed: Packed) -> Result<(), AllocError>
        requires room { length self.old < EVENT_LIMIT }
        requires alone { IsWithin 0 packed }
        ensures ok { OnOk result (self.new ≡ self.old ++ event_of [] packed ∷ []) }
        ensures unchanged { OnErr result (self.new ≡ self.old) }
    {
        self.packed.push(packed)?;
        Ok(())
    }

    // Adds an order assertion.
    fn pack_ordered(&mut self, a: Span, b: Span) -> Result<(), AllocError>
        requires { length self.old < EVENT_LIMIT }
        ensures ok { OnOk result (self.new ≡ self.old ++ Ordered a b ∷ []) }
        ensures unchanged { OnErr result (self.new ≡ self.old) }
    {
        self.packed.reserve(1)?;
        self.pairs.reserve(1)?;
        let number = Number::new(self.pairs.len() as u32);
        self.pairs.push_reserved((a, b));
        self.packed.push_reserved(Packed::Ordered(number));
        Ok(())
    }

    /// Adds the other events behind these. Where there are none, it takes those over as they lie. After an `Err` the events are unchanged.
    pub(crate) fn append(&mut self, more: Events) -> Result<(), AllocError>
        requires { length self.old + length more ≤ EVENT_LIMIT }
        ensures ok { OnOk result (self.new ≡ self.old ++ more) }
        ensures unchanged { OnErr result (self.new ≡ self.old) }
    {
        if self.is_empty() {
            *self = more;
            return Ok(());
        }
        let before = self.pairs.len();
        self.packed.reserve(more.packed.len())?;
        self.pairs.extend_from_slice(&more.pairs)?;
        put_behind(&mut self.packed, &more.packed, before);
        Ok(())
    }

    /// Whether they are the same events.
    pub fn same_as(&self, other: &Events) -> bool
        ensures { IsTrue result ↔ (self.now ≡ other.now) }
    {
        if is_kept(&self.packed, &other.packed) && are_pairs(&self.pairs, &other.pairs) {
            return true;
        }
        self.are_equal(other)
    }

    // The same, event by event: order assertions may be kept otherwise.
    fn are_equal(&self, other: &Events) -> bool
        ensures { IsTrue result ↔ (self.now ≡ other.now) }
    {
        if self.len() != other.len() {
            return false;
        }
        for index in 0..self.len() {
            if !is_same(self.at(index), other.at(index)) {
                return false;
            }
        }
        true
    }
}

// Whether these are kept alike.
fn is_kept(packed: &[Packed], other: &[Packed]) -> bool
    ensures { IsTrue result → packed.now ≡ other.now }
{
    packed == other
}

// Whether these are the same spans.
fn are_pairs(pairs: &[(Span, Span)], other: &[(Span, Span)]) -> bool
    ensures { IsTrue result → pairs.now ≡ other.now }
{
    pairs == other
}

// Whether it is the same event.
fn is_same(event: Event, other: Event) -> bool
    ensures { IsTrue result ↔ (event ≡ other) }
{
    event == other
}

// Adds these events, before which so many order assertions stand.
fn put_behind(packed: &mut Vec<Packed>, more: &[Packed], before: usize)
    requires room { vec_len packed.old + length more.now ≤ vec_capacity packed.old }
    requires before { before ≤ EVENT_LIMIT }
    requires within { AreWithin EVENT_LIMIT more.now }
    ensures { packed.new.items ≡ packed.old.items ++ map (behind before) more.now }
{
    for one in more {
        packed.push_reserved(one.behind(before));
    }
}
