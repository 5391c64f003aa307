//! Which stores of a section no later assertion covers, and how many these are.

ghost use Rattle.std.specs.Prelude.{◌≡◌, ◌<◌, ◌^◌, ◌||◌, ◌&&◌, if◌then◌else◌, ℕ, suc, Bool, List, Some, length, IfOk, OnOk};
ghost use Rattle.pmf_event.specs.{declared.event.Event.{Event}, Places.{count}, Store.{event_at}};
ghost use Rattle.pmf_runs.specs.Runs.{state_at};
ghost use Rattle.pmf_lint.specs.{Covering.{is_in, is_inside, is_uncovered, names, stored_by, StandsAfter}, Marks.{Marks}};

use crate::inside::{closes, places_inside};
use pmf_event::{Event, Events, Span};
use pmf_runs::{IsIn, PutIn, RunMap};
use std::alloc::{AllocError, Global};

/// Of each event, by its index: whether it is a store that no later assertion covers. One walk from the last event to the first, with
/// a set of the bytes that later assertions name: each step takes O(log n) for n runs of such bytes. Takes memory for them, and a byte
/// for each event.
pub(crate) fn mark_uncovered(alloc: Global, events: &Events) -> Result<Vec<bool>, AllocError>
    requires { length events.now < 2 ^ 63 }
    ensures { IfOk result (λ marks. Marks (is_uncovered events.now) (length events.now) marks.items) }
{
    let mut marks = places_inside(alloc, events)?;
    let mut later = Later::new(alloc);
    let mut left = events.len();
    while left > 0 {
        left -= 1;
        let event = events.at(left);
        let missed = later.misses(&event, marks[left]);
        marks[left] = missed;
        later.follow(&event)?;
    }
    Ok(marks)
}

/// How many of the places are marked.
pub(crate) fn count_marked(marks: &[bool]) -> u64
    ensures { (test : ℕ → Bool) (n : ℕ) → Marks test n marks.now → result ≡ count test n }
{
    let mut count: u64 = 0;
    for marked in marks {
        count += one_if(*marked);
    }
    count
}

/// What is kept of the events after a place.
#[derive(Debug, Drop)]
pub(crate) struct Later {
    /// The bytes that their assertions of persistence and of an order name.
    pub(crate) named: RunMap<bool>,
    /// Whether one of them closes a scope.
    pub(crate) closed: bool,
}

impl Later {
    /// Of no event.
    fn new(alloc: Global) -> Later
        ensures { (es : List Event) → StandsAfter result es (length es) }
    {
        Later {
            named: RunMap::new(alloc, false),
            closed: false,
        }
    }

    /// Whether the event at the place is a store that none of them covers.
    #[tactic(auto, using(crate::proofs::CoverLemmas::missed, crate::proofs::CoverLemmas::missed_none))]
    fn misses(&self, event: &Event, inside: bool) -> bool
        ensures { (es : List Event) (p : ℕ) → event_at es (suc p) ≡ Some event.now
            → inside ≡ is_inside es (suc p) → StandsAfter self.now es (suc p)
            → result ≡ is_uncovered es (suc p) }
    {
        match stored(event) {
            Some(span) => {
                let named = self.named.first_where(span.first(), span.end(), &IsIn);
                !either(named.is_some(), both(inside, self.closed))
            }
            None => false,
        }
    }

    /// Goes on to the place before the event.
    fn follow(&mut self, event: &Event) -> Result<(), AllocError>
        ensures { (es : List Event) (p : ℕ) → event_at es (suc p) ≡ Some event.now → p < length es
            → StandsAfter self.old es (suc p) → OnOk result (StandsAfter self.new es p) }
    {
        let (one, other) = named_spans(event);
        put_in(&mut self.named, one)?;
        put_in(&mut self.named, other)?;
        self.closed = either(closes(event), self.closed);
        Ok(())
    }
}

// Puts the bytes of the span, if there is one, into the set.
#[tactic(auto, using(crate::proofs::CoverLemmas::put_there))]
fn put_in(set: &mut RunMap<bool>, span: Option<Span>) -> Result<(), AllocError>
    ensures { OnOk result ((b : ℕ) → state_at set.new b ≡ (state_at set.old b || is_in span b)) }
{
    match span {
        Some(span) => {
            set.change(span.first(), span.end(), &PutIn)?;
            Ok(())
        }
        None => Ok(()),
    }
}

pub(crate) fn one_if(holds: bool) -> u64
    ensures { result ≡ (if holds then 1 else 0) }
{
    if holds { 1 } else { 0 }
}

pub(crate) fn either(one: bool, other: bool) -> bool
    ensures { result ≡ (one || other) }
{
    one || other
}

pub(crate) fn both(one: bool, other: bool) -> bool
    ensures { result ≡ (one && other) }
{
    one && other
}

/// The span of a store.
pub(crate) fn stored(event: &Event) -> Option<Span>
    ensures { result ≡ stored_by event.now }
{
    match event {
        Event::Store(span) => Some(*span),
        Event::Flush(_) => None,
        Event::Fence => None,
        Event::Persist(_) => None,
        Event::Ordered(_, _) => None,
        Event::Exclude(_) => None,
        Event::Include(_) => None,
        Event::TxBegin => None,
        Event::TxAdd(_) => None,
        Event::TxEnd => None,
        Event::CheckStart => None,
        Event::CheckEnd => None,
    }
}

// The spans that an assertion of persistence or of an order names.
#[tactic(auto, unfolding(crate::specs::Covering::names))]
fn named_spans(event: &Event) -> (Option<Span>, Option<Span>)
    ensures { (b : ℕ) → names b event.now ≡ (is_in result.0 b || is_in result.1 b) }
{
    match event {
        Event::Persist(span) => (Some(*span), None),
        Event::Ordered(before, after) => (Some(*before), Some(*after)),
        Event::Store(_) => (None, None),
        Event::Flush(_) => (None, None),
        Event::Fence => (None, None),
        Event::Exclude(_) => (None, None),
        Event::Include(_) => (None, None),
        Event::TxBegin => (None, None),
        Event::TxAdd(_) => (None, None),
        Event::TxEnd => (None, None),
        Event::CheckStart => (None, None),
        Event::CheckEnd => (None, None),
    }
}
