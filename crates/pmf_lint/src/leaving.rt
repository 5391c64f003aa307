//! Which stores of a section are not durable at its end.

ghost use Rattle.std.specs.Prelude.{◌≡◌, ◌==◌, ◌&&◌, ◌||◌, ◌<◌, ℕ, suc, Bool, false, List, Some, length, slice_index_or, ◌≤◌, IfOk};
ghost use Rattle.pmf_event.specs.{declared.event.Event.{Event}, declared.section.TheConstants.{EVENT_LIMIT}, declared.span.TheConstants.{ADDRESS_LIMIT}, Places.{count}, Store.{event_at}};
ghost use Rattle.pmf_shadow.specs.{Shadow.{StandsFor}, Standing.{AllLeaveOpen}};
ghost use Rattle.pmf_lint.specs.{Leaving.{AreLeft, AreLeftBelow, is_hit, is_left, is_left_unwritten, leaves_unfenced, leaves_unwritten, some_below}, Marks.{Marks}};

use crate::covering::{both, either, one_if, stored};
use pmf_event::{ADDRESS_LIMIT, Event, Events, Span};
use pmf_shadow::{Shadow, Standing};
use std::alloc::{AllocError, Global};

/// How many bytes are few.
const FEW: u64 = 64;

/// Of each event of a section, by its index: what it leaves at the end.
#[derive(Debug, Drop)]
pub(crate) struct Left {
    /// Whether it is a store with a byte that is not durable there.
    pub(crate) left: Vec<bool>,
    /// Whether it is one with such a byte that no write-back follows.
    pub(crate) unwritten: Vec<bool>,
}

impl Left {
    /// What the events leave for which the shadow stands, each told at its place. Where each store has a few bytes, these are looked at,
    /// and else each run of bytes that is not durable. Takes two bytes for each event.
    pub(crate) fn of(alloc: Global, shadow: &Shadow, events: &Events) -> Result<Left, AllocError>
        requires { length events.now ≤ EVENT_LIMIT }
        ensures { IfOk result (λ left. StandsFor shadow.now (λ k. k) events.now (length events.now) → AreLeft events.now left) }
    {
        let left = if are_narrow(events) {
            Left::by_stores(alloc, shadow, events)?
        } else {
            Left::by_runs(alloc, shadow, events.len())?
        };
        Ok(left)
    }

    // By the bytes of each store: a step or two for each.
    fn by_stores(alloc: Global, shadow: &Shadow, events: &Events) -> Result<Left, AllocError>
        requires { length events.now ≤ EVENT_LIMIT }
        ensures { IfOk result (λ left. StandsFor shadow.now (λ k. k) events.now (length events.now) → AreLeft events.now left) }
    {
        let mut all = Vec::with_capacity(alloc, events.len())?;
        let mut unwritten = Vec::with_capacity(alloc, events.len())?;
        let mut place: u32 = 0;
        for index in 0..events.len() {
            place += 1;
            let (one, other) = left_by(shadow, place, &events.at(index));
            all.push(one)?;
            unwritten.push(other)?;
        }
        Ok(Left {
            left: all,
            unwritten,
        })
    }

    // By one look at each run of bytes that is not durable: O(log n) steps for each of n runs.
    fn by_runs(alloc: Global, shadow: &Shadow, places: usize) -> Result<Left, AllocError>
        ensures { IfOk result (λ left. (es : List Event) → length es ≡ places → StandsFor shadow.now (λ k. k) es places → AreLeft es left) }
    {
        let mut left = Left {
            left: none_of(alloc, places)?,
            unwritten: none_of(alloc, places)?,
        };
        let mut first = 0;
        while first < ADDRESS_LIMIT {
            let (standing, end) = shadow.open_from(first, ADDRESS_LIMIT);
            left.mark(standing);
            first = end;
        }
        Ok(left)
    }

    /// How many stores leave a byte that no write-back follows, and how many others one that no fence follows.
    pub(crate) fn counts(&self) -> (u64, u64)
        ensures unwritten { (es : List Event) → AreLeft es self.now → result.0 ≡ count (leaves_unwritten es) (length es) }
        ensures unfenced { (es : List Event) → AreLeft es self.now → result.1 ≡ count (leaves_unfenced es) (length es) }
    {
        let mut unwritten: u64 = 0;
        let mut unfenced: u64 = 0;
        for index in 0..self.left.len() {
            unwritten += one_if(self.is_unwritten(index));
            unfenced += one_if(self.is_unfenced(index));
        }
        (unwritten, unfenced)
    }

    /// Whether the event at the index is a store with a byte that no write-back follows.
    pub(crate) fn is_unwritten(&self, index: usize) -> bool
        ensures { (es : List Event) → AreLeft es self.now → index < length es → result ≡ leaves_unwritten es (suc index) }
    {
        if index < self.unwritten.len() {
            return self.unwritten[index];
        }
        false
    }

    /// Whether it is another one, with a byte that no fence follows.
    pub(crate) fn is_unfenced(&self, index: usize) -> bool
        ensures { (es : List Event) → AreLeft es self.now → index < length es → result ≡ leaves_unfenced es (suc index) }
    {
        if self.is_unwritten(index) {
            return false;
        }
        if index < self.left.len() {
            return self.left[index];
        }
        false
    }

    /// Of each event, by its index: whether it is such another one.
    pub(crate) fn all_unfenced(&self, alloc: Global) -> Result<Vec<bool>, AllocError>
        ensures { IfOk result (λ marks. (es : List Event) → AreLeft es self.now → Marks (leaves_unfenced es) (length es) marks.items) }
    {
        let mut marks = Vec::with_capacity(alloc, self.left.len())?;
        for index in 0..self.left.len() {
            marks.push(self.is_unfenced(index))?;
        }
        Ok(marks)
    }

    // Marks the store of some neighbouring bytes that stand so.
    fn mark(&mut self, standing: Standing)
        ensures { (es : List Event) (first end : ℕ) → first < end → AllLeaveOpen (λ k. k) es (length es) first end standing
            → AreLeftBelow es first self.old → AreLeftBelow es end self.new }
    {
        let Some(last) = standing.last else {
            return;
        };
        let left = both(standing.undurable, !standing.excluded);
        mark_if(&mut self.left, last, left);
        mark_if(&mut self.unwritten, last, both(left, standing.unwritten));
    }
}

/// Whether each store has a few bytes. For speed alone: these may be looked at again for each store of them.
pub(crate) fn are_narrow(events: &Events) -> bool {
    for index in 0..events.len() {
        if let Some(span) = stored(&events.at(index)) {
            if span.size() > FEW {
                return false;
            }
        }
    }
    true
}

// Whether the event at the place is a store with a byte that is not durable at the end, and with one that no write-back follows.
fn left_by(shadow: &Shadow, place: u32, event: &Event) -> (bool, bool)
    ensures { (es : List Event) → StandsFor shadow.now (λ k. k) es (length es) → event_at es place ≡ Some event.now
        → (result.0 ≡ some_below (is_left es place) ADDRESS_LIMIT) × (result.1 ≡ some_below (is_left_unwritten es place) ADDRESS_LIMIT) }
{
    match stored(event) {
        Some(span) => left_in(shadow, place, span),
        None => (false, false),
    }
}

// The same of a store to the span.
fn left_in(shadow: &Shadow, place: u32, span: Span) -> (bool, bool)
    ensures { (es : List Event) → StandsFor shadow.now (λ k. k) es (length es) → event_at es place ≡ Some (Event.Store span)
        → (result.0 ≡ some_below (is_left es place) ADDRESS_LIMIT) × (result.1 ≡ some_below (is_left_unwritten es place) ADDRESS_LIMIT) }
{
    let mut left = false;
    let mut unwritten = false;
    let mut first = span.first();
    let end = span.end();
    while first < end {
        let (standing, next) = shadow.open_from(first, end);
        let hit = is_hit(&standing, place);
        left = either(left, hit);
        unwritten = either(unwritten, both(hit, standing.unwritten));
        first = next;
    }
    (left, unwritten)
}

// Whether bytes that stand so are left by the store at the place.
fn is_hit(standing: &Standing, place: u32) -> bool
    ensures { result ≡ is_hit standing.now place }
{
    match standing.last {
        Some(last) => both(both(standing.undurable, !standing.excluded), place == last),
        None => false,
    }
}

// So many places, none of them marked.
fn none_of(alloc: Global, places: usize) -> Result<Vec<bool>, AllocError>
    ensures long { IfOk result (λ marks. length marks.items ≡ places) }
    ensures none { IfOk result (λ marks. (k : ℕ) (d : Bool) → k < places → slice_index_or marks.items k d ≡ false) }
{
    let mut marks = Vec::with_capacity(alloc, places)?;
    for _ in 0..places {
        marks.push(false)?;
    }
    Ok(marks)
}

// Marks the place where this is so.
fn mark_if(marks: &mut Vec<bool>, place: u32, marked: bool)
    ensures long { length marks.new.items ≡ length marks.old.items }
    ensures each { (k : ℕ) (d : Bool) → k < length marks.old.items
        → slice_index_or marks.new.items k d ≡ (slice_index_or marks.old.items k d || marked && suc k == place) }
{
    if !marked {
        return;
    }
    if place == 0 {
        return;
    }
    let index = place as usize - 1;
    if index < marks.len() {
        marks[index] = true;
    }
}
