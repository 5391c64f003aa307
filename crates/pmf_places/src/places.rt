//! Places that are kept for bytes and for cache lines.

ghost use Rattle.std.specs.Prelude.{◌≡◌, ℕ, true, if◌then◌else◌, OnOk, refl};
ghost use Rattle.pmf_event.specs.{Line.{line_of_byte, meets_line}, Store.{flushes, stores}, Transactions.{adds}};
ghost use Rattle.pmf_runs.specs.Runs.{is_between, state_at};

use pmf_event::{Event, LINE_SIZE, Span, line_of};
use pmf_runs::{Change, Effect, RunMap, State};
use std::alloc::AllocError;

/// The place of an event, or 0.
#[derive(Clone, Copy, Debug, PartialEq, Eq)]
pub struct Place {
    /// The place.
    pub of: u32,
}

/// No place.
pub const NO_PLACE: Place = Place { of: 0 };

/// A summary says nothing: a change sets all places of its range to one.
impl State for Place {
    type Summary = ();

    ghost covers = { λ summary state. true };

    ghost unsettled = { λ state. true };

    ghost flagged = { λ flag s. s };

    ghost forgets = { λ first last s. refl };

    fn summary(&self) {}

    fn joined(_one: (), _other: ()) {}

    fn is_unsettled(&self) -> bool {
        true
    }

    fn may_be_unsettled(_summary: ()) -> bool {
        true
    }

    fn settled(_summary: ()) {}

    fn is_same(&self, other: Place) -> bool {
        *self == other
    }

    fn are_alike(_one: (), _other: ()) -> bool {
        true
    }

    fn flagged(self, _flag: bool) -> Place {
        self
    }

    fn summary_flagged(summary: (), _flag: bool) -> () {
        summary
    }
}

/// Sets the place of each.
#[derive(Clone, Copy, Debug, Drop)]
pub struct Put {
    /// The place.
    pub place: u32,
}

impl Change<Place> for Put {
    ghost changed = { λ put state. record { of = put.place } };

    fn changed(&self, _state: Place) -> Place {
        Place { of: self.place }
    }

    fn may_alter(&self, _summary: ()) -> bool {
        true
    }

    fn widened(&self, _summary: ()) {}

    fn effect(&self, _summary: (), _state: Place) -> Effect {
        Effect::Widens
    }
}

/// Puts the place at each byte of the lines that the event writes back.
#[tactic(auto, using(crate::proofs::PlaceLemmas::not_flushed))]
pub fn write_back(places: &mut RunMap<Place>, place: u32, event: &Event) -> Result<(), AllocError>
    ensures { OnOk result ((b : ℕ) → (state_at places.new b).of
        ≡ (if flushes (line_of_byte b) event.now then place else (state_at places.old b).of)) }
{
    match event {
        Event::Flush(span) => {
            let (first, end) = lines_of(span);
            places.change(first, end, &Put { place })?;
            Ok(())
        }
        _ => Ok(()),
    }
}

/// Puts the place at each byte that the event backs up.
#[tactic(auto, using(crate::proofs::PlaceLemmas::not_added))]
pub fn back_up(places: &mut RunMap<Place>, place: u32, event: &Event) -> Result<(), AllocError>
    ensures { OnOk result ((b : ℕ) → (state_at places.new b).of
        ≡ (if adds b event.now then place else (state_at places.old b).of)) }
{
    match event {
        Event::TxAdd(span) => {
            places.change(span.first(), span.end(), &Put { place })?;
            Ok(())
        }
        _ => Ok(()),
    }
}

/// Puts the place at each byte that the event stores to.
#[tactic(auto, using(crate::proofs::PlaceLemmas::not_stored))]
pub fn store(places: &mut RunMap<Place>, place: u32, event: &Event) -> Result<(), AllocError>
    ensures { OnOk result ((b : ℕ) → (state_at places.new b).of
        ≡ (if stores b event.now then place else (state_at places.old b).of)) }
{
    match event {
        Event::Store(span) => {
            places.change(span.first(), span.end(), &Put { place })?;
            Ok(())
        }
        _ => Ok(()),
    }
}

/// The first byte of the first line that the span meets, and the byte behind the last line.
#[tactic(auto, using(crate::proofs::PlaceLemmas::lines_met))]
pub fn lines_of(span: &Span) -> (u64, u64)
    ensures { (b : ℕ) → is_between result.0 result.1 b ≡ meets_line span.now (line_of_byte b) }
{
    let last = span.end() - 1;
    (line_of(span.first()), line_of(last) + LINE_SIZE)
}

/// The place where the one holds, else that before it.
pub fn place_if(holds: bool, place: u32, before: u32) -> u32
    ensures { result ≡ (if holds then place else before) }
{
    if holds { place } else { before }
}
