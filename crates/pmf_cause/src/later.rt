//! What is kept of the events behind a place, from a section's last event on.

ghost use Rattle.std.specs.Prelude.{◌≡◌, ◌<◌, ◌≤◌, ℕ, suc, true, false, get_or, List, Some, length, IfOk, OnOk};
ghost use Rattle.pmf_event.specs.{declared.event.Event.{Event}, declared.row.Row.{Row}, declared.section.TheConstants.{EVENT_LIMIT}, Line.{line_of_byte}, Store.{event_at, is_fence}};
ghost use Rattle.pmf_cause.specs.{Cause.{write_back_after}, Later.{AllAsk, AreBehind, AreFences, AreFencesFor, AreInOrder, IsLater, asked, asks_byte, behind_row}, Watching.{Asks, has_line}, declared.watch.Watch.{Watch}};

use crate::past::write_back_watched;
use crate::watch::Watch;
use pmf_event::{Event, Events, Finding, Row};
use pmf_places::{NO_PLACE, Place, place_if};
use pmf_runs::RunMap;
use std::alloc::{AllocError, Global};

/// What is kept of the events behind a place, for some lines.
#[derive(Debug, Drop)]
pub(crate) struct Later {
    pub(crate) place: u32,
    /// For each byte the first write-back of its line.
    pub(crate) written_back: RunMap<Place>,
}

impl Later {
    /// Of none. Takes no memory.
    fn new(alloc: Global, place: u32) -> Later
        ensures later { (watch : Watch) (es : List Event) → place ≡ length es → IsLater watch result es }
        ensures place { result.place ≡ place }
    {
        Later {
            place,
            written_back: RunMap::new(alloc, NO_PLACE),
        }
    }

    /// Goes back to the place in front of the row, if it asks for a byte. The first write-back of the line of that byte, behind that place.
    fn behind(&mut self, watch: &Watch, events: &Events, row: &Row) -> Result<u32, AllocError>
        requires later { IsLater watch.now self.old events.now }
        requires asks { Asks watch.now row.now.finding }
        requires some { 0 < row.now.place }
        requires behind { row.now.place ≤ suc self.old.place }
        requires within { self.old.place ≤ length events.now }
        ensures found { IfOk result (λ found. asks_byte row.now.finding ≡ true → found ≡ behind_row events.now row.now) }
        ensures later { OnOk result (IsLater watch.now self.new events.now) }
        ensures behind { OnOk result (row.now.place ≤ suc self.new.place) }
        ensures back { OnOk result (self.new.place ≤ self.old.place) }
    {
        if !asks_byte(row.finding) {
            return Ok(0);
        }
        self.go_to(watch, events, row.place - 1)?;
        Ok(self.written_back(asked(row.finding)))
    }

    // Goes back to the place.
    fn go_to(&mut self, watch: &Watch, events: &Events, place: u32) -> Result<(), AllocError>
        requires later { IsLater watch.now self.old events.now }
        requires behind { place ≤ self.old.place }
        requires within { self.old.place ≤ length events.now }
        ensures later { OnOk result (IsLater watch.now self.new events.now) }
        ensures place { OnOk result (self.new.place ≡ place) }
    {
        while self.place > place {
            self.follow(watch, &events.at(self.place as usize - 1))?;
        }
        Ok(())
    }

    // Goes back over the event.
    fn follow(&mut self, watch: &Watch, event: &Event) -> Result<(), AllocError>
        requires some { 0 < self.old.place }
        ensures later { (es : List Event) (p : ℕ) → self.old.place ≡ suc p → event_at es (suc p) ≡ Some event.now
            → p < length es → IsLater watch.now self.old es → OnOk result (IsLater watch.now self.new es) }
        ensures place { OnOk result (suc self.new.place ≡ self.old.place) }
    {
        write_back_watched(&mut self.written_back, &watch.stored, self.place, event)?;
        self.place -= 1;
        Ok(())
    }

    // The first write-back of the byte's line.
    fn written_back(&self, byte: u64) -> u32
        ensures { (watch : Watch) (es : List Event) → IsLater watch self.now es → has_line watch.stored byte ≡ true
            → result ≡ write_back_after es (line_of_byte byte) self.now.place }
    {
        self.written_back.at(byte).of
    }
}

/// For each row that asks for a byte, from the last one on, the first write-back of that byte's line that does not come before the row.
pub(crate) fn written_back_behind(
    alloc: Global,
    watch: &Watch,
    events: &Events,
    rows: &[Row],
) -> Result<Vec<u32>, AllocError>
    requires asks { AllAsk watch.now rows.now }
    requires few { length events.now ≤ EVENT_LIMIT }
    requires order { AreInOrder rows.now (length events.now) }
    ensures { IfOk result (λ found. AreBehind events.now rows.now found.items) }
{
    let mut later = Later::new(alloc, events.len() as u32);
    let mut found = Vec::with_capacity(alloc, rows.len())?;
    let mut left = rows.len();
    while left > 0 {
        left -= 1;
        found.push(later.behind(watch, events, &rows[left])?)?;
    }
    Ok(found)
}

/// The first fence behind each place, from the last one on, where a row asks for a byte.
pub(crate) fn fences_for(
    alloc: Global,
    events: &Events,
    rows: &[Row],
) -> Result<Vec<u32>, AllocError>
    requires few { length events.now ≤ EVENT_LIMIT }
    ensures { IfOk result (λ fences. AreFencesFor events.now rows.now fences.items) }
{
    if !any_asks(rows) {
        return Ok(Vec::new(alloc));
    }
    fences_behind(alloc, events)
}

// Whether a row asks for a byte.
fn any_asks(rows: &[Row]) -> bool
    ensures { result ≡ false → (k : ℕ) (r : Row) → k < length rows.now → asks_byte (get_or rows.now k r).finding ≡ false }
{
    for row in rows {
        if asks_byte(row.finding) {
            return true;
        }
    }
    false
}

// For each place, from the last one on, the first fence behind it.
fn fences_behind(alloc: Global, events: &Events) -> Result<Vec<u32>, AllocError>
    requires few { length events.now ≤ EVENT_LIMIT }
    ensures { IfOk result (λ fences. AreFences events.now fences.items) }
{
    let mut fences = Vec::with_capacity(alloc, events.len() + 1)?;
    let mut fence = 0;
    fences.push(fence)?;
    let mut left = events.len();
    while left > 0 {
        fence = place_if(is_fence(&events.at(left - 1)), left as u32, fence);
        left -= 1;
        fences.push(fence)?;
    }
    Ok(fences)
}

/// Whether a finding asks for a byte that had to be durable: it is a FAIL of PERSIST, ORDERED or CHECKEND, or a SAMELINE.
#[tactic(auto, unfolding(crate::specs::Later::asks_byte))]
pub fn asks_byte(finding: Finding) -> bool
    ensures { result ≡ asks_byte finding }
{
    match finding {
        Finding::PersistFail { .. } => true,
        Finding::CheckFail { .. } => true,
        Finding::OrderedFail { .. } => true,
        Finding::OrderedSameLine { .. } => true,
        _ => false,
    }
}

/// The byte that a finding asks for, or 0.
#[tactic(auto, unfolding(crate::specs::Later::asked))]
fn asked(finding: Finding) -> u64
    ensures { result ≡ asked finding }
{
    match finding {
        Finding::PersistFail { byte } => byte,
        Finding::CheckFail { byte } => byte,
        Finding::OrderedFail { byte, .. } => byte,
        Finding::OrderedSameLine { byte, .. } => byte,
        _ => 0,
    }
}

#[tactic(auto, unfolding(pmf_event::specs::Store::is_fence))]
fn is_fence(event: &Event) -> bool
    ensures { result ≡ is_fence event.now }
{
    matches!(event, Event::Fence)
}
