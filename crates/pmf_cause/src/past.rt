//! What is kept of the events up to a place.

ghost use Rattle.std.specs.Prelude.{◌≡◌, ◌<◌, ◌≤◌, ℕ, suc, true, if◌then◌else◌, List, Some, length, OnOk};
ghost use Rattle.pmf_event.specs.{declared.event.Event.{Event}, declared.section.TheConstants.{EVENT_LIMIT}, Line.{line_of_byte}, Interval.{first_write_back}, Store.{event_at, flushes, last_store, stores}, Transactions.{adds}};
ghost use Rattle.pmf_runs.specs.Runs.{state_at};
ghost use Rattle.pmf_cause.specs.{Cause.{last_add, last_flush}, Past.{AreStores, IsPast}, Watching.{has_line}};

use crate::marks::Marks;
use crate::stored::{Stored, StoredAt, UNTOUCHED, WrittenBackAt};
use crate::watch::{Watch, are_met};
use pmf_event::{Event, Events, LINE_SIZE};
use pmf_places::{NO_PLACE, Place, back_up, lines_of, write_back};
use pmf_runs::RunMap;
use std::alloc::{AllocError, Global};

/// What is kept of the first events of a section, as many as `place`, for the lines that are watched.
#[derive(Debug, Drop)]
pub(crate) struct Past {
    pub(crate) place: u32,
    pub(crate) watch: Watch,
    /// For each byte its last store, and the first write-back of its line behind that.
    pub(crate) stored: RunMap<Stored>,
    /// For each byte the last write-back of its line.
    pub(crate) flushed: RunMap<Place>,
    /// For each byte its last TXADD.
    pub(crate) added: RunMap<Place>,
    pub(crate) marks: Marks,
}

impl Past {
    /// Of no event. Takes no memory.
    pub(crate) fn new(alloc: Global, watch: Watch) -> Past
        ensures past { (es : List Event) → IsPast result es }
        ensures watch { result.watch ≡ watch }
        ensures place { result.place ≡ 0 }
    {
        Past {
            place: 0,
            watch,
            stored: RunMap::new(alloc, UNTOUCHED),
            flushed: RunMap::new(alloc, NO_PLACE),
            added: RunMap::new(alloc, NO_PLACE),
            marks: Marks::new(),
        }
    }

    /// Goes on to the place.
    pub(crate) fn go_to(&mut self, events: &Events, place: u32) -> Result<(), AllocError>
        requires past { IsPast self.old events.now }
        requires before { self.old.place ≤ place }
        requires within { place ≤ length events.now }
        requires few { length events.now ≤ EVENT_LIMIT }
        ensures past { OnOk result (IsPast self.new events.now) }
        ensures watch { OnOk result (self.new.watch ≡ self.old.watch) }
        ensures place { OnOk result (self.new.place ≡ place) }
    {
        while self.place < place {
            self.follow(&events.at(self.place as usize))?;
        }
        Ok(())
    }

    // Goes on over the next event.
    fn follow(&mut self, event: &Event) -> Result<(), AllocError>
        requires few { self.old.place < EVENT_LIMIT }
        requires shallow { self.old.marks.depth < EVENT_LIMIT }
        ensures past { (es : List Event) → event_at es (suc self.old.place) ≡ Some event.now
            → IsPast self.old es → OnOk result (IsPast self.new es) }
        ensures watch { OnOk result (self.new.watch ≡ self.old.watch) }
        ensures place { OnOk result (self.new.place ≡ suc self.old.place) }
    {
        let place = self.place + 1;
        store(&mut self.stored, &self.watch.stored, place, event)?;
        write_back_watched(&mut self.flushed, &self.watch.flushed, place, event)?;
        back_up_watched(&mut self.added, &self.watch.added, place, event)?;
        self.marks = self.marks.after(place, event);
        self.place = place;
        Ok(())
    }

    /// The last store of the byte, and the first write-back of its line behind that.
    pub(crate) fn last_store(&self, byte: u64) -> Stored
        ensures last { (es : List Event) → IsPast self.now es → has_line self.now.watch.stored byte ≡ true
            → result.last ≡ last_store es self.now.place byte }
        ensures written_back { (es : List Event) → IsPast self.now es → has_line self.now.watch.stored byte ≡ true
            → result.written_back ≡ first_write_back (stores byte) (line_of_byte byte) es self.now.place }
    {
        self.stored.at(byte)
    }

    /// The last write-back of the line.
    #[tactic(auto, using(pmf_places::proofs::PlaceLemmas::no_line))]
    pub(crate) fn last_flush(&self, line: u64) -> u32
        ensures { (es : List Event) → IsPast self.now es → has_line self.now.watch.flushed line ≡ true
            → result ≡ last_flush es self.now.place line }
    {
        if line % LINE_SIZE == 0 {
            self.flushed.at(line).of
        } else {
            0
        }
    }

    /// The last TXADD of the byte.
    pub(crate) fn last_add(&self, byte: u64) -> u32
        ensures { (es : List Event) → IsPast self.now es → has_line self.now.watch.added byte ≡ true
            → result ≡ last_add es self.now.place byte }
    {
        self.added.at(byte).of
    }
}

// Follows a store or a write-back at the place, where it meets one of the lines.
#[tactic(auto, using(crate::proofs::StoredLemmas::stores_kept_on))]
fn store(
    stored: &mut RunMap<Stored>,
    lines: &RunMap<bool>,
    place: u32,
    event: &Event,
) -> Result<(), AllocError>
    ensures { (es : List Event) (p : ℕ) → event_at es (suc p) ≡ Some event.now → place ≡ suc p
        → AreStores lines.now stored.old es p → OnOk result (AreStores lines.now stored.new es (suc p)) }
{
    match event {
        Event::Store(span) => {
            if !are_met(lines, span) {
                return Ok(());
            }
            stored.change(span.first(), span.end(), &StoredAt { place })?;
            Ok(())
        }
        Event::Flush(span) => {
            if !are_met(lines, span) {
                return Ok(());
            }
            let (first, end) = lines_of(span);
            stored.change(first, end, &WrittenBackAt { place })?;
            Ok(())
        }
        _ => Ok(()),
    }
}

/// Puts the place at each byte that the event writes back, where it meets one of the lines.
pub(crate) fn write_back_watched(
    flushed: &mut RunMap<Place>,
    lines: &RunMap<bool>,
    place: u32,
    event: &Event,
) -> Result<(), AllocError>
    ensures { OnOk result ((b : ℕ) → has_line lines.now b ≡ true → (state_at flushed.new b).of
        ≡ (if flushes (line_of_byte b) event.now then place else (state_at flushed.old b).of)) }
{
    if let Event::Flush(span) = event {
        if are_met(lines, span) {
            return write_back(flushed, place, event);
        }
    }
    Ok(())
}

// The same of each byte that it backs up.
fn back_up_watched(
    added: &mut RunMap<Place>,
    lines: &RunMap<bool>,
    place: u32,
    event: &Event,
) -> Result<(), AllocError>
    ensures { OnOk result ((b : ℕ) → has_line lines.now b ≡ true → (state_at added.new b).of
        ≡ (if adds b event.now then place else (state_at added.old b).of)) }
{
    if let Event::TxAdd(span) = event {
        if are_met(lines, span) {
            return back_up(added, place, event);
        }
    }
    Ok(())
}
