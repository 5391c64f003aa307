//! What cures look at of the events up to a place.

ghost use Rattle.std.specs.Prelude.{◌≡◌, ◌<◌, ◌≤◌, suc, List, length, OnOk};
ghost use Rattle.pmf_event.specs.{declared.event.Event.{Event}, declared.section.TheConstants.{EVENT_LIMIT}};
ghost use Rattle.pmf_cause.specs.Past.{IsPast};

use crate::judging::asks_why;
use crate::needs::{Lacking, Needs};
use crate::past::Past;
use crate::stored::{IsOpen, IsOther, Stored};
use crate::watch::{Watch, are_met};
use pmf_event::{ADDRESS_LIMIT, Event, Events, LINE_SIZE, Row, Span, line_of};
use pmf_places::{NO_PLACE, Place, Put};
use pmf_runs::{IsIn, IsOut, PutIn, RunMap, Test};
use std::alloc::{AllocError, Global};

/// What is kept of the first events of a section, for the lines that are watched.
#[derive(Debug, Drop)]
pub(crate) struct Reach {
    alloc: Global,
    pub(crate) past: Past,
    /// For each byte of the watched lines whether it is excluded: 1, or 0.
    excluded: RunMap<Place>,
    /// What more is asked for.
    looks: Looks,
    /// The bytes that the running transaction has backed up, of the lines of which that is asked.
    backed: RunMap<bool>,
    /// The bytes that the scope's transactions stored to.
    scoped: RunMap<bool>,
    /// The fences.
    fences: Vec<u32>,
}

/// What changes depend on, beside what is watched.
#[derive(Debug, Drop)]
pub(crate) struct Looks {
    /// The lines of bytes of which it is asked whether the running transaction has backed them up.
    pub(crate) backups: RunMap<bool>,
    /// Whether the bytes of scopes are asked for.
    pub(crate) at_scopes: bool,
}

impl Reach {
    /// Of no event.
    pub(crate) fn new(alloc: Global, watch: Watch, looks: Looks) -> Reach
        ensures { (es : List Event) → IsPast result.past es }
    {
        Reach {
            alloc,
            past: Past::new(alloc, watch),
            excluded: RunMap::new(alloc, NO_PLACE),
            looks,
            backed: RunMap::new(alloc, false),
            scoped: RunMap::new(alloc, false),
            fences: Vec::new(alloc),
        }
    }

    /// Goes on to the place in front of the row, if it counts as fail or as a warning.
    pub(crate) fn go_before(&mut self, events: &Events, row: &Row) -> Result<(), AllocError>
        requires reached { IsPast self.old.past events.now }
        requires few { length events.now ≤ EVENT_LIMIT }
        ensures { OnOk result (IsPast self.new.past events.now) }
    {
        if !asks_why(row.finding) {
            return Ok(());
        }
        self.go_to(events, row.place.saturating_sub(1))
    }

    // Goes on to the place, or as far as there are events.
    fn go_to(&mut self, events: &Events, place: u32) -> Result<(), AllocError>
        requires reached { IsPast self.old.past events.now }
        requires few { length events.now ≤ EVENT_LIMIT }
        ensures { OnOk result (IsPast self.new.past events.now) }
    {
        let end = place.min(events.len() as u32);
        while self.past.place < end {
            let place = self.past.place as usize;
            self.follow(events, &events.at(place))?;
        }
        Ok(())
    }

    // Goes on over the next of the events.
    fn follow(&mut self, events: &Events, event: &Event) -> Result<(), AllocError>
        requires reached { IsPast self.old.past events.now }
        requires within { self.old.past.place < length events.now }
        requires few { length events.now ≤ EVENT_LIMIT }
        ensures reached { OnOk result (IsPast self.new.past events.now) }
        ensures place { OnOk result (self.new.past.place ≡ suc self.old.past.place) }
    {
        let place = self.past.place + 1;
        self.past.go_to(events, place)?;
        self.note(event)?;
        Ok(())
    }

    // Notes a fence, and what a scope is of.
    fn note(&mut self, event: &Event) -> Result<(), AllocError>
        ensures past { self.new.past ≡ self.old.past }
    {
        match *event {
            Event::Fence => self.fences.push(self.past.place)?,
            Event::Store(span) if self.notes_stores() => {
                self.scoped.change(span.first(), span.end(), &PutIn)?
            }
            Event::Exclude(span) => self.mark(&span, 1)?,
            Event::Include(span) => self.mark(&span, 0)?,
            Event::CheckStart | Event::CheckEnd => self.scoped = RunMap::new(self.alloc, false),
            Event::TxAdd(span) if self.notes_backup(&span) => {
                self.backed.change(span.first(), span.end(), &PutIn)?
            }
            Event::TxEnd if self.past.marks.depth == 0 => {
                self.backed = RunMap::new(self.alloc, false)
            }
            _ => {}
        }
        Ok(())
    }

    // Notes that the bytes of the span are excluded, or that they are not.
    fn mark(&mut self, span: &Span, excluded: u32) -> Result<(), AllocError>
        ensures past { self.new.past ≡ self.old.past }
    {
        if are_met(&self.past.watch.stored, span) {
            self.excluded
                .change(span.first(), span.end(), &Put { place: excluded })?;
        }
        Ok(())
    }

    // Whether a store counts for the scope.
    fn notes_stores(&self) -> bool {
        self.looks.at_scopes && self.past.marks.scope > 0 && self.past.marks.depth > 0
    }

    // Whether a TXADD of the span counts for the transaction.
    fn notes_backup(&self, span: &Span) -> bool {
        self.past.marks.depth > 0 && are_met(&self.looks.backups, span)
    }

    /// The last fence in front of the place, or 0.
    pub(crate) fn fence_before(&self, place: u32) -> u32 {
        let count = self.fences.partition_point(|fence| *fence < place);
        match count.checked_sub(1) {
            Some(index) => self.fences.get(index).copied().unwrap_or(0),
            None => 0,
        }
    }

    /// Whether a transaction runs.
    pub(crate) fn depth(&self) -> u32 {
        self.past.marks.depth
    }

    /// The bytes of the span that are checked and not durable, put behind the others as long as these are not too many and there are
    /// steps left.
    pub(crate) fn find_open(
        &self,
        first: u64,
        end: u64,
        needs: &mut Needs,
        steps: &mut u32,
    ) -> Result<(), AllocError> {
        let open = IsOpen {
            fence: self.fence_before(u32::MAX),
        };
        let mut from = first;
        while from < end {
            let Some(byte) = self.past.stored.first_where(from, end, &open) else {
                return Ok(());
            };
            if *steps == 0 || needs.are_too_many() || byte < from || byte >= end {
                return Ok(());
            }
            *steps -= 1;
            let until = self.alike_until(byte, end);
            if let Some(stored) = self.checked(byte) {
                needs.push(lines_lacking(byte, until, stored.last, stored.written_back))?;
            }
            from = until;
        }
        Ok(())
    }

    /// The same of the bytes of the scope.
    pub(crate) fn find_open_of_scope(
        &self,
        needs: &mut Needs,
        steps: &mut u32,
    ) -> Result<(), AllocError> {
        let mut from = 0;
        while from < ADDRESS_LIMIT {
            let Some(first) = self.scoped.first_where(from, ADDRESS_LIMIT, &IsIn) else {
                return Ok(());
            };
            let end = match self.scoped.first_where(first, ADDRESS_LIMIT, &IsOut) {
                Some(end) => end,
                None => ADDRESS_LIMIT,
            };
            if *steps == 0 || needs.are_too_many() || end <= from {
                return Ok(());
            }
            *steps -= 1;
            self.find_open(first, end, needs, steps)?;
            from = end;
        }
        Ok(())
    }

    /// The first of the last stores of the span's checked bytes, or 0 where there is none or the steps are used up.
    pub(crate) fn first_of_last_stores(&self, span: Span, steps: &mut u32) -> u32 {
        let mut least = 0;
        let mut from = span.first();
        while from < span.end() {
            if *steps == 0 {
                return 0;
            }
            *steps -= 1;
            if let Some(stored) = self.checked(from) {
                if least == 0 || stored.last < least {
                    least = stored.last;
                }
            }
            from = self.alike_until(from, span.end());
        }
        least
    }

    /// The checked bytes of the span that are not durable by the place. None where one of them was stored to at the place or behind it,
    /// where they are too many, or the steps are used up.
    pub(crate) fn find_late(
        &self,
        span: Span,
        due: u32,
        needs: &mut Needs,
        steps: &mut u32,
    ) -> Result<Option<()>, AllocError> {
        let fence = self.fence_before(due);
        let mut from = span.first();
        while from < span.end() {
            if *steps == 0 || needs.are_too_many() {
                return Ok(None);
            }
            *steps -= 1;
            let until = self.alike_until(from, span.end());
            if let Some(stored) = self.checked(from) {
                if stored.last >= due {
                    return Ok(None);
                }
                let by = stored.written_back;
                let in_time = if by < due { by } else { 0 };
                if in_time == 0 || fence < in_time {
                    needs.push(lines_lacking(from, until, stored.last, in_time))?;
                }
            }
            from = until;
        }
        Ok(Some(()))
    }

    // The last store of the byte, and what follows it, where it is checked.
    fn checked(&self, byte: u64) -> Option<Stored> {
        let stored = self.past.stored.at(byte);
        if stored.last == 0 || self.excluded.at(byte).of > 0 {
            return None;
        }
        Some(stored)
    }

    // The byte up to which bytes stand as the first one does.
    fn alike_until(&self, first: u64, end: u64) -> u64
        requires { first < end }
        ensures further { first < result }
        ensures within { result ≤ end }
    {
        let state = self.past.stored.at(first);
        let other = IsOther { state };
        let until = until_or(first, self.past.stored.first_where(first, end, &other), end);
        let marked = IsMarkedElse {
            place: self.excluded.at(first).of,
        };
        until_or(
            first,
            self.excluded.first_where(first, until, &marked),
            until,
        )
    }

    /// The first byte of a range that the running transaction has not backed up, and the byte up to which it has not.
    pub(crate) fn not_backed(&self, first: u64, end: u64) -> Option<(u64, u64)> {
        let start = self.backed.first_where(first, end, &IsOut)?;
        let until = self.backed.first_where(start, end, &IsIn);
        Some((start, until.unwrap_or(end)))
    }
}

// The byte that was found behind the first one, or the end.
fn until_or(first: u64, found: Option<u64>, end: u64) -> u64
    requires { first < end }
    ensures further { first < result }
    ensures within { result ≤ end }
{
    match found {
        Some(byte) if first < byte && byte < end => byte,
        _ => end,
    }
}

// Bytes from the first one on, with the lines that they lie on.
fn lines_lacking(first: u64, until: u64, last: u32, written_back: u32) -> Lacking {
    Lacking {
        first: line_of(first),
        end: line_of(until.saturating_sub(1)).saturating_add(LINE_SIZE),
        last,
        written_back,
    }
}

/// Whether the place lies before another.
#[derive(Clone, Copy, Debug, Drop)]
pub(crate) struct Before {
    pub(crate) place: u32,
}

impl Test<Place> for Before {
    ghost use Rattle.std.specs.Prelude.{nat_lt};

    ghost passes = { λ test state. nat_lt state.of test.place };

    fn passes(&self, state: Place) -> bool {
        state.of < self.place
    }

    fn may_pass(&self, _summary: ()) -> bool {
        true
    }
}

/// Whether the place is another.
#[derive(Clone, Copy, Debug, Drop)]
pub(crate) struct IsMarkedElse {
    pub(crate) place: u32,
}

impl Test<Place> for IsMarkedElse {
    ghost use Rattle.std.specs.Prelude.{not, ◌==◌};

    ghost passes = { λ test state. not (state.of == test.place) };

    fn passes(&self, state: Place) -> bool {
        state.of != self.place
    }

    fn may_pass(&self, _summary: ()) -> bool {
        true
    }
}
