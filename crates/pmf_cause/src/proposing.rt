//! Changes that may cure the rows of a verdict: what is proposed here is told only where a check of the changed section confirms it.

ghost use Rattle.std.specs.Prelude.{◌≤◌, length};
ghost use Rattle.pmf_event.specs.declared.section.TheConstants.{EVENT_LIMIT};
ghost use Rattle.pmf_cause.specs.Past.{IsPast};

use crate::edit::Edit;
use crate::judging::asks_why;
use crate::needs::{MOST, Needs};
use crate::plan::Plan;
use crate::reach::{Looks, Reach};
use crate::watch::{Watch, put_all, put_lines};
use pmf_event::{Event, Events, Finding, LINE_SIZE, Row, Span};
use pmf_runs::RunMap;
use pmf_verdict::Verdict;
use std::alloc::{AllocError, Global};

/// Changes that may cure rows. The places of each list rise.
#[derive(Debug, Drop)]
pub struct Proposal {
    /// For all rows of the verdict together, or for those that were picked.
    pub all: Vec<Edit>,
    /// For each row that was asked for, what it needs alone; nothing where nothing was found.
    pub own: Vec<Vec<Edit>>,
}

/// Proposes changes for the rows of the verdict, or for those that are picked, where some are; and for each wanted one of them, by its
/// index in rising order, those that it needs alone.
///
/// A byte that lacks a write-back or a fence is written back and fenced in front of the place that asks for it; where a fence stands
/// between its last store and that place, it is written back in front of that fence. A byte without a backup is added in front of
/// its store. An event that is too many is left out, and one that is missing is put in. Not more than 64 changes are proposed for a row.
///
/// After some steps over runs of bytes for each event and row, no more is looked for that is not durable. Takes memory for what is kept of
/// the lines that rows ask of, and for what is proposed.
pub fn propose(
    alloc: Global,
    verdict: &Verdict,
    wanted: &[usize],
    picked: Option<&[bool]>,
) -> Result<Proposal, AllocError> {
    let (events, rows) = (verdict.section().events(), verdict.rows());
    let mut seeker = Seeker::new(alloc, events.len(), rows.len());
    let watch = watched(alloc, events, rows)?;
    let looks = looked_at(alloc, events, rows)?;
    let mut reach = Reach::new(alloc, watch, looks);
    let mut plan = Plan::new(alloc);
    let mut own = Vec::new(alloc);
    let mut left = wanted;
    for (index, row) in rows.iter().enumerate() {
        if !is_picked(picked, index) {
            continue;
        }
        reach.go_before(events, row)?;
        seeker.seek(&reach, events, rows, index)?;
        if !plan.cures(&seeker.needs.each, &seeker.edits) {
            plan.take(&seeker.edits)?;
        }
        if left.first() == Some(&index) {
            own.push(copied(alloc, &seeker.edits)?)?;
            left = &left[1..];
        }
    }
    Ok(Proposal {
        all: plan.sorted()?,
        own,
    })
}

// Whether the row with this index is picked: each is, where none are told.
fn is_picked(picked: Option<&[bool]>, index: usize) -> bool {
    match picked {
        Some(picked) => picked.get(index).copied().unwrap_or(false),
        None => true,
    }
}

// Looks for the cure of one row after another.
#[derive(Drop)]
struct Seeker {
    alloc: Global,
    // How many more steps over runs of bytes are taken.
    steps: u32,
    needs: Needs,
    edits: Vec<Edit>,
}

impl Seeker {
    fn new(alloc: Global, events: usize, rows: usize) -> Seeker {
        let steps = events.saturating_add(rows).saturating_mul(8);
        Seeker {
            alloc,
            steps: u32::try_from(steps)
                .unwrap_or(u32::MAX)
                .saturating_add(65_536),
            needs: Needs::new(alloc),
            edits: Vec::new(alloc),
        }
    }

    // The changes for the row, where there are any: what is kept stands in front of its place.
    fn seek(
        &mut self,
        reach: &Reach,
        events: &Events,
        rows: &[Row],
        index: usize,
    ) -> Result<(), AllocError> {
        self.needs.clear();
        self.edits.clear();
        let Some(row) = rows.get(index) else {
            return Ok(());
        };
        if !asks_why(row.finding) {
            return Ok(());
        }
        match event_of(events, row) {
            Some(event) => self.seek_at(
                reach,
                events,
                &event,
                row,
                warn_of_all(rows, index, &event),
            )?,
            None => self.close(reach, row.place)?,
        }
        if self.edits.len() > MOST {
            self.edits.clear();
        }
        Ok(())
    }

    // The same, for a row of an event, which warns of all lines that it writes back or does not.
    fn seek_at(
        &mut self,
        reach: &Reach,
        events: &Events,
        event: &Event,
        row: &Row,
        warned: bool,
    ) -> Result<(), AllocError> {
        let place = row.place;
        match event {
            Event::Persist(span) => {
                reach.find_open(span.first(), span.end(), &mut self.needs, &mut self.steps)?;
                self.make_durable(reach, place)
            }
            Event::Ordered(before, after) => self.order(reach, *before, *after),
            Event::Store(span) => self.back_up(reach, place, *span),
            Event::Flush(_) if warned => self.leave_out(place, event),
            Event::TxAdd(span) if adds_nothing(reach, *span) => self.leave_out(place, event),
            Event::CheckEnd => self.check_end(reach, events, event, row),
            Event::TxEnd | Event::CheckStart => self.leave_out(place, event),
            _ => Ok(()),
        }
    }

    fn check_end(
        &mut self,
        reach: &Reach,
        events: &Events,
        event: &Event,
        row: &Row,
    ) -> Result<(), AllocError> {
        match row.finding {
            Finding::CheckFail { .. } => {
                reach.find_open_of_scope(&mut self.needs, &mut self.steps)?;
                self.make_durable(reach, row.place)
            }
            Finding::TxStillOpen { depth } => {
                match end_of_transaction(events, row.place, depth) {
                    Some(end) => {
                        self.leave_out(row.place, event)?;
                        self.put(end.saturating_add(1), Event::CheckEnd)
                    }
                    None => self.end_all(row.place, depth),
                }
            }
            _ => self.leave_out(row.place, event),
        }
    }

    fn put(&mut self, before: u32, event: Event) -> Result<(), AllocError> {
        self.edits.push(Edit::Put { before, event })?;
        Ok(())
    }

    // (The event is named for the compiler's sake: it refuses a list of changes in a signature that does not name their events.)
    fn leave_out(&mut self, place: u32, _event: &Event) -> Result<(), AllocError> {
        self.edits.push(Edit::LeaveOut { place })?;
        Ok(())
    }

    // Each checked byte of the first span has to be durable by the first of the last stores of the second.
    fn order(&mut self, reach: &Reach, before: Span, after: Span) -> Result<(), AllocError> {
        let due = reach.first_of_last_stores(after, &mut self.steps);
        match reach.find_late(before, due, &mut self.needs, &mut self.steps)? {
            Some(()) => self.make_durable(reach, due),
            None => Ok(()),
        }
    }

    // Writes back what has no write-back, and fences, in front of the place: or in front of the last fence before it, where that
    // comes behind all of the stores and no write-back waits for a fence.
    fn make_durable(&mut self, reach: &Reach, due: u32) -> Result<(), AllocError> {
        let fence = reach.fence_before(due);
        let mut last = 0;
        let mut waits = self.needs.each.is_empty();
        for need in &self.needs.each {
            last = need.last.max(last);
            waits = waits || need.written_back > 0;
        }
        if self.needs.each.is_empty() {
            return Ok(());
        }
        if !waits && last < fence {
            return self.write_back(fence);
        }
        self.write_back(due)?;
        self.put(due, Event::Fence)
    }

    // Puts a write-back in front of the place for each run of lines that lack one.
    fn write_back(&mut self, before: u32) -> Result<(), AllocError> {
        let mut first = 0;
        let mut end = 0;
        for index in 0..self.needs.each.len() {
            let Some(need) = self.needs.each.get(index).copied() else {
                break;
            };
            if need.written_back > 0 {
                continue;
            }
            if need.first <= end && first < end {
                end = end.max(need.end);
                continue;
            }
            self.flush(before, first, end)?;
            first = need.first;
            end = need.end;
        }
        self.flush(before, first, end)
    }

    fn flush(&mut self, before: u32, first: u64, end: u64) -> Result<(), AllocError> {
        match span_between(first, end) {
            Some(span) => self.put(before, Event::Flush(span)),
            None => Ok(()),
        }
    }

    // Adds the bytes of the store that have no backup.
    fn back_up(&mut self, reach: &Reach, place: u32, span: Span) -> Result<(), AllocError> {
        let mut from = span.first();
        while from < span.end() && self.edits.len() <= MOST {
            let Some((first, end)) = reach.not_backed(from, span.end()) else {
                return Ok(());
            };
            match span_between(first, end) {
                Some(span) if end > from => self.put(place, Event::TxAdd(span))?,
                _ => return Ok(()),
            }
            from = end;
        }
        Ok(())
    }

    fn end_all(&mut self, before: u32, depth: u32) -> Result<(), AllocError> {
        for _ in 0..depth.min(MOST as u32 + 1) {
            self.put(before, Event::TxEnd)?;
        }
        Ok(())
    }

    // Closes the scope at the section's end, with what it needs for that.
    fn close(&mut self, reach: &Reach, place: u32) -> Result<(), AllocError> {
        reach.find_open_of_scope(&mut self.needs, &mut self.steps)?;
        self.make_durable(reach, place)?;
        self.end_all(place, reach.depth())?;
        self.put(place, Event::CheckEnd)
    }
}

// The event of the row, unless it is of the section's end.
fn event_of(events: &Events, row: &Row) -> Option<Event> {
    events.get(row.place.saturating_sub(1) as usize)
}

// The lines whose stores and write-backs the changes for the rows depend on.
fn watched(alloc: Global, events: &Events, rows: &[Row]) -> Result<Watch, AllocError> {
    let mut watch = Watch::new(alloc);
    for row in rows {
        if asks_why(row.finding) {
            put_row(&mut watch, event_of(events, row).as_ref(), row.finding)?;
        }
    }
    Ok(watch)
}

fn put_row(watch: &mut Watch, event: Option<&Event>, finding: Finding) -> Result<(), AllocError> {
    if is_of_scope(finding) {
        return put_all(&mut watch.stored);
    }
    match event {
        Some(Event::Persist(span)) => put_lines(&mut watch.stored, span),
        Some(Event::Ordered(before, after)) => {
            put_lines(&mut watch.stored, before)?;
            put_lines(&mut watch.stored, after)
        }
        _ => Ok(()),
    }
}

// What they depend on beside that.
fn looked_at(alloc: Global, events: &Events, rows: &[Row]) -> Result<Looks, AllocError> {
    let mut backups = RunMap::new(alloc, false);
    for row in rows {
        if asks_why(row.finding) {
            put_backup(&mut backups, event_of(events, row).as_ref())?;
        }
    }
    Ok(Looks {
        backups,
        at_scopes: ask_of_scopes(rows),
    })
}

fn put_backup(lines: &mut RunMap<bool>, event: Option<&Event>) -> Result<(), AllocError> {
    match event {
        Some(Event::Store(span)) => put_lines(lines, span),
        Some(Event::TxAdd(span)) => put_lines(lines, span),
        _ => Ok(()),
    }
}

// Whether the changes for some row depend on the bytes of a scope.
fn ask_of_scopes(rows: &[Row]) -> bool {
    for row in rows {
        if is_of_scope(row.finding) {
            return true;
        }
    }
    false
}

fn is_of_scope(finding: Finding) -> bool {
    matches!(
        finding,
        Finding::CheckFail { .. } | Finding::Unclosed { .. }
    )
}

// Whether the event is a write-back, and its warnings, of which the row with this index is one, are of all its lines.
fn warn_of_all(rows: &[Row], index: usize, event: &Event) -> bool {
    let Event::Flush(span) = event else {
        return false;
    };
    let all = (span.end() - 1) / LINE_SIZE - span.first() / LINE_SIZE + 1;
    let place = rows.get(index).map_or(0, |row| row.place);
    let here = warned_at(rows, Some(index), place);
    let before = warned_at(rows, index.checked_sub(1), place);
    let behind = warned_at(rows, index.checked_add(1), place);
    here.saturating_add(before).saturating_add(behind) == all
}

// The lines of which the row with this index warns, if it is of the place.
fn warned_at(rows: &[Row], index: Option<usize>, place: u32) -> u64 {
    let Some(index) = index else {
        return 0;
    };
    match rows.get(index) {
        Some(row) if row.place == place => warned_lines(row.finding),
        _ => 0,
    }
}

fn warned_lines(finding: Finding) -> u64 {
    match finding {
        Finding::FlushDoubled { lines, .. } | Finding::FlushNeedless { lines, .. } => lines,
        _ => 0,
    }
}

// Whether no transaction runs, or it has backed up each byte of the span.
fn adds_nothing(reach: &Reach, span: Span) -> bool {
    reach.depth() == 0 || reach.not_backed(span.first(), span.end()).is_none()
}

// The span of these bytes, if they are some that a span may have.
fn span_between(first: u64, end: u64) -> Option<Span> {
    let size = end.checked_sub(first)?;
    Span::make(first, size).ok()
}

// The place behind this one at which so many transactions have ended, if no scope begins or ends on the way.
fn end_of_transaction(events: &Events, place: u32, depth: u32) -> Option<u32> {
    let mut left = depth;
    for index in place as usize..events.len() {
        match events.at(index) {
            Event::TxBegin => left = left.saturating_add(1),
            Event::TxEnd => left = left.saturating_sub(1),
            Event::CheckStart | Event::CheckEnd => return None,
            _ => {}
        }
        if left == 0 {
            return u32::try_from(index).ok()?.checked_add(1);
        }
    }
    None
}

fn copied(alloc: Global, edits: &[Edit]) -> Result<Vec<Edit>, AllocError> {
    let mut copy = Vec::with_capacity(alloc, edits.len())?;
    copy.extend_from_slice(edits)?;
    Ok(copy)
}
