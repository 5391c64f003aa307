//! A checker of short sections, as plain as can be, written from docs/DEFINITIONS.md: each question looks back over the whole list.
//!
//! `past` has the events so far, in order. No function has a clause: a test holds what it says against what is proved, so that a
//! definition which is not what its sentence says is found out, too.

use pmf_event::{
    EVENT_LIMIT, Event, Finding, Interval, LINE_SIZE, Lines, Profile, Row, Span, line_of,
};
use std::alloc::{AllocError, Global};

/// The first of these events, so many.
pub fn first(events: &[Event], count: u32) -> &[Event] {
    &events[..events.len().min(count as usize)]
}

pub(crate) fn place_of(index: usize) -> u32 {
    (index % EVENT_LIMIT) as u32 + 1
}

pub(crate) fn meets(span: Span, line: u64) -> bool {
    span.first() < line.wrapping_add(LINE_SIZE) && line < span.end()
}

// ---- bytes

/// What is known of a byte.
#[derive(Clone, Copy, Debug, PartialEq, Eq)]
pub struct Byte {
    /// The place of its last store, or 0.
    pub last: u32,
    /// Its persist interval, if it is written.
    pub interval: Option<Interval>,
    /// Whether it is excluded.
    pub is_excluded: bool,
}

impl Byte {
    /// Whether it is written and not excluded.
    pub fn is_checked(self) -> bool {
        self.last > 0 && !self.is_excluded
    }

    /// Whether it is written, and its interval has not closed.
    pub fn is_open(self) -> bool {
        self.interval
            .is_some_and(|interval| interval.closes.is_none())
    }
}

/// What is known of this byte.
pub fn byte_at(past: &[Event], byte: u64) -> Byte {
    let mut last = 0;
    let mut is_excluded = false;
    for (index, event) in past.iter().enumerate() {
        match event {
            Event::Store(span) if span.covers(byte) => last = place_of(index),
            Event::Exclude(span) if span.covers(byte) => is_excluded = true,
            Event::Include(span) if span.covers(byte) => is_excluded = false,
            _ => {}
        }
    }
    let mut interval = None;
    if last > 0 {
        interval = Some(Interval {
            last,
            opens: epoch_of(past, last),
            closes: closing(past, line_of(byte), last),
        });
    }
    Byte {
        last,
        interval,
        is_excluded,
    }
}

// The number of fences before the place.
fn epoch_of(past: &[Event], place: u32) -> u32 {
    let mut fences = 0u32;
    for event in first(past, place.saturating_sub(1)) {
        if *event == Event::Fence {
            fences = fences.wrapping_add(1);
        }
    }
    fences
}

// The epoch after that of the first fence which has a write-back of the line between the place and it.
fn closing(past: &[Event], line: u64, after: u32) -> Option<u32> {
    let mut is_written_back = false;
    for (index, event) in past.iter().enumerate() {
        let place = place_of(index);
        match event {
            Event::Flush(span) if place > after && meets(*span, line) => is_written_back = true,
            Event::Fence if is_written_back => return Some(epoch_of(past, place).wrapping_add(1)),
            _ => {}
        }
    }
    None
}

/// The least byte of the span of which this is so.
pub fn least<F: Fn(Byte) -> bool>(past: &[Event], span: Span, is_so: F) -> Option<u64>
    requires { F.IsAlwaysCallable is_so }
{
    for byte in span.first()..span.end() {
        if is_so(byte_at(past, byte)) {
            return Some(byte);
        }
    }
    None
}

fn found_of_persist(past: &[Event], span: Span) -> Finding {
    if least(past, span, Byte::is_checked).is_none() {
        return Finding::PersistEmpty;
    }
    match least(past, span, |byte| byte.is_checked() && byte.is_open()) {
        Some(byte) => Finding::PersistFail { byte },
        None => Finding::PersistPass,
    }
}

// ---- pairs of bytes

/// Whether the bytes at these two addresses are an unordered pair.
pub fn is_unordered(profile: Profile, x: u64, y: u64, at_x: Byte, at_y: Byte) -> bool {
    let is_first = match (at_x.interval, at_y.interval) {
        (Some(of_x), Some(of_y)) => of_x.closes.is_some_and(|end| end <= of_y.opens),
        _ => false,
    };
    let by_line = profile == Profile::Two && line_of(x) == line_of(y) && at_x.last < at_y.last;
    at_x.is_checked() && at_y.is_checked() && !is_first && !by_line
}

/// The least unordered pair of the two spans; or the least certified one.
pub fn least_pair(
    alloc: Global,
    past: &[Event],
    a: Span,
    b: Span,
    certified: bool,
    profile: Profile,
) -> Result<Option<(u64, u64)>, AllocError> {
    let mut seconds = Vec::new(alloc);
    for y in b.first()..b.end() {
        seconds.push((y, byte_at(past, y)))?;
    }
    for x in a.first()..a.end() {
        let at_x = byte_at(past, x);
        for second in seconds.iter() {
            let (y, at_y) = *second;
            let is_shown = line_of(x) != line_of(y) || at_y.last < at_x.last;
            if is_unordered(profile, x, y, at_x, at_y) && (is_shown || !certified) {
                return Ok(Some((x, y)));
            }
        }
    }
    Ok(None)
}

fn found_of_order(
    alloc: Global,
    past: &[Event],
    a: Span,
    b: Span,
    profile: Profile,
) -> Result<Finding, AllocError> {
    if least(past, a, Byte::is_checked).is_none() || least(past, b, Byte::is_checked).is_none() {
        return Ok(Finding::OrderedEmpty);
    }
    if let Some((byte, after)) = least_pair(alloc, past, a, b, true, profile)? {
        let crash = byte_at(past, after).last;
        return Ok(Finding::OrderedFail { byte, after, crash });
    }
    Ok(match least_pair(alloc, past, a, b, false, profile)? {
        Some((byte, after)) => Finding::OrderedSameLine { byte, after },
        None => Finding::OrderedPass,
    })
}

// ---- lines

/// What is known of a cache line.
#[derive(Clone, Copy, Debug, PartialEq, Eq)]
pub enum Line {
    /// No store has met it, or a fence follows a write-back of it that follows the last store.
    Clean,
    /// It isn't clean, and a write-back of it follows the last store.
    Pending,
    /// Neither.
    Dirty,
}

fn line_at(past: &[Event], line: u64) -> Line {
    let mut last = 0;
    let mut is_written_back = true;
    for (index, event) in past.iter().enumerate() {
        match event {
            Event::Store(span) if meets(*span, line) => {
                last = place_of(index);
                is_written_back = false;
            }
            Event::Flush(span) if meets(*span, line) => is_written_back = true,
            _ => {}
        }
    }
    if last == 0 || closing(past, line, last).is_some() {
        Line::Clean
    } else if is_written_back {
        Line::Pending
    } else {
        Line::Dirty
    }
}

/// Of the lines that the span meets, those that are so: the least, and how many.
pub fn lines_of(past: &[Event], span: Span, so: Line) -> Option<Lines> {
    let mut found: Option<u64> = None;
    let mut count = 0u64;
    for number in span.first() / LINE_SIZE..span.end().wrapping_sub(1) / LINE_SIZE + 1 {
        let line = number.wrapping_mul(LINE_SIZE);
        if line_at(past, line) == so {
            found = Some(found.unwrap_or(line));
            count = count.wrapping_add(1);
        }
    }
    found.map(|least| Lines { least, count })
}

// ---- transactions

/// How many transactions run: the highest rise from any place.
pub fn depth(past: &[Event]) -> u32 {
    let mut highest = 0;
    for from in 0..past.len() {
        let (mut begins, mut ends) = (0u32, 0u32);
        for event in &past[from..] {
            match event {
                Event::TxBegin => begins = begins.wrapping_add(1),
                Event::TxEnd => ends = ends.wrapping_add(1),
                _ => {}
            }
        }
        highest = begins.saturating_sub(ends).max(highest);
    }
    highest
}

/// Whether a TXADD covers the byte, and a transaction has run at every place from the one before the last such TXADD.
pub fn is_backed(past: &[Event], byte: u64) -> bool {
    let mut is_backed = false;
    for (index, event) in past.iter().enumerate() {
        match event {
            Event::TxAdd(span) if span.covers(byte) => is_backed = true,
            _ => {}
        }
        is_backed = is_backed && depth(first(past, place_of(index))) > 0;
    }
    is_backed
}

/// The place of the first CHECKSTART after the last CHECKEND, or 0: it opened the scope.
pub fn scope(past: &[Event]) -> u32 {
    let mut opened = 0;
    for (index, event) in past.iter().enumerate() {
        match event {
            Event::CheckStart if opened == 0 => opened = place_of(index),
            Event::CheckEnd => opened = 0,
            _ => {}
        }
    }
    opened
}

/// Whether a store of the byte, in a transaction, follows the place that opened the scope.
pub fn is_scoped(past: &[Event], byte: u64) -> bool {
    let opened = scope(past);
    for (index, event) in past.iter().enumerate() {
        let place = place_of(index);
        if let Event::Store(span) = event {
            if opened > 0 && place > opened && span.covers(byte) && depth(first(past, place)) > 0 {
                return true;
            }
        }
    }
    false
}

// Of a store in a transaction and a scope: its least included byte that is not backed up.
fn found_of_store(past: &[Event], span: Span) -> Option<Finding> {
    if depth(past) == 0 || scope(past) == 0 {
        return None;
    }
    for byte in span.first()..span.end() {
        if !byte_at(past, byte).is_excluded && !is_backed(past, byte) {
            return Some(Finding::NoBackup { byte });
        }
    }
    None
}

fn found_of_add(past: &[Event], span: Span) -> Option<Finding> {
    if depth(past) == 0 {
        return Some(Finding::Outside);
    }
    if scope(past) == 0 {
        return None;
    }
    for byte in span.first()..span.end() {
        if is_backed(past, byte) {
            return Some(Finding::DupLog { byte });
        }
    }
    None
}

fn found_of_check_end(past: &[Event]) -> Finding {
    let depth = depth(past);
    if scope(past) == 0 {
        return Finding::Unopened;
    }
    if depth > 0 {
        return Finding::TxStillOpen { depth };
    }
    let mut least: Option<u64> = None;
    for event in past {
        if let Event::Store(span) = event {
            for byte in span.first()..span.end() {
                let at = byte_at(past, byte);
                if at.is_checked() && at.is_open() && is_scoped(past, byte) {
                    least = Some(least.unwrap_or(byte).min(byte));
                }
            }
        }
    }
    match least {
        Some(byte) => Finding::CheckFail { byte },
        None => Finding::CheckPass,
    }
}

// ---- rows

// What is found of the event that follows, of which a write-back alone can have two findings.
fn found(
    alloc: Global,
    past: &[Event],
    event: Event,
    profile: Profile,
) -> Result<[Option<Finding>; 2], AllocError> {
    let one = match event {
        Event::Store(span) => found_of_store(past, span),
        Event::Flush(span) => return Ok(found_of_flush(past, span)),
        Event::Persist(span) => Some(found_of_persist(past, span)),
        Event::Ordered(a, b) => Some(found_of_order(alloc, past, a, b, profile)?),
        Event::TxAdd(span) => found_of_add(past, span),
        Event::TxEnd if depth(past) == 0 => Some(Finding::Unmatched),
        Event::CheckStart if scope(past) > 0 => Some(Finding::Nested),
        Event::CheckEnd => Some(found_of_check_end(past)),
        _ => None,
    };
    Ok([one, None])
}

fn found_of_flush(past: &[Event], span: Span) -> [Option<Finding>; 2] {
    let doubled = lines_of(past, span, Line::Pending).map(|found| Finding::FlushDoubled {
        line: found.least,
        lines: found.count,
    });
    let needless = lines_of(past, span, Line::Clean).map(|found| Finding::FlushNeedless {
        line: found.least,
        lines: found.count,
    });
    [doubled, needless]
}

/// The rows of a section with these events, by the profile.
pub fn rows_of(alloc: Global, events: &[Event], profile: Profile) -> Result<Vec<Row>, AllocError> {
    let mut rows = Vec::new(alloc);
    for (index, event) in events.iter().enumerate() {
        let place = place_of(index);
        for finding in found(alloc, &events[..index], *event, profile)? {
            if let Some(finding) = finding {
                rows.push(Row { place, finding })?;
            }
        }
    }
    let start = scope(events);
    if start > 0 {
        let place = place_of(events.len());
        let finding = Finding::Unclosed { start };
        rows.push(Row { place, finding })?;
    }
    Ok(rows)
}
