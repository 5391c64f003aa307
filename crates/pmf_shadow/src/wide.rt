//! Which events ask of so many bytes that lines in front are made ready before. For speed alone.

use pmf_event::{Event, Events};

/// How many bytes a span has at least that is wide.
pub(crate) const WIDE: u64 = 1024;

/// How many bytes a span has at least that totals are asked of.
pub(crate) const WIDEST: u64 = 1 << 20;

/// One of so many events may ask of a wide span where lines in front are to pay.
const RARELY: usize = 256;

/// How many lines are in front at most, 144 bytes each.
const MOST: usize = 1 << 18;

/// The same where more than so many events ask of a wide span, so that lines may be put behind, and are in both places for a moment.
const FEW: usize = 1 << 14;

const SEVERAL: usize = 16;

/// Of how many bytes the event asks, at least: any number at the end of a scope, once a wide span was stored to.
pub(crate) fn asked_at(event: Event, has_wide: bool) -> u64 {
    match event {
        Event::Store(span) => span.size(),
        Event::Flush(span) => span.size(),
        Event::Persist(span) => span.size(),
        Event::Ordered(a, b) => a.size().max(b.size()),
        Event::CheckEnd if has_wide => u64::MAX,
        _ => 0,
    }
}

pub(crate) fn stores_widely(event: Event) -> bool {
    match event {
        Event::Store(span) => span.size() >= WIDE,
        _ => false,
    }
}

/// Whether the event writes back so many bytes that totals over all lines may pay.
pub(crate) fn flushes_widely(event: Event) -> bool {
    match event {
        Event::Flush(span) => span.size() >= WIDEST,
        _ => false,
    }
}

/// How many lines may be in front while these events are followed: none where many of them ask of a wide span, and few where several do.
pub(crate) fn lines_for(events: &Events) -> usize {
    let mut wide = 0_usize;
    for index in 0..events.len() {
        if asked_at(events.at(index), false) >= WIDE {
            wide = wide.wrapping_add(1);
        }
    }
    if wide > events.len() / RARELY {
        0
    } else if wide > SEVERAL {
        FEW
    } else {
        MOST
    }
}
