//! What a shadow answers after some events.

ghost use Rattle.std.specs.Prelude.{◌≤◌, length};
ghost use Rattle.pmf_event.specs.declared.section.TheConstants.{EVENT_LIMIT};

use crate::shadow::Shadow;
use pmf_event::{EVENT_LIMIT, Event, Interval, Span};
use pmf_fixtures::plain::{Byte, Line, byte_at, least, lines_of};
use pmf_fixtures::{FENCE, FLUSH, OTHER, STORE, Step, events_of};
use std::alloc::{AllocError, Global};
use std::process::Abort;
use std::test::Fail;

mod late;
mod memory;
mod places;
mod random;
mod totals;
mod wide;

/// The bytes of four lines, from this one on.
const BASE: u64 = 0x1000;

const BYTES: u64 = 256;

/// The shadow of the events, with so many lines in front at most. Where one of them is refused, what it answered before is what it answers.
fn shadow_of(
    rt: &impl Abort,
    alloc: Global,
    most: usize,
    events: &[Event],
) -> Result<Shadow, AllocError> {
    if events.len() > EVENT_LIMIT {
        return Err(AllocError);
    }
    let (shadow, count) = follow_all(alloc, most, events);
    if count < events.len() {
        assert_answers(rt, &shadow, &events[..count]);
        return Err(AllocError);
    }
    Ok(shadow)
}

/// Follows the events up to the first that is refused, and counts them.
fn follow_all(alloc: Global, most: usize, events: &[Event]) -> (Shadow, usize)
    requires { length events.now ≤ EVENT_LIMIT }
{
    let mut shadow = Shadow::with_front(alloc, most);
    for (index, event) in events.iter().enumerate() {
        match shadow.follow(index as u32 + 1, *event) {
            Ok(()) => {}
            Err(AllocError) => return (shadow, index),
        }
    }
    (shadow, events.len())
}

/// Each question about each byte is answered as the definitions say.
fn assert_answers(rt: &impl Abort, shadow: &Shadow, past: &[Event]) {
    for byte in BASE - 1..BASE + BYTES + 1 {
        let interval = byte_at(past, byte).interval;
        assert_eq!(rt; shadow.interval_at(byte), interval, "at {byte}");
        if let Ok(span) = Span::make(byte, 1) {
            assert_of_span(rt, shadow, past, span);
        }
    }
}

/// Each question about the span is answered as the definitions say.
fn assert_of_span(rt: &impl Abort, shadow: &Shadow, past: &[Event], span: Span) {
    let what = (span.first(), span.size());
    let written = least(past, span, Byte::is_checked).is_some();
    assert_eq!(rt; shadow.written_included(span), written, "{what:?}");
    let open = least(past, span, |byte| byte.is_checked() && byte.is_open());
    assert_eq!(rt; shadow.least_open(span), open, "{what:?}");
    let included = least(past, span, |byte| !byte.is_excluded);
    assert_eq!(rt; shadow.least_included(span), included, "{what:?}");
    let pending = lines_of(past, span, Line::Pending);
    assert_eq!(rt; shadow.pending_lines(span), pending, "{what:?}");
    let clean = lines_of(past, span, Line::Clean);
    assert_eq!(rt; shadow.clean_lines(span), clean, "{what:?}");
}

fn interval(last: u32, opens: u32, closes: Option<u32>) -> Option<Interval> {
    Some(Interval {
        last,
        opens,
        closes,
    })
}

#[test]
fn an_interval_closes_with_the_fence_after_a_write_back(rt: HostRuntime) -> Result<(), Fail> {
    let open = interval(1, 0, None);
    let closed = interval(1, 0, Some(1));
    for (steps, want) in [
        ([OTHER].as_slice(), None),
        (&[STORE], open),
        (&[FENCE, STORE], interval(2, 1, None)),
        (&[STORE, FLUSH], open),
        (&[STORE, FENCE], open),
        (&[FLUSH, STORE, FENCE], interval(2, 0, None)),
        (&[STORE, FLUSH, FENCE], closed),
        (&[STORE, FLUSH, FENCE, FLUSH, FENCE], closed),
        (&[STORE, FENCE, FLUSH, FENCE], interval(1, 0, Some(2))),
        (&[STORE, FLUSH, FENCE, STORE], interval(4, 1, None)),
        (&[STORE, Step::Flush(0x103f, 2), FENCE], closed),
        (&[STORE, Step::Flush(0x1040, 0x40), FENCE], open),
    ] {
        let events = events_of(rt.alloc(), steps)?;
        for most in [0, 1, 64] {
            let shadow = shadow_of(&rt, rt.alloc(), most, events.as_slice())?;
            assert_eq!(rt; shadow.interval_at(0x1007), want, "{steps:?}");
        }
    }
    Ok(())
}
