//! Write-backs of so many lines that totals over all lines are kept, which answer as a new count does.

use super::BASE;
use super::random::span;
use crate::shadow::Shadow;
use crate::stretches::lines_of;
use crate::wide::WIDEST;
use pmf_event::{EVENT_LIMIT, Event, Span, SpanFault};
use pmf_fixtures::Numbers;
use pmf_fixtures::plain::{self, Line};
use std::alloc::AllocError;
use std::process::Abort;
use std::test::Fail;

/// From the first byte of all, or from among those that are stored to.
fn widest_span(numbers: &mut Numbers) -> Result<Span, SpanFault> {
    let first = match numbers.below(3) {
        0 => 0,
        1 => BASE,
        _ => BASE + numbers.below(200),
    };
    Span::make(first, WIDEST + numbers.below(200))
}

/// Behind those spans, on up to 40 lines.
fn far_span(numbers: &mut Numbers) -> Result<Span, SpanFault> {
    Span::make(BASE + WIDEST + numbers.below(1280), numbers.below(1280) + 1)
}

fn event(numbers: &mut Numbers) -> Result<Event, SpanFault> {
    match numbers.below(16) {
        0 | 1 | 2 => Ok(Event::Flush(widest_span(numbers)?)),
        3 => Ok(Event::Flush(far_span(numbers)?)),
        4 => Ok(Event::Store(far_span(numbers)?)),
        5 | 6 => Ok(Event::Flush(span(numbers)?)),
        7 => Ok(Event::Exclude(span(numbers)?)),
        8 => Ok(Event::Include(span(numbers)?)),
        9 | 10 => Ok(Event::Fence),
        _ => Ok(Event::Store(span(numbers)?)),
    }
}

fn follow(shadow: &mut Shadow, place: u32, event: Event) -> Result<(), AllocError> {
    if shadow.fences as usize >= EVENT_LIMIT {
        return Err(AllocError);
    }
    shadow.follow(place, event)
}

/// Both find the same of a write-back, for which the first of them is made ready.
fn assert_alike(
    rt: &impl Abort,
    one: &mut Shadow,
    other: &Shadow,
    span: Span,
) -> Result<(), AllocError> {
    one.settle_for(&Event::Flush(span))?;
    let what = (span.first(), span.size(), one.totals);
    assert_eq!(rt; one.flush_lines(span), other.flush_lines(span), "{what:?}");
    Ok(())
}

/// Lists of 48 events. One shadow is made ready for each of them, and so keeps totals, and the other is not.
#[test]
fn totals_answer_as_a_new_count_does(rt: HostRuntime) -> Result<(), Fail> {
    let alloc = rt.alloc();
    let mut numbers = Numbers::of(3);
    let mut kept = 0_u32;
    for list in 0..60 {
        let mut one = Shadow::with_front(alloc, list % 4 * 2);
        let mut other = Shadow::with_front(alloc, 0);
        let mut events = Vec::new(alloc);
        for place in 1..49 {
            let event = event(&mut numbers)?;
            events.push(event)?;
            if let Event::Flush(span) = event {
                assert_alike(&rt, &mut one, &other, span)?;
            }
            follow(&mut one, place, event)?;
            follow(&mut other, place, event)?;
            if one.totals.is_some() {
                kept = kept.wrapping_add(1);
            }
            assert_alike(&rt, &mut one, &other, widest_span(&mut numbers)?)?;
        }
        if list % 12 == 0 {
            let wide = widest_span(&mut numbers)?;
            one.settle_for(&Event::Flush(wide))?;
            let pending = plain::lines_of(events.as_slice(), wide, Line::Pending);
            assert_eq!(rt; one.pending_lines(wide), pending);
            let clean = plain::lines_of(events.as_slice(), wide, Line::Clean);
            assert_eq!(rt; one.clean_lines(wide), clean);
        }
    }
    assert!(rt; kept > 2000, "{kept} of 2880");
    Ok(())
}

/// Each of 1,000 write-backs follows 16 stores to lines of their own, which lie apart or side by side from the first line on, and no fence.
#[test]
fn write_backs_without_fences_count_no_line_anew(rt: HostRuntime) -> Result<(), Fail> {
    for (first, apart) in [(0, 192), (BASE, 64)] {
        let mut shadow = Shadow::new(rt.alloc());
        let all = Span::make(first, 1 << 32)?;
        let lines = lines_of(&all);
        let lines = lines.1.wrapping_sub(lines.0);
        let mut stored = 0_u64;
        for round in 0..1000_u32 {
            let before = stored;
            for _line in 0..16 {
                let byte = stored.wrapping_mul(apart).wrapping_add(BASE);
                shadow.store(round + 1, Span::make(byte, 8)?)?;
                stored = stored.wrapping_add(1);
            }
            shadow.settle_for(&Event::Flush(all))?;
            let found = shadow.flush_lines(all);
            let pending = found.pending.map_or(0, |lines| lines.count);
            assert_eq!(rt; pending, before);
            let clean = found.clean.map_or(0, |lines| lines.count);
            assert_eq!(rt; clean.wrapping_add(stored), lines);
            shadow.flush(all)?;
        }
    }
    Ok(())
}
