//! Changes and questions of wide spans, which meet many lines, of which some are in front.

use super::random::span;
use super::{BASE, assert_answers, assert_of_span, shadow_of};
use pmf_event::{Event, Span, SpanFault};
use pmf_fixtures::Numbers;
use std::alloc::Global;
use std::test::Fail;

/// Of 100 lines or some more, around those that are asked of, and most often not whole.
fn wide_span(numbers: &mut Numbers) -> Result<Span, SpanFault> {
    let offset = numbers.below(100);
    Span::make(BASE - 3100 + offset, 6400 + numbers.below(100))
}

fn event(numbers: &mut Numbers) -> Result<Event, SpanFault> {
    match numbers.below(12) {
        0 => Ok(Event::Store(wide_span(numbers)?)),
        1 => Ok(Event::Flush(wide_span(numbers)?)),
        2 => Ok(Event::Exclude(wide_span(numbers)?)),
        3 => Ok(Event::Include(wide_span(numbers)?)),
        4 | 5 | 6 | 7 | 8 => Ok(Event::Store(span(numbers)?)),
        9 | 10 => Ok(Event::Flush(span(numbers)?)),
        _ => Ok(Event::Fence),
    }
}

/// Lists of 6 to 18 events, which are asked of before the lines in front are made ready for a wide question, and after it.
#[test]
fn wide_spans_are_answered_alike_whatever_lines_are_in_front(rt: HostRuntime) -> Result<(), Fail> {
    let alloc = rt.alloc();
    let mut numbers = Numbers::of(2);
    for list in 0..40 {
        let mut events = Vec::new(alloc);
        for _event in 0..numbers.below(13) + 6 {
            events.push(event(&mut numbers)?)?;
        }
        let past = events.as_slice();
        let mut shadow = shadow_of(&rt, alloc, list % 4 * 2, past)?;
        assert_answers(&rt, &shadow, past);
        let wide = wide_span(&mut numbers)?;
        if list % 8 > 0 {
            shadow.settle_for(&Event::Persist(wide))?;
        }
        assert_answers(&rt, &shadow, past);
        if list % 5 == 0 {
            assert_of_span(&rt, &shadow, past, wide);
        }
    }
    Ok(())
}
