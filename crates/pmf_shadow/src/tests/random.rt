//! A shadow and the plain checker answer alike, over lists of events that look random.

use super::{BASE, BYTES, assert_answers, assert_of_span, shadow_of};
use crate::shadow::Shadow;
use pmf_event::{Event, Profile, Span, SpanFault};
use pmf_fixtures::{Numbers, plain};
use std::alloc::{AllocError, Global};
use std::process::Abort;
use std::test::Fail;

/// Of 1 to 100 bytes, or of 1 to 13 words, which may be in front.
pub(super) fn span(numbers: &mut Numbers) -> Result<Span, SpanFault> {
    let unit = if numbers.below(2) == 0 { 1 } else { 8 };
    let offset = numbers.below(BYTES / unit) * unit;
    let size = (numbers.below(100 / unit) + 1) * unit;
    Span::make(BASE + offset, size.min(BYTES - offset))
}

fn event(numbers: &mut Numbers) -> Result<Event, SpanFault> {
    match numbers.below(9) {
        0 | 1 | 2 => Ok(Event::Store(span(numbers)?)),
        3 | 4 => Ok(Event::Flush(span(numbers)?)),
        5 | 6 => Ok(Event::Fence),
        7 => Ok(Event::Exclude(span(numbers)?)),
        _ => Ok(Event::Include(span(numbers)?)),
    }
}

fn assert_of_pair(
    rt: &impl Abort,
    alloc: Global,
    shadow: &Shadow,
    past: &[Event],
    a: Span,
    b: Span,
) -> Result<(), AllocError> {
    for shown in [false, true] {
        for profile in [Profile::One, Profile::Two] {
            let told = shadow.least_pair(a, b, shown, profile);
            let want = plain::least_pair(alloc, past, a, b, shown, profile)?;
            assert_eq!(rt; told, want, "{shown} {profile:?} {a:?} {b:?}");
        }
    }
    Ok(())
}

/// Lists of 6 to 18 events.
#[test]
fn a_shadow_answers_as_a_plain_checker_does(rt: HostRuntime) -> Result<(), Fail> {
    let alloc = rt.alloc();
    let mut numbers = Numbers::of(1);
    for list in 0..160 {
        let mut events = Vec::new(alloc);
        for _event in 0..numbers.below(13) + 6 {
            events.push(event(&mut numbers)?)?;
        }
        let past = events.as_slice();
        let mut shadow = shadow_of(&rt, alloc, list % 4 * 2, past)?;
        assert_answers(&rt, &shadow, past);
        if list % 4 == 3 {
            shadow.settle()?;
        }
        for _span in 0..2 {
            let (a, b) = (span(&mut numbers)?, span(&mut numbers)?);
            assert_of_span(&rt, &shadow, past, a);
            assert_of_pair(&rt, alloc, &shadow, past, a, b)?;
        }
    }
    Ok(())
}

/// Of one to four bytes.
fn small_event(numbers: &mut Numbers) -> Result<Event, SpanFault> {
    let offset = numbers.below(BYTES - 4);
    let small = Span::make(BASE + offset, numbers.below(4) + 1)?;
    match numbers.below(12) {
        0 | 1 | 2 | 3 => Ok(Event::Store(small)),
        4 | 5 | 6 => Ok(Event::Flush(small)),
        7 => Ok(Event::Fence),
        8 | 9 => Ok(Event::Exclude(small)),
        _ => Ok(Event::Include(small)),
    }
}

/// Lists of 300 events of a few bytes each. No line is in front, and the map of runs has several leaves.
#[test]
fn many_runs_are_answered_alike_beside_excluded_ones(rt: HostRuntime) -> Result<(), Fail> {
    let alloc = rt.alloc();
    let mut numbers = Numbers::of(3);
    let (low, high) = (
        Span::make(BASE, BYTES / 2)?,
        Span::make(BASE + BYTES / 2, BYTES / 2)?,
    );
    for _list in 0..4 {
        let mut events = Vec::new(alloc);
        for _event in 0..300 {
            events.push(small_event(&mut numbers)?)?;
        }
        for tenth in 1..11 {
            let past = &events[..events.len().min(tenth * 30)];
            let shadow = shadow_of(&rt, alloc, 0, past)?;
            assert_answers(&rt, &shadow, past);
            assert_of_span(&rt, &shadow, past, low);
            assert_of_span(&rt, &shadow, past, high);
            assert_of_pair(&rt, alloc, &shadow, past, low, high)?;
            assert_of_pair(&rt, alloc, &shadow, past, high, low)?;
        }
    }
    Ok(())
}
