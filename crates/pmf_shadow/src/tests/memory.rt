//! Changes for which room is refused. With ample memory this test only follows its events; under
//! `tests/refuse-memory` each change fails in turn, and `shadow_of` then asks all that was asked before.

use super::{BASE, assert_answers, shadow_of};
use pmf_event::{Event, Span};
use std::alloc::{AllocError, Global};
use std::process::Abort;
use std::test::Fail;

/// The events are followed with lines in front and without, and the lines are put behind.
fn assert_kept(rt: &impl Abort, alloc: Global, events: &[Event]) -> Result<(), AllocError> {
    shadow_of(rt, alloc, 0, events)?;
    let mut shadow = shadow_of(rt, alloc, 64, events)?;
    let settled = shadow.settle();
    assert_answers(rt, &shadow, events);
    settled
}

#[test]
fn a_refused_change_changes_no_answer(rt: HostRuntime) -> Result<(), Fail> {
    let alloc = rt.alloc();
    let mut stores = Vec::new(alloc);
    for index in 0..64 {
        stores.push(Event::Store(Span::make(BASE + index * 37 % 256, 1)?))?;
    }
    assert_kept(&rt, alloc, stores.as_slice())?;
    let mut flushes = Vec::new(alloc);
    flushes.push(Event::Flush(Span::make(BASE + 64, 1)?))?;
    for index in 0..4 {
        flushes.push(Event::Store(Span::make(BASE + index * 64 + 60, 2)?))?;
        flushes.push(Event::Store(Span::make(BASE + index * 64 + 2, 9)?))?;
        flushes.push(Event::Exclude(Span::make(BASE + index * 64 + 20, 3)?))?;
        flushes.push(Event::Flush(Span::make(BASE + index * 64, 64)?))?;
        flushes.push(Event::Fence)?;
    }
    assert_kept(&rt, alloc, flushes.as_slice())?;
    let mut exclusions = Vec::new(alloc);
    exclusions.push(Event::Store(Span::make(BASE, 256)?))?;
    for index in 0..32 {
        exclusions.push(Event::Exclude(Span::make(BASE + index * 8, 5)?))?;
        exclusions.push(Event::Include(Span::make(BASE + index * 8 + 2, 1)?))?;
    }
    assert_kept(&rt, alloc, exclusions.as_slice())?;
    let mut words = Vec::new(alloc);
    for index in 0..48 {
        words.push(Event::Store(Span::make(BASE + index * 40 % 256, 8)?))?;
        words.push(Event::Flush(Span::make(BASE + index % 4 * 64, 64)?))?;
    }
    words.push(Event::Store(Span::make(BASE + 30, 4)?))?;
    assert_kept(&rt, alloc, words.as_slice())?;
    Ok(())
}
