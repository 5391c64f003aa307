//! What assertions and write-backs find of a shadow, in tables.

use super::*;
use pmf_event::{EVENT_LIMIT, Event, Finding, Profile, Span};
use pmf_fixtures::{FENCE, FLUSH, OTHER, STORE, Step, events_of};
use pmf_shadow::Shadow;
use std::alloc::{AllocError, Global};
use std::test::Fail;

fn shadow_after(alloc: Global, steps: &[Step]) -> Result<Shadow, Fail> {
    let events = events_of(alloc, steps)?;
    Ok(shadow_of(alloc, events.as_slice())?)
}

fn shadow_of(alloc: Global, events: &[Event]) -> Result<Shadow, AllocError> {
    if events.len() > EVENT_LIMIT {
        return Err(AllocError);
    }
    let mut shadow = Shadow::new(alloc);
    for (index, event) in events.iter().enumerate() {
        shadow.follow(index as u32 + 1, *event)?;
    }
    Ok(shadow)
}

fn fail(byte: u64) -> Finding {
    Finding::PersistFail { byte }
}

#[test]
fn a_persist_assertion_names_its_least_open_byte(rt: HostRuntime) -> Result<(), Fail> {
    let pass = Finding::PersistPass;
    let empty = Finding::PersistEmpty;
    let two_lines = [Step::Store(0x1000, 0x48), FLUSH, FENCE];
    let out = Step::Exclude(0x1000, 4);
    let all = Step::Exclude(0x1000, 8);
    let back = Step::Include(0x1005, 1);
    for (steps, size, want) in [
        ([OTHER].as_slice(), 8, empty),
        ([STORE].as_slice(), 8, fail(0x1000)),
        ([STORE, FLUSH].as_slice(), 8, fail(0x1000)),
        ([STORE, FLUSH, FENCE].as_slice(), 8, pass),
        ([Step::Store(0x1006, 8)].as_slice(), 8, fail(0x1006)),
        (two_lines.as_slice(), 0x40, pass),
        (two_lines.as_slice(), 0x41, fail(0x1040)),
        ([STORE, out].as_slice(), 8, fail(0x1004)),
        ([out, STORE].as_slice(), 8, fail(0x1004)),
        ([STORE, all].as_slice(), 8, empty),
        ([STORE, all, back].as_slice(), 8, fail(0x1005)),
        ([all, back].as_slice(), 8, empty),
    ] {
        let shadow = shadow_after(rt.alloc(), steps)?;
        let found = check_persist(&shadow, Span::make(0x1000, size)?);
        assert_eq!(rt; found, want, "{steps:?}, size {size}");
    }
    Ok(())
}

fn ordered_fail(after: u64, crash: u32) -> Finding {
    let byte = 0x1000;
    Finding::OrderedFail { byte, after, crash }
}

fn same_line(after: u64) -> Finding {
    let byte = 0x1000;
    Finding::OrderedSameLine { byte, after }
}

#[test]
fn an_order_assertion_is_judged_by_its_profile(rt: HostRuntime) -> Result<(), Fail> {
    let pass = Finding::OrderedPass;
    let empty = Finding::OrderedEmpty;
    let (at_1, at_2, at_3) = (
        ordered_fail(0x2000, 1),
        ordered_fail(0x2000, 2),
        ordered_fail(0x2000, 3),
    );
    let next = Step::Store(0x1008, 8);
    let one_store = Step::Store(0x1000, 16);
    let to_two_lines = Step::Store(0x1000, 0x48);
    let fence_between = [STORE, FLUSH, FENCE, OTHER];
    let fence_for_both = [STORE, OTHER, FLUSH, Step::Flush(0x2000, 0x40), FENCE];
    let later_fence = [STORE, FLUSH, OTHER, FENCE];
    let other_first = [OTHER, STORE, FLUSH, FENCE];
    for (steps, b, one, two) in [
        (fence_between.as_slice(), 0x2000, pass, pass),
        (fence_for_both.as_slice(), 0x2000, at_2, at_2),
        (later_fence.as_slice(), 0x2000, at_3, at_3),
        (other_first.as_slice(), 0x2000, at_1, at_1),
        ([STORE, next].as_slice(), 0x1008, same_line(0x1008), pass),
        (
            [one_store].as_slice(),
            0x1008,
            same_line(0x1008),
            same_line(0x1008),
        ),
        (
            [to_two_lines].as_slice(),
            0x1040,
            ordered_fail(0x1040, 1),
            ordered_fail(0x1040, 1),
        ),
        (
            [next, STORE].as_slice(),
            0x1008,
            ordered_fail(0x1008, 1),
            ordered_fail(0x1008, 1),
        ),
        (
            [STORE].as_slice(),
            0x1000,
            same_line(0x1000),
            same_line(0x1000),
        ),
        ([STORE].as_slice(), 0x2000, empty, empty),
        ([OTHER].as_slice(), 0x2000, empty, empty),
    ] {
        let shadow = shadow_after(rt.alloc(), steps)?;
        let (a, b) = (Span::make(0x1000, 8)?, Span::make(b, 8)?);
        assert_eq!(rt;
            check_ordered(&shadow, a, b, Profile::One),
            one,
            "{steps:?}"
        );
        assert_eq!(rt;
            check_ordered(&shadow, a, b, Profile::Two),
            two,
            "{steps:?}"
        );
    }
    Ok(())
}

fn doubled(line: u64, lines: u64) -> Option<Finding> {
    Some(Finding::FlushDoubled { line, lines })
}

fn needless(line: u64, lines: u64) -> Option<Finding> {
    Some(Finding::FlushNeedless { line, lines })
}

#[test]
fn a_write_back_is_judged_by_what_came_before_it(rt: HostRuntime) -> Result<(), Fail> {
    let shadow = Shadow::new(rt.alloc());
    let greatest = Span::make(0x20, 1 << 32)?;
    let found = check_flush(&shadow, greatest);
    assert_eq!(rt;
        (found.doubled, found.needless),
        (None, needless(0, 67_108_865))
    );
    let both = Step::Store(0x103c, 8);
    let stored_again = [STORE, FLUSH, FENCE, STORE];
    let (all, first, rest) = (needless(0x1000, 3), doubled(0x1000, 1), needless(0x1040, 2));
    for (steps, twice, none) in [
        ([].as_slice(), None, all),
        ([STORE].as_slice(), None, rest),
        ([STORE, FLUSH].as_slice(), first, rest),
        ([FLUSH, STORE].as_slice(), None, rest),
        ([STORE, FLUSH, FENCE].as_slice(), None, all),
        (stored_again.as_slice(), None, rest),
        ([both, FLUSH].as_slice(), first, needless(0x1080, 1)),
    ] {
        let shadow = shadow_after(rt.alloc(), steps)?;
        let found = check_flush(&shadow, Span::make(0x103f, 0x42)?);
        assert_eq!(rt; (found.doubled, found.needless), (twice, none), "{steps:?}");
    }
    Ok(())
}
