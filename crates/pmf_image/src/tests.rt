//! What the image of a certificate holds and shows, and which assertions it contradicts.

ghost use Rattle.std.specs.Prelude.{◌≡◌, true};
ghost use Rattle.pmf_image.specs.Certificate.{Fits};

use super::*;
use pmf_event::{Events, LINE_SIZE, SPAN_LIMIT, Span, line_of};
use pmf_fixtures::{FENCE, FLUSH, STORE, Step, events_of, section_with};
use std::test::Fail;

const PERSIST: Step = Step::Persist(0x1000, 8);

const FENCED: &[Step] = &[STORE, FLUSH, FENCE, PERSIST];

const UNFENCED: &[Step] = &[STORE, FLUSH, PERSIST];

const STORED_AFTER: &[Step] = &[
    STORE,
    FLUSH,
    Step::Store(0x1008, 8),
    FENCE,
    PERSIST,
    Step::Persist(0x1008, 8),
];

const TWO_LINES: &[Step] = &[
    Step::Store(0x103c, 8),
    FLUSH,
    FENCE,
    Step::Persist(0x103c, 8),
];

const ORDERED: Step = Step::Ordered((0x1000, 8), (0x2000, 8));

const TOGETHER: &[Step] = &[
    STORE,
    Step::Store(0x2000, 8),
    FLUSH,
    Step::Flush(0x2000, 0x40),
    FENCE,
    ORDERED,
];

const FULL: Option<u64> = Some(0x2000);

const AGAIN: &[Step] = &[
    STORE,
    FLUSH,
    FENCE,
    Step::Store(0x2000, 8),
    Step::Flush(0x2000, 0x40),
    FENCE,
    STORE,
    FLUSH,
    FENCE,
    ORDERED,
];

const EXCLUDED: &[Step] = &[STORE, Step::Exclude(0x1000, 8), PERSIST];

const PARTLY_INCLUDED: &[Step] = &[
    STORE,
    Step::Exclude(0x1000, 8),
    Step::Include(0x1004, 2),
    PERSIST,
];

const FIRST_EXCLUDED: &[Step] = &[
    STORE,
    Step::Store(0x2000, 8),
    Step::Exclude(0x1000, 8),
    ORDERED,
];

const INSIDE: Step = Step::Store(0x1000, 0x10);

const SCOPE: &[Step] = &[
    Step::CheckStart,
    Step::TxBegin,
    Step::TxAdd(0x1000, 8),
    INSIDE,
    Step::TxEnd,
    Step::CheckEnd,
];

const NOT_ENDED: &[Step] = &[
    Step::CheckStart,
    Step::TxBegin,
    Step::TxAdd(0x1000, 8),
    INSIDE,
    Step::CheckEnd,
];

const NOT_OPENED: &[Step] = &[Step::TxBegin, INSIDE, Step::TxEnd, Step::CheckEnd];

const OUTSIDE: &[Step] = &[Step::CheckStart, INSIDE, Step::CheckEnd];

const NESTED: &[Step] = &[
    Step::CheckStart,
    Step::TxBegin,
    Step::TxBegin,
    Step::TxEnd,
    INSIDE,
    Step::TxEnd,
    Step::TxEnd,
    Step::CheckEnd,
    Step::CheckEnd,
];

const SCOPE_PARTLY_EXCLUDED: &[Step] = &[
    Step::CheckStart,
    Step::TxBegin,
    INSIDE,
    Step::TxEnd,
    Step::Exclude(0x1000, 0xf),
    Step::CheckEnd,
];

// The last byte of the span is the only one of its line, and the only one that is not written back.
const LONGEST: &[Step] = &[
    Step::Store(1, SPAN_LIMIT),
    Step::Flush(0, SPAN_LIMIT),
    FENCE,
    Step::Persist(1, SPAN_LIMIT),
];

/// Whether the certificate may speak of the events.
fn fits(events: &Events, certificate: Certificate) -> bool
    ensures { result ≡ true → Fits events.now certificate }
{
    let is_line = match certificate.full_line {
        Some(line) => line % LINE_SIZE == 0,
        None => true,
    };
    is_line && certificate.crash as usize <= events.len()
}

#[test]
fn an_image_holds_the_floor_and_of_the_full_line_all(rt: HostRuntime) -> Result<(), Fail> {
    for (steps, crash, full_line, byte, held, shown) in [
        (FENCED, 4, None, 0x1000, 1, 1),
        (FENCED, 0, None, 0x1000, 0, 0),
        (UNFENCED, 3, None, 0x1000, 0, 0),
        (STORED_AFTER, 6, None, 0x1000, 1, 1),
        (STORED_AFTER, 6, None, 0x1008, 1, 0),
        (TWO_LINES, 4, None, 0x103c, 1, 1),
        (TWO_LINES, 4, None, 0x1040, 0, 0),
        (TOGETHER, 2, FULL, 0x1000, 0, 0),
        (TOGETHER, 2, FULL, 0x2000, 1, 2),
        (TOGETHER, 0, FULL, 0x2000, 0, 0),
    ] {
        let listed = events_of(rt.alloc(), steps)?;
        let section = section_with(rt.alloc(), &listed)?;
        let events = section.events();
        let certificate = Certificate { crash, full_line };
        let line = line_of(byte);
        assert!(rt; fits(events, certificate), "{steps:?}");
        assert!(rt; line % LINE_SIZE == 0, "{steps:?}");
        assert_eq!(rt; cut(events, certificate, line), held, "{steps:?}");
        assert_eq!(rt; shows(events, certificate, byte), shown, "{steps:?}");
    }
    Ok(())
}

#[test]
fn the_last_store_is_that_up_to_the_place(rt: HostRuntime) -> Result<(), Fail> {
    for (place, byte, want) in [
        (0, 0x1000, 0),
        (2, 0x1000, 1),
        (3, 0x1007, 3),
        (3, 0x1008, 0),
    ] {
        let listed = events_of(rt.alloc(), &[STORE, FENCE, STORE])?;
        let section = section_with(rt.alloc(), &listed)?;
        let events = section.events();
        assert!(rt; place as usize <= events.len(), "{place}");
        assert_eq!(rt; last_store(events, place, byte), want, "{place}");
    }
    Ok(())
}

#[test]
fn an_assertion_is_contradicted_as_its_kind_asks(rt: HostRuntime) -> Result<(), Fail> {
    let this = Some(0x1000);
    for (steps, place, crash, full_line, want, what) in [
        (FENCED, 4, 4, None, false, "fenced"),
        (UNFENCED, 3, 3, None, true, "not fenced"),
        (UNFENCED, 3, 3, this, false, "not fenced, but full"),
        (UNFENCED, 3, 3, FULL, true, "beside the full line"),
        (UNFENCED, 3, 2, None, false, "the crash is before it"),
        (UNFENCED, 2, 3, None, false, "a write-back"),
        (STORED_AFTER, 5, 6, None, false, "the durable store"),
        (STORED_AFTER, 6, 6, None, true, "the other store"),
        (TWO_LINES, 4, 4, None, true, "the second line alone"),
        (EXCLUDED, 3, 3, None, false, "excluded"),
        (PARTLY_INCLUDED, 4, 4, None, true, "two bytes included"),
        (LONGEST, 4, 4, None, true, "the longest span"),
        (TOGETHER, 6, 2, FULL, true, "the second alone is shown"),
        (TOGETHER, 6, 2, None, false, "the second is not shown"),
        (TOGETHER, 6, 6, FULL, false, "both are shown"),
        (TOGETHER, 6, 1, FULL, false, "before the second store"),
        (AGAIN, 10, 4, FULL, true, "an earlier store is shown"),
        (AGAIN, 10, 4, None, false, "the second is at its floor"),
        (AGAIN, 10, 10, FULL, false, "the later store is shown"),
        (FIRST_EXCLUDED, 4, 2, FULL, false, "the first is out"),
        (SCOPE, 6, 6, None, true, "not written back"),
        (SCOPE, 6, 6, this, false, "in full"),
        (SCOPE, 6, 5, None, false, "the crash is before its end"),
        (NOT_ENDED, 5, 5, None, false, "inside a transaction"),
        (NOT_OPENED, 4, 4, None, false, "no scope"),
        (OUTSIDE, 3, 3, None, false, "a store outside"),
        (NESTED, 8, 9, None, true, "in the outer transaction"),
        (NESTED, 9, 9, None, false, "the scope is closed"),
        (SCOPE_PARTLY_EXCLUDED, 6, 6, None, true, "one byte"),
    ] {
        let listed = events_of(rt.alloc(), steps)?;
        let section = section_with(rt.alloc(), &listed)?;
        let events = section.events();
        let certificate = Certificate { crash, full_line };
        assert!(rt; fits(events, certificate), "{what}");
        assert!(rt; place > 0 && place as usize <= events.len(), "{what}");
        let found = contradicts(events, place, certificate);
        assert_eq!(rt; found, want, "{what}");
    }
    Ok(())
}
