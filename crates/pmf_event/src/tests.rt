//! Spans, lines, names and sections at their limits.

use super::*;
use std::cmp::Ordering;
use std::test::Fail;

const FIRST: Name = Name { run: 0, number: 1 };

#[test]
fn a_section_holds_its_events_in_order(rt: HostRuntime) -> Result<(), Fail> {
    let span = Span::make(0x1000, 8)?;
    let line = Span::make(0x1000, 0x40)?;
    let events = [
        Event::Store(span),
        Event::Flush(line),
        Event::Fence,
        Event::Persist(span),
    ];
    let empty = Section::new(rt.alloc(), FIRST);
    let mut section = Section::new(rt.alloc(), FIRST);
    assert!(rt; section.same_as(&empty));
    for event in &events {
        section.push(*event)?;
    }
    for (index, event) in events.iter().enumerate() {
        assert_eq!(rt; section.events().get(index), Some(*event));
    }
    assert_eq!(rt; section.events().get(events.len()), None);
    assert_eq!(rt; section.name(), FIRST);
    assert!(rt; !section.same_as(&empty));
    Ok(())
}

#[test]
fn a_section_takes_the_events_of_another_behind_its_own(rt: HostRuntime) -> Result<(), Fail> {
    let mut all = Section::new(rt.alloc(), FIRST);
    let mut section = Section::new(rt.alloc(), FIRST);
    let mut first: u64 = 0;
    for count in [2, 0, 3, 1] {
        let mut more = Section::new(rt.alloc(), Name { run: 7, number: 7 });
        for _ in 0..count {
            first = first.wrapping_add(16);
            let event = Event::Ordered(Span::make(first, 1)?, Span::make(first + 8, 2)?);
            for event in [Event::Fence, event] {
                all.push(event)?;
                more.push(event)?;
            }
        }
        section.append(more)?;
    }
    assert_eq!(rt; section.events().len(), 12);
    assert!(rt; section.same_as(&all));
    for index in 0..12 {
        assert_eq!(rt;
            section.events().get(index),
            all.events().get(index),
            "{index}"
        );
    }
    assert_eq!(rt; section.events().get(12), None);
    assert!(rt; !section.events().is_empty());
    all.push(Event::Fence)?;
    assert!(rt; !section.same_as(&all));
    Ok(())
}

#[test]
fn sections_are_the_same_where_each_event_is(rt: HostRuntime) -> Result<(), Fail> {
    let (a, b) = (Span::make(0, 8)?, Span::make(64, 8)?);
    let mut made = Vec::new(rt.alloc());
    for event in [
        Event::Ordered(a, b),
        Event::Ordered(b, a),
        Event::Ordered(a, a),
        Event::Store(a),
        Event::Persist(a),
    ] {
        let mut section = Section::new(rt.alloc(), FIRST);
        section.push(event)?;
        made.push(section)?;
    }
    for (one, section) in made.iter().enumerate() {
        for (other, beside) in made.iter().enumerate() {
            assert_eq!(rt; section.same_as(beside), one == other, "{one} and {other}");
        }
    }
    Ok(())
}

#[test]
fn rows_hold_what_was_added_in_order(rt: HostRuntime) -> Result<(), Fail> {
    let pass = Row {
        place: 4,
        finding: Finding::PersistPass,
    };
    let fail = Row {
        place: 5,
        finding: Finding::PersistFail { byte: 0x1000 },
    };
    let mut rows = Rows::new(rt.alloc());
    rows.push(pass)?;
    rows.push(fail)?;
    rows.shrink_to_fit();
    assert!(rt; rows.as_slice() == [pass, fail].as_slice());
    Ok(())
}

#[test]
fn a_span_is_refused_by_its_first_fault(rt: HostRuntime) {
    let end = 1 << 63;
    let most = 1 << 32;
    for (first, size, want) in [
        (0, 1, None),
        (end - most, most, None),
        (end - 1, 1, None),
        (0, 0, Some(SpanFault::ZeroSize)),
        (u64::MAX, 0, Some(SpanFault::ZeroSize)),
        (0, most + 1, Some(SpanFault::TooLarge)),
        (u64::MAX, most + 1, Some(SpanFault::TooLarge)),
        (end - 1, 2, Some(SpanFault::PastEnd)),
        (u64::MAX, 1, Some(SpanFault::PastEnd)),
    ] {
        let made = Span::make(first, size);
        assert_eq!(rt; made.err(), want, "first {first}, size {size}");
    }
}

#[test]
fn a_span_between_two_addresses_holds_at_most_2_to_the_32_bytes(rt: HostRuntime) {
    for (first, end, size) in [(0x1000, 0x1040, 0x40), (1, 1 << 63, 1 << 32)] {
        let span = Span::between(first, end);
        assert_eq!(rt;
            (span.first(), span.size(), span.end()),
            (first, size, first + size),
            "{first:x} to {end:x}"
        );
    }
}

#[test]
fn spans_cover_their_bytes_and_meet_where_they_share_one(rt: HostRuntime) -> Result<(), Fail> {
    let span = Span::make(0x1000, 8)?;
    for (byte, want) in [
        (0xfff, false),
        (0x1000, true),
        (0x1007, true),
        (0x1008, false),
    ] {
        assert_eq!(rt; span.covers(byte), want, "byte {byte:x}");
        assert_eq!(rt; span.meets(&Span::make(byte, 1)?), want, "byte {byte:x}");
    }
    Ok(())
}

#[test]
fn a_line_is_named_by_its_first_byte(rt: HostRuntime) {
    for (byte, want) in [(63, 0), (64, 64), ((1 << 63) - 1, (1 << 63) - 64)] {
        assert_eq!(rt; line_of(byte), want, "byte {byte:x}");
    }
}

#[test]
fn names_are_ordered_by_run_and_then_by_number(rt: HostRuntime) {
    for (run, number, want) in [
        (0, 9, Ordering::Less),
        (1, 1, Ordering::Less),
        (1, 2, Ordering::Equal),
        (1, 3, Ordering::Greater),
        (2, 0, Ordering::Greater),
    ] {
        let name = Name { run, number };
        let other = Name { run: 1, number: 2 };
        assert_eq!(rt; name.cmp(&other), want, "{name:?}");
    }
}

#[test]
fn faults_are_shown_by_their_texts(rt: HostRuntime) -> Result<(), Fail> {
    for (fault, want) in [
        (SpanFault::ZeroSize, "size is zero"),
        (SpanFault::TooLarge, "size is too large"),
        (SpanFault::PastEnd, "range ends past 2^63"),
    ] {
        let text = format!(in rt.alloc(); "{fault}")?;
        assert_eq!(rt; text.as_str(), want);
    }
    let text = format!(in rt.alloc(); "{}", SectionFault::TooManyEvents)?;
    assert_eq!(rt; text.as_str(), "too many events in the section");
    let text = format!(in rt.alloc(); "{}", SectionFault::OutOfMemory)?;
    assert_eq!(rt; text.as_str(), "out of memory");
    Ok(())
}
