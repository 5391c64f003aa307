//! What many images show at once.

ghost use Rattle.std.specs.Prelude.{◌≡◌, true};
ghost use Rattle.pmf_image.specs.Certificate.{Fits};

use super::*;
use pmf_event::{Event, Events, LINE_SIZE, SPAN_LIMIT, Span, SpanFault, line_of};
use pmf_fixtures::{FENCE, FLUSH, Numbers, OTHER, STORE, Step, events_of, section_with};
use pmf_image::{Certificate, cut, last_store, shows};
use std::test::Fail;

const NEXT: Step = Step::Store(0x1008, 8);

const BOTH: Step = Step::Store(0x103c, 8);

const FULL: Option<u64> = Some(0x1000);

// Byte 0x1000 after a crash at the place, last stored to by the same place.
const fn at(crash: u32, full_line: Option<u64>) -> Asked {
    of(0x1000, crash, full_line, crash)
}

const fn of(byte: u64, crash: u32, full_line: Option<u64>, place: u32) -> Asked {
    Asked {
        certificate: Certificate { crash, full_line },
        place,
        byte,
    }
}

const fn shown(cut: u32, shows: u32, last: u32) -> Shown {
    Shown { cut, shows, last }
}

#[test]
fn what_is_asked_for_is_shown_as_in_the_table(rt: HostRuntime) -> Result<(), Fail> {
    let table: &[(&[Step], &[(Asked, Shown)])] = &[
        (
            &[],
            &[(at(0, None), shown(0, 0, 0)), (at(0, FULL), shown(0, 0, 0))],
        ),
        (
            &[STORE, FLUSH, FENCE],
            &[
                (at(3, None), shown(1, 1, 1)),
                (at(2, None), shown(0, 0, 1)),
                (at(2, FULL), shown(1, 1, 1)),
                (at(0, FULL), shown(0, 0, 0)),
            ],
        ),
        // What is stored between the write-back and the fence isn't durable.
        (
            &[STORE, FLUSH, STORE, FENCE, STORE],
            &[
                (at(5, None), shown(1, 1, 5)),
                (at(5, FULL), shown(3, 5, 5)),
                (at(4, FULL), shown(2, 3, 3)),
                (of(0x1000, 4, None, 5), shown(1, 1, 5)),
                (of(0x1000, 5, None, 2), shown(1, 1, 1)),
            ],
        ),
        // A second write-back counts only where a fence follows it.
        (
            &[STORE, FLUSH, FENCE, STORE, FLUSH],
            &[(at(5, None), shown(1, 1, 4)), (at(3, None), shown(1, 1, 1))],
        ),
        // Of the bytes of one line each has its own last store, and all have one cut.
        (
            &[STORE, NEXT, BOTH, FLUSH, FENCE],
            &[
                (at(5, None), shown(3, 1, 1)),
                (of(0x1008, 5, None, 5), shown(3, 2, 2)),
                (of(0x103f, 5, None, 5), shown(3, 3, 3)),
                (of(0x1040, 5, None, 5), shown(0, 0, 3)),
                (of(0x1040, 5, Some(0x1040), 5), shown(1, 3, 3)),
                (of(0x1020, 5, None, 5), shown(3, 0, 0)),
            ],
        ),
        // Another line is full.
        (
            &[STORE, OTHER],
            &[
                (of(0x2000, 2, FULL, 2), shown(0, 0, 2)),
                (of(0x1000, 2, FULL, 1), shown(1, 1, 1)),
                (of(0x3000, 2, FULL, 2), shown(0, 0, 0)),
            ],
        ),
        // Places behind the last event are as good as the last.
        (
            &[STORE, FLUSH, FENCE],
            &[
                (at(4, None), shown(1, 1, 1)),
                (of(0x1000, u32::MAX, FULL, u32::MAX), shown(1, 1, 1)),
            ],
        ),
    ];
    for (steps, rows) in table {
        let section = section_with(rt.alloc(), &events_of(rt.alloc(), steps)?)?;
        let mut asked = Vec::new(rt.alloc());
        for (one, _) in *rows {
            asked.push(*one)?;
        }
        let shown = show_all(rt.alloc(), section.events(), &asked)?;
        assert_eq!(rt; shown.len(), rows.len());
        for (index, (one, want)) in rows.iter().enumerate() {
            assert_eq!(rt; shown[index], *want, "{one:?} of {steps:?}");
        }
    }
    Ok(())
}

#[test]
fn with_nothing_asked_for_nothing_is_shown(rt: HostRuntime) -> Result<(), Fail> {
    let section = section_with(rt.alloc(), &events_of(rt.alloc(), &[STORE, FLUSH, FENCE])?)?;
    let shown = show_all(rt.alloc(), section.events(), &[])?;
    assert!(rt; shown.is_empty());
    Ok(())
}

// All stores lie in the first bytes of memory, on four cache lines.
const BYTES: u64 = 4 * LINE_SIZE;

fn span(numbers: &mut Numbers) -> Result<Span, SpanFault> {
    let size = match numbers.below(4) {
        0 => 1 + numbers.below(BYTES),
        _ => 1 + numbers.below(12),
    };
    Span::make(numbers.below(BYTES), size)
}

fn event(numbers: &mut Numbers) -> Result<Event, SpanFault> {
    let span = span(numbers)?;
    Ok(match numbers.below(10) {
        0..=4 => Event::Store(span),
        5..=6 => Event::Flush(span),
        7..=8 => Event::Fence,
        _ => Event::Persist(span),
    })
}

fn random_asked(numbers: &mut Numbers, events: u64) -> Asked {
    let byte = numbers.below(BYTES + LINE_SIZE);
    let full_line = match numbers.below(4) {
        0 => Some(line_of(byte)),
        1 => Some(line_of(numbers.below(BYTES))),
        _ => None,
    };
    let crash = random_place(numbers, events);
    of(byte, crash, full_line, random_place(numbers, events))
}

// A place up to that of the last one of so many events, which are 60 at most.
fn random_place(numbers: &mut Numbers, events: u64) -> u32 {
    numbers.below(events.saturating_add(1)).min(60) as u32
}

// Whether the certificate speaks of these events.
fn fits(events: &Events, certificate: Certificate) -> bool
    ensures { result ≡ true → Fits events.now certificate }
{
    let is_line = match certificate.full_line {
        Some(line) => line % LINE_SIZE == 0,
        None => true,
    };
    is_line && certificate.crash as usize <= events.len()
}

#[test]
fn each_is_shown_as_a_pass_for_it_alone_shows_it(rt: HostRuntime) -> Result<(), Fail> {
    let mut numbers = Numbers::of(29);
    for _section in 0..400 {
        let mut section = section_with(rt.alloc(), &[])?;
        for _event in 0..numbers.below(60) {
            section.push(event(&mut numbers)?)?;
        }
        let events = section.events();
        let mut asked = Vec::new(rt.alloc());
        for _one in 0..numbers.below(40) {
            asked.push(random_asked(&mut numbers, events.len() as u64))?;
        }
        let shown = show_all(rt.alloc(), events, &asked)?;
        assert_eq!(rt; shown.len(), asked.len());
        for (one, is) in asked.iter().zip(shown.iter()) {
            assert!(rt; fits(events, one.certificate), "{one:?}");
            assert!(rt; one.place as usize <= events.len(), "{one:?}");
            let want = Shown {
                cut: cut(events, one.certificate, line_of(one.byte)),
                shows: shows(events, one.certificate, one.byte),
                last: last_store(events, one.place, one.byte),
            };
            assert_eq!(rt; *is, want, "{one:?} of {events:?}");
        }
    }
    Ok(())
}

// How many bytes are asked for, and how many wide stores there are.
const MANY: u64 = 1 << 14;

#[test]
fn wide_stores_over_many_lines_that_are_asked_for(rt: HostRuntime) -> Result<(), Fail> {
    let mut section = section_with(rt.alloc(), &[])?;
    let mut asked = Vec::new(rt.alloc());
    for index in 0..MANY {
        let line = (index * 7 % MANY) * LINE_SIZE;
        section.push(Event::Store(Span::make(line, SPAN_LIMIT - line)?))?;
        asked.push(of(line, MANY as u32, Some(line), index as u32))?;
    }
    let shown = show_all(rt.alloc(), section.events(), &asked)?;
    // Each line has the stores that begin at it or in front of it.
    for (index, one) in shown.iter().enumerate() {
        let line = index as u64 * 7 % MANY;
        assert_eq!(rt; u64::from(one.cut), line + 1, "{index}");
    }
    Ok(())
}
