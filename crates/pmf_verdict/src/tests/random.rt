//! Random short sections with events of every kind, checked and looked up plainly.

use super::verdict_of;
use pmf_event::{Event, Profile, Span, SpanFault};
use pmf_fixtures::{Numbers, plain};
use std::test::Fail;

/// All stores lie in the first bytes of memory, on three cache lines.
const BYTES: u64 = 160;

fn span(numbers: &mut Numbers) -> Result<Span, SpanFault> {
    let size = 1 + numbers.below(12);
    let first = match numbers.below(3) {
        0 => numbers.below(8),
        1 => 56 + numbers.below(12),
        _ => numbers.below(BYTES - 12),
    };
    Span::make(first, size)
}

/// An event of these spans, of one of 22 kinds.
pub(super) fn event_of(kind: u64, a: Span, b: Span) -> Event {
    match kind {
        0..=3 => Event::Store(a),
        4 | 5 => Event::Flush(a),
        6 | 7 => Event::Fence,
        8 | 9 => Event::Persist(a),
        10 | 11 => Event::Ordered(a, b),
        12 => Event::Exclude(a),
        13 => Event::Include(a),
        14 | 15 => Event::TxBegin,
        16 | 17 => Event::TxAdd(a),
        18 => Event::TxEnd,
        19 | 20 => Event::CheckStart,
        _ => Event::CheckEnd,
    }
}

#[test]
fn a_section_has_the_rows_of_a_plain_checker(rt: HostRuntime) -> Result<(), Fail> {
    let mut numbers = Numbers::of(5);
    for _section in 0..1000 {
        let mut events = Vec::new(rt.alloc());
        for _event in 0..numbers.below(24) {
            let (a, b) = (span(&mut numbers)?, span(&mut numbers)?);
            events.push(event_of(numbers.below(22), a, b))?;
        }
        for profile in [Profile::One, Profile::Two] {
            let verdict = verdict_of(rt.alloc(), events.as_slice(), profile)?;
            let rows = plain::rows_of(rt.alloc(), events.as_slice(), profile)?;
            assert!(rt; verdict.rows() == rows.as_slice(), "{events:?}");
        }
    }
    Ok(())
}
