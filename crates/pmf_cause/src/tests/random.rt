//! Random short sections with events of every kind, and a plain search.

use super::{plain, verdict_of};
use crate::causes;
use pmf_event::{Event, Profile, Span, SpanFault};
use pmf_fixtures::Numbers;
use std::test::Fail;

/// All stores lie in the first bytes of memory, on three cache lines.
const BYTES: u64 = 160;

fn span(numbers: &mut Numbers) -> Result<Span, SpanFault> {
    let size = 1 + numbers.below(12);
    let first = match numbers.below(3) {
        0 => numbers.below(8),
        1 => 56 + numbers.below(12),
        _ => numbers.below(BYTES - 12),
    };
    Span::make(first, size)
}

fn event_of(kind: u64, a: Span, b: Span) -> Event {
    match kind {
        0..=3 => Event::Store(a),
        4..=6 => Event::Flush(a),
        7 | 8 => Event::Fence,
        9 | 10 => Event::Persist(a),
        11 | 12 => Event::Ordered(a, b),
        13 => Event::Exclude(a),
        14 | 15 => Event::TxBegin,
        16 | 17 => Event::TxAdd(a),
        18 => Event::TxEnd,
        19 | 20 => Event::CheckStart,
        _ => Event::CheckEnd,
    }
}

#[test]
fn each_cause_is_that_of_a_plain_search(rt: HostRuntime) -> Result<(), Fail> {
    let mut numbers = Numbers::of(11);
    for _section in 0..300 {
        let mut events = Vec::new(rt.alloc());
        for _event in 0..numbers.below(40) {
            let (a, b) = (span(&mut numbers)?, span(&mut numbers)?);
            events.push(event_of(numbers.below(22), a, b))?;
        }
        for profile in [Profile::One, Profile::Two] {
            let verdict = verdict_of(rt.alloc(), events.as_slice(), profile)?;
            let causes = causes(rt.alloc(), &verdict)?;
            assert_eq!(rt; causes.len(), verdict.rows().len());
            for (row, cause) in verdict.rows().iter().zip(causes.iter()) {
                let want = plain::cause_of(events.as_slice(), *row);
                assert_eq!(rt; *cause, want, "{row:?} of {events:?}");
            }
        }
    }
    Ok(())
}
