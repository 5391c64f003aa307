//! Certificates of the failures of worked sections.

use super::verdict_of;
use crate::explain;
use pmf_event::Profile;
use pmf_fixtures::{FENCE, FLUSH, STORE, Step, events_of};
use pmf_image::Certificate;
use std::test::Fail;

const PERSIST: Step = Step::Persist(0x1000, 8);

const IN_TIME: &[Step] = &[
    STORE,
    FLUSH,
    PERSIST,
    FENCE,
    PERSIST,
    Step::Persist(0x2000, 8),
];

// Ordered after both, before itself, and on one line.
const ORDERS: &[Step] = &[
    STORE,
    Step::Store(0x2008, 8),
    FLUSH,
    Step::Flush(0x2000, 0x40),
    FENCE,
    Step::Ordered((0x1000, 8), (0x2008, 8)),
    Step::Ordered((0x1000, 8), (0x1000, 8)),
    STORE,
    Step::Store(0x1008, 8),
    Step::Ordered((0x1000, 8), (0x1008, 8)),
];

// Stored again after the order was kept.
const AGAIN: &[Step] = &[
    STORE,
    FLUSH,
    FENCE,
    Step::Store(0x2000, 8),
    Step::Flush(0x2000, 0x40),
    FENCE,
    STORE,
    FLUSH,
    FENCE,
    Step::Ordered((0x1000, 8), (0x2000, 8)),
];

// The first scope ends outside of transactions, the second inside.
const SCOPES: &[Step] = &[
    Step::CheckStart,
    Step::TxBegin,
    Step::TxAdd(0x1000, 8),
    Step::Store(0x1000, 0x10),
    Step::TxEnd,
    Step::CheckEnd,
    Step::CheckStart,
    Step::TxBegin,
    Step::CheckEnd,
];

fn crash(place: u32, full_line: Option<u64>) -> Option<Certificate> {
    Some(Certificate {
        crash: place,
        full_line,
    })
}

#[test]
fn a_failure_has_its_certificate_by_both_profiles(rt: HostRuntime) -> Result<(), Fail> {
    for (steps, place, want) in [
        (IN_TIME, 0, None),
        (IN_TIME, 1, None),
        (IN_TIME, 3, crash(3, None)),
        (IN_TIME, 5, None),
        (IN_TIME, 6, None),
        (IN_TIME, 7, None),
        (ORDERS, 6, crash(2, Some(0x2000))),
        (ORDERS, 7, None),
        (ORDERS, 10, None),
        (AGAIN, 10, crash(4, Some(0x2000))),
        (SCOPES, 4, None),
        (SCOPES, 6, crash(6, None)),
        (SCOPES, 9, None),
    ] {
        let events = events_of(rt.alloc(), steps)?;
        for profile in [Profile::One, Profile::Two] {
            let verdict = verdict_of(rt.alloc(), events.as_slice(), profile)?;
            let found = explain(&verdict, place);
            assert_eq!(rt; found, want, "place {place} of {steps:?} by {profile:?}");
        }
    }
    Ok(())
}
