//! Causes of rows.

use super::*;
use pmf_event::{Event, Name, Profile, Section, Span};
use pmf_fixtures::{FENCE, FLUSH, OTHER, STORE, Step, events_of};
use pmf_verdict::{Verdict, check};
use std::alloc::Global;
use std::sync::Arc;
use std::test::Fail;

mod cures;
mod plain;
mod random;

const NAME: Name = Name { run: 7, number: 3 };

fn verdict_of(alloc: Global, events: &[Event], profile: Profile) -> Result<Verdict, Fail> {
    let mut section = Section::new(alloc, NAME);
    for event in events {
        section.push(*event)?;
    }
    match check(alloc, Arc::new(alloc, section)?, profile) {
        Ok(verdict) => Ok(verdict),
        Err((fault, _)) => Err(fault.into()),
    }
}

/// How many stores a large section has.
const STORES: u64 = 1 << 13;

const PERSIST: Step = Step::Persist(0x1000, 8);

const ORDERED: Step = Step::Ordered((0x1000, 8), (0x2000, 8));

const ADD: Step = Step::TxAdd(0x1000, 8);

// The cause of a byte 0x1000 by its last store and the place by which it had to be durable.
const fn lacks(last: u32, due: u32, lack: Lack) -> Option<Cause> {
    let need = Need {
        byte: 0x1000,
        last,
        due,
    };
    Some(Cause::NotDurable { need, lack })
}

#[test]
fn the_last_row_has_the_cause_of_the_table(rt: HostRuntime) -> Result<(), Fail> {
    let table: &[(&[Step], Option<Cause>)] = &[
        (&[STORE, FLUSH, FENCE, PERSIST], None),
        (&[PERSIST], None),
        (&[OTHER, STORE, ORDERED], lacks(2, 1, Lack::StoredBehind)),
        (
            &[Step::Store(0x1000, 0x1008), ORDERED],
            lacks(1, 1, Lack::OneStore),
        ),
        (
            &[FLUSH, STORE, FENCE, PERSIST],
            lacks(2, 4, Lack::NotWrittenBack),
        ),
        (
            &[STORE, OTHER, FLUSH, ORDERED],
            lacks(1, 2, Lack::WrittenBackLate { by: 3 }),
        ),
        (
            &[STORE, FENCE, FLUSH, FLUSH, PERSIST],
            lacks(1, 5, Lack::NotFenced { by: 3 }),
        ),
        (
            &[STORE, FLUSH, OTHER, FENCE, ORDERED],
            lacks(1, 3, Lack::FencedLate { by: 2, fence: 4 }),
        ),
        (
            &[
                Step::CheckStart,
                Step::TxBegin,
                STORE,
                Step::TxEnd,
                Step::CheckEnd,
            ],
            lacks(3, 5, Lack::NotWrittenBack),
        ),
        (
            &[STORE, FLUSH, FLUSH],
            Some(Cause::WrittenBackBefore { by: 2 }),
        ),
        (&[FLUSH], Some(Cause::WrittenBackBefore { by: 0 })),
        (
            &[
                Step::CheckStart,
                Step::TxBegin,
                ADD,
                ADD,
                Step::CheckEnd,
                Step::TxEnd,
            ],
            Some(Cause::TransactionRuns { begin: 2 }),
        ),
        (
            &[Step::TxBegin, Step::TxEnd, Step::TxEnd],
            Some(Cause::NoTransaction { ended: 2 }),
        ),
        (&[ADD], Some(Cause::NoTransaction { ended: 0 })),
        (
            &[
                Step::CheckStart,
                Step::CheckStart,
                Step::CheckEnd,
                Step::CheckEnd,
            ],
            Some(Cause::NoScope { ended: 3 }),
        ),
        (
            &[Step::CheckStart, Step::CheckStart],
            Some(Cause::ScopeOpen { start: 1 }),
        ),
    ];
    for (steps, want) in table {
        let events = events_of(rt.alloc(), steps)?;
        let verdict = verdict_of(rt.alloc(), events.as_slice(), Profile::One)?;
        let causes = causes(rt.alloc(), &verdict)?;
        assert_eq!(rt; causes.last().copied(), Some(*want), "{steps:?}");
    }
    Ok(())
}

#[test]
fn each_row_has_its_own_cause(rt: HostRuntime) -> Result<(), Fail> {
    let steps = [
        Step::CheckStart,
        Step::CheckStart,
        Step::TxBegin,
        STORE,
        ADD,
        ADD,
        PERSIST,
        FLUSH,
        FLUSH,
        PERSIST,
        FENCE,
        PERSIST,
    ];
    let events = events_of(rt.alloc(), &steps)?;
    let verdict = verdict_of(rt.alloc(), events.as_slice(), Profile::One)?;
    let causes = causes(rt.alloc(), &verdict)?;
    let want = [
        Some(Cause::ScopeOpen { start: 1 }),
        Some(Cause::NotBackedUp { begin: 3 }),
        Some(Cause::BackedUpBefore { by: 5 }),
        lacks(4, 7, Lack::WrittenBackLate { by: 8 }),
        Some(Cause::WrittenBackBefore { by: 8 }),
        lacks(4, 10, Lack::FencedLate { by: 8, fence: 11 }),
        None,
        Some(Cause::ScopeOpen { start: 1 }),
    ];
    assert!(rt; causes.as_slice() == want.as_slice(), "{causes:?}");
    Ok(())
}

// Stores to lines of their own, each of which fails at once, and at the end one write-back of all of them.
#[test]
fn a_large_section_has_as_many_causes_as_rows(rt: HostRuntime) -> Result<(), Fail> {
    let mut events = Vec::new(rt.alloc());
    for number in 0..STORES {
        let span = Span::make(number * 64, 8)?;
        events.push(Event::Store(span))?;
        events.push(Event::Persist(span))?;
    }
    events.push(Event::Flush(Span::make(0, STORES * 64)?))?;
    let verdict = verdict_of(rt.alloc(), events.as_slice(), Profile::One)?;
    let causes = causes(rt.alloc(), &verdict)?;
    assert_eq!(rt; causes.len() as u64, STORES);
    for (number, cause) in causes.iter().enumerate() {
        let need = Need {
            byte: number as u64 * 64,
            last: number as u32 * 2 + 1,
            due: number as u32 * 2 + 2,
        };
        let by = STORES as u32 * 2 + 1;
        let lack = Lack::WrittenBackLate { by };
        assert_eq!(rt; *cause, Some(Cause::NotDurable { need, lack }));
    }
    Ok(())
}
