//! Verdicts and their rows.

use super::*;
use pmf_event::{Event, Name, Profile, Section};
use pmf_fixtures::{FENCE, FLUSH, STORE, Step, events_of};
use std::alloc::Global;
use std::sync::Arc;
use std::test::Fail;

mod explaining;
mod images;
mod random;

const NAME: Name = Name { run: 7, number: 3 };

// The section of the events.
fn section_of(alloc: Global, events: &[Event]) -> Result<Arc<Section>, Fail> {
    let mut section = Section::new(alloc, NAME);
    for event in events {
        section.push(*event)?;
    }
    Ok(Arc::new(alloc, section)?)
}

fn verdict_of(alloc: Global, events: &[Event], profile: Profile) -> Result<Verdict, Fail> {
    match check(alloc, section_of(alloc, events)?, profile) {
        Ok(verdict) => Ok(verdict),
        Err((fault, _)) => Err(fault.into()),
    }
}

// Two stores of one line: the first is written back and fenced, the second fenced alone; a byte that no store has
// covered; and a write-back that meets a line that is pending, and two with nothing to write back.
const STEPS: &[Step] = &[
    STORE,
    FLUSH,
    Step::Store(0x1008, 8),
    FENCE,
    Step::Persist(0x1000, 8),
    Step::Persist(0x1008, 8),
    Step::Persist(0x2000, 8),
    FLUSH,
    Step::Flush(0x1000, 0xc0),
];

const ROWS: &str = "\
5 PERSIST PASS
6 PERSIST FAIL byte=0x1008 crash=6
7 PERSIST EMPTY
9 FLUSH DOUBLED line=0x1000 lines=1
9 FLUSH NEEDLESS line=0x1040 lines=2
";

const LAST_ROWS: &str = "\
9 FLUSH DOUBLED line=0x1000 lines=1
9 FLUSH NEEDLESS line=0x1040 lines=2
";

#[test]
fn a_verdict_tells_its_section_and_the_rows_of_its_events(rt: HostRuntime) -> Result<(), Fail> {
    let events = events_of(rt.alloc(), STEPS)?;
    let section = section_of(rt.alloc(), events.as_slice())?;
    let verdict = verdict_of(rt.alloc(), events.as_slice(), Profile::Two)?;
    assert_eq!(rt; verdict.name(), NAME);
    assert_eq!(rt; verdict.profile(), Profile::Two);
    assert!(rt; verdict.section().same_as(&section));
    let text = write_rows(rt.alloc(), &verdict)?;
    assert!(rt; text.as_slice() == ROWS.as_bytes());
    for (place, want) in [(0, ""), (5, "5 PERSIST PASS\n"), (9, LAST_ROWS), (10, "")] {
        let text = write_rows_at(rt.alloc(), &verdict, place)?;
        assert!(rt; text.as_slice() == want.as_bytes(), "at place {place}");
    }
    let copy = verdict.copy(rt.alloc())?;
    assert!(rt; copy.same_section(&verdict));
    assert_eq!(rt; copy.profile(), Profile::Two);
    assert!(rt; copy.rows() == verdict.rows());
    let other = verdict_of(rt.alloc(), &[Event::Fence], Profile::Two)?;
    assert!(rt; !other.same_section(&verdict));
    Ok(())
}

#[test]
fn want_of_memory_is_shown_by_its_text(rt: HostRuntime) -> Result<(), Fail> {
    let text = format!(in rt.alloc(); "{}", CheckFault::OutOfMemory)?;
    assert_eq!(rt; text.as_str(), "out of memory");
    Ok(())
}
