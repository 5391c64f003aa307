//! How many sections, workers and ledgers a world can have, and what is told of a refused step.

use super::{fresh, section_of, task};
use crate::{MOST_LEDGERS, World, WorldAnswer, WorldFault, WorldNewFault, WorldStep};
use pmf_event::{Name, Profile, Section};
use std::alloc::Global;
use std::sync::Arc;
use std::test::Fail;

#[test]
fn one_worker_does_as_many_sections_as_a_world_can_have(rt: HostRuntime) -> Result<(), Fail> {
    let mut sections = Vec::new(rt.alloc());
    for number in 0..65_536 {
        sections.push(section_of(rt.alloc(), number, &[])?)?;
    }
    let mut world = World::new(rt.alloc(), sections.as_slice(), 1, 1, Profile::One)?;
    for section in 0..65_536 {
        for (step, want) in [
            (fresh(0, section), task(section)),
            (WorldStep::Check { worker: 0 }, WorldAnswer::Checked),
            (
                WorldStep::Send { worker: 0 },
                WorldAnswer::Sent { message: section },
            ),
            (WorldStep::Mark { worker: 0 }, WorldAnswer::Marked),
        ] {
            assert_eq!(rt; world.step(step), Ok(want), "section {section}");
        }
    }
    Ok(())
}

// So many times one section, 0.1.
fn of_one(alloc: Global, count: usize) -> Result<Vec<Arc<Section>>, Fail> {
    let section = section_of(alloc, 1, &[])?;
    let mut sections = Vec::with_capacity(alloc, count)?;
    for _ in 0..count {
        sections.push(Arc::try_clone(&section)?)?;
    }
    Ok(sections)
}

// Each of these refusals but the last hides one that would apply too.
#[test]
fn workers_are_looked_at_before_sections_then_names_then_ledgers(
    rt: HostRuntime,
) -> Result<(), Fail> {
    assert_eq!(rt; MOST_LEDGERS, 64);
    let name = Name { run: 0, number: 1 };
    for (count, workers, ledgers, want) in [
        (0, 64, 64, None),
        (1, 1, 0, None),
        (65_537, 0, 65, Some(WorldNewFault::NoWorkers)),
        (65_537, 65, 65, Some(WorldNewFault::TooManyWorkers)),
        (65_537, 64, 65, Some(WorldNewFault::TooManySections)),
        (65_536, 64, 65, Some(WorldNewFault::TwiceNamed { name })),
        (1, 1, 65, Some(WorldNewFault::TooManyLedgers)),
    ] {
        let sections = of_one(rt.alloc(), count)?;
        let told = World::new(
            rt.alloc(),
            sections.as_slice(),
            workers,
            ledgers,
            Profile::One,
        );
        assert_eq!(rt;
            told.err(),
            want,
            "{count} sections, {workers} workers, {ledgers} ledgers"
        );
    }
    Ok(())
}

#[test]
fn a_refused_step_has_its_text(rt: HostRuntime) -> Result<(), Fail> {
    for (fault, want) in [
        (WorldFault::NoSuchWorker, "no such worker"),
        (WorldFault::NoSuchSection, "no such section"),
        (WorldFault::NoSuchMessage, "no such message"),
        (WorldFault::NoSuchLedger, "no such ledger"),
        (WorldFault::Gone, "the worker is gone"),
        (WorldFault::Misplaced, "the worker is doing something else"),
        (WorldFault::OutOfMemory, "out of memory"),
    ] {
        let text = format!(in rt.alloc(); "{fault}")?;
        assert_eq!(rt; text.as_str(), want);
    }
    Ok(())
}
