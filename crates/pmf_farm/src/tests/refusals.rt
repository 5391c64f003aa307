//! What a farm refuses, and the order of its refusals.

use super::{fences, name};
use crate::{FarmFault, MOST_WORKERS, OpenGate, run};
use pmf_event::{Name, Profile, Section};
use std::alloc::Global;
use std::sync::Arc;
use std::test::Fail;

// So many times section 0.1.
fn of_one(alloc: Global, count: usize) -> Result<Vec<Arc<Section>>, Fail> {
    let section = fences(alloc, name(0, 1), 1)?;
    let mut sections = Vec::with_capacity(alloc, count)?;
    for _ in 0..count {
        sections.push(Arc::try_clone(&section)?)?;
    }
    Ok(sections)
}

fn twice(name: Name) -> FarmFault {
    FarmFault::TwiceNamed { name }
}

// All but the first two of these refusals hide another that would apply too.
#[test]
fn workers_are_counted_before_sections_and_these_before_names(rt: HostRuntime) -> Result<(), Fail> {
    let alloc = rt.alloc();
    assert_eq!(rt; MOST_WORKERS, 64);
    for (count, workers, want) in [
        (0, 0, FarmFault::NoWorkers),
        (1, u32::MAX, FarmFault::TooManyWorkers),
        (65_537, 0, FarmFault::NoWorkers),
        (65_537, 65, FarmFault::TooManyWorkers),
        (65_537, 64, FarmFault::TooManySections),
        (65_536, 1, twice(name(0, 1))),
    ] {
        let sections = of_one(alloc, count)?;
        let ran = run(
            &rt,
            alloc,
            sections.as_slice(),
            None,
            workers,
            Profile::One,
            &OpenGate,
        );
        assert_eq!(rt; ran.err(), Some(want));
    }
    Ok(())
}

#[test]
fn a_refusal_has_its_text(rt: HostRuntime) -> Result<(), Fail> {
    for (fault, want) in [
        (FarmFault::NoWorkers, "workers must be 1 to 64"),
        (FarmFault::TooManyWorkers, "workers must be 1 to 64"),
        (FarmFault::TooManySections, "too many sections"),
        (twice(name(12, 70)), "section 12.70: handed in twice"),
        (FarmFault::OutOfMemory, "out of memory"),
    ] {
        let text = format!(in rt.alloc(); "{fault}")?;
        assert_eq!(rt; text.as_str(), want);
    }
    Ok(())
}
