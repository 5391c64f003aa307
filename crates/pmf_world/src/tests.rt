//! What worlds answer, step by step.

use super::{WorldAnswer, WorldStep};
use pmf_event::{Name, Section};
use pmf_fixtures::Step;
use std::alloc::Global;
use std::sync::Arc;
use std::test::Fail;

mod memory;
mod refusals;
mod simulating;

// The section of run 0 with this number and these steps.
fn section_of(alloc: Global, number: u64, steps: &[Step]) -> Result<Arc<Section>, Fail> {
    let mut section = Section::new(alloc, Name { run: 0, number });
    for step in steps {
        section.push(step.event()?)?;
    }
    Ok(Arc::new(alloc, section)?)
}

fn fresh(worker: u32, section: u32) -> WorldStep {
    WorldStep::Fresh { worker, section }
}

// The section's first hand-out.
fn task(section: u32) -> WorldAnswer {
    WorldAnswer::Task { section, number: 1 }
}
