//! Requests for memory that are refused. With ample memory this test only follows a world; under
//! `tests/refuse-memory` each request is refused in turn.

ghost use Rattle.std.specs.Prelude.{◌≡◌, length, IfOk};

use super::{fresh, section_of, task};
use crate::{World, WorldAnswer, WorldFault, WorldStep};
use pmf_event::Profile;
use pmf_fixtures::{FENCE, FLUSH, STORE, Step};
use std::alloc::{AllocError, Global};
use std::process::Abort;
use std::test::Fail;

// A world of section 0.1, which persists, and 0.2, which doesn't, with two workers and two ledgers.
fn world_of_two(alloc: Global) -> Result<World, Fail>
    ensures { IfOk result (λ world. length world.sections ≡ 2) }
{
    let persisted = [STORE, FLUSH, FENCE, Step::Persist(0x1000, 8)];
    let sections = [
        section_of(alloc, 1, &persisted)?,
        section_of(alloc, 2, &[STORE, Step::Persist(0x1000, 8)])?,
    ];
    Ok(World::new(alloc, &sections, 2, 2, Profile::One)?)
}

// What can be seen of a world of two sections, two ledgers, and at most two messages.
#[derive(Clone, Copy, Debug, PartialEq, Eq)]
struct Seen {
    handouts: (u32, u32),
    done: (bool, bool),
    sent: (bool, bool),
    ledgers: (Option<usize>, Option<usize>),
}

fn see(world: &World) -> Seen
    requires { length world.now.sections ≡ 2 }
{
    let first = world.ledger(0).map(|ledger| ledger.len());
    let second = world.ledger(1).map(|ledger| ledger.len());
    Seen {
        handouts: (world.handouts(0), world.handouts(1)),
        done: (world.done(0), world.done(1)),
        sent: (world.sent(0).is_some(), world.sent(1).is_some()),
        ledgers: (first, second),
    }
}

fn arrive(message: u32, ledger: u32) -> WorldStep {
    WorldStep::Arrive { message, ledger }
}

// The step tells this, at once or after a refusal that left the world as it was. Answers whether there was one.
fn assert_told(rt: &impl Abort, world: &mut World, step: WorldStep, want: WorldAnswer) -> bool
    requires { length world.old.sections ≡ 2 }
    ensures { world.new.sections ≡ world.old.sections }
{
    let before = see(world);
    let told = world.step(step);
    if told != Err(WorldFault::OutOfMemory) {
        assert_eq!(rt; told, Ok(want), "{step:?}");
        return false;
    }
    assert_eq!(rt; see(world), before, "{step:?}");
    assert_eq!(rt; world.step(step), Ok(want), "{step:?}");
    true
}

// The same of all the steps of a table.
fn assert_all_told(rt: &impl Abort, world: &mut World, table: &[(WorldStep, WorldAnswer)]) -> bool
    requires { length world.old.sections ≡ 2 }
    ensures { world.new.sections ≡ world.old.sections }
{
    let mut refused = false;
    for (step, want) in table {
        if assert_told(rt, world, *step, *want) {
            refused = true;
        }
    }
    refused
}

#[test]
fn a_step_without_memory_leaves_the_world_as_it_was(rt: HostRuntime) -> Result<(), Fail> {
    let mut world = world_of_two(rt.alloc())?;
    let steps = [
        (fresh(0, 0), task(0)),
        (WorldStep::Check { worker: 0 }, WorldAnswer::Checked),
        (
            WorldStep::Send { worker: 0 },
            WorldAnswer::Sent { message: 0 },
        ),
        (fresh(1, 1), task(1)),
        (WorldStep::Check { worker: 1 }, WorldAnswer::Checked),
        (
            WorldStep::Send { worker: 1 },
            WorldAnswer::Sent { message: 1 },
        ),
        (arrive(0, 0), WorldAnswer::Added),
        (arrive(0, 0), WorldAnswer::Repeat),
        (arrive(1, 1), WorldAnswer::Added),
        (WorldStep::Join { into: 0, from: 1 }, WorldAnswer::Joined),
        (WorldStep::Join { into: 1, from: 0 }, WorldAnswer::Joined),
        (WorldStep::Join { into: 1, from: 1 }, WorldAnswer::Joined),
    ];
    let refused = assert_all_told(&rt, &mut world, &steps);
    assert_eq!(rt; see(&world).ledgers, (Some(2), Some(2)));
    if refused {
        return Err(AllocError.into());
    }
    Ok(())
}
