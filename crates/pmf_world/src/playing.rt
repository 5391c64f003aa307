//! The steps of a schedule, played in a world, and the reports of its ledgers.

ghost use Rattle.std.specs.Prelude.{◌≡◌, ◌<◌, ◌^◌, ◌++◌, length, take, IfOk, OnOk, string_bytes};
ghost use Rattle.pmf_world.specs.{Lines.{text_of_ledgers}, Playing.{PlaysAll, PlaysStep}};

use crate::lines::{push_ledger, push_step};
use crate::step::{WorldFault, WorldStep};
use crate::world::World;
use std::alloc::{AllocError, Global};

/// Plays the steps in the world, and writes a text line of each. A refused step is written like any other, but for want of
/// memory, which ends the play. Takes memory as the steps do, and for the text.
pub(crate) fn play_all(
    alloc: Global,
    world: &mut World,
    steps: &[WorldStep],
) -> Result<String, AllocError>
    requires { length steps.now < 2 ^ 32 }
    ensures { IfOk result (λ text. PlaysAll world.old steps.now world.new (string_bytes text)) }
{
    let mut text = String::new(alloc);
    for (index, &step) in steps.iter().enumerate() {
        play_step(world, &mut text, index as u32 + 1, step)?;
    }
    Ok(text)
}

// Plays the step of this number, counted from 1, and writes its text line.
fn play_step(
    world: &mut World,
    text: &mut String,
    number: u32,
    step: WorldStep,
) -> Result<(), AllocError>
    ensures { OnOk result
        (PlaysStep world.old (string_bytes text.old) number step world.new (string_bytes text.new)) }
{
    match world.step(step) {
        Ok(answer) => push_step(text, number, Ok(answer)),
        Err(fault) => match fault {
            WorldFault::OutOfMemory => Err(AllocError),
            _ => push_step(text, number, Err(fault)),
        },
    }
}

/// Writes the reports of the first so many ledgers, or of all where there are fewer. Takes memory for the text.
pub(crate) fn push_ledgers(
    alloc: Global,
    text: &mut Vec<u8>,
    world: &World,
    count: u32,
) -> Result<(), AllocError>
    ensures { OnOk result
        (text.new.items ≡ text.old.items ++ text_of_ledgers 0 (take count world.now.ledgers)) }
{
    for number in 0..count {
        if let Some(ledger) = world.ledger(number) {
            push_ledger(alloc, text, number, ledger)?;
        }
    }
    Ok(())
}
