//! The text lines of a simulation: one for each step, and a report for each ledger.

ghost use Rattle.std.specs.Prelude.{◌≡◌, ◌++◌, ◌∷◌, [], codes, OnOk, string_bytes};
ghost use Rattle.pmf_world.specs.Lines.{text_of_answer, text_of_fault, text_of_ledgers, text_of_outcome, text_of_step};

use crate::step::{WorldAnswer, WorldFault};
use pmf_ledger::Ledger;
use std::alloc::{AllocError, Global};

/// Writes the text line of the step of this number, counted from 1: what it was answered, or `refused` and why.
/// Takes memory for the text alone.
#[tactic(auto, unfolding(crate::specs::Lines::text_of_step))]
pub(crate) fn push_step(
    text: &mut String,
    number: u32,
    outcome: Result<WorldAnswer, WorldFault>,
) -> Result<(), AllocError>
    ensures { OnOk result
        (string_bytes text.new ≡ string_bytes text.old ++ text_of_step number outcome) }
{
    write!(text, "{number} ")?;
    push_outcome(text, outcome)?;
    text.push_str("\n")
}

fn push_outcome(
    text: &mut String,
    outcome: Result<WorldAnswer, WorldFault>,
) -> Result<(), AllocError>
    ensures { OnOk result
        (string_bytes text.new ≡ string_bytes text.old ++ text_of_outcome outcome) }
{
    match outcome {
        Ok(answer) => push_answer(text, answer),
        Err(fault) => push_fault(text, fault),
    }
}

#[tactic(auto, unfolding(crate::specs::Lines::text_of_answer))]
fn push_answer(text: &mut String, answer: WorldAnswer) -> Result<(), AllocError>
    ensures { OnOk result
        (string_bytes text.new ≡ string_bytes text.old ++ text_of_answer answer) }
{
    match answer {
        WorldAnswer::Task { section, number } => {
            write!(text, "task section={section} number={number}")
        }
        WorldAnswer::NoTask => text.push_str("none"),
        WorldAnswer::Checked => text.push_str("checked"),
        WorldAnswer::Sent { message } => write!(text, "sent message={message}"),
        WorldAnswer::Marked => text.push_str("marked"),
        WorldAnswer::WorkerLost => text.push_str("lost"),
        WorldAnswer::Added => text.push_str("added"),
        WorldAnswer::Repeat => text.push_str("repeat"),
        WorldAnswer::Joined => text.push_str("joined"),
    }
}

fn push_fault(text: &mut String, fault: WorldFault) -> Result<(), AllocError>
    ensures { OnOk result
        (string_bytes text.new ≡ string_bytes text.old ++ codes "refused " ++ text_of_fault fault) }
{
    text.push_str("refused ")?;
    text.push_str(name_of(fault))
}

#[tactic(auto, unfolding(crate::specs::Lines::text_of_fault))]
fn name_of(fault: WorldFault) -> &'static str
    ensures { result.now ≡ text_of_fault fault }
{
    match fault {
        WorldFault::NoSuchWorker => "NoSuchWorker",
        WorldFault::NoSuchSection => "NoSuchSection",
        WorldFault::NoSuchMessage => "NoSuchMessage",
        WorldFault::NoSuchLedger => "NoSuchLedger",
        WorldFault::Gone => "Gone",
        WorldFault::Misplaced => "Misplaced",
        WorldFault::OutOfMemory => "OutOfMemory",
    }
}

/// Writes the text line of the ledger of this number, and its report. Takes memory for both.
#[tactic(auto, unfolding(crate::specs::Lines::text_of_ledgers))]
pub(crate) fn push_ledger(
    alloc: Global,
    text: &mut Vec<u8>,
    number: u32,
    ledger: &Ledger,
) -> Result<(), AllocError>
    ensures { OnOk result
        (text.new.items ≡ text.old.items ++ text_of_ledgers number (ledger.now ∷ [])) }
{
    let head = format!(in alloc; "ledger {number}\n")?;
    let report = ledger.write_report(alloc)?;
    text.extend_from_slice(head.as_bytes())?;
    text.extend_from_slice(&report)?;
    Ok(())
}
