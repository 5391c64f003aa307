//! The steps that the text of a schedule tells.

ghost use Rattle.std.specs.Prelude.{◌≡◌, ◌≤◌, length, Ok, MatchResult};
ghost use Rattle.pmf_world.specs.{Schedule.{number_of, schedule_of, step_of_line, step_of_one, step_of_two}, declared.simulating.TheConstants.{SCHEDULE_LIMIT}, Scheduling.{IsBadSchedule}};

use crate::step::WorldStep;
use pmf_storelog::read_number_in_front;
use std::alloc::{AllocFailed, Global};

/// Why a schedule was not read.
#[derive(Clone, Copy, Debug, PartialEq, Eq)]
pub(crate) enum ScheduleFault {
    /// This text line, the first such, is neither empty nor a step.
    BadLine {
        /// Its number, counted from 1.
        line: u32,
    },
    /// Room for the steps was refused.
    OutOfMemory,
}

impl<T: Drop> From<AllocFailed<T>> for ScheduleFault {
    ghost use Rattle.pmf_world.specs.declared.schedule.ScheduleFault.TheVariants.{OutOfMemory};

    ghost from_gives = { λ _ fault. fault ≡ OutOfMemory };

    fn from(_refused: AllocFailed<T>) -> ScheduleFault {
        ScheduleFault::OutOfMemory
    }
}

/// The steps that the text lines of a schedule tell, in their order. Takes memory for the steps alone.
#[tactic(auto, using(std::proofs::lemmas::Grind::common_steps, crate::proofs::lemmas::ScheduleLemmas::IsAt_start))]
pub(crate) fn read_schedule(alloc: Global, text: &[u8]) -> Result<Vec<WorldStep>, ScheduleFault>
    requires { length text.now ≤ SCHEDULE_LIMIT }
    ensures { MatchResult result (λ steps. schedule_of text.now ≡ Ok steps.items)
        (IsBadSchedule text.now) }
{
    let mut steps = Vec::new(alloc);
    let mut number = 1;
    for line in text.split(|&byte| byte == b'\n') {
        if !line.is_empty() {
            match read_step(line) {
                Some(step) => steps.push(step)?,
                None => return Err(ScheduleFault::BadLine { line: number }),
            }
        }
        number += 1;
    }
    Ok(steps)
}

// The step that a text line tells.
fn read_step(line: &[u8]) -> Option<WorldStep>
    ensures { result ≡ step_of_line line.now }
{
    let mut words = line.split(|&byte| byte == b' ');
    let word = words.next()?;
    let first = words.next()?;
    match words.next() {
        None => step_of_one(word, read_number(first)),
        Some(second) => match words.next() {
            None => step_of_two(word, read_number(first), read_number(second)),
            Some(_) => None,
        },
    }
}

#[tactic(auto, unfolding(crate::specs::Schedule::step_of_one))]
fn step_of_one(word: &[u8], number: Option<u32>) -> Option<WorldStep>
    ensures { result ≡ step_of_one word.now number }
{
    let worker = number?;
    if word == b"check".as_slice() {
        Some(WorldStep::Check { worker })
    } else if word == b"send".as_slice() {
        Some(WorldStep::Send { worker })
    } else if word == b"mark".as_slice() {
        Some(WorldStep::Mark { worker })
    } else if word == b"lose".as_slice() {
        Some(WorldStep::Lose { worker })
    } else {
        None
    }
}

#[tactic(auto, unfolding(crate::specs::Schedule::step_of_two))]
fn step_of_two(word: &[u8], first: Option<u32>, second: Option<u32>) -> Option<WorldStep>
    ensures { result ≡ step_of_two word.now first second }
{
    let first = first?;
    let second = second?;
    if word == b"fresh".as_slice() {
        Some(WorldStep::Fresh {
            worker: first,
            section: second,
        })
    } else if word == b"again".as_slice() {
        Some(WorldStep::Again {
            worker: first,
            section: second,
        })
    } else if word == b"arrive".as_slice() {
        Some(WorldStep::Arrive {
            message: first,
            ledger: second,
        })
    } else if word == b"join".as_slice() {
        Some(WorldStep::Join {
            into: first,
            from: second,
        })
    } else {
        None
    }
}

// The number below 2^32 that 1 to 10 decimal digits spell.
#[tactic(auto, using(std::proofs::lemmas::Grind::common_steps, crate::proofs::lemmas::NumberWordLemmas::number_of_long, crate::proofs::lemmas::NumberWordLemmas::number_of_none, crate::proofs::lemmas::NumberWordLemmas::number_of_some, std::proofs::lemmas::Bool::Decides::nat_tests, crate::proofs::lemmas::NumberWordLemmas::narrowed_cast, crate::proofs::lemmas::NumberWordLemmas::number_of_rest))]
fn read_number(word: &[u8]) -> Option<u32>
    ensures { result ≡ number_of word.now }
{
    if word.len() > 10 {
        return None;
    }
    let (number, rest) = read_number_in_front(word)?;
    if rest.is_empty() {
        u32::try_from(number).ok()
    } else {
        None
    }
}
