//! From a log and a schedule to the text of the simulation.

ghost use Rattle.std.specs.Prelude.{◌≡◌, ℕ, List, MatchResult};
ghost use Rattle.pmf_world.specs.Simulation.{IsSchedule, IsSimFault, IsSimulation};

use crate::fault::WorldNewFault;
use crate::playing::{play_all, push_ledgers};
use crate::schedule::{ScheduleFault, read_schedule};
use crate::step::WorldStep;
use crate::world::World;
use pmf_event::Profile;
use pmf_storelog::{LogFault, read_log};
use std::alloc::{AllocError, Global};
use std::error::Error;
use std::fmt;

/// The greatest length of a schedule, in bytes: 2^20.
pub const SCHEDULE_LIMIT: usize = 1_048_576;

/// Why a schedule was not simulated: the first that applies, in this order.
#[derive(Clone, Copy, Debug, PartialEq, Eq)]
pub enum SimFault {
    /// The schedule has more than [`SCHEDULE_LIMIT`] bytes.
    TooLong,
    /// This text line of the schedule, the first such, is neither empty nor a step.
    BadStep {
        /// The number of the text line, counted from 1.
        line: u32,
    },
    /// The log is refused.
    Log(LogFault),
    /// There is no such world of the log's sections.
    New(WorldNewFault),
    /// Memory was refused.
    OutOfMemory,
}

impl fmt::Display for SimFault {
    ghost use Rattle.std.specs.Prelude.{Some};
    ghost use Rattle.pmf_world.specs.FaultText.{text_of_sim};

    ghost output = { λ fault. Some (text_of_sim fault) };

    fn fmt<W: fmt::Write>(&self, f: &mut fmt::Formatter<W>) -> fmt::Result {
        match self {
            SimFault::TooLong => f.write_str("schedule is too long"),
            SimFault::BadStep { line } => write!(f, "schedule line {line}: bad step"),
            SimFault::Log(fault) => write!(f, "{fault}"),
            SimFault::New(fault) => write!(f, "{fault}"),
            SimFault::OutOfMemory => f.write_str("out of memory"),
        }
    }
}

impl Error for SimFault {}

impl From<AllocError> for SimFault {
    ghost use Rattle.pmf_world.specs.declared.simulating.SimFault.TheVariants.{OutOfMemory};

    ghost from_gives = { λ _ fault. fault ≡ OutOfMemory };

    fn from(_refused: AllocError) -> SimFault {
        SimFault::OutOfMemory
    }
}

// The steps of a schedule that is not too long.
fn read_steps(alloc: Global, schedule: &[u8]) -> Result<Vec<WorldStep>, SimFault>
    ensures { MatchResult result (λ steps. IsSchedule schedule.now steps.items)
        (λ fault. (log : List ℕ) (workers ledgers : ℕ)
        → IsSimFault log schedule.now workers ledgers fault) }
{
    if schedule.len() > SCHEDULE_LIMIT {
        return Err(SimFault::TooLong);
    }
    match read_schedule(alloc, schedule) {
        Ok(steps) => Ok(steps),
        Err(ScheduleFault::BadLine { line }) => Err(SimFault::BadStep { line }),
        Err(ScheduleFault::OutOfMemory) => Err(SimFault::OutOfMemory),
    }
}

/// Plays the schedule in a world of the log's sections by profile One, with so many workers and ledgers: of each step a
/// text line with its number and what came of it, and behind them the report of each ledger. A refused step is told like
/// any other, and the schedule goes on.
///
/// Takes memory for the steps, the log, the world and the text.
pub fn sim_text(
    alloc: Global,
    log: &[u8],
    schedule: &[u8],
    workers: u32,
    ledgers: u32,
) -> Result<Vec<u8>, SimFault>
    ensures { MatchResult result
        (λ text. IsSimulation log.now schedule.now workers ledgers text.items)
        (IsSimFault log.now schedule.now workers ledgers) }
{
    let steps = match read_steps(alloc, schedule) {
        Ok(steps) => steps,
        Err(fault) => return Err(fault),
    };
    let read = match read_log(alloc, log, 0) {
        Ok(read) => read,
        Err(fault) => return Err(SimFault::Log(fault)),
    };
    let mut world = match World::new(alloc, read.sections(), workers, ledgers, Profile::One) {
        Ok(world) => world,
        Err(fault) => return Err(SimFault::New(fault)),
    };
    let lines = play_all(alloc, &mut world, &steps)?;
    let mut text = lines.into_bytes();
    push_ledgers(alloc, &mut text, &world, ledgers)?;
    Ok(text)
}
