//! From a log and a schedule to the text of the simulation, written.

ghost use Rattle.std.specs.Prelude.{IsErrOf};
ghost use Rattle.pmf_world.specs.Simulation.{IsSimFault};
ghost use Rattle.pmf_device.specs.Failures.{CanCountOneMore};
ghost use Rattle.pmf_stream.specs.{Answering.{Answers, TellsFaults}, Simulated.{IsSimRefusalOf, IsSimulationOf}};

use crate::fault::StreamFault;
use crate::writing::write_answer;
use pmf_device::Sink;
use pmf_world::{SimFault, sim_text};
use std::alloc::Global;

/// Plays the schedule as [`sim_text`] does, and writes the text. Nothing is written before the schedule is played to its
/// end.
///
/// Refusals: [`StreamFault::Refused`] and [`StreamFault::OutOfMemory`], then [`StreamFault::WriteFault`]. Takes memory
/// as [`sim_text`] does.
pub fn sim_to<W: Sink>(
    alloc: Global,
    log: &[u8],
    schedule: &[u8],
    workers: u32,
    ledgers: u32,
    writer: &mut W,
) -> Result<(), StreamFault<SimFault>>
    requires { CanCountOneMore (W.failed_calls writer.old) }
    // Exactly the text of the simulation was written, or there is none.
    ensures answer { Answers (IsSimulationOf log.now schedule.now workers ledgers)
        (IsSimRefusalOf log.now schedule.now workers ledgers)
        (W.held writer.old) (W.held writer.new) result }
    ensures memory { IsErrOf result StreamFault.OutOfMemory
        → IsSimFault log.now schedule.now workers ledgers SimFault.OutOfMemory }
    ensures faults { TellsFaults 0 0 (W.failed_calls writer.old) (W.failed_calls writer.new)
        writer.old writer.new result }
{
    let text = match sim_text(alloc, log, schedule, workers, ledgers) {
        Ok(text) => text,
        Err(fault) => match fault {
            SimFault::OutOfMemory => return Err(StreamFault::OutOfMemory),
            _ => return Err(StreamFault::Refused(fault)),
        },
    };
    write_answer(writer, &text, ())
}
