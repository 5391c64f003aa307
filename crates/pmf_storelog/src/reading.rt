//! A log in one piece.

ghost use Rattle.pmf_storelog.specs.{LogText.{log_of}, Answers.{Answers}};

use crate::fault::LogFault;
use crate::log::Log;
use crate::reader::LogReader;
use std::alloc::Global;

/// Reads a whole log, or answers its first fault. Takes memory for the events and the sections' list.
pub fn read_log(alloc: Global, bytes: &[u8], run: u64) -> Result<Log, LogFault>
    ensures { Answers result (log_of run bytes.now) }
{
    let mut reader = LogReader::new(alloc, run);
    reader.feed(bytes)?;
    reader.finish()
}
