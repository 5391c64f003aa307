//! The answer of a command that writes one text.

ghost use Rattle.std.specs.Prelude.{◌≡◌, ◌+◌};
ghost use Rattle.pmf_device.specs.Failures.{CanCountOneMore};
ghost use Rattle.pmf_stream.specs.Answering.{Writes, failed_writes};

use crate::fault::StreamFault;
use pmf_device::{Sink, write_text};

/// Writes the text of what was done, and answers what was done.
pub fn write_answer<W: Sink, T: Drop, E>(
    writer: &mut W,
    text: &[u8],
    done: T,
) -> Result<T, StreamFault<E>>
    requires { CanCountOneMore (W.failed_calls writer.old) }
    ensures written { Writes done text.now (W.held writer.old) (W.held writer.new) result }
    ensures writes { W.failed_calls writer.new ≡ W.failed_calls writer.old + failed_writes result }
{
    match write_text(writer, text) {
        Ok(()) => Ok(done),
        Err(cut) => Err(StreamFault::WriteFault {
            written: cut.written,
        }),
    }
}
