//! The one loop that writes a text.

ghost use Rattle.std.specs.{Prelude.{◌<◌, IfErr, OnOk, length, take}, Io.KnownBytes.{Appends}};
ghost use Rattle.pmf_device.specs.Failures.{CanCountOneMore, CountsFailure};

use crate::failed::Failed;
use crate::sink::Sink;
use thiserror::Error;

/// A text that was cut off by a failed write.
#[derive(Clone, Copy, Debug, PartialEq, Eq, Error)]
#[error("write failed after {written} bytes")]
pub struct Cut {
    /// How many bytes of the text, from its front, were written.
    pub written: u64,
}

/// Writes the whole text, in as many calls as the sink asks for. After the first call that fails
/// it writes no more.
pub fn write_text<W: Sink>(writer: &mut W, text: &[u8]) -> Result<(), Cut>
    requires { CanCountOneMore (W.failed_calls writer.old) }
    ensures whole { OnOk result (Appends (W.held writer.old) (W.held writer.new) text.now) }
    ensures short { IfErr result (λ cut. cut.written < length text.now) }
    ensures prefix { IfErr result (λ cut. Appends (W.held writer.old) (W.held writer.new)
        (take cut.written text.now)) }
    ensures counted { CountsFailure (W.failed_calls writer.old) (W.failed_calls writer.new) result }
{
    let mut written = 0;
    while written < text.len() {
        match writer.write(&text[written..]) {
            Ok(count) => written += count,
            Err(Failed) => {
                return Err(Cut {
                    written: written as u64,
                });
            }
        }
    }
    Ok(())
}
