//! What is written to.

ghost use Rattle.std.specs.{Prelude.{◌≡◌, ◌≤◌, ℕ, List, Option, [], IfOk, length}, Io.KnownBytes.{WriteAppends}};
ghost use Rattle.pmf_device.specs.Failures.{CanCountOneMore, CountsFailure};

use crate::device::{Counted, Device};
use crate::failed::Failed;
use std::io::Write;

/// What a text is written to. It counts its failed calls.
pub trait Sink: Device {
    // The bytes that have been written, where they are known.
    ghost held: { Self → Option (List ℕ) };

    /// Writes some bytes from the front of the slice and answers how many: at least one, unless
    /// the slice is empty. A call that fails has moved no byte.
    fn write(&mut self, bytes: &[u8]) -> Result<usize, Failed>
        requires { CanCountOneMore (Self.failed_calls self.old) }
        ensures within { IfOk result (λ n. n ≤ length bytes.now) }
        ensures never_none { IfOk result (λ n. n ≡ 0 → bytes.now ≡ []) }
        ensures bytes { WriteAppends (held self.old) (held self.new) result bytes.now }
        ensures counted { CountsFailure (Self.failed_calls self.old) (Self.failed_calls self.new) result };
}

/// A writer of the standard library as a [`Sink`]: it tells the bytes that the writer tells. Where
/// the writer takes none of a slice that is not empty, the call has failed.
pub type StdSink<W> = Counted<W>;

impl<W: Write> Sink for Counted<W> {
    ghost held = { λ s. W.contents s.device };

    fn write(&mut self, bytes: &[u8]) -> Result<usize, Failed> {
        match self.device.write(bytes) {
            Ok(count) if count > 0 || bytes.is_empty() => Ok(count),
            _ => {
                self.failures += 1;
                Err(Failed)
            }
        }
    }
}
