//! What is read from.

ghost use Rattle.std.specs.{Prelude.{◌≤◌, ◌<◌, ℕ, List, Option, IfOk, length}, Io.KnownBytes.{ReadConsumes}};
ghost use Rattle.pmf_device.specs.Failures.{CanCountOneMore, CountsFailure};

use crate::device::{Counted, Device};
use crate::failed::Failed;
use std::io::Read;

/// What a text is read from. It counts its failed calls.
pub trait Source: Device {
    // The bytes that are left to read, where they are known.
    ghost left: { Self → Option (List ℕ) };

    /// Reads some bytes to the front of the buffer and answers how many. With room in the buffer,
    /// 0 is the end. A call that fails has moved no byte.
    fn read(&mut self, buffer: &mut [u8]) -> Result<usize, Failed>
        requires { CanCountOneMore (Self.failed_calls self.old) }
        ensures within { IfOk result (λ n. n ≤ length buffer.new) }
        ensures bytes { ReadConsumes (left self.old) (left self.new) result buffer.new }
        ensures counted { CountsFailure (Self.failed_calls self.old) (Self.failed_calls self.new) result };
}

/// A reader of the standard library as a [`Source`]: it tells the bytes that the reader tells.
pub type StdSource<R> = Counted<R>;

impl<R: Read> Source for Counted<R> {
    ghost left = { λ s. R.remaining s.device };

    fn read(&mut self, buffer: &mut [u8]) -> Result<usize, Failed> {
        match self.device.read(buffer) {
            Ok(count) => Ok(count),
            Err(error) => {
                self.failures += 1;
                self.reason = Some(error);
                Err(Failed)
            }
        }
    }
}

/// Reads at most `limit` bytes to the front of the buffer, and else as [`Source::read`] does.
pub fn read_piece<R: Source>(
    reader: &mut R,
    buffer: &mut [u8],
    limit: usize,
) -> Result<usize, Failed>
    requires room { 0 < limit }
    requires countable { CanCountOneMore (R.failed_calls reader.old) }
    ensures limited { IfOk result (λ n. n ≤ limit) }
    ensures within { IfOk result (λ n. n ≤ length buffer.new) }
    ensures bytes { ReadConsumes (R.left reader.old) (R.left reader.new) result buffer.new }
    ensures counted { CountsFailure (R.failed_calls reader.old) (R.failed_calls reader.new) result }
{
    if limit < buffer.len() {
        reader.read(&mut buffer[..limit])
    } else {
        reader.read(buffer)
    }
}
