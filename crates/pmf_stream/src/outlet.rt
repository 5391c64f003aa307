//! What a log is written to that is cut: one stream, or several files.

ghost use Rattle.std.specs.{Prelude.{◌≡◌, ◌+◌, ◌==◌, ℕ, List, [], Option, Some, if◌then◌else◌, OnOk}, Io.KnownBytes.{Appends}};
ghost use Rattle.pmf_device.specs.Failures.{CanCountOneMore};
ghost use Rattle.pmf_stream.specs.Files.{AppendsTo, failed_files};

use pmf_device::{Counted, Device, Sink, write_text};
use std::io::Write;

/// Why a text is not in a file.
#[derive(Clone, Copy, Debug, PartialEq, Eq)]
pub enum NoFile {
    /// A call has failed, after this many bytes of the text.
    Failed { written: u64 },
    /// Room was refused.
    OutOfMemory,
}

/// Files, which are written to at their ends. It counts its failed calls.
pub trait Outlet: Device {
    // The bytes that each file has, where they are known.
    ghost held_in: { Self → ℕ → Option (List ℕ) };

    /// Writes the whole text to the file, counted from 0. None is left out where files begin.
    fn write_to(&mut self, file: usize, text: &[u8]) -> Result<(), NoFile>
        requires { CanCountOneMore (Self.failed_calls self.old) }
        ensures whole { OnOk result (AppendsTo (held_in self.old) (held_in self.new) file text.now) }
        ensures counted { Self.failed_calls self.new ≡ Self.failed_calls self.old + failed_files result };
}

/// One stream, which is the first file; there is no other.
impl<W: Write> Outlet for Counted<W> {
    ghost held_in = { λ s file. if file == 0 then W.contents s.device else Some [] };

    fn write_to(&mut self, file: usize, text: &[u8]) -> Result<(), NoFile> {
        if file > 0 {
            self.failures += 1;
            return Err(NoFile::Failed { written: 0 });
        }
        write_whole(self, text)
    }
}

/// Writes the whole text, as [`write_text`] does.
pub fn write_whole<W: Sink>(writer: &mut W, text: &[u8]) -> Result<(), NoFile>
    requires { CanCountOneMore (W.failed_calls writer.old) }
    ensures whole { OnOk result (Appends (W.held writer.old) (W.held writer.new) text.now) }
    ensures counted { W.failed_calls writer.new ≡ W.failed_calls writer.old + failed_files result }
{
    match write_text(writer, text) {
        Ok(()) => Ok(()),
        Err(cut) => Err(NoFile::Failed {
            written: cut.written,
        }),
    }
}
