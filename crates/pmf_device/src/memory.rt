//! A sink in memory.

ghost use Rattle.std.specs.Prelude.{◌≡◌, [], Some};

use crate::device::Device;
use crate::failed::Failed;
use crate::sink::Sink;
use std::alloc::Global;

/// A [`Sink`] that keeps what is written to it: for a program that wants the text itself, and for tests of
/// what stands on a sink. It fails once it holds as many bytes as it may, or where memory is refused.
#[derive(Drop)]
pub struct ByteSink {
    /// What was written.
    pub bytes: Vec<u8>,
    /// How many calls have failed.
    pub failures: u64,
    most: usize,
    room: usize,
}

impl ByteSink {
    /// The sink that holds nothing, and takes all that memory allows. Takes no memory.
    pub fn new(alloc: Global) -> ByteSink
        ensures empty { result.bytes.items ≡ [] }
        ensures failures { result.failures ≡ 0 }
    {
        ByteSink {
            bytes: Vec::new(alloc),
            most: usize::MAX,
            room: usize::MAX,
            failures: 0,
        }
    }

    /// The same that takes at most this many bytes a call.
    pub fn taking(mut self, most: usize) -> ByteSink
        ensures kept { result.bytes ≡ self.bytes }
        ensures failures { result.failures ≡ self.failures }
    {
        self.most = most;
        self
    }

    /// The same that fails once it holds this many bytes.
    pub fn failing_after(mut self, room: usize) -> ByteSink
        ensures kept { result.bytes ≡ self.bytes }
        ensures failures { result.failures ≡ self.failures }
    {
        self.room = room;
        self
    }

    /// What was written.
    pub fn bytes(&self) -> &[u8]
        ensures { result.now ≡ self.now.bytes.items }
    {
        self.bytes.as_slice()
    }
}

impl Device for ByteSink {
    ghost failed_calls = { λ s. s.failures };

    fn failures(&self) -> u64 {
        self.failures
    }
}

impl Sink for ByteSink {
    ghost held = { λ s. Some s.bytes.items };

    fn write(&mut self, bytes: &[u8]) -> Result<usize, Failed> {
        let room = self.room.saturating_sub(self.bytes.len());
        let count = bytes.len().min(self.most).min(room);
        if count == 0 && !bytes.is_empty() {
            self.failures += 1;
            return Err(Failed);
        }
        if self.bytes.extend_from_slice(&bytes[..count]).is_err() {
            self.failures += 1;
            return Err(Failed);
        }
        Ok(count)
    }
}
