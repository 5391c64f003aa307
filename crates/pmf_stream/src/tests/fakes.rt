//! A source that fails when a test wants it, and a device that is interrupted.

ghost use Rattle.std.specs.Prelude.{◌≡◌, None, Some, IfOk};

use crate::fault::StreamFault;
use pmf_device::{Device, Failed, Source};
use std::alloc::Global;
use std::io;
use std::io::{Error, ErrorKind, Read, Write};

// Gives the text, in several reads where it does not fit into the buffer or has more than `most` bytes, which is not 0, and
// then the end.
#[derive(Drop)]
pub struct PieceSource<'a> {
    rest: &'a [u8],
    most: usize,
    fails_after: bool,
    failures: u64,
}

impl<'a> PieceSource<'a> {
    pub fn new(text: &'a [u8]) -> PieceSource<'a>
        ensures { result.failures ≡ 0 }
    {
        PieceSource {
            rest: text,
            most: usize::MAX,
            fails_after: false,
            failures: 0,
        }
    }

    // Where it fails, each read behind the text fails in place of the end.
    pub fn failing(mut self, fails_after: bool) -> PieceSource<'a>
        ensures { result.failures ≡ self.entry.failures }
    {
        self.fails_after = fails_after;
        self
    }

    // At most this many bytes a read.
    pub fn giving(mut self, most: usize) -> PieceSource<'a>
        ensures { result.failures ≡ self.entry.failures }
    {
        self.most = most;
        self
    }
}

impl<'a> Device for PieceSource<'a> {
    ghost failed_calls = { λ s. s.failures };

    fn failures(&self) -> u64 {
        self.failures
    }
}

impl<'a> Source for PieceSource<'a> {
    ghost left = { λ _. None };

    fn read(&mut self, buffer: &mut [u8]) -> Result<usize, Failed> {
        if self.rest.is_empty() && self.fails_after {
            self.failures += 1;
            return Err(Failed);
        }
        let count = self.rest.len().min(buffer.len()).min(self.most);
        buffer[..count].copy_from_slice(&self.rest[..count]);
        self.rest = &self.rest[count..];
        Ok(count)
    }
}

// How many reads and how many writes have failed where a stream is answered so.
pub fn failed_calls<T, E>(answer: &Result<T, StreamFault<E>>) -> (u64, u64) {
    match answer {
        Err(StreamFault::ReadFault) => (1, 0),
        Err(StreamFault::WriteFault { .. }) => (0, 1),
        _ => (0, 0),
    }
}

// A device of the standard library that is interrupted at its first call, and then reads as one
// that has ended and writes as one that takes all.
#[derive(Drop)]
pub struct InterruptedOnce {
    was_called: bool,
}

impl InterruptedOnce {
    pub fn new() -> InterruptedOnce {
        InterruptedOnce { was_called: false }
    }

    fn answer(&mut self, count: usize) -> io::Result<usize>
        ensures { IfOk result (λ n. n ≡ count) }
    {
        if self.was_called {
            return Ok(count);
        }
        self.was_called = true;
        Err(Error::from(ErrorKind::Interrupted))
    }
}

impl Read for InterruptedOnce {
    fn read(&mut self, _buffer: &mut [u8]) -> io::Result<usize> {
        self.answer(0)
    }
}

impl Write for InterruptedOnce {
    fn write(&mut self, bytes: &[u8]) -> io::Result<usize> {
        self.answer(bytes.len())
    }

    fn flush(&mut self) -> io::Result<()> {
        Ok(())
    }
}
