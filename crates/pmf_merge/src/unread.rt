//! Bytes that were read of a source and not taken.

ghost use Rattle.std.specs.Prelude.{◌<◌, ◌≤◌, ◌^◌, length};

use crate::fault::MergeFault;
use pmf_device::{Failed, Source, read_piece};
use std::alloc::Global;

/// How many bytes of a source are read at least, if there are so many.
pub(crate) const PIECE: usize = 16_384;

/// Bytes that were read of a source: those from a place on were not taken.
#[derive(Drop)]
pub(crate) struct Unread {
    bytes: Vec<u8>,
    at: usize,
    ghost within: { at ≤ length bytes.items },
}

// How many bytes are to be there after so many.
fn goal_behind(bytes: usize) -> usize
    requires { bytes < 2 ^ 63 }
    ensures { (bytes < result) × (16384 ≤ result) }
{
    if bytes < PIECE {
        return PIECE;
    }
    bytes.saturating_mul(2)
}

impl Unread {
    ghost use Rattle.std.specs.{Prelude.{◌≡◌, [], IfOk, IfErr, OnOk, drop}};
    ghost use Rattle.pmf_device.specs.Failures.{CanCountOneMore};
    ghost use Rattle.pmf_merge.specs.{RawFeeding.{ReadsMore, rest_of}, Refusing.{IsReadFault}};

    /// None. Takes no memory.
    pub(crate) fn new(alloc: Global) -> Unread
        ensures { rest_of result ≡ [] }
    {
        Unread {
            bytes: Vec::new(alloc),
            at: 0,
        }
    }

    /// Those that were not taken.
    pub(crate) fn rest(&self) -> &[u8]
        ensures { result.now ≡ rest_of self.now }
    {
        &self.bytes[self.at..]
    }

    /// Takes so many.
    pub(crate) fn take(&mut self, count: usize)
        requires { count ≤ length (rest_of self.old) }
        ensures { rest_of self.new ≡ drop count (rest_of self.old) }
    {
        self.at += count;
    }

    /// Reads on: at least as many bytes as were not taken, and up to a piece of them, or to the end. Answers whether any were read.
    pub(crate) fn read_more<R: Source>(
        &mut self,
        alloc: Global,
        source: &mut R,
        piece: &mut [u8],
        index: usize,
    ) -> Result<bool, MergeFault>
        requires room { 0 < length piece.old }
        requires counted { CanCountOneMore (R.failed_calls source.old) }
        ensures more { IfOk result (ReadsMore (R.left source.old) (R.left source.new) (rest_of self.old) (rest_of self.new)) }
        ensures refused { IfErr result (IsReadFault index) }
        ensures counted { OnOk result (R.failed_calls source.new ≡ R.failed_calls source.old) }
        ensures room { length piece.new ≡ length piece.old }
    {
        let mut bytes = Vec::new(alloc);
        match bytes.extend_from_slice(&self.bytes[self.at..]) {
            Ok(()) => {}
            Err(_) => return Err(MergeFault::OutOfMemory),
        }
        let before = bytes.len();
        let goal = goal_behind(before);
        let mut ended = false;
        while !ended && bytes.len() < goal {
            let limit = piece.len();
            let count = match read_piece(source, piece, limit) {
                Ok(count) => count,
                Err(Failed) => return Err(MergeFault::Read { index }),
            };
            match bytes.extend_from_slice(&piece[..count]) {
                Ok(()) => {}
                Err(_) => return Err(MergeFault::OutOfMemory),
            }
            ended = count == 0;
        }
        let more = bytes.len() > before;
        self.bytes = bytes;
        self.at = 0;
        Ok(more)
    }
}
