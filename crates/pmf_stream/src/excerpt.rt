//! The record in which a log's fault stands, as far as it is kept.

ghost use Rattle.std.specs.Prelude.{◌≡◌, ◌≤◌};
ghost use Rattle.pmf_stream.specs.declared.excerpt.TheConstants.{KEPT};

use pmf_storelog::{next_part, read_record, trim};

/// How many bytes of a record are kept, at most.
const KEPT: usize = 128;

/// The first bytes of the record in which a log's fault stands, for who says what may be wrong with it. While a log is read in pieces it
/// has those of the record that isn't ended yet. Takes no memory.
#[derive(Drop)]
pub struct Excerpt {
    bytes: [u8; KEPT],
    length: usize,
    ghost within: { length ≤ KEPT },
}

impl Excerpt {
    /// Of no record.
    pub fn none() -> Excerpt
        ensures { result.length ≡ 0 }
    {
        Excerpt {
            bytes: [0u8; KEPT],
            length: 0,
        }
    }

    /// The bytes that are kept, without the blanks at both ends.
    pub fn text(&self) -> &[u8] {
        trim(&self.bytes[..self.length])
    }

    /// Passes a piece with no fault in it.
    pub(crate) fn pass(&mut self, piece: &[u8]) {
        let mut start = piece.len();
        while start > 0 && !is_separator(piece[start - 1]) {
            start -= 1;
        }
        if start > 0 {
            self.length = 0;
        }
        self.keep(&piece[start..]);
    }

    /// Keeps the first record of the piece that is refused.
    pub(crate) fn find(&mut self, piece: &[u8]) {
        let mut start = 0;
        while let Some((length, _)) = next_part(&piece[start..]) {
            let part = &piece[start..start + length];
            let is_whole = self.length == 0;
            self.keep(part);
            if is_refused(if is_whole { part } else { self.text() }) {
                return;
            }
            self.length = 0;
            start += length + 1;
        }
        self.keep(&piece[start..]);
    }

    fn keep(&mut self, more: &[u8]) {
        for byte in more {
            if self.length == KEPT {
                return;
            }
            self.bytes[self.length] = *byte;
            self.length += 1;
        }
    }
}

fn is_separator(byte: u8) -> bool {
    byte == b'|' || byte == b'\n' || byte == b'\r'
}

fn is_refused(part: &[u8]) -> bool {
    read_record(trim(part)).is_err()
}
