//! A stretch of a piece: records without a section's marker, read before their turn.

ghost use Rattle.std.specs.Prelude.{◌≡◌, ◌≤◌, length};

use crate::plain::Plain;
use crate::progress::next_part;
use std::alloc::Global;

/// Bytes of a piece, from one place up to another, and what is kept of their records.
#[derive(Debug, Drop)]
pub(crate) struct Stretch {
    pub(crate) from: usize,
    /// The place behind the separator of the last record.
    pub(crate) end: usize,
    pub(crate) plain: Plain,
}

impl Stretch {
    ghost use Rattle.pmf_storelog.specs.Ahead.{IsStretchOf};

    /// The records of the piece from this place on: up to a section's marker, a record that is refused or memory that is, or else to the
    /// first record that ends at the other place or behind it.
    pub(crate) fn read(alloc: Global, piece: &[u8], from: usize, to: usize) -> Stretch
        requires { from ≤ length piece.now }
        ensures of { IsStretchOf piece.now result }
        ensures from { result.from ≡ from }
    {
        let mut plain = Plain::none(alloc);
        let mut end = from;
        while end < to {
            let Some((len, says)) = next_part(&piece[end..]) else {
                break;
            };
            if !plain.take(&piece[end..end + len], says) {
                break;
            }
            end += len + 1;
        }
        Stretch { from, end, plain }
    }
}
