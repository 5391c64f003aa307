//! A part of a piece, read before its turn.

ghost use Rattle.std.specs.Prelude.{◌≡◌, ◌≤◌, length};

use crate::progress::next_part;
use crate::stretch::Stretch;
use std::alloc::Global;

/// How many bytes a stretch has on the average where it is worth to read ahead.
const LONG: usize = 1 << 10;

/// How many stretches may be shorter at first.
const FEW: usize = 64;

/// What is read of a part of a piece before it is known what stands in front of it: its records by stretches without a
/// section's marker. Several parts of a piece can be read at once, by threads of their own.
#[derive(Debug, Drop)]
pub struct Ahead {
    from: usize,
    to: usize,
    is_short: bool,
    pub(crate) stretches: Vec<Stretch>,
}

impl Ahead {
    ghost use Rattle.std.specs.Prelude.{ℕ, List};
    ghost use Rattle.pmf_storelog.specs.Ahead.{IsAheadOf};

    /// Nothing is read yet of the part from one place of a piece up to another. Takes no memory.
    pub fn new(alloc: Global, from: usize, to: usize) -> Ahead
        ensures { (piece : List ℕ) → IsAheadOf piece result }
    {
        Ahead {
            from,
            to,
            is_short: false,
            stretches: Vec::new(alloc),
        }
    }

    /// Whether reading stopped since the stretches were short on the average: it is sooner to read such records once it is their turn.
    pub fn is_short(&self) -> bool {
        self.is_short
    }

    /// Reads the part, which begins with a record, of this piece. What isn't read, as where memory is refused, is read once it is its turn
    /// ([`LogReader::feed_ahead`](crate::LogReader::feed_ahead)).
    ///
    /// Takes memory for the events.
    pub fn read(&mut self, alloc: Global, piece: &[u8])
        ensures { IsAheadOf piece.now self.new }
    {
        self.stretches.clear();
        self.is_short = false;
        let to = self.to.min(piece.len());
        let mut start = self.from;
        while start < to {
            if self.stretches.len() > FEW + start.saturating_sub(self.from) / LONG {
                self.is_short = true;
                return;
            }
            let stretch = Stretch::read(alloc, piece, start, to);
            let end = stretch.end;
            let Ok(()) = self.stretches.push(stretch) else {
                return;
            };
            // The record that the stretch ended at.
            let Some((len, _)) = next_part(&piece[end..]) else {
                return;
            };
            start = end + len + 1;
        }
    }
}
