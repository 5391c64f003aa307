//! How many stores each of some lines has.

ghost use Rattle.std.specs.Prelude.{◌≡◌, ◌≤◌, ◌<◌, ℕ, length, get_or, List, IfOk, Contains, nat_lt};
ghost use Rattle.pmf_event.specs.{declared.event.Event.{Event}, Line.{line_of_byte}};
ghost use Rattle.pmf_images.specs.{declared.showing.Asked.{Asked}, Counts.{AreLines, IsCut, AreInOrder, AreCounted}, Walks.{count_at}};

use crate::showing::Asked;
use crate::sums::{raise, sum};
use crate::telling::Walk;
use pmf_event::{Event, line_of};
use pmf_places::lines_of;
use std::alloc::{AllocError, Global};

/// How many stores each of some lines has.
#[derive(Drop)]
pub(crate) struct Counts {
    /// The lines, in the order of their addresses; a line may stand there more than once.
    lines: Vec<u64>,
    /// A count for each of them, in levels.
    sums: Vec<u32>,
}

impl Counts {
    /// Of no event: of the lines of the bytes.
    pub(crate) fn new(alloc: Global, asked: &[Asked]) -> Result<Counts, AllocError>
        ensures order { IfOk result AreInOrder }
        ensures knows { IfOk result (λ counts. (k : ℕ) (a : Asked) → k < length asked.now
            → Contains counts.lines.items (line_of_byte (get_or asked.now k a).byte)) }
        ensures none { IfOk result (λ counts. (es : List Event) → AreCounted counts es 0) }
    {
        let lines = lines_asked(alloc, asked)?;
        let Some(room) = lines.len().checked_mul(2) else {
            return Err(AllocError);
        };
        let sums = vec![in alloc; 0; room]?;
        Ok(Counts { lines, sums })
    }
}

impl Walk for Counts {
    ghost IsSound = { AreInOrder };

    ghost Knows = { λ counts byte. Contains counts.lines.items (line_of_byte byte) };

    ghost Keeps = { AreCounted };

    ghost told = { count_at };

    fn follow(&mut self, place: u32, event: &Event) -> Result<(), AllocError> {
        if let Event::Store(span) = event {
            let (first, end) = lines_of(span);
            let from = index_of(&self.lines, first);
            let until = index_of(&self.lines, end);
            raise(&mut self.sums, self.lines.len(), from, until);
        }
        Ok(())
    }

    fn tell(&self, byte: u64) -> u32 {
        sum(
            &self.sums,
            self.lines.len(),
            index_of(&self.lines, line_of(byte)),
        )
    }
}

// The lines of the bytes, in the order of their addresses.
fn lines_asked(alloc: Global, asked: &[Asked]) -> Result<Vec<u64>, AllocError>
    ensures lines { IfOk result (λ lines. AreLines lines.items) }
    ensures all { IfOk result (λ lines. (k : ℕ) (a : Asked) → k < length asked.now
        → Contains lines.items (line_of_byte (get_or asked.now k a).byte)) }
{
    let mut lines = Vec::new(alloc);
    for one in asked {
        lines.push(line_of(one.byte))?;
    }
    lines.sort_unstable();
    Ok(lines)
}

// How many of the lines come before the address.
fn index_of(lines: &[u64], address: u64) -> usize
    requires { AreLines lines.now }
    ensures { IsCut lines.now address result }
{
    lines.partition_point(
        |line: &u64| -> bool
            ensures { result ≡ nat_lt line.now address }
        { *line < address },
    )
}
