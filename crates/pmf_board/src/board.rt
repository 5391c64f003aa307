//! A board, and how it is made.

ghost use Rattle.std.specs.Prelude.{◌≡◌, ◌<◌, ◌≤◌, ◌↔◌, [], vec_capacity, Err, IfErr, IfOk, ◌≢◌};
ghost use Rattle.pmf_board.specs.{Passes.{BoardId, PassValue}, Views.{first_view}};

use crate::entry::Entry;
use crate::fault::BoardFault;
use crate::pass::Pass;
use crate::rule::Law;
use crate::view::View;
use atomic_table::Table;
use std::alloc::Global;
use std::marker::Model;

/// The most sections that a board can have.
pub const MOST_SECTIONS: u32 = 65_536;

/// The most workers that a board is for: each has a pass, and who made the board one more.
pub const MOST_WORKERS: u32 = 64;

/// Which sections were handed out, how often, and which are done. Threads share it by reference, each with a pass of
/// its own. Contracts see it as which board it is; its words are its sections.
#[derive(Drop)]
pub struct Board {
    pub(crate) table: Table<(), View, u32, Law, Global>,
    pub(crate) sections: u32,
    // Room for the tally: no entry yet, and place for all.
    pub(crate) room: Vec<Entry>,
}

impl Model for Board {
    ghost Value = { BoardId };

    ghost view = { λ b. b.table.shared.table_id };

    ghost invariant = { λ b. (b.table.shared.key ≡ b.table.shared.table_id.words)
        × (0 < b.table.shared.table_id.words) × (b.table.shared.table_id.words ≤ 65536)
        × (b.table.shared.table_id.slots ≡ 0) × (b.sections ≡ b.table.shared.table_id.words)
        × (b.room.items ≡ []) × (b.table.shared.table_id.words ≤ vec_capacity b.room) };
}

impl Board {
    /// A board of so many sections, and its first pass, which holds all shares. Takes memory, for the tally too.
    pub fn new(alloc: Global, sections: u32) -> Result<(Board, Pass), BoardFault>

        // The board has the sections asked for, and the pass took, marked and saw nothing: nothing is handed out.
        ensures sections { IfOk result (λ made. made.0.words ≡ sections) }
        ensures first { IfOk result (λ made. made.1
            ≡ record { board = made.0; view = first_view }) }

        // Each refusal comes exactly where it has to, want of memory aside.
        ensures none { (result ≡ Err BoardFault.NoSections) ↔ (sections ≡ 0) }
        ensures many { (result ≡ Err BoardFault.TooMany) ↔ (65536 < sections) }
        ensures only { IfErr result (λ f. (f ≢ BoardFault.SharesOut) × (f ≢ BoardFault.Crowded)) }
    {
        if sections == 0 {
            return Err(BoardFault::NoSections);
        }
        if sections > MOST_SECTIONS {
            return Err(BoardFault::TooMany);
        }
        let Ok(room) = Vec::with_capacity(alloc, sections as usize) else {
            return Err(BoardFault::OutOfMemory);
        };
        let Ok(words) = Vec::from_elem(alloc, 0u64, sections as usize) else {
            return Err(BoardFault::OutOfMemory);
        };
        let Ok((table, seat)) = Table::of_words(alloc, words.as_slice(), &sections) else {
            return Err(BoardFault::OutOfMemory);
        };
        let board = Board {
            table,
            sections,
            room,
        };
        Ok((board, Pass { seat, shares: 65 }))
    }

    /// How many sections it has.
    pub fn sections(&self) -> u32
        ensures value { result ≡ self.now.words }
        ensures few { result ≤ 65536 }
    {
        self.sections
    }
}
