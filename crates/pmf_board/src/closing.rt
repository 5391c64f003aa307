//! A board is closed, and what stands of its sections is told.

ghost use Rattle.std.specs.{Prelude.{◌≡◌, ◌↔◌, ◌≤◌, [], length, map, vec_capacity, IfErr, IfOk, IsOk}, Mem.Slots.{slots_items, slots_len, IsFull}};
ghost use Rattle.pmf_board.specs.{Calls.{IsTallied}, Rule.{entry_of}};

use crate::board::Board;
use crate::entry::Entry;
use crate::fault::BoardFault;
use crate::pass::Pass;
use crate::tally::Tally;
use atomic_table::Closed;
use std::alloc::Global;

// What the words say, read into the room.
fn read_words(closed: &Closed<(), Global>, count: usize, room: Vec<Entry>) -> Vec<Entry>
    requires empty { room.items ≡ [] }
    requires room { count ≤ vec_capacity room }
    requires all { count ≡ slots_len closed.now.words }
    requires full { IsFull closed.now.words }
    ensures { result.items ≡ map entry_of (slots_items closed.now.words) }
{
    let mut entries = room;
    let mut section = 0;
    while section < count {
        let word = closed.word(section);
        entries.push_reserved(Entry {
            handouts: (word % 16) as u32,
            done: word >= 16,
        });
        section += 1;
    }
    entries
}

impl Board {
    /// What stands of each section, told to who holds all shares. Takes no memory.
    ///
    /// Where shares are out, the board and the pass come back unchanged.
    pub fn close(self, pass: Pass) -> Result<Tally, (BoardFault, Board, Pass)>
        requires own { pass.board ≡ self }

        // With all shares the pass knows the whole board: each hand-out of the tally is among those that it took, each
        // once and no others, and a section is done exactly where it marked it.
        ensures tallied { IfOk result (IsTallied pass.view) }
        ensures sections { IfOk result (λ tally. length tally ≡ self.words) }

        // It is refused exactly where the pass holds fewer shares.
        ensures ok { IsOk result ↔ (pass.view.shares ≡ 65) }
        ensures returned { IfErr result (λ back. back ≡ (BoardFault.SharesOut, self, pass)) }
    {
        if pass.shares != 65 {
            return Err((BoardFault::SharesOut, self, pass));
        }
        let Board {
            table,
            sections,
            room,
        } = self;
        let Pass { seat, shares: _ } = pass;
        let closed = table.close_with(seat);
        let entries = read_words(&closed, sections as usize, room);
        closed.free();
        Ok(Tally { entries })
    }
}
