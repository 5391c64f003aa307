//! The single steps of a pass on the board's words.

ghost use Rattle.std.specs.Prelude.{◌≡◌, ◌≢◌, ◌+◌, ◌<◌, ◌≤◌, false};
ghost use Rattle.pmf_board.specs.{Rule.{Agrees, entry_of}, Views.{seen, task, took}};

use crate::board::Board;
use crate::pass::Pass;
use crate::rule::{Exchange, Look};

impl Board {
    // Reads the section's word.
    pub(crate) fn look(&self, pass: &mut Pass, section: u32) -> u64
        requires own { pass.old.board ≡ self.now }
        requires there { section < self.now.words }
        ensures same { pass.new.board ≡ pass.old.board }
        ensures seen { pass.new.view ≡ seen pass.old.view section (entry_of result) }
        ensures agrees { Agrees pass.old.view section (entry_of result) }
    {
        self.table
            .shared
            .load::<Look>(&mut pass.seat, section as usize)
    }

    // Where the section's word is this, it becomes the next, and the pass has the hand-out. Answers what was found.
    pub(crate) fn exchange(&self, pass: &mut Pass, section: u32, word: u64) -> u64
        requires own { pass.old.board ≡ self.now }
        requires there { section < self.now.words }
        requires offered { ((entry_of word).done ≡ false)
            × ((entry_of word).handouts < 8) × (word < 32) }
        ensures same { pass.new.board ≡ pass.old.board }
        ensures agrees { Agrees pass.old.view section (entry_of result) }
        ensures hit { result ≡ word
            → pass.new.view ≡ took pass.old.view (task section ((entry_of word).handouts + 1)) }
        ensures miss { result ≢ word
            → pass.new.view ≡ seen pass.old.view section (entry_of result) }
    {
        self.table
            .shared
            .compare_exchange::<Exchange>(&mut pass.seat, section as usize, word, word + 1)
    }
}
