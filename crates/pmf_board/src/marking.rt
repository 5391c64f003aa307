//! Sections are marked as done, and asked for.

ghost use Rattle.std.specs.Prelude.{◌≡◌, ◌⊎◌, ◌<◌, true};
ghost use Rattle.pmf_board.specs.{Calls.{Marks, Stays}, Views.{HasMarked, HasSeenDone, HasTaken}};

use crate::board::Board;
use crate::pass::Pass;
use crate::rule::Raise;
use crate::task::Task;

impl Board {
    /// The task's section is done from then on.
    pub fn mark(&self, pass: &mut Pass, task: Task)
        requires own { pass.old.board ≡ self.now }
        requires taken { HasTaken pass.old.view task }
        ensures same { pass.new.board ≡ pass.old.board }
        ensures marks { Marks pass.old.view task.section pass.new.view }
    {
        self.table
            .shared
            .fetch_or::<Raise>(&mut pass.seat, task.section as usize, 16);
    }

    /// Whether the section is done.
    pub fn is_done(&self, pass: &mut Pass, section: u32) -> bool
        requires own { pass.old.board ≡ self.now }
        requires there { section < self.now.words }
        ensures same { pass.new.board ≡ pass.old.board }
        ensures stays { Stays pass.old.view pass.new.view }

        // What the pass marked or saw done is answered done, and only what it has now seen done.
        ensures known { (HasMarked pass.old.view section ⊎ HasSeenDone pass.old.view section)
            → result ≡ true }
        ensures seen { (result ≡ true) → HasSeenDone pass.new.view section }
    {
        let word = self.look(pass, section);
        word >= 16
    }
}
