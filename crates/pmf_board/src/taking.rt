//! Sections are taken.

ghost use Rattle.std.specs.Prelude.{◌≡◌, ◌<◌, ◌≤◌, ℕ, IfNone, IfSome};
ghost use Rattle.pmf_board.specs.{Calls.{PassesOver, PassesOverAll, Stays, Takes}, Views.{HasSeenClosed}};

use crate::board::Board;
use crate::pass::Pass;
use crate::task::Task;

impl Board {
    // Takes the section where it is on offer below the limit.
    fn take_at(&self, pass: &mut Pass, section: u32, limit: u32) -> Option<Task>
        requires own { pass.old.board ≡ self.now }
        requires there { section < self.now.words }
        requires limit { limit ≤ 8 }
        ensures same { pass.new.board ≡ pass.old.board }
        ensures some { IfSome result (λ t. (t.section ≡ section)
            × Takes limit pass.old.view t pass.new.view) }
        ensures none { IfNone result (Stays pass.old.view pass.new.view
            × HasSeenClosed limit pass.new.view section) }
    {
        let mut word = self.look(pass, section);
        while word < limit as u64 {
            let found = self.exchange(pass, section, word);
            if found == word {
                let number = word as u32 + 1;
                return Some(Task { section, number });
            }
            word = found;
        }
        None
    }

    // Takes the first section on offer below the limit of those from the first up to the end.
    fn take_between(&self, pass: &mut Pass, first: u32, end: u32, limit: u32) -> Option<Task>
        requires own { pass.old.board ≡ self.now }
        requires there { end ≤ self.now.words }
        requires limit { limit ≤ 8 }
        ensures same { pass.new.board ≡ pass.old.board }
        ensures some { IfSome result (λ t. Takes limit pass.old.view t pass.new.view
            × (first ≤ t.section) × (t.section < end)
            × ((s : ℕ) → first ≤ s → s < t.section → HasSeenClosed limit pass.new.view s)) }
        ensures none { IfNone result (Stays pass.old.view pass.new.view
            × ((s : ℕ) → first ≤ s → s < end → HasSeenClosed limit pass.new.view s)) }
    {
        let mut section = first;
        while section < end {
            let taken = self.take_at(pass, section, limit);
            if taken.is_some() {
                return taken;
            }
            section += 1;
        }
        None
    }

    // Takes the first section on offer below the limit, from the start on and round.
    fn take_from(&self, pass: &mut Pass, start: u32, limit: u32) -> Option<Task>
        requires own { pass.old.board ≡ self.now }
        requires limit { limit ≤ 8 }
        ensures same { pass.new.board ≡ pass.old.board }
        ensures some { IfSome result (λ t. Takes limit pass.old.view t pass.new.view) }
        ensures there { IfSome result (λ t. t.section < self.now.words) }
        ensures passed { IfSome result (λ t.
            PassesOver limit self.now.words start t.section pass.new.view) }
        ensures none { IfNone result (Stays pass.old.view pass.new.view) }
        ensures all { IfNone result (PassesOverAll limit self.now.words pass.new.view) }
    {
        let first = start % self.sections;
        let taken = self.take_between(pass, first, self.sections, limit);
        if taken.is_some() {
            return taken;
        }
        self.take_between(pass, 0, first, limit)
    }

    /// Takes the first section that was never handed out and isn't done, going through all once, from `start`
    /// modulo their number upwards and round.
    ///
    /// A worker starts its next take behind its last task, at `task.section() + 1`. Then no take goes through again what
    /// its last one passed over, and a hand-out costs the same, on average, however many sections there are. The same
    /// start each time is quadratic over a board: each take goes through all that was taken from there on. Workers begin
    /// apart, worker w of n at w * sections / n, so that they meet late. A take that finds none looks at each
    /// section once: 65,536 take about 40 microseconds, twice as long as 1,000 hand-outs with their marks.
    pub fn take_fresh(&self, pass: &mut Pass, start: u32) -> Option<Task>
        requires own { pass.old.board ≡ self.now }
        ensures same { pass.new.board ≡ pass.old.board }

        // The task is the section's first hand-out, and each section passed over was seen handed out or done.
        ensures some { IfSome result (λ t. Takes 1 pass.old.view t pass.new.view) }
        ensures first { IfSome result (λ t. t.number ≡ 1) }
        ensures there { IfSome result (λ t. t.section < self.now.words) }
        ensures passed { IfSome result (λ t.
            PassesOver 1 self.now.words start t.section pass.new.view) }

        // At None every section was seen so.
        ensures none { IfNone result (Stays pass.old.view pass.new.view) }
        ensures all { IfNone result (PassesOverAll 1 self.now.words pass.new.view) }
    {
        self.take_from(pass, start, 1)
    }

    /// Takes the first section that was handed out fewer than 8 times and isn't done, going through all once, from
    /// `start` modulo their number upwards and round.
    ///
    /// The start is chosen as for [`Board::take_fresh`]. From behind its last task, a worker also goes round evenly: each
    /// other section on offer comes before the same one again. A take that finds none costs as much as there.
    pub fn take_again(&self, pass: &mut Pass, start: u32) -> Option<Task>
        requires own { pass.old.board ≡ self.now }
        ensures same { pass.new.board ≡ pass.old.board }

        // Each section passed over was seen with 8 hand-outs or done.
        ensures some { IfSome result (λ t. Takes 8 pass.old.view t pass.new.view) }
        ensures there { IfSome result (λ t. t.section < self.now.words) }
        ensures passed { IfSome result (λ t.
            PassesOver 8 self.now.words start t.section pass.new.view) }

        // At None every section was seen so.
        ensures none { IfNone result (Stays pass.old.view pass.new.view) }
        ensures all { IfNone result (PassesOverAll 8 self.now.words pass.new.view) }
    {
        self.take_from(pass, start, 8)
    }
}
