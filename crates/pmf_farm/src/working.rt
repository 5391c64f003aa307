//! What a worker does: it takes sections from a board, checks them, and puts their verdicts.

ghost use Rattle.std.specs.Prelude.{◌≡◌, ◌≢◌, ◌<◌, length, map, IfOk, OnOk, OnErr, IfNone, IfSome, IfErr, Ok};
ghost use Rattle.pmf_board.specs.{Calls.{PassesOver, PassesOverAll, Stays, Takes}, Views.{HasTaken}};
ghost use Rattle.pmf_verdict.specs.Checked.{checked_by};
ghost use Rattle.pmf_ledger.specs.Repeats.{section_at};
ghost use Rattle.pmf_farm.specs.Working.{HasWorked, IsLost, Serves, TakesAgain, TakesFresh, TakesInTurn, limit_of, most_left};

use crate::gate::{Gate, Turn};
use crate::outbox::Outbox;
use pmf_board::{Board, Pass, Task};
use pmf_event::{Profile, Section};
use pmf_verdict::{Verdict, check};
use std::alloc::{AllocError, Global};
use std::sync::Arc;
use std::thread;

// How often a worker looks for each event of a section whether another is done with it: for about ten times as long as
// a check mostly takes, since two that check one section end later than one.
const LOOKS_FOR_AN_EVENT: usize = 64;

/// How a worker ended.
#[derive(Clone, Copy, Debug, PartialEq, Eq)]
pub enum Ended {
    /// Nothing was left to take.
    All,
    /// Its gate lost it.
    Lost,
}

// One worker: what it takes sections from, and how it checks them.
#[derive(Drop)]
struct Worker<'a, G: Gate> {
    alloc: Global,
    board: &'a Board,
    sections: &'a [Arc<Section>],
    number: u32,
    profile: Profile,
    gate: &'a G,
}

impl<'a, G: Gate> Worker<'a, G> {
    // Checks the section of this place.
    fn check(&self, section: u32) -> Result<Verdict, AllocError>
        requires there { section < length self.now.sections.now }
        ensures { IfOk result (λ v. v
            ≡ checked_by self.now.profile (section_at (map (λ s. s.value) self.now.sections.now) section)) }
    {
        let section = Arc::try_clone(&self.sections[section as usize])?;
        match check(self.alloc, section, self.profile) {
            Ok(verdict) => Ok(verdict),
            Err(_) => Err(AllocError),
        }
    }

    // Checks the task's section, puts its verdict and marks it, unless the gate loses the worker before.
    fn serve<O: Outbox>(
        &self,
        pass: &mut Pass,
        outbox: &mut O,
        task: Task,
    ) -> Result<Turn, AllocError>
        requires own { pass.old.board ≡ self.now.board.now }
        requires all { length self.now.sections.now ≡ self.now.board.now.words }
        requires taken { HasTaken pass.old.view task }
        requires there { task.section < self.now.board.now.words }
        ensures same { pass.new.board ≡ pass.old.board }
        ensures told { IfOk result (G.answers self.now.gate.now self.now.number task.section) }
        ensures served { (result ≡ Ok Turn.Go)
            → Serves (map (λ s. s.value) self.now.sections.now) self.now.profile task
            pass.old.view pass.new.view (O.sent outbox.old) (O.sent outbox.new) }
        ensures left { (result ≢ Ok Turn.Go)
            → (pass.new ≡ pass.old) × (O.sent outbox.new ≡ O.sent outbox.old) }
    {
        if let Turn::Lost = self.gate.turn(self.number, task.section()) {
            return Ok(Turn::Lost);
        }
        let verdict = self.check(task.section())?;
        if outbox.put(verdict).is_err() {
            return Err(AllocError);
        }
        self.board.mark(pass, task);
        Ok(Turn::Go)
    }

    // Looks for a while, in proportion to the section's events, whether another worker is done with it.
    #[tactic(auto, using(std::proofs::lemmas::Grind::common_steps, crate::proofs::lemmas::WorkingLemmas::stays))]
    fn is_done_soon(&self, pass: &mut Pass, section: u32) -> bool
        requires own { pass.old.board ≡ self.now.board.now }
        requires all { length self.now.sections.now ≡ self.now.board.now.words }
        requires there { section < self.now.board.now.words }
        ensures same { pass.new.board ≡ pass.old.board }
        ensures stays { Stays pass.old.view pass.new.view }
    {
        let looks = LOOKS_FOR_AN_EVENT * self.sections[section as usize].events().len();
        for _ in 0..looks {
            if self.board.is_done(pass, section) {
                return true;
            }
            thread::yield_now();
        }
        self.board.is_done(pass, section)
    }

    // Takes a section that was never handed out or, again, one that isn't done.
    fn take(&self, pass: &mut Pass, start: u32, again: bool) -> Option<Task>
        requires own { pass.old.board ≡ self.now.board.now }
        ensures same { pass.new.board ≡ pass.old.board }
        ensures some { IfSome result (λ t. Takes (limit_of again) pass.old.view t pass.new.view) }
        ensures there { IfSome result (λ t. t.section < self.now.board.now.words) }
        ensures passed { IfSome result (λ t. PassesOver (limit_of again) self.now.board.now.words start t.section pass.new.view) }
        ensures none { IfNone result (Stays pass.old.view pass.new.view) }
        ensures all { IfNone result (PassesOverAll (limit_of again) self.now.board.now.words pass.new.view) }
    {
        if again {
            self.board.take_again(pass, start)
        } else {
            self.board.take_fresh(pass, start)
        }
    }

    // Takes sections and serves them, until there is none.
    #[tactic(auto, using(std::proofs::lemmas::Grind::common_steps, crate::proofs::lemmas::WorkingLemmas::HasWorked_none, crate::proofs::lemmas::TurnLemmas::TakesTo_none, crate::proofs::lemmas::TurnLemmas::TakesAgain_none))]
    fn serve_all<O: Outbox>(
        &self,
        pass: &mut Pass,
        outbox: &mut O,
        again: bool,
    ) -> Result<Ended, AllocError>
        requires own { pass.old.board ≡ self.now.board.now }
        requires all { length self.now.sections.now ≡ self.now.board.now.words }
        ensures same { pass.new.board ≡ pass.old.board }
        ensures worked { HasWorked (map (λ s. s.value) self.now.sections.now) self.now.profile
            pass.old.view pass.new.view (O.sent outbox.old) (O.sent outbox.new) (most_left result) }
        ensures fresh { (limit_of again ≡ 1)
            → TakesFresh self.now.board.now.words self.now.number pass.old.view pass.new.view }
        ensures again { TakesAgain self.now.board.now.words pass.old.view pass.new.view }
        ensures lost { (result ≡ Ok Ended.Lost)
            → IsLost (G.answers self.now.gate.now) self.now.number pass.new.view }
        ensures all { (result ≡ Ok Ended.All)
            → PassesOverAll (limit_of again) self.now.board.now.words pass.new.view }
    {
        let count = self.board.sections();
        // Behind the last task, so that no section is passed over twice in a round.
        let mut start = self.number;
        while let Some(task) = self.take(pass, start, again) {
            start = (task.section() + 1) % count;
            match self.serve(pass, outbox, task) {
                Ok(Turn::Go) => {}
                Ok(Turn::Lost) => return Ok(Ended::Lost),
                Err(refused) => return Err(refused),
            }
        }
        Ok(Ended::All)
    }

    // Takes each section again that isn't done after a while, and serves it.
    #[tactic(auto, using(std::proofs::lemmas::Grind::common_steps, crate::proofs::lemmas::WorkingLemmas::HasWorked_none, crate::proofs::lemmas::TurnLemmas::TakesAgain_none))]
    fn serve_late<O: Outbox>(&self, pass: &mut Pass, outbox: &mut O) -> Result<Ended, AllocError>
        requires own { pass.old.board ≡ self.now.board.now }
        requires all { length self.now.sections.now ≡ self.now.board.now.words }
        ensures same { pass.new.board ≡ pass.old.board }
        ensures worked { HasWorked (map (λ s. s.value) self.now.sections.now) self.now.profile
            pass.old.view pass.new.view (O.sent outbox.old) (O.sent outbox.new) (most_left result) }
        ensures again { TakesAgain self.now.board.now.words pass.old.view pass.new.view }
        ensures lost { (result ≡ Ok Ended.Lost)
            → IsLost (G.answers self.now.gate.now) self.now.number pass.new.view }
    {
        for section in 0..self.board.sections() {
            if self.is_done_soon(pass, section) {
                continue;
            }
            let Some(task) = self.board.take_again(pass, section) else {
                continue;
            };
            match self.serve(pass, outbox, task) {
                Ok(Turn::Go) => {}
                Ok(Turn::Lost) => return Ok(Ended::Lost),
                Err(refused) => return Err(refused),
            }
        }
        Ok(Ended::All)
    }
}

/// What one worker of a farm does, on a board of as many sections as it is handed: from the section of its own number
/// on it takes fresh sections until there is none, and then takes again what isn't done; it checks each, puts its verdict
/// and marks it. Before it takes a section again it looks for a while whether another worker is done with it.
///
/// At `Lost` its gate ended it, after want of memory the section in its hand is taken and not marked; in both cases each
/// section that it put is marked. Takes the memory of the verdicts, one at a time, and what its outbox takes.
#[tactic(auto, using(std::proofs::lemmas::Grind::common_steps, crate::proofs::lemmas::WorkingLemmas::HasWorked_then, crate::proofs::lemmas::WorkingLemmas::HasWorked_all))]
pub fn work<O: Outbox, G: Gate>(
    alloc: Global,
    board: &Board,
    pass: &mut Pass,
    sections: &[Arc<Section>],
    worker: u32,
    profile: Profile,
    outbox: &mut O,
    gate: &G,
) -> Result<Ended, AllocError>
    requires own { pass.old.board ≡ board.now }
    requires all { length sections.now ≡ board.now.words }
    ensures same { pass.new.board ≡ pass.old.board }

    // What it put are, in order, the verdicts of the sections that it marked; it took those and at most one more.
    ensures worked { HasWorked (map (λ s. s.value) sections.now) profile
        pass.old.view pass.new.view (O.sent outbox.old) (O.sent outbox.new) (most_left result) }

    // It takes fresh sections in turn from its own number on, and then none but such as had been handed out before.
    ensures turns { TakesInTurn board.now.words worker pass.old.view pass.new.view }

    // At Lost its gate lost it, by its own number, over a section that it took.
    ensures lost { (result ≡ Ok Ended.Lost) → IsLost (G.answers gate.now) worker pass.new.view }

    // At All each section was seen done, or with 8 hand-outs.
    ensures all { (result ≡ Ok Ended.All) → PassesOverAll 8 board.now.words pass.new.view }
{
    let worker = Worker {
        alloc,
        board,
        sections,
        number: worker,
        profile,
        gate,
    };
    match worker.serve_all(pass, outbox, false) {
        Ok(Ended::All) => {}
        ended => return ended,
    }
    match worker.serve_late(pass, outbox) {
        Ok(Ended::All) => {}
        ended => return ended,
    }
    worker.serve_all(pass, outbox, true)
}
