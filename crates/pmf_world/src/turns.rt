//! The turns of a worker: what it may do, by what it is doing.

ghost use Rattle.std.specs.Prelude.{◌≤◌, slice_get};
ghost use Rattle.pmf_world.specs.{Floors.{IsTurned, IsTurnedIfRoom}, Turns.{check_where, lose_where, mark_where, send_where, take_turn}};

use crate::doing::Doing;
use crate::floor::Floor;
use crate::step::{WorldAnswer, WorldFault};

impl Floor {
    /// The worker takes the section, where it was handed out fewer times than the limit.
    pub(crate) fn take(
        &mut self,
        worker: u32,
        section: u32,
        limit: u32,
    ) -> Result<WorldAnswer, WorldFault>
        requires { limit ≤ 8 }
        ensures { IsTurned self.old (take_turn limit self.old.farm worker section) result self.new }
    {
        let Some(doing) = self.doing(worker) else {
            return Err(WorldFault::NoSuchWorker);
        };
        let Some(entry) = self.entry(section) else {
            return Err(WorldFault::NoSuchSection);
        };
        match doing {
            Doing::Idle => {}
            Doing::Gone => return Err(WorldFault::Gone),
            _ => return Err(WorldFault::Misplaced),
        }
        if entry.done || entry.handouts >= limit {
            return Ok(WorldAnswer::NoTask);
        }
        self.hand_out(worker, section);
        Ok(WorldAnswer::Task {
            section,
            number: entry.handouts + 1,
        })
    }

    /// The worker checks its task.
    pub(crate) fn check_task(&mut self, worker: u32) -> Result<WorldAnswer, WorldFault>
        ensures { IsTurnedIfRoom self.old
            (check_where self.old.farm worker (slice_get self.old.farm.workers worker)) result self.new }
    {
        match self.doing(worker) {
            Some(Doing::HasTask { section }) => {
                let verdict = self.check(worker, section)?;
                self.give(worker, section, verdict);
                Ok(WorldAnswer::Checked)
            }
            None => Err(WorldFault::NoSuchWorker),
            Some(Doing::Gone) => Err(WorldFault::Gone),
            Some(_) => Err(WorldFault::Misplaced),
        }
    }

    /// The worker sends its verdict.
    pub(crate) fn send(&mut self, worker: u32) -> Result<WorldAnswer, WorldFault>
        ensures { IsTurnedIfRoom self.old
            (send_where self.old.farm worker (slice_get self.old.farm.workers worker)) result self.new }
    {
        match self.doing(worker) {
            Some(Doing::HasVerdict { section }) => {
                let message = self.post(worker, section)?;
                Ok(WorldAnswer::Sent { message })
            }
            None => Err(WorldFault::NoSuchWorker),
            Some(Doing::Gone) => Err(WorldFault::Gone),
            Some(_) => Err(WorldFault::Misplaced),
        }
    }

    /// The worker marks the section whose verdict it sent.
    pub(crate) fn mark_sent(&mut self, worker: u32) -> Result<WorldAnswer, WorldFault>
        ensures { IsTurned self.old
            (mark_where self.old.farm worker (slice_get self.old.farm.workers worker)) result self.new }
    {
        match self.doing(worker) {
            Some(Doing::HasSent { section }) => {
                self.mark(worker, section);
                Ok(WorldAnswer::Marked)
            }
            None => Err(WorldFault::NoSuchWorker),
            Some(Doing::Gone) => Err(WorldFault::Gone),
            Some(_) => Err(WorldFault::Misplaced),
        }
    }

    /// The worker is lost.
    pub(crate) fn lose_worker(&mut self, worker: u32) -> Result<WorldAnswer, WorldFault>
        ensures { IsTurned self.old
            (lose_where self.old.farm worker (slice_get self.old.farm.workers worker)) result self.new }
    {
        match self.doing(worker) {
            None => Err(WorldFault::NoSuchWorker),
            Some(Doing::Gone) => Err(WorldFault::Gone),
            Some(_) => {
                self.lose(worker);
                Ok(WorldAnswer::WorkerLost)
            }
        }
    }
}
