//! The floor of a world: its sections, the board, the workers, and the messages that they sent.

ghost use Rattle.std.specs.Prelude.{◌≡◌, ◌<◌, ◌≤◌, ◌++◌, [], ◌∷◌, map, length, set, replicate, slice_get, Some, None, IfOk, OnOk, OnErr, MatchOption};
ghost use Rattle.pmf_board.specs.Machine.{entry_at, hand_out, mark, opening};
ghost use Rattle.pmf_world.specs.{Floors.{Becomes, FloorValue, IsFloor, IsSent, idle, verdict_at}, Turns.{with_worker}};

use crate::doing::Doing;
use pmf_board::Entry;
use pmf_event::{Profile, Section};
use pmf_verdict::{Verdict, check};
use std::alloc::{AllocError, Global};
use std::marker::Model;
use std::mem;
use std::sync::Arc;

// What a worker is doing, and the verdict in its hand, if it has one.
#[derive(Debug, Drop)]
struct Worker {
    doing: Doing,
    verdict: Option<Verdict>,
}

// A verdict that was sent, and the place of its section.
#[derive(Debug, Drop)]
struct Message {
    section: u32,
    verdict: Verdict,
}

/// The sections, what stands of each on the board, the workers and the messages. Contracts see it as a farm of these
/// sections by the profile.
#[derive(Debug, Drop)]
pub(crate) struct Floor {
    profile: Profile,
    sections: Vec<Arc<Section>>,
    board: Vec<Entry>,
    workers: Vec<Worker>,
    messages: Vec<Message>,
}

impl Model for Floor {
    ghost Value = { FloorValue };

    ghost view = { λ f. record {
      profile = f.profile;
      sections = map (λ s. s.value) f.sections.items;
      farm = record {
        board = f.board.items;
        workers = map (λ w. w.doing) f.workers.items;
        messages = map (λ m. m.section) f.messages.items;
      };
    } };

    ghost invariant = { λ f. IsFloor f.profile (map (λ s. s.value) f.sections.items) f.board.items f.workers.items f.messages.items };
}

// A list of idle workers.
fn idle_workers(alloc: Global, count: u32) -> Result<Vec<Worker>, AllocError>
    ensures { IfOk result (λ workers. workers.items ≡ replicate count idle) }
{
    let mut workers = Vec::with_capacity(alloc, count as usize)?;
    for _ in 0..count {
        workers.push(Worker {
            doing: Doing::Idle,
            verdict: None,
        })?;
    }
    Ok(workers)
}

// A list of sections that were never handed out.
fn untouched_board(alloc: Global, count: usize) -> Result<Vec<Entry>, AllocError>
    ensures { IfOk result (λ board. board.items ≡ opening count) }
{
    let mut board = Vec::with_capacity(alloc, count)?;
    for _ in 0..count {
        board.push(Entry {
            handouts: 0,
            done: false,
        })?;
    }
    Ok(board)
}

// The same sections once more.
fn shared(alloc: Global, sections: &[Arc<Section>]) -> Result<Vec<Arc<Section>>, AllocError>
    ensures { IfOk result (λ copy. map (λ s. s.value) copy.items ≡ map (λ s. s.value) sections.now) }
{
    let mut copy = Vec::with_capacity(alloc, sections.len())?;
    for section in sections {
        copy.push(Arc::try_clone(section)?)?;
    }
    Ok(copy)
}

impl Floor {
    /// A floor of these sections with so many idle workers, on which nothing has happened.
    pub(crate) fn new(
        alloc: Global,
        sections: &[Arc<Section>],
        workers: u32,
        profile: Profile,
    ) -> Result<Floor, AllocError>
        requires few { length sections.now ≤ 65536 }
        ensures { IfOk result (λ floor. floor ≡ record {
          profile = profile;
          sections = map (λ s. s.value) sections.now;
          farm = record {
            board = opening (length sections.now);
            workers = replicate workers Doing.Idle;
            messages = [];
          };
        }) }
    {
        let board = untouched_board(alloc, sections.len())?;
        let workers = idle_workers(alloc, workers)?;
        Ok(Floor {
            profile,
            sections: shared(alloc, sections)?,
            board,
            workers,
            messages: Vec::new(alloc),
        })
    }

    /// Where its memory comes from.
    pub(crate) fn allocator(&self) -> Global {
        *self.messages.allocator()
    }

    /// How often the section was handed out.
    pub(crate) fn handouts(&self, section: u32) -> u32
        requires { section < length self.now.sections }
        ensures { result ≡ (entry_at self.now.farm.board section).handouts }
    {
        self.board[section as usize].handouts
    }

    /// Whether the section is done.
    pub(crate) fn done(&self, section: u32) -> bool
        requires { section < length self.now.sections }
        ensures { result ≡ (entry_at self.now.farm.board section).done }
    {
        self.board[section as usize].done
    }

    /// The verdict of a message, if one of this number was sent.
    pub(crate) fn sent(&self, message: u32) -> Option<&Verdict>
        ensures { MatchOption result (slice_get self.now.farm.messages message ≡ None) (λ verdict.
            IsSent self.now.profile self.now.sections self.now.farm.messages message verdict.now) }
    {
        if message as usize >= self.messages.len() {
            return None;
        }
        Some(&self.messages[message as usize].verdict)
    }

    /// What the worker is doing, if there is one of this number.
    pub(crate) fn doing(&self, worker: u32) -> Option<Doing>
        ensures { result ≡ slice_get self.now.farm.workers worker }
    {
        match self.workers.get(worker as usize) {
            Some(worker) => Some(worker.doing),
            None => None,
        }
    }

    /// What stands of the section, if there is one of this number.
    pub(crate) fn entry(&self, section: u32) -> Option<Entry>
        ensures { result ≡ slice_get self.now.farm.board section }
    {
        match self.board.get(section as usize) {
            Some(entry) => Some(*entry),
            None => None,
        }
    }

    /// Hands the section out to the worker, which is idle.
    #[tactic(auto, using(std::proofs::lemmas::Grind::common_steps, crate::proofs::lemmas::FloorLemmas::becomes, crate::proofs::lemmas::FloorLemmas::alike, crate::proofs::lemmas::FloorLemmas::entry_is, crate::proofs::lemmas::FloorLemmas::doing_set))]
    pub(crate) fn hand_out(&mut self, worker: u32, section: u32)
        requires idle { slice_get self.old.farm.workers worker ≡ Some Doing.Idle }
        requires there { section < length self.old.farm.board }
        requires open { (entry_at self.old.farm.board section).handouts < 8 }
        ensures { Becomes self.old (record {
          board = hand_out self.old.farm.board section;
          workers = set self.old.farm.workers worker (Doing.HasTask section);
          messages = self.old.farm.messages;
        }) self.new }
    {
        self.board[section as usize].handouts += 1;
        self.workers[worker as usize].doing = Doing::HasTask { section };
    }

    /// The verdict of the section, of which the worker has the task.
    pub(crate) fn check(&self, worker: u32, section: u32) -> Result<Verdict, AllocError>
        requires has { slice_get self.now.farm.workers worker ≡ Some (Doing.HasTask section) }
        ensures { IfOk result (λ v. v ≡ verdict_at self.now.profile self.now.sections section) }
    {
        let section = Arc::try_clone(&self.sections[section as usize])?;
        match check(self.allocator(), section, self.profile) {
            Ok(verdict) => Ok(verdict),
            Err(_) => Err(AllocError),
        }
    }

    /// Gives the worker, which has the task of the section, the section's verdict.
    #[tactic(auto, using(std::proofs::lemmas::Grind::common_steps, crate::proofs::lemmas::FloorLemmas::becomes, crate::proofs::lemmas::FloorLemmas::alike, crate::proofs::lemmas::FloorLemmas::doing_set))]
    pub(crate) fn give(&mut self, worker: u32, section: u32, verdict: Verdict)
        requires has { slice_get self.old.farm.workers worker ≡ Some (Doing.HasTask section) }
        requires of { verdict ≡ verdict_at self.old.profile self.old.sections section }
        ensures { Becomes self.old
            (with_worker self.old.farm worker (Doing.HasVerdict section)) self.new }
    {
        self.workers[worker as usize] = Worker {
            doing: Doing::HasVerdict { section },
            verdict: Some(verdict),
        };
    }

    /// Sends the verdict of the section, which the worker has, and answers the number of the message.
    pub(crate) fn post(&mut self, worker: u32, section: u32) -> Result<u32, AllocError>
        requires has { slice_get self.old.farm.workers worker ≡ Some (Doing.HasVerdict section) }
        ensures number { IfOk result (λ number. number ≡ length self.old.farm.messages) }
        ensures sent { OnOk result (Becomes self.old (record {
          board = self.old.farm.board;
          workers = set self.old.farm.workers worker (Doing.HasSent section);
          messages = self.old.farm.messages ++ section ∷ [];
        }) self.new) }
        ensures unchanged { OnErr result (self.new ≡ self.old) }
    {
        self.messages.reserve(1)?;
        let number = self.messages.len() as u32;
        let sender = Worker {
            doing: Doing::HasSent { section },
            verdict: None,
        };
        match mem::replace(&mut self.workers[worker as usize], sender).verdict {
            Some(verdict) => self.messages.push_reserved(Message { section, verdict }),
            None => unreachable!(),
        }
        Ok(number)
    }

    /// Marks the section, whose verdict the worker sent.
    #[tactic(auto, using(std::proofs::lemmas::Grind::common_steps, crate::proofs::lemmas::FloorLemmas::worker_within, crate::proofs::lemmas::FloorLemmas::IsFloor_marked, crate::proofs::lemmas::FloorLemmas::section_within, crate::proofs::lemmas::FloorLemmas::becomes, crate::proofs::lemmas::FloorLemmas::alike, crate::proofs::lemmas::FloorLemmas::entry_is, crate::proofs::lemmas::FloorLemmas::doing_set))]
    pub(crate) fn mark(&mut self, worker: u32, section: u32)
        requires sent { slice_get self.old.farm.workers worker ≡ Some (Doing.HasSent section) }
        ensures { Becomes self.old (record {
          board = mark self.old.farm.board section;
          workers = set self.old.farm.workers worker Doing.Idle;
          messages = self.old.farm.messages;
        }) self.new }
    {
        self.board[section as usize].done = true;
        self.workers[worker as usize].doing = Doing::Idle;
    }

    /// The worker goes, with what it has in its hand.
    #[tactic(auto, using(std::proofs::lemmas::Grind::common_steps, crate::proofs::lemmas::FloorLemmas::becomes, crate::proofs::lemmas::FloorLemmas::alike, crate::proofs::lemmas::FloorLemmas::doing_set))]
    pub(crate) fn lose(&mut self, worker: u32)
        requires there { worker < length self.old.farm.workers }
        ensures { Becomes self.old (with_worker self.old.farm worker Doing.Gone) self.new }
    {
        self.workers[worker as usize] = Worker {
            doing: Doing::Gone,
            verdict: None,
        };
    }
}
