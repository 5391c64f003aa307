//! A world: the floor of a farm, and the ledgers.

ghost use Rattle.std.specs.Prelude.{◌≡◌, ◌<◌, [], map, length, replicate, slice_get, Some, None, IfOk, IfErr, OnErr, MatchOption, All};
ghost use Rattle.pmf_board.specs.Machine.{entry_at};
ghost use Rattle.pmf_ledger.specs.Repeats.{HaveOwnNames};
ghost use Rattle.pmf_world.specs.{Floors.{IsSent}, Opening.{IsMade, IsNotMade, IsOpening}, Worlds.{IsOfWorld, Refuses, Steps, WorldValue}};

use crate::fault::{MOST_LEDGERS, WorldNewFault};
use crate::floor::Floor;
use crate::step::{WorldAnswer, WorldFault, WorldStep};
use pmf_board::{MOST_SECTIONS, MOST_WORKERS};
use pmf_event::{Profile, Section};
use pmf_ledger::{Ledger, least_repeat};
use pmf_verdict::Verdict;
use std::alloc::{AllocError, Global};
use std::marker::Model;
use std::sync::Arc;

// How often a section is handed out at most.
const MOST_HANDOUTS: u32 = 8;

/// The same machine as a farm, as a value that is stepped by hand: sections with their hand-outs, workers that take,
/// check, send, mark and may be lost, messages that arrive any number of times in any order, and ledgers that are joined.
/// Contracts see what it is of, its farm, and its ledgers.
#[derive(Debug, Drop)]
pub struct World {
    pub(crate) floor: Floor,
    pub(crate) ledgers: Vec<Ledger>,
}

impl Model for World {
    ghost Value = { WorldValue };

    ghost view = { λ w. record {
      profile = w.floor.profile;
      sections = w.floor.sections;
      farm = w.floor.farm;
      ledgers = w.ledgers.items;
    } };

    ghost invariant = { λ w. HaveOwnNames w.floor.sections
        × All (IsOfWorld w.floor.profile w.floor.sections) w.ledgers.items };
}

// So many empty ledgers.
fn empty_ledgers(alloc: Global, profile: Profile, count: u32) -> Result<Vec<Ledger>, AllocError>
    ensures { IfOk result (λ ledgers. ledgers.items
        ≡ replicate count (record { profile = profile; sections = [] })) }
{
    let mut ledgers = Vec::with_capacity(alloc, count as usize)?;
    for _ in 0..count {
        ledgers.push(Ledger::new(alloc, profile))?;
    }
    Ok(ledgers)
}

impl World {
    /// A world of these sections by the profile, with so many idle workers and empty ledgers, in which nothing has happened.
    ///
    /// Takes memory for 16 bytes a section, for the workers and the ledgers, and for a while for a sort of the sections.
    pub fn new(
        alloc: Global,
        sections: &[Arc<Section>],
        workers: u32,
        ledgers: u32,
        profile: Profile,
    ) -> Result<World, WorldNewFault>
        ensures opening { IfOk result
            (IsOpening profile (map (λ s. s.value) sections.now) workers ledgers) }
        ensures made { IfOk result (λ world.
            IsMade (map (λ s. s.value) sections.now) workers ledgers) }
        ensures refused { IfErr result
            (IsNotMade (map (λ s. s.value) sections.now) workers ledgers) }
    {
        if workers == 0 {
            return Err(WorldNewFault::NoWorkers);
        }
        if workers > MOST_WORKERS {
            return Err(WorldNewFault::TooManyWorkers);
        }
        if sections.len() > MOST_SECTIONS as usize {
            return Err(WorldNewFault::TooManySections);
        }
        if let Some(name) = least_repeat(alloc, sections)? {
            return Err(WorldNewFault::TwiceNamed { name });
        }
        if ledgers > MOST_LEDGERS {
            return Err(WorldNewFault::TooManyLedgers);
        }
        let floor = Floor::new(alloc, sections, workers, profile)?;
        let ledgers = empty_ledgers(alloc, profile, ledgers)?;
        Ok(World { floor, ledgers })
    }

    /// Does the step, and answers what came of it; after a refusal the world is as it was.
    ///
    /// A step costs the same however many sections, messages and steps there were, but for a check, an arrival and a join,
    /// which cost what the calls of `pmf_verdict` and `pmf_ledger` do. Only those and a send take memory.
    pub fn step(&mut self, step: WorldStep) -> Result<WorldAnswer, WorldFault>
        // Answer, refusal and the world after it are those defined.
        ensures steps { IfOk result (λ told. Steps self.old step told self.new) }
        ensures refuses { IfErr result (Refuses self.old step) }
        ensures unchanged { OnErr result (self.new ≡ self.old) }
    {
        match step {
            WorldStep::Fresh { worker, section } => self.floor.take(worker, section, 1),
            WorldStep::Again { worker, section } => self.floor.take(worker, section, MOST_HANDOUTS),
            WorldStep::Check { worker } => self.floor.check_task(worker),
            WorldStep::Send { worker } => self.floor.send(worker),
            WorldStep::Mark { worker } => self.floor.mark_sent(worker),
            WorldStep::Lose { worker } => self.floor.lose_worker(worker),
            WorldStep::Arrive { message, ledger } => self.arrive(message, ledger),
            WorldStep::Join { into, from } => self.join(into, from),
        }
    }

    /// The ledger of this number, from 0, if there is one.
    pub fn ledger(&self, number: u32) -> Option<&Ledger>
        ensures { MatchOption result (slice_get self.now.ledgers number ≡ None)
            (λ ledger. slice_get self.now.ledgers number ≡ Some ledger.now) }
    {
        self.ledgers.get(number as usize)
    }

    /// The verdict of the message of this number, from 0, if it was sent.
    pub fn sent(&self, message: u32) -> Option<&Verdict>
        ensures { MatchOption result (slice_get self.now.farm.messages message ≡ None) (λ verdict.
            IsSent self.now.profile self.now.sections self.now.farm.messages message verdict.now) }
    {
        self.floor.sent(message)
    }

    /// How often the section was handed out.
    pub fn handouts(&self, section: u32) -> u32
        requires { section < length self.now.sections }
        ensures { result ≡ (entry_at self.now.farm.board section).handouts }
    {
        self.floor.handouts(section)
    }

    /// Whether the section is done.
    pub fn done(&self, section: u32) -> bool
        requires { section < length self.now.sections }
        ensures { result ≡ (entry_at self.now.farm.board section).done }
    {
        self.floor.done(section)
    }
}
