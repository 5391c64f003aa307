//! What the ledgers of a world gather: messages that arrive, and joins.

ghost use Rattle.std.specs.Prelude.{◌≡◌, ◌↔◌, ◌<◌, length, Contains, IfOk, IfErr, OnOk, OnErr, Ok};
ghost use Rattle.pmf_ledger.specs.Gathered.{ClashesAt, Gains, Gathers, GathersBoth, Holds, HoldsOther, Unites};
ghost use Rattle.pmf_world.specs.{Gatherings.{JoinsAt, TakesAt}, Worlds.{Refuses, Steps}};

use crate::step::{WorldAnswer, WorldFault, WorldStep};
use crate::world::World;
use pmf_event::Name;
use pmf_ledger::{JoinFault, Ledger, TakeFault, Taken};
use pmf_verdict::Verdict;
use std::alloc::AllocError;
use std::mem;

// Takes a verdict that the ledger doesn't refuse.
fn take_into(ledger: &mut Ledger, verdict: Verdict) -> Result<Taken, AllocError>
    requires by { verdict.profile ≡ ledger.old.profile }
    requires agrees { HoldsOther ledger.old verdict.section → ⊥ }
    ensures gains { OnOk result (Gains ledger.old verdict.section ledger.new) }
    ensures gathers { OnOk result (Gathers ledger.old verdict.section ledger.new) }
    ensures repeat { (result ≡ Ok Taken.Repeat) ↔ Holds ledger.old verdict.section }
    ensures unchanged { OnErr result (ledger.new ≡ ledger.old) }
{
    match ledger.take(verdict) {
        Ok(taken) => Ok(taken),
        Err((TakeFault::OutOfMemory, _)) => Err(AllocError),
        Err((TakeFault::ProfileMismatch, _)) => unreachable!(),
        Err((TakeFault::Conflict, _)) => unreachable!(),
    }
}

// Joins two ledgers that don't clash; after want of memory the first comes back.
fn join_both(own: Ledger, other: Ledger) -> Result<Ledger, Ledger>
    requires by { own.profile ≡ other.profile }
    requires agree { (name : Name) → ClashesAt own other name → ⊥ }
    ensures unites { IfOk result (Unites own other) }
    ensures gathers { IfOk result (GathersBoth own other) }
    ensures returned { IfErr result (λ back. back ≡ own) }
{
    match own.join(other) {
        Ok(joined) => Ok(joined),
        Err((JoinFault::OutOfMemory, own, _)) => Err(own),
        Err((JoinFault::ProfileMismatch, _, _)) => unreachable!(),
        Err((JoinFault::Conflict { .. }, _, _)) => unreachable!(),
    }
}

impl World {
    // The ledger of this number takes a verdict of one of the sections.
    fn take_at(&mut self, ledger: u32, verdict: Verdict) -> Result<Taken, AllocError>
        requires there { ledger < length self.old.ledgers }
        requires by { verdict.profile ≡ self.old.profile }
        requires of { Contains self.old.sections verdict.section }
        ensures takes { IfOk result (λ taken. TakesAt self.old ledger verdict.section taken self.new) }
        ensures unchanged { OnErr result (self.new ≡ self.old) }
    {
        take_into(&mut self.ledgers[ledger as usize], verdict)
    }

    // The ledger of this number is joined with a copy of another.
    fn join_at(&mut self, into: u32, from: u32) -> Result<(), AllocError>
        requires there { into < length self.old.ledgers }
        requires other { from < length self.old.ledgers }
        ensures joins { OnOk result (JoinsAt self.old into from self.new) }
        ensures unchanged { OnErr result (self.new ≡ self.old) }
    {
        let other = self.ledgers[from as usize].copy(self.floor.allocator())?;
        let empty = Ledger::new(self.floor.allocator(), other.profile());
        let own = mem::replace(&mut self.ledgers[into as usize], empty);
        match join_both(own, other) {
            Ok(joined) => {
                self.ledgers[into as usize] = joined;
                Ok(())
            }
            Err(own) => {
                self.ledgers[into as usize] = own;
                Err(AllocError)
            }
        }
    }

    // A message arrives at a ledger.
    #[tactic(auto, using(std::proofs::lemmas::Grind::common_steps, crate::proofs::lemmas::WorldLedgerLemmas::arrive_ok))]
    pub(crate) fn arrive(&mut self, message: u32, ledger: u32) -> Result<WorldAnswer, WorldFault>
        ensures steps { IfOk result (λ told.
            Steps self.old (WorldStep.Arrive message ledger) told self.new) }
        ensures refuses { IfErr result (Refuses self.old (WorldStep.Arrive message ledger)) }
        ensures unchanged { OnErr result (self.new ≡ self.old) }
    {
        let Some(verdict) = self.floor.sent(message) else {
            return Err(WorldFault::NoSuchMessage);
        };
        if ledger as usize >= self.ledgers.len() {
            return Err(WorldFault::NoSuchLedger);
        }
        let copy = verdict.copy(self.floor.allocator())?;
        match self.take_at(ledger, copy)? {
            Taken::Added => Ok(WorldAnswer::Added),
            Taken::Repeat => Ok(WorldAnswer::Repeat),
        }
    }

    // A ledger is joined with a copy of another, or with itself.
    #[tactic(auto, using(std::proofs::lemmas::Grind::common_steps, crate::proofs::lemmas::WorldLedgerLemmas::join_steps, crate::proofs::lemmas::WorldLedgerLemmas::join_ok))]
    pub(crate) fn join(&mut self, into: u32, from: u32) -> Result<WorldAnswer, WorldFault>
        ensures steps { IfOk result (λ told.
            Steps self.old (WorldStep.Join into from) told self.new) }
        ensures refuses { IfErr result (Refuses self.old (WorldStep.Join into from)) }
        ensures unchanged { OnErr result (self.new ≡ self.old) }
    {
        let count = self.ledgers.len();
        if into as usize >= count || from as usize >= count {
            return Err(WorldFault::NoSuchLedger);
        }
        if into != from {
            self.join_at(into, from)?;
        }
        Ok(WorldAnswer::Joined)
    }
}
