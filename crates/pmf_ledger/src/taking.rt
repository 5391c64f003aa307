//! What a ledger takes.

ghost use Rattle.std.specs.Prelude.{◌≡◌, ◌≢◌, ◌↔◌, ◌<◌, ◌≤◌, length, get_or, Contains, OnOk, OnErr, IfErr, IfOk, IsTrue, MatchResult, All};
ghost use Rattle.pmf_verdict.specs.Checked.{Checked};
ghost use Rattle.pmf_ledger.specs.{Gathered.{Gains, Gathers, Holds, HoldsOther}, Taking.{IsRefusedAs, IsStandingOf}, Names.{IsBefore, Rises}, Places.{IsPlaceOf, LacksName, StandsAt}};

use crate::ledger::Ledger;
use pmf_event::{Name, Section};
use pmf_verdict::Verdict;
use std::alloc::AllocFailed;
use std::cmp::Ordering;
use thiserror::Error;

/// What became of a verdict that a ledger took.
#[derive(Clone, Copy, Debug, PartialEq, Eq)]
pub enum Taken {
    /// Its section is held now.
    Added,
    /// Its section was held already.
    Repeat,
}

/// Why a verdict was not taken: the first that applies, in this order.
#[derive(Clone, Copy, Debug, PartialEq, Eq, Error)]
pub enum TakeFault {
    /// The verdict is by another profile than the ledger.
    #[error("profiles differ")]
    ProfileMismatch,
    /// The name of its section is held with other events.
    #[error("held with other events")]
    Conflict,
    /// Room for the verdict was refused.
    #[error("out of memory")]
    OutOfMemory,
}

/// Where a section stands among those of a ledger.
pub(crate) enum Standing {
    /// It is held.
    Held,
    /// Its name is held with other events.
    Otherwise,
    /// Its name is not held, and would stand at this place.
    Absent(usize),
}

/// How the names of two sections stand: by run, then by number.
#[tactic(auto, using(std::proofs::lemmas::Grind::common_steps, crate::proofs::lemmas::NameLemmas::compares_tells))]
pub fn order(a: Name, b: Name) -> Ordering
    ensures less { (result ≡ Ordering.Less) → IsBefore a b }
    ensures equal { (result ≡ Ordering.Equal) → a ≡ b }
    ensures greater { (result ≡ Ordering.Greater) → IsBefore b a }
{
    a.cmp(&b)
}

fn is_same(a: Name, b: Name) -> bool
    ensures { IsTrue result ↔ (a ≡ b) }
{
    a == b
}

impl Ledger {
    // How many of the sections have names before this one. The last is asked first, since names mostly come
    // in their order.
    fn place_of(&self, name: Name) -> usize
        ensures { IsPlaceOf self.now.sections name result }
    {
        let mut low = 0;
        let mut high = self.verdicts.len();
        let mut middle = high.saturating_sub(1);
        while low < high {
            match order(self.verdicts[middle].name(), name) {
                Ordering::Less => low = middle + 1,
                _ => high = middle,
            }
            middle = low + (high - low) / 2;
        }
        low
    }

    // Where the section of this name stands, or else where it would.
    pub(crate) fn find(&self, name: Name) -> Result<usize, usize>
        ensures { MatchResult result (StandsAt self.now.sections name)
            (λ k. IsPlaceOf self.now.sections name k × LacksName self.now.sections name) }
    {
        let place = self.place_of(name);
        if place == self.verdicts.len() {
            return Err(place);
        }
        let held = &self.verdicts[place];
        if is_same(held.name(), name) {
            Ok(place)
        } else {
            Err(place)
        }
    }

    /// Where the section stands.
    pub(crate) fn standing_of(&self, section: &Section) -> Standing
        ensures { IsStandingOf self.now section.now result }
    {
        match self.find(section.name()) {
            Ok(place) => {
                let held = &self.verdicts[place];
                if held.section().same_as(section) {
                    Standing::Held
                } else {
                    Standing::Otherwise
                }
            }
            Err(place) => Standing::Absent(place),
        }
    }

    /// Takes the verdict: its section is held from then on, once, whether it was before or not.
    ///
    /// After a refusal the ledger is unchanged, and the verdict comes back. A verdict that is added takes memory. A name
    /// behind all others is appended at once; one before others moves their verdicts, so that sections taken in falling
    /// order of names cost the square of their number.
    #[tactic(auto, using(std::proofs::lemmas::Grind::common_steps, crate::proofs::lemmas::StandingLemmas::absent_not_held))]
    pub fn take(&mut self, verdict: Verdict) -> Result<Taken, (TakeFault, Verdict)>

        // At Ok its section is held, and nothing else is new: the ledger is that of its set with the section.
        ensures gains { OnOk result (Gains self.old verdict.section self.new) }
        ensures gathers { OnOk result (Gathers self.old verdict.section self.new) }
        ensures repeat { (result ≡ Ok Taken.Repeat)
            ↔ (verdict.profile ≡ self.old.profile) × Holds self.old verdict.section }
        ensures unchanged { (result ≡ Ok Taken.Added → ⊥) → self.new ≡ self.old }

        // Each refusal comes exactly where it has to, want of memory aside, and the verdict comes back.
        ensures mismatch { IsRefusedAs result TakeFault.ProfileMismatch
            ↔ (verdict.profile ≢ self.old.profile) }
        ensures conflict { IsRefusedAs result TakeFault.Conflict
            ↔ (verdict.profile ≡ self.old.profile) × HoldsOther self.old verdict.section }
        ensures returned { IfErr result (λ refused. refused.1 ≡ verdict) }
    {
        if verdict.profile() != self.profile {
            return Err((TakeFault::ProfileMismatch, verdict));
        }
        match self.standing_of(verdict.section()) {
            Standing::Held => Ok(Taken::Repeat),
            Standing::Otherwise => Err((TakeFault::Conflict, verdict)),
            Standing::Absent(place) => self.add(place, verdict),
        }
    }

    // Adds a verdict whose name is not held, at its place.
    fn add(&mut self, place: usize, verdict: Verdict) -> Result<Taken, (TakeFault, Verdict)>
        requires place { IsPlaceOf self.old.sections verdict.section.name place }
        requires absent { LacksName self.old.sections verdict.section.name }
        requires profile { verdict.profile ≡ self.old.profile }
        ensures added { IfOk result (λ taken.
            (taken ≡ Taken.Added) × Gains self.old verdict.section self.new) }
        ensures rises { Rises self.new.sections }
        ensures checked { All (λ (c : Checked). c.profile ≡ self.new.profile) self.new.sections }
        ensures refused { IfErr result (λ refused.
            (refused ≡ (TakeFault.OutOfMemory, verdict)) × (self.new ≡ self.old)) }
    {
        if let Err(refused) = self.verdicts.insert(place, verdict) {
            return Err((TakeFault::OutOfMemory, refused.value));
        }
        Ok(Taken::Added)
    }
}
