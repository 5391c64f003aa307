//! A ledger in the making, from verdicts in any order of names.

ghost use Rattle.std.specs.Prelude.{◌≡◌, ◌≢◌, ◌↔◌, ◌<◌, ◌∷◌, ◌++◌, [], List, Err, ◌≤◌, length, IfErr, IfOk, MatchOption, OnErr, OnOk, true};
ghost use Rattle.pmf_event.specs.{declared.profile.Profile.{Profile}, Section.{Trace}};
ghost use Rattle.pmf_ledger.specs.{Gathered.{IsLedgerOf}, Loading.{IsOther}, Together.{AreLedgersOf, AreWithout, IsStandingIn}};

use crate::ledger::Ledger;
use crate::taking::{Standing, TakeFault};
use pmf_event::{Profile, Section};
use pmf_verdict::Verdict;
use std::alloc::{AllocError, Global};
use std::mem;

/// How many verdicts of the last ledger are moved at most to put one in before them.
const MOVED: usize = 64;

/// Ledgers by one profile that are to become one. A verdict that belongs near the end of the last ledger is put there,
/// and any other begins a new one. Those before it are kept by falling sizes: one that is no greater than the next is
/// joined to it. So N verdicts in any order take some N log N moves.
#[derive(Drop)]
pub(crate) struct Pile {
    full: Vec<Ledger>,
    last: Ledger,
    ghost filled: { last.sections ≡ [] → full.items ≡ [] },
}

// Where the section stands among those of some ledgers.
fn standing_in(ledgers: &[Ledger], section: &Section) -> Standing
    ensures { IsStandingIn ledgers.now section.now result }
{
    for i in 0..ledgers.len() {
        match ledgers[i].standing_of(section) {
            Standing::Held => return Standing::Held,
            Standing::Otherwise => return Standing::Otherwise,
            Standing::Absent(_) => {}
        }
    }
    Standing::Absent(0)
}

// The last ledger joined to those before it: to each, or else to each in turn that is no greater.
fn together(full: &mut Vec<Ledger>, last: Ledger, each: bool) -> Result<Ledger, AllocError>
    ensures ledgers { (profile : Profile) (set : List Trace) → AreLedgersOf profile set (full.old.items ++ last ∷ [])
        → IfOk result (λ joined. AreLedgersOf profile set (full.new.items ++ joined ∷ [])) }
    ensures each { each ≡ true → OnOk result (full.new.items ≡ []) }
    ensures some { OnErr result (full.old.items ≢ []) }
{
    let mut joined = last;
    while !full.is_empty() && (each || full[full.len() - 1].len() <= joined.len()) {
        joined = match full.take_last().join(joined) {
            Ok(both) => both,
            Err(_) => return Err(AllocError),
        };
    }
    Ok(joined)
}

impl Pile {
    ghost use Rattle.pmf_ledger.specs.Piles.{IsPileOf, ledgers_of};

    /// The pile of no section. Takes no memory.
    pub(crate) fn new(alloc: Global, profile: Profile) -> Pile
        ensures { IsPileOf profile [] result }
    {
        Pile {
            full: Vec::new(alloc),
            last: Ledger::new(alloc, profile),
        }
    }

    /// The profile by which its sections were checked.
    pub(crate) fn profile(&self) -> Profile
        ensures { result ≡ self.now.last.profile }
    {
        self.last.profile()
    }

    /// Takes the verdict: its section is in the set from then on, once, whether it was before or not. After
    /// `Err(OutOfMemory)` the pile may lack what it had.
    pub(crate) fn take(&mut self, verdict: Verdict) -> Result<(), TakeFault>
        requires { verdict.profile ≡ self.old.last.profile }
        ensures taken { (profile : Profile) (set : List Trace) → IsPileOf profile set self.old
            → OnOk result (IsPileOf profile (verdict.section ∷ set) self.new) }
        ensures conflict { (profile : Profile) (set : List Trace) → IsPileOf profile set self.old
            → (result ≡ Err TakeFault.Conflict) ↔ IsOther set verdict.section }
        ensures refused { result ≢ Err TakeFault.ProfileMismatch }
    {
        match self.standing_of(verdict.section()) {
            Standing::Held => Ok(()),
            Standing::Otherwise => Err(TakeFault::Conflict),
            Standing::Absent(place) => self.put(place, verdict),
        }
    }

    // Where the section stands: in the last ledger, if its name is in no other.
    fn standing_of(&self, section: &Section) -> Standing
        ensures { IsStandingIn (ledgers_of self.now) section.now result }
    {
        match standing_in(&self.full, section) {
            Standing::Held => Standing::Held,
            Standing::Otherwise => Standing::Otherwise,
            Standing::Absent(_) => self.last.standing_of(section),
        }
    }

    // Puts in a verdict whose name is not held: into the last ledger, at this place of it, if that is near its end.
    fn put(&mut self, place: usize, verdict: Verdict) -> Result<(), TakeFault>
        requires profile { verdict.profile ≡ self.old.last.profile }
        requires absent { AreWithout (ledgers_of self.old) verdict.section.name }
        ensures taken { (profile : Profile) (set : List Trace) → IsPileOf profile set self.old
            → OnOk result (IsPileOf profile (verdict.section ∷ set) self.new) }
        ensures refused { IfErr result (λ fault. fault ≡ TakeFault.OutOfMemory) }
    {
        if self.last.len().saturating_sub(place) > MOVED {
            return self.begin(verdict);
        }
        let Ok(_) = self.last.take(verdict) else {
            return Err(TakeFault::OutOfMemory);
        };
        Ok(())
    }

    // Begins a new ledger with a verdict whose name is not held.
    fn begin(&mut self, verdict: Verdict) -> Result<(), TakeFault>
        requires profile { verdict.profile ≡ self.old.last.profile }
        requires absent { AreWithout (ledgers_of self.old) verdict.section.name }
        ensures taken { (profile : Profile) (set : List Trace) → IsPileOf profile set self.old
            → OnOk result (IsPileOf profile (verdict.section ∷ set) self.new) }
        ensures refused { IfErr result (λ fault. fault ≡ TakeFault.OutOfMemory) }
    {
        let mut next = Ledger::new(*self.full.allocator(), self.last.profile());
        let Ok(_) = next.take(verdict) else {
            return Err(TakeFault::OutOfMemory);
        };
        let last = mem::replace(&mut self.last, next);
        let Ok(joined) = together(&mut self.full, last, false) else {
            return Err(TakeFault::OutOfMemory);
        };
        let Ok(()) = self.full.push(joined) else {
            return Err(TakeFault::OutOfMemory);
        };
        Ok(())
    }

    /// Hands out the only verdict, if there is one.
    pub(crate) fn pop(&mut self) -> Option<Verdict>
        ensures { (profile : Profile) (set : List Trace) → IsPileOf profile set self.old → length set ≤ 1
            → IsPileOf profile [] self.new
            × MatchOption result (set ≡ []) (λ given. (set ≡ given.section ∷ []) × (given.profile ≡ profile)) }
    {
        self.full.clear();
        self.last.pop()
    }

    /// The ledger of the set. An `Err` is want of memory, which comes of no empty set.
    pub(crate) fn into_ledger(self) -> Result<Ledger, AllocError>
        ensures ledger { (profile : Profile) (set : List Trace) → IsPileOf profile set self → IfOk result (IsLedgerOf profile set) }
        ensures some { (profile : Profile) (set : List Trace) → IsPileOf profile set self → OnErr result (set ≢ []) }
    {
        let mut full = self.full;
        together(&mut full, self.last, true)
    }
}
