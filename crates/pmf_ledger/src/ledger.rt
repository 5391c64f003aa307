//! A ledger, and what it tells.

ghost use Rattle.std.specs.Prelude.{◌≡◌, ◌↔◌, [], ◌∷◌, ◌++◌, length, Contains, IsTrue, IfNone, IfSome, MatchOption, All};
ghost use Rattle.pmf_verdict.specs.Checked.{Checked};
ghost use Rattle.pmf_ledger.specs.{Gathered.{IsLedgerOf}, LedgerValue.{LedgerValue}, Names.{Rises}, Places.{HasName, LacksName}, TrueRows.{HasTrueRows}};

use pmf_event::{Name, Profile};
use pmf_verdict::Verdict;
use std::alloc::Global;
use std::marker::Model;

/// Verdicts by one profile, at most one of each name, in the order of their names. Contracts see it as the
/// profile and the list of its checked sections.
#[derive(Debug, Drop)]
pub struct Ledger {
    pub(crate) profile: Profile,
    pub(crate) verdicts: Vec<Verdict>,
}

impl Model for Ledger {
    ghost Value = { LedgerValue };

    ghost view = { λ l. record { profile = l.profile; sections = l.verdicts.items } };

    ghost invariant = { λ l. Rises l.verdicts.items
        × All (λ (c : Checked). c.profile ≡ l.profile) l.verdicts.items };
}

impl Ledger {
    /// The ledger of no section. Takes no memory.
    pub fn new(alloc: Global, profile: Profile) -> Ledger
        ensures value { result ≡ record { profile = profile; sections = [] } }
        ensures gathers { IsLedgerOf profile [] result }
    {
        Ledger {
            profile,
            verdicts: Vec::new(alloc),
        }
    }

    /// The profile by which its sections were checked.
    pub fn profile(&self) -> Profile
        ensures { result ≡ self.now.profile }
    {
        self.profile
    }

    /// How many sections it holds.
    pub fn len(&self) -> usize
        ensures { result ≡ length self.now.sections }
    {
        self.verdicts.len()
    }

    /// Whether it holds none.
    pub fn is_empty(&self) -> bool
        ensures { IsTrue result ↔ (self.now.sections ≡ []) }
    {
        self.verdicts.is_empty()
    }

    /// The verdict of the section of this name, if it is held.
    pub fn get(&self, name: Name) -> Option<&Verdict>
        ensures value { MatchOption result (LacksName self.now.sections name) (λ verdict.
            Contains self.now.sections verdict.now × (verdict.now.section.name ≡ name)) }
        ensures true_rows { IfSome result (λ verdict. HasTrueRows verdict.now) }
    {
        match self.find(name) {
            Ok(place) => Some(&self.verdicts[place]),
            Err(_) => None,
        }
    }

    /// Whether a section of this name is held.
    pub fn has(&self, name: Name) -> bool
        ensures { IsTrue result ↔ HasName self.now.sections name }
    {
        match self.find(name) {
            Ok(_) => true,
            Err(_) => false,
        }
    }

    /// The verdicts, in the order of their names.
    #[tactic(auto, using(std::proofs::lemmas::Grind::common_steps, crate::proofs::lemmas::TrueRowsLemmas::all_rows_true))]
    pub fn verdicts(&self) -> &[Verdict]
        ensures value { result.now ≡ self.now.sections }
        ensures rises { Rises result.now }
        ensures checked { All (λ (c : Checked). c.profile ≡ self.now.profile) result.now }
        ensures true_rows { All HasTrueRows result.now }
    {
        self.verdicts.as_slice()
    }

    // Gives away the last verdict, by the order of names.
    pub(crate) fn pop(&mut self) -> Option<Verdict>
        ensures profile { self.new.profile ≡ self.old.profile }
        ensures last { MatchOption result (self.old.sections ≡ [])
            (λ last. self.old.sections ≡ self.new.sections ++ last ∷ []) }
        ensures none { IfNone result (self.new ≡ self.old) }
    {
        self.verdicts.pop()
    }
}
