//! What the records that were passed say of one section.

ghost use Rattle.std.specs.Prelude.{◌≡◌, ◌+◌, ◌<◌, ◌≤◌, ◌^◌, ℕ, List, [], ◌∷◌, ◌++◌, true, false};

use pmf_storelog::{Saying, read_record};

/// What the records that were passed say of one section.
#[derive(Drop)]
pub(crate) struct Passed {
    /// How many there were.
    pub(crate) records: u64,
    /// The number of the section that is current.
    pub(crate) current: u64,
    /// How many events of the section they gave.
    pub(crate) events: u64,
}

impl Passed {
    ghost use Rattle.pmf_query.specs.Passing.{GivesNext, HasPassed};

    /// No record.
    pub(crate) fn none() -> Passed
        ensures passed { (section : ℕ) → HasPassed section [] result }
        ensures none { result.records ≡ 0 }
        ensures no_event { result.events ≡ 0 }
    {
        Passed {
            records: 0,
            current: 0,
            events: 0,
        }
    }

    /// Passes a record, and says whether it gave event number `place` of the section.
    #[tactic(auto, using(crate::proofs::PassedLemmas::gives_next))]
    pub(crate) fn pass(&mut self, text: &[u8], section: u64, place: u64) -> bool
        requires room { self.old.records + 1 < 2 ^ 64 }
        requires few { self.old.events ≤ self.old.records }
        ensures count { self.new.records ≡ self.old.records + 1 }
        ensures few { self.new.events ≤ self.new.records }
        ensures passed { (records : List (List ℕ)) → HasPassed section records self.old
            → HasPassed section (records ++ text.now ∷ []) self.new }
        ensures gives { result ≡ true → (records : List (List ℕ)) → HasPassed section records self.old
            → GivesNext records section place text.now }
        ensures not_yet { result ≡ false → self.old.events < place → self.new.events < place }
    {
        self.records += 1;
        match read_record(text) {
            Ok(Saying::Happens(_)) => {
                if self.current != section {
                    return false;
                }
                self.events += 1;
                self.events == place
            }
            Ok(Saying::Enters(number)) => {
                self.current = number;
                false
            }
            Ok(Saying::Skipped) => false,
            Err(_) => false,
        }
    }
}
