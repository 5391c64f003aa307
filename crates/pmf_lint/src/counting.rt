//! How many records of each name a walk has passed.

ghost use Rattle.std.specs.Prelude.{◌≡◌, ◌+◌, ◌<◌, ◌^◌, ℕ, List, [], ◌∷◌, ◌++◌, length, IfOk, OnOk};

use crate::listing::Listing;
use crate::naming::{Named, count_name, is_skipped, known_counts, name_of};
use crate::noting::Notes;
use crate::usual::count_known;
use pmf_query::usual_name;
use std::alloc::{AllocError, Global};

/// How many records of each name a walk has passed.
#[derive(Debug, Drop)]
pub(crate) struct NameCounts<'a> {
    /// All of them.
    pub(crate) records: u64,
    /// Those of each known name, in the order of the format's table.
    pub(crate) known: Vec<Named<'a>>,
    /// The names of those that are skipped.
    pub(crate) listing: Listing<'a>,
    pub(crate) notes: Notes,
}

impl<'a> NameCounts<'a> {
    ghost use Rattle.pmf_query.specs.Usual.{IsUsual};
    ghost use Rattle.pmf_lint.specs.Counting.{Tallies};

    /// Of no record.
    pub(crate) fn new(alloc: Global) -> Result<NameCounts<'a>, AllocError>
        ensures { IfOk result (λ counts. Tallies counts []) }
    {
        let known = known_counts(alloc)?;
        Ok(NameCounts {
            records: 0,
            known,
            listing: Listing::new(alloc),
            notes: Notes::none(),
        })
    }

    /// Counts one more record.
    pub(crate) fn take(&mut self, text: &'a [u8]) -> Result<(), AllocError>
        requires { (records : List (List ℕ)) × Tallies self.old records × (length records + 1 < 2 ^ 64) }
        ensures { (records : List (List ℕ)) → Tallies self.old records
            → OnOk result (Tallies self.new (records ++ text.now ∷ [])) }
    {
        if let Some(index) = usual_name(text) {
            self.take_usual(text, index);
            return Ok(());
        }
        self.take_other(text)?;
        Ok(())
    }

    // Counts one whose name is known by how it begins.
    #[tactic(auto, using(crate::proofs::NamingLemmas::names_long, crate::proofs::NamingLemmas::small_counts))]
    fn take_usual(&mut self, text: &[u8], index: usize)
        requires room { (records : List (List ℕ)) × Tallies self.old records × (length records + 1 < 2 ^ 64) }
        requires usual { IsUsual text.now index }
        ensures { (records : List (List ℕ)) → Tallies self.old records → Tallies self.new (records ++ text.now ∷ []) }
    {
        self.records += 1;
        count_known(&mut self.known, index);
    }

    #[tactic(auto, using(crate::proofs::NamingLemmas::names_long, crate::proofs::NamingLemmas::skipped_few, crate::proofs::NamingLemmas::small_counts))]
    fn take_other(&mut self, text: &'a [u8]) -> Result<(), AllocError>
        requires { (records : List (List ℕ)) × Tallies self.old records × (length records + 1 < 2 ^ 64) }
        ensures { (records : List (List ℕ)) → Tallies self.old records
            → OnOk result (Tallies self.new (records ++ text.now ∷ [])) }
    {
        self.records += 1;
        let name = name_of(text);
        count_name(&mut self.known, name);
        let skipped = is_skipped(text);
        self.notes = self.notes.and(text, name, skipped);
        if skipped {
            self.listing.take(name)?;
        }
        Ok(())
    }
}
