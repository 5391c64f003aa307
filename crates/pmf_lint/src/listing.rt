//! The first different ones of some names.

ghost use Rattle.std.specs.Prelude.{◌≡◌, ◌+◌, ◌<◌, ◌^◌, ℕ, List, [], ◌∷◌, ◌++◌, length, OnOk};

use crate::naming::{LISTED, Named, count_name, is_among};
use std::alloc::{AllocError, Global};

/// How many of some names are each of the first different ones, and how many are none of these.
#[derive(Debug, Drop)]
pub struct Listing<'a> {
    /// How many are each of the first different ones, in the order of their first ones.
    pub listed: Vec<Named<'a>>,
    /// How many are none of these.
    pub others: u64,
}

impl<'a> Listing<'a> {
    ghost use Rattle.pmf_lint.specs.Counting.{Lists};

    /// Of no name. Takes no memory.
    pub(crate) fn new(alloc: Global) -> Listing<'a>
        ensures { Lists result [] }
    {
        Listing {
            listed: Vec::new(alloc),
            others: 0,
        }
    }

    /// Counts one more name.
    #[tactic(auto, using(crate::proofs::NamingLemmas::others_few, crate::proofs::NamingLemmas::small_counts))]
    pub(crate) fn take(&mut self, name: &'a [u8]) -> Result<(), AllocError>
        requires { (names : List (List ℕ)) × Lists self.old names × (length names + 1 < 2 ^ 64) }
        ensures { (names : List (List ℕ)) → Lists self.old names
            → OnOk result (Lists self.new (names ++ name.now ∷ [])) }
    {
        if is_among(&self.listed, name) {
            count_name(&mut self.listed, name);
            return Ok(());
        }
        if self.listed.len() < LISTED {
            self.listed.push(Named { name, records: 1 })?;
            return Ok(());
        }
        self.others += 1;
        Ok(())
    }
}
