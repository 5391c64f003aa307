//! The same ledger once more, and the same sections by the other profile.

ghost use Rattle.std.specs.Prelude.{◌≡◌, ◌≢◌, map, IfOk, MatchResult};
ghost use Rattle.pmf_event.specs.declared.profile.Profile.TheVariants.{Two};
ghost use Rattle.pmf_ledger.specs.Gathered.{IsUpgradeOf, upgraded};

use crate::ledger::Ledger;
use pmf_event::Profile;
use pmf_verdict::{Verdict, check};
use std::alloc::{AllocError, Global};
use std::sync::Arc;

impl Ledger {
    /// The same ledger once more. The sections are shared and their rows copied: takes memory for the list and the
    /// rows.
    pub fn copy(&self, alloc: Global) -> Result<Ledger, AllocError>
        ensures { IfOk result (λ copy. copy ≡ self.now) }
    {
        let mut verdicts = Vec::new(alloc);
        for verdict in &self.verdicts {
            verdicts.push(verdict.copy(alloc)?)?;
        }
        Ok(Ledger {
            profile: self.profile,
            verdicts,
        })
    }

    /// The ledger of the same sections by profile Two: each is checked again. A ledger of profile Two comes out
    /// equal, and takes no memory.
    ///
    /// After the refusal, which is want of memory, the ledger comes back unchanged. Takes memory for the new verdicts
    /// beside the old ones.
    pub fn upgrade(self, alloc: Global) -> Result<Ledger, (AllocError, Ledger)>
        ensures { MatchResult result (λ ledger. IsUpgradeOf self ledger)
            (λ refused. (refused.1 ≡ self) × (self.profile ≢ Two)) }
    {
        if let Profile::Two = self.profile {
            return Ok(self);
        }
        match check_again(alloc, &self.verdicts) {
            Ok(verdicts) => Ok(Ledger {
                profile: Profile::Two,
                verdicts,
            }),
            Err(refused) => Err((refused, self)),
        }
    }
}

// The sections of the verdicts, checked by profile Two.
fn check_again(alloc: Global, verdicts: &[Verdict]) -> Result<Vec<Verdict>, AllocError>
    ensures { IfOk result (λ again. again.items ≡ map upgraded verdicts.now) }
{
    let mut again = Vec::new(alloc);
    for verdict in verdicts {
        match check(alloc, Arc::try_clone(verdict.section())?, Profile::Two) {
            Ok(verdict) => again.push(verdict)?,
            Err(_) => return Err(AllocError),
        }
    }
    Ok(again)
}
