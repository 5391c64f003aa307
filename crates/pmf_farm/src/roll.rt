//! The sections that were handed in, in the order of their names.

ghost use Rattle.std.specs.{Prelude.{◌≡◌, ◌≤◌, All, map, length, vec_len, IfOk, IfErr, IsPermutation}, List.{AllZip}};
ghost use Rattle.pmf_ledger.specs.Repeats.{HaveOwnNames};
ghost use Rattle.pmf_farm.specs.Rolls.{IsRepeatOf, Keeps, RollRises, slots_by};

use crate::fault::FarmFault;
use crate::slot::Slot;
use pmf_event::{Profile, Section};
use pmf_ledger::least_repeat;
use pmf_verdict::Verdict;
use std::alloc::{AllocError, Global};
use std::sync::Arc;

// A slot for each section, in the order in which they were handed in.
fn slots_of(
    alloc: Global,
    sections: &[Arc<Section>],
    profile: Profile,
) -> Result<Vec<Slot>, AllocError>
    requires few { length sections.now ≤ 65536 }
    ensures same { IfOk result (λ roll.
        roll.items ≡ slots_by profile (map (λ s. s.value) sections.now)) }
    ensures len { IfOk result (λ roll. vec_len roll ≡ length sections.now) }
{
    let mut roll = Vec::with_capacity(alloc, sections.len())?;
    for place in 0..sections.len() {
        let section = Arc::try_clone(&sections[place])?;
        roll.push(Slot::new(section, profile, place as u32))?;
    }
    Ok(roll)
}

/// A slot for each section, in the order of their names, unless a name stands twice. Takes a slot of memory for each
/// section.
pub(crate) fn call(
    alloc: Global,
    sections: &[Arc<Section>],
    profile: Profile,
) -> Result<Vec<Slot>, FarmFault>
    requires few { length sections.now ≤ 65536 }
    ensures same { IfOk result (λ roll.
        IsPermutation (slots_by profile (map (λ s. s.value) sections.now)) roll.items) }
    ensures profile { IfOk result (λ roll. All (λ s. s.checked.profile ≡ profile) roll.items) }
    ensures rises { IfOk result (λ roll. RollRises roll.items) }
    ensures len { IfOk result (λ roll. vec_len roll ≡ length sections.now) }
    ensures own { IfOk result (λ roll. HaveOwnNames (map (λ s. s.value) sections.now)) }
    ensures refused { IfErr result (IsRepeatOf (map (λ s. s.value) sections.now)) }
{
    if let Some(name) = least_repeat(alloc, sections)? {
        return Err(FarmFault::TwiceNamed { name });
    }
    let mut roll = slots_of(alloc, sections, profile)?;
    roll.sort_unstable_by_key(|slot| slot.name());
    Ok(roll)
}

/// Keeps the verdict in the slot of its section, if it is one of a section of the roll. Any other is dropped.
pub(crate) fn keep(roll: &mut [Slot], verdict: Verdict)
    requires { RollRises roll.old }
    ensures { AllZip (Keeps verdict) roll.old roll.new }
{
    if let Ok(place) = roll.binary_search_by_key(&verdict.name(), |slot| slot.name()) {
        roll[place].keep(verdict);
    }
}
