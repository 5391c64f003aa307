//! A section that was handed in, and its verdict once it is there.

ghost use Rattle.std.specs.Prelude.{◌≡◌, true, false, is_some, IfOk, IfSome, IsOk};
ghost use Rattle.pmf_verdict.specs.Checked.{checked_by};
ghost use Rattle.pmf_farm.specs.Rolls.{Keeps, Slotted};

use crate::gate::Gate;
use pmf_event::{Name, Profile, Section};
use pmf_verdict::{Verdict, check};
use std::alloc::{AllocError, Global};
use std::marker::Model;
use std::sync::Arc;

/// A section that was handed in at a place, and its verdict by a profile once it is there. Contracts see it as the
/// section checked by the profile, the place, and whether the verdict is there.
#[derive(Drop)]
pub(crate) struct Slot {
    section: Arc<Section>,
    profile: Profile,
    place: u32,
    verdict: Option<Verdict>,
}

impl Model for Slot {
    ghost Value = { Slotted };

    ghost view = { λ s. record { checked = checked_by s.profile s.section.value; place = s.place; filled = is_some s.verdict } };

    ghost invariant = { λ s. IfSome s.verdict (λ v. v ≡ checked_by s.profile s.section.value) };
}

impl Slot {
    pub(crate) fn new(section: Arc<Section>, profile: Profile, place: u32) -> Slot
        ensures { result
            ≡ record { checked = checked_by profile section.value; place = place; filled = false } }
    {
        Slot {
            section,
            profile,
            place,
            verdict: None,
        }
    }

    pub(crate) fn name(&self) -> Name
        ensures { result ≡ self.now.checked.section.name }
    {
        self.section.name()
    }

    pub(crate) fn section(&self) -> &Arc<Section>
        ensures { result.now.value ≡ self.now.checked.section }
    {
        &self.section
    }

    pub(crate) fn place(&self) -> u32
        ensures { result ≡ self.now.place }
    {
        self.place
    }

    /// Whether its verdict is there.
    pub(crate) fn is_filled(&self) -> bool
        ensures { result ≡ self.now.filled }
    {
        self.verdict.is_some()
    }

    /// Keeps the verdict, if it is one of this section by this profile.
    pub(crate) fn keep(&mut self, verdict: Verdict)
        ensures { Keeps verdict self.old self.new }
    {
        if verdict.profile() == self.profile && verdict.section().same_as(&self.section) {
            self.verdict = Some(verdict);
        }
    }

    /// The verdict, which is made here where none was kept.
    pub(crate) fn settle<G: Gate>(self, alloc: Global, gate: &G) -> Result<Verdict, AllocError>
        ensures verdict { IfOk result (λ verdict. verdict ≡ self.checked) }
        ensures kept { self.filled ≡ true → IsOk result }
    {
        let Slot {
            section,
            profile,
            place,
            verdict,
        } = self;
        if let Some(verdict) = verdict {
            return Ok(verdict);
        }
        gate.missing(place);
        match check(alloc, section, profile) {
            Ok(verdict) => Ok(verdict),
            Err(_) => Err(AllocError),
        }
    }
}
