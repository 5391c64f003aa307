//! A section with the rows that the checker gives it.

ghost use Rattle.std.specs.Prelude.{◌≡◌, ◌↔◌, IsTrue, IfOk};
ghost use Rattle.pmf_verdict.specs.{Checked.{Checked, rows_in}, Rows.{rows_of}, Explained.{FailuresAreReal}, Kept.{IsTold}, Sound.{PersistsHold, OrdersHold, ScopesHold}, Exact.{IsExact, SameLinesAreOneStore}};

use pmf_event::{Name, Profile, Row, Rows, Section};
use std::alloc::{AllocError, Global};
use std::marker::Model;
use std::sync::Arc;

/// A section, a profile, and the rows of the section's own events by that profile. Contracts see it
/// as the section and the profile.
#[derive(Debug, Drop)]
pub struct Verdict {
    section: Arc<Section>,
    profile: Profile,
    rows: Rows,
}

impl Model for Verdict {
    ghost Value = { Checked };

    ghost view = { λ v. record { section = v.section.value; profile = v.profile } };

    ghost invariant = { λ v. v.rows ≡ rows_of v.profile v.section.value.events };
}

impl Verdict {
    pub(crate) fn of_rows(section: Arc<Section>, profile: Profile, rows: Rows) -> Verdict
        requires { rows ≡ rows_of profile section.value.events }
        ensures { result ≡ record { section = section.value; profile = profile } }
    {
        Verdict {
            section,
            profile,
            rows,
        }
    }

    /// The name of the section.
    pub fn name(&self) -> Name
        ensures { result ≡ self.now.section.name }
    {
        self.section.name()
    }

    /// The section.
    pub fn section(&self) -> &Arc<Section>
        ensures { result.now.value ≡ self.now.section }
    {
        &self.section
    }

    /// The profile by which it was checked.
    pub fn profile(&self) -> Profile
        ensures { result ≡ self.now.profile }
    {
        self.profile
    }

    /// Whether both are of one section: the same name and the same events.
    pub fn same_section(&self, other: &Verdict) -> bool
        ensures { IsTrue result ↔ (self.now.section ≡ other.now.section) }
    {
        self.section.same_as(&other.section)
    }

    /// The same verdict once more. The section is shared and the rows are copied: takes memory for the rows.
    pub fn copy(&self, alloc: Global) -> Result<Verdict, AllocError>
        ensures { IfOk result (λ copy. copy ≡ self.now) }
    {
        let rows = copy_rows(alloc, self.rows.as_slice())?;
        let section = Arc::try_clone(&self.section)?;
        Ok(Verdict::of_rows(section, self.profile, rows))
    }

    /// The rows of the section, in the order of its events, and then that of its end.
    pub fn rows(&self) -> &[Row]
        ensures value { result.now ≡ rows_in self.now }
        // What is shown as passed holds in every crash image that the rules allow.
        ensures sound { PersistsHold self.now.section.events result.now }
        ensures sound_orders { OrdersHold self.now.section.events result.now }
        ensures sound_scopes { ScopesHold self.now.section.events result.now }
        // What is shown as failed has an allowed image that contradicts it.
        ensures real { FailuresAreReal self.now.section.events result.now }
        // So they say which assertions hold.
        ensures exact { IsExact self.now.profile self.now.section.events result.now }
        ensures same_lines { SameLinesAreOneStore self.now.profile self.now.section.events result.now }
        // Without one that counts as FAIL all that is asserted holds, and without an EMPTY each assertion had something to check.
        ensures told { IsTold self.now.section.events result.now }
    {
        self.rows.as_slice()
    }
}

fn copy_rows(alloc: Global, rows: &[Row]) -> Result<Rows, AllocError>
    ensures { IfOk result (λ copy. copy ≡ rows.now) }
{
    let mut copy = Rows::new(alloc);
    for row in rows {
        copy.push(*row)?;
    }
    Ok(copy)
}
