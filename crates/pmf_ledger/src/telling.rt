//! The report of a ledger, its summary, or its own text, written section by section.

ghost use Rattle.std.specs.Prelude.{◌≡◌, ◌*◌, ◌^◌};
ghost use Rattle.pmf_ledger.specs.Report.{IsWithin};

use crate::form::Form;
use crate::last_run::LastRun;
use crate::reporting::{push_section, push_totals};
use crate::summing::push_summarized;
use crate::totals::Totals;
use crate::writing::{push_block, push_end, version_of};
use pmf_event::Profile;
use pmf_verdict::Verdict;
use std::alloc::{AllocError, Global};

/// Writes the report of a ledger, its summary, or its own text, whose sections come one after another in the order of their names. It
/// keeps sums alone: of all sections, and of those of the last run.
#[derive(Drop)]
pub struct Teller {
    form: Form,
    totals: Totals,
    last: LastRun,
    ghost within: { IsWithin totals.sections (totals.sections * 2 ^ 64) totals },
    ghost last_within: { IsWithin totals.sections (totals.sections * 2 ^ 64) last.totals },
}

impl Teller {
    ghost use Rattle.std.specs.Prelude.{◌<◌, ◌-◌, ◌++◌, ◌∷◌, [], List, OnOk, string_bytes};
    ghost use Rattle.pmf_verdict.specs.Checked.{Checked};
    ghost use Rattle.pmf_ledger.specs.{Report.{totals_of}, declared.form.Form.{Form}, Telling.{HasTold, part_of, text_before, text_behind}};

    /// No section yet. Takes no memory.
    #[tactic(auto, unfolding(crate::specs::Report::totals_of, crate::specs::Report::rows_with_in))]
    pub fn new(form: Form) -> Teller
        ensures { HasTold form [] result }
    {
        Teller {
            form,
            totals: Totals::none(),
            last: LastRun::none(),
        }
    }

    /// Writes what stands before the sections, behind the text. Where room is refused the text may be longer.
    pub fn begin(&self, text: &mut String, profile: Profile) -> Result<(), AllocError>
        ensures { OnOk result (string_bytes text.new ≡ string_bytes text.old ++ text_before self.now.form profile) }
    {
        match self.form {
            Form::Report | Form::Summary => Ok(()),
            Form::Ledger => {
                text.push_str(version_of(profile))?;
                text.push_str("\n")?;
                Ok(())
            }
        }
    }

    /// Writes the next section. Room is refused, too, where 2^64 - 1 were told.
    pub fn tell(&mut self, text: &mut String, verdict: &Verdict) -> Result<(), AllocError>
        ensures text { (form : Form) (sections : List Checked) → HasTold form sections self.old
            → OnOk result (string_bytes text.new ≡ string_bytes text.old ++ part_of form sections verdict.now) }
        ensures told { (form : Form) (sections : List Checked) → HasTold form sections self.old
            → OnOk result (HasTold form (sections ++ verdict.now ∷ []) self.new) }
    {
        if self.totals.sections == u64::MAX {
            return Err(AllocError);
        }
        let counts = Totals::of(verdict);
        self.push_part(text, verdict, counts)?;
        self.add(verdict, counts);
        Ok(())
    }

    // Adds a section and its sums.
    #[tactic(auto, using(std::proofs::lemmas::Grind::common_steps, crate::proofs::lemmas::CountLemmas::totals_more))]
    fn add(&mut self, verdict: &Verdict, counts: Totals)
        requires counts { counts ≡ totals_of (verdict.now ∷ []) }
        requires small { IsWithin 1 (2 ^ 64) counts }
        requires few { self.old.totals.sections < 2 ^ 64 - 1 }
        ensures { (form : Form) (sections : List Checked) → HasTold form sections self.old
            → HasTold form (sections ++ verdict.now ∷ []) self.new }
    {
        self.last.add(verdict, counts);
        self.totals.add(counts);
    }

    // Writes the part of the next section.
    fn push_part(
        &self,
        text: &mut String,
        verdict: &Verdict,
        counts: Totals,
    ) -> Result<(), AllocError>
        requires { counts ≡ totals_of (verdict.now ∷ []) }
        ensures { (form : Form) (sections : List Checked) → HasTold form sections self.now
            → OnOk result (string_bytes text.new ≡ string_bytes text.old ++ part_of form sections verdict.now) }
    {
        match self.form {
            Form::Report => push_section(text, verdict, counts),
            Form::Summary => {
                self.last.end_before(text, verdict)?;
                push_summarized(text, verdict, counts)
            }
            Form::Ledger => push_block(text, verdict),
        }
    }

    /// Writes what stands behind the sections.
    #[tactic(auto, unfolding(crate::specs::Report::totals_of))]
    pub fn end(&self, text: &mut String) -> Result<(), AllocError>
        ensures { (form : Form) (sections : List Checked) → HasTold form sections self.now
            → OnOk result (string_bytes text.new ≡ string_bytes text.old ++ text_behind form sections) }
    {
        match self.form {
            Form::Report => push_totals(text, self.totals),
            Form::Summary => {
                self.last.end(text)?;
                push_totals(text, self.totals)
            }
            Form::Ledger => push_end(text, self.totals.sections),
        }
    }

    /// How many sections were told, and how their rows count.
    pub fn totals(&self) -> Totals
        ensures { (form : Form) (sections : List Checked) → HasTold form sections self.now → result ≡ totals_of sections }
    {
        self.totals
    }
}
