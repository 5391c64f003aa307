//! The run of the last section that was told, and the sums of the run.

ghost use Rattle.std.specs.Prelude.{◌≡◌, ◌≢◌, ◌⊎◌, ◌++◌, ◌∷◌, ◌-◌, ◌^◌, [], List, OnOk, Some, true, false, string_bytes};
ghost use Rattle.pmf_verdict.specs.Checked.{Checked};
ghost use Rattle.pmf_ledger.specs.{Report.{IsWithin, both, totals_of}, Telling.{IsLastRun, last_run, text_behind_run, text_between}};

use crate::summing::push_run;
use crate::totals::Totals;
use pmf_verdict::Verdict;
use std::alloc::AllocError;

/// The run of the last section that was told, and the sums of those of its sections that stand in a row up to it.
#[derive(Clone, Copy)]
pub(crate) struct LastRun {
    run: Option<u64>,
    totals: Totals,
}

impl LastRun {
    /// Of no section.
    #[tactic(auto, unfolding(crate::specs::Telling::last_run))]
    pub(crate) fn none() -> LastRun
        ensures told { IsLastRun [] result }
        ensures none { result.totals ≡ totals_of [] }
    {
        LastRun {
            run: None,
            totals: Totals::none(),
        }
    }

    /// Writes the line of its sums, if there is a run.
    #[tactic(auto, using(std::proofs::lemmas::Grind::common_steps, crate::proofs::lemmas::TellingLemmas::behind_none, crate::proofs::lemmas::TellingLemmas::behind_some))]
    pub(crate) fn end(&self, text: &mut String) -> Result<(), AllocError>
        ensures { (sections : List Checked) → IsLastRun sections self.now
            → OnOk result (string_bytes text.new ≡ string_bytes text.old ++ text_behind_run (last_run sections)) }
    {
        match self.run {
            None => Ok(()),
            Some(run) => push_run(text, run, self.totals),
        }
    }

    /// Writes it before a section of another run.
    pub(crate) fn end_before(&self, text: &mut String, verdict: &Verdict) -> Result<(), AllocError>
        ensures { (sections : List Checked) → IsLastRun sections self.now
            → OnOk result (string_bytes text.new ≡ string_bytes text.old ++ text_between (last_run sections) verdict.now) }
    {
        if self.is_of(verdict) {
            Ok(())
        } else {
            self.end(text)
        }
    }

    /// Adds a section and its sums.
    pub(crate) fn add(&mut self, verdict: &Verdict, counts: Totals)
        requires counts { counts ≡ totals_of (verdict.now ∷ []) }
        requires within { IsWithin (2 ^ 64 - 1) (2 ^ 128 - 1) (both self.old.totals counts) }
        ensures told { (sections : List Checked) → IsLastRun sections self.old → IsLastRun (sections ++ verdict.now ∷ []) self.new }
        ensures sums { (self.new.totals ≡ both self.old.totals counts) ⊎ (self.new.totals ≡ counts) }
    {
        if self.is_of(verdict) {
            self.totals.add(counts);
        } else {
            self.run = Some(verdict.name().run);
            self.totals = counts;
        }
    }

    // Whether the section is of the run.
    fn is_of(&self, verdict: &Verdict) -> bool
        ensures of { result ≡ true → self.now.run ≡ Some verdict.now.section.name.run }
        ensures other { result ≡ false → self.now.run ≢ Some verdict.now.section.name.run }
    {
        match self.run {
            None => false,
            Some(run) => run == verdict.name().run,
        }
    }
}
