//! The summary of a ledger: what fails and warns of each section, the sums of each run, and all sums.

ghost use Rattle.std.specs.Prelude.{◌≡◌, ◌++◌, ◌∷◌, [], OnOk, IfOk, filter, string_bytes};
ghost use Rattle.pmf_verdict.specs.{Checked.{rows_in}, Text.{text_of_rows}};
ghost use Rattle.pmf_ledger.specs.{Report.{totals_of}, Summary.{is_amiss, line_of_run, summary_of, text_of_summarized}};

use crate::form::Form;
use crate::ledger::Ledger;
use crate::reporting::{push_counts, push_header};
use crate::telling::Teller;
use crate::totals::Totals;
use pmf_event::Row;
use pmf_verdict::{Outcome, Verdict, outcome_of, push_row};
use std::alloc::{AllocError, Global};

impl Ledger {
    /// The summary: for each section, in the order of their names, a text line with its counts, and its rows that fail or warn; behind the
    /// sections of a run a text line with their sums; a last text line with all sums, and these. Takes memory for the text alone.
    pub fn summary(&self, alloc: Global) -> Result<(Vec<u8>, Totals), AllocError>
        ensures text { IfOk result (λ made. made.0.items ≡ summary_of self.now.sections) }
        ensures totals { IfOk result (λ made. made.1 ≡ totals_of self.now.sections) }
    {
        let mut text = String::new(alloc);
        let mut teller = Teller::new(Form::Summary);
        for verdict in &self.verdicts {
            teller.tell(&mut text, verdict)?;
        }
        teller.end(&mut text)?;
        Ok((text.into_bytes(), teller.totals()))
    }
}

/// Writes a section's header, and its rows that fail or warn.
#[tactic(auto, unfolding(crate::specs::Summary::text_of_summarized))]
pub(crate) fn push_summarized(
    text: &mut String,
    verdict: &Verdict,
    counts: Totals,
) -> Result<(), AllocError>
    requires { counts ≡ totals_of (verdict.now ∷ []) }
    ensures { OnOk result (string_bytes text.new ≡ string_bytes text.old ++ text_of_summarized verdict.now) }
{
    push_header(text, verdict, counts)?;
    push_amiss(text, verdict)?;
    Ok(())
}

// The rows of the verdict that fail or warn, one text line each.
#[tactic(auto, using(std::proofs::lemmas::Grind::common_steps, crate::proofs::lemmas::AmissLemmas::amiss_more, crate::proofs::lemmas::AmissLemmas::amiss_not))]
fn push_amiss(text: &mut String, verdict: &Verdict) -> Result<(), AllocError>
    ensures { OnOk result
        (string_bytes text.new ≡ string_bytes text.old ++ text_of_rows (filter is_amiss (rows_in verdict.now))) }
{
    for row in verdict.rows() {
        if is_amiss(row) {
            push_row(text, row)?;
        }
    }
    Ok(())
}

#[tactic(auto, unfolding(crate::specs::Summary::is_amiss, pmf_verdict::specs::Outcome::is_same))]
fn is_amiss(row: &Row) -> bool
    ensures { result ≡ is_amiss row.now }
{
    match outcome_of(row.finding) {
        Outcome::Fail | Outcome::Warn => true,
        Outcome::Pass | Outcome::Empty => false,
    }
}

/// Writes the sums of a run.
#[tactic(auto, unfolding(crate::specs::Summary::line_of_run))]
pub(crate) fn push_run(text: &mut String, run: u64, totals: Totals) -> Result<(), AllocError>
    ensures { OnOk result (string_bytes text.new ≡ string_bytes text.old ++ line_of_run run totals) }
{
    let sections = totals.sections;
    write!(text, "run {run} sections={sections}")?;
    push_counts(text, totals)
}
