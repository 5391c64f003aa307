//! The report of a ledger: a text line for each section, its rows, and the sums.

ghost use Rattle.std.specs.Prelude.{◌≡◌, ◌++◌, ◌∷◌, [], map, Some, OnOk, IfOk, string_bytes};
ghost use Rattle.pmf_ledger.specs.{Report.{report_of, text_of_counts, text_of_header, text_of_section, text_of_totals, totals_of}, ReportTold.{FitsTotals, sections_told, shown, totals_told}};

use crate::fitting::sections_fit;
use crate::ledger::Ledger;
use crate::totals::Totals;
use crate::writing::push_rows;
use pmf_verdict::Verdict;
use std::alloc::{AllocError, Global};

impl Ledger {
    /// How many sections it holds, and how their rows count. Looks through all rows once.
    #[tactic(auto, using(std::proofs::lemmas::Grind::common_steps, crate::proofs::lemmas::CountLemmas::Sums_more, crate::proofs::lemmas::CountLemmas::IsWithin_all))]
    pub fn totals(&self) -> Totals
        ensures { result ≡ totals_of self.now.sections }
    {
        let mut totals = Totals::none();
        for verdict in &self.verdicts {
            totals.add(Totals::of(verdict));
        }
        totals
    }

    /// The report: for each section, in the order of their names, a text line with its counts and its rows, and a
    /// last text line with the sums. Takes memory for the text alone.
    pub fn write_report(&self, alloc: Global) -> Result<Vec<u8>, AllocError>
        ensures text { IfOk result (λ text. text.items ≡ report_of self.now.sections) }
        ensures told { IfOk result (λ text. sections_told text.items ≡ map shown self.now.sections) }
    {
        let (text, _) = self.report(alloc)?;
        Ok(text)
    }

    /// The report, and the sums of its last text line. Looks through all rows once to count them, and once to write
    /// them. Takes memory for the text alone.
    #[tactic(auto, using(std::proofs::lemmas::Grind::common_steps, crate::proofs::lemmas::ReportToldLemmas::reports_tell_totals, crate::proofs::lemmas::ReportToldLemmas::reports_tell_sections))]
    pub fn report(&self, alloc: Global) -> Result<(Vec<u8>, Totals), AllocError>
        ensures text { IfOk result (λ made. made.0.items ≡ report_of self.now.sections) }
        // Read line by line, it tells these sections, each with its own rows, and their sums.
        ensures told { IfOk result (λ made. sections_told made.0.items ≡ map shown self.now.sections) }
        ensures told_totals { IfOk result (λ made. FitsTotals (totals_of self.now.sections) → totals_told made.0.items ≡ Some (totals_of self.now.sections)) }
        ensures totals { IfOk result (λ made. made.1 ≡ totals_of self.now.sections) }
    {
        sections_fit(self.verdicts());
        let made = self.written(alloc)?;
        Ok(made)
    }

    #[tactic(auto, using(std::proofs::lemmas::Grind::common_steps, crate::proofs::lemmas::CountLemmas::Sums_more, crate::proofs::lemmas::CountLemmas::IsWithin_all))]
    fn written(&self, alloc: Global) -> Result<(Vec<u8>, Totals), AllocError>
        ensures text { IfOk result (λ made. made.0.items ≡ report_of self.now.sections) }
        ensures totals { IfOk result (λ made. made.1 ≡ totals_of self.now.sections) }
    {
        let mut text = String::new(alloc);
        let mut totals = Totals::none();
        for verdict in &self.verdicts {
            let counts = Totals::of(verdict);
            push_section(&mut text, verdict, counts)?;
            totals.add(counts);
        }
        push_totals(&mut text, totals)?;
        Ok((text.into_bytes(), totals))
    }
}

#[tactic(auto, unfolding(crate::specs::Report::text_of_counts))]
pub(crate) fn push_counts(text: &mut String, counts: Totals) -> Result<(), AllocError>
    ensures { OnOk result
        (string_bytes text.new ≡ string_bytes text.old ++ text_of_counts counts) }
{
    let Totals {
        pass,
        fail,
        warn,
        empty,
        ..
    } = counts;
    write!(text, " pass={pass} fail={fail} warn={warn} empty={empty}\n")
}

#[tactic(auto, unfolding(crate::specs::Report::text_of_header))]
pub(crate) fn push_header(
    text: &mut String,
    verdict: &Verdict,
    counts: Totals,
) -> Result<(), AllocError>
    requires { counts ≡ totals_of (verdict.now ∷ []) }
    ensures { OnOk result
        (string_bytes text.new ≡ string_bytes text.old ++ text_of_header verdict.now) }
{
    let name = verdict.name();
    let run = name.run;
    let number = name.number;
    let events = verdict.section().events().len();
    write!(text, "section {run}.{number} events={events}")?;
    push_counts(text, counts)
}

#[tactic(auto, unfolding(crate::specs::Report::text_of_section))]
pub(crate) fn push_section(
    text: &mut String,
    verdict: &Verdict,
    counts: Totals,
) -> Result<(), AllocError>
    requires { counts ≡ totals_of (verdict.now ∷ []) }
    ensures { OnOk result
        (string_bytes text.new ≡ string_bytes text.old ++ text_of_section verdict.now) }
{
    push_header(text, verdict, counts)?;
    push_rows(text, verdict)?;
    Ok(())
}

#[tactic(auto, unfolding(crate::specs::Report::text_of_totals))]
pub(crate) fn push_totals(text: &mut String, totals: Totals) -> Result<(), AllocError>
    ensures { OnOk result
        (string_bytes text.new ≡ string_bytes text.old ++ text_of_totals totals) }
{
    let sections = totals.sections;
    write!(text, "total sections={sections}")?;
    push_counts(text, totals)
}
