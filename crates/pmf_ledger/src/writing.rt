//! The text of a ledger, from which it can be loaded.

ghost use Rattle.std.specs.Prelude.{◌≡◌, ◌≤◌, ◌++◌, OnOk, IfOk, length, All, flat_map, string_bytes};
ghost use Rattle.pmf_storelog.specs.{Canonical.{line_of_event}, Spelling.{AllValid}};
ghost use Rattle.pmf_verdict.specs.{Checked.{Checked, rows_in}, Text.{text_of_rows}};
ghost use Rattle.pmf_ledger.specs.{Loading.{LoadsAs}, Names.{Rises}, declared.loading.TheConstants.{LEDGER_LIMIT}, LedgerText.{IsSpelled, text_of_block, text_of_end, text_of_head, text_of_ledger, version_of}};

use crate::ledger::Ledger;
use pmf_event::{Events, Name, Profile};
use pmf_storelog::push_event;
use pmf_verdict::{Verdict, push_row};
use std::alloc::{AllocError, Global};

impl Ledger {
    /// The ledger text: the version, for each section in the order of their names its events and rows, and the number
    /// of sections. Takes memory for the text alone.
    pub fn write_ledger(&self, alloc: Global) -> Result<Vec<u8>, AllocError>
        ensures text { IfOk result (λ text. text.items ≡ text_of_ledger self.now) }
        // Loaded, it is this ledger, unless it is longer than such a text may be.
        ensures loads_back { IfOk result (λ text. length text.items ≤ LEDGER_LIMIT
            → LoadsAs text.items self.now) }
    {
        let text = self.spell(alloc)?;
        Ok(text)
    }

    // The same, and that each section can be spelled.
    fn spell(&self, alloc: Global) -> Result<Vec<u8>, AllocError>
        ensures text { IfOk result (λ text. text.items ≡ text_of_ledger self.now) }
        ensures spelled { OnOk result (All IsSpelled self.now.sections) }
        ensures rises { Rises self.now.sections }
        ensures checked { All (λ (c : Checked). c.profile ≡ self.now.profile) self.now.sections }
    {
        let mut text = String::new(alloc);
        text.push_str(version_of(self.profile))?;
        text.push_str("\n")?;
        push_blocks(&mut text, &self.verdicts)?;
        push_end(&mut text, self.verdicts.len() as u64)?;
        Ok(text.into_bytes())
    }
}

// The first text line of a ledger by the profile.
pub(crate) fn version_of(profile: Profile) -> &'static str
    ensures { result.now ≡ version_of profile }
{
    match profile {
        Profile::One => "PMFARM-LEDGER 1",
        Profile::Two => "PMFARM-LEDGER 2",
    }
}

#[tactic(auto, unfolding(crate::specs::LedgerText::text_of_head))]
fn push_head(text: &mut String, name: Name, events: usize, rows: usize) -> Result<(), AllocError>
    ensures { OnOk result
        (string_bytes text.new ≡ string_bytes text.old ++ text_of_head name events rows) }
{
    let run = name.run;
    let number = name.number;
    write!(text, "section {run}.{number} events={events} rows={rows}\n")
}

#[tactic(auto, unfolding(crate::specs::LedgerText::text_of_block))]
pub(crate) fn push_block(text: &mut String, verdict: &Verdict) -> Result<(), AllocError>
    ensures text { OnOk result
        (string_bytes text.new ≡ string_bytes text.old ++ text_of_block verdict.now) }
    ensures spelled { OnOk result (IsSpelled verdict.now) }
{
    let events = verdict.section().events();
    push_head(text, verdict.name(), events.len(), verdict.rows().len())?;
    push_events(text, events)?;
    push_rows(text, verdict)?;
    Ok(())
}

fn push_blocks(text: &mut String, verdicts: &[Verdict]) -> Result<(), AllocError>
    ensures text { OnOk result (string_bytes text.new
        ≡ string_bytes text.old ++ flat_map text_of_block verdicts.now) }
    ensures spelled { OnOk result (All IsSpelled verdicts.now) }
{
    for verdict in verdicts {
        push_block(text, verdict)?;
    }
    Ok(())
}

fn push_events(text: &mut String, events: &Events) -> Result<(), AllocError>
    ensures text { OnOk result (string_bytes text.new
        ≡ string_bytes text.old ++ flat_map line_of_event events.now) }
    ensures valid { OnOk result (All AllValid events.now) }
{
    for index in 0..events.len() {
        push_event(text, &events.at(index))?;
    }
    Ok(())
}

// The rows of the verdict, one text line each.
pub(crate) fn push_rows(text: &mut String, verdict: &Verdict) -> Result<(), AllocError>
    ensures { OnOk result
        (string_bytes text.new ≡ string_bytes text.old ++ text_of_rows (rows_in verdict.now)) }
{
    for row in verdict.rows() {
        push_row(text, row)?;
    }
    Ok(())
}

/// Writes the last text line of a ledger of so many blocks, behind the text. Where room is refused the text may be longer.
#[tactic(auto, unfolding(crate::specs::LedgerText::text_of_end))]
pub fn push_end(text: &mut String, blocks: u64) -> Result<(), AllocError>
    ensures { OnOk result
        (string_bytes text.new ≡ string_bytes text.old ++ text_of_end blocks) }
{
    write!(text, "end verdicts={blocks}\n")
}
