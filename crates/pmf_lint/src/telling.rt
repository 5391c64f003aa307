//! The text that tells what a log holds, and its warnings.

ghost use Rattle.std.specs.Prelude.{◌≡◌, ◌++◌, IfOk, OnOk, flat_map, string_bytes};
ghost use Rattle.pmf_lint.specs.{LintText.{hint_of, line_of_assertions, line_of_counts, line_of_fences, line_of_known, line_of_left, line_of_named, line_of_others, line_of_skipped, line_of_stores, line_of_unnamed, lines_of_asserted, lines_of_listing, lines_of_names, lines_of_records, lines_of_warnings, shown_name, text_of_lint, warned}, Nearness.{near_of}};

use crate::lint::Lint;
use crate::listing::Listing;
use crate::naming::Named;
use crate::nearness::near;
use crate::storing::StoreNames;
use crate::summing::Sums;
use crate::upkeep::Upkeep;
use crate::warnings::Warnings;
use pmf_query::push_ascii;
use std::alloc::{AllocError, Global};

/// How many bytes of a name are written at most.
pub const SHOWN: usize = 64;

/// The text that tells what a log holds, and which stores lack something: ASCII, in text lines that LF ends. Takes memory for the text
/// alone.
#[tactic(auto, unfolding(crate::specs::LintText::text_of_lint))]
pub fn lint_text(
    alloc: Global,
    lint: &Lint<'_>,
    names: &StoreNames<'_>,
) -> Result<Vec<u8>, AllocError>
    ensures { IfOk result (λ text. text.items ≡ text_of_lint lint.now names.now) }
{
    let mut text = String::new(alloc);
    push_counts(&mut text, lint)?;
    push_all_known(&mut text, &lint.known)?;
    push_all_skipped(&mut text, &lint.listed)?;
    push_others(&mut text, lint.others)?;
    push_assertions(&mut text, lint.sums)?;
    push_stores(&mut text, lint.sums)?;
    push_left(&mut text, lint.sums.upkeep)?;
    push_fences(&mut text, lint.sums.upkeep)?;
    push_names(&mut text, names)?;
    push_warnings(&mut text, "", lint.warnings)?;
    Ok(text.into_bytes())
}

fn push_counts(text: &mut String, lint: &Lint<'_>) -> Result<(), AllocError>
    ensures { OnOk result (string_bytes text.new
        ≡ string_bytes text.old ++ line_of_counts lint.now) }
{
    let (records, events) = (lint.records, lint.sums.events);
    let (sections, skipped) = (lint.sections, lint.skipped);
    write!(
        text,
        "records={records} events={events} sections={sections} skipped={skipped}\n"
    )
}

fn push_all_known(text: &mut String, counts: &[Named<'_>]) -> Result<(), AllocError>
    ensures { OnOk result (string_bytes text.new
        ≡ string_bytes text.old ++ flat_map (λ c. line_of_known c) counts.now) }
{
    for named in counts {
        push_known(text, named)?;
    }
    Ok(())
}

fn push_all_skipped(text: &mut String, counts: &[Named<'_>]) -> Result<(), AllocError>
    ensures { OnOk result (string_bytes text.new
        ≡ string_bytes text.old ++ flat_map (λ c. line_of_skipped c) counts.now) }
{
    for named in counts {
        push_skipped(text, named)?;
    }
    Ok(())
}

#[tactic(auto, unfolding(crate::specs::LintText::line_of_known))]
fn push_known(text: &mut String, named: &Named<'_>) -> Result<(), AllocError>
    ensures { OnOk result (string_bytes text.new
        ≡ string_bytes text.old ++ line_of_known named.now) }
{
    let records = named.records;
    if records == 0 {
        return Ok(());
    }
    push_name(text, named.name)?;
    write!(text, " records={records}\n")
}

#[tactic(auto, unfolding(crate::specs::LintText::line_of_skipped))]
fn push_skipped(text: &mut String, named: &Named<'_>) -> Result<(), AllocError>
    ensures { OnOk result (string_bytes text.new
        ≡ string_bytes text.old ++ line_of_skipped named.now) }
{
    let records = named.records;
    text.push_str("skipped ")?;
    push_name(text, named.name)?;
    write!(text, " records={records}")?;
    push_hint(text, named.name)?;
    text.push_str("\n")
}

#[tactic(auto, unfolding(crate::specs::LintText::hint_of))]
fn push_hint(text: &mut String, name: &[u8]) -> Result<(), AllocError>
    ensures { OnOk result (string_bytes text.new
        ≡ string_bytes text.old ++ hint_of (near_of name.now)) }
{
    if let Some(known) = near(name) {
        text.push_str(" near=")?;
        push_name(text, known)?;
    }
    Ok(())
}

#[tactic(auto, unfolding(crate::specs::LintText::line_of_others))]
fn push_others(text: &mut String, others: u64) -> Result<(), AllocError>
    ensures { OnOk result (string_bytes text.new ≡ string_bytes text.old ++ line_of_others others) }
{
    if others == 0 {
        return Ok(());
    }
    write!(text, "skipped others records={others}\n")
}

#[tactic(auto, unfolding(crate::specs::LintText::line_of_assertions))]
fn push_assertions(text: &mut String, sums: Sums) -> Result<(), AllocError>
    ensures { OnOk result (string_bytes text.new
        ≡ string_bytes text.old ++ line_of_assertions sums) }
{
    let Sums {
        assertions,
        empty,
        ..
    } = sums;
    write!(text, "assertions={assertions}")?;
    write!(text, " empty={empty}\n")
}

#[tactic(auto, unfolding(crate::specs::LintText::line_of_stores))]
fn push_stores(text: &mut String, sums: Sums) -> Result<(), AllocError>
    ensures { OnOk result (string_bytes text.new ≡ string_bytes text.old ++ line_of_stores sums) }
{
    let Sums {
        stores,
        unasserted,
        ..
    } = sums;
    write!(text, "stores={stores}")?;
    write!(text, " unasserted={unasserted}\n")
}

#[tactic(auto, unfolding(crate::specs::LintText::line_of_left))]
fn push_left(text: &mut String, upkeep: Upkeep) -> Result<(), AllocError>
    ensures { OnOk result (string_bytes text.new ≡ string_bytes text.old ++ line_of_left upkeep) }
{
    let Upkeep {
        unwritten,
        unfenced,
        overwriting,
        ..
    } = upkeep;
    write!(text, "unwritten={unwritten}")?;
    write!(text, " unfenced={unfenced}")?;
    write!(text, " overwriting={overwriting}\n")
}

#[tactic(auto, unfolding(crate::specs::LintText::line_of_fences))]
fn push_fences(text: &mut String, upkeep: Upkeep) -> Result<(), AllocError>
    ensures { OnOk result (string_bytes text.new ≡ string_bytes text.old ++ line_of_fences upkeep) }
{
    let Upkeep { fences, idle, .. } = upkeep;
    write!(text, "fences={fences}")?;
    write!(text, " idle={idle}\n")
}

#[tactic(auto, unfolding(crate::specs::LintText::lines_of_names))]
fn push_names(text: &mut String, names: &StoreNames<'_>) -> Result<(), AllocError>
    ensures { OnOk result (string_bytes text.new ≡ string_bytes text.old ++ lines_of_names names.now) }
{
    push_listing(text, "unwritten", &names.unwritten)?;
    push_listing(text, "unfenced", &names.unfenced)?;
    push_listing(text, "unasserted", &names.unasserted)
}

fn push_listing(text: &mut String, kind: &str, listing: &Listing<'_>) -> Result<(), AllocError>
    ensures { OnOk result (string_bytes text.new
        ≡ string_bytes text.old ++ lines_of_listing kind.now listing.now) }
{
    push_all_named(text, kind, &listing.listed)?;
    push_unnamed(text, kind, listing.others)
}

fn push_all_named(text: &mut String, kind: &str, counts: &[Named<'_>]) -> Result<(), AllocError>
    ensures { OnOk result (string_bytes text.new
        ≡ string_bytes text.old ++ flat_map (λ c. line_of_named kind.now c) counts.now) }
{
    for named in counts {
        push_named(text, kind, named)?;
    }
    Ok(())
}

#[tactic(auto, unfolding(crate::specs::LintText::line_of_named))]
fn push_named(text: &mut String, kind: &str, named: &Named<'_>) -> Result<(), AllocError>
    ensures { OnOk result (string_bytes text.new
        ≡ string_bytes text.old ++ line_of_named kind.now named.now) }
{
    let stores = named.records;
    text.push_str(kind)?;
    text.push_str(" ")?;
    push_name(text, named.name)?;
    write!(text, " stores={stores}\n")
}

#[tactic(auto, unfolding(crate::specs::LintText::line_of_unnamed))]
fn push_unnamed(text: &mut String, kind: &str, others: u64) -> Result<(), AllocError>
    ensures { OnOk result (string_bytes text.new
        ≡ string_bytes text.old ++ line_of_unnamed kind.now others) }
{
    if others == 0 {
        return Ok(());
    }
    text.push_str(kind)?;
    write!(text, " others stores={others}\n")
}

/// Writes the warnings that are due behind the text, each as a text line behind some words. After an `Err` some of them may stand there.
pub fn push_warnings(text: &mut String, words: &str, due: Warnings) -> Result<(), AllocError>
    ensures { OnOk result (string_bytes text.new
        ≡ string_bytes text.old ++ lines_of_warnings words.now due) }
{
    push_asserted(text, words, due)?;
    push_of_records(text, words, due)
}

#[tactic(auto, unfolding(crate::specs::LintText::lines_of_asserted))]
fn push_asserted(text: &mut String, words: &str, due: Warnings) -> Result<(), AllocError>
    ensures { OnOk result (string_bytes text.new
        ≡ string_bytes text.old ++ lines_of_asserted words.now due) }
{
    push_warning(text, words, due.asserts_nothing, "nothing is asserted")?;
    push_warning(text, words, due.checks_nothing, "each assertion is empty")?;
    push_warning(
        text,
        words,
        due.is_misread,
        "an empty assertion would not be if its decimal address were hexadecimal",
    )
}

#[tactic(auto, unfolding(crate::specs::LintText::lines_of_records))]
fn push_of_records(text: &mut String, words: &str, due: Warnings) -> Result<(), AllocError>
    ensures { OnOk result (string_bytes text.new
        ≡ string_bytes text.old ++ lines_of_records words.now due) }
{
    push_warning(
        text,
        words,
        due.has_near,
        "a skipped name is near a known one",
    )?;
    push_warning(text, words, due.has_strange, "a skipped name is not text")?;
    push_warning(
        text,
        words,
        due.is_open_ended,
        "no end stands behind the last record",
    )?;
    push_warning(text, words, due.lacks_stop, "START stands without STOP")
}

fn push_warning(text: &mut String, words: &str, due: bool, warning: &str) -> Result<(), AllocError>
    ensures { OnOk result (string_bytes text.new
        ≡ string_bytes text.old ++ warned words.now due warning.now) }
{
    if !due {
        return Ok(());
    }
    text.push_str(words)?;
    text.push_str("warning: ")?;
    text.push_str(warning)?;
    text.push_str("\n")
}

fn push_name(text: &mut String, name: &[u8]) -> Result<(), AllocError>
    ensures { OnOk result (string_bytes text.new ≡ string_bytes text.old ++ shown_name name.now) }
{
    push_ascii(text, name, SHOWN)
}
