//! The text of one row: its records, its cause, and what cures it.

ghost use Rattle.std.specs.Prelude.{◌≡◌, ◌++◌, OnOk, IfOk, option_copied, string_bytes, flat_map, codes};
ghost use Rattle.pmf_why.specs.{Reasons.{stands_at}, Rows.{bad_of}, WhyText.{record_at, text_of_cause, text_of_cure, text_of_cured, text_of_edit, text_of_edits, text_of_kept, text_of_lack, text_of_last, text_of_late_fence, text_with, text_of_more, text_of_place, text_of_reason, text_of_record, text_of_records, text_of_section}};

use crate::cure::Way;
use crate::kind::stands_at;
use crate::row::BadRow;
use pmf_cause::{Cause, Edit, Lack, Need, asks_byte};
use pmf_event::{Finding, Name, Row};
use pmf_query::{Located, push_ascii};
use pmf_storelog::push_event;
use pmf_verdict::push_row;
use std::alloc::{AllocError, Global};

/// How many bytes of a record are written at most.
pub const SHOWN: usize = 160;

/// The text of a row, with its cause and these changes.
#[tactic(auto, unfolding(crate::specs::WhyText::text_of_reason))]
pub(crate) fn reason_text(
    alloc: Global,
    bad: &BadRow<'_, '_>,
    edits: &[Edit],
    way: Way,
) -> Result<String, AllocError>
    ensures { IfOk result (λ text. string_bytes text ≡ text_of_reason (bad_of bad.now) edits.now way) }
{
    let mut text = String::new(alloc);
    let stands = bad.taken.stands;
    push_section(&mut text, bad.taken.verdict.name())?;
    push_row(&mut text, &bad.row)?;
    push_records(&mut text, stands, &bad.row, bad.cause)?;
    text.push_str("  cause    ")?;
    push_cause(&mut text, stands, bad.cause)?;
    text.push_str("\n  cure     ")?;
    push_cure(&mut text, stands, bad.row.finding, edits, way)?;
    Ok(text)
}

/// How many rows more are like the row of this section, where so many are in all.
#[tactic(auto, unfolding(crate::specs::WhyText::text_of_more))]
pub(crate) fn push_more(
    text: &mut String,
    name: Name,
    row: &Row,
    count: usize,
) -> Result<(), AllocError>
    ensures { OnOk result (string_bytes text.new ≡ string_bytes text.old ++ text_of_more name row.now count) }
{
    if count <= 1 {
        return Ok(());
    }
    let more = count - 1;
    write!(text, "{more} more like ")?;
    push_section(text, name)?;
    push_row(text, row)
}

#[tactic(auto, unfolding(crate::specs::WhyText::text_of_section))]
fn push_section(text: &mut String, name: Name) -> Result<(), AllocError>
    ensures { OnOk result (string_bytes text.new ≡ string_bytes text.old ++ text_of_section name) }
{
    let Name { run, number } = name;
    write!(text, "{run}.{number} ")
}

#[tactic(auto, unfolding(crate::specs::WhyText::text_of_records))]
fn push_records(
    text: &mut String,
    stands: &[Located<'_>],
    row: &Row,
    cause: Cause,
) -> Result<(), AllocError>
    ensures { OnOk result (string_bytes text.new ≡ string_bytes text.old ++ text_of_records stands.now row.now cause) }
{
    match cause {
        Cause::NotDurable { need, .. } => {
            text.push_str("  lost     ")?;
            push_record(text, stands_at(stands, need.last))?;
            push_kept(text, stands, row.finding, need)
        }
        _ => {
            text.push_str("  event    ")?;
            push_record(text, stands_at(stands, row.place))
        }
    }
}

#[tactic(auto, unfolding(crate::specs::WhyText::text_of_kept))]
fn push_kept(
    text: &mut String,
    stands: &[Located<'_>],
    finding: Finding,
    need: Need,
) -> Result<(), AllocError>
    ensures { OnOk result (string_bytes text.new ≡ string_bytes text.old ++ text_of_kept stands.now finding need) }
{
    match finding {
        Finding::OrderedFail { .. } | Finding::OrderedSameLine { .. } => {
            text.push_str("  kept     ")?;
            push_record(text, stands_at(stands, need.due))
        }
        _ => Ok(()),
    }
}

#[tactic(auto, unfolding(crate::specs::WhyText::text_of_record))]
fn push_record(text: &mut String, located: Option<Located<'_>>) -> Result<(), AllocError>
    ensures { OnOk result (string_bytes text.new ≡ string_bytes text.old ++ text_of_record located.entry) }
{
    match located {
        Some(located) => {
            let record = located.record;
            write!(text, "record {record} ")?;
            push_ascii(text, located.text, SHOWN)?;
            text.push_str("\n")
        }
        None => text.push_str("the section's end\n"),
    }
}

// The number of the record that gave the event at the place, or 0.
fn record_at(stands: &[Located<'_>], place: u32) -> u64
    ensures { result ≡ record_at stands.now place }
{
    match stands_at(stands, place) {
        Some(located) => located.record,
        None => 0,
    }
}

#[tactic(auto, unfolding(crate::specs::WhyText::text_of_cause))]
fn push_cause(text: &mut String, stands: &[Located<'_>], cause: Cause) -> Result<(), AllocError>
    ensures { OnOk result (string_bytes text.new ≡ string_bytes text.old ++ text_of_cause stands.now cause) }
{
    match cause {
        Cause::NotDurable { need, lack } => push_lack(text, stands, need.due, lack),
        Cause::WrittenBackBefore { by } => push_last(
            text,
            stands,
            "nothing to write back: the line was neither stored to nor written back before",
            "written back already, by record ",
            by,
        ),
        Cause::BackedUpBefore { by } => {
            push_with(text, stands, "backed up already, by record ", by, "")
        }
        Cause::NotBackedUp { begin } => push_with(
            text,
            stands,
            "not backed up in the transaction that record ",
            begin,
            " began",
        ),
        Cause::TransactionRuns { begin } => push_with(
            text,
            stands,
            "the transaction that record ",
            begin,
            " began has not ended",
        ),
        Cause::NoTransaction { ended } => push_last(
            text,
            stands,
            "no transaction has begun",
            "no transaction runs: the last one ended by record ",
            ended,
        ),
        Cause::ScopeOpen { start } => push_with(
            text,
            stands,
            "the scope that record ",
            start,
            " opened is still open",
        ),
        Cause::NoScope { ended } => push_last(
            text,
            stands,
            "no scope has been opened",
            "no scope is open: the last one was closed by record ",
            ended,
        ),
    }
}

#[tactic(auto, unfolding(crate::specs::WhyText::text_of_lack))]
fn push_lack(
    text: &mut String,
    stands: &[Located<'_>],
    due: u32,
    lack: Lack,
) -> Result<(), AllocError>
    ensures { OnOk result (string_bytes text.new ≡ string_bytes text.old ++ text_of_lack stands.now due lack) }
{
    match lack {
        Lack::StoredBehind => push_with(
            text,
            stands,
            "stored behind record ",
            due,
            ", in front of which it had to be durable",
        ),
        Lack::OneStore => {
            text.push_str("one store writes both bytes, so that no write-back comes between")
        }
        Lack::NotWrittenBack => {
            text.push_str("not written back: no write-back of its line behind the store")
        }
        Lack::WrittenBackLate { by } => {
            push_with(
                text,
                stands,
                "not written back before record ",
                due,
                ": too late by record ",
            )?;
            push_with(text, stands, "", by, "")
        }
        Lack::NotFenced { by } => push_with(
            text,
            stands,
            "not fenced: written back by record ",
            by,
            ", and no fence follows",
        ),
        Lack::FencedLate { by, fence } => {
            push_with(text, stands, "not fenced: written back by record ", by, "")?;
            push_late_fence(text, stands, due, fence)
        }
    }
}

#[tactic(auto, unfolding(crate::specs::WhyText::text_of_late_fence))]
fn push_late_fence(
    text: &mut String,
    stands: &[Located<'_>],
    due: u32,
    fence: u32,
) -> Result<(), AllocError>
    ensures { OnOk result (string_bytes text.new ≡ string_bytes text.old ++ text_of_late_fence stands.now due fence) }
{
    push_with(
        text,
        stands,
        ", no fence before record ",
        due,
        "; too late by record ",
    )?;
    push_with(text, stands, "", fence, "")
}

// Either words alone, or others with the record that gave the event at the place.
#[tactic(auto, unfolding(crate::specs::WhyText::text_of_last))]
fn push_last(
    text: &mut String,
    stands: &[Located<'_>],
    none: &str,
    some: &str,
    place: u32,
) -> Result<(), AllocError>
    ensures { OnOk result (string_bytes text.new ≡ string_bytes text.old ++ text_of_last stands.now none.now some.now place) }
{
    if place == 0 {
        return text.push_str(none);
    }
    push_with(text, stands, some, place, "")
}

// Words, the number of the record that gave the event at the place, and more words.
#[tactic(auto, unfolding(crate::specs::WhyText::text_with))]
fn push_with(
    text: &mut String,
    stands: &[Located<'_>],
    front: &str,
    place: u32,
    behind: &str,
) -> Result<(), AllocError>
    ensures { OnOk result (string_bytes text.new ≡ string_bytes text.old ++ text_with stands.now front.now place behind.now) }
{
    text.push_str(front)?;
    let record = record_at(stands, place);
    write!(text, "{record}")?;
    text.push_str(behind)
}

#[tactic(auto, unfolding(crate::specs::WhyText::text_of_cure))]
fn push_cure(
    text: &mut String,
    stands: &[Located<'_>],
    finding: Finding,
    edits: &[Edit],
    way: Way,
) -> Result<(), AllocError>
    ensures { OnOk result (string_bytes text.new ≡ string_bytes text.old ++ text_of_cure stands.now finding edits.now way) }
{
    match way {
        Way::NotFound => {}
        Way::Alone | Way::WithAll => push_edits(text, stands, edits)?,
    }
    text.push_str(words_of_cured(finding, way))
}

// What is told of a row with this finding behind its cure.
fn words_of_cured(finding: Finding, way: Way) -> &'static str
    ensures { result.now ≡ text_of_cured finding way }
{
    match (asks_byte(finding), way) {
        (_, Way::NotFound) => "none found\n",
        (true, Way::Alone) => "this row then passes\n",
        (false, Way::Alone) => "this row is then gone\n",
        (true, Way::WithAll) => "with all cures this row passes\n",
        (false, Way::WithAll) => "with all cures this row is gone\n",
    }
}

#[tactic(auto, unfolding(crate::specs::WhyText::text_of_edits))]
fn push_edits(text: &mut String, stands: &[Located<'_>], edits: &[Edit]) -> Result<(), AllocError>
    ensures { OnOk result (string_bytes text.new ≡ string_bytes text.old ++ text_of_edits stands.now edits.now) }
{
    for edit in edits {
        push_edit(text, stands, edit)?;
        text.push_str("           ")?;
    }
    Ok(())
}

#[tactic(auto, unfolding(crate::specs::WhyText::text_of_edit))]
fn push_edit(text: &mut String, stands: &[Located<'_>], edit: &Edit) -> Result<(), AllocError>
    ensures { OnOk result (string_bytes text.new ≡ string_bytes text.old ++ text_of_edit stands.now edit.now) }
{
    match edit {
        Edit::Put { before, event } => {
            push_place(text, stands_at(stands, *before))?;
            push_event(text, event)
        }
        Edit::LeaveOut { place } => { push_with(text, stands, "leave out record ", *place, "\n") }
    }
}

#[tactic(auto, unfolding(crate::specs::WhyText::text_of_place))]
fn push_place(text: &mut String, located: Option<Located<'_>>) -> Result<(), AllocError>
    ensures { OnOk result (string_bytes text.new ≡ string_bytes text.old ++ text_of_place located.entry) }
{
    match located {
        Some(located) => {
            let record = located.record;
            write!(text, "before record {record}: ")
        }
        None => text.push_str("at the end: "),
    }
}
