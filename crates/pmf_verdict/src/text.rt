//! The text of rows.

ghost use Rattle.std.specs.Prelude.{◌≡◌, ◌++◌, OnOk, IfOk, string_bytes};
ghost use Rattle.pmf_verdict.specs.{Checked.{rows_in}, Text.{text_of_pair, text_of_finding, text_of_row, text_of_rows, rows_at}};

use crate::verdict::Verdict;
use pmf_event::{Finding, Row};
use std::alloc::{AllocError, Global};

#[tactic(auto, unfolding(crate::specs::Text::text_of_pair))]
fn push_pair(text: &mut String, byte: u64, after: u64) -> Result<(), AllocError>
    ensures { OnOk result
        (string_bytes text.new ≡ string_bytes text.old ++ text_of_pair byte after) }
{
    write!(text, " byte=0x{byte:x}")?;
    write!(text, " after=0x{after:x}")
}

#[tactic(auto, unfolding(crate::specs::Text::text_of_finding))]
fn push_finding(text: &mut String, place: u32, finding: Finding) -> Result<(), AllocError>
    ensures { OnOk result
        (string_bytes text.new ≡ string_bytes text.old ++ text_of_finding place finding) }
{
    match finding {
        Finding::PersistPass => write!(text, " PERSIST PASS"),
        Finding::PersistFail { byte } => write!(
            text,
            " PERSIST FAIL byte=0x{byte:x} crash={place}"
        ),
        Finding::PersistEmpty => write!(text, " PERSIST EMPTY"),
        Finding::OrderedPass => write!(text, " ORDERED PASS"),
        Finding::OrderedFail { byte, after, crash } => {
            text.push_str(" ORDERED FAIL")?;
            push_pair(text, byte, after)?;
            write!(text, " crash={crash}")
        }
        Finding::OrderedSameLine { byte, after } => {
            text.push_str(" ORDERED SAMELINE")?;
            push_pair(text, byte, after)
        }
        Finding::OrderedEmpty => write!(text, " ORDERED EMPTY"),
        Finding::FlushDoubled { line, lines } => {
            write!(text, " FLUSH DOUBLED line=0x{line:x} lines={lines}")
        }
        Finding::FlushNeedless { line, lines } => {
            write!(text, " FLUSH NEEDLESS line=0x{line:x} lines={lines}")
        }
        Finding::NoBackup { byte } => write!(text, " STORE NOBACKUP byte=0x{byte:x}"),
        Finding::DupLog { byte } => write!(text, " TXADD DUPLOG byte=0x{byte:x}"),
        Finding::CheckPass => write!(text, " CHECKEND PASS"),
        Finding::CheckFail { byte } => write!(text, " CHECKEND FAIL byte=0x{byte:x} crash={place}"),
        Finding::TxStillOpen { depth } => write!(text, " CHECKEND TXOPEN depth={depth}"),
        Finding::Unmatched => write!(text, " TXEND UNMATCHED"),
        Finding::Outside => write!(text, " TXADD OUTSIDE"),
        Finding::Nested => write!(text, " CHECKSTART NESTED"),
        Finding::Unopened => write!(text, " CHECKEND UNOPENED"),
        Finding::Unclosed { start } => write!(text, " SECTION UNCLOSED start={start}"),
    }
}

/// Writes the text line of the row behind the text. After an `Err` some of it may stand there.
pub fn push_row(text: &mut String, row: &Row) -> Result<(), AllocError>
    ensures { OnOk result (string_bytes text.new ≡ string_bytes text.old ++ text_of_row row.now) }
{
    let place = row.place;
    write!(text, "{place}")?;
    push_finding(text, place, row.finding)?;
    text.push_str("\n")?;
    Ok(())
}

/// The rows of the verdict, one text line each. Takes memory for the text alone.
pub fn write_rows(alloc: Global, verdict: &Verdict) -> Result<Vec<u8>, AllocError>
    ensures { IfOk result (λ text. text.items ≡ text_of_rows (rows_in verdict.now)) }
{
    let mut text = String::new(alloc);
    for row in verdict.rows() {
        push_row(&mut text, row)?;
    }
    Ok(text.into_bytes())
}

/// The rows of the verdict at this place, one text line each. Looks through the rows once, and takes memory
/// for the text alone.
pub fn write_rows_at(alloc: Global, verdict: &Verdict, place: u32) -> Result<Vec<u8>, AllocError>
    ensures { IfOk result (λ text. text.items
        ≡ text_of_rows (rows_at (rows_in verdict.now) place)) }
{
    let mut text = String::new(alloc);
    for row in verdict.rows() {
        if row.place == place {
            push_row(&mut text, row)?;
        }
    }
    Ok(text.into_bytes())
}

#[cfg(test)]
mod tests;
