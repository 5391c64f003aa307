//! What explains every failing row of a log, written section for section.

ghost use Rattle.std.specs.{Prelude.{◌≡◌, ◌+◌, ◌-◌, ◌++◌, ℕ, List, length, filter, map, OnOk, IfOk, flat_map, string_bytes}, Option.{option_map}};
ghost use Rattle.pmf_event.specs.declared.event.Event.{Event};
ghost use Rattle.pmf_device.specs.{Failures.{CanCountOneMore}, Pages.{WritesText, failed_puts}};
ghost use Rattle.pmf_image.specs.declared.certificate.Certificate.{Certificate};
ghost use Rattle.pmf_images.specs.Showing.{shown_of};
ghost use Rattle.pmf_verdict.specs.Explained.{certificate_of};
ghost use Rattle.pmf_query.specs.{AllExplained.{ExplainsAll, failures, fails, first_of, text_of_all, text_of_failed, text_of_name, text_of_proof}, Asking.{asked_byte, asked_of, text_if_failed}, Explanation.{bytes_of, text_of_bytes}, Refusals.{IsLogRefusal}, Streaming.{Recites, failed_answers}};

use crate::explain::{push_image, push_shown};
use crate::refusal::LogRefusal;
use crate::streaming::{StreamedQuery, Unanswered};
use pmf_device::{Page, Sink, Stop};
use pmf_event::{Finding, Name, Profile, Row, Section};
use pmf_image::Certificate;
use pmf_images::{Asked, Shown, show_all};
use pmf_request::Whole;
use pmf_storelog::read_log;
use pmf_verdict::{Outcome, Verdict, certificate_of, check, outcome_of, push_row};
use std::alloc::{AllocError, Global};
use std::sync::Arc;

/// The explanation of each row that counts as fail.
impl StreamedQuery for Whole {
    type Told = ();

    type Refusal = LogRefusal;

    ghost IsAnswer = { λ asked bytes _ text. ExplainsAll asked bytes text };

    ghost IsRefusal = { λ asked. IsLogRefusal asked.run };

    fn recite<W: Sink>(
        &self,
        alloc: Global,
        log: &[u8],
        writer: &mut W,
    ) -> Result<(), Unanswered<LogRefusal>> {
        explain_all(alloc, log, *self, writer)
    }
}

/// Writes what explains each row of the log that counts as fail, or so many of them, in the order of the report: a text line with the
/// row's section, then what `explain_text` tells of such a row. A row of the end of a section is one of them.
///
/// Each section is checked once and, where rows fail, a few walks over its events show what the images of all of them hold; its text is
/// written then. Takes memory for the events of the log, one verdict, and what is asked, shown and written of its section.
pub fn explain_all<W: Sink>(
    alloc: Global,
    log: &[u8],
    asked: Whole,
    writer: &mut W,
) -> Result<(), Unanswered<LogRefusal>>
    requires { CanCountOneMore (W.failed_calls writer.old) }
    ensures answer { Recites (λ _ text. ExplainsAll asked log.now text) (IsLogRefusal asked.run log.now) W.held writer.old writer.new result }
    ensures counted { W.failed_calls writer.new ≡ W.failed_calls writer.old + failed_answers result }
{
    let read = match read_log(alloc, log, asked.run) {
        Ok(read) => read,
        Err(fault) => return Err(Unanswered::Refused(LogRefusal::Log(fault))),
    };
    match write_sections(alloc, read.sections(), asked, writer) {
        Ok(()) => Ok(()),
        Err(stop) => Err(Unanswered::Stopped(stop)),
    }
}

// The rows that are explained, section for section.
fn write_sections<W: Sink>(
    alloc: Global,
    sections: &[Arc<Section>],
    asked: Whole,
    writer: &mut W,
) -> Result<(), Stop>
    requires { CanCountOneMore (W.failed_calls writer.old) }
    ensures text { WritesText (λ text. text ≡ text_of_all asked (map (λ s. s.value) sections.now)) (W.held writer.old) (W.held writer.new) result }
    ensures counted { W.failed_calls writer.new ≡ W.failed_calls writer.old + failed_puts result }
{
    let mut page = Page::new();
    let mut left = asked.first;
    for section in sections {
        let text = section_text(alloc, section, asked.profile, &mut left)?;
        page.put(writer, text.as_bytes())?;
    }
    Ok(())
}

// The failing rows of one section, up to so many, which are fewer then.
fn section_text(
    alloc: Global,
    section: &Arc<Section>,
    profile: Profile,
    left: &mut Option<u32>,
) -> Result<String, AllocError>
    ensures left { OnOk result (left.new ≡ option_map (λ n. n - length (failures profile section.now.value)) left.old) }
    ensures text { IfOk result (λ text. string_bytes text ≡ flat_map text_of_failed (first_of left.old (failures profile section.now.value))) }
{
    if let Some(0) = *left {
        return Ok(String::new(alloc));
    }
    let verdict = match check(alloc, Arc::try_clone(section)?, profile) {
        Ok(verdict) => verdict,
        Err(_) => return Err(AllocError),
    };
    verdict_text(alloc, &verdict, left)
}

// The same of a section that was checked.
fn verdict_text(
    alloc: Global,
    verdict: &Verdict,
    left: &mut Option<u32>,
) -> Result<String, AllocError>
    ensures left { OnOk result (left.new ≡ option_map (λ n. n - length (failures verdict.now.profile verdict.now.section)) left.old) }
    ensures text { IfOk result (λ text. string_bytes text ≡ flat_map text_of_failed (first_of left.old (failures verdict.now.profile verdict.now.section))) }
{
    let mut text = String::new(alloc);
    let rows = front_of(verdict.rows(), left);
    push_failures(alloc, &mut text, verdict, rows)?;
    Ok(text)
}

// Those of these rows of a verdict that count as fail.
fn push_failures(
    alloc: Global,
    text: &mut String,
    verdict: &Verdict,
    rows: &[Row],
) -> Result<(), AllocError>
    ensures { OnOk result (string_bytes text.new
        ≡ string_bytes text.old ++ flat_map (text_if_failed verdict.now.section.name verdict.now.section.events) rows.now) }
{
    let shown = show_all(alloc, verdict.section().events(), &all_asked(alloc, rows)?)?;
    push_rows(text, verdict.name(), rows, &shown)
}

// The rows in front of the first failing one that is too many, where so many may be told, which are fewer then.
#[tactic(auto, unfolding(crate::specs::AllExplained::first_of))]
fn front_of<'a>(rows: &'a [Row], left: &mut Option<u32>) -> &'a [Row]
    ensures left { left.new ≡ option_map (λ n. n - length (filter fails rows.now)) left.old }
    ensures front { filter fails result.now ≡ first_of left.old (filter fails rows.now) }
{
    let Some(mut more) = *left else {
        return rows;
    };
    for (index, row) in rows.iter().enumerate() {
        if fails(row) {
            let Some(fewer) = more.checked_sub(1) else {
                *left = Some(0);
                return &rows[..index];
            };
            more = fewer;
        }
    }
    *left = Some(more);
    rows
}

#[tactic(auto, unfolding(crate::specs::AllExplained::fails, pmf_verdict::specs::Outcome::is_same))]
fn fails(row: &Row) -> bool
    ensures { result ≡ fails row.now }
{
    match outcome_of(row.finding) {
        Outcome::Fail => true,
        Outcome::Pass => false,
        Outcome::Warn => false,
        Outcome::Empty => false,
    }
}

// The rows that count as fail, of which this is shown.
fn push_rows(text: &mut String, name: Name, rows: &[Row], shown: &[Shown]) -> Result<(), AllocError>
    requires { length shown.now ≡ length (flat_map asked_of rows.now) }
    ensures { (es : List Event) → shown.now ≡ map (shown_of es) (flat_map asked_of rows.now)
        → OnOk result (string_bytes text.new ≡ string_bytes text.old ++ flat_map (text_if_failed name es) rows.now) }
{
    let mut rest = shown;
    for row in rows {
        let (own, others) = rest.split_at(count_asked(row));
        push_if_failed(text, name, row, own)?;
        rest = others;
    }
    Ok(())
}

// The row, if it counts as fail, of which this is shown.
#[tactic(auto, unfolding(crate::specs::Asking::text_if_failed))]
fn push_if_failed(
    text: &mut String,
    name: Name,
    row: &Row,
    shown: &[Shown],
) -> Result<(), AllocError>
    requires { length shown.now ≡ length (asked_of row.now) }
    ensures { (es : List Event) → shown.now ≡ map (shown_of es) (asked_of row.now)
        → OnOk result (string_bytes text.new ≡ string_bytes text.old ++ text_if_failed name es row.now) }
{
    if !fails(row) {
        return Ok(());
    }
    push_failed(text, name, row, shown)
}

// A failing row: its section, its text line, and its image, of which this is shown.
#[tactic(auto, unfolding(crate::specs::AllExplained::text_of_failed))]
fn push_failed(text: &mut String, name: Name, row: &Row, shown: &[Shown]) -> Result<(), AllocError>
    requires { length shown.now ≡ length (asked_of row.now) }
    ensures { (es : List Event) → shown.now ≡ map (shown_of es) (asked_of row.now)
        → OnOk result (string_bytes text.new ≡ string_bytes text.old ++ text_of_failed (record { section = record { name = name; events = es }; row = row.now })) }
{
    push_name(text, name)?;
    push_row(text, row)?;
    push_proof(text, row, shown)?;
    Ok(())
}

#[tactic(auto, unfolding(crate::specs::AllExplained::text_of_name))]
fn push_name(text: &mut String, name: Name) -> Result<(), AllocError>
    ensures { OnOk result (string_bytes text.new ≡ string_bytes text.old ++ text_of_name name) }
{
    let run = name.run;
    let number = name.number;
    write!(text, "section {run}.{number}\n")
}

// What the image of the row's certificate holds of its bytes, if it has one, of which this is shown.
fn push_proof(text: &mut String, row: &Row, shown: &[Shown]) -> Result<(), AllocError>
    requires { length shown.now ≡ length (asked_of row.now) }
    ensures { (es : List Event) → shown.now ≡ map (shown_of es) (asked_of row.now)
        → OnOk result (string_bytes text.new ≡ string_bytes text.old
        ++ text_of_proof es row.now (certificate_of row.now.place row.now.finding)) }
{
    match certificate_of(row.place, row.finding) {
        Some(certificate) => {
            push_image(text, certificate)?;
            push_all_shown(text, row, shown)?;
            Ok(())
        }
        None => text.push_str("no image\n"),
    }
}

// What is shown of each byte that the row names.
#[tactic(auto, unfolding(crate::specs::Explanation::text_of_bytes, crate::specs::Explanation::text_of_byte, crate::specs::Asking::text_of_shown))]
fn push_all_shown(text: &mut String, row: &Row, shown: &[Shown]) -> Result<(), AllocError>
    requires { length shown.now ≡ length (bytes_of row.now.finding) }
    ensures { (es : List Event) (c : Certificate) (p : ℕ) → shown.now ≡ map (shown_of es) (map (asked_byte c p) (bytes_of row.now.finding))
        → OnOk result (string_bytes text.new ≡ string_bytes text.old ++ text_of_bytes es c p row.now) }
{
    match row.finding {
        Finding::PersistFail { byte } => push_shown(text, byte, shown[0]),
        Finding::OrderedFail { byte, after, .. } => {
            push_shown(text, byte, shown[0])?;
            push_shown(text, after, shown[1])
        }
        Finding::CheckFail { byte } => push_shown(text, byte, shown[0]),
        _ => Ok(()),
    }
}

// What is asked of images for the rows.
fn all_asked(alloc: Global, rows: &[Row]) -> Result<Vec<Asked>, AllocError>
    ensures { IfOk result (λ asked. asked.items ≡ flat_map asked_of rows.now) }
{
    let mut asked = Vec::new(alloc);
    for row in rows {
        if let Some(certificate) = certificate_of(row.place, row.finding) {
            push_asked(&mut asked, certificate, row)?;
        }
    }
    Ok(asked)
}

// What is asked of the image of the certificate for the row.
fn push_asked(asked: &mut Vec<Asked>, certificate: Certificate, row: &Row) -> Result<(), AllocError>
    ensures { OnOk result (asked.new.items ≡ asked.old.items ++ map (asked_byte certificate row.now.place) (bytes_of row.now.finding)) }
{
    let place = row.place;
    match row.finding {
        Finding::PersistFail { byte } | Finding::CheckFail { byte } => asked.push(Asked {
            certificate,
            place,
            byte,
        })?,
        Finding::OrderedFail { byte, after, .. } => {
            asked.push(Asked {
                certificate,
                place,
                byte,
            })?;
            asked.push(Asked {
                certificate,
                place,
                byte: after,
            })?;
        }
        _ => {}
    }
    Ok(())
}

// How much is asked for the row.
fn count_asked(row: &Row) -> usize
    ensures { result ≡ length (asked_of row.now) }
{
    match row.finding {
        Finding::PersistFail { .. } | Finding::CheckFail { .. } => 1,
        Finding::OrderedFail { .. } => 2,
        _ => 0,
    }
}
