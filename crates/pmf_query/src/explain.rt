//! The text that explains one place of a section.

ghost use Rattle.std.specs.Prelude.{◌≡◌, ◌≤◌, ◌++◌, length, OnOk, IfOk, MatchResult, string_bytes};
ghost use Rattle.pmf_image.specs.Certificate.{Fits};
ghost use Rattle.pmf_verdict.specs.Checked.{rows_in};
ghost use Rattle.pmf_query.specs.{Asking.{text_of_shown}, Explanation.{ExplainsPlace, IsExplanation, text_of_byte, text_of_bytes, text_of_image, text_of_line, text_of_certificate}, Refusals.{IsEventFault, IsEventRefusal}};

use crate::query::{Answer, Query};
use crate::refusal::{EventFault, EventRefusal};
use crate::section::section_with;
use pmf_event::{Events, Finding, Profile, Row, line_of};
use pmf_image::{Certificate, cut, last_store, shows};
use pmf_images::Shown;
use pmf_request::{Question, Sought};
use pmf_storelog::read_log;
use pmf_verdict::{Verdict, check, explain, write_rows_at};
use std::alloc::{AllocError, Global};
use std::sync::Arc;

/// The explanation of one event.
impl Query for Question {
    type Told = ();

    type Refusal = EventRefusal;

    ghost IsAnswer = { λ asked bytes _ text. IsExplanation asked.run asked.section asked.event asked.profile bytes text };

    ghost IsRefusal = { λ asked. IsEventRefusal (record { run = asked.run; section = asked.section; event = asked.event }) };

    fn answer(&self, alloc: Global, log: &[u8]) -> Result<Answer<()>, EventRefusal> {
        let Question {
            run,
            profile,
            section,
            event,
        } = *self;
        match explain_text(alloc, log, run, section, event, profile) {
            Ok(text) => Ok(Answer { told: (), text }),
            Err(fault) => Err(EventRefusal {
                sought: Sought {
                    run,
                    section,
                    event,
                },
                fault,
            }),
        }
    }
}

/// The text that explains this event of the section: the rows at its place, counted from 1, and where one of
/// them is a FAIL with a certificate, what its image holds of the bytes that the row names. Reads the whole log,
/// whose sections are those of the run, and checks this section and no other.
///
/// Takes memory for the events of the log, the verdict and the text.
pub fn explain_text(
    alloc: Global,
    log: &[u8],
    run: u64,
    section: u64,
    event: u32,
    profile: Profile,
) -> Result<Vec<u8>, EventFault>
    ensures { MatchResult result
        (λ text. IsExplanation run section event profile log.now text.items)
        (IsEventFault run section event log.now) }
{
    let log = match read_log(alloc, log, run) {
        Ok(log) => log,
        Err(fault) => return Err(EventFault::Log(fault)),
    };
    let section = section_with(&log, section, event)?;
    let verdict = match check(alloc, Arc::try_clone(section)?, profile) {
        Ok(verdict) => verdict,
        Err(_) => return Err(EventFault::OutOfMemory),
    };
    let text = explain_place(alloc, &verdict, event)?;
    Ok(text)
}

// The rows at the place, and the image that they give.
fn explain_place(alloc: Global, verdict: &Verdict, place: u32) -> Result<Vec<u8>, AllocError>
    requires { place ≤ length verdict.now.section.events }
    ensures { IfOk result (λ text.
        ExplainsPlace verdict.now.section.events (rows_in verdict.now) place text.items) }
{
    let mut text = write_rows_at(alloc, verdict, place)?;
    match explain(verdict, place) {
        Some(certificate) => {
            let events = verdict.section().events();
            let image = image_text(alloc, events, verdict.rows(), place, certificate)?;
            text.extend_from_slice(image.as_bytes())?;
        }
        None => text.extend_from_slice(b"no image\n")?,
    }
    Ok(text)
}

// What the image of the certificate holds of the bytes that the rows at the place name.
#[tactic(auto, unfolding(crate::specs::Explanation::text_of_certificate))]
fn image_text(
    alloc: Global,
    events: &Events,
    rows: &[Row],
    place: u32,
    certificate: Certificate,
) -> Result<String, AllocError>
    requires fits { Fits events.now certificate }
    requires place { place ≤ length events.now }
    ensures { IfOk result (λ text. string_bytes text
        ≡ text_of_certificate events.now rows.now place certificate) }
{
    let mut text = String::new(alloc);
    push_image(&mut text, certificate)?;
    for row in rows {
        if row.place == place {
            push_bytes(&mut text, events, certificate, place, row)?;
        }
    }
    Ok(text)
}

#[tactic(auto, unfolding(crate::specs::Explanation::text_of_image))]
pub(crate) fn push_image(text: &mut String, certificate: Certificate) -> Result<(), AllocError>
    ensures { OnOk result
        (string_bytes text.new ≡ string_bytes text.old ++ text_of_image certificate) }
{
    let crash = certificate.crash;
    write!(text, "image crash={crash} full=")?;
    push_line(text, certificate.full_line)
}

#[tactic(auto, unfolding(crate::specs::Explanation::text_of_line))]
fn push_line(text: &mut String, line: Option<u64>) -> Result<(), AllocError>
    ensures { OnOk result (string_bytes text.new ≡ string_bytes text.old ++ text_of_line line) }
{
    match line {
        Some(line) => write!(text, "0x{line:x}\n"),
        None => text.push_str("none\n"),
    }
}

#[tactic(auto, unfolding(crate::specs::Explanation::text_of_bytes))]
pub(crate) fn push_bytes(
    text: &mut String,
    events: &Events,
    certificate: Certificate,
    place: u32,
    row: &Row,
) -> Result<(), AllocError>
    requires fits { Fits events.now certificate }
    requires place { place ≤ length events.now }
    ensures { OnOk result (string_bytes text.new
        ≡ string_bytes text.old ++ text_of_bytes events.now certificate place row.now) }
{
    match row.finding {
        Finding::PersistFail { byte } => push_byte(text, events, certificate, place, byte),
        Finding::OrderedFail { byte, after, .. } => {
            push_byte(text, events, certificate, place, byte)?;
            push_byte(text, events, certificate, place, after)
        }
        Finding::CheckFail { byte } => push_byte(text, events, certificate, place, byte),
        _ => Ok(()),
    }
}

#[tactic(auto, unfolding(crate::specs::Explanation::text_of_byte, crate::specs::Asking::text_of_shown))]
fn push_byte(
    text: &mut String,
    events: &Events,
    certificate: Certificate,
    place: u32,
    byte: u64,
) -> Result<(), AllocError>
    requires fits { Fits events.now certificate }
    requires place { place ≤ length events.now }
    ensures { OnOk result (string_bytes text.new
        ≡ string_bytes text.old ++ text_of_byte events.now certificate place byte) }
{
    let cut = cut(events, certificate, line_of(byte));
    let shows = shows(events, certificate, byte);
    let last = last_store(events, place, byte);
    push_shown(text, byte, Shown { cut, shows, last })
}

/// The text line of a byte, of which the image shows this.
#[tactic(auto, unfolding(crate::specs::Asking::text_of_shown))]
pub(crate) fn push_shown(text: &mut String, byte: u64, shown: Shown) -> Result<(), AllocError>
    ensures { OnOk result (string_bytes text.new ≡ string_bytes text.old ++ text_of_shown byte shown) }
{
    let Shown { cut, shows, last } = shown;
    write!(
        text,
        "byte=0x{byte:x} cut={cut} shows={shows} last={last}\n"
    )
}
