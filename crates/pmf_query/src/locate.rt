//! Where an event of a section stands in its log.

ghost use Rattle.std.specs.Prelude.{◌≡◌, ◌≢◌, ◌<◌, ◌≤◌, length, MatchResult, MatchOption, IfErr, IfOk};
ghost use Rattle.pmf_storelog.specs.{LogText.{events_in}, Separators.{records_of}};
ghost use Rattle.pmf_query.specs.{Locating.{IsLocated, IsLocation, IsLocationText, text_of_location}, Refusals.{HasEvent, IsEventFault, IsEventRefusal}};

use crate::ascii::push_bytes;
use crate::passing::Passed;
use crate::query::{Answer, Query};
use crate::refusal::{EventFault, EventRefusal};
use crate::section::section_with;
use crate::walking::next_record;
use pmf_request::Sought;
use pmf_storelog::read_log;
use std::alloc::{AllocError, Global};

/// Where one event stands.
impl Query for Sought {
    type Told = ();

    type Refusal = EventRefusal;

    ghost IsAnswer = { λ sought bytes _ text. IsLocationText sought.section sought.event bytes text };

    ghost IsRefusal = { IsEventRefusal };

    fn answer(&self, alloc: Global, log: &[u8]) -> Result<Answer<()>, EventRefusal> {
        let sought = *self;
        match locate_text(alloc, log, sought.run, sought.section, sought.event) {
            Ok(text) => Ok(Answer { told: (), text }),
            Err(fault) => Err(EventRefusal { sought, fault }),
        }
    }
}

/// Where a record stands in its log.
#[derive(Clone, Copy, Debug)]
pub struct Located<'a> {
    /// Its number, counted from 1 over all records that aren't empty, as a fault counts them.
    pub record: u64,
    /// How many bytes of the log stand before its first byte. Blanks before it are no part of it.
    pub offset: u64,
    /// The record with all its fields, without the blanks at both ends.
    pub text: &'a [u8],
}

/// Where the event of this number, counted from 1, of a section stands in the log: the record that gave it.
///
/// Takes memory for the events of the log alone, to look for its faults; want of it is the log's, so that
/// [`EventFault::OutOfMemory`] is never answered.
#[tactic(auto, using(crate::proofs::NumberFoundLemmas::read_so))]
pub fn locate_event<'a>(
    alloc: Global,
    log: &'a [u8],
    run: u64,
    section: u64,
    event: u32,
) -> Result<Located<'a>, EventFault>
    ensures answer { MatchResult result
        (λ l. IsLocated log.now section event l.record l.offset l.text.now)
        (IsEventFault run section event log.now) }
    ensures there { IfOk result (λ l. HasEvent run section event log.now) }
    ensures memory { IfErr result (λ fault. fault ≢ EventFault.OutOfMemory) }
{
    let read = match read_log(alloc, log, run) {
        Ok(read) => read,
        Err(fault) => return Err(EventFault::Log(fault)),
    };
    section_with(&read, section, event)?;
    match find_event(log, section, u64::from(event)) {
        Some(located) => Ok(located),
        None => unreachable!(),
    }
}

/// The same as text: `record=N offset=O length=L` and an end of line, then the record in ASCII as [`crate::push_ascii`] writes it, whole, and
/// an end of line. L is the number of the record's own bytes.
///
/// Takes memory for the events of the log, and for the text.
pub fn locate_text(
    alloc: Global,
    log: &[u8],
    run: u64,
    section: u64,
    event: u32,
) -> Result<Vec<u8>, EventFault>
    ensures { MatchResult result
        (λ text. IsLocationText section event log.now text.items)
        (IsEventFault run section event log.now) }
{
    match locate_event(alloc, log, run, section, event) {
        Ok(located) => {
            let text = write_location(alloc, located.record, located.offset, located.text)?;
            Ok(text)
        }
        Err(fault) => Err(fault),
    }
}

#[tactic(auto, unfolding(crate::specs::Locating::text_of_location))]
fn write_location(
    alloc: Global,
    number: u64,
    offset: u64,
    text: &[u8],
) -> Result<Vec<u8>, AllocError>
    ensures { IfOk result (λ written. written.items ≡ text_of_location number offset text.now) }
{
    let length = text.len();
    let mut written = format!(in alloc; "record={number} offset={offset} length={length}\n")?;
    push_bytes(&mut written, text)?;
    written.push_str("\n")?;
    Ok(written.into_bytes())
}

// The record that gives the event of this number of the section.
#[tactic(auto, using(crate::proofs::LocationLemmas::located))]
fn find_event(log: &[u8], section: u64, place: u64) -> Option<Located<'_>>
    requires { 1 ≤ place }
    ensures { MatchOption result (length (events_in (records_of log.now) section) < place)
        (λ l. IsLocation log.now section place l.record l.offset l.text.now) }
{
    let mut passed = Passed::none();
    let mut start = 0;
    while let Some(found) = next_record(log, start) {
        if passed.pass(found.text, section, place) {
            return Some(Located {
                record: passed.records,
                offset: found.offset as u64,
                text: found.text,
            });
        }
        start = found.next;
    }
    None
}
