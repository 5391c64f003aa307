//! Which warnings are due of a log, where nothing else is told of it.

ghost use Rattle.std.specs.Prelude.{◌≡◌, ◌≤◌, ◌==◌, ◌||◌, ℕ, Bool, not, length, map, sum_by, count_by, Ok, IfOk, if◌then◌else◌};
ghost use Rattle.pmf_event.specs.{declared.section.TheConstants.{EVENT_LIMIT}, Places.{count}};
ghost use Rattle.pmf_storelog.specs.{LogText.{log_of}, Separators.{records_of}};
ghost use Rattle.pmf_lint.specs.{Counting.{AreNotes}, Due.{asserted_in, empty_in, fills}, Summing.{asserts}, Warnings.{warnings_of}};

use crate::covering::{both, either};
use crate::ending::is_open_ended;
use crate::lint::is_misread;
use crate::misread::lacks_bytes;
use crate::noting::Notes;
use crate::summing::{asserts, count_assertions};
use crate::warnings::Warnings;
use pmf_event::{Events, Section};
use pmf_query::next_record;
use pmf_shadow::Shadow;
use pmf_storelog::Log;
use std::alloc::{AllocError, Global};
use std::sync::Arc;

/// Which warnings are due of a log that was read, as sections of whatever run.
///
/// Each record is looked at once more, and each section up to the first assertion that has something to check; once more only where an
/// assertion writes an address in decimal. Takes memory for the shadow of one section at a time, and in that case for a location of each event.
pub fn warnings_due(alloc: Global, log: &[u8], read: &Log) -> Result<Warnings, AllocError>
    requires { (run : ℕ) × (log_of run log.now ≡ Ok read.now) }
    ensures { IfOk result (λ warnings. warnings ≡ warnings_of log.now) }
{
    let notes = note_records(log);
    let misread = is_misread(alloc, log, notes, read)?;
    let (asserted, filled) = look_for_assertions(alloc, read.sections())?;
    Ok(Warnings {
        asserts_nothing: !asserted,
        checks_nothing: both(asserted, !filled),
        has_near: notes.has_near,
        has_strange: notes.has_strange,
        is_open_ended: is_open_ended(log),
        lacks_stop: both(notes.starts, !notes.stops),
        is_misread: misread,
    })
}

// What the records of the log tell.
#[tactic(auto, using(pmf_query::proofs::CursorLemmas::anew_first, pmf_query::proofs::CursorLemmas::records_of_nil, crate::proofs::DueLemmas::noted_next))]
fn note_records(log: &[u8]) -> Notes
    ensures { AreNotes result (records_of log.now) }
{
    let mut notes = Notes::none();
    let mut start = 0;
    while let Some(found) = next_record(log, start) {
        notes = notes.pass(found.text);
        start = found.next;
    }
    notes
}

// Whether something is asserted, and whether an assertion has something to check.
fn look_for_assertions(alloc: Global, sections: &[Arc<Section>]) -> Result<(bool, bool), AllocError>
    ensures asserted { IfOk result (λ found. found.0 ≡ not (asserted_in (map (λ s. s.value) sections.now) == 0)) }
    ensures filled { IfOk result (λ found. found.1 ≡ not (empty_in (map (λ s. s.value) sections.now) == asserted_in (map (λ s. s.value) sections.now))) }
{
    let mut asserted = false;
    let mut filled = false;
    for section in sections {
        let events = section.events();
        asserted = either(asserted, asserts_any(events));
        filled = fills_or(alloc, events, filled)?;
    }
    Ok((asserted, filled))
}

fn asserts_any(events: &Events) -> bool
    ensures { result ≡ not (count_by (λ e. asserts e) events.now == 0) }
{
    count_assertions(events) != 0
}

// Whether an assertion of these events has something to check, or one of others does.
fn fills_or(alloc: Global, events: &Events, filled: bool) -> Result<bool, AllocError>
    requires { length events.now ≤ EVENT_LIMIT }
    ensures { IfOk result (λ any. any ≡ (filled || fills events.now)) }
{
    if filled {
        return Ok(true);
    }
    let any = fills_one(alloc, events)?;
    Ok(any)
}

// Whether an assertion of these events has something to check. One walk up to the first.
fn fills_one(alloc: Global, events: &Events) -> Result<bool, AllocError>
    requires { length events.now ≤ EVENT_LIMIT }
    ensures { IfOk result (λ any. any ≡ fills events.now) }
{
    let mut shadow = Shadow::for_walk(alloc, events);
    let mut place: u32 = 0;
    for index in 0..events.len() {
        let event = events.at(index);
        place += 1;
        shadow.settle_for(&event)?;
        let unmet = lacks_bytes(&shadow, &event);
        if both(asserts(&event), !unmet) {
            return Ok(true);
        }
        shadow.follow(place, event)?;
    }
    Ok(false)
}
