//! Assertions that write an address in decimal, had nothing to check, and would have if it were hexadecimal.

ghost use Rattle.std.specs.Prelude.{◌≡◌, ◌≤◌, ◌&&◌, ℕ, Some, length, map, slice_get, IfOk, string_bytes};
ghost use Rattle.pmf_event.specs.declared.section.TheConstants.{EVENT_LIMIT};
ghost use Rattle.pmf_storelog.specs.{LogText.{sections_of}, Records.{record_of}, Separators.{records_of}};
ghost use Rattle.pmf_query.specs.Locating.{IsFaultless};
ghost use Rattle.pmf_shadow.specs.Shadow.{ForEachList};
ghost use Rattle.pmf_lint.specs.Misread.{has_misread, is_decimal_there, is_met_as_read, lacks_bytes, may_be_met, misread_among, misreads, read_as_hexadecimal, text_as_hexadecimal};

use crate::covering::both;
use crate::naming::name_of;
use crate::noting::asserts_decimal;
use pmf_event::{Event, Events, Section, Span};
use pmf_query::{Located, Standing};
use pmf_shadow::Shadow;
use pmf_storelog::{Saying, read_record};
use std::alloc::{AllocError, Global};
use std::sync::Arc;

/// Whether an assertion of the log, which has no fault and these sections, writes an address in decimal, had nothing to check, and would
/// have if it were hexadecimal. Takes memory for a location of each event, and for the shadow of one section at a time.
pub(crate) fn has_misread(
    alloc: Global,
    log: &[u8],
    sections: &[Arc<Section>],
) -> Result<bool, AllocError>
    requires faultless { IsFaultless log.now }
    requires sections { (run : ℕ) × (map (λ s. s.value) sections.now ≡ sections_of run (records_of log.now)) }
    ensures { IfOk result (λ any. any ≡ has_misread (records_of log.now)) }
{
    let standing = Standing::of_faultless(alloc, log)?;
    for section in sections {
        let located = standing.in_section(section.name().number);
        if is_any_misread(alloc, section.events(), located)? {
            return Ok(true);
        }
    }
    Ok(false)
}

// Whether one of these events is such an assertion, where they stand so. A walk up to the first.
fn is_any_misread(
    alloc: Global,
    events: &Events,
    located: &[Located<'_>],
) -> Result<bool, AllocError>
    requires { length events.now ≤ EVENT_LIMIT }
    ensures { IfOk result (λ any. any ≡ misread_among events.now located.now (length events.now)) }
{
    let mut shadow = Shadow::for_walk(alloc, events);
    let mut place: u32 = 0;
    for index in 0..events.len() {
        let event = events.at(index);
        place += 1;
        shadow.settle_for(&event)?;
        let decimal = is_decimal_there(located, index);
        if is_misread_here(alloc, &shadow, &event, decimal)? {
            return Ok(true);
        }
        shadow.follow(place, event)?;
    }
    Ok(false)
}

// Whether the record of an event, by its index, writes an address in decimal that it asserts something of.
fn is_decimal_there(located: &[Located<'_>], index: usize) -> bool
    ensures { result ≡ is_decimal_there (slice_get located.now index) }
{
    match located.get(index) {
        Some(found) => asserts_decimal(found.text, name_of(found.text)),
        None => false,
    }
}

// Whether the event is misread, behind those that the shadow stands for, where it is decimal.
fn is_misread_here(
    alloc: Global,
    shadow: &Shadow,
    event: &Event,
    decimal: bool,
) -> Result<bool, AllocError>
    ensures { IfOk result (λ misread. ForEachList shadow.now (λ told es p. misread ≡ (decimal && misreads es p (Some event.now)))) }
{
    if !decimal {
        return Ok(false);
    }
    let misread = misreads(alloc, shadow, event, lacks_bytes(shadow, event))?;
    Ok(misread)
}

/// Whether the event, behind those that the shadow stands for, is an assertion that has nothing to check there.
pub(crate) fn lacks_bytes(shadow: &Shadow, event: &Event) -> bool
    ensures { ForEachList shadow.now (λ told es p. result ≡ lacks_bytes es p (Some event.now)) }
{
    match event {
        Event::Persist(span) => !shadow.written_included(*span),
        Event::Ordered(before, after) => !both(
            shadow.written_included(*before),
            shadow.written_included(*after),
        ),
        _ => false,
    }
}

// Whether the event, behind those that the shadow stands for, is an assertion that is EMPTY there, and would not be if its address, or one
// of its two, were hexadecimal; for an event of which it is known whether it lacks bytes. Takes memory for the text of such an address, and
// for none of an assertion that is met.
fn misreads(alloc: Global, shadow: &Shadow, event: &Event, unmet: bool) -> Result<bool, AllocError>
    ensures { IfOk result (λ misread. ForEachList shadow.now (λ told es p.
        unmet ≡ lacks_bytes es p (Some event.now) → misread ≡ misreads es p (Some event.now))) }
{
    if !unmet {
        return Ok(false);
    }
    match event {
        Event::Persist(span) => {
            let met = may_be_met(alloc, shadow, *span)?;
            Ok(met)
        }
        Event::Ordered(before, after) => {
            let first = may_be_met(alloc, shadow, *before)?;
            let second = may_be_met(alloc, shadow, *after)?;
            Ok(both(first, second))
        }
        _ => Ok(false),
    }
}

// Whether the span is met, as its address stands there or as it reads in hexadecimal.
fn may_be_met(alloc: Global, shadow: &Shadow, span: Span) -> Result<bool, AllocError>
    ensures { IfOk result (λ met. ForEachList shadow.now (λ told es p. met ≡ may_be_met es p span)) }
{
    if shadow.written_included(span) {
        return Ok(true);
    }
    let met = is_met_as_hexadecimal(alloc, shadow, span)?;
    Ok(met)
}

fn is_met_as_hexadecimal(alloc: Global, shadow: &Shadow, span: Span) -> Result<bool, AllocError>
    ensures { IfOk result (λ met. ForEachList shadow.now (λ told es p. met ≡ is_met_as_read es p (read_as_hexadecimal span))) }
{
    let text = text_as_hexadecimal(alloc, span.first(), span.size())?;
    Ok(is_met_in(shadow, text.as_bytes()))
}

#[tactic(auto, unfolding(crate::specs::Misread::text_as_hexadecimal))]
fn text_as_hexadecimal(alloc: Global, first: u64, size: u64) -> Result<String, AllocError>
    ensures { IfOk result (λ text. string_bytes text ≡ text_as_hexadecimal first size) }
{
    let mut text = String::new(alloc);
    write!(text, "PMT.PERSIST;0x{first}")?;
    write!(text, ";{size}")?;
    Ok(text)
}

// Whether the bytes are met that the record asserts to be durable.
fn is_met_in(shadow: &Shadow, text: &[u8]) -> bool
    ensures { ForEachList shadow.now (λ told es p. result ≡ is_met_as_read es p (record_of text.now)) }
{
    match read_record(text) {
        Ok(Saying::Happens(event)) => match event {
            Event::Persist(span) => shadow.written_included(span),
            _ => false,
        },
        Ok(Saying::Enters(_)) => false,
        Ok(Saying::Skipped) => false,
        Err(_) => false,
    }
}
