//! What many images show.

ghost use Rattle.std.specs.{Prelude.{◌≡◌, ◌-◌, length, min, map, Some, nat_eq, if◌then◌else◌, IfOk}, Option.{option_eq}};
ghost use Rattle.pmf_event.specs.Line.{line_of_byte};
ghost use Rattle.pmf_images.specs.{Horizons.{horizon_of, place_of, crash_of}, Showing.{shown_of}, Telling.{ArePlaces}};

use crate::counts::Counts;
use crate::telling::tell_all;
use crate::walks::{Fences, Flushes, Stores};
use pmf_event::{Events, line_of};
use pmf_image::Certificate;
use std::alloc::{AllocError, Global};

/// A byte that is asked for, in the image of a certificate and at a place.
#[derive(Clone, Copy, Debug, PartialEq, Eq)]
pub struct Asked {
    /// The image.
    pub certificate: Certificate,
    /// The place of an event, or 0 for that in front of the first.
    pub place: u32,
    /// The byte.
    pub byte: u64,
}

/// What there is of a byte that is asked for.
#[derive(Clone, Copy, Debug, PartialEq, Eq)]
pub struct Shown {
    /// How many stores of the byte's line the image holds.
    pub cut: u32,
    /// The place of the store that the byte shows in it, or 0.
    pub shows: u32,
    /// The place of its last store up to the place asked for, or 0.
    pub last: u32,
}

/// What each image shows of its byte, in the order in which they are asked for. A place behind the last event is as good as the last.
///
/// Takes time in proportion to the events and to what is asked, but for a factor of the logarithm of either, and memory for the runs of
/// bytes that events name, and for some numbers for each that is asked for. With nothing asked for it takes neither.
pub fn show_all(alloc: Global, events: &Events, asked: &[Asked]) -> Result<Vec<Shown>, AllocError>
    ensures { IfOk result (λ shown. shown.items ≡ map (shown_of events.now) asked.now) }
{
    let mut shown = Vec::new(alloc);
    if asked.is_empty() {
        return Ok(shown);
    }
    let horizons = horizons(alloc, events, asked)?;
    let cuts = tell_all(alloc, Counts::new(alloc, asked)?, events, &horizons, asked)?;
    let shows = tell_all(alloc, Stores::new(alloc), events, &horizons, asked)?;
    let places = places(alloc, events, asked)?;
    let lasts = tell_all(alloc, Stores::new(alloc), events, &places, asked)?;
    for index in 0..asked.len() {
        shown.push(Shown {
            cut: cuts[index],
            shows: shows[index],
            last: lasts[index],
        })?;
    }
    Ok(shown)
}

// The place up to which each image holds the stores of its byte's line: on the full line the crash, elsewhere that in front of the last
// write-back that a fence follows.
fn horizons(alloc: Global, events: &Events, asked: &[Asked]) -> Result<Vec<u32>, AllocError>
    ensures { IfOk result (λ horizons. ArePlaces (horizon_of events.now) asked.now horizons.items) }
{
    let crashes = crashes(alloc, events, asked)?;
    let fences = tell_all(alloc, Fences::new(), events, &crashes, asked)?;
    let flushes = tell_all(alloc, Flushes::new(alloc), events, &fences, asked)?;
    let mut horizons = Vec::new(alloc);
    for (index, one) in asked.iter().enumerate() {
        horizons.push(horizon(*one, crashes[index], flushes[index]))?;
    }
    Ok(horizons)
}

// The crash, or the place in front of the write-back.
fn horizon(one: Asked, crash: u32, flush: u32) -> u32
    ensures { result ≡ (if option_eq nat_eq one.certificate.full_line (Some (line_of_byte one.byte)) then crash else flush - 1) }
{
    if one.certificate.full_line == Some(line_of(one.byte)) {
        return crash;
    }
    flush.saturating_sub(1)
}

// The crash of each image.
fn crashes(alloc: Global, events: &Events, asked: &[Asked]) -> Result<Vec<u32>, AllocError>
    ensures { IfOk result (λ crashes. ArePlaces (crash_of events.now) asked.now crashes.items) }
{
    let mut crashes = Vec::new(alloc);
    for one in asked {
        crashes.push(place_within(one.certificate.crash, events))?;
    }
    Ok(crashes)
}

// The place of each.
fn places(alloc: Global, events: &Events, asked: &[Asked]) -> Result<Vec<u32>, AllocError>
    ensures { IfOk result (λ places. ArePlaces (place_of events.now) asked.now places.items) }
{
    let mut places = Vec::new(alloc);
    for one in asked {
        places.push(place_within(one.place, events))?;
    }
    Ok(places)
}

// The place, or that of the last event.
fn place_within(place: u32, events: &Events) -> u32
    ensures { result ≡ min place (length events.now) }
{
    if (place as usize) < events.len() {
        place
    } else {
        events.len() as u32
    }
}
