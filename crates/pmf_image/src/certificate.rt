//! Certificates, and what their images hold.

ghost use Rattle.std.specs.{Prelude.{◌≡◌, ◌≤◌, length, Some, nat_eq, if◌then◌else◌}, Option.{option_eq}};
ghost use Rattle.pmf_event.specs.{Line.{meets_line}, Store.{flushes, is_fence, last_store, stores, stores_line}};
ghost use Rattle.pmf_image.specs.Certificate.{Fits, IsLine, cut_in, shows_in};

use pmf_event::{Event, Events, LINE_SIZE, Span, line_of};

/// One crash image: after a crash right behind the place `crash`, in which the full line holds all of
/// its stores, every other line holds those that are durable by then, and nothing is torn.
#[derive(Clone, Copy, Debug, PartialEq, Eq)]
pub struct Certificate {
    /// The place after which the crash comes; 0 for a crash before the first event.
    pub crash: u32,
    /// The address of the full line, if there is one.
    pub full_line: Option<u64>,
}

/// How many stores of the line the certificate's image holds: of the full line all, of another those
/// before its last write-back that a fence follows. One pass over the events.
pub fn cut(events: &Events, certificate: Certificate, line: u64) -> u32
    requires fits { Fits events.now certificate }
    requires line { IsLine line }
    ensures { result ≡ cut_in events.now certificate line }
{
    let mut counts = Kept::none();
    for index in 0..certificate.crash as usize {
        let event = events.at(index);
        let next = counts.stored + 1;
        counts.follow(&event, line, stores_line(&event, line), next);
    }
    counts.held(certificate, line)
}

/// The place of the store that the byte shows in the certificate's image, or 0 where it shows none: on the
/// full line its last store, elsewhere that before the line's last write-back that a fence follows. One pass
/// over the events.
pub fn shows(events: &Events, certificate: Certificate, byte: u64) -> u32
    requires fits { Fits events.now certificate }
    ensures { result ≡ shows_in events.now certificate byte }
{
    let line = line_of(byte);
    let mut places = Kept::none();
    for index in 0..certificate.crash as usize {
        let event = events.at(index);
        places.follow(&event, line, stores(&event, byte), index as u32 + 1);
    }
    places.held(certificate, line)
}

/// The place of the last store of the byte among the events up to the place, or 0 where there is none.
/// One pass over the events.
pub fn last_store(events: &Events, place: u32, byte: u64) -> u32
    requires { place ≤ length events.now }
    ensures { result ≡ last_store events.now place byte }
{
    let mut last = 0;
    for index in 0..place as usize {
        let event = events.at(index);
        if stores(&event, byte) {
            last = index as u32 + 1;
        }
    }
    last
}

// What a pass over the events keeps of a line, as numbers: what was stored, what of it was written back, and
// what of that a fence made durable.
#[derive(Drop)]
struct Kept {
    stored: u32,
    flushed: u32,
    durable: u32,
}

impl Kept {
    fn none() -> Kept
        ensures { result ≡ record { stored = 0; flushed = 0; durable = 0 } }
    {
        Kept {
            stored: 0,
            flushed: 0,
            durable: 0,
        }
    }

    // One more event; where it stores what is asked for, the number of what is stored then.
    #[inline]
    #[tactic(auto, unfolding(pmf_event::specs::Store::flushes, pmf_event::specs::Store::is_fence))]
    fn follow(&mut self, event: &Event, line: u64, stores: bool, number: u32)
        requires { IsLine line }
        ensures stored { self.new.stored ≡ (if stores then number else self.old.stored) }
        ensures flushed { self.new.flushed
            ≡ (if flushes line event.now then self.old.stored else self.old.flushed) }
        ensures durable { self.new.durable
            ≡ (if is_fence event.now then self.old.flushed else self.old.durable) }
    {
        match event {
            Event::Flush(span) => {
                if meets_line(*span, line) {
                    self.flushed = self.stored;
                }
            }
            Event::Fence => self.durable = self.flushed,
            _ => {}
        }
        if stores {
            self.stored = number;
        }
    }

    // What the certificate's image holds of it.
    fn held(&self, certificate: Certificate, line: u64) -> u32
        ensures { result ≡ (if option_eq nat_eq certificate.full_line (Some line)
            then self.now.stored else self.now.durable) }
    {
        if certificate.full_line == Some(line) {
            return self.stored;
        }
        self.durable
    }
}

// Whether the event stores to the byte.
#[tactic(auto, unfolding(pmf_event::specs::Store::stores))]
fn stores(event: &Event, byte: u64) -> bool
    ensures { result ≡ stores byte event.now }
{
    match event {
        Event::Store(span) => span.covers(byte),
        _ => false,
    }
}

// Whether the event stores to the line.
#[tactic(auto, unfolding(pmf_event::specs::Store::stores_line))]
fn stores_line(event: &Event, line: u64) -> bool
    requires { IsLine line }
    ensures { result ≡ stores_line line event.now }
{
    match event {
        Event::Store(span) => meets_line(*span, line),
        _ => false,
    }
}

// Whether the span has a byte of the line.
fn meets_line(span: Span, line: u64) -> bool
    requires { IsLine line }
    ensures { result ≡ meets_line span line }
{
    span.first() <= line.saturating_add(LINE_SIZE - 1) && line < span.end()
}
