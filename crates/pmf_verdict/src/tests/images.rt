//! Random short sections, whose assertions are compared with every crash image that is allowed.

ghost use Rattle.pmf_image.specs.Certificate.{Fits};

use super::random::event_of;
use super::verdict_of;
use crate::{Verdict, explain};
use pmf_event::{Event, Events, Finding, Profile, Row, Span, SpanFault};
use pmf_fixtures::plain::{byte_at, depth, first, is_scoped, is_unordered, scope};
use pmf_fixtures::{BYTES, Image, Numbers, images_after};
use pmf_image::{Certificate, contradicts, shows};
use std::alloc::{AllocError, Global};
use std::process::Abort;
use std::test::Fail;

const SECTIONS: u64 = 1000;

/// How many events each section has.
const EVENTS: u32 = 8;

/// A byte that an assertion asks for, and its last store at the assertion.
#[derive(Clone, Copy, Debug)]
struct Asked {
    byte: u64,
    last: u32,
}

/// What an image has to show at every crash that the assertion speaks of.
#[derive(Debug, Drop)]
enum Promise {
    /// From the place on, each byte its last store or a later one.
    Durable(Vec<Asked>),
    /// Up to the place, each first byte its last store wherever some second byte does.
    InOrder(Vec<Asked>, Vec<Asked>),
}

fn span(numbers: &mut Numbers) -> Result<Span, SpanFault> {
    let size = 1 + numbers.below(4);
    let first = 60 + numbers.below(9 - size);
    Span::make(first, size)
}

fn event(numbers: &mut Numbers) -> Result<Event, SpanFault> {
    let (a, b) = (span(numbers)?, span(numbers)?);
    Ok(event_of(numbers.below(22), a, b))
}

/// A section of random events, or one that checks a scope.
fn section(alloc: Global, numbers: &mut Numbers) -> Result<Vec<Event>, Fail> {
    let mut events = Vec::new(alloc);
    if numbers.below(4) > 0 {
        for _event in 0..EVENTS {
            events.push(event(numbers)?)?;
        }
        return Ok(events);
    }
    events.push(Event::CheckStart)?;
    events.push(Event::TxBegin)?;
    events.push(Event::Store(span(numbers)?))?;
    for _event in 0..3 {
        events.push(event(numbers)?)?;
    }
    events.push(Event::TxEnd)?;
    events.push(Event::CheckEnd)?;
    Ok(events)
}

/// The checked bytes of the span, or else of the scope.
fn asked_of(alloc: Global, past: &[Event], span: Option<Span>) -> Result<Vec<Asked>, AllocError> {
    let mut asked = Vec::new(alloc);
    for byte in BYTES {
        let at = byte_at(past, byte);
        let is_meant = match span {
            Some(span) => span.covers(byte),
            None => is_scoped(past, byte),
        };
        if is_meant && at.is_checked() {
            let last = at.last;
            asked.push(Asked { byte, last })?;
        }
    }
    Ok(asked)
}

/// What the event behind those of the past promises, if it is an assertion; a CHECKEND is one where it closes a scope
/// outside of transactions.
fn promise_of(alloc: Global, past: &[Event], event: Event) -> Result<Option<Promise>, AllocError> {
    Ok(match event {
        Event::Persist(span) => Some(Promise::Durable(asked_of(alloc, past, Some(span))?)),
        Event::Ordered(a, b) => Some(Promise::InOrder(
            asked_of(alloc, past, Some(a))?,
            asked_of(alloc, past, Some(b))?,
        )),
        Event::CheckEnd if scope(past) > 0 && depth(past) == 0 => {
            Some(Promise::Durable(asked_of(alloc, past, None)?))
        }
        _ => None,
    })
}

/// Whether the image after a crash behind these events breaks the promise.
fn breaks(past: &[Event], image: &Image, promise: &Promise) -> bool {
    match promise {
        Promise::Durable(asked) => asked.iter().any(|a| image.shows(past, a.byte) < a.last),
        Promise::InOrder(firsts, seconds) => {
            seconds.iter().any(|y| image.shows(past, y.byte) == y.last)
                && firsts.iter().any(|x| image.shows(past, x.byte) != x.last)
        }
    }
}

/// The images after a crash behind the first events, for each number of them.
type Images = Vec<Vec<Image>>;

fn images_of(alloc: Global, events: &[Event]) -> Result<Images, AllocError> {
    let mut all = Vec::new(alloc);
    for crash in 0..=EVENTS {
        all.push(images_after(alloc, first(events, crash))?)?;
    }
    Ok(all)
}

/// Whether no allowed image breaks the promise of the assertion at the place, at any crash that it speaks of.
fn holds(events: &[Event], images: &Images, place: u32, promise: &Promise) -> bool {
    let (from, to) = match promise {
        Promise::Durable(_) => (place, EVENTS),
        Promise::InOrder(_, _) => (0, place),
    };
    for crash in from..=to {
        let past = first(events, crash);
        if let Some(all) = images.get(crash as usize) {
            if all.iter().any(|image| breaks(past, image, promise)) {
                return false;
            }
        }
    }
    true
}

/// Whether each pair that profile Two leaves unordered is one byte with itself.
fn pairs_are_one_byte(past: &[Event], a: Span, b: Span) -> bool {
    for x in BYTES {
        for y in BYTES {
            let (at_x, at_y) = (byte_at(past, x), byte_at(past, y));
            let is_pair = x != y && a.covers(x) && b.covers(y);
            if is_pair && is_unordered(Profile::Two, x, y, at_x, at_y) {
                return false;
            }
        }
    }
    true
}

fn finding_at(rows: &[Row], place: u32) -> Option<Finding> {
    rows.iter()
        .find(|row| row.place == place)
        .map(|row| row.finding)
}

/// Whether the image after a crash behind these events shows what the certificate's does, and nothing in it is torn.
fn is_image_of(events: &[Event], kept: &Events, image: &Image, certificate: Certificate) -> bool
    requires { Fits kept.now certificate }
{
    let past = first(events, certificate.crash);
    for byte in BYTES {
        let shown = image.shows(past, byte);
        if image.is_torn(byte) || shown != shows(kept, certificate, byte) {
            return false;
        }
    }
    true
}

/// Whether the failure at the place has a certificate that contradicts it, whose image is one of those listed.
fn is_explained(events: &[Event], verdict: &Verdict, images: &Images, place: u32) -> bool {
    let kept = verdict.section().events();
    let Some(certificate) = explain(verdict, place) else {
        return false;
    };
    if place == 0 || place as usize > kept.len() || !contradicts(kept, place, certificate) {
        return false;
    }
    if let Some(all) = images.get(certificate.crash as usize) {
        for image in all {
            if is_image_of(events, kept, image, certificate) {
                return true;
            }
        }
    }
    false
}

/// Which of ten outcomes this is, or one past the last where the finding is not true of an assertion that holds, or
/// doesn't. SAMELINE alone says neither.
fn outcome(finding: Finding, holds: bool) -> usize {
    match finding {
        Finding::PersistPass if holds => 0,
        Finding::PersistFail { .. } if !holds => 1,
        Finding::PersistEmpty if holds => 2,
        Finding::OrderedPass if holds => 3,
        Finding::OrderedFail { .. } if !holds => 4,
        Finding::OrderedEmpty if holds => 5,
        Finding::OrderedSameLine { .. } if holds => 6,
        Finding::OrderedSameLine { .. } => 7,
        Finding::CheckPass if holds => 8,
        Finding::CheckFail { .. } if !holds => 9,
        _ => 10,
    }
}

#[test]
fn an_assertion_is_shown_as_it_holds_in_every_image(rt: HostRuntime) -> Result<(), Fail> {
    let mut numbers = Numbers::of(6);
    let mut met = [false; 10];
    for _section in 0..SECTIONS {
        let events = section(rt.alloc(), &mut numbers)?;
        let images = images_of(rt.alloc(), events.as_slice())?;
        for profile in [Profile::One, Profile::Two] {
            let verdict = verdict_of(rt.alloc(), events.as_slice(), profile)?;
            for index in 0..EVENTS {
                compare(&rt, rt.alloc(), &events, &verdict, &images, index, &mut met)?;
            }
        }
    }
    assert_eq!(rt; met, [true; 10]);
    Ok(())
}

/// Compares the row of the event behind so many, if it is an assertion, with the images.
fn compare(
    rt: &impl Abort,
    alloc: Global,
    events: &[Event],
    verdict: &Verdict,
    images: &Images,
    index: u32,
    met: &mut [bool; 10],
) -> Result<(), Fail> {
    let past = first(events, index);
    let place = index.saturating_add(1);
    let Some(event) = events.get(index as usize) else {
        return Ok(());
    };
    let Some(promise) = promise_of(alloc, past, *event)? else {
        return Ok(());
    };
    let holds = holds(events, images, place, &promise);
    let Some(finding) = finding_at(verdict.rows(), place) else {
        panic!(rt; "no row at {place} of {events:?}");
    };
    let outcome = outcome(finding, holds);
    assert!(rt; outcome < 10, "{finding:?} at {place} of {events:?}");
    if let Event::Ordered(a, b) = *event {
        let exact = pairs_are_one_byte(past, a, b);
        assert_eq!(rt; holds, exact, "at {place} of {events:?}");
    }
    let fails = matches!(outcome, 1 | 4 | 9);
    let explained = is_explained(events, verdict, images, place);
    assert_eq!(rt; explained, fails, "at {place} of {events:?}");
    if outcome < 10 {
        met[outcome] = true;
    }
    Ok(())
}
