//! Whether a certificate's image contradicts an assertion.

ghost use Rattle.std.specs.Prelude.{◌≡◌, ◌<◌, ◌≤◌, ◌↔◌, true, length};
ghost use Rattle.pmf_image.specs.{Certificate.{Fits}, Contradiction.{Contradicts, OrderedContradicted, PersistContradicted, ScopeContradicted}};

use crate::certificate::Certificate;
use crate::questions::Question;
use crate::transactions::scope_at;
use pmf_event::{ADDRESS_LIMIT, Event, Events, Span};

/// Whether the event at the place is an assertion, and the certificate's image contradicts it: the crash
/// is one that the assertion speaks of, and the image shows what the assertion rules out. No other event is
/// contradicted.
///
/// - A persist assertion: the crash is at its place or later, and a checked byte of its span shows less
///   than its last store at that place.
/// - An order assertion: the crash is at its place or earlier, a checked byte of the second span shows
///   its last store at that place, and a checked byte of the first does not.
/// - The end of a scope, outside of transactions: the crash is at its place or later, and an included
///   byte of the scope shows less than its last store at that place.
///
/// No byte is looked at one by one. Bytes are alike from one border to the next, where a border is an end
/// of a span that is stored to, written back, excluded or included, an end of the lines that it meets, or
/// an end of the full line. For each stretch between two borders inside the assertion's spans, however many
/// bytes it has, there are at most four passes over the events; at the end of a scope there are five for each
/// stretch at all, and one more. Takes no memory.
pub fn contradicts(events: &Events, place: u32, certificate: Certificate) -> bool
    requires fits { Fits events.now certificate }
    requires some { 0 < place }
    requires within { place ≤ length events.now }
    ensures { (result ≡ true) ↔ Contradicts events.now place certificate }
{
    match events.at(place as usize - 1) {
        Event::Persist(span) => persist_contradicted(events, place, span, certificate),
        Event::Ordered(first, second) => {
            ordered_contradicted(events, place, first, second, certificate)
        }
        Event::CheckEnd => scope_contradicted(events, place, certificate),
        _ => false,
    }
}

// Whether the image contradicts a persist assertion over the span.
fn persist_contradicted(events: &Events, place: u32, span: Span, certificate: Certificate) -> bool
    requires fits { Fits events.now certificate }
    requires some { 0 < place }
    requires within { place ≤ length events.now }
    ensures { (result ≡ true) ↔ PersistContradicted events.now place span certificate }
{
    if certificate.crash < place {
        return false;
    }
    let end = span.end();
    Question::FallsShort.finds(events, place, certificate, span.first(), end)
}

// Whether the image contradicts an order assertion over the two spans.
fn ordered_contradicted(
    events: &Events,
    place: u32,
    first: Span,
    second: Span,
    certificate: Certificate,
) -> bool
    requires fits { Fits events.now certificate }
    requires some { 0 < place }
    requires within { place ≤ length events.now }
    ensures { (result ≡ true) ↔ OrderedContradicted events.now place first second certificate }
{
    if place < certificate.crash {
        return false;
    }
    let end = second.end();
    if !Question::IsShown.finds(events, place, certificate, second.first(), end) {
        return false;
    }
    let end = first.end();
    Question::IsLost.finds(events, place, certificate, first.first(), end)
}

// Whether the image contradicts the end of a scope at the place.
fn scope_contradicted(events: &Events, place: u32, certificate: Certificate) -> bool
    requires fits { Fits events.now certificate }
    requires some { 0 < place }
    requires within { place ≤ length events.now }
    ensures { (result ≡ true) ↔ ScopeContradicted events.now place certificate }
{
    if certificate.crash < place {
        return false;
    }
    // Of any byte: what is asked here is the same for all.
    let scope = scope_at(events, place - 1, 0);
    if !scope.is_open {
        return false;
    }
    if scope.depth > 0 {
        return false;
    }
    Question::ScopeFallsShort.finds(events, place, certificate, 0, ADDRESS_LIMIT)
}
