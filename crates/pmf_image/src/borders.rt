//! Stretches of bytes that no event, and no certificate, tells apart.

ghost use Rattle.std.specs.{Prelude.{ℕ, ◌≡◌, ◌⊎◌, ◌<◌, ◌≤◌, Some, nat_eq}, Option.{option_eq}};
ghost use Rattle.pmf_event.specs.{Line.{line_of_byte, meets_line}, Span.{covers_byte}};
ghost use Rattle.pmf_image.specs.{Certificate.{Fits, IsLine}, Borders.{Alike}};

use crate::certificate::Certificate;
use pmf_event::{Event, Events, LINE_SIZE, Span, line_of};

// The end of a stretch of bytes from this one on that are all alike to it, at `end` at the latest. One pass
// over the events: a stretch ends at the next border. The borders are where a span of a store, a write-back, an
// exclusion or an inclusion begins and ends, where the lines that it meets do, and where the full line does.
pub fn end_of_stretch(events: &Events, certificate: Certificate, byte: u64, end: u64) -> u64
    requires fits { Fits events.now certificate }
    requires before { byte < end }
    ensures above { byte < result }
    ensures below { result ≤ end }
    ensures alike { (x : ℕ) → byte ≤ x → x < result → Alike events.now certificate byte x }
{
    let mut stretch_end = before_line(certificate.full_line, byte, end);
    for index in 0..events.len() {
        let event = events.at(index);
        match event {
            Event::Store(span) | Event::Flush(span) | Event::Exclude(span) | Event::Include(span) =>
                stretch_end = before_borders(span, byte, stretch_end),
            _ => {}
        }
    }
    stretch_end
}

// The least border of the full line above the byte; the end, if that comes first or no line is full.
fn before_line(full_line: Option<u64>, byte: u64, end: u64) -> u64
    requires lines { (line : ℕ) → full_line ≡ Some line → IsLine line }
    requires before { byte < end }
    ensures above { byte < result }
    ensures below { result ≤ end }
    ensures alike { (x : ℕ) → byte ≤ x → x < result
        → option_eq nat_eq full_line (Some (line_of_byte byte))
        ≡ option_eq nat_eq full_line (Some (line_of_byte x)) }
{
    match full_line {
        Some(line) => {
            let end = before_border(line, byte, end);
            before_border(line.saturating_add(LINE_SIZE), byte, end)
        }
        None => end,
    }
}

// The least border above the byte, of the span and of the lines that it meets; the end, if that comes
// first.
fn before_borders(span: Span, byte: u64, end: u64) -> u64
    requires before { byte < end }
    ensures above { byte < result }
    ensures below { result ≤ end }
    ensures bytes { (x : ℕ) → byte ≤ x → x < result
        → covers_byte span byte ≡ covers_byte span x }
    ensures lines { (x : ℕ) → byte ≤ x → x < result
        → meets_line span (line_of_byte byte) ≡ meets_line span (line_of_byte x) }
{
    let behind = span.end();
    let end = before_border(span.first(), byte, end);
    let end = before_border(behind, byte, end);
    let end = before_border(line_of(span.first()), byte, end);
    before_border(line_of(behind - 1) + LINE_SIZE, byte, end)
}

// The border, if it lies above the byte and before the end, else the end.
fn before_border(border: u64, byte: u64, end: u64) -> u64
    requires before { byte < end }
    ensures above { byte < result }
    ensures below { result ≤ end }
    ensures border { byte < border → result ≤ border }
    // No other byte ends a stretch.
    ensures which { (result ≡ border) ⊎ (result ≡ end) }
{
    if byte < border && border < end {
        return border;
    }
    end
}
