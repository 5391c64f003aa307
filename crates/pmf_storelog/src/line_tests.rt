//! One event from one text line, and the number at the front of a text.

use super::*;
use pmf_event::{Event, Span, SpanFault};
use std::test::Fail;

fn refused(cause: Cause) -> Result<Event, LineFault> {
    Err(LineFault::Refused(cause))
}

#[test]
fn a_line_is_read_as_its_event_or_refused_or_has_none(rt: HostRuntime) -> Result<(), Fail> {
    let fence = Ok(Event::Fence);
    let store = Ok(Event::Store(Span::make(0x1000, 8)?));
    let none = Err(LineFault::NoEvent);
    for (line, want) in [
        ("FENCE", fence),
        ("  FENCE\t", fence),
        ("FENCE;more;fields", fence),
        ("\tSTORE;4096;any bytes;08 ", store),
        ("", none),
        ("   ", none),
        ("FENCE|", none),
        ("FENCE\r", none),
        ("FENCE\nFENCE", none),
        ("PMT.X|", none),
        ("FENCE ;", none),
        ("4 PERSIST PASS", none),
        ("PMT.SECTION;0x1", none),
        ("PMT.SECTION;x", none),
        ("PMT.SECTIONS;0x1", refused(Cause::UnknownMarker)),
        ("STORE;x", refused(Cause::TooFewFields)),
        ("FLUSH;0x0;x", refused(Cause::BadNumber)),
        ("FLUSH;0x0;0", refused(Cause::BadSpan(SpanFault::ZeroSize))),
    ] {
        assert_eq!(rt; read_event(line.as_bytes()), want, "{line:?}");
    }
    Ok(())
}

#[test]
fn a_number_in_front_has_1_to_20_digits_and_is_below_2_to_the_64(rt: HostRuntime) {
    for (text, want) in [
        ("26 rows", Some((26, " rows"))),
        ("0x1a", Some((0, "x1a"))),
        ("18446744073709551615", Some((u64::MAX, ""))),
        ("00000000000000000001.", Some((1, "."))),
        ("18446744073709551616", None),
        ("000000000000000000001", None),
        ("", None),
        (" 1", None),
        ("+1", None),
    ] {
        let found = read_number_in_front(text.as_bytes());
        let want = want.map(|(number, rest)| (number, rest.as_bytes()));
        assert!(rt; found == want, "{text:?}");
    }
}
