//! Where events stand, and which are refused.

use crate::{EventFault, Standing, locate_event, locate_text, push_ascii};
use pmf_storelog::{Cause, LogFault};
use std::alloc::Global;
use std::test::Fail;

// Two sections that take turns, blanks, empty records, CR LF, skipped records, and a stack behind the last
// field that is read. Before a marker section 0 is current.
const TURNS: &[u8] =
    b"FENCE||START\r\n  STORE;0x10;0;8;main;x.c:7 \t|PMT.SECTION;3| \t |PMT.CHECKSTART
\tPMT.SECTION;0|FENCE |PMT.SECTION;3|STOER|FLUSH;0x10;8";

// The number of the record, where it begins, and its text.
type Place<'a> = Result<(u64, u64, &'a [u8]), EventFault>;

fn place_of(alloc: Global, log: &[u8], section: u64, event: u32) -> Place<'_> {
    match locate_event(alloc, log, 0, section, event) {
        Ok(found) => Ok((found.record, found.offset, found.text)),
        Err(fault) => Err(fault),
    }
}

#[test]
fn an_event_stands_where_its_record_does(rt: HostRuntime) {
    let no_event = Err(EventFault::NoEvent);
    let no_section = Err(EventFault::NoSection);
    let cases: [(u64, u32, Place<'_>); 8] = [
        (0, 1, Ok((1, 0, b"FENCE"))),
        (0, 2, Ok((3, 16, b"STORE;0x10;0;8;main;x.c:7"))),
        (0, 3, Ok((7, 92, b"FENCE"))),
        (0, 4, no_event),
        // The row SECTION UNCLOSED start=1 names this place.
        (3, 1, Ok((5, 62, b"PMT.CHECKSTART"))),
        (3, 2, Ok((10, 119, b"FLUSH;0x10;8"))),
        (3, 0, no_event),
        (2, 0, no_section),
    ];
    for (section, event, want) in cases {
        assert_eq!(rt;
            place_of(rt.alloc(), TURNS, section, event),
            want,
            "at {section} {event}"
        );
    }
}

#[test]
fn a_fault_of_the_log_comes_first(rt: HostRuntime) {
    let fault = LogFault {
        at: 2,
        cause: Cause::TooFewFields,
    };
    let want = Err(EventFault::Log(fault));
    assert_eq!(rt; place_of(rt.alloc(), b"FENCE|FLUSH;1", 0, 1), want);
}

#[test]
fn the_text_is_a_line_of_numbers_and_the_record(rt: HostRuntime) -> Result<(), Fail> {
    let text = locate_text(rt.alloc(), TURNS, 5, 0, 2)?;
    let want = b"record=3 offset=16 length=25\nSTORE;0x10;0;8;main;x.c:7\n";
    assert!(rt; text.as_slice() == want.as_slice());
    Ok(())
}

#[test]
fn what_acts_on_a_terminal_is_written_in_ascii(rt: HostRuntime) -> Result<(), Fail> {
    let text = locate_text(rt.alloc(), b"FENCE;\x1b[2J\\\xff", 0, 0, 1)?;
    let want = b"record=1 offset=0 length=12\nFENCE;\\x1b[2J\\\\\\xff\n";
    assert!(rt; text.as_slice() == want.as_slice());
    Ok(())
}

#[test]
fn all_events_stand_where_each_does(rt: HostRuntime) -> Result<(), Fail> {
    let standing = Standing::of(rt.alloc(), TURNS)?;
    for (section, events) in [(0, 3), (3, 2), (2, 0)] {
        let found = standing.in_section(section);
        assert!(rt; found.len() == events, "of {section}");
        for (index, located) in found.iter().enumerate() {
            let event = index as u32 + 1;
            let want = place_of(rt.alloc(), TURNS, section, event);
            assert_eq!(rt;
                want,
                Ok((located.record, located.offset, located.text)),
                "at {section} {event}"
            );
        }
    }
    Ok(())
}

#[test]
fn bytes_of_a_log_are_written_in_ascii(rt: HostRuntime) -> Result<(), Fail> {
    let cases: [(&[u8], usize, &str); 5] = [
        (b"", 0, ""),
        (b"STORE", 5, "STORE"),
        (b"STORE", 4, "STOR.."),
        (b"a\\\t\x1b", 4, "a\\\\\\x09\\x1b"),
        (b"ab", 0, ".."),
    ];
    for (bytes, most, want) in cases {
        let mut text = String::new(rt.alloc());
        push_ascii(&mut text, bytes, most)?;
        assert!(rt; text.as_str() == want, "{text}");
    }
    Ok(())
}
