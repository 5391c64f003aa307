//! What shows the failures of a log, and how a refusal reads.

use crate::{
    EventFault, EventRefusal, LogRefusal, Sought, Unanswered, Whole, explain_all, explain_text,
};
use pmf_device::{ByteSink, Stop};
use pmf_event::{Profile, SpanFault};
use pmf_storelog::{Cause, LogFault};
use std::alloc::AllocError;
use std::test::Fail;

// Neither store is written back before the other is made.
const PAIR: &[u8] = b"STORE;0x1000;0;8|STORE;0x2000;0;8|FLUSH;0x1000;0x40|FLUSH;0x2000;0x40|FENCE\
|PMT.ORDERED;0x1000;8;0x2000;8";

const PAIR_TEXT: &[u8] = b"\
6 ORDERED FAIL byte=0x1000 after=0x2000 crash=2
image crash=2 full=0x2000
byte=0x1000 cut=0 shows=0 last=1
byte=0x2000 cut=1 shows=2 last=2
";

// Each row, by the pairs of one line, too.
const ALL: Whole = Whole {
    run: 9,
    profile: Profile::Two,
    first: None,
};

const FAULTY: &[u8] = b"FENCE|STORE;1;0;0|PMT.X";

const FAULT: LogFault = LogFault {
    at: 2,
    cause: Cause::BadSpan(SpanFault::ZeroSize),
};

#[test]
fn one_event_is_explained(rt: HostRuntime) -> Result<(), Fail> {
    let text = explain_text(rt.alloc(), PAIR, 9, 0, 6, Profile::Two)?;
    assert!(rt; text.as_slice() == PAIR_TEXT);
    Ok(())
}

#[test]
fn each_failing_row_is_explained_behind_its_section(rt: HostRuntime) -> Result<(), Fail> {
    let mut want = Vec::new(rt.alloc());
    want.extend_from_slice(b"section 9.0\n")?;
    want.extend_from_slice(PAIR_TEXT)?;
    let mut sink = ByteSink::new(rt.alloc());
    assert_eq!(rt; explain_all(rt.alloc(), PAIR, ALL, &mut sink), Ok(()));
    assert!(rt; sink.bytes() == want.as_slice());
    let mut none = ByteSink::new(rt.alloc());
    assert_eq!(rt;
        explain_all(rt.alloc(), b"PMT.PERSIST;0x1000;8", ALL, &mut none),
        Ok(())
    );
    assert!(rt; none.bytes().is_empty());
    let refused = explain_all(rt.alloc(), FAULTY, ALL, &mut none);
    assert_eq!(rt; refused, Err(Unanswered::Refused(LogRefusal::Log(FAULT))));
    assert!(rt; none.bytes().is_empty());
    Ok(())
}

// A record that looks random: a store, a write-back, a fence, or an assertion. An order is one of bytes that lie far apart.
fn push_record(text: &mut String, index: u64) -> Result<(), AllocError> {
    let mixed = index.wrapping_mul(0x9e37_79b9_7f4a_7c15) >> 40;
    let near = mixed % 5 * 0x40 + mixed % 3 * 0x10;
    let far = mixed % 7 * 0x40 + 0x1000;
    match mixed % 11 {
        0..=1 => write!(text, "STORE;0x{near:x};0;16|"),
        2..=3 => write!(text, "STORE;0x{far:x};0;16|"),
        4 => write!(text, "FLUSH;0x{near:x};64|"),
        5 => write!(text, "FLUSH;0x{far:x};64|"),
        6 => write!(text, "FENCE|"),
        7..=8 => write!(text, "PMT.PERSIST;0x{near:x};64|"),
        _ => write!(text, "PMT.ORDERED;0x{near:x};32;0x{far:x};64|"),
    }
}

#[test]
fn all_rows_are_explained_as_each_alone(rt: HostRuntime) -> Result<(), Fail> {
    let mut log = String::new(rt.alloc());
    for index in 0..120 {
        push_record(&mut log, index)?;
    }
    let log = log.as_bytes();
    let mut want = Vec::new(rt.alloc());
    let mut images: u64 = 0;
    for place in 1..=120 {
        let alone = explain_text(rt.alloc(), log, 9, 0, place, Profile::Two)?;
        if !alone.as_slice().ends_with(b"no image\n") {
            want.extend_from_slice(b"section 9.0\n")?;
            want.extend_from_slice(alone.as_slice())?;
            images = images.wrapping_add(1);
        }
    }
    let mut all = ByteSink::new(rt.alloc());
    assert_eq!(rt; explain_all(rt.alloc(), log, ALL, &mut all), Ok(()));
    assert!(rt; images > 10, "{images}");
    assert!(rt; all.bytes() == want.as_slice());
    Ok(())
}

// Two sections, of which the first has two failing rows, with one that passes between them, and the second one.
const THREE: &[u8] =
    b"STORE;0x1000;0;8|PMT.PERSIST;0x1000;8|PMT.PERSIST;0x2000;8|PMT.PERSIST;0x1000;8\
|PMT.SECTION;1|STORE;0x3000;0;8|PMT.PERSIST;0x3000;8";

const THREE_TEXTS: [&[u8]; 3] = [
    b"section 9.0\n2 PERSIST FAIL byte=0x1000 crash=2\nimage crash=2 full=none\nbyte=0x1000 cut=0 shows=0 last=1\n",
    b"section 9.0\n4 PERSIST FAIL byte=0x1000 crash=4\nimage crash=4 full=none\nbyte=0x1000 cut=0 shows=0 last=1\n",
    b"section 9.1\n2 PERSIST FAIL byte=0x3000 crash=2\nimage crash=2 full=none\nbyte=0x3000 cut=0 shows=0 last=1\n",
];

#[test]
fn the_first_rows_are_explained(rt: HostRuntime) -> Result<(), Fail> {
    for (first, rows) in [
        (Some(0), 0),
        (Some(1), 1),
        (Some(2), 2),
        (Some(3), 3),
        (Some(4), 3),
        (None, 3),
    ] {
        let mut want = Vec::new(rt.alloc());
        for text in &THREE_TEXTS[..rows] {
            want.extend_from_slice(text)?;
        }
        let mut sink = ByteSink::new(rt.alloc());
        let asked = Whole { first, ..ALL };
        assert_eq!(rt; explain_all(rt.alloc(), THREE, asked, &mut sink), Ok(()));
        assert!(rt; sink.bytes() == want.as_slice(), "{first:?}");
    }
    Ok(())
}

// What a sink takes that fails is the front of the whole text.
#[test]
fn rows_are_written_up_to_the_write_that_fails(rt: HostRuntime) -> Result<(), Fail> {
    let mut whole = ByteSink::new(rt.alloc());
    assert_eq!(rt; explain_all(rt.alloc(), THREE, ALL, &mut whole), Ok(()));
    for room in 0..whole.bytes().len() {
        let mut sink = ByteSink::new(rt.alloc()).failing_after(room);
        let written = room as u64;
        let stopped = explain_all(rt.alloc(), THREE, ALL, &mut sink);
        assert_eq!(rt; stopped, Err(Unanswered::Stopped(Stop::Failed { written })));
        assert!(rt; sink.bytes() == &whole.bytes()[..room], "{room}");
    }
    Ok(())
}

#[test]
fn a_section_or_an_event_that_is_missing_is_refused(rt: HostRuntime) {
    for (log, section, event, want) in [
        (PAIR, 0, 0, EventFault::NoEvent),
        (PAIR, 0, 7, EventFault::NoEvent),
        (PAIR, 7, 0, EventFault::NoSection),
        (b"PMT.SECTION;0".as_slice(), 0, 1, EventFault::NoEvent),
        (FAULTY, 7, 0, EventFault::Log(FAULT)),
    ] {
        let answer = explain_text(rt.alloc(), log, 9, section, event, Profile::One);
        assert_eq!(rt;
            answer.err(),
            Some(want),
            "section {section}, event {event}"
        );
    }
}

#[test]
fn each_refusal_is_told_by_its_text(rt: HostRuntime) -> Result<(), Fail> {
    let sought = Sought {
        run: 9,
        section: 7,
        event: 4,
    };
    for (fault, want) in [
        (EventFault::NoSection, "no section 9.7"),
        (EventFault::NoEvent, "no event 4 in section 9.7"),
        (EventFault::OutOfMemory, "out of memory"),
        (EventFault::Log(FAULT), "record 2: size is zero"),
    ] {
        let refusal = EventRefusal { sought, fault };
        let text = format!(in rt.alloc(); "{refusal}")?;
        assert_eq!(rt; text.as_str(), want);
    }
    Ok(())
}
