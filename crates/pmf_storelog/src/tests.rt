//! Logs, whole and in pieces, and their first faults.

mod ahead;

use super::*;
use pmf_event::{Event, Name, Section, Span, SpanFault};
use std::alloc::Global;
use std::process::Abort;
use std::test::Fail;

// A section that comes again, one that is empty, and one before the first marker, in another order; blanks, records that
// are empty, and one that is skipped.
const TEXT: &[u8] =
    b"FENCE|PMT.SECTION;18446744073709551615;x|PMT.SECTION;0x2| STORE;4096;junk;8;more |\r\n\n==77== Command: ./a|\
PMT.SECTION;1|\tFLUSH;0x1000;0x40|PMT.SECTION;2|FENCE ";

// The section has this name and these events.
fn has_events(rt: &impl Abort, section: &Section, name: Name, events: &[Event]) {
    assert_eq!(rt; section.name(), name);
    assert_eq!(rt; section.events().len(), events.len());
    for (index, event) in events.iter().enumerate() {
        assert_eq!(rt; section.events().at(index), *event);
    }
}

// The log is that of the text.
fn is_of_text(rt: &impl Abort, log: &Log) -> Result<(), Fail> {
    let store = Event::Store(Span::make(0x1000, 8)?);
    let flush = Event::Flush(Span::make(0x1000, 64)?);
    let run = 5;
    assert_eq!(rt; log.skipped(), 1);
    assert_eq!(rt; log.sections().len(), 4);
    has_events(
        rt,
        &log.sections()[0],
        Name { run, number: 0 },
        &[Event::Fence],
    );
    has_events(rt, &log.sections()[1], Name { run, number: 1 }, &[flush]);
    has_events(
        rt,
        &log.sections()[2],
        Name { run, number: 2 },
        &[store, Event::Fence],
    );
    let number = u64::MAX;
    has_events(rt, &log.sections()[3], Name { run, number }, &[]);
    Ok(())
}

#[test]
fn a_log_is_read_whole_and_byte_by_byte(rt: HostRuntime) -> Result<(), Fail> {
    is_of_text(&rt, &read_log(rt.alloc(), TEXT, 5)?)?;
    let mut reader = LogReader::new(rt.alloc(), 5);
    for byte in TEXT {
        reader.feed(&[*byte])?;
    }
    is_of_text(&rt, &reader.finish()?)
}

// How many events the log's one section has, or 0 where it has no section.
fn count_events(log: &Log) -> usize {
    match log.sections() {
        [section] => section.events().len(),
        _ => 0,
    }
}

// How many events and skipped records the text has, or its first fault.
fn answer(alloc: Global, text: &[u8]) -> Result<(usize, u64), LogFault> {
    let log = read_log(alloc, text, 7)?;
    Ok((count_events(&log), log.skipped()))
}

fn refused(at: u64, cause: Cause) -> Result<(usize, u64), LogFault> {
    Err(LogFault { at, cause })
}

#[test]
fn the_only_section_is_told_while_a_log_is_read(rt: HostRuntime) -> Result<(), Fail> {
    let mut reader = LogReader::new(rt.alloc(), 5);
    // After each piece the number of the only section, if there is just one, and how many events it has.
    for (piece, want) in [
        ("", None),
        ("x|FENCE", None),
        ("|", Some((0, 1))),
        ("STORE;1;2;3", Some((0, 1))),
        ("|x|PMT.SECTION;0|", Some((0, 2))),
        ("PMT.SECTION;7|", None),
    ] {
        reader.feed(piece.as_bytes())?;
        let told = reader
            .only_section()
            .map(|section| (section.name().number, section.events().len()));
        assert_eq!(rt; told, want, "after {piece}");
    }
    Ok(())
}

#[test]
fn each_record_is_read_as_the_table_says(rt: HostRuntime) {
    let few = Cause::TooFewFields;
    let bad = Cause::BadNumber;
    let unknown = Cause::UnknownMarker;
    let zero = Cause::BadSpan(SpanFault::ZeroSize);
    let large = Cause::BadSpan(SpanFault::TooLarge);
    let past = Cause::BadSpan(SpanFault::PastEnd);
    for (text, want) in [
        ("", Ok((0, 0))),
        (" | \t|", Ok((0, 0))),
        ("STORE;0x0;0;0", refused(1, zero)),
        ("STORE;0x0;0;4294967296", Ok((1, 0))),
        ("STORE;0x0;0;4294967297", refused(1, large)),
        ("STORE;0x7fffffffffffffff;0;1", Ok((1, 0))),
        ("STORE;0x7fffffffffffffff;0;2", refused(1, past)),
        ("FENCE|STORE;0x10", refused(2, few)),
        ("PMT.SHARE;0x0;0x8", refused(1, unknown)),
        ("PMT.X;junk|FENCE", refused(1, unknown)),
        ("FLUSH;bad;0", refused(1, bad)),
        ("FLUSH;1", refused(1, few)),
        ("FLUSH;1;2;junk", Ok((1, 0))),
        ("FENCE;junk", Ok((1, 0))),
        ("fence|STORE ;1;2;3|START", Ok((0, 3))),
        ("REGISTER_FILE;a||STORE;1", refused(2, few)),
        ("PMT.ORDERED;0x0;8;0x7fffffffffffffff;1;x", Ok((1, 0))),
        ("PMT.ORDERED;x;0;x", refused(1, few)),
        ("PMT.ORDERED;0x0;0;0x0;x", refused(1, bad)),
        ("PMT.ORDERED;0x0;8;0x40; 8", refused(1, bad)),
        ("PMT.ORDERED;0x0;4294967297;0x0;0", refused(1, large)),
        ("PMT.ORDERED;0x0;8;0x0;0", refused(1, zero)),
        ("PMT.EXCLUDE;x;0", refused(1, bad)),
        ("PMT.INCLUDE;x", refused(1, few)),
        ("PMT.TXADD;", refused(1, few)),
        ("PMT.TXADD;0x8000000000000000;x", refused(1, bad)),
        ("PMT.TXADD;0x8000000000000000;0", refused(1, zero)),
        ("PMT.TXBEGIN;", Ok((1, 0))),
        ("PMT.CHECKEND; PMT.TXADD", Ok((1, 0))),
        ("PMT.", refused(1, unknown)),
        ("PMT.TXBEGI", refused(1, unknown)),
        ("PMT.TXBEGINX", refused(1, unknown)),
        ("PMT.TXBEGIN ;", refused(1, unknown)),
        ("PMT.txadd;0x0;8", refused(1, unknown)),
        ("PMT.SECTION", refused(1, few)),
        ("PMT.SECTION;0X1", refused(1, bad)),
        ("PMT.SECTION;18446744073709551616", refused(1, bad)),
    ] {
        assert_eq!(rt; answer(rt.alloc(), text.as_bytes()), want, "at {text}");
    }
}

#[test]
fn a_number_is_hexadecimal_with_a_small_x_or_decimal(rt: HostRuntime) {
    for (text, want) in [
        ("0X10", None),
        ("0x", None),
        ("", None),
        ("+1", None),
        ("1a", None),
        ("0xfF", Some(255)),
        ("0xfFfFfFfFfFfFfFfF", Some(u64::MAX)),
        ("0x0000000000000000f", None),
        ("00000000000000000016", Some(16)),
        ("000000000000000000016", None),
        ("18446744073709551615", Some(u64::MAX)),
        ("18446744073709551616", None),
    ] {
        assert_eq!(rt; number::read_number(text.as_bytes()), want, "at {text}");
    }
}

#[test]
fn a_reader_that_refused_is_spent(rt: HostRuntime) {
    let spent = Err(LogFault {
        at: 0,
        cause: Cause::Spent,
    });
    let unknown = Err(LogFault {
        at: 1,
        cause: Cause::UnknownMarker,
    });
    let mut reader = LogReader::new(rt.alloc(), 0);
    assert_eq!(rt; reader.feed(b"PMT"), Ok(()));
    assert_eq!(rt; reader.feed(b".X|"), unknown);
    assert_eq!(rt; reader.feed(b""), spent);
    assert_eq!(rt; reader.feed(b"FENCE|"), spent);
    assert_eq!(rt; reader.finish().map(|log| log.skipped()), spent.map(|_| 0));
}

#[test]
fn faults_are_shown_with_their_record(rt: HostRuntime) -> Result<(), Fail> {
    for (at, cause, want) in [
        (1, Cause::TooFewFields, "record 1: too few fields"),
        (20, Cause::BadNumber, "record 20: bad number"),
        (
            3,
            Cause::BadSpan(SpanFault::ZeroSize),
            "record 3: size is zero",
        ),
        (
            4,
            Cause::BadSpan(SpanFault::TooLarge),
            "record 4: size is too large",
        ),
        (
            5,
            Cause::BadSpan(SpanFault::PastEnd),
            "record 5: range ends past 2^63",
        ),
        (6, Cause::UnknownMarker, "record 6: unknown marker"),
        (7, Cause::TooManySections, "record 7: too many sections"),
        (
            8,
            Cause::TooManyEvents,
            "record 8: too many events in the section",
        ),
        (9, Cause::TooLong, "record 9: log is too long"),
        (0, Cause::OutOfMemory, "out of memory"),
        (0, Cause::Spent, "the reader is spent"),
    ] {
        let text = format!(in rt.alloc(); "{}", LogFault { at, cause })?;
        assert_eq!(rt; text.as_str(), want);
    }
    Ok(())
}
