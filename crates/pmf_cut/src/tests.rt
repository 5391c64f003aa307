//! Logs that are cut, written out, and what is said of the cuts.

ghost use Rattle.std.specs.Prelude.{◌<◌};

use crate::{CutFault, Cutter, Text};
use pmf_storelog::{Cause, LogFault};
use std::alloc::Global;
use std::test::Fail;

// Cuts a log that is read in pieces of so many bytes; the text of each file, and the lines that are said.
fn cut(
    alloc: Global,
    log: &[u8],
    events: u32,
    step: u64,
    piece: usize,
    most: Option<u64>,
) -> Result<(Vec<Text>, Vec<String>), CutFault>
    requires { 0 < piece }
{
    let mut cutter = Cutter::new(alloc, events, step, most)?;
    for bytes in log.chunks(piece) {
        cutter.take(bytes)?;
    }
    cutter.finish()?;
    Ok((cutter.drain()?, cutter.notes()))
}

// Whether these are the texts of the files, in their order.
fn are_texts(found: &[Text], want: &[&[u8]]) -> bool {
    found.len() == want.len()
        && found
            .iter()
            .zip(want)
            .all(|(text, bytes)| text.bytes.as_slice() == *bytes)
}

// Whether the log is cut into this text in pieces of each size, with this line said, or none.
fn is_cut(
    alloc: Global,
    log: &[u8],
    events: u32,
    step: u64,
    text: &[u8],
    line: Option<&str>,
) -> Result<bool, CutFault> {
    for piece in [1, 2, 7, 64, 1000] {
        let (out, lines) = cut(alloc, log, events, step, piece, None)?;
        let said = match lines.first() {
            Some(said) => lines.len() == 1 && line == Some(said.as_str()),
            None => line.is_none(),
        };
        if !are_texts(&out, &[text]) || !said {
            return Ok(false);
        }
    }
    Ok(true)
}

const DURABLE: &[u8] =
    b"STORE;0x1000;7;8|FLUSH;0x1000;64|FENCE|STORE;0x1000;7;8|FLUSH;0x1000;64|FENCE|";

const DURABLE_CUT: &[u8] =
    b"STORE;0x1000;7;8|FLUSH;0x1000;64|FENCE|PMT.SECTION;1000|STORE;0x1000;7;8|FLUSH;0x1000;64|FENCE|";

// Open at each place: cut at seven eighths of eight, in front of a store.
const OPEN: &[u8] =
    b"PMT.EXCLUDE;0x40;8|PMT.EXCLUDE;0x48;8|STORE;0x0;1;8|FLUSH;0x0;1|STORE;0x8;1;2|STORE;0x9;1;1|FENCE
PMT.PERSIST;0x0;9|STORE;0x80;1;8";

const OPEN_CUT: &[u8] =
    b"PMT.EXCLUDE;0x40;8|PMT.EXCLUDE;0x48;8|STORE;0x0;1;8|FLUSH;0x0;1|STORE;0x8;1;2|STORE;0x9;1;1|FENCE
PMT.PERSIST;0x0;9|PMT.SECTION;57|PMT.EXCLUDE;0x40;0x10|STORE;0x8;0x0;0x1|STORE;0x9;0x0;0x1|STORE;0x80;1;8";

// Written back and not fenced: told again with its write-back, as one store, though a later one lies within it.
const UNFENCED: &[u8] =
    b"STORE;0x0;1;8|FLUSH;0x0;1|STORE;0x4;1;8|FENCE|STORE;0x44;1;60|FLUSH;0x40;1|STORE;0x70;1;1|STORE;0x100;1;1";

const UNFENCED_CUT: &[u8] =
    b"STORE;0x0;1;8|FLUSH;0x0;1|STORE;0x4;1;8|FENCE|STORE;0x44;1;60|FLUSH;0x40;1|STORE;0x70;1;1|\
PMT.SECTION;9|STORE;0x44;0x0;0x3c|FLUSH;0x40;0x40|STORE;0x4;0x0;0x8|STORE;0x70;0x0;0x1|STORE;0x100;1;1";

// More than half of the next part is open where the cut is overdue: it waits for the eighth event.
const WAITS: &[u8] =
    b"STORE;0x0;1;1|STORE;0x40;1;1|STORE;0x80;1;1|STORE;0xc0;1;1|STORE;0x100;1;1|FENCE|FENCE|STORE;0x140;1;1|FENCE";

const WAITS_CUT: &[u8] =
    b"STORE;0x0;1;1|STORE;0x40;1;1|STORE;0x80;1;1|STORE;0xc0;1;1|STORE;0x100;1;1|FENCE|FENCE|STORE;0x140;1;1|PMT.SECTION;9|\
STORE;0x0;0x0;0x1|STORE;0x40;0x0;0x1|STORE;0x80;0x0;0x1|STORE;0xc0;0x0;0x1|STORE;0x100;0x0;0x1|STORE;0x140;0x0;0x1|FENCE";

// A head would leave no room behind the eighth event: the cut is made where nothing is open.
const CROWDED: &[u8] =
    b"STORE;0x0;1;1|STORE;0x40;1;1|STORE;0x80;1;1|STORE;0xc0;1;1|STORE;0x100;1;1|STORE;0x140;1;1|STORE;0x180;1;1|STORE;0x1c0;1;1|\
FLUSH;0x0;512|FENCE|STORE;0x0;2;1";

const CROWDED_CUT: &[u8] =
    b"STORE;0x0;1;1|STORE;0x40;1;1|STORE;0x80;1;1|STORE;0xc0;1;1|STORE;0x100;1;1|STORE;0x140;1;1|STORE;0x180;1;1|STORE;0x1c0;1;1|\
FLUSH;0x0;512|FENCE|PMT.SECTION;9|STORE;0x0;2;1";

#[test]
fn a_cut_waits_for_room(rt: HostRuntime) -> Result<(), Fail> {
    let crowded =
        "section 0, event 9: the piece has more than 8 events: what is excluded or not durable takes about 8 events";
    assert!(rt; is_cut(rt.alloc(), WAITS, 8, 9, WAITS_CUT, None)?);
    assert!(rt; is_cut(rt.alloc(), CROWDED, 8, 9, CROWDED_CUT, Some(crowded))?);
    Ok(())
}

#[test]
fn what_is_open_is_told_again(rt: HostRuntime) -> Result<(), Fail> {
    assert!(rt; is_cut(rt.alloc(), DURABLE, 4, 1000, DURABLE_CUT, None)?);
    assert!(rt; is_cut(rt.alloc(), OPEN, 8, 57, OPEN_CUT, None)?);
    assert!(rt; is_cut(rt.alloc(), UNFENCED, 8, 9, UNFENCED_CUT, None)?);
    Ok(())
}

const SCOPE: &[u8] = b"PMT.CHECKSTART|FENCE|FENCE|FENCE|PMT.CHECKEND|FENCE";

const SCOPE_CUT: &[u8] = b"PMT.CHECKSTART|FENCE|FENCE|FENCE|PMT.CHECKEND|PMT.SECTION;9|FENCE";

const OLD: &[u8] = b"STORE;0;1;8|FLUSH;0;1|FENCE|STORE;64;1;8|PMT.ORDERED;64;8;0;8";

const OLD_CUT: &[u8] =
    b"STORE;0;1;8|FLUSH;0;1|FENCE|PMT.SECTION;9|STORE;64;1;8|PMT.ORDERED;64;8;0;8";

#[test]
fn what_a_cut_may_change_is_said(rt: HostRuntime) -> Result<(), Fail> {
    let long =
        "section 0, event 4: the piece has more than 3 events: a transaction or a scope is open";
    assert!(rt; is_cut(rt.alloc(), SCOPE, 3, 9, SCOPE_CUT, Some(long))?);
    let lost =
        "section 0, event 5: PMT.ORDERED names bytes of before the cut: it may have lost its FAIL";
    assert!(rt; is_cut(rt.alloc(), OLD, 4, 9, OLD_CUT, Some(lost))?);
    Ok(())
}

const PARTED: &[u8] =
    b"STORE;0;1;8|FLUSH;0;1|FENCE|PMT.SECTION;1|PMT.TXBEGIN|PMT.SECTION;0|STORE;64;1;8|\
PMT.SECTION;1|STORE;0;1;8|PMT.TXEND|FENCE|STORE;0;2;8";

// The transaction ends in the file in which it began.
const FILES: [&[u8]; 3] = [
    b"STORE;0;1;8|FLUSH;0;1|FENCE|PMT.SECTION;1|PMT.SECTION;0|",
    b"PMT.SECTION;10|PMT.TXBEGIN|PMT.SECTION;9|STORE;64;1;8|PMT.SECTION;10|STORE;0;1;8|PMT.TXEND|FENCE|",
    b"PMT.SECTION;19|STORE;0x0;0x0;0x8|STORE;0;2;8",
];

#[test]
fn a_part_goes_whole_to_one_file(rt: HostRuntime) -> Result<(), Fail> {
    for piece in [1, 64, 1000] {
        let (texts, lines) = cut(rt.alloc(), PARTED, 100, 9, piece, Some(40))?;
        assert!(rt; are_texts(&texts, &FILES), "{piece}");
        let long = lines.first().map(|line| line.as_str());
        assert_eq!(rt; long, Some("file 1 has 56 bytes, more than 40"));
        assert_eq!(rt; lines.len(), 3);
    }
    Ok(())
}

#[test]
fn numbers_that_meet_and_a_faulty_log_are_refused(rt: HostRuntime) {
    let few = LogFault {
        at: 2,
        cause: Cause::TooFewFields,
    };
    let taken = CutFault::Taken {
        at: 5,
        section: 3,
        number: 3,
    };
    let none = CutFault::NoNumber {
        at: 4,
        section: 18446744073709551614,
    };
    for (log, want) in [
        ("PMT.SECTION;3|PMT.SECTION;1|FENCE|FENCE|FENCE", taken),
        ("PMT.SECTION;18446744073709551614|FENCE|FENCE|FENCE", none),
        ("FENCE||FLUSH;0", CutFault::Log(few)),
    ] {
        let found = cut(rt.alloc(), log.as_bytes(), 2, 2, 64, None).err();
        assert_eq!(rt; found, Some(want));
    }
}
