//! What is told of logs, and its text.

use crate::{Overview, Survey, Warnings, lint_log, near, warnings_due};
use pmf_query::{LogRefusal, Query, is_text};
use pmf_storelog::{Cause, LogFault, read_log};
use std::alloc::Global;
use std::test::Fail;

// A misspelt store, an assertion with nothing to check, a store that none covers, and one that one covers.
const MIXED: &[u8] = b"STORE;0x10;0;8|STOER;0x20;0;8|FLUSH;0x10;8|FENCE|PMT.PERSIST;0x17;1
START|PMT.PERSIST;0x100;8\r\nSTART|STORE;0x10;0;8|PMT.SECTION;1|FENCE;x";

const MIXED_TEXT: &str = "records=11 events=7 sections=2 skipped=3
STORE records=2
FLUSH records=1
FENCE records=2
PMT.PERSIST records=2
PMT.SECTION records=1
skipped STOER records=1 near=STORE
skipped START records=2
assertions=2 empty=1
stores=2 unasserted=1
unwritten=1 unfenced=0 overwriting=0
fences=2 idle=1
unwritten 0x10 stores=1
warning: a skipped name is near a known one
warning: no end stands behind the last record
warning: START stands without STOP
";

// What a log holds, with the stores that no assertion covers where these are asked for.
fn survey(unasserted: bool) -> Survey {
    Survey {
        asked: Overview { unasserted },
    }
}

fn text_of(alloc: Global, log: &[u8]) -> Result<Vec<u8>, LogRefusal> {
    Ok(survey(false).answer(alloc, log)?.text)
}

// The text, with the stores that no assertion covers where these are asked for.
fn ends_with(alloc: Global, log: &[u8], unasserted: bool, end: &str) -> Result<bool, LogRefusal> {
    let answer = survey(unasserted).answer(alloc, log)?;
    Ok(answer.text.ends_with(end.as_bytes()))
}

// How many stores there are, and how many no later assertion covers.
fn stores_of(alloc: Global, log: &[u8]) -> Result<(u128, u128), LogRefusal> {
    let lint = lint_log(alloc, log)?;
    Ok((lint.sums.stores, lint.sums.unasserted))
}

// The warnings, as they are looked for where nothing else is told of the log.
fn warnings_alone(alloc: Global, log: &[u8]) -> Result<Warnings, LogRefusal> {
    match read_log(alloc, log, 0) {
        Ok(read) => Ok(warnings_due(alloc, log, &read)?),
        Err(fault) => Err(LogRefusal::Log(fault)),
    }
}

// What is suspicious: nothing is asserted, each assertion is empty, a name is near, a name is no text.
fn warnings_of(alloc: Global, log: &[u8]) -> Result<(bool, bool, bool, bool), LogRefusal> {
    let w = warnings_alone(alloc, log)?;
    Ok((
        w.asserts_nothing,
        w.checks_nothing,
        w.has_near,
        w.has_strange,
    ))
}

#[test]
fn the_text_tells_names_sums_and_warnings(rt: HostRuntime) -> Result<(), Fail> {
    let answer = survey(false).answer(rt.alloc(), MIXED)?;
    assert!(rt; answer.told.is_suspicious);
    assert!(rt; answer.text.as_slice() == MIXED_TEXT.as_bytes());
    let empty = text_of(rt.alloc(), b"")?;
    let want =
        "records=0 events=0 sections=0 skipped=0\nassertions=0 empty=0\nstores=0 unasserted=0\nunwritten=0 unfenced=0 overwriting=0\nfences=0 idle=0\nwarning: nothing is asserted\n";
    assert!(rt; empty.as_slice() == want.as_bytes());
    let strange = text_of(rt.alloc(), b"\xef\xbb\xbfSTORE;0x10;0;8|a\\b|PMT.CHECKEND")?;
    let want =
        "records=3 events=1 sections=1 skipped=2\nPMT.CHECKEND records=1\nskipped \\xef\\xbb\\xbfSTORE records=1 near=STORE\nskipped a\\\\b records=1\nassertions=1 empty=0\nstores=0 unasserted=0\nunwritten=0 unfenced=0 overwriting=0\nfences=0 idle=0\nwarning: a skipped name is near a known one\nwarning: a skipped name is not text\nwarning: no end stands behind the last record\n";
    assert!(rt; strange.as_slice() == want.as_bytes());
    Ok(())
}

#[test]
fn a_long_name_is_cut_and_the_33rd_name_is_another(rt: HostRuntime) -> Result<(), Fail> {
    let mut log = Vec::new(rt.alloc());
    for letter in 0..34 {
        log.extend_from_slice(&[b'a', b'A' + letter, b'|'])?;
    }
    log.extend_from_slice(b"aA|")?;
    assert_eq!(rt;
        warnings_of(rt.alloc(), &log),
        Ok((true, false, false, false))
    );
    log.extend_from_slice(b"STOER|a\x7f|")?;
    let lint = lint_log(rt.alloc(), &log)?;
    assert_eq!(rt; (lint.skipped, lint.listed.len(), lint.others), (37, 32, 4));
    assert!(rt; lint.warnings.has_near && lint.warnings.has_strange);
    assert_eq!(rt; lint.listed[0].records, 2);
    assert_eq!(rt; lint.listed[31].name, b"a`".as_slice());
    let mut long = Vec::new(rt.alloc());
    for _ in 0..65 {
        long.push(b'x')?;
    }
    let text = text_of(rt.alloc(), &long)?;
    assert!(rt;
        text.starts_with(
            b"records=1 events=0 sections=0 skipped=1\nskipped xxxxxxxxxxxxxxxxxxxxxxxxxxxxxxxxxxxxxxxxxxxxxxxxxxxxxxxxxxxxxxxx.. records=1\n"
        )
    );
    Ok(())
}

#[test]
fn a_store_is_covered_by_what_comes_later(rt: HostRuntime) {
    let cases: [(&[u8], (u128, u128)); 12] = [
        (b"STORE;16;0;8|PMT.PERSIST;23;1", (1, 0)),
        (b"STORE;16;0;8|PMT.PERSIST;24;1", (1, 1)),
        (b"STORE;16;0;8|PMT.PERSIST;8;8", (1, 1)),
        (b"PMT.PERSIST;16;8|STORE;16;0;8", (1, 1)),
        (b"STORE;16;0;8|PMT.ORDERED;16;1;64;1|STORE;64;0;8", (2, 1)),
        (b"STORE;16;0;8|STORE;64;0;8|PMT.ORDERED;128;1;64;1", (2, 1)),
        (b"STORE;16;0;8|PMT.SECTION;1|PMT.PERSIST;16;8", (1, 1)),
        (
            b"PMT.CHECKSTART|PMT.TXBEGIN|STORE;16;0;8|PMT.TXEND|STORE;16;0;8|PMT.CHECKEND",
            (2, 1),
        ),
        (
            b"PMT.TXBEGIN|STORE;16;0;8|PMT.CHECKSTART|PMT.CHECKEND",
            (1, 1),
        ),
        (b"PMT.CHECKSTART|PMT.TXBEGIN|STORE;16;0;8|PMT.TXEND", (1, 1)),
        (
            b"PMT.TXEND|PMT.TXBEGIN|PMT.CHECKSTART|STORE;16;0;8|PMT.CHECKEND|STORE;16;0;8|PMT.CHECKEND",
            (2, 1),
        ),
        (
            b"PMT.TXBEGIN|PMT.TXBEGIN|PMT.TXEND|PMT.CHECKSTART|PMT.CHECKSTART|STORE;1;0;1|PMT.CHECKEND",
            (1, 0),
        ),
    ];
    for (log, want) in cases {
        assert_eq!(rt; stores_of(rt.alloc(), log), Ok(want), "at {}", want.0);
    }
}

#[test]
fn what_is_no_log_is_suspicious(rt: HostRuntime) {
    let cases: [(&[u8], (bool, bool, bool, bool)); 6] = [
        (
            b"STORE;1;0;1|PMT.PERSIST;1;1|START",
            (false, false, false, false),
        ),
        (b"STORE;1;0;1|FENCE", (true, false, false, false)),
        (
            b"STORE;1000;0;1|PMT.PERSIST;0x1000;1|PMT.ORDERED;1000;1;1;1",
            (false, true, false, false),
        ),
        (b"PMT_PERSIST;1;1|PMT.CHECKEND", (false, false, true, false)),
        (
            b"\xef\xbb\xbfSTORE;1;0;1|PMT.PERSIST;1;1",
            (false, true, true, true),
        ),
        (
            b"\xff\xfeS\0T\0O\0R\0E\0;\x001\0",
            (true, false, false, true),
        ),
    ];
    for (log, want) in cases {
        assert_eq!(rt; warnings_of(rt.alloc(), log), Ok(want), "at {}", log.len());
    }
}

#[test]
fn a_log_may_be_cut_off_or_misread(rt: HostRuntime) -> Result<(), Fail> {
    // Whether the last record has no end, START no STOP, and an empty assertion would not be if its address were hexadecimal.
    let cases: [(&[u8], (bool, bool, bool)); 20] = [
        (b"STORE;1;0;1|PMT.PERSIST;1;1|", (false, false, false)),
        (b"STORE;1;0;1|PMT.PERSIST;1;1", (true, false, false)),
        (b"STORE;1;0;1\nPMT.PERSIST;1;1\r ", (false, false, false)),
        (
            b"START|STORE;1;0;1|PMT.PERSIST;1;1| STOP\t",
            (false, false, false),
        ),
        (b"START|FENCE|STOP;1", (true, false, false)),
        (b"START|FENCE|STOPP|", (false, true, false)),
        (b"FENCE|START;1", (true, true, false)),
        (b"FENCE|STOP", (false, false, false)),
        (
            b"STORE;0x1000;0;8|PMT.PERSIST;1000;8|",
            (false, false, true),
        ),
        (
            b"STORE;0x1000;0;8|PMT.PERSIST;0x3e8;8|",
            (false, false, false),
        ),
        (
            b"STORE;0x1000;0;8|PMT.PERSIST;0x1000;8|PMT.ORDERED;0x1000;8;1000;8|",
            (false, false, true),
        ),
        (
            b"STORE;0x1000;0;8|PMT.ORDERED;0x1000;8;2000;8|",
            (false, false, false),
        ),
        // Of two assertions one is decimal, and the other one would not be empty.
        (
            b"STORE;0x1000;0;8|PMT.PERSIST;4096;8|PMT.PERSIST;0x3e8;8|",
            (false, false, false),
        ),
        (
            b"PMT.SECTION;1|PMT.PERSIST;1000;8|PMT.SECTION;2|STORE;0x1000;0;8|PMT.PERSIST;0x3e8;8|",
            (false, false, false),
        ),
        (
            b"PMT.SECTION;9|STORE;0x1000;0;8|PMT.SECTION;2|PMT.PERSIST;0x3e8;8|PMT.SECTION;9|PMT.PERSIST;1000;8|",
            (false, false, true),
        ),
        (b"STORE;1000;0;8|PMT.PERSIST;1000;8|", (false, false, false)),
        (
            b"PMT.PERSIST;1000;8|STORE;0x1000;0;8|",
            (false, false, false),
        ),
        (
            b"STORE;0x1000;0;8|PMT.SECTION;1|PMT.PERSIST;1000;8|",
            (false, false, false),
        ),
        (
            b"STORE;0x1000;0;8|PMT.EXCLUDE;0x1000;8|PMT.PERSIST;1000;8|",
            (false, false, false),
        ),
        (
            b"STORE;0x1000;0;8|PMT.PERSIST;9223372036854775800;8|",
            (false, false, false),
        ),
    ];
    for (log, want) in cases {
        let w = lint_log(rt.alloc(), log)?.warnings;
        assert_eq!(rt; warnings_alone(rt.alloc(), log)?, w, "at {}", log.len());
        let found = (w.is_open_ended, w.lacks_stop, w.is_misread);
        assert_eq!(rt; found, want, "at {}", log.len());
    }
    Ok(())
}

#[test]
fn stores_that_are_left_and_fences_are_counted(rt: HostRuntime) -> Result<(), Fail> {
    // Stores that lack a write-back, others that lack a fence, stores over bytes that are not durable, fences, and idle ones.
    let cases: [(&[u8], (u128, u128, u128, u128, u128)); 12] = [
        (b"STORE;0;0;8|FLUSH;0;8|FENCE", (0, 0, 0, 1, 0)),
        (b"STORE;0;0;8|FLUSH;0;8", (0, 1, 0, 0, 0)),
        (b"STORE;0;0;8|FENCE", (1, 0, 0, 1, 1)),
        (b"FLUSH;0;8|STORE;0;0;8|FENCE", (1, 0, 0, 1, 0)),
        (b"STORE;0;0;8|STORE;4;0;8", (2, 0, 1, 0, 0)),
        (b"STORE;0;0;8|STORE;0;0;8", (1, 0, 1, 0, 0)),
        (
            b"STORE;0;0;8|FLUSH;0;8|FENCE|STORE;0;0;8|FLUSH;0;8|FENCE|FENCE",
            (0, 0, 0, 3, 1),
        ),
        (b"STORE;60;0;8|FLUSH;60;1|FENCE", (1, 0, 0, 1, 0)),
        (b"STORE;60;0;8|FLUSH;60;1", (1, 0, 0, 0, 0)),
        (b"STORE;0;0;8|PMT.EXCLUDE;0;8|STORE;0;0;8", (0, 0, 0, 0, 0)),
        (
            b"STORE;0;0;8|PMT.SECTION;1|FLUSH;0;8|FENCE|STORE;0;0;8|FLUSH;0;8",
            (1, 1, 0, 1, 0),
        ),
        (b"STORE;0;0;4294967296|STORE;8;0;8", (2, 0, 1, 0, 0)),
    ];
    for (log, want) in cases {
        let u = lint_log(rt.alloc(), log)?.sums.upkeep;
        let found = (u.unwritten, u.unfenced, u.overwriting, u.fences, u.idle);
        assert_eq!(rt; found, want, "at {}", log.len());
    }
    Ok(())
}

#[test]
fn stores_are_named_by_where_they_were_made(rt: HostRuntime) -> Result<(), Fail> {
    // Whether the stores are asked for that no assertion covers, and the text from the fences on.
    let cases: [(&[u8], bool, &str); 8] = [
        (
            b"STORE;0;0;8;f|FLUSH;0;8|FENCE|PMT.CHECKEND|",
            false,
            "fences=1 idle=0\n",
        ),
        (
            b"STORE;0x40;0;8;main (a.c:3);x|STORE;0x40;0;8;main (a.c:3)|STORE;0x80;0;8|PMT.CHECKEND|",
            false,
            "fences=0 idle=0\nunwritten main (a.c:3) stores=1\nunwritten 0x80 stores=1\n",
        ),
        (
            b"STORE;0;0;8;a|STORE;64;0;8;b|STORE;128;0;8;a|FLUSH;64;8|FLUSH;128;8|PMT.SECTION;1|STORE;0;0;8;b|STORE;8;0;8;|PMT.CHECKEND|",
            false,
            "fences=0 idle=0\nunwritten a stores=1\nunwritten b stores=1\nunwritten 8 stores=1\nunfenced b stores=1\nunfenced a stores=1\n",
        ),
        (
            b"PMT.SECTION;2|STORE;0;0;8;late|PMT.SECTION;1|STORE;0;0;8;early|PMT.SECTION;2|STORE;8;0;8;late|PMT.CHECKEND|",
            false,
            "fences=0 idle=0\nunwritten early stores=1\nunwritten late stores=2\n",
        ),
        (
            b"STORE;0;0;8;a|PMT.PERSIST;0;8|STORE;8;0;8;a|STORE;64;0;8;b|FLUSH;0;128|FENCE|",
            true,
            "fences=1 idle=0\nunasserted a stores=1\nunasserted b stores=1\n",
        ),
        (
            b"STORE;0;0;8;a|PMT.PERSIST;0;8|STORE;8;0;8;a|STORE;64;0;8;b|FLUSH;0;128|FENCE|",
            false,
            "fences=1 idle=0\n",
        ),
        (
            b"STORE;0;0;8;a|FLUSH;0;8|STORE;0;0;4;b|PMT.PERSIST;0;4|",
            true,
            "fences=0 idle=0\nunwritten b stores=1\nunfenced a stores=1\n",
        ),
        (
            b"STORE;0;0;8;a|PMT.EXCLUDE;0;8|PMT.CHECKEND|",
            true,
            "fences=0 idle=0\nunasserted a stores=1\n",
        ),
    ];
    for (log, unasserted, want) in cases {
        assert_eq!(rt;
            ends_with(rt.alloc(), log, unasserted, want),
            Ok(true),
            "at {want}"
        );
    }
    Ok(())
}

#[test]
fn the_33rd_name_of_a_store_is_another(rt: HostRuntime) -> Result<(), Fail> {
    let mut log = Vec::new(rt.alloc());
    for k in 0..34 {
        let address = [b'0' + k / 10, b'0' + k % 10];
        log.extend_from_slice(b"STORE;")?;
        log.extend_from_slice(&address)?;
        log.extend_from_slice(b";0;1;")?;
        log.extend_from_slice(&[b'A' + k, b'|'])?;
    }
    log.extend_from_slice(b"STORE;99;0;1;A|PMT.CHECKEND|")?;
    let front = "fences=0 idle=0\nunwritten A stores=2\nunwritten B stores=1\n";
    let answer = survey(false).answer(rt.alloc(), &log)?;
    assert!(rt;
        answer
            .text
            .windows(front.len())
            .any(|part| part == front.as_bytes())
    );
    assert!(rt;
        answer
            .text
            .ends_with(b"\nunwritten ` stores=1\nunwritten others stores=2\n")
    );
    Ok(())
}

#[test]
fn a_name_is_near_where_one_letter_is_off(rt: HostRuntime) {
    for (name, want) in [
        ("STOER", "STORE"),
        ("store", "STORE"),
        ("STOR", "STORE"),
        ("STORES", "STORE"),
        ("TORE", "STORE"),
        ("SSTORE", "STORE"),
        ("FENCF", "FENCE"),
        ("PMT_PERSIST", "PMT.PERSIST"),
        ("PMTPERSIST", "PMT.PERSIST"),
        ("==123== STORE", "STORE"),
        ("STORE,0x1000,7,8", "STORE"),
        ("tsore", "STORE"),
        ("DO_FLUSH", ""),
        ("FENCE.END", ""),
        ("START", ""),
        ("xSTORES", ""),
        ("xxSTORE", ""),
        ("", ""),
    ] {
        let found = near(name.as_bytes()).unwrap_or(b"");
        assert!(rt; found == want.as_bytes(), "at {name}");
    }
    assert!(rt; is_text(b" ~") && !is_text(b"a\t") && !is_text(b"\x7f"));
}

#[test]
fn a_faulty_log_is_refused(rt: HostRuntime) {
    let fault = LogFault {
        at: 2,
        cause: Cause::UnknownMarker,
    };
    let want = Some(LogRefusal::Log(fault));
    assert_eq!(rt; text_of(rt.alloc(), b"FENCE|PMT.X;1").err(), want);
}
