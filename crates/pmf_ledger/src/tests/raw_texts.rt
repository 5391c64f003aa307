//! Where the blocks of a text stand, and which of them tell a fail.

use crate::{begins_no_block, first_block, first_version, trusted_version};
use pmf_event::Profile;
use std::alloc::Global;
use std::process::Abort;
use std::test::Fail;

#[test]
fn a_first_line_tells_the_profile(rt: HostRuntime) -> Result<(), Fail> {
    for (bytes, want) in [
        (
            b"PMFARM-LEDGER 1\nsection".as_slice(),
            Some((Profile::One, 16)),
        ),
        (b"PMFARM-LEDGER 2\n", Some((Profile::Two, 16))),
        (b"PMFARM-TRUSTED 1\n", Some((Profile::One, 17))),
        (b"PMFARM-TRUSTED 2\nend", Some((Profile::Two, 17))),
        (b"PMFARM-LEDGER 1", None),
        (b"PMFARM-LEDGER 3\n", None),
        (b"PMFARM-TRUSTED 10\n", None),
        (b"PMFARM-TRUSTED 1\r\n", None),
        (b"", None),
    ] {
        assert_eq!(rt; first_version(bytes), want);
    }
    assert_eq!(rt; trusted_version(Profile::One), "PMFARM-TRUSTED 1");
    assert_eq!(rt; trusted_version(Profile::Two), "PMFARM-TRUSTED 2");
    Ok(())
}

#[test]
fn no_block_begins_where_the_first_line_is_no_head(rt: HostRuntime) -> Result<(), Fail> {
    for (bytes, want) in [
        (b"end verdicts=0\n".as_slice(), true),
        (b"section 0.0 events=0\n", true),
        (b"\n", true),
        (b"section 0.0 events=9 rows=9\n", false),
        // The text line isn't ended.
        (b"end verdicts=0", false),
        (b"", false),
    ] {
        assert_eq!(rt; begins_no_block(bytes), want);
    }
    Ok(())
}

// Whether a block with this row tells a fail, by itself and behind a row that tells none.
fn fails<R: Abort>(rt: &R, alloc: Global, row: &str, want: bool) -> Result<(), Fail> {
    for front in [
        "section 0.0 events=1 rows=1\nFENCE\n",
        "section 0.0 events=0 rows=2\n7 ORDERED PASS\n",
    ] {
        let mut text = String::new(alloc);
        text.push_str(front)?;
        text.push_str(row)?;
        text.push_str("\nsection")?;
        let found = first_block(text.as_bytes()).expect(rt, "a block");
        assert!(rt; found.tells_fail(text.as_bytes()) == want, "{row:?}");
    }
    Ok(())
}

#[test]
fn a_row_fails_or_not(rt: HostRuntime) -> Result<(), Fail> {
    let alloc = rt.alloc();
    for (row, want) in [
        ("1 PERSIST PASS", false),
        ("2 PERSIST EMPTY", false),
        ("3 ORDERED PASS", false),
        ("4 ORDERED EMPTY", false),
        ("5 FLUSH DOUBLED line=0x1000 lines=1", false),
        ("6 FLUSH NEEDLESS line=0x1000 lines=1", false),
        ("7 TXADD DUPLOG byte=0x1000", false),
        ("8 CHECKEND PASS", false),
        ("1 PERSIST FAIL byte=0x1000 crash=1", true),
        ("2 ORDERED FAIL byte=0x1000 after=0x1008 crash=2", true),
        ("3 ORDERED SAMELINE byte=0x1000 after=0x1008", true),
        ("4 STORE NOBACKUP byte=0x1000", true),
        ("5 CHECKEND FAIL byte=0x1000 crash=5", true),
        ("6 CHECKEND TXOPEN depth=1", true),
        ("7 TXEND UNMATCHED", true),
        ("8 TXADD OUTSIDE", true),
        ("9 CHECKSTART NESTED", true),
        ("10 CHECKEND UNOPENED", true),
        ("11 SECTION UNCLOSED start=1", true),
        // Which no row is.
        ("PERSIST PASS", true),
        ("1  PERSIST PASS", true),
        ("", true),
    ] {
        fails(&rt, alloc, row, want)?;
    }
    Ok(())
}
