//! The text of each row, and how it counts.

use super::*;
use crate::{Outcome, outcome_of};
use std::test::Fail;

// What each finding prints at place 5, with the byte 0xff, the byte 0x1000 after it, the line 0x40,
// three lines, a crash at 2, a depth of 2 and a scope that opened at 4; and how a row with it counts.
const FINDINGS: [(Finding, &str, Outcome); 19] = [
    (Finding::PersistPass, "5 PERSIST PASS\n", Outcome::Pass),
    (
        Finding::PersistFail { byte: 0xff },
        "5 PERSIST FAIL byte=0xff crash=5\n",
        Outcome::Fail,
    ),
    (Finding::PersistEmpty, "5 PERSIST EMPTY\n", Outcome::Empty),
    (Finding::OrderedPass, "5 ORDERED PASS\n", Outcome::Pass),
    (
        Finding::OrderedFail {
            byte: 0xff,
            after: 0x1000,
            crash: 2,
        },
        "5 ORDERED FAIL byte=0xff after=0x1000 crash=2\n",
        Outcome::Fail,
    ),
    (
        Finding::OrderedSameLine {
            byte: 0xff,
            after: 0x1000,
        },
        "5 ORDERED SAMELINE byte=0xff after=0x1000\n",
        Outcome::Fail,
    ),
    (Finding::OrderedEmpty, "5 ORDERED EMPTY\n", Outcome::Empty),
    (
        Finding::FlushDoubled {
            line: 0x40,
            lines: 3,
        },
        "5 FLUSH DOUBLED line=0x40 lines=3\n",
        Outcome::Warn,
    ),
    (
        Finding::FlushNeedless {
            line: 0x40,
            lines: 3,
        },
        "5 FLUSH NEEDLESS line=0x40 lines=3\n",
        Outcome::Warn,
    ),
    (
        Finding::NoBackup { byte: 0xff },
        "5 STORE NOBACKUP byte=0xff\n",
        Outcome::Fail,
    ),
    (
        Finding::DupLog { byte: 0xff },
        "5 TXADD DUPLOG byte=0xff\n",
        Outcome::Warn,
    ),
    (Finding::CheckPass, "5 CHECKEND PASS\n", Outcome::Pass),
    (
        Finding::CheckFail { byte: 0xff },
        "5 CHECKEND FAIL byte=0xff crash=5\n",
        Outcome::Fail,
    ),
    (
        Finding::TxStillOpen { depth: 2 },
        "5 CHECKEND TXOPEN depth=2\n",
        Outcome::Fail,
    ),
    (Finding::Unmatched, "5 TXEND UNMATCHED\n", Outcome::Fail),
    (Finding::Outside, "5 TXADD OUTSIDE\n", Outcome::Fail),
    (Finding::Nested, "5 CHECKSTART NESTED\n", Outcome::Fail),
    (Finding::Unopened, "5 CHECKEND UNOPENED\n", Outcome::Fail),
    (
        Finding::Unclosed { start: 4 },
        "5 SECTION UNCLOSED start=4\n",
        Outcome::Fail,
    ),
];

#[test]
fn each_finding_has_its_text_and_counts_as_the_table_says(rt: HostRuntime) -> Result<(), Fail> {
    for (finding, want, outcome) in FINDINGS {
        let mut text = String::new(rt.alloc());
        push_row(&mut text, &Row { place: 5, finding })?;
        assert_eq!(rt; text.as_str(), want);
        assert_eq!(rt; outcome_of(finding), outcome, "at {finding:?}");
    }
    Ok(())
}

#[test]
fn numbers_have_no_leading_zeros_and_addresses_small_letters(rt: HostRuntime) -> Result<(), Fail> {
    for (byte, want) in [
        (0, "1048576 PERSIST FAIL byte=0x0 crash=1048576\n"),
        (
            0x7fff_ffff_ffff_abcd,
            "1048576 PERSIST FAIL byte=0x7fffffffffffabcd crash=1048576\n",
        ),
    ] {
        let (place, finding) = (1_048_576, Finding::PersistFail { byte });
        let mut text = String::new(rt.alloc());
        push_row(&mut text, &Row { place, finding })?;
        assert_eq!(rt; text.as_str(), want);
    }
    Ok(())
}
