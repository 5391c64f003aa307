//! What a text is loaded as, and why it is refused.

use super::texts::TEXT_OF_TWO;
use super::{Given, ONE, assert_holds, assert_text, assert_told, name};
use crate::{LedgerFault, load_ledger};
use pmf_event::{Name, Profile};
use pmf_fixtures::LEDGER;
use pmf_storelog::{Cause, LogFault};
use std::alloc::Global;
use std::process::Abort;
use std::test::Fail;

// One section twice.
const REPEATED: &str = "\
PMFARM-LEDGER 1
section 0.0 events=1 rows=0
FENCE
section 0.0 events=1 rows=0
FENCE
end verdicts=2
";

fn not_a_ledger(line: u64) -> LedgerFault {
    LedgerFault::NotALedger { line }
}

fn false_rows(number: u64) -> LedgerFault {
    LedgerFault::FalseRows {
        name: name(0, number),
    }
}

const CONFLICT: LedgerFault = LedgerFault::Conflict {
    name: Name { run: 0, number: 0 },
};

fn too_few(at: u64) -> LedgerFault {
    let cause = Cause::TooFewFields;
    LedgerFault::Log(LogFault { at, cause })
}

fn assert_refused(rt: &impl Abort, alloc: Global, text: &[u8], want: LedgerFault) {
    let found = load_ledger(alloc, text).map(|ledger| ledger.len());
    assert_eq!(rt; found, Err(want), "{text:?}");
}

// The text is loaded as these sections.
fn assert_loaded(
    rt: &impl Abort,
    alloc: Global,
    text: &str,
    sections: &[Given<'_>],
) -> Result<(), Fail> {
    assert_holds(rt, &load_ledger(alloc, text.as_bytes())?, sections);
    Ok(())
}

// The text with the first of these words changed is refused so.
fn assert_changed(
    rt: &impl Abort,
    alloc: Global,
    good: &str,
    old: &str,
    new: &str,
    want: LedgerFault,
) -> Result<(), Fail> {
    let text = good.replacen(alloc, old, new, 1)?;
    assert!(rt; text.as_str() != good, "{old:?}");
    assert_refused(rt, alloc, text.as_bytes(), want);
    Ok(())
}

#[test]
fn a_text_cut_short_lacks_its_next_line(rt: HostRuntime) {
    let text = LEDGER.as_bytes();
    let mut line = 1;
    for cut in 0..text.len() {
        assert_refused(&rt, rt.alloc(), &text[..cut], not_a_ledger(line));
        if text[cut] == b'\n' {
            line = u64::saturating_add(line, 1);
        }
    }
    assert_eq!(rt; line, 11);
}

#[test]
fn the_first_fault_decides(rt: HostRuntime) -> Result<(), Fail> {
    for (old, new, want) in [
        ("LEDGER 1", "LEDGER 3", not_a_ledger(1)),
        ("LEDGER 1", "LEDGER 12", not_a_ledger(1)),
        ("LEDGER 1", "LEDGER 1 ", not_a_ledger(1)),
        // The head of a block, or the end.
        ("section 0.0 events=1 rows=0\n", "\n", not_a_ledger(2)),
        ("events=1 rows=0", "events=1  rows=0", not_a_ledger(2)),
        ("events=1 rows=0", "events=0x1 rows=0", not_a_ledger(2)),
        ("section 0.0", "section 0", not_a_ledger(2)),
        ("0.0 ", "18446744073709551616.0 ", not_a_ledger(2)),
        ("0.0 ", "000000000000000000000.0 ", not_a_ledger(2)),
        ("end verdicts=2", "End verdicts=2", not_a_ledger(10)),
        // Events: as many as the head says.
        ("events=1", "events=18446744073709551615", not_a_ledger(4)),
        ("events=4", "events=3", false_rows(1)),
        ("events=4", "events=5", not_a_ledger(9)),
        ("FENCE\n", "FENCE\r\n", not_a_ledger(3)),
        ("FENCE\n", "\n", not_a_ledger(3)),
        ("FENCE\n", "START\n", not_a_ledger(3)),
        ("STORE;0x1000;0x0;0x8", "PMT.SECTION;0x1", not_a_ledger(5)),
        ("STORE;0x1000;0x0;0x8", "FENCE|FENCE", not_a_ledger(5)),
        ("FLUSH;0x1000;0x40", "FLUSH;0x1000", too_few(6)),
        // Rows: as many as were found, byte for byte.
        ("rows=0", "rows=18446744073709551615", false_rows(0)),
        ("rows=1", "rows=2", false_rows(1)),
        ("PASS", "FAIL byte=0x1000 crash=4", false_rows(1)),
        ("4 PERSIST PASS\n", "", false_rows(1)),
        ("section 0.1", "section 0.0", CONFLICT),
        // The number of blocks, and nothing behind it.
        ("verdicts=2", "verdicts=1", not_a_ledger(10)),
        ("verdicts=2\n", "verdicts=2\nx\n", not_a_ledger(11)),
    ] {
        assert_changed(&rt, rt.alloc(), LEDGER, old, new, want)?;
    }
    let rubbish = b"\x00\xff\xfe\x7f\n\n\x80";
    assert_refused(&rt, rt.alloc(), rubbish, not_a_ledger(1));
    Ok(())
}

#[test]
fn a_repeat_counts_and_other_events_are_a_conflict_once_they_are_checked(
    rt: HostRuntime,
) -> Result<(), Fail> {
    let last = "FENCE\nend verdicts=2";
    for (new, want) in [
        ("FENCE\nend verdicts=1", not_a_ledger(6)),
        ("STORE;0x0;0;1\nx\n", CONFLICT),
        ("FLUSH;0x0\nend verdicts=2", too_few(5)),
        ("FLUSH;0x0;0x1\nend verdicts=2", false_rows(0)),
    ] {
        assert_changed(&rt, rt.alloc(), REPEATED, last, new, want)?;
    }
    Ok(())
}

#[test]
fn a_text_need_not_be_the_one_that_would_be_written(rt: HostRuntime) -> Result<(), Fail> {
    let alloc = rt.alloc();
    let ledger = load_ledger(alloc, LEDGER.as_bytes())?;
    assert_text(&rt, alloc, &ledger, LEDGER.as_bytes())?;
    assert_loaded(&rt, alloc, REPEATED, &[(name(0, 0), ONE)])?;
    assert_loaded(
        &rt,
        alloc,
        "PMFARM-LEDGER 2\nend verdicts=00000000000000000000\n",
        &[],
    )?;
    assert_loaded(
        &rt,
        alloc,
        "PMFARM-LEDGER 1
section 2.0 events=1 rows=0
 FENCE;more
section 00.5 events=01 rows=00
\tSTORE;4096;note;8
section 2.0 events=1 rows=0
FENCE
end verdicts=03
",
        &[(name(0, 5), ONE), (name(2, 0), ONE)],
    )
}

// The text of 501 blocks: those of the runs 0 to 499, each a step from the one before it, and behind them that of run 250 with this event.
fn text_in_steps(alloc: Global, start: u64, step: u64, last: &str) -> Result<String, Fail> {
    let mut text = String::new(alloc);
    text.push_str("PMFARM-LEDGER 1\n")?;
    for at in 0..500 {
        let run = start.wrapping_add(step.wrapping_mul(at)) % 500;
        text.push_str(&format!(in alloc; "section {run}.0 events=1 rows=0\nFENCE\n")?)?;
    }
    text.push_str(&format!(in alloc;
        "section 250.0 events=1 rows=0\n{last}\nend verdicts=501\n"
    )?)?;
    Ok(text)
}

#[test]
fn blocks_in_any_order_are_loaded_as_one_ledger(rt: HostRuntime) -> Result<(), Fail> {
    for (start, step) in [(0, 1), (499, 499), (3, 187)] {
        let text = text_in_steps(rt.alloc(), start, step, "FENCE")?;
        let ledger = load_ledger(rt.alloc(), text.as_bytes())?;
        assert_eq!(rt; ledger.len(), 500);
        for run in 0..500 {
            assert_eq!(rt; ledger.verdicts()[run as usize].name(), name(run, 0));
        }
        let other = text_in_steps(rt.alloc(), start, step, "STORE;64;0;8")?;
        let name = name(250, 0);
        assert_refused(
            &rt,
            rt.alloc(),
            other.as_bytes(),
            LedgerFault::Conflict { name },
        );
    }
    Ok(())
}

#[test]
fn the_first_line_tells_the_profile(rt: HostRuntime) -> Result<(), Fail> {
    let alloc = rt.alloc();
    for (text, profile) in [(LEDGER, Profile::One), (TEXT_OF_TWO, Profile::Two)] {
        let ledger = load_ledger(alloc, text.as_bytes())?;
        assert_eq!(rt; ledger.profile(), profile);
    }
    // Its row is another by profile One.
    assert_changed(
        &rt,
        alloc,
        TEXT_OF_TWO,
        "LEDGER 2",
        "LEDGER 1",
        false_rows(0),
    )
}

#[test]
fn a_refused_text_is_told_by_its_line_or_its_section(rt: HostRuntime) -> Result<(), Fail> {
    let (at, cause) = (0, Cause::OutOfMemory);
    for (fault, want) in [
        (not_a_ledger(10), "line 10: not a ledger"),
        (false_rows(7), "section 0.7: rows are false"),
        (CONFLICT, "section 0.0: held with other events"),
        (too_few(5), "line 5: too few fields"),
        (LedgerFault::Log(LogFault { at, cause }), "out of memory"),
        (LedgerFault::OutOfMemory, "out of memory"),
    ] {
        assert_told(&rt, rt.alloc(), fault, want)?;
    }
    Ok(())
}
