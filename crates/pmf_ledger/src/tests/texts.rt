//! What a ledger writes, counts, copies and upgrades.

use super::{ONE, assert_text, ledger_of, name};
use crate::{Form, Ledger, LedgerFault, Teller, Totals, load_ledger};
use pmf_event::Profile;
use pmf_fixtures::{FENCE, FLUSH, STORE, Step};
use std::alloc::Global;
use std::test::Fail;

// Two stores of one line and an assertion of their order, which the profiles judge differently.
const TWO_STORES: &[Step] = &[
    STORE,
    Step::Store(0x1008, 8),
    Step::Ordered((0x1000, 8), (0x1008, 8)),
];

// A row of each kind: a write-back twice over, a pass, a failure and an assertion of nothing.
const ONE_OF_EACH: &[Step] = &[
    STORE,
    FLUSH,
    FLUSH,
    FENCE,
    Step::Persist(0x1000, 8),
    STORE,
    Step::Persist(0x1000, 8),
    Step::Persist(0x2000, 8),
];

fn ledger_of_both(alloc: Global) -> Result<Ledger, Fail> {
    let sections = [(name(3, 7), ONE_OF_EACH), (name(0, 0), TWO_STORES)];
    ledger_of(alloc, Profile::One, &sections)
}

const REPORT: &[u8] = b"\
section 0.0 events=3 pass=0 fail=1 warn=0 empty=0
3 ORDERED SAMELINE byte=0x1000 after=0x1008
section 3.7 events=8 pass=1 fail=1 warn=1 empty=1
3 FLUSH DOUBLED line=0x1000 lines=1
5 PERSIST PASS
7 PERSIST FAIL byte=0x1000 crash=7
8 PERSIST EMPTY
total sections=2 pass=1 fail=2 warn=1 empty=1
";

const SUMMARY: &[u8] = b"\
section 0.0 events=3 pass=0 fail=1 warn=0 empty=0
3 ORDERED SAMELINE byte=0x1000 after=0x1008
run 0 sections=1 pass=0 fail=1 warn=0 empty=0
section 3.7 events=8 pass=1 fail=1 warn=1 empty=1
3 FLUSH DOUBLED line=0x1000 lines=1
7 PERSIST FAIL byte=0x1000 crash=7
run 3 sections=1 pass=1 fail=1 warn=1 empty=1
total sections=2 pass=1 fail=2 warn=1 empty=1
";

const TEXT: &[u8] = b"\
PMFARM-LEDGER 1
section 0.0 events=3 rows=1
STORE;0x1000;0x0;0x8
STORE;0x1008;0x0;0x8
PMT.ORDERED;0x1000;0x8;0x1008;0x8
3 ORDERED SAMELINE byte=0x1000 after=0x1008
section 3.7 events=8 rows=4
STORE;0x1000;0x0;0x8
FLUSH;0x1000;0x40
FLUSH;0x1000;0x40
FENCE
PMT.PERSIST;0x1000;0x8
STORE;0x1000;0x0;0x8
PMT.PERSIST;0x1000;0x8
PMT.PERSIST;0x2000;0x8
3 FLUSH DOUBLED line=0x1000 lines=1
5 PERSIST PASS
7 PERSIST FAIL byte=0x1000 crash=7
8 PERSIST EMPTY
end verdicts=2
";

pub(super) const TEXT_OF_TWO: &str = "\
PMFARM-LEDGER 2
section 0.0 events=3 rows=1
STORE;0x1000;0x0;0x8
STORE;0x1008;0x0;0x8
PMT.ORDERED;0x1000;0x8;0x1008;0x8
3 ORDERED PASS
end verdicts=1
";

#[test]
fn the_report_counts_each_section_and_all_of_them(rt: HostRuntime) -> Result<(), Fail> {
    let ledger = ledger_of_both(rt.alloc())?;
    let want = Totals {
        sections: 2,
        pass: 1,
        fail: 2,
        warn: 1,
        empty: 1,
    };
    assert!(rt; ledger.write_report(rt.alloc())?.as_slice() == REPORT);
    let (report, totals) = ledger.report(rt.alloc())?;
    assert!(rt; report.as_slice() == REPORT);
    assert_eq!(rt; totals, want);
    assert_eq!(rt; ledger.totals(), want);
    Ok(())
}

#[test]
fn a_teller_writes_them_section_by_section(rt: HostRuntime) -> Result<(), Fail> {
    let alloc = rt.alloc();
    let ledger = ledger_of_both(alloc)?;
    for (form, want) in [
        (Form::Report, REPORT),
        (Form::Summary, SUMMARY),
        (Form::Ledger, TEXT),
    ] {
        let mut teller = Teller::new(form);
        let mut text = String::new(alloc);
        teller.begin(&mut text, Profile::One)?;
        for verdict in ledger.verdicts() {
            teller.tell(&mut text, verdict)?;
        }
        teller.end(&mut text)?;
        assert!(rt; text.as_bytes() == want, "{form:?}");
        assert_eq!(rt; teller.totals(), ledger.totals());
    }
    let mut version = String::new(alloc);
    Teller::new(Form::Ledger).begin(&mut version, Profile::Two)?;
    assert_eq!(rt; version.as_str(), "PMFARM-LEDGER 2\n");
    Ok(())
}

// Of the runs 0, 3 and 4, which have one section, two and one.
const SUMMARY_OF_RUNS: &[u8] = b"\
section 0.0 events=3 pass=0 fail=1 warn=0 empty=0
3 ORDERED SAMELINE byte=0x1000 after=0x1008
run 0 sections=1 pass=0 fail=1 warn=0 empty=0
section 3.1 events=3 pass=0 fail=1 warn=0 empty=0
3 ORDERED SAMELINE byte=0x1000 after=0x1008
section 3.7 events=8 pass=1 fail=1 warn=1 empty=1
3 FLUSH DOUBLED line=0x1000 lines=1
7 PERSIST FAIL byte=0x1000 crash=7
run 3 sections=2 pass=1 fail=2 warn=1 empty=1
section 4.0 events=1 pass=0 fail=0 warn=0 empty=0
run 4 sections=1 pass=0 fail=0 warn=0 empty=0
total sections=4 pass=1 fail=3 warn=1 empty=1
";

#[test]
fn a_summary_has_the_sums_of_each_run(rt: HostRuntime) -> Result<(), Fail> {
    let alloc = rt.alloc();
    let sections = [
        (name(3, 7), ONE_OF_EACH),
        (name(4, 0), ONE),
        (name(0, 0), TWO_STORES),
        (name(3, 1), TWO_STORES),
    ];
    let ledger = ledger_of(alloc, Profile::One, &sections)?;
    let (summary, totals) = ledger.summary(alloc)?;
    assert!(rt; summary.as_slice() == SUMMARY_OF_RUNS);
    assert_eq!(rt; totals, ledger.totals());
    let (none, _) = Ledger::new(alloc, Profile::One).summary(alloc)?;
    let total = b"total sections=0 pass=0 fail=0 warn=0 empty=0\n";
    assert!(rt; none.as_slice() == total.as_slice());
    Ok(())
}

#[test]
fn a_summary_is_no_ledger(rt: HostRuntime) -> Result<(), Fail> {
    match load_ledger(rt.alloc(), SUMMARY) {
        Ok(_) => assert!(rt; false),
        Err(fault) => assert_eq!(rt; fault, LedgerFault::NotALedger { line: 1 }),
    }
    Ok(())
}

#[test]
fn a_ledger_and_its_copy_have_their_text_and_so_has_the_empty_one(
    rt: HostRuntime,
) -> Result<(), Fail> {
    let alloc = rt.alloc();
    let ledger = ledger_of_both(alloc)?;
    let copy = ledger.copy(alloc)?;
    assert_text(&rt, alloc, &ledger, TEXT)?;
    assert_text(&rt, alloc, &copy, TEXT)?;
    let empty = Ledger::new(alloc, Profile::Two);
    assert_text(&rt, alloc, &empty, b"PMFARM-LEDGER 2\nend verdicts=0\n")?;
    let report = b"total sections=0 pass=0 fail=0 warn=0 empty=0\n";
    assert!(rt; empty.write_report(alloc)?.as_slice() == report.as_slice());
    Ok(())
}

#[test]
fn an_upgrade_judges_by_profile_two(rt: HostRuntime) -> Result<(), Fail> {
    let alloc = rt.alloc();
    let ledger = ledger_of(alloc, Profile::One, &[(name(0, 0), TWO_STORES)])?;
    let before = ledger.write_ledger(alloc)?;
    match ledger.upgrade(alloc) {
        Ok(upgraded) => assert_text(&rt, alloc, &upgraded, TEXT_OF_TWO.as_bytes())?,
        Err((refused, ledger)) => {
            assert_text(&rt, alloc, &ledger, &before)?;
            return Err(refused.into());
        }
    }
    Ok(())
}
