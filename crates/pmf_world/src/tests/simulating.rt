//! Simulations in tables: a log, a schedule, and the text or the refusal.

use crate::{SCHEDULE_LIMIT, SimFault, WorldNewFault, sim_text};
use pmf_event::Name;
use pmf_storelog::{Cause, LogFault};
use std::alloc::{AllocError, Global};
use std::process::Abort;
use std::test::Fail;

// Section 1 persists what it stores, and section 2 doesn't.
const LOG: &str = "PMT.SECTION;1|STORE;0x1000;0x1;0x8|PMT.SECTION;2|STORE;0x1000;0x2;0x8\
|PMT.SECTION;1|FLUSH;0x1000;0x40|FENCE|PMT.PERSIST;0x1000;0x8\
|PMT.SECTION;2|PMT.PERSIST;0x1000;0x8";

const FAULTY: &str = "PMT.X";

// Of two workers and two ledgers. Where several refusals apply, the first is told.
const SCHEDULE: &str = "\
fresh 0 0
fresh 1 0
check 0
send 0
lose 0
again 1 0
check 1
send 1
mark 1
arrive 0 0
arrive 1 0
arrive 1 1
join 0 1
mark 0
fresh 1 0
fresh 1 1
arrive 2 2
send 1
fresh 0 2
fresh 2 2
arrive 0 2
";

const TEXT: &str = "\
1 task section=0 number=1
2 none
3 checked
4 sent message=0
5 lost
6 task section=0 number=2
7 checked
8 sent message=1
9 marked
10 added
11 repeat
12 added
13 joined
14 refused Gone
15 none
16 task section=1 number=1
17 refused NoSuchMessage
18 refused Misplaced
19 refused NoSuchSection
20 refused NoSuchWorker
21 refused NoSuchLedger
ledger 0
section 0.1 events=4 pass=1 fail=0 warn=0 empty=0
4 PERSIST PASS
total sections=1 pass=1 fail=0 warn=0 empty=0
ledger 1
section 0.1 events=4 pass=1 fail=0 warn=0 empty=0
4 PERSIST PASS
total sections=1 pass=1 fail=0 warn=0 empty=0
";

const UNKNOWN: SimFault = SimFault::Log(LogFault {
    at: 1,
    cause: Cause::UnknownMarker,
});

// The simulation of the log has this text.
fn plays(
    rt: &impl Abort,
    alloc: Global,
    schedule: &[u8],
    workers: u32,
    ledgers: u32,
    want: &str,
) -> Result<(), Fail> {
    let text = sim_text(alloc, LOG.as_bytes(), schedule, workers, ledgers)?;
    assert!(rt; text.as_slice() == want.as_bytes(), "{want}");
    Ok(())
}

// So many line feeds between this text and this one.
fn far_apart(
    alloc: Global,
    before: &str,
    count: usize,
    after: &str,
) -> Result<Vec<u8>, AllocError> {
    let mut text = Vec::new(alloc);
    text.extend_from_slice(before.as_bytes())?;
    for _ in 0..count {
        text.push(b'\n')?;
    }
    text.extend_from_slice(after.as_bytes())?;
    Ok(text)
}

#[test]
fn a_schedule_has_its_text_with_empty_lines_and_numbers_of_1_to_10_digits(
    rt: HostRuntime,
) -> Result<(), Fail> {
    plays(&rt, rt.alloc(), SCHEDULE.as_bytes(), 2, 2, TEXT)?;
    for (schedule, text) in [
        ("", ""),
        ("\n\nmark 0\n\nlose 0", "1 refused Misplaced\n2 lost\n"),
        ("check 4294967295", "1 refused NoSuchWorker\n"),
        ("fresh 0 4294967295", "1 refused NoSuchSection\n"),
        ("fresh 0000000000 0000000001", "1 task section=1 number=1\n"),
    ] {
        plays(&rt, rt.alloc(), schedule.as_bytes(), 1, 0, text)?;
    }
    Ok(())
}

// Whatever the log and the numbers of workers and ledgers.
#[test]
fn a_bad_line_is_told_by_its_number(rt: HostRuntime) {
    for (schedule, line) in [
        ("fresh 0", 1),
        ("check 0 0", 1),
        ("fresh  0 0", 1),
        (" check 0", 1),
        ("check 0 ", 1),
        ("check 0\r\n", 1),
        ("CHECK 0", 1),
        ("check 00000000001", 1),
        ("check 4294967296", 1),
        ("check +1", 1),
        ("check", 1),
        ("check 0|check 0", 1),
        ("check 0\n\ncheck x\ny\n", 3),
        ("check 9\ncheck 9\ncheck 9\n\n\nx", 6),
    ] {
        let found = sim_text(rt.alloc(), FAULTY.as_bytes(), schedule.as_bytes(), 0, 65);
        assert_eq!(rt;
            found.err(),
            Some(SimFault::BadStep { line }),
            "{schedule:?}"
        );
    }
}

#[test]
fn the_log_is_refused_before_the_numbers(rt: HostRuntime) {
    for (log, workers, ledgers, want) in [
        (FAULTY, 0, 65, UNKNOWN),
        (LOG, 0, 65, SimFault::New(WorldNewFault::NoWorkers)),
        (LOG, 1, 65, SimFault::New(WorldNewFault::TooManyLedgers)),
    ] {
        let found = sim_text(rt.alloc(), log.as_bytes(), b"check 0\n", workers, ledgers);
        assert_eq!(rt; found.err(), Some(want));
    }
}

#[test]
fn a_schedule_has_1_048_576_bytes_at_most(rt: HostRuntime) -> Result<(), Fail> {
    let alloc = rt.alloc();
    let most = far_apart(alloc, "mark 0\n", 1_048_562, "lose 0\n")?;
    assert_eq!(rt; most.len(), SCHEDULE_LIMIT);
    plays(&rt, alloc, &most, 1, 0, "1 refused Misplaced\n2 lost\n")?;
    let more = far_apart(alloc, "Mark 0\n", 1_048_563, "lose 0\n")?;
    let found = sim_text(alloc, FAULTY.as_bytes(), &more, 0, 65);
    assert_eq!(rt; found.err(), Some(SimFault::TooLong));
    Ok(())
}

#[test]
fn a_refused_simulation_has_its_text(rt: HostRuntime) -> Result<(), Fail> {
    let workers = "workers must be 1 to 64";
    let (run, number) = (12, 70);
    let name = Name { run, number };
    for (fault, want) in [
        (SimFault::TooLong, "schedule is too long"),
        (SimFault::BadStep { line: 7 }, "schedule line 7: bad step"),
        (UNKNOWN, "record 1: unknown marker"),
        (SimFault::New(WorldNewFault::NoWorkers), workers),
        (SimFault::New(WorldNewFault::TooManyWorkers), workers),
        (
            SimFault::New(WorldNewFault::TooManySections),
            "too many sections",
        ),
        (
            SimFault::New(WorldNewFault::TwiceNamed { name }),
            "section 12.70: handed in twice",
        ),
        (
            SimFault::New(WorldNewFault::TooManyLedgers),
            "ledgers must be 0 to 64",
        ),
        (SimFault::New(WorldNewFault::OutOfMemory), "out of memory"),
        (SimFault::OutOfMemory, "out of memory"),
    ] {
        let text = format!(in rt.alloc(); "{fault}")?;
        assert_eq!(rt; text.as_str(), want);
    }
    Ok(())
}
