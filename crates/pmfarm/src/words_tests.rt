//! What the words of the command line ask for, and the status where they are refused.

use crate::{
    Cuts, Files, Input, Joining, Lengths, Overview, Patches, Question, Reasons, Request, Settings,
    Simulation, Sought, Status, Wanted, Whole, request_of,
};
use pmf_event::Profile;
use std::alloc::{AllocError, Global};
use std::process::Abort;
use std::test::Fail;

// The program's name, and the words of a line, which blanks part.
fn words_of(alloc: Global, line: &str) -> Result<Vec<String>, AllocError> {
    let mut words = Vec::new(alloc);
    words.push(String::from_str(alloc, "pmfarm")?)?;
    for word in line.split_whitespace() {
        words.push(String::from_str(alloc, word)?)?;
    }
    Ok(words)
}

// The words ask for this.
fn asks(rt: &impl Abort, alloc: Global, line: &str, want: Request) -> Result<(), Fail> {
    let words = words_of(alloc, line)?;
    let request = request_of(alloc, words.as_slice())?;
    assert!(rt; request == want, "{line}");
    Ok(())
}

// The words are no request, and the program ends so.
fn ends(rt: &impl Abort, alloc: Global, words: &[String], want: Status) {
    let status = match request_of(alloc, words) {
        Ok(_) => None,
        Err(error) => Some(Status::of_kind(error.kind())),
    };
    assert_eq!(rt; status, Some(want), "{words:?}");
}

#[test]
fn check_takes_workers_a_run_a_profile_and_a_flag(rt: HostRuntime) -> Result<(), Fail> {
    let (most_workers, most_run) = (
        "check --workers=4294967295",
        "check --run=18446744073709551615",
    );
    let (one, two) = (Profile::One, Profile::Two);
    for (line, workers, run, profile, ledger, strict) in [
        ("check", 1, 0, one, false, false),
        (most_run, 1, u64::MAX, one, false, false),
        ("check --profile 1", 1, 0, one, false, false),
        ("check --profile=2", 1, 0, two, false, false),
        ("check --workers 0", 0, 0, one, false, false),
        (most_workers, u32::MAX, 0, one, false, false),
        ("check --ledger --run 3", 1, 3, one, true, false),
        ("check --strict", 1, 0, one, false, true),
    ] {
        let settings = Settings {
            workers,
            run,
            profile,
            ledger,
            strict,
        };
        asks(
            &rt,
            rt.alloc(),
            line,
            Request::Check(settings, Input::Standard),
        )?;
    }
    Ok(())
}

#[test]
fn a_log_is_read_from_a_file_where_one_is_named(rt: HostRuntime) -> Result<(), Fail> {
    let settings = Settings {
        workers: 2,
        run: 0,
        profile: Profile::One,
        ledger: true,
        strict: false,
    };
    let (run, section, event, profile) = (0, 7, 3, Profile::One);
    let sought = Sought {
        run,
        section,
        event,
    };
    let question = Question {
        run,
        profile,
        section,
        event,
    };
    let whole = Whole {
        run,
        profile,
        first: None,
    };
    let input = Input::File("a.log");
    for line in [
        "check --workers 2 --ledger a.log",
        "check a.log --ledger --workers=2",
        "check --workers 2 --ledger -- a.log",
    ] {
        asks(&rt, rt.alloc(), line, Request::Check(settings, input))?;
    }
    let line = "locate a.log --section 7 --event 3";
    asks(&rt, rt.alloc(), line, Request::Locate(sought, input))?;
    let line = "explain --section 7 --event 3 a.log";
    asks(&rt, rt.alloc(), line, Request::Explain(question, input))?;
    let line = "explain a.log --all";
    asks(&rt, rt.alloc(), line, Request::ExplainAll(whole, input))?;
    let reasons = Reasons {
        run,
        profile,
        section: None,
        event: None,
        first: 20,
        all: false,
    };
    asks(&rt, rt.alloc(), "why a.log", Request::Why(reasons, input))?;
    let overview = Overview { unasserted: false };
    asks(
        &rt,
        rt.alloc(),
        "lint a.log",
        Request::Lint(overview, input),
    )?;
    asks(
        &rt,
        rt.alloc(),
        "lint -- --all",
        Request::Lint(overview, Input::File("--all")),
    )
}

#[test]
fn explain_takes_a_section_and_an_event_or_all(rt: HostRuntime) -> Result<(), Fail> {
    let both = "explain --section=18446744073709551615.18446744073709551615 --event 3";
    let most = "explain --profile=2 --event=4294967295 --section=18446744073709551615 --run=5";
    for (line, run, profile, section, event) in [
        ("explain --section 7 --event 3", 0, Profile::One, 7, 3),
        ("explain --section 0.3 --event 3", 0, Profile::One, 3, 3),
        ("explain --section 9.3 --event 3", 9, Profile::One, 3, 3),
        (
            "explain --section 9.3 --event 3 --run 5",
            9,
            Profile::One,
            3,
            3,
        ),
        (
            "explain --section 3 --event 3 --run 5",
            5,
            Profile::One,
            3,
            3,
        ),
        (both, u64::MAX, Profile::One, u64::MAX, 3),
        (most, 5, Profile::Two, u64::MAX, u32::MAX),
    ] {
        let question = Question {
            run,
            profile,
            section,
            event,
        };
        asks(
            &rt,
            rt.alloc(),
            line,
            Request::Explain(question, Input::Standard),
        )?;
    }
    let most = "explain --first=4294967295 --all";
    for (line, run, profile, first) in [
        ("explain --all", 0, Profile::One, None),
        ("explain --run=5 --all --profile 2", 5, Profile::Two, None),
        ("explain --all --first 1", 0, Profile::One, Some(1)),
        (most, 0, Profile::One, Some(u32::MAX)),
    ] {
        let whole = Whole {
            run,
            profile,
            first,
        };
        asks(
            &rt,
            rt.alloc(),
            line,
            Request::ExplainAll(whole, Input::Standard),
        )?;
    }
    Ok(())
}

#[test]
fn why_takes_a_section_an_event_a_count_and_a_flag(rt: HostRuntime) -> Result<(), Fail> {
    for (line, run, section, event, first, all) in [
        ("why", 0, None, None, 20, false),
        ("why --run 5", 5, None, None, 20, false),
        ("why --section 3", 0, Some(3), None, 20, false),
        ("why --section 9.3 --run 5", 9, Some(3), None, 20, false),
        ("why --event 0", 0, None, Some(0), 20, false),
        ("why --first 1 --event=7", 0, None, Some(7), 1, false),
        ("why --all-rows", 0, None, None, u32::MAX, true),
        ("why --all-rows --first 1000", 0, None, None, 1000, true),
    ] {
        let reasons = Reasons {
            run,
            profile: Profile::One,
            section,
            event,
            first,
            all,
        };
        asks(
            &rt,
            rt.alloc(),
            line,
            Request::Why(reasons, Input::Standard),
        )?;
    }
    let most = Reasons {
        run: u64::MAX,
        profile: Profile::Two,
        section: Some(u64::MAX),
        event: Some(u32::MAX),
        first: 1,
        all: false,
    };
    let line =
        "why --first=1 --event 4294967295 --section 18446744073709551615 --run=18446744073709551615 --profile 2";
    asks(&rt, rt.alloc(), line, Request::Why(most, Input::Standard))
}

#[test]
fn why_with_patch_takes_a_section_alone(rt: HostRuntime) -> Result<(), Fail> {
    for (line, run, profile, section) in [
        ("why --patch", 0, Profile::One, None),
        (
            "why --run 5 --patch --profile=2 --section 3",
            5,
            Profile::Two,
            Some(3),
        ),
        (
            "why --section 9.3 --run 5 --patch",
            9,
            Profile::One,
            Some(3),
        ),
    ] {
        let patches = Patches {
            run,
            profile,
            section,
        };
        asks(
            &rt,
            rt.alloc(),
            line,
            Request::Patch(patches, Input::Standard),
        )?;
    }
    Ok(())
}

#[test]
fn locate_takes_a_section_and_an_event_and_lint_nothing(rt: HostRuntime) -> Result<(), Fail> {
    let sought = Sought {
        run: 2,
        section: 7,
        event: 3,
    };
    for line in [
        "locate --event 3 --run 2 --section 7",
        "locate --event 3 --section 2.7",
    ] {
        asks(
            &rt,
            rt.alloc(),
            line,
            Request::Locate(sought, Input::Standard),
        )?;
    }
    for (line, unasserted) in [("lint", false), ("lint --unasserted", true)] {
        let overview = Overview { unasserted };
        asks(
            &rt,
            rt.alloc(),
            line,
            Request::Lint(overview, Input::Standard),
        )?;
    }
    Ok(())
}

#[test]
fn cut_takes_lengths_a_step_and_the_front_of_names(rt: HostRuntime) -> Result<(), Fail> {
    let most = "cut --step 18446744073709551615 --events=4294967295";
    let whole = 268_435_456;
    for (line, events, step, files, bytes) in [
        ("cut", 1_000_000, 1_000_000_000, None, whole),
        (most, u32::MAX, u64::MAX, None, whole),
        ("cut --events 0 --step 0", 0, 0, None, whole),
        ("cut --files a --events 1 --step 1", 1, 1, Some("a"), whole),
        ("cut --bytes 7 --events 1 --step 1", 1, 1, None, 7),
    ] {
        let cuts = Cuts {
            lengths: Lengths { events, step },
            files,
            bytes,
        };
        asks(&rt, rt.alloc(), line, Request::Cut(cuts))?;
    }
    Ok(())
}

#[test]
fn join_takes_files_in_their_order(rt: HostRuntime) -> Result<(), Fail> {
    let (report, summary, ledger) = (Wanted::Report, Wanted::Summary, Wanted::Ledger);
    let by_all = "join --workers=64 --stream a";
    let trusted = "join --trust --ledger --stream";
    let (load, merge, trust) = (Joining::Load, Joining::Merge, Joining::Trust);
    for (line, files, list, joining, workers, wanted) in [
        ("join", [].as_slice(), None, load, 1, report),
        ("join b a b", &["b", "a", "b"], None, load, 1, report),
        ("join a --ledger b", &["a", "b"], None, load, 1, ledger),
        ("join a --summary b", &["a", "b"], None, load, 1, summary),
        ("join -- --ledger", &["--ledger"], None, load, 1, report),
        ("join --files-from l", &[], Some("l"), load, 1, report),
        ("join a --files-from=l", &["a"], Some("l"), load, 1, report),
        ("join --stream a", &["a"], None, merge, 1, report),
        ("join --summary --stream a", &["a"], None, merge, 1, summary),
        (by_all, &["a"], None, merge, 64, report),
        ("join --stream --trust a", &["a"], None, trust, 1, report),
        (trusted, &[], None, trust, 1, ledger),
    ] {
        let mut names = Vec::new(rt.alloc());
        names.extend_from_slice(files)?;
        let files = Files {
            names,
            list,
            joining,
            workers,
            wanted,
        };
        asks(&rt, rt.alloc(), line, Request::Join(files))?;
    }
    Ok(())
}

#[test]
fn sim_takes_a_log_workers_and_ledgers(rt: HostRuntime) -> Result<(), Fail> {
    let most = "sim --ledgers=0 --log=a.log --workers=4294967295";
    for (line, workers, ledgers) in [
        ("sim --log a.log --workers 2 --ledgers 3", 2, 3),
        (most, u32::MAX, 0),
    ] {
        let simulation = Simulation {
            log: "a.log",
            workers,
            ledgers,
        };
        asks(&rt, rt.alloc(), line, Request::Sim(simulation))?;
    }
    Ok(())
}

// No word, words that are none, a number that is none or too large, an option without its value or twice, and options of others.
const REFUSED: &[&str] = &[
    "",
    "chek",
    "check a.log b.log",
    "check --run",
    "check --run x",
    "check --run -1",
    "check --run 18446744073709551616",
    "check --run 1 --run 2",
    "check --workers",
    "check --workers -1",
    "check --workers 4294967296",
    "check --workers 1 --workers 1",
    "check --profile",
    "check --profile 0",
    "check --profile 3",
    "check --profile 02",
    "check --profile two",
    "check --profile=",
    "check --profile 1 --profile 2",
    "check --section 1",
    "check --ledger --ledger",
    "check --ledger=1",
    "check --all",
    "cut long.log",
    "cut --events",
    "cut --events -1",
    "cut --events 4294967296",
    "cut --events 1 --events 1",
    "cut --step x",
    "cut --files",
    "cut --bytes -1",
    "cut --step 18446744073709551616",
    "cut --run 1",
    "join --files-from",
    "join --files-from l --files-from l",
    "join --run 1 a",
    "join --workers 1 a",
    "join --workers 0 --stream a",
    "explain",
    "explain --ledger --section 0 --event 1",
    "explain --all --all",
    "explain --all --section 0",
    "explain --all --event 1",
    "explain --all --first 0",
    "explain --all --first 4294967296",
    "explain --section 0 --event 1 --first 1",
    "explain --section 0",
    "explain --event 1",
    "explain --section x --event 1",
    "explain --section 1.2.3 --event 1",
    "explain --section 1. --event 1",
    "explain --section .1 --event 1",
    "explain --section . --event 1",
    "explain --section= --event 1",
    "explain --section 1:2 --event 1",
    "explain --section 0.x --event 1",
    "explain --section -1.2 --event 1",
    "explain --section 0.18446744073709551616 --event 1",
    "explain --section 18446744073709551616.0 --event 1",
    "explain --section 0 --event -1",
    "explain --section 0 --event 4294967296",
    "explain --section 18446744073709551616 --event 1",
    "explain --section 0 --event 1 --event 1",
    "explain --section 0 --event 1 --profile 3",
    "why a.log b.log",
    "why --all",
    "why --first",
    "why --first 0",
    "why --first 1001",
    "why --first -1",
    "why --first x",
    "why --event 4294967296",
    "why --event -1",
    "why --section x",
    "why --section 0.1.2",
    "why --section 1 --section 1",
    "why --all-rows --all-rows",
    "why --patch --patch",
    "why --patch --all-rows",
    "why --patch --event 1",
    "why --first 1 --patch",
    "explain --all --patch",
    "why --workers 1",
    "lint a.log b.log",
    "lint --run 1",
    "locate",
    "locate --section 0",
    "locate --section 0.0. --event 1",
    "locate --event 1",
    "sim",
    "sim --log a.log --workers 2",
    "sim --log a.log --ledgers 2",
    "sim --workers 2 --ledgers 2",
    "sim --log a.log --workers 4294967296 --ledgers 2",
    "sim --log a.log --workers 2 --ledgers x",
];

const HELP: &[&str] = &[
    "--help",
    "help",
    "check --help",
    "explain --help",
    "explain --all --help",
    "why --help",
    "why --patch --help",
    "locate --help",
    "lint --help",
    "cut --help",
    "join --help",
    "--version",
];

#[test]
fn words_that_are_no_request_are_refused_but_for_help(rt: HostRuntime) -> Result<(), Fail> {
    for (lines, want) in [(REFUSED, Status::Refused), (HELP, Status::NoFail)] {
        for line in lines {
            let words = words_of(rt.alloc(), *line)?;
            ends(&rt, rt.alloc(), words.as_slice(), want);
        }
    }
    Ok(())
}
