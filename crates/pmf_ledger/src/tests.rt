//! What a ledger takes, refuses and tells.

ghost use Rattle.std.specs.Prelude.{◌≤◌, ℕ, List, OnOk, IfOk, length};
ghost use Rattle.pmf_ledger.specs.{BlockReading.{HasTaken}, Loading.{Reading}};

use super::{BlockFault, BlockReader, Fed, JoinFault, Ledger, TakeFault, Taken, least_repeat};
use pmf_event::{Name, Profile, Section};
use pmf_fixtures::{FENCE, FLUSH, STORE, Step};
use pmf_verdict::{Verdict, check};
use std::alloc::{AllocError, Global};
use std::fmt::Display;
use std::process::Abort;
use std::sync::Arc;
use std::test::Fail;

mod block_reading;
mod joining;
mod loading;
mod lone_blocks;
mod raw_texts;
mod texts;

const ONE: &[Step] = &[FENCE];

const TWO: &[Step] = &[FENCE, FENCE];

const PERSISTED: &[Step] = &[STORE, FLUSH, FENCE, Step::Persist(0x1000, 8)];

// A section: its name, and what it did.
type Given<'a> = (Name, &'a [Step]);

fn name(run: u64, number: u64) -> Name {
    Name { run, number }
}

fn verdict_of(
    alloc: Global,
    name: Name,
    steps: &[Step],
    profile: Profile,
) -> Result<Verdict, Fail> {
    let mut section = Section::new(alloc, name);
    for step in steps {
        section.push(step.event()?)?;
    }
    match check(alloc, Arc::new(alloc, section)?, profile) {
        Ok(verdict) => Ok(verdict),
        Err((fault, _)) => Err(fault.into()),
    }
}

// The ledger that took these sections, one after another.
fn ledger_of(alloc: Global, profile: Profile, sections: &[Given<'_>]) -> Result<Ledger, Fail> {
    let mut ledger = Ledger::new(alloc, profile);
    for (name, steps) in sections {
        if let Err((fault, _)) = ledger.take(verdict_of(alloc, *name, *steps, profile)?) {
            return Err(fault.into());
        }
    }
    Ok(ledger)
}

// The ledger holds these sections, in this order.
fn assert_holds(rt: &impl Abort, ledger: &Ledger, sections: &[Given<'_>]) {
    assert_eq!(rt; ledger.len(), sections.len());
    for (verdict, (name, steps)) in ledger.verdicts().iter().zip(sections.iter()) {
        assert_eq!(rt; verdict.name(), *name);
        assert_eq!(rt; verdict.section().events().len(), steps.len());
    }
}

// The ledger has this text.
fn assert_text(
    rt: &impl Abort,
    alloc: Global,
    ledger: &Ledger,
    want: &[u8],
) -> Result<(), AllocError> {
    let text = ledger.write_ledger(alloc)?;
    assert!(rt; text.as_slice() == want);
    Ok(())
}

// A reader that has taken some bytes is fed more.
fn feed(alloc: Global, reader: &mut BlockReader, bytes: &[u8]) -> Result<Fed, BlockFault>
    requires { (text : List ℕ) × (r : Reading) × HasTaken text r reader.old }
    ensures taken { OnOk result ((text : List ℕ) × (r : Reading) × HasTaken text r reader.new) }
    ensures within { IfOk result (λ fed. fed.taken ≤ length bytes.now) }
{
    let fed = reader.feed(alloc, bytes)?;
    Ok(fed)
}

#[test]
fn a_section_is_taken_once_and_a_refusal_leaves_the_ledger(rt: HostRuntime) -> Result<(), Fail> {
    let alloc = rt.alloc();
    let mut ledger = Ledger::new(alloc, Profile::One);
    assert!(rt; ledger.is_empty());
    for (name, steps, profile, want) in [
        (name(3, 0), ONE, Profile::One, Ok(Taken::Added)),
        (name(0, 2), TWO, Profile::One, Ok(Taken::Added)),
        (name(0, 7), ONE, Profile::One, Ok(Taken::Added)),
        (name(0, 2), TWO, Profile::One, Ok(Taken::Repeat)),
        (name(0, 2), ONE, Profile::One, Err(TakeFault::Conflict)),
        (
            name(0, 2),
            ONE,
            Profile::Two,
            Err(TakeFault::ProfileMismatch),
        ),
    ] {
        let before = ledger.write_ledger(alloc)?;
        match ledger.take(verdict_of(alloc, name, steps, profile)?) {
            Ok(taken) => assert_eq!(rt; Ok(taken), want),
            Err((fault, back)) => {
                assert_text(&rt, alloc, &ledger, &before)?;
                assert_eq!(rt; (back.name(), back.profile()), (name, profile));
                if fault == TakeFault::OutOfMemory {
                    return Err(fault.into());
                }
                assert_eq!(rt; Err(fault), want);
            }
        }
    }
    let held = [(name(0, 2), TWO), (name(0, 7), ONE), (name(3, 0), ONE)];
    assert_holds(&rt, &ledger, &held);
    for (wanted, is_held) in [(name(0, 7), true), (name(0, 0), false)] {
        assert_eq!(rt; ledger.has(wanted), is_held);
        let found = ledger.get(wanted).map(|it| it.name());
        assert_eq!(rt; found, if is_held { Some(wanted) } else { None });
    }
    Ok(())
}

#[test]
fn the_least_name_that_stands_twice_is_found(rt: HostRuntime) -> Result<(), Fail> {
    let alloc = rt.alloc();
    for (numbers, least) in [
        ([3, 1, 1, 3].as_slice(), Some(name(0, 1))),
        ([4, 3, 2, 1].as_slice(), None),
    ] {
        let mut sections = Vec::new(alloc);
        for number in numbers {
            sections.push(Arc::new(alloc, Section::new(alloc, name(0, *number)))?)?;
        }
        assert_eq!(rt; least_repeat(alloc, sections.as_slice())?, least);
    }
    Ok(())
}

// The refusal is told by this text.
fn assert_told<F: Display + Drop>(
    rt: &impl Abort,
    alloc: Global,
    fault: F,
    want: &str,
) -> Result<(), Fail> {
    let text = format!(in alloc; "{fault}")?;
    assert_eq!(rt; text.as_str(), want);
    Ok(())
}

#[test]
fn a_refused_take_or_join_has_its_text(rt: HostRuntime) -> Result<(), Fail> {
    let alloc = rt.alloc();
    for (fault, want) in [
        (TakeFault::ProfileMismatch, "profiles differ"),
        (TakeFault::Conflict, "held with other events"),
        (TakeFault::OutOfMemory, "out of memory"),
    ] {
        assert_told(&rt, alloc, fault, want)?;
    }
    let name = name(12, 70);
    let held = "section 12.70: held with other events";
    for (fault, want) in [
        (JoinFault::ProfileMismatch, "profiles differ"),
        (JoinFault::Conflict { name }, held),
        (JoinFault::OutOfMemory, "out of memory"),
    ] {
        assert_told(&rt, alloc, fault, want)?;
    }
    Ok(())
}
