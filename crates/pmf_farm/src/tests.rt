//! What farms, their workers and outboxes answer, by real threads.

ghost use Rattle.std.specs.Prelude.{◌≡◌, vec_len, IfOk};

use super::{Gate, OpenGate, Turn, run};
use gates::{Keeps, Loses};
use pmf_event::{Event, Name, Profile, Section, Span};
use std::alloc::Global;
use std::process::Abort;
use std::sync::{Arc, Wait};
use std::test::Fail;
use std::thread::Threads;

mod gates;
mod refusals;
mod turns;
mod workers;

fn name(run: u64, number: u64) -> Name {
    Name { run, number }
}

// A section of this name with so many fences.
fn fences(alloc: Global, name: Name, count: usize) -> Result<Arc<Section>, Fail> {
    let mut section = Section::new(alloc, name);
    for _ in 0..count {
        section.push(Event::Fence)?;
    }
    Ok(Arc::new(alloc, section)?)
}

// A section of this name and these events.
fn section_of(alloc: Global, name: Name, events: &[Event]) -> Result<Arc<Section>, Fail> {
    let mut section = Section::new(alloc, name);
    for event in events {
        section.push(*event)?;
    }
    Ok(Arc::new(alloc, section)?)
}

// Section 0.1 has a store, its write-back, a fence, and the assertion that it is durable; 0.2 lacks what is between.
fn both(alloc: Global) -> Result<Vec<Arc<Section>>, Fail>
    ensures { IfOk result (λ sections. vec_len sections ≡ 2) }
{
    let word = Span::make(0x1000, 8)?;
    let flush = Event::Flush(Span::make(0x1000, 64)?);
    let (store, persist) = (Event::Store(word), Event::Persist(word));
    let persisted = section_of(alloc, name(0, 1), &[store, flush, Event::Fence, persist])?;
    let not_persisted = section_of(alloc, name(0, 2), &[store, persist])?;
    Ok(Vec::from_array(alloc, [persisted, not_persisted])?)
}

// What the ledger of sections 0.1 and 0.2 reports, by either profile.
const REPORT: &[u8] = b"\
section 0.1 events=4 pass=1 fail=0 warn=0 empty=0
4 PERSIST PASS
section 0.2 events=2 pass=0 fail=1 warn=0 empty=0
2 PERSIST FAIL byte=0x1000 crash=2
total sections=2 pass=1 fail=1 warn=0 empty=0
";

// So many workers and this gate give the ledger of sections 0.1 and 0.2.
fn assert_both<R: Threads + Wait + Sync + Abort, G: Gate + Sync>(
    rt: &R,
    alloc: Global,
    workers: u32,
    gate: &G,
) -> Result<(), Fail> {
    let sections = both(alloc)?;
    let ledger = run(
        rt,
        alloc,
        sections.as_slice(),
        None,
        workers,
        Profile::One,
        gate,
    )?;
    let report = ledger.write_report(alloc)?;
    assert!(rt; report.as_slice() == REPORT, "{workers} workers");
    Ok(())
}

#[test]
fn workers_give_the_ledger_and_so_does_the_caller_where_all_are_lost(
    rt: HostRuntime,
) -> Result<(), Fail> {
    for workers in [1, 2, 64] {
        assert_both(&rt, rt.alloc(), workers, &OpenGate)?;
        assert_both(&rt, rt.alloc(), workers, &Keeps::answering(Turn::Lost))?;
    }
    Ok(())
}

#[test]
fn a_worker_lost_at_any_of_its_turns_leaves_the_same_ledger(rt: HostRuntime) -> Result<(), Fail> {
    for turn in 1..17 {
        assert_both(&rt, rt.alloc(), 2, &Loses::worker(0, turn))?;
    }
    Ok(())
}

// What 64 workers and this gate report of some sections.
fn report_of<R: Threads + Wait + Sync + Abort, G: Gate + Sync>(
    rt: &R,
    alloc: Global,
    sections: &[Arc<Section>],
    gate: &G,
) -> Result<Vec<u8>, Fail> {
    let ledger = run(rt, alloc, sections, None, 64, Profile::One, gate)?;
    Ok(ledger.write_report(alloc)?)
}

#[test]
fn each_of_64_workers_lost_at_each_of_its_first_turns_leaves_the_same_ledger(
    rt: HostRuntime,
) -> Result<(), Fail> {
    let alloc = rt.alloc();
    let mut sections = Vec::new(alloc);
    for number in 0..128 {
        sections.push(fences(alloc, name(0, number), 1)?)?;
    }
    let want = report_of(&rt, alloc, sections.as_slice(), &OpenGate)?;
    for worker in 0..64 {
        for turn in 1..4 {
            let gate = Loses::worker(worker, turn);
            let report = report_of(&rt, alloc, sections.as_slice(), &gate)?;
            assert!(rt; report.as_slice() == want.as_slice(), "{worker} at {turn}");
        }
    }
    Ok(())
}

#[test]
fn no_section_and_as_many_as_a_farm_takes_are_gathered(rt: HostRuntime) -> Result<(), Fail> {
    let alloc = rt.alloc();
    for count in [0, 65_536] {
        let mut sections = Vec::new(alloc);
        for number in 0..count {
            sections.push(fences(alloc, name(0, number), 1)?)?;
        }
        let ledger = run(
            &rt,
            alloc,
            sections.as_slice(),
            None,
            2,
            Profile::One,
            &OpenGate,
        )?;
        assert_eq!(rt; ledger.len(), sections.len());
    }
    Ok(())
}
