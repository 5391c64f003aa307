//! Workers take turns, and a gate is told the places at which sections were handed in.

use super::gates::{Holds, Keeps, Meeting};
use super::{assert_both, fences, name};
use crate::{Gate, Turn, run};
use pmf_event::Profile;
use pmf_verdict::check;
use std::alloc::{AllocError, Global};
use std::process::Abort;
use std::sync::{Arc, Wait};
use std::test::Fail;
use std::thread::Threads;

#[test]
fn two_workers_take_turns(rt: HostRuntime) -> Result<(), Fail> {
    let gate = Holds::new();
    assert_both(&rt, rt.alloc(), 2, &gate)?;
    assert_eq!(rt; gate.meeting(), Meeting::Met);
    Ok(())
}

// Farms out sections of 2, 5, 1 and 9 events, whose names rise in the order of places 1, 3, 0 and 2.
fn farm_out<R: Threads + Wait + Sync + Abort, G: Gate + Sync>(
    rt: &R,
    alloc: Global,
    profile: Profile,
    gate: &G,
) -> Result<(), Fail> {
    let mut sections = Vec::new(alloc);
    for (number, events) in [(3, 2), (1, 5), (4, 1), (2, 9)] {
        sections.push(fences(alloc, name(0, number), events)?)?;
    }
    let ledger = run(rt, alloc, sections.as_slice(), None, 1, profile, gate)?;
    assert_eq!(rt; ledger.len(), 4);
    Ok(())
}

// Of no section the caller's own thread has to be told: each verdict is by the profile that was asked for, and kept.
fn assert_all_kept<R: Threads + Wait + Sync + Abort>(
    rt: &R,
    alloc: Global,
    profile: Profile,
) -> Result<(), Fail> {
    let gate = Keeps::answering(Turn::Go);
    farm_out(rt, alloc, profile, &gate)?;
    // Its gate loses no worker, so that one leaves a section for want of memory alone.
    if gate.missing_told() != 0 {
        return Err(AllocError.into());
    }
    assert_eq!(rt; gate.turns(), 4_213);
    Ok(())
}

#[test]
fn long_sections_are_taken_first_and_told_by_their_place(rt: HostRuntime) -> Result<(), Fail> {
    assert_all_kept(&rt, rt.alloc(), Profile::One)?;
    assert_all_kept(&rt, rt.alloc(), Profile::Two)
}

// So many sections, of which the verdict of the first by a profile is known, give their ledger; no worker takes a turn where that is all that is asked for.
fn turns_beside<R: Threads + Wait + Sync + Abort>(
    rt: &R,
    alloc: Global,
    count: u64,
    profile: Profile,
) -> Result<(), Fail> {
    let first = fences(alloc, name(0, 0), 3)?;
    let Ok(known) = check(alloc, Arc::try_clone(&first)?, profile) else {
        return Err(AllocError.into());
    };
    let mut sections = Vec::new(alloc);
    sections.push(first)?;
    for number in 1..count {
        sections.push(fences(alloc, name(0, number), 3)?)?;
    }
    let gate = Keeps::answering(Turn::Go);
    let ledger = run(
        rt,
        alloc,
        sections.as_slice(),
        Some(known),
        2,
        Profile::One,
        &gate,
    )?;
    assert_eq!(rt; ledger.len(), sections.len());
    let is_spared = count == 1 && profile == Profile::One;
    assert_eq!(rt; gate.turns() == 0 && gate.missing_told() == 0, is_spared);
    Ok(())
}

#[test]
fn a_known_verdict_of_the_only_section_spares_the_workers(rt: HostRuntime) -> Result<(), Fail> {
    turns_beside(&rt, rt.alloc(), 1, Profile::One)?;
    turns_beside(&rt, rt.alloc(), 1, Profile::Two)?;
    turns_beside(&rt, rt.alloc(), 2, Profile::One)
}

#[test]
fn sections_that_no_worker_did_are_told_by_their_place(rt: HostRuntime) -> Result<(), Fail> {
    let gate = Keeps::answering(Turn::Lost);
    farm_out(&rt, rt.alloc(), Profile::One, &gate)?;
    assert_eq!(rt; gate.missing_told(), 2_413);
    // A worker has no turn at all for want of memory alone.
    if gate.turns() == 0 {
        return Err(AllocError.into());
    }
    assert_eq!(rt; gate.turns(), 4);
    Ok(())
}
