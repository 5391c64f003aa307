//! What two ledgers make together, and what they refuse.

use super::{Given, ONE, PERSISTED, TWO, assert_holds, ledger_of, name};
use crate::JoinFault;
use pmf_event::Profile;
use std::alloc::Global;
use std::process::Abort;
use std::test::Fail;

// The ledgers of these sections join to that of those; or they are refused so, and come back as they were.
fn assert_join(
    rt: &impl Abort,
    alloc: Global,
    first: (Profile, &[Given<'_>]),
    second: (Profile, &[Given<'_>]),
    want: Result<&[Given<'_>], JoinFault>,
) -> Result<(), Fail> {
    let mine = ledger_of(alloc, first.0, first.1)?;
    let other = ledger_of(alloc, second.0, second.1)?;
    match mine.join(other) {
        Ok(joined) => {
            assert_eq!(rt; joined.profile(), first.0);
            assert_holds(rt, &joined, want?);
        }
        Err((fault, mine, other)) => {
            assert_eq!(rt; (mine.profile(), other.profile()), (first.0, second.0));
            assert_holds(rt, &mine, first.1);
            assert_holds(rt, &other, second.1);
            if fault == JoinFault::OutOfMemory {
                return Err(fault.into());
            }
            assert_eq!(rt; Some(fault), want.err());
        }
    }
    Ok(())
}

#[test]
fn what_either_holds_is_held_once_in_the_order_of_names(rt: HostRuntime) -> Result<(), Fail> {
    let a = (name(0, 0), ONE);
    let b = (name(0, 1), PERSISTED);
    let c = (name(1, 0), TWO);
    for (first, second, want) in [
        ([a, b].as_slice(), [b, c].as_slice(), [a, b, c].as_slice()),
        (&[b, c], &[a, b], &[a, b, c]),
        (&[a, c], &[b], &[a, b, c]),
        (&[a, b], &[], &[a, b]),
        (&[], &[a, b], &[a, b]),
    ] {
        let (first, second) = ((Profile::Two, first), (Profile::Two, second));
        assert_join(&rt, rt.alloc(), first, second, Ok(want))?;
    }
    Ok(())
}

#[test]
fn profiles_come_before_the_least_name_with_other_events(rt: HostRuntime) -> Result<(), Fail> {
    let first = [(name(0, 1), PERSISTED), (name(0, 2), ONE)];
    let second = [(name(0, 1), ONE), (name(0, 2), TWO)];
    let least = JoinFault::Conflict { name: name(0, 1) };
    for (profile, want) in [
        (Profile::One, least),
        (Profile::Two, JoinFault::ProfileMismatch),
    ] {
        let first = (Profile::One, first.as_slice());
        let second = (profile, second.as_slice());
        assert_join(&rt, rt.alloc(), first, second, Err(want))?;
    }
    Ok(())
}
