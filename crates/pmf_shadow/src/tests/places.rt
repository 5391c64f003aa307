//! Stores that are told at any rising places.

use super::interval;
use crate::shadow::Shadow;
use pmf_event::{Profile, Span};
use std::alloc::Global;
use std::test::Fail;

/// The shadow of two stores to one line, each with a fence after it, that were told at these places.
fn stored_twice(alloc: Global, one: u32, other: u32) -> Result<Shadow, Fail> {
    let (here, next) = (Span::make(0x1000, 8)?, Span::make(0x1008, 8)?);
    let mut shadow = Shadow::new(alloc);
    shadow.store(one, here)?;
    shadow.fence();
    shadow.store(other, next)?;
    shadow.fence();
    Ok(shadow)
}

#[test]
fn an_interval_has_the_place_that_was_told(rt: HostRuntime) -> Result<(), Fail> {
    let (here, next) = (Span::make(0x1000, 8)?, Span::make(0x1008, 8)?);
    let shadow = stored_twice(rt.alloc(), 10, 20)?;
    assert_eq!(rt; shadow.interval_at(0x1000), interval(10, 0, None));
    assert_eq!(rt; shadow.interval_at(0x1008), interval(20, 1, None));
    let none = shadow.least_pair(here, next, false, Profile::Two);
    let some = shadow.least_pair(next, here, true, Profile::Two);
    assert_eq!(rt; (none, some), (None, Some((0x1008, 0x1000))));
    Ok(())
}
