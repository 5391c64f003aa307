//! Of how many runs a wide question asks, where excluded bytes lie beside checked ones.

ghost use Rattle.pmf_shadow.specs.States.{checked_store, holds_of, late_for};

use crate::byte::{Bounds, ByteState, IsLate, Marked, StoredAt, UNTOUCHED, WrittenBackIn};
use pmf_runs::{RunMap, Test};
use std::alloc::AllocError;
use std::cell::Cell;
use std::process::Abort;
use std::test::Fail;

/// How many pairs of runs there are, one of a checked byte and one of an excluded one.
const PAIRS: u64 = 3000;

/// Where the last of them ends.
const END: u64 = PAIRS * 512;

const EXCLUDE: Marked = Marked { excluded: true };

const INCLUDE: Marked = Marked { excluded: false };

const FIRST: StoredAt = StoredAt { place: 1, epoch: 0 };

const SECOND: StoredAt = StoredAt { place: 2, epoch: 1 };

/// Whether the byte is late for this epoch, and how often that was asked.
#[derive(Debug, Drop)]
struct Counting {
    epoch: u32,
    times: Cell<u32>,
}

impl Test<ByteState> for Counting {
    ghost passes = { λ t s. holds_of (late_for t.epoch) (checked_store s) };

    fn passes(&self, state: ByteState) -> bool {
        self.times.set(self.times.get().wrapping_add(1));
        IsLate { epoch: self.epoch }.passes(state)
    }

    fn may_pass(&self, summary: Bounds) -> bool {
        IsLate { epoch: self.epoch }.may_pass(summary)
    }
}

/// No checked byte is late for this epoch, which the summaries tell.
fn assert_none_is_late(rt: &impl Abort, bytes: &RunMap<ByteState>, epoch: u32) {
    let late = Counting {
        epoch,
        times: Cell::new(0),
    };
    assert_eq!(rt; bytes.first_where(0, END, &late), None);
    assert_eq!(rt; late.times.get(), 0);
}

/// Excluded bytes of which one in each pair was stored to and written back in the first epoch.
fn written_back(mut bytes: RunMap<ByteState>) -> Result<RunMap<ByteState>, AllocError> {
    bytes.change(0, END, &EXCLUDE)?;
    for pair in 0..PAIRS {
        bytes.change(pair * 512, pair * 512 + 8, &FIRST)?;
    }
    bytes.change(0, END, &WrittenBackIn { epoch: 0 })?;
    Ok(bytes)
}

#[test]
fn stores_to_excluded_bytes_are_passed_over(rt: HostRuntime) -> Result<(), Fail> {
    let mut bytes = written_back(RunMap::new(rt.alloc(), UNTOUCHED))?;
    for pair in 0..PAIRS {
        bytes.change(pair * 512, pair * 512 + 8, &INCLUDE)?;
        bytes.change(pair * 512 + 128, pair * 512 + 136, &SECOND)?;
    }
    assert_none_is_late(&rt, &bytes, 1);
    Ok(())
}

#[test]
fn bytes_that_are_excluded_after_their_store_are_passed_over(rt: HostRuntime) -> Result<(), Fail> {
    let mut bytes = written_back(RunMap::new(rt.alloc(), UNTOUCHED))?;
    bytes.change(0, END, &INCLUDE)?;
    for pair in 0..PAIRS {
        bytes.change(pair * 512 + 128, pair * 512 + 136, &SECOND)?;
        bytes.change(pair * 512 + 128, pair * 512 + 136, &EXCLUDE)?;
    }
    assert_none_is_late(&rt, &bytes, 1);
    Ok(())
}

#[test]
fn written_back_bytes_beside_excluded_ones_are_passed_over(rt: HostRuntime) -> Result<(), Fail> {
    let mut bytes = written_back(RunMap::new(rt.alloc(), UNTOUCHED))?;
    for pair in 0..PAIRS {
        bytes.change(pair * 512 + 128, pair * 512 + 136, &SECOND)?;
        bytes.change(pair * 512, pair * 512 + 8, &INCLUDE)?;
        bytes.change(pair * 512, pair * 512 + 8, &SECOND)?;
    }
    for pair in 0..PAIRS {
        bytes.change(pair * 512, pair * 512 + 8, &WrittenBackIn { epoch: 1 })?;
    }
    assert_none_is_late(&rt, &bytes, 2);
    Ok(())
}
