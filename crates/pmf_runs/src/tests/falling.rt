//! How many keys a question for the least one asks, where keys fall along a range.

ghost use Rattle.std.specs.Prelude.{Some, false, nat_le, refl};

use crate::RunMap;
use crate::state::{Change, Effect, Key, State};
use std::cell::Cell;
use std::test::Fail;

/// How many runs there are, each of eight numbers.
const RUNS: u32 = 20_000;

/// A height, which is its key.
#[derive(Clone, Copy, Debug, PartialEq, Eq)]
struct Height {
    height: u32,
}

/// No height is settled.
impl State for Height {
    type Summary = u32;

    ghost covers = { λ least s. nat_le least s.height };

    ghost unsettled = { λ s. false };

    ghost flagged = { λ flag s. s };

    ghost forgets = { λ first last s. refl };

    fn summary(&self) -> u32 {
        self.height
    }

    fn joined(one: u32, other: u32) -> u32 {
        one.min(other)
    }

    fn is_unsettled(&self) -> bool {
        false
    }

    fn may_be_unsettled(_least: u32) -> bool {
        false
    }

    fn settled(least: u32) -> u32 {
        least
    }

    fn is_same(&self, other: Height) -> bool {
        *self == other
    }

    fn are_alike(one: u32, other: u32) -> bool {
        one == other
    }

    fn flagged(self, _flag: bool) -> Height {
        self
    }

    fn summary_flagged(summary: u32, _flag: bool) -> u32 {
        summary
    }
}

/// Gives one height to all.
#[derive(Clone, Copy, Debug)]
struct Raise {
    to: Height,
}

impl Change<Height> for Raise {
    ghost changed = { λ raise _height. raise.to };

    fn changed(&self, _height: Height) -> Height {
        self.to
    }

    fn may_alter(&self, _least: u32) -> bool {
        true
    }

    fn widened(&self, least: u32) -> u32 {
        least.min(self.to.height)
    }

    fn effect(&self, _least: u32, _height: Height) -> Effect {
        Effect::Narrows
    }
}

/// The height, and how often it was asked for.
#[derive(Debug, Drop)]
struct Asked {
    times: Cell<u32>,
}

impl Key<Height> for Asked {
    ghost key = { λ _asked s. Some s.height };

    fn key(&self, state: Height) -> Option<u32> {
        self.times.set(self.times.get().wrapping_add(1));
        Some(state.height)
    }

    fn may_lower(&self, bound: u32, least: Option<u32>) -> bool {
        match least {
            None => true,
            Some(so_far) => bound < so_far,
        }
    }

    fn bound(&self, bound: u32) -> Option<u32> {
        Some(bound)
    }
}

/// A leaf has at most 64 runs. Of the groups and of each group's leaves three are asked: the first, the one with the
/// least bound, and the last.
#[test]
fn a_question_for_the_least_key_passes_over_most_leaves(rt: HostRuntime) -> Result<(), Fail> {
    let mut falling = RunMap::new(rt.alloc(), Height { height: RUNS });
    let mut rising = RunMap::new(rt.alloc(), Height { height: RUNS });
    for run in 0..RUNS {
        let (first, end) = (u64::from(run) * 8, u64::from(run) * 8 + 8);
        let low = Raise {
            to: Height { height: RUNS - run },
        };
        falling.change(first, end, &low)?;
        let high = Raise {
            to: Height { height: run },
        };
        rising.change(first, end, &high)?;
    }
    let end = u64::from(RUNS) * 8;
    let asked = Asked {
        times: Cell::new(0),
    };
    assert_eq!(rt; falling.least_key(0, end, &asked), Some(1));
    assert!(rt; asked.times.get() <= 9 * 64, "{}", asked.times.get());
    asked.times.set(0);
    assert_eq!(rt; falling.least_key(4, end - 8, &asked), Some(2));
    assert!(rt; asked.times.get() <= 9 * 64, "{}", asked.times.get());
    asked.times.set(0);
    assert_eq!(rt; falling.least_key(8, 24, &asked), Some(RUNS - 2));
    assert_eq!(rt; asked.times.get(), 2);
    asked.times.set(0);
    assert_eq!(rt; rising.least_key(0, end, &asked), Some(0));
    assert!(rt; asked.times.get() <= 64, "{}", asked.times.get());
    Ok(())
}
