//! Gates that lose workers, let them take turns, and keep what they were told.

use crate::{Gate, Turn};
use std::sync::atomic::{AtomicU64, Ordering};
use std::thread;

/// Loses a worker at one of its turns, counted from 1.
#[derive(Drop)]
pub(super) struct Loses {
    worker: u32,
    at: u64,
    turns: AtomicU64,
}

impl Loses {
    pub(super) fn worker(worker: u32, at: u64) -> Loses {
        Loses {
            worker,
            at,
            turns: AtomicU64::new(0),
        }
    }
}

impl Gate for Loses {
    ghost answers = { λ _ _ _ _. Unit {0} };

    fn turn(&self, worker: u32, _section: u32) -> Turn {
        if worker == self.worker
            && self.turns.fetch_add(1, Ordering::SeqCst).wrapping_add(1) == self.at
        {
            return Turn::Lost;
        }
        Turn::Go
    }

    fn missing(&self, _section: u32) {}
}

// How often a worker looks whether the turn of another has begun.
const MOST_LOOKS: u32 = 10_000_000;

/// What came of holding the first turn.
#[derive(Clone, Copy, Debug, PartialEq, Eq)]
pub(super) enum Meeting {
    /// The turn of another worker began.
    Met,
    /// None began. Another worker is also missing where its thread was refused memory.
    NoneCameOrOutOfMemory,
}

/// Holds the first turn of all until the turn of another worker has begun.
#[derive(Drop)]
pub(super) struct Holds {
    // A bit for each worker whose turn has begun.
    begun: AtomicU64,
    gave_up: AtomicU64,
}

impl Holds {
    pub(super) fn new() -> Holds {
        Holds {
            begun: AtomicU64::new(0),
            gave_up: AtomicU64::new(0),
        }
    }

    pub(super) fn meeting(&self) -> Meeting {
        if self.gave_up.load(Ordering::SeqCst) == 0 && self.begun.load(Ordering::SeqCst) == 3 {
            Meeting::Met
        } else {
            Meeting::NoneCameOrOutOfMemory
        }
    }

    fn wait_for_another(&self, own: u64) {
        for _ in 0..MOST_LOOKS {
            if self.begun.load(Ordering::SeqCst) != own {
                return;
            }
            thread::yield_now();
        }
        self.gave_up.store(1, Ordering::SeqCst);
    }
}

impl Gate for Holds {
    ghost answers = { λ _ _ _ _. Unit {0} };

    fn turn(&self, worker: u32, _section: u32) -> Turn {
        let own = if worker == 0 { 1 } else { 2 };
        if self.begun.fetch_or(own, Ordering::SeqCst) == 0 {
            self.wait_for_another(own);
        }
        Turn::Go
    }

    fn missing(&self, _section: u32) {}
}

/// Keeps the places that it was told, for one worker and fewer than nine places: each is a decimal digit, one more than
/// the place, behind those before it. It loses each worker, or none.
#[derive(Drop)]
pub(super) struct Keeps {
    turn: Turn,
    turns: AtomicU64,
    missing: AtomicU64,
}

impl Keeps {
    pub(super) fn answering(turn: Turn) -> Keeps {
        Keeps {
            turn,
            turns: AtomicU64::new(0),
            missing: AtomicU64::new(0),
        }
    }

    pub(super) fn turns(&self) -> u64 {
        self.turns.load(Ordering::SeqCst)
    }

    pub(super) fn missing_told(&self) -> u64 {
        self.missing.load(Ordering::SeqCst)
    }
}

fn append(digits: &AtomicU64, place: u32) {
    let before = digits.load(Ordering::SeqCst);
    let digit = (place as u64).wrapping_add(1);
    digits.store(
        before.wrapping_mul(10).wrapping_add(digit),
        Ordering::SeqCst,
    );
}

impl Gate for Keeps {
    ghost answers = { λ _ _ _ _. Unit {0} };

    fn turn(&self, _worker: u32, section: u32) -> Turn {
        append(&self.turns, section);
        self.turn
    }

    fn missing(&self, section: u32) {
        append(&self.missing, section);
    }
}
