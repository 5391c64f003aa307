//! What a thread does in a round.

ghost use Rattle.std.specs.Prelude.{◌≡◌};

use pmf_board::{Board, MOST_SECTIONS, Pass};
use std::sync::atomic::{AtomicU64, Ordering};

// How often a board on which nothing is fresh is gone through.
const SWEEPS: u32 = 16;

// A pass of a board, and the section at which its takes begin.
#[derive(Drop)]
pub(crate) struct Job {
    pub(crate) pass: Pass,
    pub(crate) start: u32,
}

// Nothing; numbers of one counter; sections, each take from behind the last; the same with sweeps that find none; sections,
// each take from the same start.
#[derive(Clone, Copy)]
pub(crate) enum Work {
    Idle,
    Counter,
    Apart,
    Sweep,
    Fixed,
}

pub(crate) fn work_of(word: &str) -> Option<Work> {
    match word {
        "idle" => Some(Work::Idle),
        "counter" => Some(Work::Counter),
        "apart" => Some(Work::Apart),
        "sweep" => Some(Work::Sweep),
        "fixed" => Some(Work::Fixed),
        _ => None,
    }
}

// Adds to the counter until it has told as many numbers as a board has sections. Answers how many it told here.
fn count(counter: &AtomicU64) -> u32 {
    for told in 0..MOST_SECTIONS {
        if counter.fetch_add(1, Ordering::SeqCst) >= u64::from(MOST_SECTIONS) {
            return told;
        }
    }
    MOST_SECTIONS
}

// Takes and marks until nothing is fresh. Answers how many it took.
fn take_all(board: &Board, pass: &mut Pass, start: u32, moves: bool) -> u32
    requires { pass.old.board ≡ board.now }
    ensures { pass.new.board ≡ pass.old.board }
{
    let mut next = start;
    let sections = board.sections();
    for taken in 0..sections + 1 {
        let Some(task) = board.take_fresh(pass, next) else {
            return taken;
        };
        if moves {
            next = task.section() + 1;
        }
        board.mark(pass, task);
    }
    sections
}

// Asks so often for a fresh section where none is.
fn sweep(board: &Board, pass: &mut Pass)
    requires { pass.old.board ≡ board.now }
    ensures { pass.new.board ≡ pass.old.board }
{
    for start in 0..SWEEPS {
        drop(board.take_fresh(pass, start));
    }
}

impl Work {
    // Answers how many sections, or numbers of the counter, were handed out.
    pub(crate) fn hand_out(self, board: &Board, counter: &AtomicU64, job: Job) -> u32
        requires { job.pass.board ≡ board.now }
    {
        let Job { mut pass, start } = job;
        match self {
            Work::Idle => 0,
            Work::Counter => count(counter),
            Work::Apart => take_all(board, &mut pass, start, true),
            Work::Fixed => take_all(board, &mut pass, start, false),
            Work::Sweep => {
                let taken = take_all(board, &mut pass, start, true);
                sweep(board, &mut pass);
                taken
            }
        }
    }
}
