//! Passes on threads of their own.

ghost use Rattle.std.specs.Prelude.{◌≡◌, All, IfOk};

use super::{assert_all_once, work};
use crate::{Board, MOST_SECTIONS, Pass};
use std::alloc::Global;
use std::process::Abort;
use std::test::Fail;
use std::thread::{Threads, map_vec};

// A pass, and the section at which its takes start.
#[derive(Drop)]
struct Job {
    pass: Pass,
    start: u32,
}

// 64 passes split off the first, whose starts lie 1,024 sections apart.
fn jobs_of(board: &Board, alloc: Global, first: &mut Pass) -> Result<Vec<Job>, Fail>
    requires { first.old.board ≡ board.now }
    ensures same { first.new.board ≡ first.old.board }
    ensures own { IfOk result (λ jobs. All (λ job. job.pass.board ≡ board.now) jobs.items) }
{
    let mut jobs = Vec::new(alloc);
    for worker in 0..64 {
        let pass = board.split(first)?;
        let start = worker * 1_024;
        jobs.push(Job { pass, start })?;
    }
    Ok(jobs)
}

// Each job works on a thread of its own, until none is left, and its pass joins the first.
fn work_all<R: Threads + Sync + Abort>(
    rt: &R,
    board: &Board,
    first: &mut Pass,
    jobs: Vec<Job>,
) -> Result<(), Fail>
    requires own { first.old.board ≡ board.now }
    requires jobs { All (λ job. job.pass.board ≡ board.now) jobs.items }
    ensures { first.new.board ≡ first.old.board }
{
    let mut ended = map_vec(
        rt,
        jobs,
        &|job: Job| -> (Pass, bool)
            requires { job.pass.board ≡ board.now }
            ensures { result.0.board ≡ board.entry.now }
        {
            let Job { pass, start } = job;
            work(board, pass, start)
        },
    )?;
    while let Some((pass, none_left)) = ended.pop() {
        assert!(rt; none_left);
        board.join(first, pass);
    }
    Ok(())
}

#[test]
fn sixty_four_threads_do_each_of_the_most_sections_once(rt: HostRuntime) -> Result<(), Fail> {
    let (board, mut pass) = Board::new(rt.alloc(), MOST_SECTIONS)?;
    let jobs = jobs_of(&board, rt.alloc(), &mut pass)?;
    work_all(&rt, &board, &mut pass, jobs)?;
    let Ok(tally) = board.close(pass) else {
        panic!(rt; "all shares are there")
    };
    assert_all_once(&rt, &tally, MOST_SECTIONS);
    Ok(())
}
