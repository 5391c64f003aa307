//! Hands the sections of boards out by threads, round after round, so that `bench/board` can time it from outside.
//!
//! The words are a work, the number of threads (1 to 64) and that of rounds. Each round makes a board of 65,536 sections
//! and starts the threads, which do the work; what a work costs is the difference to `idle`. It prints how many
//! sections, or numbers of the counter, were handed out.
//!
//! Not promised here: how long anything takes.
#![tactic(auto)]

ghost use Rattle.std.specs.Prelude.{◌≡◌, ◌<◌, All, IfOk, IfSome};

mod work;

use pmf_board::{Board, BoardFault, MOST_SECTIONS, Pass};
use std::alloc::Global;
use std::process::ExitCode;
use std::sync::atomic::AtomicU64;
use std::thread::{Threads, map_vec};
use std::{env, io};
use work::{Job, Work, work_of};

// What the words ask for: the work, the threads and the rounds.
fn request_of(words: &[String]) -> Option<(Work, u32, u32)>
    ensures { IfSome result (λ asked. 0 < asked.1) }
{
    let [_, work, threads, rounds] = words else {
        return None;
    };
    let work = work_of(work.as_str())?;
    let threads = threads.as_str().parse::<u32>().ok()?;
    let rounds = rounds.as_str().parse::<u32>().ok()?;
    if threads == 0 || threads > 64 {
        return None;
    }
    Some((work, threads, rounds))
}

// A job for each thread: a pass split off the first, with starts that lie apart.
fn jobs_of(
    board: &Board,
    alloc: Global,
    first: &mut Pass,
    threads: u32,
) -> Result<Vec<Job>, BoardFault>
    requires own { first.old.board ≡ board.now }
    requires some { 0 < threads }
    ensures { IfOk result (λ jobs. All (λ job. job.pass.board ≡ board.now) jobs.items) }
{
    let Ok(mut jobs) = Vec::with_capacity(alloc, threads as usize) else {
        return Err(BoardFault::OutOfMemory);
    };
    let apart = board.sections() / threads;
    for worker in 0..threads {
        let pass = board.split(first)?;
        let start = worker.wrapping_mul(apart);
        jobs.push_reserved(Job { pass, start });
    }
    Ok(jobs)
}

// One round: how many were handed out.
fn play<R: Threads + Sync>(
    rt: &R,
    alloc: Global,
    work: Work,
    threads: u32,
) -> Result<u64, BoardFault>
    requires { 0 < threads }
{
    let (board, mut first) = Board::new(alloc, MOST_SECTIONS)?;
    let jobs = jobs_of(&board, alloc, &mut first, threads)?;
    let (shared, counter) = (&board, &AtomicU64::new(0));
    let Ok(counts) = map_vec(
        rt,
        jobs,
        &|job: Job| -> u32
            requires { job.pass.board ≡ shared.now }
        { work.hand_out(shared, counter, job) },
    ) else {
        return Err(BoardFault::OutOfMemory);
    };
    Ok(
        counts
            .iter()
            .map(|count| u64::from(*count))
            .fold(0, u64::wrapping_add),
    )
}

// How many were handed out in all rounds.
fn play_all<R: Threads + Sync>(
    rt: &R,
    alloc: Global,
    work: Work,
    threads: u32,
    rounds: u32,
) -> Result<u64, BoardFault>
    requires { 0 < threads }
{
    let mut told = 0u64;
    for _ in 0..rounds {
        told = told.wrapping_add(play(rt, alloc, work, threads)?);
    }
    Ok(told)
}

fn words_of(rt: &HostRuntime) -> io::Result<Vec<String>> {
    Ok(env::args(rt)?.collect(rt.alloc())?)
}

fn main(rt: HostRuntime) -> ExitCode {
    let Ok(words) = words_of(&rt) else {
        return ExitCode::from(3);
    };
    let Some((work, threads, rounds)) = request_of(words.as_slice()) else {
        return ExitCode::from(2);
    };
    match play_all(&rt, rt.alloc(), work, threads, rounds) {
        Ok(told) if println!(rt; "{told}").is_ok() => ExitCode::SUCCESS,
        _ => ExitCode::from(3),
    }
}
