//! What a worker puts, marks and answers, on a board of two sections.

ghost use Rattle.std.specs.Prelude.{[]};

use super::gates::Keeps;
use super::{both, name};
use crate::{ChannelOutbox, Ended, Gate, OpenGate, Outbox, Turn, work};
use crossbeam_channel::{Sender, unbounded};
use pmf_board::Board;
use pmf_event::Profile;
use pmf_verdict::Verdict;
use std::alloc::{AllocError, Global};
use std::process::Abort;
use std::sync::Wait;
use std::test::Fail;

// The worker puts both sections into the channel, and does them.
fn assert_done<R: Wait + Abort>(
    rt: &R,
    alloc: Global,
    worker: u32,
    sender: Sender<Verdict, Global>,
) -> Result<(), Fail> {
    let sections = both(alloc)?;
    let (board, mut pass) = Board::new(alloc, 2)?;
    let mut outbox = ChannelOutbox::new(rt, alloc, sender);
    let ended = work(
        alloc,
        &board,
        &mut pass,
        sections.as_slice(),
        worker,
        Profile::One,
        &mut outbox,
        &OpenGate,
    )?;
    assert_eq!(rt; ended, Ended::All);
    assert!(rt; board.is_done(&mut pass, 0) && board.is_done(&mut pass, 1));
    Ok(())
}

// A verdict that nobody receives counts as put.
#[test]
fn a_worker_puts_each_verdict_once_from_the_section_of_its_number_on(
    rt: HostRuntime,
) -> Result<(), Fail> {
    let alloc = rt.alloc();
    for (worker, first, second) in [(0, 1, 2), (1, 2, 1), (63, 2, 1)] {
        let (sender, receiver) = unbounded(alloc)?;
        assert_done(&rt, alloc, worker, sender)?;
        let mut put = Vec::new(alloc);
        for verdict in receiver.iter(&rt) {
            assert_eq!(rt; verdict.profile(), Profile::One);
            put.push(verdict.name())?;
        }
        assert_eq!(rt;
            put.as_slice(),
            [name(0, first), name(0, second)].as_slice()
        );
    }
    let (sender, receiver) = unbounded(alloc)?;
    drop(receiver);
    assert_done(&rt, alloc, 0, sender)
}

// Takes no verdict.
#[derive(Drop)]
struct RefusingOutbox;

impl Outbox for RefusingOutbox {
    ghost sent = { λ _. [] };

    fn put(&mut self, verdict: Verdict) -> Result<(), (AllocError, Verdict)> {
        Err((AllocError, verdict))
    }
}

// How a worker with this gate ends, whose outbox refuses. The first section was handed out once, and neither is done.
fn ended_of<G: Gate>(rt: &impl Abort, alloc: Global, gate: &G) -> Result<Option<Ended>, Fail> {
    let sections = both(alloc)?;
    let (board, mut pass) = Board::new(alloc, 2)?;
    let ended = work(
        alloc,
        &board,
        &mut pass,
        sections.as_slice(),
        0,
        Profile::One,
        &mut RefusingOutbox,
        gate,
    );
    let Ok(tally) = board.close(pass) else {
        panic!(rt; "all shares are there")
    };
    assert_eq!(rt; (tally.handouts(0), tally.done(0)), (1, false));
    assert_eq!(rt; (tally.handouts(1), tally.done(1)), (0, false));
    Ok(ended.ok())
}

#[test]
fn a_worker_that_is_lost_at_once_or_whose_outbox_refuses_marks_nothing(
    rt: HostRuntime,
) -> Result<(), Fail> {
    let lost = Keeps::answering(Turn::Lost);
    assert_eq!(rt; ended_of(&rt, rt.alloc(), &lost)?, Some(Ended::Lost));
    assert_eq!(rt; ended_of(&rt, rt.alloc(), &OpenGate)?, None);
    Ok(())
}
