//! Sections are handed out and done, by one pass and by two.

ghost use Rattle.std.specs.Prelude.{◌≡◌, length};

use super::{Board, BoardFault, Pass, Tally, Task};
use std::process::Abort;
use std::test::Fail;

mod threads;

// The section and the number of a task.
fn told(task: Option<Task>) -> Option<(u32, u32)> {
    let task = task?;
    Some((task.section(), task.number()))
}

// Takes the section again and again, and drops the tasks: they are the hand-outs from the first up to the eighth, and
// then there is none.
fn assert_again(rt: &impl Abort, board: &Board, pass: &mut Pass, section: u32, first: u32)
    requires { pass.old.board ≡ board.now }
    ensures { pass.new.board ≡ pass.old.board }
{
    for number in first..9 {
        assert_eq!(rt; told(board.take_again(pass, 0)), Some((section, number)));
    }
    assert_eq!(rt; told(board.take_again(pass, 0)), None);
}

// Takes a fresh section and marks it: it is this one, or none is left.
fn assert_fresh(rt: &impl Abort, board: &Board, pass: &mut Pass, start: u32, section: Option<u32>)
    requires { pass.old.board ≡ board.now }
    ensures { pass.new.board ≡ pass.old.board }
{
    let Some(task) = board.take_fresh(pass, start) else {
        assert_eq!(rt; None, section);
        return;
    };
    assert_eq!(rt; (Some(task.section()), task.number()), (section, 1));
    board.mark(pass, task);
}

// Takes fresh sections and marks them until none is left: the first from the start on, each other from behind the last.
// Answers whether none was left.
fn work(board: &Board, mut pass: Pass, start: u32) -> (Pass, bool)
    requires { pass.board ≡ board.now }
    ensures { result.0.board ≡ board.now }
{
    let mut next = start;
    for _ in 0..board.sections() + 1 {
        let Some(task) = board.take_fresh(&mut pass, next) else {
            return (pass, true);
        };
        next = task.section() + 1;
        board.mark(&mut pass, task);
    }
    (pass, false)
}

// Each section was handed out once and is done.
fn assert_all_once(rt: &impl Abort, tally: &Tally, sections: u32)
    requires { length tally.now ≡ sections }
{
    for section in 0..sections {
        assert_eq!(rt; (tally.handouts(section), tally.done(section)), (1, true));
    }
}

#[test]
fn two_sections_are_handed_out_and_told(rt: HostRuntime) -> Result<(), Fail> {
    let (board, mut p) = Board::new(rt.alloc(), 2)?;
    assert_fresh(&rt, &board, &mut p, 0, Some(0));
    assert!(rt; board.is_done(&mut p, 0) && !board.is_done(&mut p, 1));
    let mut q = board.split(&mut p)?;
    assert!(rt; matches!(board.split(&mut q), Err(BoardFault::Crowded)));
    assert_eq!(rt; told(board.take_fresh(&mut q, 0)), Some((1, 1)));
    assert_again(&rt, &board, &mut p, 1, 2);
    assert_again(&rt, &board, &mut q, 1, 9);
    assert_fresh(&rt, &board, &mut p, 0, None);
    assert_fresh(&rt, &board, &mut q, 0, None);
    let Err((fault, board, mut p)) = board.close(p) else {
        panic!(rt; "shares are out")
    };
    assert_eq!(rt;
        (fault, p.shares(), q.shares()),
        (BoardFault::SharesOut, 64, 1)
    );
    board.join(&mut p, q);
    let Ok(tally) = board.close(p) else {
        panic!(rt; "all shares are there")
    };
    assert_eq!(rt; (tally.handouts(0), tally.done(0)), (1, true));
    assert_eq!(rt; (tally.handouts(1), tally.done(1)), (8, false));
    Ok(())
}

// Answers from a pass's own record alone would be other ones: each of the three took, marked and saw nothing.
#[test]
fn what_another_pass_marked_is_done_and_not_taken(rt: HostRuntime) -> Result<(), Fail> {
    let (board, mut p) = Board::new(rt.alloc(), 1)?;
    let mut q = board.split(&mut p)?;
    let mut r = board.split(&mut p)?;
    let mut s = board.split(&mut p)?;
    assert_fresh(&rt, &board, &mut p, 0, Some(0));
    assert!(rt; board.is_done(&mut q, 0));
    assert!(rt; board.take_fresh(&mut r, 0).is_none());
    assert!(rt; board.take_again(&mut s, 0).is_none());
    Ok(())
}
