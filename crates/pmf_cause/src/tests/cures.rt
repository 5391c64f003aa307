//! Cures of worked sections, and of random ones.

use super::verdict_of;
use crate::{Edit, propose, try_edits};
use pmf_event::{Event, Finding, Profile, Span, SpanFault};
use pmf_fixtures::{FENCE, FLUSH, Numbers, OTHER, STORE, Step, events_of};
use pmf_verdict::{Outcome, Verdict, outcome_of};
use std::alloc::Global;
use std::test::Fail;

fn put(before: u32, step: Step) -> Result<Edit, SpanFault> {
    let event = step.event()?;
    Ok(Edit::Put { before, event })
}

// Of the first row that is bad: what is proposed for it, and whether that cures it.
fn cure_of(alloc: Global, steps: &[Step]) -> Result<(Vec<Edit>, bool), Fail> {
    let events = events_of(alloc, steps)?;
    let verdict = verdict_of(alloc, &events, Profile::One)?;
    let mut index = 0;
    for at in (0..verdict.rows().len()).rev() {
        if is_bad(verdict.rows()[at].finding) {
            index = at;
        }
    }
    let mut own = propose(alloc, &verdict, &[index], None)?.own;
    let edits = own.pop().unwrap_or(Vec::new(alloc));
    let cured = is_cured_by(alloc, &verdict, index, &edits)?;
    Ok((edits, cured))
}

// Whether the changes cure the row with this index.
fn is_cured_by(
    alloc: Global,
    verdict: &Verdict,
    index: usize,
    edits: &[Edit],
) -> Result<bool, Fail> {
    let Some(row) = verdict.rows().get(index) else {
        return Ok(false);
    };
    match try_edits(alloc, verdict, edits)? {
        Some(trial) => Ok(trial.is_cured(row)),
        None => Ok(false),
    }
}

fn is_bad(finding: Finding) -> bool {
    matches!(outcome_of(finding), Outcome::Fail | Outcome::Warn)
}

const PERSIST: Step = Step::Persist(0x1000, 8);

const IN_ORDER: Step = Step::Ordered((0x1000, 8), (0x2000, 8));

const WIDE: Step = Step::Store(0x1000, 0x100);

const ADD: Step = Step::TxAdd(0x1000, 8);

#[test]
fn a_byte_is_written_back_and_fenced_as_far_as_it_lacks(rt: HostRuntime) -> Result<(), Fail> {
    let wide = Step::Persist(0x1000, 0x100);
    let lines = Step::Flush(0x1000, 0x100);
    let apart = [STORE, Step::Store(0x1080, 8), wide];
    let early = Step::Flush(0x1080, 0x40);
    for (steps, want) in [
        (
            [STORE, PERSIST].as_slice(),
            [put(2, FLUSH)?, put(2, FENCE)?].as_slice(),
        ),
        (
            [STORE, FLUSH, PERSIST].as_slice(),
            [put(3, FENCE)?].as_slice(),
        ),
        (
            [STORE, FENCE, PERSIST].as_slice(),
            [put(2, FLUSH)?].as_slice(),
        ),
        (
            [STORE, FLUSH, OTHER, IN_ORDER].as_slice(),
            [put(3, FENCE)?].as_slice(),
        ),
        (
            [STORE, OTHER, FLUSH, FENCE, IN_ORDER].as_slice(),
            [put(2, FLUSH)?, put(2, FENCE)?].as_slice(),
        ),
        (
            [WIDE, wide].as_slice(),
            [put(2, lines)?, put(2, FENCE)?].as_slice(),
        ),
        (
            apart.as_slice(),
            [put(3, FLUSH)?, put(3, early)?, put(3, FENCE)?].as_slice(),
        ),
    ] {
        let (edits, cured) = cure_of(rt.alloc(), steps)?;
        assert!(rt; edits.as_slice() == want, "{steps:?}: {edits:?}");
        assert!(rt; cured, "{steps:?}");
    }
    Ok(())
}

#[test]
fn what_comes_in_the_wrong_order_has_no_cure(rt: HostRuntime) -> Result<(), Fail> {
    let both = Step::Store(0x1000, 0x10);
    let one_store = Step::Ordered((0x1000, 8), (0x1008, 8));
    for steps in [
        [OTHER, STORE, FLUSH, FENCE, IN_ORDER].as_slice(),
        [both, one_store].as_slice(),
    ] {
        let (edits, cured) = cure_of(rt.alloc(), steps)?;
        assert!(rt; edits.is_empty(), "{steps:?}: {edits:?}");
        assert!(rt; !cured, "{steps:?}");
    }
    Ok(())
}

#[test]
fn an_event_is_put_in_or_left_out(rt: HostRuntime) -> Result<(), Fail> {
    let (start, end) = (Step::CheckStart, Step::CheckEnd);
    let (begin, commit) = (Step::TxBegin, Step::TxEnd);
    let out = |place| Edit::LeaveOut { place };
    let closed = [start, begin, ADD, STORE, commit, FLUSH, FENCE];
    let early = [start, begin, end, commit];
    let never = [start, begin, end];
    for (steps, want) in [
        (
            [start, begin, STORE, FLUSH, commit, FENCE, end].as_slice(),
            [put(3, ADD)?].as_slice(),
        ),
        (
            [start, begin, ADD, STORE, commit, end].as_slice(),
            [put(6, FLUSH)?, put(6, FENCE)?].as_slice(),
        ),
        (closed.as_slice(), [put(8, end)?].as_slice()),
        (early.as_slice(), [out(3), put(5, end)?].as_slice()),
        (never.as_slice(), [put(3, commit)?].as_slice()),
        ([ADD].as_slice(), [out(1)].as_slice()),
        ([commit].as_slice(), [out(1)].as_slice()),
        ([start, start, end].as_slice(), [out(2)].as_slice()),
        ([end].as_slice(), [out(1)].as_slice()),
        ([FLUSH].as_slice(), [out(1)].as_slice()),
        ([STORE, FLUSH, FLUSH].as_slice(), [out(3)].as_slice()),
        (
            [start, begin, ADD, ADD, commit, end].as_slice(),
            [out(4)].as_slice(),
        ),
    ] {
        let (edits, cured) = cure_of(rt.alloc(), steps)?;
        assert!(rt; edits.as_slice() == want, "{steps:?}: {edits:?}");
        assert!(rt; cured, "{steps:?}");
    }
    Ok(())
}

#[test]
fn a_change_that_spoils_another_row_is_no_cure(rt: HostRuntime) -> Result<(), Fail> {
    let alloc = rt.alloc();
    let events = events_of(alloc, &[STORE, FLUSH, FENCE, PERSIST, FLUSH])?;
    let verdict = verdict_of(alloc, &events, Profile::One)?;
    let spoils = [Edit::LeaveOut { place: 2 }];
    assert!(rt; try_edits(alloc, &verdict, &spoils)?.is_none());
    let falls = [Edit::LeaveOut { place: 5 }, put(1, FENCE)?];
    assert!(rt; try_edits(alloc, &verdict, &falls)?.is_none());
    let cures = [Edit::LeaveOut { place: 5 }];
    let warned = verdict.rows().len() - 1;
    assert!(rt; is_cured_by(alloc, &verdict, warned, &cures)?);
    Ok(())
}

#[test]
fn an_assertion_is_cured_where_it_still_stands_and_passes(rt: HostRuntime) -> Result<(), Fail> {
    let alloc = rt.alloc();
    let bytes = Span::make(0x1000, 8)?;
    let scope = [
        Step::CheckStart,
        Step::TxBegin,
        ADD,
        STORE,
        Step::TxEnd,
        Step::CheckEnd,
    ];
    for (steps, edits, want) in [
        (
            [STORE, PERSIST].as_slice(),
            [put(2, FLUSH)?, put(2, FENCE)?].as_slice(),
            true,
        ),
        // The assertion is left out; its bytes are excluded; its store is left out, so that it has nothing to check.
        (&[STORE, PERSIST], &[Edit::LeaveOut { place: 2 }], false),
        (
            &[STORE, PERSIST],
            &[Edit::Put {
                before: 2,
                event: Event::Exclude(bytes),
            }],
            false,
        ),
        (&[STORE, PERSIST], &[Edit::LeaveOut { place: 1 }], false),
        (
            &[STORE, OTHER, IN_ORDER],
            &[Edit::LeaveOut { place: 3 }],
            false,
        ),
        (&scope, &[Edit::LeaveOut { place: 6 }], false),
        (&scope, &[put(5, FLUSH)?, put(5, FENCE)?], true),
        // A scope that was never opened has no end: that row is gone.
        (&[Step::CheckEnd], &[Edit::LeaveOut { place: 1 }], true),
    ] {
        let verdict = verdict_of(alloc, &events_of(alloc, steps)?, Profile::One)?;
        let last = verdict.rows().len() - 1;
        assert_eq!(rt;
            is_cured_by(alloc, &verdict, last, edits)?,
            want,
            "{steps:?} by {edits:?}"
        );
    }
    Ok(())
}

// An event of an unruly section over some cache lines.
fn event_of(numbers: &mut Numbers) -> Result<Event, SpanFault> {
    let first = 0x1000 + 8 * numbers.below(24);
    let size = 8 + 8 * numbers.below(6);
    let a = Span::make(first, size)?;
    let b = Span::make(0x1000 + 8 * numbers.below(24), 8)?;
    Ok(match numbers.below(20) {
        0..=4 => Event::Store(b),
        5..=7 => Event::Flush(a),
        8 | 9 => Event::Fence,
        10 | 11 => Event::Persist(a),
        12 | 13 => Event::Ordered(b, a),
        14 => Event::TxBegin,
        15 | 16 => Event::TxAdd(b),
        17 => Event::TxEnd,
        18 => Event::CheckStart,
        _ => Event::CheckEnd,
    })
}

#[test]
fn what_is_proposed_for_random_rows_cures_them(rt: HostRuntime) -> Result<(), Fail> {
    let alloc = rt.alloc();
    let mut numbers = Numbers::of(36);
    let (mut tried, mut cured) = (0u64, 0u64);
    for _section in 0..300 {
        let mut events = Vec::new(alloc);
        for _event in 0..4 + numbers.below(30) {
            events.push(event_of(&mut numbers)?)?;
        }
        let verdict = verdict_of(alloc, &events, Profile::One)?;
        for index in 0..verdict.rows().len() {
            let row = verdict.rows()[index];
            let kind = row.finding;
            if !matches!(
                kind,
                Finding::PersistFail { .. }
                    | Finding::OrderedFail { .. }
                    | Finding::NoBackup { .. }
                    | Finding::CheckFail { .. }
            ) {
                continue;
            }
            let mut own = propose(alloc, &verdict, &[index], None)?.own;
            let edits = own.pop().unwrap_or(Vec::new(alloc));
            if edits.is_empty() {
                continue;
            }
            tried = tried.wrapping_add(1);
            match try_edits(alloc, &verdict, &edits)? {
                Some(trial) if trial.is_cured(&row) => cured = cured.wrapping_add(1),
                _ => assert!(rt; false, "{events:?}: {row:?} by {edits:?}"),
            }
        }
    }
    assert!(rt; tried > 200 && cured == tried, "{cured} of {tried}");
    Ok(())
}

#[test]
fn all_cures_together_leave_no_row_that_has_one(rt: HostRuntime) -> Result<(), Fail> {
    let alloc = rt.alloc();
    let mut numbers = Numbers::of(37);
    for _section in 0..300 {
        let mut events = Vec::new(alloc);
        for _event in 0..4 + numbers.below(40) {
            let event = event_of(&mut numbers)?;
            if matches!(
                event,
                Event::Store(_)
                    | Event::Flush(_)
                    | Event::Fence
                    | Event::Persist(_)
                    | Event::Ordered(_, _)
            ) {
                events.push(event)?;
            }
        }
        let verdict = verdict_of(alloc, &events, Profile::One)?;
        let mut wanted = Vec::new(alloc);
        for index in 0..verdict.rows().len() {
            wanted.push(index)?;
        }
        let proposal = propose(alloc, &verdict, &wanted, None)?;
        let Some(trial) = try_edits(alloc, &verdict, &proposal.all)? else {
            assert!(rt; false, "{events:?}: {proposal:?}");
            return Ok(());
        };
        for (index, row) in verdict.rows().iter().enumerate() {
            let has_one = proposal.own.get(index).is_some_and(|own| !own.is_empty());
            if matches!(outcome_of(row.finding), Outcome::Fail) && has_one {
                assert!(rt; trial.is_cured(row), "{events:?}: {row:?} by {proposal:?}");
            }
        }
    }
    Ok(())
}
