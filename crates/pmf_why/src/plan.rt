//! The changes that cure all rows of a section, as far as a check of the section with them has confirmed.

ghost use Rattle.std.specs.Prelude.{◌≡◌, count_by, IfOk, IfSome};
ghost use Rattle.pmf_cause.specs.Cure.{fails};
ghost use Rattle.pmf_why.specs.{Counting.{counts_in}, Reasons.{passes}};

use pmf_cause::{Edit, Trial, propose, try_edits};
use pmf_event::Row;
use pmf_verdict::{Outcome, Verdict, outcome_of};
use std::alloc::{AllocError, Global};

/// The most events that are checked in search of changes that go together, and how often they are at most.
const BUDGET: usize = 1_048_576;

const MOST_TRIES: usize = 64;

/// How many rows of a section pass and fail with all its changes.
#[derive(Clone, Copy)]
pub(crate) struct Counts {
    pub(crate) pass: usize,
    pub(crate) fail: usize,
}

/// The changes that are to cure all rows of a section.
#[derive(Drop)]
pub(crate) struct Plan {
    /// Nothing, where they were not tried, or something fails with them that didn't.
    pub(crate) edits: Vec<Edit>,
    /// The section with them.
    pub(crate) trial: Option<Trial>,
}

impl Plan {
    ghost use Rattle.std.specs.Prelude.{◌≡◌};
    ghost use Rattle.pmf_verdict.specs.Checked.{Checked};
    ghost use Rattle.pmf_why.specs.{Plans.{IsPlan, counts_with}};

    /// Tries the changes for all rows together; where something fails with them that didn't, those for as many rows as are found to go
    /// together.
    pub(crate) fn of(alloc: Global, verdict: &Verdict, all: Vec<Edit>) -> Result<Plan, AllocError>
        ensures { IfOk result (IsPlan verdict.now) }
    {
        match Plan::tried(alloc, verdict, all)? {
            Some(plan) => Ok(plan),
            None => Plan::of_some(alloc, verdict),
        }
    }

    // The changes, if there are any, where nothing fails with them that didn't.
    fn tried(alloc: Global, verdict: &Verdict, edits: Vec<Edit>) -> Result<Option<Plan>, AllocError>
        ensures { IfOk result (λ found. IfSome found (IsPlan verdict.now)) }
    {
        if edits.is_empty() {
            return Ok(Some(Plan::none(alloc)));
        }
        match try_edits(alloc, verdict, &edits)? {
            Some(trial) => Ok(Some(Plan {
                edits,
                trial: Some(trial),
            })),
            None => Ok(None),
        }
    }

    // The changes for some of the rows: for a half of them and then for the other half, each with those that were taken before, and for
    // the halves of a half that does not go with these, down to one row.
    fn of_some(alloc: Global, verdict: &Verdict) -> Result<Plan, AllocError>
        ensures { IfOk result (IsPlan verdict.now) }
    {
        let count = verdict.rows().len();
        let mut plan = Plan::none(alloc);
        let mut picked = vec![in alloc; false; count]?;
        let mut halves = Vec::new(alloc);
        push_halves(
            &mut halves,
            Half {
                start: 0,
                end: count,
            },
        )?;
        for _ in 0..tries_of(verdict.section().events().len()) {
            let Some(half) = halves.pop() else {
                break;
            };
            pick(&mut picked, half, true);
            let edits = propose(alloc, verdict, &[], Some(&picked))?.all;
            match Plan::tried(alloc, verdict, edits)? {
                Some(next) => plan = next,
                None => {
                    pick(&mut picked, half, false);
                    push_halves(&mut halves, half)?;
                }
            }
        }
        Ok(plan)
    }

    fn none(alloc: Global) -> Plan
        ensures { (checked : Checked) → IsPlan checked result }
    {
        Plan {
            edits: Vec::new(alloc),
            trial: None,
        }
    }

    /// How many rows pass and fail with the changes.
    #[tactic(auto, using(crate::proofs::CuredLemmas::counts_alone))]
    pub(crate) fn counts(&self, verdict: &Verdict) -> Counts
        requires { IsPlan verdict.now self.now }
        ensures { result ≡ counts_with verdict.now self.now.edits.items }
    {
        match &self.trial {
            Some(trial) => count_rows(trial.verdict().rows()),
            None => count_rows(verdict.rows()),
        }
    }
}

// How often changes for some of the rows are tried in a section of so many events.
fn tries_of(events: usize) -> usize {
    (BUDGET / events.max(1)).clamp(1, MOST_TRIES)
}

// Some rows, from one up to an end.
#[derive(Clone, Copy)]
struct Half {
    start: usize,
    end: usize,
}

// The halves of some rows, the first one on top; none of one row.
fn push_halves(halves: &mut Vec<Half>, of: Half) -> Result<(), AllocError> {
    let Half { start, end } = of;
    let middle = start.saturating_add(end.saturating_sub(start) / 2);
    if start < middle {
        halves.push(Half { start: middle, end })?;
        halves.push(Half { start, end: middle })?;
    }
    Ok(())
}

fn pick(picked: &mut [bool], half: Half, is: bool) {
    for index in half.start..half.end.min(picked.len()) {
        picked[index] = is;
    }
}

fn count_rows(rows: &[Row]) -> Counts
    ensures { result ≡ counts_in rows.now }
{
    Counts {
        pass: count_pass(rows),
        fail: count_fail(rows),
    }
}

fn count_pass(rows: &[Row]) -> usize
    ensures { result ≡ count_by (λ row. passes row) rows.now }
{
    let mut count = 0;
    for row in rows {
        if passes(row) {
            count += 1;
        }
    }
    count
}

fn count_fail(rows: &[Row]) -> usize
    ensures { result ≡ count_by (λ row. fails row) rows.now }
{
    let mut count = 0;
    for row in rows {
        if fails(row) {
            count += 1;
        }
    }
    count
}

#[tactic(auto, unfolding(crate::specs::Reasons::passes, pmf_verdict::specs::Outcome::is_same))]
fn passes(row: &Row) -> bool
    ensures { result ≡ passes row.now }
{
    match outcome_of(row.finding) {
        Outcome::Pass => true,
        Outcome::Fail => false,
        Outcome::Warn => false,
        Outcome::Empty => false,
    }
}

#[tactic(auto, unfolding(pmf_verdict::specs::Outcome::is_same))]
fn fails(row: &Row) -> bool
    ensures { result ≡ fails row.now }
{
    match outcome_of(row.finding) {
        Outcome::Pass => false,
        Outcome::Fail => true,
        Outcome::Warn => false,
        Outcome::Empty => false,
    }
}
