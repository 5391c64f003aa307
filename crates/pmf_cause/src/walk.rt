//! The cause of each row of a verdict, by one walk over the section's events from the last to the first, and one onward.

ghost use Rattle.std.specs.Prelude.{◌≡◌, ◌≤◌, map, length, IfOk};
ghost use Rattle.pmf_event.specs.declared.section.TheConstants.{EVENT_LIMIT};
ghost use Rattle.pmf_cause.specs.{Cause.{cause_of}, Later.{AreInOrder}};
ghost use Rattle.pmf_verdict.specs.Checked.{rows_in};

use crate::cause::Cause;
use crate::later::{fences_for, written_back_behind};
use crate::past::Past;
use crate::watch::Watch;
use pmf_event::{Events, Row};
use pmf_verdict::Verdict;
use std::alloc::{AllocError, Global};

/// The cause of each row, in the order of the rows; None for one that counts as pass or empty.
///
/// Walks up to the last row that has a cause, and keeps runs of bytes of the lines alone that these rows ask of. Takes time in
/// proportion to the events and the rows, but for a factor of the logarithm of those runs, and memory for them and for a place of each
/// event and of each row.
pub fn causes(alloc: Global, verdict: &Verdict) -> Result<Vec<Option<Cause>>, AllocError>
    ensures { IfOk result (λ causes. causes.items ≡ map (cause_of verdict.now.section.events) (rows_in verdict.now)) }
{
    causes_of(alloc, verdict.section().events(), verdict.rows())
}

// The cause of each of the rows.
fn causes_of(alloc: Global, events: &Events, rows: &[Row]) -> Result<Vec<Option<Cause>>, AllocError>
    requires few { length events.now ≤ EVENT_LIMIT }
    requires order { AreInOrder rows.now (length events.now) }
    ensures { IfOk result (λ causes. causes.items ≡ map (cause_of events.now) rows.now) }
{
    let watch = Watch::of(alloc, rows)?;
    let fences = fences_for(alloc, events, rows)?;
    let behind = written_back_behind(alloc, &watch, events, rows)?;
    let mut past = Past::new(alloc, watch);
    let mut causes = Vec::with_capacity(alloc, rows.len())?;
    for (index, row) in rows.iter().enumerate() {
        let written_back = behind[rows.len() - 1 - index];
        causes.push(past.cause_of(events, row, written_back, &fences)?)?;
    }
    Ok(causes)
}
