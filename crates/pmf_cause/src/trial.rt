//! A section checked once more with changes made.

ghost use Rattle.std.specs.{Prelude.{◌≡◌, ◌||◌, ◌&&◌, ◌==◌, ℕ, true, List, IfOk, IfSome, OnOk}, List.{list_any}};
ghost use Rattle.pmf_runs.specs.Runs.{state_at};
ghost use Rattle.pmf_verdict.specs.{Checked.{Checked, rows_in}, Outcome.{is_same, outcome_of}, declared.outcome.Outcome.TheVariants.{Pass}};
ghost use Rattle.pmf_cause.specs.{Changed.{old_place, RisesFrom}, Cure.{bad_at, cured, Cures, excludes, excludes_anew, fails, fails_at, is_bad, is_new, passes_at, IsFailing, IsTrial}, declared.edit.Edit.{Edit}};
ghost use Rattle.pmf_event.specs.declared.row.Row.{Row};

use crate::changing::{Changed, change};
use crate::edit::Edit;
use crate::later::asks_byte;
use pmf_event::{Event, Events, Row, SectionFault};
use pmf_runs::{PutIn, RunMap};
use pmf_verdict::{Outcome, Verdict, check, outcome_of};
use std::alloc::{AllocError, Global};
use std::sync::Arc;

/// A section that was checked with changes made, by which nothing fails that didn't.
#[derive(Debug, Drop)]
pub struct Trial {
    pub(crate) verdict: Verdict,
    /// The places that had what counts as fail or as a warning.
    pub(crate) bad: RunMap<bool>,
    /// Those at which a row failed, and that had what passes.
    pub(crate) good: RunMap<bool>,
    /// Whether nothing is excluded or included anew.
    pub(crate) checks_alike: bool,
}

impl Trial {
    /// Whether the row is cured: of what stood at its place no row is left that counts as fail or as a warning, and an assertion whose
    /// bytes were not durable still stands, checks the same bytes, and passes.
    pub fn is_cured(&self, row: &Row) -> bool
        ensures { (checked : Checked) (edits : List Edit) → IsTrial checked edits self.now → result ≡ true → Cures checked edits row.now }
    {
        let place = u64::from(row.place);
        if self.bad.at(place) {
            return false;
        }
        !asks_byte(row.finding) || (self.checks_alike && self.good.at(place))
    }

    /// The verdict of the section with the changes.
    pub fn verdict(&self) -> &Verdict
        ensures { (checked : Checked) (edits : List Edit) → IsTrial checked edits self.now → result.now ≡ cured checked edits }
    {
        &self.verdict
    }
}

/// Checks the section of the verdict with the changes, whose places rise. None where something fails then that didn't before, or the
/// section gets longer than a section may be, or the places don't rise.
///
/// Takes memory for the events and the rows, and what [`check`] takes.
pub fn try_edits(
    alloc: Global,
    verdict: &Verdict,
    edits: &[Edit],
) -> Result<Option<Trial>, AllocError>
    ensures { IfOk result (λ tried. IfSome tried (IsTrial verdict.now edits.now)) }
{
    if !rises(edits) {
        return Ok(None);
    }
    let section = verdict.section();
    let Changed { section, places } = match change(alloc, section.name(), section.events(), edits) {
        Ok(made) => made,
        Err(SectionFault::TooManyEvents) => return Ok(None),
        Err(SectionFault::OutOfMemory) => return Err(AllocError),
    };
    let section = Arc::new(alloc, section)?;
    let checked = match check(alloc, section, verdict.profile()) {
        Ok(checked) => checked,
        Err(_) => return Err(AllocError),
    };
    let failed = failing_places(alloc, verdict.rows())?;
    if has_new(checked.rows(), &places, &failed) {
        return Ok(None);
    }
    let bad = bad_places(alloc, checked.rows(), &places)?;
    let good = good_places(alloc, checked.rows(), &places, &failed)?;
    let checks_alike = !exclude_anew(verdict.section().events(), edits);
    Ok(Some(Trial {
        verdict: checked,
        bad,
        good,
        checks_alike,
    }))
}

// Whether the places that the changes name rise, or stay.
fn rises(edits: &[Edit]) -> bool
    ensures { result ≡ true → RisesFrom 1 edits.now }
{
    let mut least = 1;
    for edit in edits {
        if edit.place() < least {
            return false;
        }
        least = edit.place();
    }
    true
}

#[tactic(auto, unfolding(pmf_verdict::specs::Outcome::is_same))]
fn fails(row: &Row) -> bool
    ensures { result ≡ fails row.now }
{
    matches!(outcome_of(row.finding), Outcome::Fail)
}

#[tactic(auto, unfolding(pmf_verdict::specs::Outcome::is_same))]
fn is_bad(row: &Row) -> bool
    ensures { result ≡ is_bad row.now }
{
    matches!(outcome_of(row.finding), Outcome::Fail | Outcome::Warn)
}

// The place that had what stands at this place of the changed section.
fn old_place(places: &[u32], place: u32) -> u32
    ensures { result ≡ old_place places.now place }
{
    let index = place.saturating_sub(1) as usize;
    match places.get(index) {
        Some(place) => *place,
        None => 0,
    }
}

// The places at which a row fails.
fn failing_places(alloc: Global, rows: &[Row]) -> Result<RunMap<bool>, AllocError>
    ensures { IfOk result (IsFailing rows.now) }
{
    let mut set = RunMap::new(alloc, false);
    for row in rows {
        put_if(&mut set, row.place, fails(row))?;
    }
    Ok(set)
}

// Puts the place into the set, if so.
#[tactic(auto, using(crate::proofs::TrialLemmas::put_there))]
fn put_if(set: &mut RunMap<bool>, place: u32, so: bool) -> Result<(), AllocError>
    ensures { OnOk result ((p : ℕ) → state_at set.new p ≡ (state_at set.old p || (so && (place == p)))) }
{
    if so {
        let place = u64::from(place);
        set.change(place, place + 1, &PutIn)?;
    }
    Ok(())
}

// Whether a row of the changed section fails where none did.
fn has_new(rows: &[Row], places: &[u32], failed: &RunMap<bool>) -> bool
    ensures { (before : List Row) → IsFailing before failed.now → result ≡ list_any (is_new places.now before) rows.now }
{
    for row in rows {
        if is_new(row, places, failed) {
            return true;
        }
    }
    false
}

#[tactic(auto, unfolding(crate::specs::Cure::is_new))]
fn is_new(row: &Row, places: &[u32], failed: &RunMap<bool>) -> bool
    ensures { (before : List Row) → IsFailing before failed.now → result ≡ is_new places.now before row.now }
{
    fails(row) && !failed.at(u64::from(old_place(places, row.place)))
}

// The places that had what is bad in the changed section.
fn bad_places(alloc: Global, rows: &[Row], places: &[u32]) -> Result<RunMap<bool>, AllocError>
    ensures { IfOk result (λ set. (p : ℕ) → state_at set p ≡ list_any (bad_at places.now p) rows.now) }
{
    let mut set = RunMap::new(alloc, false);
    for row in rows {
        put_if(&mut set, old_place(places, row.place), is_bad(row))?;
    }
    Ok(set)
}

// Those of the failed places that had what passes in the changed section.
fn good_places(
    alloc: Global,
    rows: &[Row],
    places: &[u32],
    failed: &RunMap<bool>,
) -> Result<RunMap<bool>, AllocError>
    ensures { IfOk result (λ set. (p : ℕ) → state_at set p ≡ true → list_any (passes_at places.now p) rows.now ≡ true) }
{
    let mut set = RunMap::new(alloc, false);
    for row in rows {
        let place = old_place(places, row.place);
        put_if(
            &mut set,
            place,
            passes_again(row, failed.at(u64::from(place))),
        )?;
    }
    Ok(set)
}

#[tactic(auto, unfolding(pmf_verdict::specs::Outcome::is_same))]
fn passes_again(row: &Row, has_failed: bool) -> bool
    ensures { result ≡ (is_same Pass (outcome_of row.now.finding) && has_failed) }
{
    matches!(outcome_of(row.finding), Outcome::Pass) && has_failed
}

// Whether a change of the events excludes bytes from what is checked, or includes some anew.
fn exclude_anew(events: &Events, edits: &[Edit]) -> bool
    ensures { result ≡ list_any (excludes_anew events.now) edits.now }
{
    for edit in edits {
        if excludes_anew(events, edit) {
            return true;
        }
    }
    false
}

#[tactic(auto, unfolding(crate::specs::Cure::excludes_anew, pmf_event::specs::Store::at, pmf_event::specs::Store::event_at))]
fn excludes_anew(events: &Events, edit: &Edit) -> bool
    ensures { result ≡ excludes_anew events.now edit.now }
{
    match edit {
        Edit::Put { event, .. } => excludes(event),
        Edit::LeaveOut { place } => {
            let Some(index) = place.checked_sub(1) else {
                return false;
            };
            match events.get(index as usize) {
                Some(event) => excludes(&event),
                None => false,
            }
        }
    }
}

#[tactic(auto, unfolding(crate::specs::Cure::excludes))]
fn excludes(event: &Event) -> bool
    ensures { result ≡ excludes event.now }
{
    matches!(event, Event::Exclude(_) | Event::Include(_))
}
