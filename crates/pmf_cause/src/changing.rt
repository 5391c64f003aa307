//! A section with changes made.

ghost use Rattle.std.specs.Prelude.{◌≡◌, ◌≤◌, suc, [], ◌∷◌, length, IfOk, OnOk, MatchOption};
ghost use Rattle.pmf_event.specs.declared.section.TheConstants.{EVENT_LIMIT};
ghost use Rattle.pmf_cause.specs.{Changed.{changed, old_places, place_of, RisesFrom}, Changing.{Grows, Puts}};

use crate::edit::Edit;
use pmf_event::{Event, Events, Name, Section, SectionFault};
use std::alloc::Global;

/// A section as it is with changes, and for each of its events, and its end, the place that it had.
#[derive(Debug, Drop)]
pub(crate) struct Changed {
    pub(crate) section: Section,
    pub(crate) places: Vec<u32>,
}

impl Changed {
    fn push(&mut self, event: Event, place: u32) -> Result<(), SectionFault>
        ensures { OnOk result (Grows self.old self.new (event ∷ []) (place ∷ [])) }
    {
        self.section.push(event)?;
        self.places.push(place)?;
        Ok(())
    }
}

/// The section with the changes, whose places rise. The refusals are those of [`Section::push`].
#[tactic(auto, using(crate::proofs::ChangedLemmas::changing_begun, crate::proofs::ChangedLemmas::changing_kept, crate::proofs::ChangedLemmas::changing_left, crate::proofs::ChangedLemmas::changing_done))]
pub(crate) fn change(
    alloc: Global,
    name: Name,
    events: &Events,
    edits: &[Edit],
) -> Result<Changed, SectionFault>
    requires rises { RisesFrom 1 edits.now }
    requires few { length events.now ≤ EVENT_LIMIT }
    ensures section { IfOk result (λ made. made.section ≡ record { name = name; events = changed edits.now events.now }) }
    ensures places { IfOk result (λ made. made.places.items ≡ old_places edits.now events.now) }
{
    let mut made = Changed {
        section: Section::new(alloc, name),
        places: Vec::new(alloc),
    };
    let mut rest = edits;
    let mut place: u32 = 1;
    for index in 0..events.len() {
        let event = events.at(index);
        let here = put_here(&mut made, rest, place)?;
        if !here.left_out {
            made.push(event, place)?;
        }
        rest = here.rest;
        place += 1;
    }
    put_here(&mut made, rest, place)?;
    made.places.push(place)?;
    Ok(made)
}

// What the changes did at a place.
#[derive(Clone, Copy)]
struct Here<'a> {
    left_out: bool,
    rest: &'a [Edit],
}

// Makes the changes that name the place, and hands back those behind them.
#[tactic(auto, using(crate::proofs::ChangedLemmas::putting_begun, crate::proofs::ChangedLemmas::putting_put, crate::proofs::ChangedLemmas::putting_left, crate::proofs::ChangedLemmas::putting_done))]
fn put_here<'a>(made: &mut Changed, edits: &'a [Edit], place: u32) -> Result<Here<'a>, SectionFault>
    requires rises { RisesFrom place edits.now }
    ensures { IfOk result (λ here. Puts place made.old made.new edits.now here.rest.now here.left_out) }
{
    let mut left_out = false;
    let mut rest = edits;
    while let Some((edit, more)) = next_at(rest, place) {
        match edit {
            Edit::Put { event, .. } => made.push(*event, 0)?,
            Edit::LeaveOut { .. } => left_out = true,
        }
        rest = more;
    }
    Ok(Here { left_out, rest })
}

// The first change and those behind it, where it names the place.
#[tactic(auto, using(crate::proofs::ChangedLemmas::rises_behind, crate::proofs::ChangedLemmas::rises_none))]
fn next_at(edits: &[Edit], place: u32) -> Option<(&Edit, &[Edit])>
    ensures { MatchOption result (RisesFrom place edits.now → RisesFrom (suc place) edits.now)
        (λ found. (edits.now ≡ found.0.now ∷ found.1.now) × (place_of found.0.now ≡ place)) }
{
    if let Some((edit, more)) = edits.split_first() {
        if edit.place() != place {
            return None;
        }
        return Some((edit, more));
    }
    None
}
