//! What the sections of a log hold, in numbers.

ghost use Rattle.std.specs.Prelude.{◌≡◌, ◌-◌, ◌<◌, ◌^◌, [], ◌∷◌, map, count_by, IfOk};
ghost use Rattle.pmf_lint.specs.Summing.{IsWithin, asserts, both, is_store, sums_of};

use crate::covering::{count_marked, one_if};
use crate::looking::Looked;
use crate::upkeep::{Upkeep, Walk, upkeep_of};
use pmf_event::{Event, Events, Section};
use std::alloc::{AllocError, Global};
use std::sync::Arc;

/// What sections hold, in numbers.
#[derive(Clone, Copy, Debug, PartialEq, Eq)]
pub struct Sums {
    /// Events.
    pub events: u128,
    /// Those of them that assert something: `PMT.PERSIST`, `PMT.ORDERED` and `PMT.CHECKEND`.
    pub assertions: u128,
    /// Rows of assertions that had nothing to check.
    pub empty: u128,
    /// Events that are stores.
    pub stores: u128,
    /// Those of them that no later assertion covers: none names one of their bytes, and no `PMT.CHECKEND` closes a scope in
    /// which they stand inside a transaction.
    pub unasserted: u128,
    /// How the stores are made durable.
    pub upkeep: Upkeep,
}

impl Sums {
    #[tactic(auto, unfolding(crate::specs::Summing::sums_of))]
    fn none() -> Sums
        ensures { result ≡ sums_of [] }
    {
        Sums {
            events: 0,
            assertions: 0,
            empty: 0,
            stores: 0,
            unasserted: 0,
            upkeep: Upkeep::none(),
        }
    }

    // Of the section alone, and which of its stores lack something.
    #[tactic(auto, using(crate::proofs::TallySumLemmas::sums_one))]
    fn of(alloc: Global, section: &Arc<Section>) -> Result<(Sums, Looked), AllocError>
        ensures value { IfOk result (λ found. found.0 ≡ sums_of (section.now.value ∷ [])) }
        ensures small { IfOk result (λ found. IsWithin (2 ^ 64) found.0) }
        ensures looked { IfOk result (λ found. found.1.section.value ≡ section.now.value) }
    {
        let events = section.events();
        let walk = Walk::over(alloc, events)?;
        let looked = Looked::of(alloc, section, &walk)?;
        let sums = Sums {
            events: events.len() as u128,
            assertions: u128::from(count_assertions(events)),
            empty: u128::from(walk.empty),
            stores: u128::from(count_stores(events)),
            unasserted: u128::from(count_marked(&looked.uncovered)),
            upkeep: upkeep_of(&walk, &looked.left),
        };
        Ok((sums, looked))
    }

    fn add(&mut self, more: Sums)
        requires { IsWithin (2 ^ 128 - 1) (both self.old more) }
        ensures { self.new ≡ both self.old more }
    {
        self.events += more.events;
        self.assertions += more.assertions;
        self.empty += more.empty;
        self.stores += more.stores;
        self.unasserted += more.unasserted;
        self.upkeep = self.upkeep.and(more.upkeep);
    }
}

/// What the sections hold, and of each which of its stores lack something. Takes memory for the shadow of one section at a time, and a few
/// bytes for each event.
pub(crate) fn look_through(
    alloc: Global,
    sections: &[Arc<Section>],
) -> Result<(Sums, Vec<Looked>), AllocError>
    ensures sums { IfOk result (λ found. found.0 ≡ sums_of (map (λ s. s.value) sections.now)) }
    ensures looked { IfOk result (λ found. map (λ l. l.section.value) found.1.items ≡ map (λ s. s.value) sections.now) }
{
    let mut sums = Sums::none();
    let mut all = Vec::new(alloc);
    for section in sections {
        let (more, looked) = Sums::of(alloc, section)?;
        sums.add(more);
        all.push(looked)?;
    }
    Ok((sums, all))
}

pub(crate) fn count_assertions(events: &Events) -> u64
    ensures { result ≡ count_by (λ e. asserts e) events.now }
{
    let mut count: u64 = 0;
    for index in 0..events.len() {
        count += one_if(asserts(&events.at(index)));
    }
    count
}

fn count_stores(events: &Events) -> u64
    ensures { result ≡ count_by (λ e. is_store e) events.now }
{
    let mut count: u64 = 0;
    for index in 0..events.len() {
        count += one_if(is_store(&events.at(index)));
    }
    count
}

#[tactic(auto, unfolding(crate::specs::Summing::asserts))]
pub(crate) fn asserts(event: &Event) -> bool
    ensures { result ≡ asserts event.now }
{
    matches!(
        event,
        Event::Persist(_) | Event::Ordered(_, _) | Event::CheckEnd
    )
}

#[tactic(auto, unfolding(crate::specs::Summing::is_store))]
fn is_store(event: &Event) -> bool
    ensures { result ≡ is_store event.now }
{
    matches!(event, Event::Store(_))
}
