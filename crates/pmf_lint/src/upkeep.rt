//! How the stores of a section are made durable, in numbers.

ghost use Rattle.std.specs.Prelude.{◌≡◌, ◌≤◌, ◌<◌, ◌^◌, ◌-◌, ℕ, suc, List, [], Some, length, IfOk, OnOk};
ghost use Rattle.pmf_event.specs.{declared.event.Event.{Event}, declared.section.TheConstants.{EVENT_LIMIT}, Store.{event_at, is_fence}};
ghost use Rattle.pmf_shadow.specs.Shadow.{ForEachList};
ghost use Rattle.pmf_lint.specs.{Upkeep.{HasWalkedOver, flushed_after, IsUpkeepWithin, overwrites, upkeep_of}, Leaving.{AreLeft}, Summing.{kept_both, upkeeps_of}};

use crate::covering::{both, one_if};
use crate::leaving::{Left, are_narrow};
use crate::misread::lacks_bytes;
use pmf_event::{Event, Events};
use pmf_shadow::Shadow;
use std::alloc::{AllocError, Global};

/// How the stores of sections are made durable, in numbers. A byte that is excluded is not looked at.
#[derive(Clone, Copy, Debug, PartialEq, Eq)]
pub struct Upkeep {
    /// Stores with a byte that is not durable at the end of their section, since no write-back follows.
    pub unwritten: u128,
    /// Others with a byte that is not durable there: a write-back follows, and no fence behind it.
    pub unfenced: u128,
    /// Stores over a byte that was not durable yet.
    pub overwriting: u128,
    /// Fences.
    pub fences: u128,
    /// Those of them with no write-back between the fence before, or the begin of the section, and them.
    pub idle: u128,
}

impl Upkeep {
    /// Of no section.
    #[tactic(auto, unfolding(crate::specs::Summing::upkeeps_of))]
    pub(crate) fn none() -> Upkeep
        ensures { result ≡ upkeeps_of [] }
    {
        Upkeep {
            unwritten: 0,
            unfenced: 0,
            overwriting: 0,
            fences: 0,
            idle: 0,
        }
    }

    /// The numbers of both.
    pub(crate) fn and(self, more: Upkeep) -> Upkeep
        requires { IsUpkeepWithin (2 ^ 128 - 1) (kept_both self more) }
        ensures { result ≡ kept_both self more }
    {
        Upkeep {
            unwritten: self.unwritten + more.unwritten,
            unfenced: self.unfenced + more.unfenced,
            overwriting: self.overwriting + more.overwriting,
            fences: self.fences + more.fences,
            idle: self.idle + more.idle,
        }
    }
}

/// What a walk over a section and a look at its end come to, no sum above 2^64.
#[tactic(auto, unfolding(crate::specs::Upkeep::upkeep_of))]
pub(crate) fn upkeep_of(walk: &Walk, left: &Left) -> Upkeep
    ensures value { (es : List Event) → HasWalkedOver walk.now es (length es) → AreLeft es left.now → result ≡ upkeep_of es }
    ensures small { IsUpkeepWithin (2 ^ 64) result }
{
    let (unwritten, unfenced) = left.counts();
    Upkeep {
        unwritten: u128::from(unwritten),
        unfenced: u128::from(unfenced),
        overwriting: u128::from(walk.overwriting),
        fences: u128::from(walk.fences),
        idle: u128::from(walk.idle),
    }
}

/// The events of a section as far as a walk has passed them.
#[derive(Debug, Drop)]
pub(crate) struct Walk {
    pub(crate) shadow: Shadow,
    /// Whether a write-back stands behind the last fence.
    pub(crate) flushed: bool,
    pub(crate) fences: u64,
    pub(crate) idle: u64,
    pub(crate) overwriting: u64,
    /// Assertions that are EMPTY.
    pub(crate) empty: u64,
}

impl Walk {
    /// Over all of the events. Takes memory for their shadow.
    pub(crate) fn over(alloc: Global, events: &Events) -> Result<Walk, AllocError>
        requires { length events.now ≤ EVENT_LIMIT }
        ensures { IfOk result (λ walk. HasWalkedOver walk events.now (length events.now)) }
    {
        let mut walk = Walk::new(alloc, events);
        let mut place: u32 = 0;
        for index in 0..events.len() {
            let event = events.at(index);
            place += 1;
            walk.settle_for(&event)?;
            walk.follow(place, &event)?;
        }
        walk.settle(events)?;
        Ok(walk)
    }

    #[tactic(auto, using(crate::proofs::UpkeepLemmas::walked_none))]
    fn new(alloc: Global, events: &Events) -> Walk
        ensures { (es : List Event) → HasWalkedOver result es 0 }
    {
        Walk {
            shadow: Shadow::for_walk(alloc, events),
            flushed: false,
            fences: 0,
            idle: 0,
            overwriting: 0,
            empty: 0,
        }
    }

    /// Makes the shadow ready for what is asked at the event. The walk stands where it stood.
    fn settle_for(&mut self, event: &Event) -> Result<(), AllocError>
        ensures { OnOk result ((es : List Event) (p : ℕ) → HasWalkedOver self.old es p → HasWalkedOver self.new es p) }
    {
        self.shadow.settle_for(event)?;
        Ok(())
    }

    /// Makes the shadow ready for what is asked at the end of wide spans. The walk stands where it stood.
    fn settle(&mut self, events: &Events) -> Result<(), AllocError>
        ensures { OnOk result ((es : List Event) (p : ℕ) → HasWalkedOver self.old es p → HasWalkedOver self.new es p) }
    {
        if are_narrow(events) {
            return Ok(());
        }
        self.shadow.settle()?;
        Ok(())
    }

    /// Passes the event at the place.
    fn follow(&mut self, place: u32, event: &Event) -> Result<(), AllocError>
        requires { (es : List Event) × (p : ℕ) × HasWalkedOver self.old es p × (p < EVENT_LIMIT) }
        ensures { (es : List Event) (p : ℕ) → HasWalkedOver self.old es p → event_at es (suc p) ≡ Some event.now
            → suc p ≡ place → OnOk result (HasWalkedOver self.new es (suc p)) }
    {
        let unmet = lacks_bytes(&self.shadow, event);
        let overwrites = overwrites(&self.shadow, event);
        let fence = is_fence(event);
        self.empty += one_if(unmet);
        self.overwriting += one_if(overwrites);
        self.fences += one_if(fence);
        self.idle += one_if(both(fence, !self.flushed));
        self.flushed = flushed_after(self.flushed, event);
        self.shadow.follow(place, *event)?;
        Ok(())
    }
}

// Whether a write-back stands behind the last fence, once the event has happened.
#[tactic(auto, unfolding(crate::specs::Upkeep::is_flush, pmf_event::specs::Store::is_fence))]
fn flushed_after(flushed: bool, event: &Event) -> bool
    ensures { result ≡ flushed_after flushed event.now }
{
    match event {
        Event::Fence => false,
        Event::Flush(_) => true,
        _ => flushed,
    }
}

// Whether the event, behind those that the shadow stands for, is a store over a byte that is not durable.
fn overwrites(shadow: &Shadow, event: &Event) -> bool
    ensures { ForEachList shadow.now (λ told es p. result ≡ overwrites es p (Some event.now)) }
{
    match event {
        Event::Store(span) => shadow.least_open(*span).is_some(),
        _ => false,
    }
}

#[tactic(auto, unfolding(pmf_event::specs::Store::is_fence))]
fn is_fence(event: &Event) -> bool
    ensures { result ≡ is_fence event.now }
{
    matches!(event, Event::Fence)
}
