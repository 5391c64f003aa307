//! Walks that keep the last place of some kind.

ghost use Rattle.std.specs.Prelude.{◌≡◌, ℕ, List};
ghost use Rattle.pmf_event.specs.{declared.event.Event.{Event}, Store.{is_fence, last_store}};
ghost use Rattle.pmf_runs.specs.Runs.{state_at};
ghost use Rattle.pmf_images.specs.Walks.{last_fence, last_flush};

use crate::telling::Walk;
use pmf_event::Event;
use pmf_places::{NO_PLACE, Place, place_if, store, write_back};
use pmf_runs::RunMap;
use std::alloc::{AllocError, Global};

/// The last fence, whatever the byte.
#[derive(Drop)]
pub(crate) struct Fences {
    last: u32,
}

impl Fences {
    /// Of no event.
    pub(crate) fn new() -> Fences
        ensures { (es : List Event) → result.last ≡ last_fence es 0 0 }
    {
        Fences { last: 0 }
    }
}

impl Walk for Fences {
    ghost IsSound = { λ _. Unit {0} };

    ghost Knows = { λ _ _. Unit {0} };

    ghost Keeps = { λ fences es p. fences.last ≡ last_fence es p 0 };

    ghost told = { last_fence };

    fn follow(&mut self, place: u32, event: &Event) -> Result<(), AllocError> {
        self.last = place_if(is_fence(event), place, self.last);
        Ok(())
    }

    fn tell(&self, _byte: u64) -> u32 {
        self.last
    }
}

/// The last write-back of each byte's line.
#[derive(Drop)]
pub(crate) struct Flushes {
    places: RunMap<Place>,
}

impl Flushes {
    /// Of no event. Takes no memory.
    pub(crate) fn new(alloc: Global) -> Flushes
        ensures { (es : List Event) (b : ℕ) → (state_at result.places b).of ≡ last_flush es 0 b }
    {
        Flushes {
            places: RunMap::new(alloc, NO_PLACE),
        }
    }
}

impl Walk for Flushes {
    ghost IsSound = { λ _. Unit {0} };

    ghost Knows = { λ _ _. Unit {0} };

    ghost Keeps = { λ flushes es p. (b : ℕ) → (state_at flushes.places b).of ≡ last_flush es p b };

    ghost told = { last_flush };

    fn follow(&mut self, place: u32, event: &Event) -> Result<(), AllocError> {
        write_back(&mut self.places, place, event)?;
        Ok(())
    }

    fn tell(&self, byte: u64) -> u32 {
        self.places.at(byte).of
    }
}

/// The last store of each byte.
#[derive(Drop)]
pub(crate) struct Stores {
    places: RunMap<Place>,
}

impl Stores {
    /// Of no event. Takes no memory.
    pub(crate) fn new(alloc: Global) -> Stores
        ensures { (es : List Event) (b : ℕ) → (state_at result.places b).of ≡ last_store es 0 b }
    {
        Stores {
            places: RunMap::new(alloc, NO_PLACE),
        }
    }
}

impl Walk for Stores {
    ghost IsSound = { λ _. Unit {0} };

    ghost Knows = { λ _ _. Unit {0} };

    ghost Keeps = { λ stores es p. (b : ℕ) → (state_at stores.places b).of ≡ last_store es p b };

    ghost told = { last_store };

    fn follow(&mut self, place: u32, event: &Event) -> Result<(), AllocError> {
        store(&mut self.places, place, event)?;
        Ok(())
    }

    fn tell(&self, byte: u64) -> u32 {
        self.places.at(byte).of
    }
}

// Whether the event is a fence.
#[tactic(auto, unfolding(pmf_event::specs::Store::is_fence))]
fn is_fence(event: &Event) -> bool
    ensures { result ≡ is_fence event.now }
{
    matches!(event, Event::Fence)
}
