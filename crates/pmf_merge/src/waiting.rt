//! The names of the sections that wait, in their order, each with the index of its text.

ghost use Rattle.std.specs.Prelude.{◌≡◌, ◌<◌, [], ℕ, List, Option, None, MatchOption, OnOk, length, slice_index_or};
ghost use Rattle.pmf_event.specs.declared.name.Name.{Name};
ghost use Rattle.pmf_merge.specs.Waiting.{IsLeastName, IsWaiting, PutsAt};

use pmf_event::Name;
use std::alloc::{AllocError, Global};
use std::collections::BTreeSet;

/// Where a section waits: its name, and the index of its text.
#[derive(Clone, Copy, PartialEq, Eq, PartialOrd, Ord, Drop)]
pub(crate) struct Place {
    name: Name,
    index: usize,
}

/// The places of the sections that wait.
#[derive(Drop)]
pub(crate) struct Waiting {
    places: BTreeSet<Place>,
}

impl Waiting {
    /// None waits. Takes no memory.
    pub(crate) fn new(alloc: Global) -> Waiting
        ensures { IsWaiting [] result }
    {
        Waiting {
            places: BTreeSet::new(alloc),
        }
    }

    /// The index of the least section that waits, if any does.
    pub(crate) fn first(&self) -> Option<usize>
        ensures { (names : List (Option Name)) → IsWaiting names self.now
            → MatchOption result ((i : ℕ) → slice_index_or names i None ≡ None) (λ least. (least < length names) × (name : Name) × IsLeastName names least name) }
    {
        match self.places.first() {
            Some(place) => Some(place.index),
            None => None,
        }
    }

    /// At this index another name waits now, or none.
    pub(crate) fn replace(
        &mut self,
        name: Option<Name>,
        new: Option<Name>,
        index: usize,
    ) -> Result<(), AllocError>
        ensures { (names after : List (Option Name)) → IsWaiting names self.old → slice_index_or names index None ≡ name → PutsAt names index new after
            → OnOk result (IsWaiting after self.new) }
    {
        self.remove(name, index);
        self.put(new, index)
    }

    // The name of this index waits no more.
    fn remove(&mut self, name: Option<Name>, index: usize)
        ensures { (names after : List (Option Name)) → IsWaiting names self.old → slice_index_or names index None ≡ name → PutsAt names index None after
            → IsWaiting after self.new }
    {
        if let Some(name) = name {
            self.places.remove(&Place { name, index });
        }
    }

    /// At this index, where none waited, this name waits, if there is one.
    pub(crate) fn put(&mut self, name: Option<Name>, index: usize) -> Result<(), AllocError>
        ensures { (names after : List (Option Name)) → IsWaiting names self.old → slice_index_or names index None ≡ None → PutsAt names index name after
            → OnOk result (IsWaiting after self.new) }
    {
        if let Some(name) = name {
            match self.places.insert(Place { name, index }) {
                Ok(_) => {}
                Err(_) => return Err(AllocError),
            }
        }
        Ok(())
    }
}
