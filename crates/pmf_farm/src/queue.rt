//! The order in which workers take sections.

ghost use Rattle.std.specs.Prelude.{◌≡◌, All, length, get_or, map, vec_len, IfOk, IsPermutation};
ghost use Rattle.pmf_farm.specs.Rolls.{IsQueueOf, with_places};

use crate::gate::{Gate, Turn};
use crate::slot::Slot;
use pmf_event::{Profile, Section};
use std::alloc::{AllocError, Global};
use std::cmp::Reverse;
use std::sync::Arc;

// A section with the place at which it was handed in.
#[derive(Drop)]
struct Placed {
    section: Arc<Section>,
    place: u32,
}

/// The sections in the order in which workers take them, each with the place at which it was handed in, and the profile
/// by which they are checked.
#[derive(Drop)]
pub(crate) struct Queue {
    pub(crate) sections: Vec<Arc<Section>>,
    places: Vec<u32>,
    pub(crate) profile: Profile,
}

// The sections of the roll, the longest first, so that none is left to one worker at the end.
fn longest_first(alloc: Global, roll: &[Slot]) -> Result<Vec<Placed>, AllocError>
    ensures len { IfOk result (λ placed. vec_len placed ≡ length roll.now) }
    ensures same { IfOk result (λ placed. IsPermutation (with_places roll.now)
        (map (λ p. (p.section.value, p.place)) placed.items)) }
{
    let mut placed = Vec::with_capacity(alloc, roll.len())?;
    for slot in roll {
        let section = Arc::try_clone(slot.section())?;
        placed.push(Placed {
            section,
            place: slot.place(),
        })?;
    }
    placed.sort_by_key(|p| Reverse(p.section.events().len()))?;
    Ok(placed)
}

impl Queue {
    /// The queue of the roll's sections, in which long ones come first. Takes memory for 12 bytes a section.
    pub(crate) fn new(alloc: Global, roll: &[Slot], profile: Profile) -> Result<Queue, AllocError>
        requires { All (λ s. s.checked.profile ≡ profile) roll.now }
        ensures same { IfOk result (λ queue.
            IsQueueOf roll.now (map (λ s. s.value) queue.sections.items) queue.places.items) }
        ensures len { IfOk result (λ queue. vec_len queue.sections ≡ length roll.now) }
        ensures profile { IfOk result (λ queue. queue.profile ≡ profile) }
    {
        let placed = longest_first(alloc, roll)?;
        let mut sections = Vec::with_capacity(alloc, placed.len())?;
        let mut places = Vec::with_capacity(alloc, placed.len())?;
        for Placed { section, place } in placed {
            sections.push(section)?;
            places.push(place)?;
        }
        Ok(Queue {
            sections,
            places,
            profile,
        })
    }

    // The place of the section at this index, and the index where there is none.
    fn place(&self, index: u32) -> u32
        ensures { result ≡ get_or self.now.places.items index index }
    {
        match self.places.get(index as usize) {
            Some(place) => *place,
            None => index,
        }
    }
}

/// The gate of the caller, before workers that know sections by their index in the queue.
#[derive(Drop)]
pub(crate) struct QueueGate<'a, G> {
    pub(crate) queue: &'a Queue,
    pub(crate) gate: &'a G,
}

impl<'a, G: Gate> Gate for QueueGate<'a, G> {
    // What the caller's gate may answer about the place of the section.
    ghost answers = { λ g worker section turn.
        G.answers g.gate.now worker (get_or g.queue.now.places.items section section) turn };

    fn turn(&self, worker: u32, section: u32) -> Turn {
        self.gate.turn(worker, self.queue.place(section))
    }

    fn missing(&self, section: u32) {
        self.gate.missing(self.queue.place(section));
    }
}
