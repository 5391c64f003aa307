//! Walks over a section's events, each of which tells of all bytes that are asked for.

ghost use Rattle.std.specs.Prelude.{◌≡◌, ◌≤◌, ◌<◌, ℕ, suc, List, Some, length, get_or, IfOk, OnOk};
ghost use Rattle.pmf_event.specs.{declared.event.Event.{Event}, Store.{event_at}};
ghost use Rattle.pmf_images.specs.{declared.showing.Asked.{Asked}, Telling.{AreDue, AreTold}};

use crate::showing::Asked;
use pmf_event::{Event, Events};
use std::alloc::{AllocError, Global};

/// What is kept of a section's first events, to tell of a byte.
pub(crate) trait Walk: Drop {
    // It is in order, whatever it is kept of.
    ghost IsSound: { Self → Type 0 };

    // It can tell of the byte.
    ghost Knows: { Self → ℕ → Type 0 };

    // It is kept of the first events of the list, as many as the number.
    ghost Keeps: { Self → List Event → ℕ → Type 0 };

    // What it tells of the byte after as many events of the list.
    ghost told: { List Event → ℕ → ℕ → ℕ };

    /// Goes on over the event at the place.
    fn follow(&mut self, place: u32, event: &Event) -> Result<(), AllocError>
        requires { IsSound self.old }
        ensures sound { OnOk result (IsSound self.new) }
        ensures knows { (byte : ℕ) → Knows self.old byte → OnOk result (Knows self.new byte) }
        ensures keeps { (es : List Event) (p : ℕ) → event_at es (suc p) ≡ Some event.now → place ≡ suc p
            → Keeps self.old es p → OnOk result (Keeps self.new es (suc p)) };

    /// Tells of the byte.
    fn tell(&self, byte: u64) -> u32
        requires sound { IsSound self.now }
        requires knows { Knows self.now byte }
        ensures { (es : List Event) (p : ℕ) → Keeps self.now es p → result ≡ told es p byte };
}

// A walk, and the place up to which it went.
#[derive(Drop)]
struct Course<W: Walk> {
    walk: W,
    place: u32,
}

// What is asked of a walk at a place, and the index of its answer.
#[derive(Clone, Copy, Debug)]
struct Due {
    place: u32,
    byte: u64,
    index: usize,
}

/// What the walk tells of each of the bytes, at the place with its index.
///
/// Takes memory for three numbers for each.
pub(crate) fn tell_all<W: Walk>(
    alloc: Global,
    walk: W,
    events: &Events,
    places: &[u32],
    asked: &[Asked],
) -> Result<Vec<u32>, AllocError>
    requires alike { length places.now ≡ length asked.now }
    requires within { (k : ℕ) → k < length places.now → get_or places.now k 0 ≤ length events.now }
    requires sound { W.IsSound walk }
    requires knows { (k : ℕ) (a : Asked) → k < length asked.now → W.Knows walk (get_or asked.now k a).byte }
    requires starts { W.Keeps walk events.now 0 }
    ensures { IfOk result (λ told. AreTold (W.told events.now) places.now asked.now told.items) }
{
    let dues = dues_of(alloc, places, asked)?;
    let mut course = Course { walk, place: 0 };
    let mut told = vec![in alloc; 0; asked.len()]?;
    for due in &dues {
        course.go_to(events, due.place)?;
        told[due.index] = course.walk.tell(due.byte);
    }
    Ok(told)
}

impl<W: Walk> Course<W> {
    // Goes on to the place.
    fn go_to(&mut self, events: &Events, place: u32) -> Result<(), AllocError>
        requires sound { W.IsSound self.old.walk }
        requires keeps { W.Keeps self.old.walk events.now self.old.place }
        requires before { self.old.place ≤ place }
        requires within { place ≤ length events.now }
        ensures sound { OnOk result (W.IsSound self.new.walk) }
        ensures knows { (byte : ℕ) → W.Knows self.old.walk byte → OnOk result (W.Knows self.new.walk byte) }
        ensures keeps { OnOk result (W.Keeps self.new.walk events.now place) }
        ensures place { OnOk result (self.new.place ≡ place) }
    {
        while self.place < place {
            self.walk
                .follow(self.place + 1, &events.at(self.place as usize))?;
            self.place += 1;
        }
        Ok(())
    }
}

// What is asked, in the order of the places.
fn dues_of(alloc: Global, places: &[u32], asked: &[Asked]) -> Result<Vec<Due>, AllocError>
    requires alike { length places.now ≡ length asked.now }
    ensures { IfOk result (λ dues. AreDue places.now asked.now dues.items) }
{
    let mut dues = Vec::new(alloc);
    for (index, one) in asked.iter().enumerate() {
        dues.push(Due {
            place: places[index],
            byte: one.byte,
            index,
        })?;
    }
    dues.sort_unstable_by_key(
        |due: &Due| -> u32
            ensures { result ≡ due.now.place }
        { due.place },
    );
    Ok(dues)
}
