//! A part that goes on as another one does, from its head on.

ghost use Rattle.std.specs.Prelude.{◌≡◌, ℕ, suc, List, length, IfOk, IfSome};
ghost use Rattle.pmf_event.specs.declared.event.Event.{Event};
ghost use Rattle.pmf_cut.specs.Parts.{BeginsAt, BeginsWith, Stands};

use crate::comparing::are_alike;
use crate::head::head_of;
use crate::part::{Part, PartFault};
use pmf_event::Event;
use std::alloc::{AllocError, Global};

/// What a part would begin with that goes on as another one does.
#[derive(Debug, Drop)]
pub struct Renewal {
    /// Its head: events that leave open what those of the other part do, and nothing else.
    pub head: Vec<Event>,
    /// The part that has had these events alone; none where they are too many, or were not found to be such a head.
    pub part: Option<Part>,
}

impl Part {
    /// The head of a part that goes on as this one does, and that part where no transaction runs and there is no scope, and the head has
    /// at most so many events and was found to be one.
    ///
    /// It takes a step for each run of equal bytes of this part, and memory for its runs.
    pub fn renewed(&self, alloc: Global, most: usize) -> Result<Renewal, AllocError>
        ensures { IfOk result (λ made. IfSome made.part (λ part. BeginsAt self.now part made.head.items)) }
    {
        let head = head_of(alloc, &self.shadow)?;
        if head.len() > most {
            return Ok(Renewal { head, part: None });
        }
        let part = self.renewed_by(alloc, &head)?;
        Ok(Renewal { head, part })
    }

    // The part of these events, where they are the head of one that goes on as this one does.
    fn renewed_by(&self, alloc: Global, head: &[Event]) -> Result<Option<Part>, AllocError>
        ensures { IfOk result (λ found. IfSome found (λ part. BeginsAt self.now part head.now)) }
    {
        let part = match part_of(alloc, head)? {
            Some(part) => part,
            None => return Ok(None),
        };
        if !self.is_outside() {
            return Ok(None);
        }
        if !part.is_outside() {
            return Ok(None);
        }
        if !are_alike(alloc, &self.shadow, &part.shadow)? {
            return Ok(None);
        }
        Ok(Some(part))
    }
}

// The part of these events, unless they are too many.
fn part_of(alloc: Global, events: &[Event]) -> Result<Option<Part>, AllocError>
    ensures { IfOk result (λ found. IfSome found (λ part. (gs : List Event) → BeginsWith gs events.now → Stands part gs (length events.now))) }
{
    let mut part = Part::new(alloc);
    for event in events {
        match part.take(*event) {
            Ok(()) => {}
            Err(PartFault::TooManyEvents) => return Ok(None),
            Err(PartFault::OutOfMemory) => return Err(AllocError),
        }
    }
    Ok(Some(part))
}
