//! A part whose last events wait, so that it takes many at once: while they are taken, what it keeps is near.

ghost use Rattle.std.specs.Prelude.{◌≡◌, length, OnOk};
ghost use Rattle.pmf_cut.specs.Deferred.{Begins, CatchesUp, GoesOnUpTo, TakesFirst};

use crate::part::{Part, PartFault};
use pmf_event::{EVENT_LIMIT, Event};
use std::alloc::{AllocError, Global};

/// How many events wait at most.
const MOST_WAITING: usize = 128;

/// A part, and the events that it takes next.
#[derive(Debug, Drop)]
pub(crate) struct Deferred {
    part: Part,
    waiting: Vec<Event>,
}

impl Deferred {
    /// The part, for which nothing waits. Takes no memory.
    #[tactic(auto, using(crate::proofs::DeferredLemmas::begins))]
    pub(crate) fn new(alloc: Global, part: Part) -> Deferred
        ensures { Begins part result }
    {
        Deferred {
            part,
            waiting: Vec::new(alloc),
        }
    }

    /// How many events the part has had, with those that wait.
    pub(crate) fn events(&self) -> u32 {
        let waiting = u32::try_from(self.waiting.len()).unwrap_or(u32::MAX);
        self.part.events().saturating_add(waiting)
    }

    /// The part, as far as it has caught up.
    pub(crate) fn part(&self) -> &Part
        ensures { result.now ≡ self.now.part }
    {
        &self.part
    }

    /// The event happens. After an `Err` the part is of no use.
    pub(crate) fn take(&mut self, event: Event) -> Result<(), PartFault>
        ensures { OnOk result (GoesOnUpTo self.old self.new event) }
    {
        if self.events() as usize >= EVENT_LIMIT {
            return Err(PartFault::TooManyEvents);
        }
        self.put_off(event)?;
        if self.waiting.len() < MOST_WAITING {
            return Ok(());
        }
        self.catch_up()?;
        Ok(())
    }

    #[tactic(auto, using(crate::proofs::DeferredLemmas::waits_more))]
    fn put_off(&mut self, event: Event) -> Result<(), AllocError>
        ensures { OnOk result (GoesOnUpTo self.old self.new event) }
    {
        self.waiting.push(event)?;
        Ok(())
    }

    /// The part takes the events that wait. After an `Err` it is of no use.
    #[tactic(auto, using(crate::proofs::DeferredLemmas::caught_up))]
    pub(crate) fn catch_up(&mut self) -> Result<(), PartFault>
        ensures { OnOk result (CatchesUp self.old self.new) }
    {
        take_all(&mut self.part, &self.waiting)?;
        self.waiting.clear();
        Ok(())
    }

    /// Goes on with this part; the one that ends.
    #[tactic(auto, using(crate::proofs::DeferredLemmas::begins))]
    pub(crate) fn go_on(&mut self, part: Part) -> Part
        ensures begins { Begins part self.new }
        ensures ended { result ≡ self.old.part }
    {
        self.waiting.clear();
        std::mem::replace(&mut self.part, part)
    }
}

// The part takes these events.
fn take_all(part: &mut Part, events: &[Event]) -> Result<(), PartFault>
    ensures { OnOk result (TakesFirst part.old part.new events.now (length events.now)) }
{
    for event in events {
        part.take(*event)?;
    }
    Ok(())
}
