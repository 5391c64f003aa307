//! A section: its name and its events.

ghost use Rattle.std.specs.Prelude.{◌≡◌, ◌↔◌, ◌+◌, ◌≤◌, ◌<◌, [], ◌∷◌, ◌++◌, length, IsTrue, OnOk, OnErr, IsErrOf, All};
ghost use Rattle.pmf_event.specs.{Section.{Trace, IsValidEvent}, declared.section.TheConstants.{EVENT_LIMIT}};

use crate::event::Event;
use crate::events::Events;
use crate::name::Name;
use std::alloc::{AllocError, AllocFailed, Global};
use std::marker::Model;
use thiserror::Error;

/// The greatest number of events in a section: 2^20.
pub const EVENT_LIMIT: usize = 1 << 20;

/// A name and a list of events.
///
/// What is said of crash images has a premise that no type keeps: the events are all of one
/// thread's stores, write-backs and fences on its cache lines, in program order, from durable
/// memory on, and no other thread writes those lines meanwhile.
#[derive(Debug, Drop)]
pub struct Section {
    name: Name,
    events: Events,
}

impl Model for Section {
    ghost use Rattle.std.specs.Prelude.{◌≤◌, length, All};
    ghost use Rattle.pmf_event.specs.{Section.{Trace, IsValidEvent}, declared.section.TheConstants.{EVENT_LIMIT}};

    ghost Value = { Trace };

    ghost view = { λ s. record { name = s.name; events = s.events } };

    ghost invariant = { λ s. (length s.events ≤ EVENT_LIMIT) × All IsValidEvent s.events };
}

/// Why an event was not added: the first that applies, in this order.
#[derive(Clone, Copy, Debug, PartialEq, Eq, Error)]
pub enum SectionFault {
    /// The section holds [`EVENT_LIMIT`] events already.
    #[error("too many events in the section")]
    TooManyEvents,
    /// The room for the event was refused.
    #[error("out of memory")]
    OutOfMemory,
}

impl<T: Drop> From<AllocFailed<T>> for SectionFault {
    ghost use Rattle.pmf_event.specs.declared.section.SectionFault.TheVariants.{OutOfMemory};

    ghost from_gives = { λ _ e. e ≡ OutOfMemory };

    fn from(_refused: AllocFailed<T>) -> SectionFault {
        SectionFault::OutOfMemory
    }
}

impl From<AllocError> for SectionFault {
    ghost use Rattle.pmf_event.specs.declared.section.SectionFault.TheVariants.{OutOfMemory};

    ghost from_gives = { λ _ e. e ≡ OutOfMemory };

    fn from(_refused: AllocError) -> SectionFault {
        SectionFault::OutOfMemory
    }
}

impl Section {
    /// A section of this name with no events yet. Takes no memory.
    pub fn new(alloc: Global, name: Name) -> Section
        ensures { result ≡ record { name = name; events = [] } }
    {
        Section {
            name,
            events: Events::new(alloc),
        }
    }

    /// Adds the event at the end. After either refusal the section is unchanged; only
    /// [`SectionFault::OutOfMemory`] has asked for memory.
    #[inline(always)]
    pub fn push(&mut self, event: Event) -> Result<(), SectionFault>
        ensures ok { OnOk result
            (self.new ≡ record self.old { events = self.old.events ++ event ∷ [] }) }
        ensures too_many { IsErrOf result SectionFault.TooManyEvents
            ↔ (length self.old.events ≡ EVENT_LIMIT) }
        ensures unchanged { OnErr result (self.new ≡ self.old) }
    {
        if self.events.len() == EVENT_LIMIT {
            return Err(SectionFault::TooManyEvents);
        }
        event.has_valid_spans();
        self.events.push(event)?;
        Ok(())
    }

    /// Adds the events of the other section behind its own, whatever that one's name is. Where it has none, it takes those over as they
    /// lie. After either refusal the section is unchanged; only [`SectionFault::OutOfMemory`] has asked for memory.
    pub fn append(&mut self, more: Section) -> Result<(), SectionFault>
        ensures ok { OnOk result
            (self.new ≡ record self.old { events = self.old.events ++ more.events }) }
        ensures too_many { IsErrOf result SectionFault.TooManyEvents
            ↔ (EVENT_LIMIT < length self.old.events + length more.events) }
        ensures unchanged { OnErr result (self.new ≡ self.old) }
    {
        if more.events.len() > EVENT_LIMIT - self.events.len() {
            return Err(SectionFault::TooManyEvents);
        }
        let Section { events, .. } = more;
        self.events.append(events)?;
        Ok(())
    }

    /// The section's name.
    pub fn name(&self) -> Name
        ensures { result ≡ self.now.name }
    {
        self.name
    }

    /// The events in order; the event at place p stands at index p - 1.
    pub fn events(&self) -> &Events
        ensures value { result.now ≡ self.now.events }
        ensures limit { length self.now.events ≤ EVENT_LIMIT }
        ensures valid { All IsValidEvent result.now }
    {
        &self.events
    }

    /// Whether both have the same name and the same events.
    pub fn same_as(&self, other: &Section) -> bool
        ensures { IsTrue result ↔ (self.now ≡ other.now) }
    {
        other.name == self.name && self.events.same_as(&other.events)
    }
}
