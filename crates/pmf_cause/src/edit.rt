//! Changes of a section.

use pmf_event::Event;

/// One change of a section, by a place of the section as it was, counted from 1.
#[derive(Clone, Copy, Debug, PartialEq, Eq)]
pub enum Edit {
    /// Puts an event in front of the one at the place, or at the end, where that is one behind the last.
    Put {
        /// The place.
        before: u32,
        /// The event.
        event: Event,
    },
    /// Leaves out the event at the place.
    LeaveOut {
        /// The place.
        place: u32,
    },
}

impl Edit {
    ghost use Rattle.std.specs.Prelude.{◌≡◌};
    ghost use Rattle.pmf_cause.specs.Changed.{place_of};

    /// The place that it names.
    pub fn place(&self) -> u32
        ensures { result ≡ place_of self.now }
    {
        match self {
            Edit::Put { before, .. } => *before,
            Edit::LeaveOut { place } => *place,
        }
    }
}
