//! A section that was looked through.

ghost use Rattle.std.specs.Prelude.{◌≡◌, ◌≤◌, length, IfOk};
ghost use Rattle.pmf_event.specs.declared.section.TheConstants.{EVENT_LIMIT};
ghost use Rattle.pmf_lint.specs.{Covering.{is_uncovered}, Leaving.{AreLeft}, Marks.{Marks}, Upkeep.{HasWalkedOver}};

use crate::covering::mark_uncovered;
use crate::leaving::Left;
use crate::upkeep::Walk;
use pmf_event::Section;
use std::alloc::{AllocError, Global};
use std::sync::Arc;

/// A section, and which of its stores lack something.
#[derive(Debug, Drop)]
pub(crate) struct Looked {
    pub(crate) section: Arc<Section>,
    /// Which are not durable at its end.
    pub(crate) left: Left,
    /// Of each event, by its index: whether it is a store that no later assertion covers.
    pub(crate) uncovered: Vec<bool>,
    ghost few: { length section.value.events ≤ EVENT_LIMIT },
    ghost are_left: { AreLeft section.value.events left },
    ghost are_uncovered: { Marks (is_uncovered section.value.events) (length section.value.events) uncovered.items },
}

impl Looked {
    /// By a walk over all of the section's events. Takes a few bytes for each.
    pub(crate) fn of(
        alloc: Global,
        section: &Arc<Section>,
        walk: &Walk,
    ) -> Result<Looked, AllocError>
        requires { HasWalkedOver walk.now section.now.value.events (length section.now.value.events) }
        ensures { IfOk result (λ looked. looked.section.value ≡ section.now.value) }
    {
        let events = section.events();
        let uncovered = mark_uncovered(alloc, events)?;
        let left = Left::of(alloc, &walk.shadow, events)?;
        Ok(Looked {
            section: Arc::try_clone(section)?,
            left,
            uncovered,
        })
    }
}
