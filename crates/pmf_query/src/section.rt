//! The section of a log that is asked for, where it has the event that is.

ghost use Rattle.std.specs.Prelude.{◌≡◌, ◌≤◌, ◌↔◌, length, map, Contains, IsTrue, MatchOption, MatchResult};
ghost use Rattle.pmf_event.specs.Section.{Trace};
ghost use Rattle.pmf_query.specs.Refusals.{IsMissing, IsPlace, IsSection};

use crate::refusal::EventFault;
use pmf_event::Section;
use pmf_storelog::Log;
use std::sync::Arc;

/// The section of this number, which has an event of this number, counted from 1.
pub(crate) fn section_with(log: &Log, section: u64, event: u32) -> Result<&Arc<Section>, EventFault>
    ensures { MatchResult result
        (λ found. IsSection section log.now found.now.value × IsPlace event found.now.value)
        (IsMissing section event log.now) }
{
    let Some(found) = find_section(log.sections(), section) else {
        return Err(EventFault::NoSection);
    };
    if !has_event(found, event) {
        return Err(EventFault::NoEvent);
    }
    Ok(found)
}

// The section of this number.
fn find_section(sections: &[Arc<Section>], number: u64) -> Option<&Arc<Section>>
    ensures { MatchOption result
        ((t : Trace) → Contains (map (λ s. s.value) sections.now) t → t.name.number ≡ number → ⊥)
        (λ section. Contains (map (λ s. s.value) sections.now) section.now.value
        × (section.now.value.name.number ≡ number)) }
{
    for section in sections {
        if section.name().number == number {
            return Some(section);
        }
    }
    None
}

// Whether the section has an event of this number, counted from 1.
fn has_event(section: &Section, event: u32) -> bool
    ensures { IsTrue result ↔ ((1 ≤ event) × (event ≤ length section.now.events)) }
{
    event >= 1 && event as usize <= section.events().len()
}
