//! Events as a list, and as a section keeps them.

use pmf_event::{Event, Events, Name, Section, SectionFault};
use std::alloc::{AllocError, Global};

/// A section with these events.
pub fn section_with(alloc: Global, events: &[Event]) -> Result<Section, SectionFault> {
    let mut section = Section::new(alloc, Name { run: 0, number: 0 });
    for event in events {
        section.push(*event)?;
    }
    Ok(section)
}

/// The events as a list.
pub fn listed(alloc: Global, events: &Events) -> Result<Vec<Event>, AllocError> {
    let mut list = Vec::new(alloc);
    for index in 0..events.len() {
        list.push(events.at(index))?;
    }
    Ok(list)
}
