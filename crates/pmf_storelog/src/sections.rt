//! The sections of a run that have begun.

ghost use Rattle.std.specs.{Prelude.{◌≡◌, ◌≢◌, ◌+◌, ◌<◌, ◌≤◌, ℕ, true, List, [], ◌∷◌, ◌++◌, length, map, slice_index_or, None, OnOk, IfOk, IfErr, MatchOption}, Option.{ForSome}, Ordering.{nat_cmp}, BTreeMap.{get, IsOrdered}};
ghost use Rattle.pmf_event.specs.{declared.section.TheConstants.{EVENT_LIMIT}, Section.{Trace}};
ghost use Rattle.pmf_storelog.specs.declared.fault.TheConstants.{SECTION_LIMIT};

use crate::fault::{Cause, SECTION_LIMIT};
use pmf_event::{EVENT_LIMIT, Event, Name, Section, SectionFault};
use std::alloc::{AllocError, Global};
use std::collections::BTreeMap;
use std::sync::Arc;

/// The sections of a run that have begun, and which of them is current.
#[derive(Debug, Drop)]
pub(crate) struct OpenSections {
    run: u64,
    /// In order of their first record.
    sections: Vec<Section>,
    /// Where the section of a number stands among them.
    places: BTreeMap<u64, usize>,
    /// Where the current one stands; before the first section there is none.
    current: usize,
    alloc: Global,
    ghost inside: { (number : ℕ)
        → ForSome (get nat_cmp places number) (λ place. place < length sections.items) },
    ghost few: { length sections.items ≤ SECTION_LIMIT },
    ghost current_inside: { 0 < current → current < length sections.items },
}

impl OpenSections {
    ghost use Rattle.pmf_event.specs.declared.event.Event.{Event};
    ghost use Rattle.pmf_storelog.specs.{Ahead.{with_number_of}, LogText.{section_named}, Rising.{with_number}, Sections.{HasSections, Opens, with_event, with_events}, declared.fault.Cause.TheVariants.{OutOfMemory, TooManyEvents, TooManySections}};

    /// No section yet. Takes no memory.
    pub(crate) fn new(alloc: Global, run: u64) -> OpenSections
        ensures { HasSections run [] (λ _. []) 0 result }
    {
        OpenSections {
            run,
            sections: Vec::new(alloc),
            places: BTreeMap::new(alloc),
            current: 0,
            alloc,
        }
    }

    /// Adds an event to the current section, or to section 0 before the first one.
    #[inline(always)]
    pub(crate) fn add(&mut self, event: Event) -> Result<(), Cause>
        ensures ok { (run : ℕ) (numbers : List ℕ) (events : ℕ → List Event) (current : ℕ)
            → HasSections run numbers events current self.old
            → OnOk result (HasSections run (with_number numbers current) (with_event events current event) current self.new) }
        ensures room { (run : ℕ) (numbers : List ℕ) (events : ℕ → List Event) (current : ℕ)
            → HasSections run numbers events current self.old
            → OnOk result (length (events current) ≢ EVENT_LIMIT) }
        ensures err { (run : ℕ) (numbers : List ℕ) (events : ℕ → List Event) (current : ℕ)
            → HasSections run numbers events current self.old
            → IfErr result (λ cause. cause ≢ OutOfMemory
            → (cause ≡ TooManyEvents) × (length (events current) ≡ EVENT_LIMIT)) }
    {
        if self.sections.is_empty() {
            self.open(0)?;
        }
        self.push(event)
    }

    #[inline(always)]
    fn push(&mut self, event: Event) -> Result<(), Cause>
        requires { length self.old.sections.items ≢ 0 }
        ensures ok { (run : ℕ) (numbers : List ℕ) (events : ℕ → List Event) (current : ℕ)
            → HasSections run numbers events current self.old
            → OnOk result (HasSections run (with_number numbers current) (with_event events current event) current self.new) }
        ensures room { (run : ℕ) (numbers : List ℕ) (events : ℕ → List Event) (current : ℕ)
            → HasSections run numbers events current self.old
            → OnOk result (length (events current) ≢ EVENT_LIMIT) }
        ensures err { (run : ℕ) (numbers : List ℕ) (events : ℕ → List Event) (current : ℕ)
            → HasSections run numbers events current self.old
            → IfErr result (λ cause. cause ≢ OutOfMemory
            → (cause ≡ TooManyEvents) × (length (events current) ≡ EVENT_LIMIT)) }
    {
        match self.sections[self.current].push(event) {
            Ok(()) => Ok(()),
            Err(SectionFault::TooManyEvents) => Err(Cause::TooManyEvents),
            Err(SectionFault::OutOfMemory) => Err(Cause::OutOfMemory),
        }
    }

    /// Whether the current section, or section 0 before the first one, has room for so many events more.
    pub(crate) fn has_room(&self, more: &Section) -> bool
        ensures { (run : ℕ) (numbers : List ℕ) (events : ℕ → List Event) (current : ℕ)
            → HasSections run numbers events current self.now
            → result ≡ true → length (events current) + length more.now.events ≤ EVENT_LIMIT }
    {
        if self.sections.is_empty() {
            return more.events().len() <= EVENT_LIMIT;
        }
        more.events().len() <= EVENT_LIMIT - self.sections[self.current].events().len()
    }

    /// Adds the events of a section, whatever its name is, behind those of the current one, as `add` does one after another.
    pub(crate) fn append(&mut self, more: Section) -> Result<(), Cause>
        ensures { (run : ℕ) (numbers : List ℕ) (events : ℕ → List Event) (current : ℕ)
            → HasSections run numbers events current self.old
            → OnOk result (HasSections run (with_number_of numbers current more.events) (with_events events current more.events) current self.new) }
    {
        if more.events().is_empty() {
            return Ok(());
        }
        if self.sections.is_empty() {
            self.open(0)?;
        }
        self.append_here(more)
    }

    fn append_here(&mut self, more: Section) -> Result<(), Cause>
        requires { length self.old.sections.items ≢ 0 }
        ensures { (run : ℕ) (numbers : List ℕ) (events : ℕ → List Event) (current : ℕ)
            → HasSections run numbers events current self.old
            → OnOk result (HasSections run (with_number numbers current) (with_events events current more.events) current self.new) }
    {
        match self.sections[self.current].append(more) {
            Ok(()) => Ok(()),
            Err(SectionFault::TooManyEvents) => Err(Cause::TooManyEvents),
            Err(SectionFault::OutOfMemory) => Err(Cause::OutOfMemory),
        }
    }

    /// The section, if just one has begun.
    pub(crate) fn only(&self) -> Option<&Section>
        ensures { (run : ℕ) (numbers : List ℕ) (events : ℕ → List Event) (current : ℕ)
            → HasSections run numbers events current self.now
            → MatchOption result (length numbers ≢ 1)
            (λ section. map (λ number. section_named run number (events number)) numbers ≡ section.now ∷ []) }
    {
        if self.sections.len() == 1 {
            Some(&self.sections[0])
        } else {
            None
        }
    }

    /// Makes the section of this number current; it begins here, unless it has begun before.
    pub(crate) fn enter(&mut self, number: u64) -> Result<(), Cause>
        ensures ok { (run : ℕ) (numbers : List ℕ) (events : ℕ → List Event) (current : ℕ)
            → HasSections run numbers events current self.old
            → OnOk result (HasSections run (with_number numbers number) events number self.new) }
        ensures room { (run : ℕ) (numbers : List ℕ) (events : ℕ → List Event) (current : ℕ)
            → HasSections run numbers events current self.old
            → OnOk result (length (with_number numbers number) ≤ SECTION_LIMIT) }
        ensures err { (run : ℕ) (numbers : List ℕ) (events : ℕ → List Event) (current : ℕ)
            → HasSections run numbers events current self.old
            → IfErr result (λ cause. cause ≢ OutOfMemory
            → (cause ≡ TooManySections) × (SECTION_LIMIT < length (with_number numbers number))) }
    {
        match self.places.get(&number) {
            Some(place) => {
                self.current = *place;
                Ok(())
            }
            None => self.open(number),
        }
    }

    // Begins the section of a number that has none, and makes it current.
    fn open(&mut self, number: u64) -> Result<(), Cause>
        requires { get nat_cmp self.old.places number ≡ None }
        ensures ok { OnOk result (Opens number self.old self.new) }
        ensures err { IfErr result (λ cause. cause ≢ OutOfMemory
            → (cause ≡ TooManySections) × (SECTION_LIMIT ≤ length self.old.sections.items)) }
    {
        let place = self.sections.len();
        if place >= SECTION_LIMIT {
            return Err(Cause::TooManySections);
        }
        let name = Name {
            run: self.run,
            number,
        };
        self.sections.push(Section::new(self.alloc, name))?;
        self.places.insert(number, place)?;
        self.current = place;
        Ok(())
    }

    /// The sections in order of their number.
    pub(crate) fn into_list(self) -> Result<Vec<Arc<Section>>, AllocError>
        ensures { (run : ℕ) (numbers : List ℕ) (events : ℕ → List Event) (current : ℕ)
            → HasSections run numbers events current self
            → IfOk result (λ list. map (λ a. a.value) list.items
            ≡ map (λ number. section_named run number (events number)) numbers) }
    {
        let OpenSections {
            sections,
            places,
            alloc,
            ..
        } = self;
        let shared = share(alloc, sections)?;
        in_order(alloc, &shared, &places)
    }
}

fn share(alloc: Global, sections: Vec<Section>) -> Result<Vec<Arc<Section>>, AllocError>
    ensures { IfOk result (λ shared. map (λ a. a.value) shared.items ≡ sections.items) }
{
    let mut shared = Vec::new(alloc);
    for section in sections {
        shared.push(Arc::new(alloc, section)?)?;
    }
    Ok(shared)
}

// The sections in order of the numbers that have these places.
fn in_order(
    alloc: Global,
    shared: &[Arc<Section>],
    places: &BTreeMap<u64, usize>,
) -> Result<Vec<Arc<Section>>, AllocError>
    requires { (number : ℕ)
        → ForSome (get nat_cmp places.now number) (λ place. place < length shared.now) }
    ensures ordered { IsOrdered nat_cmp places.now }
    ensures listed { IfOk result (λ list. (d : Trace) → map (λ a. a.value) list.items
        ≡ map (λ e. slice_index_or (map (λ a. a.value) shared.now) e.1 d) places.now.entries) }
{
    let mut list = Vec::new(alloc);
    for (_, place) in places {
        push_section(&mut list, shared, *place)?;
    }
    Ok(list)
}

// Puts the section at the place at the end of the list.
fn push_section(
    list: &mut Vec<Arc<Section>>,
    shared: &[Arc<Section>],
    place: usize,
) -> Result<(), AllocError>
    requires { place < length shared.now }
    ensures { OnOk result ((d : Trace) → map (λ a. a.value) list.new.items
        ≡ map (λ a. a.value) list.old.items ++ slice_index_or (map (λ a. a.value) shared.now) place d ∷ []) }
{
    list.push(Arc::try_clone(&shared[place])?)?;
    Ok(())
}
