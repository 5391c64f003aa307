//! One walk over the events of a section, which gives its rows.

ghost use Rattle.std.specs.Prelude.{◌≡◌, ℕ, suc, ◌≤◌, ◌<◌, [], ◌∷◌, ◌++◌, List, Some, length, map, OnOk, IfOk, IfErr};
ghost use Rattle.pmf_event.specs.{declared.event.Event.{Event}, FlushWarnings.{if_any}};
ghost use Rattle.pmf_verdict.specs.{Walks.{HasWalked, Walks, Follows}, Rows.{row_at, rows_of}};

use crate::verdict::Verdict;
use pmf_asserts::{check_flush, check_ordered, check_persist};
use pmf_event::{EVENT_LIMIT, Event, Events, Finding, Profile, Row, Rows, Section, Span};
use pmf_shadow::Shadow;
use pmf_txcheck::TxState;
use std::alloc::{AllocError, Global};
use std::sync::Arc;
use thiserror::Error;

/// Why a section was not checked.
#[derive(Clone, Copy, Debug, PartialEq, Eq, Error)]
pub enum CheckFault {
    /// Room for the shadow or the rows was refused.
    #[error("out of memory")]
    OutOfMemory,
}

// A section as far as it has been walked.
#[derive(Drop)]
struct Walk {
    shadow: Shadow,
    transactions: TxState,
    rows: Rows,
    profile: Profile,
}

impl Walk {
    fn new(alloc: Global, profile: Profile, events: &Events) -> Walk
        ensures walks { (es : List Event) → Walks result es 0 }
        ensures profile { result.profile ≡ profile }
    {
        Walk {
            shadow: Shadow::for_walk(alloc, events),
            transactions: TxState::new(alloc),
            rows: Rows::new(alloc),
            profile,
        }
    }

    fn push(&mut self, place: u32, finding: Finding) -> Result<(), AllocError>
        ensures { OnOk result (self.new ≡ record self.old
            { rows = self.old.rows ++ row_at place finding ∷ [] }) }
    {
        self.rows.push(Row { place, finding })?;
        Ok(())
    }

    fn push_if_any(&mut self, place: u32, finding: Option<Finding>) -> Result<(), AllocError>
        ensures { OnOk result (self.new ≡ record self.old
            { rows = self.old.rows ++ map (row_at place) (if_any finding) }) }
    {
        if let Some(finding) = finding {
            self.push(place, finding)?;
        }
        Ok(())
    }

    // The transactions look at the store after the shadow has followed it.
    fn store(&mut self, place: u32, span: Span) -> Result<(), AllocError>
        ensures walks { OnOk result (Follows self.old self.new place (Event.Store span)) }
        ensures profile { OnOk result (self.new.profile ≡ self.old.profile) }
    {
        self.shadow.store(place, span)?;
        let found = self.transactions.store(&self.shadow, span)?;
        self.push_if_any(place, found)?;
        Ok(())
    }

    // A write-back is judged before it takes effect.
    fn write_back(&mut self, place: u32, span: Span) -> Result<(), AllocError>
        ensures walks { OnOk result (Follows self.old self.new place (Event.Flush span)) }
        ensures profile { OnOk result (self.new.profile ≡ self.old.profile) }
    {
        let found = check_flush(&self.shadow, span);
        self.push_if_any(place, found.doubled)?;
        self.push_if_any(place, found.needless)?;
        self.shadow.flush(span)?;
        Ok(())
    }

    fn back_up(&mut self, place: u32, span: Span) -> Result<(), AllocError>
        ensures walks { OnOk result (Follows self.old self.new place (Event.TxAdd span)) }
        ensures profile { OnOk result (self.new.profile ≡ self.old.profile) }
    {
        let found = self.transactions.add(span)?;
        self.push_if_any(place, found)?;
        Ok(())
    }

    // Makes the shadow ready for what the event asks. The walk stands where it stood.
    fn settle_for(&mut self, event: &Event) -> Result<(), AllocError>
        ensures walks { OnOk result ((es : List Event) (p : ℕ) → Walks self.old es p → Walks self.new es p) }
        ensures profile { OnOk result (self.new.profile ≡ self.old.profile) }
    {
        self.shadow.settle_for(event)?;
        Ok(())
    }

    // Walks over the event at this place.
    fn follow(&mut self, place: u32, event: Event) -> Result<(), AllocError>
        requires { ∥ ((es : List Event) × (p : ℕ) × Walks self.old es p
            × (p < EVENT_LIMIT)) ∥₁ }
        ensures walks { OnOk result (Follows self.old self.new place event) }
        ensures profile { OnOk result (self.new.profile ≡ self.old.profile) }
    {
        match event {
            Event::Store(span) => self.store(place, span)?,
            Event::Flush(span) => self.write_back(place, span)?,
            Event::Fence => self.shadow.fence(),
            Event::Persist(span) => {
                let finding = check_persist(&self.shadow, span);
                self.push(place, finding)?
            }
            Event::Ordered(a, b) => {
                let finding = check_ordered(&self.shadow, a, b, self.profile);
                self.push(place, finding)?
            }
            Event::Exclude(span) => self.shadow.exclude(span)?,
            Event::Include(span) => self.shadow.include(span)?,
            Event::TxBegin => self.transactions.begin(),
            Event::TxAdd(span) => self.back_up(place, span)?,
            Event::TxEnd => {
                let found = self.transactions.end();
                self.push_if_any(place, found)?
            }
            Event::CheckStart => {
                let found = self.transactions.check_start(place);
                self.push_if_any(place, found)?
            }
            Event::CheckEnd => {
                let finding = self.transactions.check_end(&self.shadow);
                self.push(place, finding)?
            }
        }
        Ok(())
    }
}

/// The check of a section whose events come one part after another, as where its log is read meanwhile. It walks over each event once.
#[derive(Drop)]
pub struct Checker {
    walk: Walk,
    /// How many events were walked over.
    walked: usize,
    ghost of_some: { ∥ ((es : List Event) × HasWalked walk es walked) ∥₁ },
}

impl Checker {
    ghost use Rattle.pmf_verdict.specs.Partly.{HasChecked, IsFrontOf};

    /// The check of no event. How the events that are there, which it doesn't walk over, are spread decides how it keeps the states of bytes: a
    /// choice of speed. Takes no memory.
    pub fn new(alloc: Global, profile: Profile, events: &Events) -> Checker
        ensures { HasChecked profile [] result }
    {
        Checker {
            walk: Walk::new(alloc, profile, events),
            walked: 0,
        }
    }

    /// Walks over the events behind as many as were walked over: those are to be its first ones. Nothing is left of it after an `Err`, which is
    /// want of memory.
    ///
    /// Takes memory as [`check`] does, but for what the end of a section wants.
    pub fn advance(self, events: &Events) -> Result<Checker, AllocError>
        requires { length events.now ≤ EVENT_LIMIT }
        ensures { (profile : Profile) (es : List Event) → HasChecked profile es self → IsFrontOf es events.now
            → IfOk result (HasChecked profile events.now) }
    {
        if events.len() <= self.walked {
            return Ok(self);
        }
        let Checker { mut walk, walked } = self;
        for index in walked..events.len() {
            let event = events.at(index);
            walk.settle_for(&event)?;
            walk.follow(index as u32 + 1, event)?;
        }
        Ok(Checker {
            walk,
            walked: events.len(),
        })
    }

    // The rows of a section with these events.
    fn rows(self, events: &Events) -> Result<Rows, AllocError>
        requires { length events.now ≤ EVENT_LIMIT }
        ensures { (profile : Profile) (es : List Event) → HasChecked profile es self → IsFrontOf es events.now
            → IfOk result (λ rows. rows ≡ rows_of profile events.now) }
    {
        let Checker { mut walk, .. } = self.advance(events)?;
        let found = walk.transactions.close_section();
        walk.push_if_any(events.len() as u32 + 1, found)?;
        let mut rows = walk.rows;
        rows.shrink_to_fit();
        Ok(rows)
    }

    /// The verdict of a section of which the first events were walked over. The only refusal is [`CheckFault::OutOfMemory`], and the section
    /// comes back with it.
    pub fn finish(self, section: Arc<Section>) -> Result<Verdict, (CheckFault, Arc<Section>)>
        requires { (profile : Profile) × (es : List Event) × HasChecked profile es self × IsFrontOf es section.value.events }
        ensures checked { (profile : Profile) (es : List Event) → HasChecked profile es self
            → IfOk result (λ verdict. verdict ≡ record { section = section.value; profile = profile }) }
        ensures returned { IfErr result (λ refused. refused.1.value ≡ section.value) }
    {
        let profile = self.walk.profile;
        match self.rows(section.events()) {
            Ok(rows) => Ok(Verdict::of_rows(section, profile, rows)),
            Err(AllocError) => Err((CheckFault::OutOfMemory, section)),
        }
    }
}

/// Checks the section by the profile. What the rows of the verdict say is told by [`Verdict::rows`]. The only refusal is
/// [`CheckFault::OutOfMemory`], and the section comes back with it. Takes memory for a run of each distinct state of neighbouring bytes and lines,
/// for the runs of bytes that a transaction and a scope keep, and for the rows.
pub fn check(
    alloc: Global,
    section: Arc<Section>,
    profile: Profile,
) -> Result<Verdict, (CheckFault, Arc<Section>)>
    ensures checked { IfOk result
        (λ verdict. verdict ≡ record { section = section.value; profile = profile }) }
    ensures returned { IfErr result (λ refused. refused.1.value ≡ section.value) }
{
    Checker::new(alloc, profile, section.events()).finish(section)
}
