//! A part of a section: what its events leave open.

ghost use Rattle.std.specs.Prelude.{◌≡◌, ◌≤◌, ◌<◌, ℕ, suc, List, [], length, OnOk, IfErr, Some, true, false};
ghost use Rattle.pmf_event.specs.{declared.event.Event.{Event}, declared.section.TheConstants.{EVENT_LIMIT}, Store.{event_at}, Transactions.{depth_at, in_scope}};
ghost use Rattle.pmf_shadow.specs.Shadow.{StandsFor};

use pmf_event::{EVENT_LIMIT, Event};
use pmf_shadow::Shadow;
use std::alloc::{AllocError, Global};
use thiserror::Error;

/// What the events of a part leave open: the shadow of its bytes, how many transactions run, and whether there is a scope.
///
/// Memory follows the runs of equal bytes of the part, and not its events.
#[derive(Debug, Drop)]
pub struct Part {
    pub(crate) shadow: Shadow,
    /// How many events it has had.
    pub(crate) events: u32,
    /// How many transactions run.
    depth: u32,
    /// Whether there is a scope.
    is_scoped: bool,
    ghost few: { events ≤ EVENT_LIMIT },
    ghost shallow: { depth ≤ events },
    ghost some: { ∥ ((fs : List Event) × (length fs ≡ events) × StandsFor shadow (λ k. k) fs events) ∥₁ },
}

/// Why a part took no event more.
#[derive(Clone, Copy, Debug, PartialEq, Eq, Error)]
pub enum PartFault {
    /// It has as many events as a section may have.
    #[error("too many events in the section")]
    TooManyEvents,
    /// Room for what it keeps was refused.
    #[error("out of memory")]
    OutOfMemory,
}

impl From<AllocError> for PartFault {
    ghost use Rattle.pmf_cut.specs.declared.part.PartFault.TheVariants.{OutOfMemory};

    ghost from_gives = { λ _ e. e ≡ OutOfMemory };

    fn from(_refused: AllocError) -> PartFault {
        PartFault::OutOfMemory
    }
}

impl Part {
    ghost use Rattle.pmf_cut.specs.Parts.{Follows, GoesOnWith, IsPartOf, Stands};

    /// The part of no events. Takes no memory.
    #[tactic(auto, using(crate::proofs::PartLemmas::list_none))]
    pub fn new(alloc: Global) -> Part
        ensures stands { (fs : List Event) → Stands result fs 0 }
        ensures part { (es : List Event) → IsPartOf result es 0 [] 0 }
    {
        Part {
            shadow: Shadow::new(alloc),
            events: 0,
            depth: 0,
            is_scoped: false,
        }
    }

    /// Takes the event that happens next. After an `Err` the part is of no use.
    #[tactic(auto, using(crate::proofs::PartLemmas::room_from, crate::proofs::PartLemmas::list_kept))]
    pub fn take(&mut self, event: Event) -> Result<(), PartFault>
        ensures follows { OnOk result (Follows self.old self.new event) }
        ensures part { OnOk result (GoesOnWith self.old self.new event) }
        ensures room { IfErr result (λ fault. fault ≡ PartFault.TooManyEvents → self.old.events ≡ EVENT_LIMIT) }
    {
        if self.events as usize == EVENT_LIMIT {
            return Err(PartFault::TooManyEvents);
        }
        event.has_valid_spans();
        let place = self.events + 1;
        self.shadow.follow(place, event)?;
        self.depth = depth_after(self.depth, event);
        self.is_scoped = scope_after(self.is_scoped, event);
        self.events = place;
        Ok(())
    }

    /// How many events it has had, its head among them.
    pub fn events(&self) -> u32
        ensures { result ≡ self.now.events }
    {
        let Part { events, .. } = self;
        *events
    }

    /// Whether no transaction runs, and there is no scope.
    pub fn is_outside(&self) -> bool
        ensures { result ≡ true → (self.now.depth ≡ 0) × (self.now.is_scoped ≡ false) }
    {
        self.depth == 0 && !self.is_scoped
    }
}

// How many transactions run after the event.
#[tactic(auto, using(crate::proofs::PartLemmas::depth_begin, crate::proofs::PartLemmas::depth_end, crate::proofs::PartLemmas::depth_other))]
fn depth_after(depth: u32, event: Event) -> u32
    requires { depth < EVENT_LIMIT }
    ensures is { (fs : List Event) (m : ℕ) → event_at fs (suc m) ≡ Some event → depth ≡ depth_at fs m → result ≡ depth_at fs (suc m) }
    ensures bound { result ≤ suc depth }
{
    match event {
        Event::TxBegin => depth + 1,
        Event::TxEnd => depth.saturating_sub(1),
        _ => depth,
    }
}

// Whether there is a scope after the event.
#[tactic(auto, using(crate::proofs::PartLemmas::scope_start, crate::proofs::PartLemmas::scope_end, crate::proofs::PartLemmas::scope_other))]
fn scope_after(is_scoped: bool, event: Event) -> bool
    ensures { (fs : List Event) (m : ℕ) → event_at fs (suc m) ≡ Some event → is_scoped ≡ in_scope fs m → result ≡ in_scope fs (suc m) }
{
    match event {
        Event::CheckStart => true,
        Event::CheckEnd => false,
        _ => is_scoped,
    }
}
