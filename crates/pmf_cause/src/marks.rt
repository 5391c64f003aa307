//! Where transactions and scopes began and ended.

ghost use Rattle.std.specs.Prelude.{◌≡◌, ◌<◌, ◌&&◌, ◌==◌, ℕ, suc, nat_lt, if◌then◌else◌, List, Some};
ghost use Rattle.pmf_event.specs.{declared.event.Event.{Event}, declared.section.TheConstants.{EVENT_LIMIT}, Store.{event_at}, Transactions.{begins, closes_scope, depth_at, ends, opens_scope, scope_at}};
ghost use Rattle.pmf_cause.specs.Past.{AreMarks};

use pmf_event::Event;
use pmf_places::place_if;

/// What is kept of the transactions and scopes of some events. Places are 0 where there is none.
#[derive(Clone, Copy, Debug, PartialEq, Eq)]
pub(crate) struct Marks {
    /// How many transactions run.
    pub(crate) depth: u32,
    /// The last place at which none ran.
    pub(crate) outside: u32,
    /// The last place that ended the last one that ran.
    pub(crate) ended: u32,
    /// The place that opened the scope.
    pub(crate) scope: u32,
    /// The last place that closed one that was open.
    pub(crate) closed: u32,
}

impl Marks {
    /// Of no event.
    pub(crate) fn new() -> Marks
        ensures { (es : List Event) → AreMarks result es 0 }
    {
        Marks {
            depth: 0,
            outside: 0,
            ended: 0,
            scope: 0,
            closed: 0,
        }
    }

    /// Those after the event at the place.
    pub(crate) fn after(self, place: u32, event: &Event) -> Marks
        requires { self.depth < EVENT_LIMIT }
        ensures { (es : List Event) (p : ℕ) → event_at es (suc p) ≡ Some event.now → place ≡ suc p
            → AreMarks self es p → AreMarks result es (suc p) }
    {
        let depth = depth_after(self.depth, event);
        let scope = scope_after(self.scope, place, event);
        Marks {
            depth,
            outside: place_if(depth == 0, place, self.outside),
            ended: place_at_end(self.depth, depth, place, self.ended),
            scope,
            closed: place_at_end(self.scope, scope, place, self.closed),
        }
    }
}

// The place, where what was no 0 before is 0 there, and else the other.
fn place_at_end(before: u32, now: u32, place: u32, other: u32) -> u32
    ensures { result ≡ (if nat_lt 0 before && (now == 0) then place else other) }
{
    if before > 0 && now == 0 {
        return place;
    }
    other
}

// How many transactions run after the event.
#[tactic(auto, using(crate::proofs::MarksLemmas::depth_begun, crate::proofs::MarksLemmas::depth_ended, crate::proofs::MarksLemmas::depth_same))]
fn depth_after(depth: u32, event: &Event) -> u32
    requires { depth < EVENT_LIMIT }
    ensures { (es : List Event) (p : ℕ) → event_at es (suc p) ≡ Some event.now
        → depth ≡ depth_at es p → result ≡ depth_at es (suc p) }
{
    if begins(event) {
        return depth + 1;
    }
    if ends(event) {
        return depth.saturating_sub(1);
    }
    depth
}

// The place that opened the scope, after the event at the place.
#[tactic(auto, using(crate::proofs::MarksLemmas::scope_ended, crate::proofs::MarksLemmas::scope_begun, crate::proofs::MarksLemmas::scope_same, crate::proofs::MarksLemmas::scope_none))]
fn scope_after(scope: u32, place: u32, event: &Event) -> u32
    ensures { (es : List Event) (p : ℕ) → event_at es (suc p) ≡ Some event.now → place ≡ suc p
        → scope ≡ scope_at es p → result ≡ scope_at es (suc p) }
{
    if closes(event) {
        return 0;
    }
    if scope > 0 {
        return scope;
    }
    if opens(event) {
        return place;
    }
    0
}

#[tactic(auto, unfolding(pmf_event::specs::Transactions::begins))]
fn begins(event: &Event) -> bool
    ensures { result ≡ begins event.now }
{
    matches!(event, Event::TxBegin)
}

#[tactic(auto, unfolding(pmf_event::specs::Transactions::ends))]
fn ends(event: &Event) -> bool
    ensures { result ≡ ends event.now }
{
    matches!(event, Event::TxEnd)
}

#[tactic(auto, unfolding(pmf_event::specs::Transactions::opens_scope))]
fn opens(event: &Event) -> bool
    ensures { result ≡ opens_scope event.now }
{
    matches!(event, Event::CheckStart)
}

#[tactic(auto, unfolding(pmf_event::specs::Transactions::closes_scope))]
fn closes(event: &Event) -> bool
    ensures { result ≡ closes_scope event.now }
{
    matches!(event, Event::CheckEnd)
}
