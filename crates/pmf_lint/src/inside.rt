//! Which places of a section stand in a transaction and a scope.

ghost use Rattle.std.specs.Prelude.{◌≡◌, ◌+◌, ◌<◌, ◌≤◌, ◌^◌, ℕ, suc, List, Some, length, slice_index_or, IfOk, false};
ghost use Rattle.pmf_event.specs.{declared.event.Event.{Event}, Store.{event_at}, Transactions.{begins, closes_scope, depth_at, ends, in_scope, opens_scope}};
ghost use Rattle.pmf_lint.specs.Covering.{AreInside};

use crate::covering::both;
use pmf_event::{Event, Events};
use std::alloc::{AllocError, Global};

/// For each event, whether a transaction runs there, inside a scope. Takes a byte for each.
#[tactic(auto, using(crate::proofs::InsideLemmas::starts_outside, crate::proofs::InsideLemmas::starts_unscoped))]
pub(crate) fn places_inside(alloc: Global, events: &Events) -> Result<Vec<bool>, AllocError>
    requires { length events.now < 2 ^ 63 }
    ensures { IfOk result (λ inside. AreInside events.now inside.items) }
{
    let mut inside = Vec::new(alloc);
    let mut depth: u64 = 0;
    let mut scope = false;
    for index in 0..events.len() {
        let event = events.at(index);
        depth = depth_after(depth, &event);
        scope = scope_after(scope, &event);
        inside.push(both(depth > 0, scope))?;
    }
    Ok(inside)
}

// How many transactions run after the event.
#[tactic(auto, using(crate::proofs::InsideLemmas::depth_begun, crate::proofs::InsideLemmas::depth_ended, crate::proofs::InsideLemmas::depth_kept))]
fn depth_after(depth: u64, event: &Event) -> u64
    requires { depth + 1 < 2 ^ 64 }
    ensures follows { (es : List Event) (p : ℕ) → event_at es (suc p) ≡ Some event.now
        → depth ≡ depth_at es p → result ≡ depth_at es (suc p) }
    ensures few { result ≤ depth + 1 }
{
    if begins(event) {
        return depth + 1;
    }
    if ends(event) {
        return depth.saturating_sub(1);
    }
    depth
}

// Whether there is a scope after the event.
#[tactic(auto, using(crate::proofs::InsideLemmas::scope_ended, crate::proofs::InsideLemmas::scope_begun, crate::proofs::InsideLemmas::scope_same))]
fn scope_after(scope: bool, event: &Event) -> bool
    ensures { (es : List Event) (p : ℕ) → event_at es (suc p) ≡ Some event.now
        → scope ≡ in_scope es p → result ≡ in_scope es (suc p) }
{
    if closes(event) {
        return false;
    }
    if opens(event) {
        return true;
    }
    scope
}

#[tactic(auto, unfolding(pmf_event::specs::Transactions::begins))]
fn begins(event: &Event) -> bool
    ensures { result ≡ begins event.now }
{
    matches!(event, Event::TxBegin)
}

#[tactic(auto, unfolding(pmf_event::specs::Transactions::ends))]
fn ends(event: &Event) -> bool
    ensures { result ≡ ends event.now }
{
    matches!(event, Event::TxEnd)
}

#[tactic(auto, unfolding(pmf_event::specs::Transactions::opens_scope))]
fn opens(event: &Event) -> bool
    ensures { result ≡ opens_scope event.now }
{
    matches!(event, Event::CheckStart)
}

#[tactic(auto, unfolding(pmf_event::specs::Transactions::closes_scope))]
pub(crate) fn closes(event: &Event) -> bool
    ensures { result ≡ closes_scope event.now }
{
    matches!(event, Event::CheckEnd)
}
