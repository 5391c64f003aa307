//! Whether what one shadow stands for leaves open what another does.

ghost use Rattle.std.specs.Prelude.{◌≡◌, ◌<◌, ◌≤◌, ◌-◌, ◌/◌, ◌%◌, ℕ, List, true, IfOk};
ghost use Rattle.pmf_event.specs.declared.{event.Event.{Event}, span.TheConstants.{ADDRESS_LIMIT, LINE_SIZE}};
ghost use Rattle.pmf_shadow.specs.Shadow.{StandsFor};
ghost use Rattle.pmf_cut.specs.Comparing.{IsAlikeBelow, Extends, agrees, is_same_order, places_of, standings_agree};

use pmf_event::{ADDRESS_LIMIT, LINE_SIZE};
use pmf_shadow::{Shadow, Standing};
use std::alloc::{AllocError, Global};

/// Whether the other shadow stands for lists in which each byte is as in those of the one: excluded, undurable, unwritten, and on each
/// line stored to in the same order; and in which each byte that was stored to is undurable.
///
/// It takes memory for the undurable runs of one line, and a step for each run of the other and each of what the one leaves open.
pub(crate) fn are_alike(alloc: Global, one: &Shadow, other: &Shadow) -> Result<bool, AllocError>
    ensures { IfOk result (λ alike. alike ≡ true → (fs : List Event) (m : ℕ) (gs : List Event) (q : ℕ)
        → StandsFor one.now (λ k. k) fs m → StandsFor other.now (λ k. k) gs q → IsAlikeBelow fs m gs q ADDRESS_LIMIT) }
{
    let mut seen = Vec::new(alloc);
    let mut at = 0;
    while at < ADDRESS_LIMIT {
        let (a, a_end) = one.open_from(at, ADDRESS_LIMIT);
        let (b, b_end) = other.standing_from(at, ADDRESS_LIMIT);
        let end = a_end.min(b_end);
        if !stand_alike(a, b) {
            return Ok(false);
        }
        if !extend(&mut seen, places(a, b), at, end)? {
            return Ok(false);
        }
        at = end;
    }
    Ok(true)
}

// Whether bytes that stand so in the one stand so in the other, which knows no durable store.
fn stand_alike(a: Standing, b: Standing) -> bool
    ensures { result ≡ standings_agree a b }
{
    a.excluded == b.excluded
        && a.undurable == b.undurable
        && a.unwritten == b.unwritten
        && (b.undurable || b.last.is_none())
        && (!a.undurable || (a.last.is_some() && b.last.is_some()))
}

// The places of the last stores, where these are undurable.
fn places(a: Standing, b: Standing) -> Option<(u32, u32)>
    ensures { result ≡ places_of a b }
{
    match (a.undurable, a.last, b.last) {
        (true, Some(x), Some(y)) => Some((x, y)),
        _ => None,
    }
}

// Takes the bytes from `at` up to the end, which have these places, where they were stored in the order of those that were seen on
// the line; what was seen on another line is left out.
fn extend(
    seen: &mut Vec<(u32, u32)>,
    places: Option<(u32, u32)>,
    at: u64,
    end: u64,
) -> Result<bool, AllocError>
    requires { at < end }
    ensures { IfOk result (λ fits. fits ≡ true → Extends seen.old.items seen.new.items places at end) }
{
    if at % LINE_SIZE == 0 {
        seen.clear();
    }
    if let Some((x, y)) = places {
        if !all_agree(seen, x, y) {
            return Ok(false);
        }
        if (end - 1) / LINE_SIZE != at / LINE_SIZE {
            seen.clear();
        }
        seen.push((x, y))?;
        return Ok(true);
    }
    if (end - 1) / LINE_SIZE != at / LINE_SIZE {
        seen.clear();
    }
    Ok(true)
}

// Whether the two places stand to each that was seen alike.
#[tactic(auto, using(std::proofs::lemmas::List::drop_more, std::proofs::lemmas::List::drop_all), unfolding(crate::specs::Comparing::agrees))]
fn all_agree(seen: &[(u32, u32)], x: u32, y: u32) -> bool
    ensures { result ≡ agrees seen.now x y }
{
    for pair in seen {
        if !has_same_order(*pair, x, y) {
            return false;
        }
    }
    true
}

fn has_same_order(pair: (u32, u32), x: u32, y: u32) -> bool
    ensures { result ≡ is_same_order pair.0 pair.1 x y }
{
    (pair.0 < x) == (pair.1 < y) && (x < pair.0) == (y < pair.1)
}
