//! What an order assertion finds.

ghost use Rattle.std.specs.Prelude.{◌≡◌, ◌<◌};
ghost use Rattle.pmf_event.specs.{Store.{last_store}, Order.{ordered_finding}};
ghost use Rattle.pmf_shadow.specs.{Shadow.{ForEachList}, Told.{KeepsOrder, finding_as_told}};

use pmf_event::{Finding, Profile, Span};
use pmf_shadow::Shadow;

/// What an order assertion finds after the events that the shadow stands for: EMPTY where one of the
/// spans has no checked byte, FAIL with the least certified unordered pair and the place, as it was told,
/// after which a crash shows it, SAMELINE with the least unordered pair where none is certified, else PASS (PMTest,
/// ASPLOS 2019: isOrderedBefore; SAMELINE and the least pair are the project's own).
pub fn check_ordered(shadow: &Shadow, a: Span, b: Span, profile: Profile) -> Finding
    ensures { ForEachList shadow.now (λ told es p. KeepsOrder told es p → result ≡ finding_as_told told (ordered_finding profile es p a b)) }
{
    if !shadow.written_included(a) {
        return Finding::OrderedEmpty;
    }
    if !shadow.written_included(b) {
        return Finding::OrderedEmpty;
    }
    // Most assertions pass, and then one look for pairs is enough.
    match shadow.least_pair(a, b, false, profile) {
        None => Finding::OrderedPass,
        Some((byte, after)) => match shadow.least_pair(a, b, true, profile) {
            None => Finding::OrderedSameLine { byte, after },
            Some((byte, after)) => Finding::OrderedFail {
                byte,
                after,
                crash: last_store(shadow, after),
            },
        },
    }
}

// The place that was told of the last store of the byte, or 0 where it is unwritten.
fn last_store(shadow: &Shadow, byte: u64) -> u32
    ensures written { ForEachList shadow.now (λ told es p. 0 < last_store es p byte → result ≡ told (last_store es p byte)) }
    ensures unwritten { ForEachList shadow.now (λ told es p. last_store es p byte ≡ 0 → result ≡ 0) }
{
    match shadow.interval_at(byte) {
        None => 0,
        Some(interval) => interval.last,
    }
}
