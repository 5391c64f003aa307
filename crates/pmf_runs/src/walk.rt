//! The steps of a walk over the runs of a range.

ghost use Rattle.std.specs.Prelude.{◌≡◌, ◌≤◌, ◌-◌};
ghost use Rattle.pmf_event.specs.Ranges.{first_from, least_from, lesser};
ghost use Rattle.pmf_runs.specs.{Lines.{counted_from}, Ranks.{Rises, rank}, Walks.{end_of}};

use crate::keys::rank_near;
use pmf_event::LINE_SIZE;

/// How many cache lines are counted, in rising order, and the number after that of the last of them.
#[derive(Clone, Copy, Debug, Drop)]
pub(crate) struct Counted {
    pub(crate) count: u64,
    pub(crate) next: u64,
}

/// The element at which a walk begins, which is the first of all where no key is reached yet: a walk that
/// goes on in a next part comes there without a search.
#[tactic(auto, using(crate::proofs::RunRules::start))]
pub(crate) fn start_of(keys: &[u64], first: u64, hint: usize) -> usize
    requires { Rises keys.now }
    ensures { result ≡ rank keys.now first }
{
    if keys.is_empty() {
        return 0;
    }
    if first < keys[0] {
        return 0;
    }
    rank_near(keys, first, hint)
}

/// Where the numbers of an element end: at its key, or at the range's end if that comes first.
#[tactic(auto, unfolding(crate::specs::Walks::end_of))]
pub(crate) fn end_of(keys: &[u64], index: usize, end: u64) -> u64
    ensures { result ≡ end_of keys.now index end }
{
    if index < keys.len() {
        end.min(keys[index])
    } else {
        end
    }
}

/// The least number of a run, if it has any and its state passes.
pub(crate) fn first_of_run(first: u64, end: u64, passes: bool) -> Option<u64>
    ensures { result ≡ first_from (λ b. passes) first (end - first) }
{
    if end <= first {
        return None;
    }
    if passes { Some(first) } else { None }
}

/// The count of lines with those of a run, if its state passes.
pub(crate) fn lines_of_run(first: u64, end: u64, passes: bool, so_far: Counted) -> Counted
    requires { so_far.count ≤ so_far.next }
    ensures is { result ≡ counted_from (λ b. passes) first (end - first) so_far }
    ensures bound { result.count ≤ result.next }
{
    if end <= first {
        return so_far;
    }
    if !passes {
        return so_far;
    }
    let last = (end - 1) / LINE_SIZE;
    if last < so_far.next {
        return so_far;
    }
    let line = so_far.next.max(first / LINE_SIZE);
    Counted {
        count: so_far.count + (last - line + 1),
        next: last + 1,
    }
}

/// The key of a run's state, if it has any number.
pub(crate) fn least_of_run(first: u64, end: u64, key: Option<u32>) -> Option<u32>
    ensures { result ≡ least_from (λ b. key) first (end - first) }
{
    if end <= first { None } else { key }
}

/// The lesser of two values, either of which may be missing.
pub(crate) fn lesser(one: Option<u32>, other: Option<u32>) -> Option<u32>
    ensures { result ≡ lesser one other }
{
    match (one, other) {
        (None, _) => other,
        (_, None) => one,
        (Some(x), Some(y)) => Some(x.min(y)),
    }
}
