//! The rank of a number among rising keys.

ghost use Rattle.std.specs.Prelude.{◌≡◌, ◌<◌, ◌+◌, ◌≤◌, ◌-◌, true, false, IfSome, length, get_or};
ghost use Rattle.pmf_runs.specs.Ranks.{HasKey, IsBeyond, IsFresh, IsInner, LiesBefore, bound_at, Rises, rank, low_rank, high_rank, parting};

/// How many keys are looked at one after another before the search halves them.
const FEW: usize = 4;

/// How many of the keys are at most the place.
pub(crate) fn rank_of(keys: &[u64], place: u64) -> usize
    requires { Rises keys.now }
    ensures { result ≡ rank keys.now place }
{
    let mut low = 0;
    let mut high = keys.len();
    while low < high {
        let middle = low + (high - low) / 2;
        if keys[middle] <= place {
            low = middle + 1;
        } else {
            high = middle;
        }
    }
    low
}

/// How many of the keys are at most the place, which is likely the hint.
#[inline(always)]
pub(crate) fn rank_near(keys: &[u64], place: u64, hint: usize) -> usize
    requires { Rises keys.now }
    ensures { result ≡ rank keys.now place }
{
    if is_rank(keys, hint, place) {
        hint
    } else {
        rank_from(keys, place, hint)
    }
}

/// Whether so many of the keys are at most the place.
#[inline(always)]
pub(crate) fn is_rank(keys: &[u64], count: usize, place: u64) -> bool
    requires { Rises keys.now }
    ensures { result ≡ true → count ≡ rank keys.now place }
{
    if count > keys.len() {
        return false;
    }
    if reaches(keys, count, place) {
        falls_short(keys, count, place)
    } else {
        false
    }
}

/// Whether the place reaches the last of so many keys.
#[inline(always)]
fn reaches(keys: &[u64], count: usize, place: u64) -> bool
    requires { count ≤ length keys.now }
    ensures { result ≡ true → 0 < count → get_or keys.now (count - 1) 0 ≤ place }
{
    count == 0 || keys[count - 1] <= place
}

/// Whether the place lies below the key after so many, if there is one.
#[inline(always)]
fn falls_short(keys: &[u64], count: usize, place: u64) -> bool
    requires { count ≤ length keys.now }
    ensures { result ≡ true → count < length keys.now → place < get_or keys.now count 0 }
{
    count == keys.len() || place < keys[count]
}

/// The same, where it is likely a few more than the hint.
fn rank_from(keys: &[u64], place: u64, hint: usize) -> usize
    requires { Rises keys.now }
    ensures { result ≡ rank keys.now place }
{
    if hint > keys.len() || (hint > 0 && keys[hint - 1] > place) {
        return rank_of(keys, place);
    }
    let mut index = hint;
    while index < keys.len() && keys[index] <= place {
        if index == hint + FEW {
            return rank_of(keys, place);
        }
        index += 1;
    }
    index
}

/// The first element that lies from the bound on: the first of all, if there is no bound.
pub(crate) fn low_rank(keys: &[u64], from: Option<u64>, hint: usize) -> usize
    requires { Rises keys.now }
    ensures { result ≡ low_rank keys.now from }
{
    match from {
        None => 0,
        Some(first) => rank_near(keys, first, hint),
    }
}

/// The first element that lies beyond the bound: one past the last, if there is no bound.
pub(crate) fn high_rank(keys: &[u64], end: Option<u64>, hint: usize) -> usize
    requires { Rises keys.now }
    ensures { result ≡ high_rank keys.now end }
{
    match end {
        None => keys.len() + 1,
        Some(end) => rank_near(keys, end, hint),
    }
}

/// Whether the place is one of the keys.
#[tactic(auto, using(crate::proofs::RunRules::key))]
pub(crate) fn is_key(keys: &[u64], index: usize, place: u64) -> bool
    requires rises { Rises keys.now }
    requires rank { index ≡ rank keys.now place }
    ensures key { result ≡ true → HasKey keys.now place }
    ensures fresh { result ≡ false → IsFresh keys.now place }
{
    index > 0 && keys[index - 1] == place
}

/// Whether the key of this index is the place.
pub(crate) fn is_key_at(keys: &[u64], index: usize, place: u64) -> bool
    ensures key { result ≡ true → (index < length keys.now) × (get_or keys.now index 0 ≡ place) }
    ensures other { result ≡ false → LiesBefore keys.now index place → LiesBefore keys.now index (place + 1) }
{
    index < keys.len() && keys[index] == place
}

/// Whether the numbers from one of this rank up to the end all have it.
pub(crate) fn is_before(keys: &[u64], index: usize, end: u64) -> bool
    ensures { result ≡ true → LiesBefore keys.now index end }
{
    index >= keys.len() || end <= keys[index]
}

/// Which key a list is parted at before more is put in at this place: the last one, where the place lies from
/// there on, so that rising places leave full lists behind; and else the middle one.
#[tactic(auto, using(crate::proofs::RunRules::parted))]
pub(crate) fn parting(keys: &[u64], place: u64) -> usize
    requires { 0 < length keys.now }
    ensures is { result ≡ parting keys.now place }
    ensures within { result < length keys.now }
{
    let last = keys.len() - 1;
    if keys[last] <= place {
        last
    } else {
        keys.len() / 2
    }
}

/// Whether the place lies beyond all keys.
pub(crate) fn is_beyond(keys: &[u64], place: u64) -> bool
    requires { Rises keys.now }
    ensures { result ≡ true → IsBeyond keys.now place }
{
    keys.is_empty() || keys[keys.len() - 1] < place
}

/// The bound as it is handed down: nothing where a part begins there.
pub(crate) fn inner_bound(keys: &[u64], index: usize, bound: Option<u64>) -> Option<u64>
    requires rises { Rises keys.now }
    requires rank { IfSome bound (λ b. index ≡ rank keys.now b) }
    ensures { IsInner keys.now bound result }
{
    match bound {
        None => None,
        Some(place) => {
            if is_key(keys, index, place) {
                None
            } else {
                Some(place)
            }
        }
    }
}

/// A bound at one part, and none elsewhere.
#[tactic(auto, using(crate::proofs::RunRules::handed))]
pub(crate) fn bound_at(here: usize, index: usize, bound: Option<u64>) -> Option<u64>
    ensures { result ≡ bound_at here index bound }
{
    if index == here { bound } else { None }
}
