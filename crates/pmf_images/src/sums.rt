//! Counts of which a range is raised at once, and one is read.

ghost use Rattle.std.specs.Prelude.{◌≡◌, ◌≤◌, ◌<◌, ◌*◌, ℕ, ◌&&◌, ◌==◌, length, get_or};
ghost use Rattle.pmf_images.specs.Sums.{COUNT_LIMIT, over, lies_in, raised_if};

/// Raises the counts from the first up to the end by one.
///
/// What is raised for a pair of counts stands above them, once: the numbers of the pairs lie behind those of the counts, and those
/// of the pairs of pairs behind them, and so on.
pub(crate) fn raise(sums: &mut [u32], width: usize, first: usize, end: usize)
    requires room { 2 * width ≤ length sums.old }
    requires within { end ≤ width }
    ensures raised { (k x : ℕ) → width ≤ k → over k sums.old width x < COUNT_LIMIT
        → over k sums.new width x ≡ raised_if (lies_in first end x) (over k sums.old width x) }
    ensures long { length sums.new ≡ length sums.old }
{
    if first >= end {
        return;
    }
    let (level, above) = sums.split_at_mut(width);
    raise_if(level, first % 2 == 1, first);
    raise_if(level, end % 2 == 1, end - 1);
    raise(above, width / 2, (first + 1) / 2, end / 2);
}

// Raises the count at the index, if it is to be raised.
#[tactic(auto, using(crate::proofs::SumsLemmas::set_one))]
fn raise_if(level: &mut [u32], raises: bool, index: usize)
    requires { index < length level.old }
    ensures raised { (x : ℕ) → raised_if (raises && x == index) (get_or level.old x 0) ≤ COUNT_LIMIT
        → get_or level.new x 0 ≡ raised_if (raises && x == index) (get_or level.old x 0) }
    ensures long { length level.new ≡ length level.old }
{
    if raises {
        level[index] = level[index].saturating_add(1);
    }
}

/// The count at the index.
#[tactic(auto, using(crate::proofs::SumsLemmas::over_past))]
pub(crate) fn sum(sums: &[u32], width: usize, index: usize) -> u32
    requires room { 2 * width ≤ length sums.now }
    ensures { (k : ℕ) → width ≤ k → over k sums.now width index ≤ COUNT_LIMIT → result ≡ over k sums.now width index }
{
    if index >= width {
        return 0;
    }
    let (level, above) = sums.split_at(width);
    level[index].saturating_add(sum(above, width / 2, index / 2))
}
