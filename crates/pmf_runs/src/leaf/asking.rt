//! Questions about the states of a range in a leaf, each one walk over its runs.

ghost use Rattle.std.specs.Prelude.{◌≡◌, ◌<◌, ◌≤◌, ◌-◌, ℕ, true, false, get_or, vec_len};
ghost use Rattle.pmf_runs.specs.Ranks.{rank, IsBeyond};

use crate::keys::is_beyond;
use crate::leaf::Leaf;
use crate::state::{Key, State, Test};
use crate::walk::{Counted, end_of, first_of_run, least_of_run, lesser, lines_of_run, start_of};

impl<S: State> Leaf<S> {
    ghost use Rattle.pmf_event.specs.Ranges.{first_from};
    ghost use Rattle.pmf_runs.specs.{Leaves.{leaf_state}, Lines.{counted_from}, Walks.{IsLowered}};

    /// The least number from `first` up to `end` whose state passes.
    pub(crate) fn find_first<T: Test<S>>(&self, first: u64, end: u64, test: &T) -> Option<u64>
        ensures { (d : S) → result ≡ first_from (λ b. T.passes test.now (leaf_state self.now d b)) first (end - first) }
    {
        let mut index = start_of(&self.keys, first, self.hint);
        if first < end && is_beyond(&self.keys, end) {
            return self.first_onward(index, first, test);
        }
        let mut start = first;
        while start < end {
            let until = end_of(&self.keys, index, end);
            let passes = test.passes(self.states[index]);
            let found = first_of_run(start, until, passes);
            if found.is_some() {
                return found;
            }
            index += 1;
            start = until;
        }
        None
    }

    /// The least number from `first` on whose state passes, where a range ends beyond all keys and so meets
    /// each run from that of `first` on.
    fn first_onward<T: Test<S>>(&self, index: usize, first: u64, test: &T) -> Option<u64>
        requires { index ≡ rank self.now.keys.items first }
        ensures { (d : S) (end : ℕ) → first < end → IsBeyond self.now.keys.items end → result ≡ first_from (λ b. T.passes test.now (leaf_state self.now d b)) first (end - first) }
    {
        let next = self.next_passing(index, test);
        if next > self.keys.len() {
            return None;
        }
        if next == index {
            return Some(first);
        }
        Some(self.keys[next - 1])
    }

    /// The first run from that of the index on whose state passes, or one past the last.
    #[inline(always)]
    fn next_passing<T: Test<S>>(&self, index: usize, test: &T) -> usize
        requires { index < vec_len self.now.states }
        ensures from { index ≤ result }
        ensures within { result ≤ vec_len self.now.states }
        ensures none { (k : ℕ) (d : S) → index ≤ k → k < result → T.passes test.now (get_or self.now.states.items k d) ≡ false }
        ensures passes { (d : S) → result < vec_len self.now.states → T.passes test.now (get_or self.now.states.items result d) ≡ true }
    {
        for i in index..self.states.len() {
            if test.passes(self.states[i]) {
                return i;
            }
        }
        self.states.len()
    }

    /// How many of its runs have a state that passes.
    pub(crate) fn count_runs<T: Test<S>>(&self, test: &T) -> usize {
        let mut count = 0usize;
        for i in 0..self.states.len() {
            if test.passes(self.states[i]) {
                count = count.saturating_add(1);
            }
        }
        count
    }

    /// The count of lines with those that have a number from `first` up to `end` whose state passes.
    pub(crate) fn count_lines<T: Test<S>>(
        &self,
        first: u64,
        end: u64,
        test: &T,
        so_far: Counted,
    ) -> Counted
        requires { so_far.count ≤ so_far.next }
        ensures is { (d : S) → result ≡ counted_from (λ b. T.passes test.now (leaf_state self.now d b)) first (end - first) so_far }
        ensures bound { result.count ≤ result.next }
    {
        let mut index = start_of(&self.keys, first, self.hint);
        let mut start = first;
        let mut counted = so_far;
        while start < end {
            let next = self.next_passing(index, test);
            if next > index {
                start = end_of(&self.keys, next - 1, end);
                index = next;
            } else {
                let until = end_of(&self.keys, index, end);
                let passes = test.passes(self.states[index]);
                counted = lines_of_run(start, until, passes, counted);
                index += 1;
                start = until;
            }
        }
        counted
    }

    /// The lesser of the least so far and the least key that a state of the numbers from `first` up to
    /// `end` has.
    pub(crate) fn find_least<K: Key<S>>(
        &self,
        first: u64,
        end: u64,
        key: &K,
        least: Option<u32>,
    ) -> Option<u32>
        ensures { IsLowered (λ d b. K.key key.now (leaf_state self.now d b)) first end least result }
    {
        let mut index = start_of(&self.keys, first, self.hint);
        let mut start = first;
        let mut lowest = least;
        while start < end {
            let until = end_of(&self.keys, index, end);
            let own = key.key(self.states[index]);
            lowest = lesser(lowest, least_of_run(start, until, own));
            index += 1;
            start = until;
        }
        lowest
    }
}
