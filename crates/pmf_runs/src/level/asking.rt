//! Questions about the states of a range in a level, each one walk over its parts.

ghost use Rattle.std.specs.Prelude.{◌≡◌, ◌<◌, ◌≤◌, ◌-◌, ℕ, false, get_or, vec_len};
ghost use Rattle.pmf_runs.specs.{Ranks.{rank}, Walks.{end_of}};

use crate::level::Level;
use crate::part::Part;
use crate::state::{Key, State, Test};
use crate::walk::{Counted, end_of, start_of};

impl<P> Level<P> {
    ghost use Rattle.pmf_event.specs.Ranges.{first_from, least_from, lesser};
    ghost use Rattle.pmf_runs.specs.{Levels.{level_state}, Lines.{counted_from}, Walks.{IsLowered}};

    /// The least number from `first` up to `end` whose state passes.
    pub(crate) fn find_first<S: State, T: Test<S>>(
        &self,
        first: u64,
        end: u64,
        test: &T,
    ) -> Option<u64>
    where
        P: Part<S>,
        ensures { (d : S) → result ≡ first_from (λ b. T.passes test.now (level_state P.state self.now d b)) first (end - first) }
    {
        let mut index = start_of(&self.keys, first, self.hint);
        let mut start = first;
        while start < end {
            let found = self.first_in_part(index, start, end, test);
            if found.is_some() {
                return found;
            }
            if index == self.keys.len() {
                return None;
            }
            start = self.keys[index];
            index += 1;
        }
        None
    }

    /// The least number whose state passes, from `start` up to `end` in the part of `start`, which is not
    /// asked where no state of it may pass.
    #[inline(always)]
    fn first_in_part<S: State, T: Test<S>>(
        &self,
        index: usize,
        start: u64,
        end: u64,
        test: &T,
    ) -> Option<u64>
    where
        P: Part<S>,
        requires some { start < end }
        requires rank { index ≡ rank self.now.keys.items start }
        ensures { (d : S) → result ≡ first_from (λ b. T.passes test.now (level_state P.state self.now d b)) start (end_of self.now.keys.items index end - start) }
    {
        let part = &self.parts[index];
        if !test.may_pass(part.summary()) {
            return None;
        }
        part.first_where(start, end_of(&self.keys, index, end), test)
    }

    /// How many runs of its parts have a state that passes.
    pub(crate) fn count_runs<S: State, T: Test<S>>(&self, test: &T) -> usize
    where
        P: Part<S>,
    {
        let mut count = 0usize;
        for i in 0..self.parts.len() {
            count = count.saturating_add(self.parts[i].count_runs(test));
        }
        count
    }

    /// The count of lines with those that have a number from `first` up to `end` whose state passes.
    pub(crate) fn count_lines<S: State, T: Test<S>>(
        &self,
        first: u64,
        end: u64,
        test: &T,
        so_far: Counted,
    ) -> Counted
    where
        P: Part<S>,
        requires { so_far.count ≤ so_far.next }
        ensures is { (d : S) → result ≡ counted_from (λ b. T.passes test.now (level_state P.state self.now d b)) first (end - first) so_far }
        ensures bound { result.count ≤ result.next }
    {
        let mut index = start_of(&self.keys, first, self.hint);
        let mut start = first;
        let mut counted = so_far;
        while start < end {
            let next = self.next_that_may(index, test);
            if next > index {
                start = end_of(&self.keys, next - 1, end);
                index = next;
            } else {
                let until = end_of(&self.keys, index, end);
                counted = self.parts[index].count_lines(start, until, test, counted);
                index += 1;
                start = until;
            }
        }
        counted
    }

    /// The first part from that of the index on of which a state may pass, or one past the last.
    #[inline(always)]
    fn next_that_may<S: State, T: Test<S>>(&self, index: usize, test: &T) -> usize
    where
        P: Part<S>,
        requires { index < vec_len self.now.parts }
        ensures from { index ≤ result }
        ensures within { result ≤ vec_len self.now.parts }
        ensures none { (k : ℕ) (p : P) (d : S) (b : ℕ) → index ≤ k → k < result → T.passes test.now (P.state (get_or self.now.parts.items k p) d b) ≡ false }
    {
        for i in index..self.parts.len() {
            if test.may_pass(self.parts[i].summary()) {
                return i;
            }
        }
        self.parts.len()
    }

    /// The lesser of the least so far and the least key that a state of the numbers from `first` up to
    /// `end` has. If the range goes on behind its first part, the part that likely has the least key is
    /// asked before the rest, so that the walk passes over most other parts.
    pub(crate) fn find_least<S: State, K: Key<S>>(
        &self,
        first: u64,
        end: u64,
        key: &K,
        least: Option<u32>,
    ) -> Option<u32>
    where
        P: Part<S>,
        ensures { IsLowered (λ d b. K.key key.now (level_state P.state self.now d b)) first end least result }
    {
        if first >= end {
            return least;
        }
        let index = start_of(&self.keys, first, self.hint);
        let until = end_of(&self.keys, index, end);
        let lowest = self.parts[index].least_key(first, until, key, least);
        if until >= end {
            return lowest;
        }
        let lowered = self.lowered(index, until, end, key, lowest);
        self.least_onward(until, end, key, lowered)
    }

    /// The lesser of the least so far and the least key of one part within the range, the one that likely has the
    /// least of all. The lesser of it and of the range's least key stays what it was.
    fn lowered<S: State, K: Key<S>>(
        &self,
        from: usize,
        first: u64,
        end: u64,
        key: &K,
        least: Option<u32>,
    ) -> Option<u32>
    where
        P: Part<S>,
        ensures { (d : S) → lesser result (least_from (λ b. K.key key.now (level_state P.state self.now d b)) first (end - first)) ≡ lesser least (least_from (λ b. K.key key.now (level_state P.state self.now d b)) first (end - first)) }
    {
        let at = self.likely(from, end, key, least);
        if at < first {
            return least;
        }
        if at >= end {
            return least;
        }
        let index = start_of(&self.keys, at, self.hint);
        let until = end_of(&self.keys, index, end);
        self.parts[index].least_key(at, until, key, least)
    }

    /// Where the part with the least bound begins, of those behind the part of the index whose numbers all lie below
    /// the end: at the end if the first of them may not lower the least so far, as where keys rise. It bears on speed
    /// alone.
    fn likely<S: State, K: Key<S>>(&self, from: usize, end: u64, key: &K, least: Option<u32>) -> u64
    where
        P: Part<S>,
    {
        let mut at = end;
        let mut bound = u32::MAX;
        for i in from..self.keys.len() {
            let next = i + 1;
            if next == self.keys.len() || self.keys[next] > end {
                return at;
            }
            let summary = self.parts[next].summary();
            if i == from && !key.may_lower(summary, least) {
                return at;
            }
            let own = key.bound(summary).unwrap_or(u32::MAX);
            if own < bound {
                at = self.keys[i];
                bound = own;
            }
        }
        at
    }

    /// The lesser of the least so far and the least key that a state of the numbers from `first` up to
    /// `end` has, by a walk over the parts from the front.
    fn least_onward<S: State, K: Key<S>>(
        &self,
        first: u64,
        end: u64,
        key: &K,
        least: Option<u32>,
    ) -> Option<u32>
    where
        P: Part<S>,
        ensures { IsLowered (λ d b. K.key key.now (level_state P.state self.now d b)) first end least result }
    {
        let mut index = start_of(&self.keys, first, self.hint);
        let mut start = first;
        let mut lowest = least;
        while start < end {
            let until = end_of(&self.keys, index, end);
            lowest = self.parts[index].least_key(start, until, key, lowest);
            index += 1;
            start = until;
        }
        lowest
    }
}
