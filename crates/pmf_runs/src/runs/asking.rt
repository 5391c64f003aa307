//! Questions about the states of a range. Each is one walk over the runs that lie in it.

ghost use Rattle.std.specs.Prelude.{◌≡◌, ◌-◌, ◌/◌, ◌%◌};

use crate::runs::RunMap;
use crate::state::{Key, State, Test};
use crate::walk::{Counted, first_of_run, least_of_run, lines_of_run};

impl<S: State> RunMap<S> {
    ghost use Rattle.pmf_event.specs.{declared.span.TheConstants.{LINE_SIZE}, Ranges.{first_from, count_from, least_from}};
    ghost use Rattle.pmf_runs.specs.{Runs.{passing, keyed}, Lines.{line_has}};

    /// The least number from `first` up to `end` whose state passes. An empty range has none, also one
    /// whose end is below its first number. The walk ends at the first run that passes.
    pub fn first_where<T: Test<S>>(&self, first: u64, end: u64, test: &T) -> Option<u64>
        ensures { result ≡ first_from (passing (T.passes test.now) self.now) first (end - first) }
    {
        if end <= first {
            return None;
        }
        match &self.root {
            None => first_of_run(first, end, test.passes(self.gap)),
            Some(root) => root.find_first(first, end, test),
        }
    }

    /// How many of the cache lines from `first` up to `end`, at each of which a line begins, have a number
    /// whose state passes.
    pub fn count_lines<T: Test<S>>(&self, first: u64, end: u64, test: &T) -> u64
        requires first { first % LINE_SIZE ≡ 0 }
        requires end { end % LINE_SIZE ≡ 0 }
        ensures { result ≡ count_from (line_has (passing (T.passes test.now) self.now))
            (first / LINE_SIZE) (end / LINE_SIZE - first / LINE_SIZE) }
    {
        let none = Counted { count: 0, next: 0 };
        match &self.root {
            None => lines_of_run(first, end, test.passes(self.gap), none).count,
            Some(root) => root.count_lines(first, end, test, none).count,
        }
    }

    /// How many runs have a state that passes: the one in front of the first change, which may have no number, too. Where two leaves
    /// meet, neighbouring ones may have one state. It takes a step for each run of the leaves in which a state may pass.
    pub fn count_runs<T: Test<S>>(&self, test: &T) -> usize {
        match &self.root {
            None => usize::from(test.passes(self.gap)),
            Some(root) => root.count_runs(test),
        }
    }

    /// The least key that a state of the numbers from `first` up to `end` has, if one of them has any.
    /// Of the groups that the range reaches the first is asked, then the one with the least bound,
    /// and then those whose summaries may have a lesser key than was found; and so of the leaves of a group. If bounds
    /// are those of a summary's states, at most three of each are asked, in whatever order the keys lie.
    pub fn least_key<K: Key<S>>(&self, first: u64, end: u64, key: &K) -> Option<u32>
        ensures { result ≡ least_from (keyed (K.key key.now) self.now) first (end - first) }
    {
        if end <= first {
            return None;
        }
        match &self.root {
            None => least_of_run(first, end, key.key(self.gap)),
            Some(root) => root.find_least(first, end, key, None),
        }
    }
}
