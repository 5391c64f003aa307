//! What the levels of a map are made of.

ghost use Rattle.std.specs.Prelude.{◌≡◌, ◌<◌, ◌≤◌, ◌-◌, ℕ, Bool, true, Option, None, Some, IfOk, OnOk, OnErr, IfSome};
ghost use Rattle.pmf_event.specs.Ranges.{first_from};
ghost use Rattle.pmf_runs.specs.{Lines.{counted_from}, Walks.{IsLowered}, Ranks.{SameStates, CoversAll, IsTail}, Joined.{InOrder, ChangesRange, ChangesCut, Halves}, Spaces.{IsHalved}};

use crate::state::{Change, Effect, Key, State, Test};
use crate::walk::Counted;
use std::alloc::AllocError;

/// A part of a map. It has a state for each number, and is asked for those that are handed to it.
pub(crate) trait Part<S: State>: Drop {
    ghost state: { Self → S → ℕ → S };

    ghost begins: { Self → ℕ → Type 0 };

    ghost joined: { Self → Option ℕ → Option ℕ → Type 0 };

    ghost full: { Self → Bool };

    ghost size: { Self → ℕ };

    ghost middle: { Self → ℕ → ℕ };

    ghost makes_space: { ℕ → Self → Self → Type 0 };

    /// The state of a number.
    fn at(&self, place: u64) -> S
        ensures { (d : S) → result ≡ state self.now d place };

    /// A summary that covers its states.
    fn summary(&self) -> S::Summary
        ensures { CoversAll S.covers result (state self.now) };

    /// The state of all numbers from this one on, where it is one.
    fn tail(&self, place: u64) -> Option<S>
        ensures { IfSome result (IsTail (state self.now) place) };

    /// Whether it should be split before more is put in.
    fn is_full(&self) -> bool
        ensures is { result ≡ full self.now }
        ensures some { result ≡ true → 0 < size self.now };

    /// The number at which it is split before more is put in at this place.
    fn middle(&self, place: u64) -> u64
        requires { full self.now ≡ true }
        ensures { result ≡ middle self.now place };

    /// Hands out what lies from that number on.
    fn split(&mut self, place: u64) -> Result<Self, AllocError>
        requires { full self.old ≡ true }
        ensures ok { IfOk result (Halves state joined (middle self.old place) self.old self.new) }
        ensures halved { IfOk result (λ part. IsHalved (middle self.old place) place (size self.old) (size self.new) (size part)) }
        ensures unchanged { OnErr result (SameStates (state self.old) (state self.new)) };

    /// Splits what is full on the way to the number.
    fn make_space(&mut self, place: u64) -> Result<(), AllocError>
        ensures same { SameStates (state self.old) (state self.new) }
        ensures joined { OnOk result (joined self.old None None → joined self.new None None) }
        ensures space { OnOk result (makes_space place self.old self.new) };

    /// Makes a run begin at the number, which changes no state.
    fn cut(&mut self, place: u64) -> Result<(), AllocError>
        ensures begins { OnOk result (begins self.new place) }
        ensures kept { (b : ℕ) → begins self.old b → begins self.new b }
        ensures same { SameStates (state self.old) (state self.new) }
        ensures first { OnOk result (joined self.old None None → joined self.new (Some place) None) }
        ensures second { OnOk result ((from : Option ℕ) → joined self.old from None → joined self.new from (Some place)) };

    /// Changes the states of the numbers from `first` up to `end`, and tells what becomes of a summary.
    /// After an `Err`, which is want of memory, each number has the state that it had.
    fn change<C: Change<S>>(
        &mut self,
        first: u64,
        end: u64,
        change: &C,
    ) -> Result<Effect, AllocError>
        requires { first ≤ end }
        ensures ok { OnOk result (ChangesRange state joined first end (C.changed change.now) self.old self.new) }
        ensures unchanged { OnErr result (SameStates (state self.old) (state self.new)) };

    /// Changes the states between two bounds at which runs begin, and tells whether it may have altered one, for
    /// speed alone. It takes no memory.
    fn rewrite<C: Change<S>>(&mut self, from: Option<u64>, end: Option<u64>, change: &C) -> bool
        requires from { IfSome from (begins self.old) }
        requires end { IfSome end (begins self.old) }
        requires order { InOrder from end }
        ensures { ChangesCut state joined from end (C.changed change.now) self.old self.new };

    /// The least number from `first` up to `end` whose state passes. An empty range has none, also one
    /// whose end is below its first number.
    fn first_where<T: Test<S>>(&self, first: u64, end: u64, test: &T) -> Option<u64>
        ensures { (d : S) → result ≡ first_from (λ b. T.passes test.now (state self.now d b)) first (end - first) };

    /// The count of lines with those that have a number from `first` up to `end` whose state passes.
    fn count_lines<T: Test<S>>(&self, first: u64, end: u64, test: &T, so_far: Counted) -> Counted
        requires { so_far.count ≤ so_far.next }
        ensures is { (d : S) → result ≡ counted_from (λ b. T.passes test.now (state self.now d b)) first (end - first) so_far }
        ensures bound { result.count ≤ result.next };

    /// How many of its runs have a state that passes. For speed alone.
    fn count_runs<T: Test<S>>(&self, test: &T) -> usize;

    /// The lesser of the least so far and the least key that a state of the numbers from `first` up to
    /// `end` has.
    fn least_key<K: Key<S>>(&self, first: u64, end: u64, key: &K, least: Option<u32>) -> Option<u32>
        ensures { IsLowered (λ d b. K.key key.now (state self.now d b)) first end least result };
}
