//! A level of pages with its summary.

ghost use Rattle.std.specs.Prelude.{◌≡◌, ◌≤◌, ℕ, true, false, None, Some, OnOk, OnErr, IfOk, IfSome};
ghost use Rattle.pmf_runs.specs.{Ranks.{SameStates, CoversAll}, Joined.{InOrder, ChangesRange, ChangesCut, Halves}, Levels.{level_full, level_size, level_middle}, Spaces.{IsHalved}, Pages.{pages_state, pages_begins, pages_joined, pages_space}};

use crate::flagged::Flagged;
use crate::level::Level;
use crate::page::Page;
use crate::part::Part;
use crate::state::{Change, Effect, Key, State, Test};
use crate::walk::Counted;
use std::alloc::AllocError;

#[cfg(test)]
mod counting;

/// A level of pages, and a summary that covers their states.
#[derive(Drop)]
pub(crate) struct Group<S: State> {
    level: Level<Flagged<Page<S>>>,
    summary: S::Summary,
    ghost covered: { CoversAll S.covers summary (pages_state level) },
}

impl<S: State> Group<S> {
    /// The group around this level.
    pub(crate) fn around(level: Level<Flagged<Page<S>>>) -> Group<S>
        ensures same { SameStates (pages_state level) (pages_state result.level) }
        ensures level { result.level ≡ level }
    {
        let summary = level.summary();
        Group { level, summary }
    }

    /// Changes the states of a range that lies in the group.
    #[inline(always)]
    fn change_range<C: Change<S>>(
        &mut self,
        first: u64,
        end: u64,
        change: &C,
    ) -> Result<Effect, AllocError>
        requires { first ≤ end }
        ensures ok { OnOk result (ChangesRange pages_state pages_joined first end (C.changed change.now) self.old.level self.new.level) }
        ensures unchanged { OnErr result (SameStates (pages_state self.old.level) (pages_state self.new.level)) }
    {
        if !change.may_alter(self.summary) {
            return Ok(Effect::None);
        }
        let done = self.level.change_range(first, end, change)?;
        let (summary, effect) = renewed(&self.level, change.widened(self.summary), done);
        self.summary = summary;
        Ok(effect)
    }

    /// Changes the states between two bounds at which runs begin, and makes the summary anew. A change
    /// that alters nothing passes over the whole. Tells whether it may have altered a state.
    fn change_whole<C: Change<S>>(
        &mut self,
        from: Option<u64>,
        end: Option<u64>,
        change: &C,
    ) -> bool
        requires from { IfSome from (pages_begins self.old.level) }
        requires end { IfSome end (pages_begins self.old.level) }
        requires order { InOrder from end }
        ensures { ChangesCut pages_state pages_joined from end (C.changed change.now) self.old.level self.new.level }
    {
        let altered = change.may_alter(self.summary);
        if from.is_none() && end.is_none() && !altered {
            return false;
        }
        self.level.change_all(from, end, change);
        self.summary = self.level.summary();
        altered
    }

    /// Hands out what lies from that key on. After an `Err` nothing is changed.
    fn halve(&mut self, place: u64) -> Result<Group<S>, AllocError>
        requires { level_full self.old.level ≡ true }
        ensures ok { IfOk result (λ part. Halves pages_state pages_joined (level_middle self.old.level place) self.old.level self.new.level part.level) }
        ensures halved { IfOk result (λ part. IsHalved (level_middle self.old.level place) place (level_size self.old.level) (level_size self.new.level) (level_size part.level)) }
        ensures unchanged { OnErr result (SameStates (pages_state self.old.level) (pages_state self.new.level)) }
    {
        let rest = self.level.halve(place)?;
        self.summary = self.level.summary();
        Ok(Group::around(rest))
    }
}

/// The summary of the level after a change that the wide one covers, and what becomes of the one above.
#[inline(always)]
fn renewed<S: State>(
    level: &Level<Flagged<Page<S>>>,
    wide: S::Summary,
    effect: Effect,
) -> (S::Summary, Effect)
    requires { CoversAll S.covers wide (pages_state level.now) }
    ensures { CoversAll S.covers result.0 (pages_state level.now) }
{
    match effect {
        Effect::None => (wide, effect),
        Effect::Widens => (wide, effect),
        Effect::Settles => {
            if level.has_unsettled() {
                (wide, Effect::Widens)
            } else {
                (S::settled(wide), effect)
            }
        }
        Effect::Narrows | Effect::Remakes => {
            let summary = level.summary();
            if S::are_alike(summary, wide) {
                (wide, Effect::Widens)
            } else {
                (summary, effect)
            }
        }
    }
}

impl<S: State> Part<S> for Group<S> {
    ghost state = { λ group. pages_state group.level };

    ghost begins = { λ group. pages_begins group.level };

    ghost joined = { λ group. pages_joined group.level };

    ghost full = { λ group. level_full group.level };

    ghost size = { λ group. level_size group.level };

    ghost middle = { λ group place. level_middle group.level place };

    ghost makes_space = { λ place old new. pages_space place new.level };

    fn at(&self, place: u64) -> S {
        self.level.state_of(place)
    }

    fn summary(&self) -> S::Summary {
        self.summary
    }

    fn tail(&self, place: u64) -> Option<S> {
        self.level.tail(place)
    }

    fn is_full(&self) -> bool {
        self.level.has_many()
    }

    fn middle(&self, place: u64) -> u64 {
        self.level.middle_key(place)
    }

    fn split(&mut self, place: u64) -> Result<Group<S>, AllocError> {
        self.halve(place)
    }

    fn make_space(&mut self, place: u64) -> Result<(), AllocError> {
        self.level.space_for(place)?;
        Ok(())
    }

    fn cut(&mut self, place: u64) -> Result<(), AllocError> {
        self.level.begin(place)?;
        Ok(())
    }

    fn change<C: Change<S>>(
        &mut self,
        first: u64,
        end: u64,
        change: &C,
    ) -> Result<Effect, AllocError> {
        self.change_range(first, end, change)
    }

    fn rewrite<C: Change<S>>(&mut self, from: Option<u64>, end: Option<u64>, change: &C) -> bool {
        self.change_whole(from, end, change)
    }

    #[tactic(auto, using(crate::proofs::RunRules::skipped))]
    fn first_where<T: Test<S>>(&self, first: u64, end: u64, test: &T) -> Option<u64> {
        if !test.may_pass(self.summary) {
            return None;
        }
        self.level.find_first(first, end, test)
    }

    #[tactic(auto, using(crate::proofs::RunRules::skipped))]
    fn count_lines<T: Test<S>>(&self, first: u64, end: u64, test: &T, so_far: Counted) -> Counted {
        if !test.may_pass(self.summary) {
            return so_far;
        }
        self.level.count_lines(first, end, test, so_far)
    }

    fn count_runs<T: Test<S>>(&self, test: &T) -> usize {
        if !test.may_pass(self.summary) {
            return 0;
        }
        self.level.count_runs(test)
    }

    #[tactic(auto, using(crate::proofs::RunRules::skipped))]
    fn least_key<K: Key<S>>(
        &self,
        first: u64,
        end: u64,
        key: &K,
        least: Option<u32>,
    ) -> Option<u32> {
        if !key.may_lower(self.summary, least) {
            return least;
        }
        self.level.find_least(first, end, key, least)
    }
}
