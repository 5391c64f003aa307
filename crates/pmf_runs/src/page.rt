//! A leaf with its summary.

ghost use Rattle.std.specs.Prelude.{◌≡◌, ◌≤◌, ℕ, true, false, None, Some, OnOk, OnErr, IfOk, IfSome};
ghost use Rattle.pmf_runs.specs.{Ranks.{SameStates, CoversAll}, Joined.{JoinedBut, InOrder, ChangesRange, ChangesCut, Halves}, Leaves.{leaf_state, leaf_begins, leaf_full, leaf_size, leaf_middle}, Spaces.{IsHalved}};

use crate::leaf::Leaf;
use crate::part::Part;
use crate::state::{Change, Effect, Key, State, Test};
use crate::walk::Counted;
use std::alloc::AllocError;

#[cfg(test)]
mod counting;

/// One in so many of a leaf's runs are changed before a summary that they narrow is made anew.
const NARROWED: usize = 8;

/// A leaf, and a summary that covers its states.
#[derive(Drop)]
pub(crate) struct Page<S: State> {
    leaf: Leaf<S>,
    summary: S::Summary,
    /// How many changes narrowed it since it was made anew. For speed alone.
    narrowed: usize,
    ghost covered: { CoversAll S.covers summary (leaf_state leaf) },
}

impl<S: State> Page<S> {
    /// The page around this leaf.
    pub(crate) fn around(leaf: Leaf<S>) -> Page<S>
        ensures same { SameStates (leaf_state leaf) (leaf_state result.leaf) }
        ensures leaf { result.leaf ≡ leaf }
    {
        let summary = leaf.summary();
        Page {
            leaf,
            summary,
            narrowed: 0,
        }
    }

    /// Changes the states of a range that lies in the page.
    #[inline(always)]
    #[tactic(auto, using(crate::proofs::RunRules::page_changes))]
    fn change_range<C: Change<S>>(
        &mut self,
        first: u64,
        end: u64,
        change: &C,
    ) -> Result<Effect, AllocError>
        requires { first ≤ end }
        ensures ok { OnOk result (ChangesRange leaf_state JoinedBut first end (C.changed change.now) self.old.leaf self.new.leaf) }
        ensures unchanged { OnErr result (SameStates (leaf_state self.old.leaf) (leaf_state self.new.leaf)) }
    {
        if !change.may_alter(self.summary) {
            return Ok(Effect::None);
        }
        let altered = self.leaf.altered(first, end, change, self.summary);
        if altered.first >= altered.end {
            return Ok(Effect::None);
        }
        self.leaf
            .change_from(altered.first, altered.end, altered.near, change)?;
        let effect = put_off(&mut self.narrowed, self.leaf.runs(), altered.effect);
        let (summary, effect) = renewed(&self.leaf, change.widened(self.summary), effect);
        self.summary = summary;
        Ok(effect)
    }

    /// Changes the states between two bounds at which runs begin, and makes the summary anew. A change
    /// that alters nothing passes over the whole. Tells whether it may have altered a state.
    fn change_whole<C: Change<S>>(
        &mut self,
        from: Option<u64>,
        end: Option<u64>,
        change: &C,
    ) -> bool
        requires from { IfSome from (leaf_begins self.old.leaf) }
        requires end { IfSome end (leaf_begins self.old.leaf) }
        requires order { InOrder from end }
        ensures { ChangesCut leaf_state JoinedBut from end (C.changed change.now) self.old.leaf self.new.leaf }
    {
        let altered = change.may_alter(self.summary);
        if from.is_none() && end.is_none() && !altered {
            return false;
        }
        let effect = self.leaf.effect_between(from, end, change, self.summary);
        self.leaf.change_all(from, end, change);
        let effect = if effect == Effect::None || self.leaf.runs() < NARROWED {
            Effect::Remakes
        } else {
            put_off(&mut self.narrowed, self.leaf.runs(), effect)
        };
        let (summary, _) = renewed(&self.leaf, change.widened(self.summary), effect);
        self.summary = summary;
        altered
    }

    /// Hands out what lies from that key on. After an `Err` nothing is changed.
    fn halve(&mut self, place: u64) -> Result<Page<S>, AllocError>
        requires { leaf_full self.old.leaf ≡ true }
        ensures ok { IfOk result (λ part. Halves leaf_state JoinedBut (leaf_middle self.old.leaf place) self.old.leaf self.new.leaf part.leaf) }
        ensures halved { IfOk result (λ part. IsHalved (leaf_middle self.old.leaf place) place (leaf_size self.old.leaf) (leaf_size self.new.leaf) (leaf_size part.leaf)) }
        ensures unchanged { OnErr result (SameStates (leaf_state self.old.leaf) (leaf_state self.new.leaf)) }
    {
        let rest = self.leaf.halve(place)?;
        self.summary = self.leaf.summary();
        Ok(Page::around(rest))
    }
}

/// What becomes of the summary of so many runs, which is made anew once for several changes that narrow it. For speed alone.
#[inline(always)]
fn put_off(narrowed: &mut usize, runs: usize, effect: Effect) -> Effect {
    if effect != Effect::Narrows {
        return effect;
    }
    *narrowed = narrowed.wrapping_add(1);
    if *narrowed < runs / NARROWED {
        return Effect::Widens;
    }
    *narrowed = 0;
    effect
}

/// The summary of the leaf after a change that the wide one covers, and what becomes of the one above.
#[inline(always)]
fn renewed<S: State>(leaf: &Leaf<S>, wide: S::Summary, effect: Effect) -> (S::Summary, Effect)
    requires { CoversAll S.covers wide (leaf_state leaf.now) }
    ensures { CoversAll S.covers result.0 (leaf_state leaf.now) }
{
    match effect {
        Effect::None => (wide, effect),
        Effect::Widens => (wide, effect),
        Effect::Settles => {
            if leaf.has_unsettled() {
                (wide, Effect::Widens)
            } else {
                (S::settled(wide), effect)
            }
        }
        Effect::Narrows | Effect::Remakes => {
            let summary = leaf.summary();
            if S::are_alike(summary, wide) {
                (wide, Effect::Widens)
            } else {
                (summary, effect)
            }
        }
    }
}

impl<S: State> Part<S> for Page<S> {
    ghost state = { λ page. leaf_state page.leaf };

    ghost begins = { λ page. leaf_begins page.leaf };

    ghost joined = { λ page. JoinedBut page.leaf };

    ghost full = { λ page. leaf_full page.leaf };

    ghost size = { λ page. leaf_size page.leaf };

    ghost middle = { λ page place. leaf_middle page.leaf place };

    ghost makes_space = { λ place old new. new.leaf ≡ old.leaf };

    fn at(&self, place: u64) -> S {
        self.leaf.state_of(place)
    }

    fn summary(&self) -> S::Summary {
        self.summary
    }

    fn tail(&self, place: u64) -> Option<S> {
        self.leaf.tail(place)
    }

    fn is_full(&self) -> bool {
        self.leaf.has_many()
    }

    fn middle(&self, place: u64) -> u64 {
        self.leaf.middle_key(place)
    }

    fn split(&mut self, place: u64) -> Result<Page<S>, AllocError> {
        self.halve(place)
    }

    fn make_space(&mut self, _place: u64) -> Result<(), AllocError> {
        Ok(())
    }

    fn cut(&mut self, place: u64) -> Result<(), AllocError> {
        self.leaf.begin(place)?;
        Ok(())
    }

    fn change<C: Change<S>>(
        &mut self,
        first: u64,
        end: u64,
        change: &C,
    ) -> Result<Effect, AllocError> {
        self.change_range(first, end, change)
    }

    fn rewrite<C: Change<S>>(&mut self, from: Option<u64>, end: Option<u64>, change: &C) -> bool {
        self.change_whole(from, end, change)
    }

    #[tactic(auto, using(crate::proofs::RunRules::skipped))]
    fn first_where<T: Test<S>>(&self, first: u64, end: u64, test: &T) -> Option<u64> {
        if !test.may_pass(self.summary) {
            return None;
        }
        self.leaf.find_first(first, end, test)
    }

    #[tactic(auto, using(crate::proofs::RunRules::skipped))]
    fn count_lines<T: Test<S>>(&self, first: u64, end: u64, test: &T, so_far: Counted) -> Counted {
        if !test.may_pass(self.summary) {
            return so_far;
        }
        self.leaf.count_lines(first, end, test, so_far)
    }

    fn count_runs<T: Test<S>>(&self, test: &T) -> usize {
        if !test.may_pass(self.summary) {
            return 0;
        }
        self.leaf.count_runs(test)
    }

    #[tactic(auto, using(crate::proofs::RunRules::skipped))]
    fn least_key<K: Key<S>>(
        &self,
        first: u64,
        end: u64,
        key: &K,
        least: Option<u32>,
    ) -> Option<u32> {
        if !key.may_lower(self.summary, least) {
            return least;
        }
        self.leaf.find_least(first, end, key, least)
    }
}
