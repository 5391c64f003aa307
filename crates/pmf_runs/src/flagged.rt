//! A part of a map whose states may be yet to be given a flag.

ghost use Rattle.std.specs.Prelude.{◌≡◌, None, true, false, is_some};
ghost use Rattle.pmf_runs.specs.{Ranks.{SameStates, ChangesWithin}, Flags.{given, flagged_state, BeginsPlain, FlaggedJoined}};

use crate::part::Part;
use crate::state::{Change, Effect, Key, State, Test};
use crate::walk::Counted;
use std::alloc::AllocError;

#[cfg(test)]
mod counting;

/// A part, and the flag that all of its states are yet to be given, if there is one. So a flag that is given to a part again
/// and again is not given to each state.
#[derive(Debug, Drop)]
pub(crate) struct Flagged<P> {
    part: P,
    flag: Option<bool>,
}

/// Gives each state this flag.
#[derive(Clone, Copy, Debug, Drop)]
struct Give(bool);

impl<S: State> Change<S> for Give {
    ghost changed = { λ give s. S.flagged give.0 s };

    fn changed(&self, state: S) -> S {
        state.flagged(self.0)
    }

    fn may_alter(&self, _summary: S::Summary) -> bool {
        true
    }

    fn widened(&self, summary: S::Summary) -> S::Summary {
        S::joined(summary, S::summary_flagged(summary, self.0))
    }

    fn effect(&self, _summary: S::Summary, _state: S) -> Effect {
        Effect::Remakes
    }

    fn flag(&self) -> Option<bool> {
        Some(self.0)
    }
}

/// A question about states as they are once they are given the flag.
#[derive(Drop)]
struct AsFlagged<'a, T> {
    asked: &'a T,
    flag: bool,
}

impl<S: State, T: Test<S>> Test<S> for AsFlagged<'_, T> {
    ghost passes = { λ q s. T.passes q.asked.now (S.flagged q.flag s) };

    fn passes(&self, state: S) -> bool {
        self.asked.passes(state.flagged(self.flag))
    }

    fn may_pass(&self, summary: S::Summary) -> bool {
        self.asked.may_pass(S::summary_flagged(summary, self.flag))
    }
}

impl<S: State, K: Key<S>> Key<S> for AsFlagged<'_, K> {
    ghost key = { λ q s. K.key q.asked.now (S.flagged q.flag s) };

    fn key(&self, state: S) -> Option<u32> {
        self.asked.key(state.flagged(self.flag))
    }

    fn may_lower(&self, summary: S::Summary, least: Option<u32>) -> bool {
        self.asked
            .may_lower(S::summary_flagged(summary, self.flag), least)
    }

    fn bound(&self, summary: S::Summary) -> Option<u32> {
        self.asked.bound(S::summary_flagged(summary, self.flag))
    }
}

/// Whether there is no bound.
fn is_whole(from: Option<u64>, end: Option<u64>) -> bool
    ensures whole { result ≡ true → (from ≡ None) × (end ≡ None) }
    ensures bounded { result ≡ false → is_some from ≡ false → is_some end ≡ false → ⊥ }
{
    from.is_none() && end.is_none()
}

impl<P> Flagged<P> {
    /// The part as it is.
    #[tactic(auto, using(crate::proofs::RunRules::flagged_plain))]
    pub(crate) fn plain<S: State>(part: P) -> Flagged<P>
    where
        P: Part<S>,
        ensures same { SameStates (P.state part) (flagged_state S.flagged P.state result) }
        ensures joined { P.joined part None None → FlaggedJoined P.joined result None None }
    {
        Flagged { part, flag: None }
    }

    /// The state, once it is given the flag.
    #[inline(always)]
    fn given<S: State>(&self, state: S) -> S
        ensures { result ≡ given S.flagged self.now.flag state }
    {
        match self.flag {
            None => state,
            Some(flag) => state.flagged(flag),
        }
    }

    /// Gives the flag to the part.
    #[inline(always)]
    fn give<S: State>(&mut self)
    where
        P: Part<S>,
        ensures same { SameStates (flagged_state S.flagged P.state self.old) (flagged_state S.flagged P.state self.new) }
        ensures joined { FlaggedJoined P.joined self.old None None → FlaggedJoined P.joined self.new None None }
        ensures flag { self.new.flag ≡ None }
        ensures kept { self.old.flag ≡ None → self.new ≡ self.old }
    {
        if let Some(flag) = self.flag {
            self.part.rewrite(None, None, &Give(flag));
            self.flag = None;
        }
    }

    /// Changes all states, and tells whether it may have altered one.
    fn change_whole<S: State, C: Change<S>>(&mut self, change: &C) -> bool
    where
        P: Part<S>,
        ensures states { ChangesWithin None None (C.changed change.now) (flagged_state S.flagged P.state self.old) (flagged_state S.flagged P.state self.new) }
        ensures joined { FlaggedJoined P.joined self.old None None → FlaggedJoined P.joined self.new None None }
    {
        match change.flag() {
            None => {
                self.give();
                self.part.rewrite(None, None, change)
            }
            Some(flag) => {
                let altered = change.may_alter(self.summary());
                if altered {
                    self.flag = Some(flag);
                }
                altered
            }
        }
    }
}

impl<S: State, P: Part<S>> Part<S> for Flagged<P> {
    ghost state = { flagged_state S.flagged P.state };

    ghost begins = { BeginsPlain P.begins };

    ghost joined = { FlaggedJoined P.joined };

    ghost full = { λ flagged. P.full flagged.part };

    ghost size = { λ flagged. P.size flagged.part };

    ghost middle = { λ flagged place. P.middle flagged.part place };

    ghost makes_space = { λ place old new. P.makes_space place old.part new.part };

    fn at(&self, place: u64) -> S {
        self.given(self.part.at(place))
    }

    #[inline(always)]
    fn summary(&self) -> S::Summary {
        match self.flag {
            None => self.part.summary(),
            Some(flag) => S::summary_flagged(self.part.summary(), flag),
        }
    }

    fn tail(&self, place: u64) -> Option<S> {
        match self.part.tail(place) {
            None => None,
            Some(state) => Some(self.given(state)),
        }
    }

    fn is_full(&self) -> bool {
        self.part.is_full()
    }

    fn middle(&self, place: u64) -> u64 {
        self.part.middle(place)
    }

    fn split(&mut self, place: u64) -> Result<Flagged<P>, AllocError> {
        let part = self.part.split(place)?;
        Ok(Flagged {
            part,
            flag: self.flag,
        })
    }

    fn make_space(&mut self, place: u64) -> Result<(), AllocError> {
        self.part.make_space(place)
    }

    fn cut(&mut self, place: u64) -> Result<(), AllocError> {
        self.give();
        self.part.cut(place)?;
        Ok(())
    }

    #[inline(always)]
    fn change<C: Change<S>>(
        &mut self,
        first: u64,
        end: u64,
        change: &C,
    ) -> Result<Effect, AllocError> {
        self.give();
        let effect = self.part.change(first, end, change)?;
        Ok(effect)
    }

    fn rewrite<C: Change<S>>(&mut self, from: Option<u64>, end: Option<u64>, change: &C) -> bool {
        if is_whole(from, end) {
            return self.change_whole(change);
        }
        self.part.rewrite(from, end, change)
    }

    fn first_where<T: Test<S>>(&self, first: u64, end: u64, test: &T) -> Option<u64> {
        match self.flag {
            None => self.part.first_where(first, end, test),
            Some(flag) => self
                .part
                .first_where(first, end, &AsFlagged { asked: test, flag }),
        }
    }

    fn count_lines<T: Test<S>>(&self, first: u64, end: u64, test: &T, so_far: Counted) -> Counted {
        match self.flag {
            None => self.part.count_lines(first, end, test, so_far),
            Some(flag) => self
                .part
                .count_lines(first, end, &AsFlagged { asked: test, flag }, so_far),
        }
    }

    fn count_runs<T: Test<S>>(&self, test: &T) -> usize {
        match self.flag {
            None => self.part.count_runs(test),
            Some(flag) => self.part.count_runs(&AsFlagged { asked: test, flag }),
        }
    }

    fn least_key<K: Key<S>>(
        &self,
        first: u64,
        end: u64,
        key: &K,
        least: Option<u32>,
    ) -> Option<u32> {
        match self.flag {
            None => self.part.least_key(first, end, key, least),
            Some(flag) => self
                .part
                .least_key(first, end, &AsFlagged { asked: key, flag }, least),
        }
    }
}
