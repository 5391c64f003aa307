//! The lowest part of a map: at most 64 runs.

ghost use Rattle.std.specs.Prelude.{◌≡◌, false, Option, None, Some, ◌≤◌, ◌<◌, ◌+◌, ◌-◌, ℕ, true, OnOk, OnErr, IfOk, IfSome, get_or, length, vec_len, insert};
ghost use Rattle.pmf_runs.specs.Ranks.{Rises, rank, SameStates, ChangesItems, IsFresh, AltersWithin, IsStop, IsTail, LiesBefore, CoversAll, AllSettled};

use crate::keys::{high_rank, is_before, is_key, is_key_at, is_rank, low_rank, parting, rank_near};
use crate::room::{make_room, put_two};
use crate::state::{Change, Effect, State};
use std::alloc::{AllocError, Global};

mod asking;
#[cfg(test)]
mod counting;

/// How many runs behind the last change are looked at before all others.
const NEAR: usize = 8;

/// Runs of equal states: one state before the first key, and one from each key on.
#[derive(Debug, Drop)]
pub(crate) struct Leaf<S> {
    keys: Vec<u64>,
    states: Vec<S>,
    /// The run that was changed last. For speed alone.
    hint: usize,
    ghost ordered: { Rises keys.items },
    ghost counted: { vec_len states ≡ vec_len keys + 1 },
}

impl<S: State> Leaf<S> {
    ghost use Rattle.pmf_runs.specs.{Leaves.{leaf_state, leaf_begins, leaf_full, leaf_size, leaf_middle}, Spaces.{IsHalved}, Joined.{AreBounds, JoinedBut, JoinedBeside, InOrder, ChangesRange, ChangesCut, Halves}};

    /// The leaf in which each number has this state.
    #[tactic(auto, using(crate::proofs::RunRules::leaf_new))]
    pub(crate) fn new(alloc: Global, state: S) -> Result<Leaf<S>, AllocError>
        ensures states { IfOk result (λ leaf. (d : S) (b : ℕ) → leaf_state leaf d b ≡ state) }
        ensures joined { IfOk result (λ leaf. JoinedBut leaf None None) }
    {
        let mut states = Vec::new(alloc);
        states.push(state)?;
        Ok(Leaf {
            keys: Vec::new(alloc),
            states,
            hint: 0,
        })
    }

    /// The state of a number.
    #[tactic(auto, using(crate::proofs::RunRules::leaf_read))]
    pub(crate) fn state_of(&self, place: u64) -> S
        ensures { (d : S) → result ≡ leaf_state self.now d place }
    {
        self.states[rank_near(&self.keys, place, self.hint)]
    }

    /// Makes a run begin at this number, which changes no state.
    #[tactic(auto, using(crate::proofs::RunRules::leaf_begun))]
    pub(crate) fn begin(&mut self, place: u64) -> Result<(), AllocError>
        ensures begins { OnOk result (leaf_begins self.new place) }
        ensures kept { (b : ℕ) → leaf_begins self.old b → leaf_begins self.new b }
        ensures same { SameStates (leaf_state self.old) (leaf_state self.new) }
        ensures joined { OnOk result ((other : Option ℕ) → JoinedBut self.old other None → JoinedBut self.new other (Some place)) }
    {
        let index = rank_near(&self.keys, place, self.hint);
        if is_key(&self.keys, index, place) {
            return Ok(());
        }
        self.put_key(index, place)
    }

    /// Puts in a key at its rank. The same state holds on its two sides.
    #[inline(never)]
    #[tactic(auto, using(crate::proofs::RunRules::leaf_key))]
    fn put_key(&mut self, index: usize, place: u64) -> Result<(), AllocError>
        requires rank { index ≡ rank self.old.keys.items place }
        requires fresh { IsFresh self.old.keys.items place }
        ensures keys { OnOk result (self.new.keys.items ≡ insert self.old.keys.items index place) }
        ensures begins { OnOk result (leaf_begins self.new place) }
        ensures kept { (b : ℕ) → leaf_begins self.old b → leaf_begins self.new b }
        ensures same { SameStates (leaf_state self.old) (leaf_state self.new) }
        ensures joined { OnOk result ((other : Option ℕ) → JoinedBut self.old other None → JoinedBut self.new other (Some place)) }
    {
        let state = self.states[index];
        make_room(&mut self.states, 1)?;
        make_room(&mut self.keys, 1)?;
        self.keys.insert(index, place)?;
        match self.states.insert(index + 1, state) {
            Ok(()) => Ok(()),
            Err(_) => unreachable!(),
        }
    }

    /// Where the change alters states of the numbers from `first` up to `end`.
    #[inline(always)]
    #[tactic(auto, using(crate::proofs::RunRules::leaf_altered))]
    pub(crate) fn altered<C: Change<S>>(
        &self,
        first: u64,
        end: u64,
        change: &C,
        summary: S::Summary,
    ) -> Altered
        ensures { AltersWithin first end result.first result.end (C.changed change.now) (leaf_state self.now) }
    {
        let mut index = rank_near(&self.keys, first, self.hint);
        let mut altered = Altered {
            first: end,
            end,
            effect: Effect::None,
            near: index,
        };
        let mut start = first;
        while start < end {
            let stop = stop_of(&self.keys, index, end);
            altered = altered.after(start, stop, self.states[index], change, summary);
            index += 1;
            start = stop;
        }
        altered
    }

    /// Changes the states of the numbers from `first` up to `end`, the first of them likely in the run
    /// `near` or a few behind it. After an `Err` no state is changed.
    #[inline(always)]
    pub(crate) fn change_from<C: Change<S>>(
        &mut self,
        first: u64,
        end: u64,
        near: usize,
        change: &C,
    ) -> Result<(), AllocError>
        requires { first < end }
        ensures ok { OnOk result (ChangesRange leaf_state JoinedBut first end (C.changed change.now) self.old self.new) }
        ensures unchanged { OnErr result (SameStates (leaf_state self.old) (leaf_state self.new)) }
    {
        let index = rank_near(&self.keys, first, near);
        self.hint = index;
        if !is_before(&self.keys, index, end) {
            return self.change_across(first, end, change);
        }
        let run = self.cut_run(index, first, end)?;
        self.change_runs(run, run + 1, change);
        Ok(())
    }

    /// The same where the range is not of one run.
    #[inline(never)]
    fn change_across<C: Change<S>>(
        &mut self,
        first: u64,
        end: u64,
        change: &C,
    ) -> Result<(), AllocError>
        requires { first ≤ end }
        ensures ok { OnOk result (ChangesRange leaf_state JoinedBut first end (C.changed change.now) self.old self.new) }
        ensures unchanged { OnErr result (SameStates (leaf_state self.old) (leaf_state self.new)) }
    {
        self.begin(first)?;
        self.begin(end)?;
        self.change_all(Some(first), Some(end), change);
        Ok(())
    }

    /// Makes a run of a range that lies in the run of this index, which changes no state, and answers the
    /// index of its own.
    #[inline(always)]
    #[tactic(auto, using(crate::proofs::RunRules::leaf_cut))]
    fn cut_run(&mut self, index: usize, first: u64, end: u64) -> Result<usize, AllocError>
        requires rank { index ≡ rank self.old.keys.items first }
        requires order { first < end }
        requires within { LiesBefore self.old.keys.items index end }
        ensures run { IfOk result (λ run. run < vec_len self.new.states) }
        ensures bounds { IfOk result (λ run. AreBounds self.new (Some first) (Some end) run (run + 1)) }
        ensures same { SameStates (leaf_state self.old) (leaf_state self.new) }
        ensures joined { OnOk result (JoinedBut self.old None None → JoinedBut self.new (Some first) (Some end)) }
    {
        if is_key(&self.keys, index, first) {
            return self.cut_end(index, first, end);
        }
        if is_key_at(&self.keys, index, end) {
            self.put_key(index, first)?;
            return Ok(index + 1);
        }
        self.put_keys(index, first, end)?;
        Ok(index + 1)
    }

    /// The same where a run begins at the first number.
    #[inline(always)]
    #[tactic(auto, using(crate::proofs::RunRules::leaf_cut))]
    fn cut_end(&mut self, index: usize, first: u64, end: u64) -> Result<usize, AllocError>
        requires rank { index ≡ rank self.old.keys.items first }
        requires begins { leaf_begins self.old first }
        requires order { first < end }
        requires within { LiesBefore self.old.keys.items index end }
        ensures run { IfOk result (λ run. run < vec_len self.new.states) }
        ensures bounds { IfOk result (λ run. AreBounds self.new (Some first) (Some end) run (run + 1)) }
        ensures same { SameStates (leaf_state self.old) (leaf_state self.new) }
        ensures joined { OnOk result (JoinedBut self.old (Some first) None → JoinedBut self.new (Some first) (Some end)) }
    {
        if is_key_at(&self.keys, index, end) {
            return Ok(index);
        }
        self.put_key(index, end)?;
        Ok(index)
    }

    /// Puts in two keys at the rank of the first. The same state holds on all sides.
    #[inline(never)]
    #[tactic(auto, using(crate::proofs::RunRules::leaf_keys))]
    fn put_keys(&mut self, index: usize, first: u64, end: u64) -> Result<(), AllocError>
        requires rank { index ≡ rank self.old.keys.items first }
        requires fresh { IsFresh self.old.keys.items first }
        requires order { first < end }
        requires within { LiesBefore self.old.keys.items index (end + 1) }
        ensures run { OnOk result (index + 1 < vec_len self.new.states) }
        ensures bounds { OnOk result (AreBounds self.new (Some first) (Some end) (index + 1) (index + 1 + 1)) }
        ensures same { SameStates (leaf_state self.old) (leaf_state self.new) }
        ensures joined { OnOk result (JoinedBut self.old None None → JoinedBut self.new (Some first) (Some end)) }
    {
        let state = self.states[index];
        make_room(&mut self.states, 2)?;
        make_room(&mut self.keys, 2)?;
        put_two(&mut self.keys, index, first, end);
        put_two(&mut self.states, index + 1, state, state);
        Ok(())
    }

    /// A summary of the states.
    #[inline(never)]
    pub(crate) fn summary(&self) -> S::Summary
        ensures { CoversAll S.covers result (leaf_state self.now) }
    {
        let mut summary = self.states[0].summary();
        for i in 1..self.states.len() {
            summary = S::joined(summary, self.states[i].summary());
        }
        summary
    }

    /// How many runs there are. For speed alone.
    #[inline(always)]
    pub(crate) fn runs(&self) -> usize {
        self.states.len()
    }

    /// What becomes of the summary where the change alters states between two bounds: of the whole leaf, as the first
    /// state tells. For speed alone.
    pub(crate) fn effect_between<C: Change<S>>(
        &self,
        from: Option<u64>,
        end: Option<u64>,
        change: &C,
        summary: S::Summary,
    ) -> Effect {
        let low = low_rank(&self.keys, from, self.hint);
        let high = high_rank(&self.keys, end, self.hint).min(self.states.len());
        if low == 0 && high == self.states.len() {
            return change.effect(summary, self.states[0]);
        }
        let mut effect = Effect::None;
        for i in low..high {
            let state = self.states[i];
            if !change.changed(state).is_same(state) {
                effect = effect.or(change.effect(summary, state));
            }
        }
        effect
    }

    /// Whether a state is unsettled. Most often none is, and all are asked without a branch for each.
    #[inline(never)]
    pub(crate) fn has_unsettled(&self) -> bool
        ensures { result ≡ false → AllSettled S.unsettled (leaf_state self.now) }
    {
        if self.has_unsettled_near() {
            return true;
        }
        let mut found = false;
        for i in 0..self.states.len() {
            found |= self.states[i].is_unsettled();
        }
        found
    }

    /// Whether one of the states a little behind the last change is unsettled, as most often one is where
    /// any is. For speed alone.
    fn has_unsettled_near(&self) -> bool {
        let end = self.states.len().min(self.hint.saturating_add(NEAR));
        for i in self.hint..end {
            if self.states[i].is_unsettled() {
                return true;
            }
        }
        false
    }

    /// Changes the states between two bounds at which runs begin, and joins neighbours of equal state.
    /// It takes no memory.
    pub(crate) fn change_all<C: Change<S>>(
        &mut self,
        from: Option<u64>,
        end: Option<u64>,
        change: &C,
    )
        requires from { IfSome from (leaf_begins self.old) }
        requires end { IfSome end (leaf_begins self.old) }
        requires order { InOrder from end }
        ensures { ChangesCut leaf_state JoinedBut from end (C.changed change.now) self.old self.new }
    {
        let low = low_rank(&self.keys, from, self.hint);
        let high = high_rank(&self.keys, end, self.hint);
        self.change_runs(low, high, change);
    }

    /// The same for the runs from `low` up to `high`.
    #[inline(always)]
    fn change_runs<C: Change<S>>(&mut self, low: usize, high: usize, change: &C)
        requires { high ≤ vec_len self.old.states }
        ensures { (from end : Option ℕ) → AreBounds self.old from end low high → ChangesCut leaf_state JoinedBut from end (C.changed change.now) self.old self.new }
    {
        change_between(&mut self.states, low, high, change);
        self.join_between(low, high);
    }

    /// Joins the runs from the one before `low` up to the one of `high` where neighbours are equal.
    #[inline(always)]
    fn join_between(&mut self, low: usize, high: usize)
        ensures same { SameStates (leaf_state self.old) (leaf_state self.new) }
        ensures joined { JoinedBeside self.old low high → JoinedBut self.new None None }
    {
        let mut key = high.min(self.keys.len());
        while key > 0 && key >= low {
            key -= 1;
            self.join_at(key);
        }
    }

    /// Takes out a key where the states on its two sides are equal.
    #[inline(always)]
    fn join_at(&mut self, key: usize)
        requires { key < vec_len self.old.keys }
        ensures same { SameStates (leaf_state self.old) (leaf_state self.new) }
        ensures len { vec_len self.old.keys ≤ vec_len self.new.keys + 1 }
        ensures joined { (low : ℕ) → low ≤ key + 1 → JoinedBeside self.old low (key + 1) → JoinedBeside self.new low key }
    {
        let (before, after) = (self.states[key], self.states[key + 1]);
        if before.is_same(after) {
            self.take_out(key);
        }
    }

    /// Takes out a key with equal states on its two sides. Apart, so that the search for one is small.
    #[inline(never)]
    #[tactic(auto, using(crate::proofs::RunRules::leaf_taken))]
    fn take_out(&mut self, key: usize)
        requires within { key < vec_len self.old.keys }
        requires equal { (d : S) → get_or self.old.states.items key d ≡ get_or self.old.states.items (key + 1) d }
        ensures same { SameStates (leaf_state self.old) (leaf_state self.new) }
        ensures len { vec_len self.old.keys ≤ vec_len self.new.keys + 1 }
        ensures joined { (low : ℕ) → low ≤ key + 1 → JoinedBeside self.old low (key + 1) → JoinedBeside self.new low key }
    {
        self.keys.remove(key);
        self.states.remove(key + 1);
    }

    /// The state of all numbers from this one on, where it is one.
    pub(crate) fn tail(&self, place: u64) -> Option<S>
        ensures { IfSome result (IsTail (leaf_state self.now) place) }
    {
        let last = self.keys.len();
        if is_rank(&self.keys, last, place) {
            Some(self.states[last])
        } else {
            None
        }
    }

    /// Whether it should be split before more is put in.
    pub(crate) fn has_many(&self) -> bool
        ensures { result ≡ leaf_full self.now }
    {
        self.keys.len() >= 62
    }

    /// The key that it is split at before more is put in at this place.
    #[tactic(auto, using(crate::proofs::RunRules::leaf_middle))]
    pub(crate) fn middle_key(&self, place: u64) -> u64
        requires { leaf_full self.now ≡ true }
        ensures { result ≡ leaf_middle self.now place }
    {
        self.keys[parting(&self.keys, place)]
    }

    /// Hands out what lies from that key on. After an `Err` nothing is changed.
    #[tactic(auto, using(crate::proofs::RunRules::leaf_halves))]
    pub(crate) fn halve(&mut self, place: u64) -> Result<Leaf<S>, AllocError>
        requires { leaf_full self.old ≡ true }
        ensures ok { IfOk result (Halves leaf_state JoinedBut (leaf_middle self.old place) self.old self.new) }
        ensures halved { IfOk result (λ part. IsHalved (leaf_middle self.old place) place (leaf_size self.old) (leaf_size self.new) (leaf_size part)) }
        ensures unchanged { OnErr result (SameStates (leaf_state self.old) (leaf_state self.new)) }
    {
        let half = parting(&self.keys, place);
        let mut keys = Vec::new(*self.keys.allocator());
        keys.extend_from_slice(&self.keys[half + 1..])?;
        let states = self.states.split_off(half + 1)?;
        self.keys.truncate(half);
        Ok(Leaf {
            keys,
            states,
            hint: 0,
        })
    }
}

#[inline(always)]
fn change_between<S: State, C: Change<S>>(states: &mut [S], low: usize, high: usize, change: &C)
    requires { high ≤ length states.old }
    ensures { ChangesItems low high (C.changed change.now) states.old states.new }
{
    for i in low..high {
        states[i] = change.changed(states[i]);
    }
}

/// Where a change alters states, and what becomes of their summary.
#[derive(Clone, Copy, Debug, Drop)]
pub(crate) struct Altered {
    /// The first number whose state is altered.
    pub(crate) first: u64,
    /// The number after the last one. No state is altered unless it is above the first.
    pub(crate) end: u64,
    /// What becomes of the summary.
    pub(crate) effect: Effect,
    /// The run of the first number of the range. For speed alone.
    pub(crate) near: usize,
}

impl Altered {
    ghost use Rattle.pmf_runs.specs.Ranks.{Sees};

    /// The same after the next run, which begins at `start` and ends before `stop`.
    #[inline(always)]
    fn after<S: State, C: Change<S>>(
        self,
        start: u64,
        stop: u64,
        state: S,
        change: &C,
        summary: S::Summary,
    ) -> Altered
        ensures { Sees start stop state (C.changed change.now) self.first self.end result.first result.end }
    {
        if change.changed(state).is_same(state) {
            return self;
        }
        Altered {
            first: self.first.min(start),
            end: stop,
            effect: self.effect.or(change.effect(summary, state)),
            near: self.near,
        }
    }
}

/// Where the run of this index ends, or the range.
#[inline(always)]
fn stop_of(keys: &[u64], index: usize, end: u64) -> u64
    ensures { IsStop keys.now index end result }
{
    if index < keys.len() && keys[index] < end {
        return keys[index];
    }
    end
}
