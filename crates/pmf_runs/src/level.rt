//! A level of a map: parts, and the keys between them.

ghost use Rattle.std.specs.Prelude.{◌≡◌, false, Option, None, Some, ◌≤◌, ◌<◌, ◌+◌, ◌-◌, ℕ, true, OnOk, OnErr, IfOk, IfSome, get_or, length, vec_len, ◌/◌};
ghost use Rattle.pmf_runs.specs.Ranks.{Rises, rank, SameStates, IsFresh, CoversAll, IsTail, AllSettled};

use crate::keys::{
    bound_at, high_rank, inner_bound, is_before, is_key, is_key_at, is_rank, low_rank, parting,
    rank_near, rank_of,
};
use crate::part::Part;
use crate::room::make_room;
use crate::state::{Change, Effect, State};
use std::alloc::{AllocError, Global};

mod asking;
#[cfg(test)]
mod counting;

/// The first and the last part in which a change may have altered a state. For speed alone: where nothing was altered,
/// nothing is to be joined.
#[derive(Clone, Copy, Debug, Drop)]
struct Touched {
    first: usize,
    last: usize,
}

impl Touched {
    const NONE: Touched = Touched {
        first: usize::MAX,
        last: 0,
    };

    /// The same with a later part, if the change may have altered a state in it.
    fn and(self, part: usize, altered: bool) -> Touched {
        if altered {
            Touched {
                first: self.first.min(part),
                last: part,
            }
        } else {
            self
        }
    }
}

/// Parts of a map, each with the numbers from its key up to the next one's.
#[derive(Debug, Drop)]
pub(crate) struct Level<P> {
    keys: Vec<u64>,
    parts: Vec<P>,
    /// The part that was changed last. For speed alone.
    hint: usize,
    ghost ordered: { Rises keys.items },
    ghost counted: { vec_len parts ≡ vec_len keys + 1 },
}

impl<P> Level<P> {
    ghost use Rattle.pmf_runs.specs.{Levels.{level_state, level_begins, level_full, level_size, level_middle, BeginsAt, GoesOn, IsFullAt, Rewrites}, Spaces.{IsHalved, HasSpace, MakesSpace, size_at}, Joined.{PartsJoined, JoinsParts, InOrder, ChangesRange, ChangesCut, Halves}};

    /// The level of one part.
    #[tactic(auto, using(crate::proofs::RunRules::level_new))]
    pub(crate) fn new<S: State>(alloc: Global, part: P) -> Result<Level<P>, AllocError>
    where
        P: Part<S>,
        ensures same { IfOk result (λ level. SameStates (P.state part) (level_state P.state level)) }
        ensures joined { IfOk result (λ level. P.joined part None None → PartsJoined P.joined level None None) }
    {
        let mut parts = Vec::new(alloc);
        parts.push(part)?;
        Ok(Level {
            keys: Vec::new(alloc),
            parts,
            hint: 0,
        })
    }

    /// The state that the part of the number gives it.
    #[tactic(auto, using(crate::proofs::RunRules::level_read))]
    pub(crate) fn state_of<S: State>(&self, place: u64) -> S
    where
        P: Part<S>,
        ensures { (d : S) → result ≡ level_state P.state self.now d place }
    {
        self.parts[rank_near(&self.keys, place, self.hint)].at(place)
    }

    /// Makes a run begin at the number, in the part that it is handed to.
    #[tactic(auto, using(crate::proofs::RunRules::level_begun))]
    pub(crate) fn begin<S: State>(&mut self, place: u64) -> Result<(), AllocError>
    where
        P: Part<S>,
        ensures begins { OnOk result (level_begins P.begins self.new place) }
        ensures kept { (b : ℕ) → level_begins P.begins self.old b → level_begins P.begins self.new b }
        ensures same { SameStates (level_state P.state self.old) (level_state P.state self.new) }
        ensures first { OnOk result (PartsJoined P.joined self.old None None → PartsJoined P.joined self.new (Some place) None) }
        ensures second { OnOk result ((from : Option ℕ) → PartsJoined P.joined self.old from None → PartsJoined P.joined self.new from (Some place)) }
    {
        let index = rank_of(&self.keys, place);
        if is_key(&self.keys, index, place) {
            return Ok(());
        }
        self.parts[index].cut(place)?;
        Ok(())
    }

    /// Splits what is full on the way to the number.
    #[tactic(auto, using(crate::proofs::RunRules::level_space))]
    pub(crate) fn space_for<S: State>(&mut self, place: u64) -> Result<(), AllocError>
    where
        P: Part<S>,
        ensures same { SameStates (level_state P.state self.old) (level_state P.state self.new) }
        ensures joined { OnOk result (PartsJoined P.joined self.old None None → PartsJoined P.joined self.new None None) }
        ensures space { OnOk result (MakesSpace P.full P.middle P.makes_space place self.new) }
    {
        self.split_full(place)?;
        let index = rank_of(&self.keys, place);
        self.parts[index].make_space(place)
    }

    /// Splits the part that the place is handed to until it is not full, before more is put in there. Once is enough
    /// for what lists hold at most; one that can't be split is left.
    #[tactic(auto, using(crate::proofs::RunRules::level_parts))]
    fn split_full<S: State>(&mut self, place: u64) -> Result<(), AllocError>
    where
        P: Part<S>,
        ensures same { SameStates (level_state P.state self.old) (level_state P.state self.new) }
        ensures joined { OnOk result (PartsJoined P.joined self.old None None → PartsJoined P.joined self.new None None) }
        ensures space { OnOk result (HasSpace P.full P.middle place self.new) }
    {
        let mut index = rank_of(&self.keys, place);
        while self.parts[index].is_full() {
            let middle = self.parts[index].middle(place);
            if rank_of(&self.keys, middle) != index {
                return Ok(());
            }
            if is_key(&self.keys, index, middle) {
                return Ok(());
            }
            self.split_at(index, middle, place)?;
            index = rank_of(&self.keys, place);
        }
        Ok(())
    }

    /// Splits a full part at its middle.
    #[tactic(auto, using(crate::proofs::RunRules::level_splits))]
    fn split_at<S: State>(
        &mut self,
        index: usize,
        middle: u64,
        place: u64,
    ) -> Result<(), AllocError>
    where
        P: Part<S>,
        requires place { index ≡ rank self.old.keys.items place }
        requires full { IsFullAt P.full (λ part. P.middle part place) self.old index middle }
        requires rank { index ≡ rank self.old.keys.items middle }
        requires fresh { IsFresh self.old.keys.items middle }
        ensures same { SameStates (level_state P.state self.old) (level_state P.state self.new) }
        ensures joined { OnOk result (PartsJoined P.joined self.old None None → PartsJoined P.joined self.new None None) }
        ensures halved { OnOk result (size_at P.size self.new place ≤ size_at P.size self.old place / 2) }
    {
        make_room(&mut self.keys, 1)?;
        make_room(&mut self.parts, 1)?;
        let part = self.parts[index].split(place)?;
        match self.keys.insert(index, middle) {
            Ok(()) => {}
            Err(_) => unreachable!(),
        }
        match self.parts.insert(index + 1, part) {
            Ok(()) => Ok(()),
            Err(_) => unreachable!(),
        }
    }

    /// The state of all numbers from this one on, where it is one.
    #[tactic(auto, using(crate::proofs::RunRules::level_tail))]
    pub(crate) fn tail<S: State>(&self, place: u64) -> Option<S>
    where
        P: Part<S>,
        ensures { IfSome result (IsTail (level_state P.state self.now) place) }
    {
        let last = self.keys.len();
        if is_rank(&self.keys, last, place) {
            self.parts[last].tail(place)
        } else {
            None
        }
    }

    /// Whether it should be split before more is put in.
    pub(crate) fn has_many(&self) -> bool
        ensures { result ≡ level_full self.now }
    {
        self.keys.len() >= 62
    }

    /// The key that it is split at before more is put in at this place.
    #[tactic(auto, using(crate::proofs::RunRules::level_middle))]
    pub(crate) fn middle_key(&self, place: u64) -> u64
        requires { level_full self.now ≡ true }
        ensures { result ≡ level_middle self.now place }
    {
        self.keys[parting(&self.keys, place)]
    }

    /// Hands out what lies from that key on. After an `Err` nothing is changed.
    #[tactic(auto, using(crate::proofs::RunRules::level_halves))]
    pub(crate) fn halve<S: State>(&mut self, place: u64) -> Result<Level<P>, AllocError>
    where
        P: Part<S>,
        requires { level_full self.old ≡ true }
        ensures ok { IfOk result (Halves (level_state P.state) (PartsJoined P.joined) (level_middle self.old place) self.old self.new) }
        ensures halved { IfOk result (λ part. IsHalved (level_middle self.old place) place (level_size self.old) (level_size self.new) (level_size part)) }
        ensures unchanged { OnErr result (SameStates (level_state P.state self.old) (level_state P.state self.new)) }
    {
        let half = parting(&self.keys, place);
        let mut keys = Vec::new(*self.keys.allocator());
        keys.extend_from_slice(&self.keys[half + 1..])?;
        let parts = self.parts.split_off(half + 1)?;
        self.keys.truncate(half);
        Ok(Level {
            keys,
            parts,
            hint: 0,
        })
    }

    /// Changes the states between two bounds at which runs begin, and takes out the parts that this has
    /// emptied. It takes no memory.
    pub(crate) fn change_all<S: State, C: Change<S>>(
        &mut self,
        from: Option<u64>,
        end: Option<u64>,
        change: &C,
    )
    where
        P: Part<S>,
        requires from { IfSome from (level_begins P.begins self.old) }
        requires end { IfSome end (level_begins P.begins self.old) }
        requires order { InOrder from end }
        ensures { ChangesCut (level_state P.state) (PartsJoined P.joined) from end (C.changed change.now) self.old self.new }
    {
        let touched = self.rewrite_all(from, end, change);
        self.join_between(touched.first, touched.last.saturating_add(1));
    }

    /// Joins the parts from the one before `low` up to the one of `high` where they need not be two.
    fn join_between<S: State>(&mut self, low: usize, high: usize)
    where
        P: Part<S>,
        ensures same { SameStates (level_state P.state self.old) (level_state P.state self.new) }
        ensures joined { PartsJoined P.joined self.old None None → PartsJoined P.joined self.new None None }
    {
        let mut key = high.min(self.keys.len());
        while key > 0 && key >= low {
            key -= 1;
            if self.goes_on(key) {
                self.join_at(key);
            }
        }
    }

    /// Whether the part after the key has one state, which is that of the part before it from there on.
    fn goes_on<S: State>(&self, key: usize) -> bool
    where
        P: Part<S>,
        requires { key < vec_len self.now.keys }
        ensures { result ≡ true → GoesOn P.state self.now key }
    {
        match self.parts[key + 1].tail(0) {
            None => false,
            Some(state) => match self.parts[key].tail(self.keys[key]) {
                None => false,
                Some(before) => before.is_same(state),
            },
        }
    }

    /// Takes out a part that the one before it stands for as well.
    #[tactic(auto, using(crate::proofs::RunRules::level_joins))]
    fn join_at<S: State>(&mut self, key: usize)
    where
        P: Part<S>,
        requires within { key < vec_len self.old.keys }
        requires goes_on { GoesOn P.state self.old key }
        ensures same { SameStates (level_state P.state self.old) (level_state P.state self.new) }
        ensures len { vec_len self.new.keys + 1 ≡ vec_len self.old.keys }
        ensures joined { PartsJoined P.joined self.old None None → PartsJoined P.joined self.new None None }
    {
        self.keys.remove(key);
        self.parts.remove(key + 1);
    }

    /// Changes the states between two bounds at which runs begin, part by part, and tells in which. It takes no memory.
    #[tactic(auto, using(crate::proofs::RunRules::level_rewritten))]
    fn rewrite_all<S: State, C: Change<S>>(
        &mut self,
        from: Option<u64>,
        end: Option<u64>,
        change: &C,
    ) -> Touched
    where
        P: Part<S>,
        requires from { IfSome from (level_begins P.begins self.old) }
        requires end { IfSome end (level_begins P.begins self.old) }
        requires order { InOrder from end }
        ensures { ChangesCut (level_state P.state) (PartsJoined P.joined) from end (C.changed change.now) self.old self.new }
    {
        let low = low_rank(&self.keys, from, self.hint);
        let first = inner_bound(&self.keys, low, from);
        let high = high_rank(&self.keys, end, self.hint);
        let last = inner_bound(&self.keys, high, end);
        if last.is_some() {
            self.change_parts(low, high, first, last, change)
        } else if high > 0 {
            self.change_parts(low, high - 1, first, last, change)
        } else {
            Touched::NONE
        }
    }

    /// Changes the parts from `low` to `high`, the first from its bound on and the last up to its bound.
    #[tactic(auto, using(crate::proofs::RunRules::parts_rewritten))]
    fn change_parts<S: State, C: Change<S>>(
        &mut self,
        low: usize,
        high: usize,
        from: Option<u64>,
        end: Option<u64>,
        change: &C,
    ) -> Touched
    where
        P: Part<S>,
        requires high { high < vec_len self.old.parts }
        requires from { IfSome from (λ b. BeginsAt P.begins self.old low b) }
        requires end { IfSome end (λ b. BeginsAt P.begins self.old high b) }
        requires order { InOrder from end }
        ensures keys { self.new.keys ≡ self.old.keys }
        ensures parts { Rewrites P.state (C.changed change.now) low high from end (high + 1) self.old.parts.items self.new.parts.items }
        ensures joins { JoinsParts P.joined low high from end (high + 1) self.old.parts.items self.new.parts.items }
    {
        let mut touched = Touched::NONE;
        for i in low..high + 1 {
            let (first, last) = (bound_at(low, i, from), bound_at(high, i, end));
            touched = touched.and(i, self.parts[i].rewrite(first, last, change));
        }
        touched
    }

    /// Changes the states of the numbers from `first` up to `end`. After an `Err` no state is changed.
    #[inline(always)]
    #[tactic(auto, using(crate::proofs::RunRules::in_level))]
    pub(crate) fn change_range<S: State, C: Change<S>>(
        &mut self,
        first: u64,
        end: u64,
        change: &C,
    ) -> Result<Effect, AllocError>
    where
        P: Part<S>,
        requires { first ≤ end }
        ensures ok { OnOk result (ChangesRange (level_state P.state) (PartsJoined P.joined) first end (C.changed change.now) self.old self.new) }
        ensures unchanged { OnErr result (SameStates (level_state P.state self.old) (level_state P.state self.new)) }
    {
        let index = rank_near(&self.keys, first, self.hint);
        if self.parts[index].is_full() {
            return self.change_full(index, first, end, change);
        }
        self.change_at(index, first, end, change)
    }

    /// The same where the part of the first number is full.
    #[cold]
    #[inline(never)]
    #[tactic(auto, using(crate::proofs::RunRules::in_level))]
    fn change_full<S: State, C: Change<S>>(
        &mut self,
        index: usize,
        first: u64,
        end: u64,
        change: &C,
    ) -> Result<Effect, AllocError>
    where
        P: Part<S>,
        requires order { first ≤ end }
        requires rank { index ≡ rank self.old.keys.items first }
        ensures ok { OnOk result (ChangesRange (level_state P.state) (PartsJoined P.joined) first end (C.changed change.now) self.old self.new) }
        ensures unchanged { OnErr result (SameStates (level_state P.state self.old) (level_state P.state self.new)) }
    {
        self.split_full(first)?;
        let index = rank_near(&self.keys, first, index);
        self.change_at(index, first, end, change)
    }

    /// The same where the part of the first number has room. A range that reaches a border of its part is not handed to the
    /// part: a run that is cut there would leave its old state beyond the border, where the part's summary takes it in.
    #[inline(always)]
    #[tactic(auto, using(crate::proofs::RunRules::level_changes))]
    fn change_at<S: State, C: Change<S>>(
        &mut self,
        index: usize,
        first: u64,
        end: u64,
        change: &C,
    ) -> Result<Effect, AllocError>
    where
        P: Part<S>,
        requires order { first ≤ end }
        requires rank { index ≡ rank self.old.keys.items first }
        requires space { HasSpace P.full P.middle first self.old }
        ensures ok { OnOk result (ChangesRange (level_state P.state) (PartsJoined P.joined) first end (C.changed change.now) self.old self.new) }
        ensures unchanged { OnErr result (SameStates (level_state P.state self.old) (level_state P.state self.new)) }
    {
        if !is_before(&self.keys, index, end) {
            return self.change_across(first, end, change);
        }
        if is_key(&self.keys, index, first) || is_key_at(&self.keys, index, end) {
            return self.change_across(first, end, change);
        }
        self.hint = index;
        self.parts[index].change(first, end, change)
    }

    /// The same where the range is not of one part.
    #[inline(never)]
    fn change_across<S: State, C: Change<S>>(
        &mut self,
        first: u64,
        end: u64,
        change: &C,
    ) -> Result<Effect, AllocError>
    where
        P: Part<S>,
        requires { first ≤ end }
        ensures ok { OnOk result (ChangesRange (level_state P.state) (PartsJoined P.joined) first end (C.changed change.now) self.old self.new) }
        ensures unchanged { OnErr result (SameStates (level_state P.state self.old) (level_state P.state self.new)) }
    {
        self.space_for(first)?;
        self.space_for(end)?;
        self.begin(first)?;
        self.begin(end)?;
        self.change_all(Some(first), Some(end), change);
        Ok(Effect::Narrows)
    }

    /// A summary of the states of all parts.
    #[inline(never)]
    pub(crate) fn summary<S: State>(&self) -> S::Summary
    where
        P: Part<S>,
        ensures { CoversAll S.covers result (level_state P.state self.now) }
    {
        let mut summary = self.parts[0].summary();
        for i in 1..self.parts.len() {
            summary = S::joined(summary, self.parts[i].summary());
        }
        summary
    }

    /// Whether a part may have an unsettled state.
    #[inline(never)]
    pub(crate) fn has_unsettled<S: State>(&self) -> bool
    where
        P: Part<S>,
        ensures { result ≡ false → AllSettled S.unsettled (level_state P.state self.now) }
    {
        for i in 0..self.parts.len() {
            if S::may_be_unsettled(self.parts[i].summary()) {
                return true;
            }
        }
        false
    }
}
