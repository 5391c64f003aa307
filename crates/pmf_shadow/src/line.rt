//! The states of the words of a cache line.

ghost use Rattle.std.specs.Prelude.{◌≡◌, ◌*◌, ◌-◌, ◌%◌, ◌≤◌, get_or, ◌/◌, ◌<◌, ◌+◌, ℕ, length, true, nat_eq, is_some, IfSome, OnOk, OnErr, None, Some};
ghost use Rattle.pmf_event.specs.Ranges.{lesser};
ghost use Rattle.pmf_event.specs.declared.span.TheConstants.{ADDRESS_LIMIT};
ghost use Rattle.pmf_runs.specs.Runs as behind;
ghost use Rattle.pmf_shadow.specs.Words.{AreLow, HaveState, IsStep};
ghost use Rattle.std.specs.HashMap.{get};

use crate::byte::{Bounds, ByteState, HasOther};
use pmf_event::LINE_SIZE;
use pmf_runs::{Change, Effect, Key, RunMap, State, Test};
use std::alloc::AllocError;
use std::collections::HashMap;

/// How many bytes a word has.
pub(crate) const WORD_SIZE: u64 = 8;

/// Where the line or the word of so many bytes ends that this byte is on, or the range, if that ends before.
#[inline(always)]
pub(crate) fn step(byte: u64, end: u64, size: u64) -> u64
    requires some { byte < end }
    requires size { 0 < size }
    ensures { IsStep byte end size result }
{
    let left = size - byte % size;
    if end - byte <= left { end } else { byte + left }
}

/// The states of the eight words of a cache line.
#[derive(Clone, Copy, Debug, Drop)]
pub(crate) struct Line {
    pub(crate) words: [ByteState; 8],
    ghost full: { length words ≡ 8 },
}

impl Line {
    ghost use Rattle.pmf_shadow.specs.{declared.line.Line.{Line}, Bytes.{IsLineOf}};

    /// The states of the words of a line as a map of runs has them, if all are one.
    pub(crate) fn of_one(runs: &RunMap<ByteState>, number: u64) -> Option<Line>
        requires { 64 * number + 64 ≤ ADDRESS_LIMIT }
        ensures { IfSome result (IsLineOf (behind.state_at runs.now) number) }
    {
        let first = LINE_SIZE * number;
        let state = state_of(runs, first, first + LINE_SIZE)?;
        Some(Line { words: [state; 8] })
    }

    /// Puts the states of its words into a map of runs, where that has others. After an `Err`, which is want of memory, some may be put.
    pub(crate) fn put_into(
        &self,
        runs: &mut RunMap<ByteState>,
        number: u64,
    ) -> Result<(), AllocError>
        requires { 64 * number + 64 ≤ ADDRESS_LIMIT }
        ensures put { OnOk result (IsLineOf (behind.state_at runs.new) number self.now) }
        ensures others { (b : ℕ) → (b / 64 ≡ number → ⊥) → behind.state_at runs.new b ≡ behind.state_at runs.old b }
    {
        let first = LINE_SIZE * number;
        let even = state_of(runs, first, first + LINE_SIZE);
        let mut word = 0;
        while word < 8 {
            let upto = self.run_end(word);
            put_words(runs, number, word, upto, self.words[word], even)?;
            word = upto;
        }
        Ok(())
    }

    /// Puts the states of the words of all lines into a map of runs, where that has others.
    pub(crate) fn put_all(
        lines: &HashMap<u64, Line>,
        runs: &mut RunMap<ByteState>,
    ) -> Result<(), AllocError>
        requires { AreLow (λ number. is_some (get nat_eq lines.now number)) }
        ensures put { OnOk result ((number : ℕ) (line : Line) → get nat_eq lines.now number ≡ Some line → IsLineOf (behind.state_at runs.new) number line) }
        ensures others { (b : ℕ) → get nat_eq lines.now (b / 64) ≡ None → behind.state_at runs.new b ≡ behind.state_at runs.old b }
    {
        for (number, line) in lines.iter() {
            line.put_into(runs, *number)?;
        }
        Ok(())
    }
}

/// The one state of all bytes of a range, if they have one.
fn state_of(runs: &RunMap<ByteState>, first: u64, end: u64) -> Option<ByteState>
    requires { first < end }
    ensures { IfSome result (HaveState (behind.state_at runs.now) first end) }
{
    let state = runs.at(first);
    match runs.first_where(first, end, &HasOther { state }) {
        None => Some(state),
        Some(_) => None,
    }
}

/// Gives this state to words of a line, of which those from the first of them on have the even one, if there is one.
fn put_words(
    runs: &mut RunMap<ByteState>,
    number: u64,
    from: usize,
    upto: usize,
    state: ByteState,
    even: Option<ByteState>,
) -> Result<(), AllocError>
    requires room { 64 * number + 64 ≤ ADDRESS_LIMIT }
    requires order { from < upto }
    requires upto { upto ≤ 8 }
    requires even { IfSome even (HaveState (behind.state_at runs.old) (64 * number + 8 * from) (64 * number + 64)) }
    ensures put { OnOk result (behind.ChangesBetween (64 * number + 8 * from) (64 * number + 8 * upto) (λ s. state) runs.old runs.new) }
    ensures unchanged { OnErr result (behind.KeepsStates runs.old runs.new) }
{
    if are_same(even, state) {
        return Ok(());
    }
    let first = LINE_SIZE * number;
    runs.change(
        first + WORD_SIZE * from as u64,
        first + WORD_SIZE * upto as u64,
        &Become { state },
    )
}

/// Whether there is a state, and it is this one.
fn are_same(one: Option<ByteState>, state: ByteState) -> bool
    ensures { result ≡ true → one ≡ Some state }
{
    match one {
        None => false,
        Some(other) => !HasOther { state }.passes(other),
    }
}

/// What bytes become where a line is put behind.
#[derive(Clone, Copy, Debug, Drop)]
struct Become {
    state: ByteState,
}

impl Change<ByteState> for Become {
    ghost changed = { λ c s. c.state };

    fn changed(&self, _state: ByteState) -> ByteState {
        self.state
    }

    fn may_alter(&self, _summary: Bounds) -> bool {
        true
    }

    fn widened(&self, summary: Bounds) -> Bounds {
        ByteState::joined(summary, self.state.summary())
    }

    fn effect(&self, _summary: Bounds, _state: ByteState) -> Effect {
        Effect::Widens
    }
}

impl Line {
    ghost use Rattle.pmf_runs.specs.Ranks.{ChangesItems};

    /// Where the words of one state end that begin with this one.
    fn run_end(&self, word: usize) -> usize
        requires { word < 8 }
        ensures some { word < result }
        ensures upto { result ≤ 8 }
        ensures same { (k : ℕ) (d : ByteState) → word ≤ k → k < result → get_or self.now.words k d ≡ get_or self.now.words word d }
    {
        let test = HasOther {
            state: self.words[word],
        };
        let mut upto = word + 1;
        while upto < 8 && !test.passes(self.words[upto]) {
            upto += 1;
        }
        upto
    }

    /// Changes the states of the words from one place up to another.
    #[inline(always)]
    pub(crate) fn change<C: Change<ByteState>>(&mut self, from: usize, upto: usize, change: &C)
        requires { upto ≤ 8 }
        ensures { ChangesItems from upto (C.changed change.now) self.old.words self.new.words }
    {
        for word in from..upto {
            self.words[word] = change.changed(self.words[word]);
        }
    }
}

impl Line {
    ghost use Rattle.pmf_event.specs.Ranges.{first_from, least_from};

    /// The least of the bytes from `first` up to `end`, which lie on the line, whose word's state passes.
    pub(crate) fn first_where<T: Test<ByteState>>(
        &self,
        first: u64,
        end: u64,
        test: &T,
    ) -> Option<u64>
        requires { end ≤ 64 * (first / 64) + 64 }
        ensures { (d : ByteState) → result ≡ first_from (λ b. T.passes test.now (get_or self.now.words (b % 64 / 8) d)) first (end - first) }
    {
        let mut byte = first;
        while byte < end {
            if test.passes(self.words[(byte % LINE_SIZE / WORD_SIZE) as usize]) {
                return Some(byte);
            }
            byte = step(byte, end, WORD_SIZE);
        }
        None
    }

    /// The least key of the states of the words of the bytes from `first` up to `end`, which lie on the line.
    pub(crate) fn least_key<K: Key<ByteState>>(&self, first: u64, end: u64, key: &K) -> Option<u32>
        requires { end ≤ 64 * (first / 64) + 64 }
        ensures { (d : ByteState) → result ≡ least_from (λ b. K.key key.now (get_or self.now.words (b % 64 / 8) d)) first (end - first) }
    {
        let mut least = None;
        let mut byte = first;
        while byte < end {
            least = lesser(
                least,
                key.key(self.words[(byte % LINE_SIZE / WORD_SIZE) as usize]),
            );
            byte = step(byte, end, WORD_SIZE);
        }
        least
    }
}

/// The lesser of two numbers, either of which may be missing.
pub(crate) fn lesser(one: Option<u32>, other: Option<u32>) -> Option<u32>
    ensures { result ≡ lesser one other }
{
    match (one, other) {
        (None, _) => other,
        (_, None) => one,
        (Some(x), Some(y)) => Some(x.min(y)),
    }
}
