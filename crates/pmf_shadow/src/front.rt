//! The states of bytes: of lines in front by their words, and of all others by a map of runs.

ghost use Rattle.std.specs.Prelude.{◌≡◌, ◌*◌, ◌-◌, ◌%◌, ◌≤◌, get_or, if◌then◌else◌, ◌/◌, ◌<◌, ◌+◌, ℕ, length, is_some, nat_eq, true, false, IfSome, OnOk, OnErr, Ok, None, Some};
ghost use Rattle.std.specs.HashMap.{get, hash_map_len};
ghost use Rattle.pmf_runs.specs.Lines.{line_has};
ghost use Rattle.pmf_shadow.specs.{Orders.{AreListed}, Words.{AreLow, AreWords}};

use crate::byte::ByteState;
use crate::line::{Line, WORD_SIZE, lesser, step};
use crate::order::Order;
use pmf_event::LINE_SIZE;
use pmf_runs::{Change, Key, RunMap, Test};
use std::alloc::{AllocError, Global};
use std::collections::HashMap;

/// How many bytes a change may have in front.
const MOST: u64 = 256;

/// A walk of so many lines or fewer, or of one in so many of those in front, looks for each of them.
const FEW_LINES: u64 = 64;

const FEW_OF: usize = 16;

/// Lines are put behind before so many walks over all of them.
const WALKS: usize = 8;

/// How many times a line is to be changed in front, so that it pays to take it there.
const PAYS: usize = 8;

/// Whether a word begins at both bounds, and few lines lie between them.
fn are_words(first: u64, end: u64) -> bool
    requires { first < end }
    ensures { result ≡ true → AreWords first end }
{
    first % WORD_SIZE == 0 && end % WORD_SIZE == 0 && end - first <= MOST
}

/// Whether a line is taken in front, which matters for speed alone. Where lines are put behind after few changes of each, or can't be taken more
/// often than they are changed, more and more changes go behind at once: as many as there were of these and of lines, and twice those before.
#[derive(Clone, Copy, Debug, Drop)]
struct Taking {
    /// How many lines may be in front.
    most: usize,
    /// So many changes of lines that are not in front go behind before one is taken.
    wait: usize,
    /// How many waited before.
    pause: usize,
    /// Changes in front since then.
    changes: usize,
    /// Lines that could not be taken since then, as their bytes have several states behind.
    uneven: usize,
    /// Steps over lines in front since then, on walks over all of them.
    steps: usize,
}

impl Taking {
    fn new(most: usize) -> Taking {
        Taking {
            most,
            wait: 0,
            pause: 0,
            changes: 0,
            uneven: 0,
            steps: 0,
        }
    }

    /// Whether so many lines are to be walked over once more, and not put behind.
    fn is_to_walk(&mut self, lines: usize) -> bool {
        self.steps = self.steps.saturating_add(lines);
        self.steps / WALKS < lines
    }

    /// Whether a line is taken, where so many are in front.
    fn is_now(&mut self, lines: usize) -> bool {
        if self.wait > 0 {
            self.wait -= 1;
            return false;
        }
        lines < self.most
    }

    #[inline(always)]
    fn has_changed(&mut self) {
        self.changes = self.changes.wrapping_add(1);
    }

    /// A line is uneven behind.
    fn has_failed(&mut self) {
        self.uneven = self.uneven.wrapping_add(1);
        if self.changes < self.uneven {
            self.has_put_behind(self.uneven);
        }
    }

    /// So many lines were put behind.
    fn has_put_behind(&mut self, lines: usize) {
        self.pause = if self.changes / PAYS < lines {
            let more = self.changes.saturating_add(lines);
            self.pause.saturating_mul(2).saturating_add(more)
        } else {
            0
        };
        self.wait = self.pause;
        self.changes = 0;
        self.uneven = 0;
        self.steps = 0;
    }
}

/// The states of all bytes.
#[derive(Debug, Drop)]
pub(crate) struct ByteMap {
    front: HashMap<u64, Line>,
    behind: RunMap<ByteState>,
    taking: Taking,
    /// The numbers of the lines in front, if they were put in order since a line was taken.
    order: Order,
    is_ordered: bool,
    alloc: Global,
    ghost low: { AreLow (λ line. is_some (get nat_eq front line)) },
    ghost listed: { AreListed is_ordered order.numbers.items (λ line. is_some (get nat_eq front line)) },
}

impl ByteMap {
    ghost use Rattle.pmf_shadow.specs.Bytes.{state_at, KeepsStates, ChangesBetween, ChangesFront, IsLineOf, AreAlike, AreInFront, AreBehind, line_at, passing, keyed};
    ghost use Rattle.pmf_runs.specs.Runs as behind;
    ghost use Rattle.pmf_event.specs.Ranges.{first_from, count_from, least_from};
    ghost use Rattle.pmf_event.specs.declared.span.TheConstants.{ADDRESS_LIMIT};

    /// The map in which each byte has this state, with so many lines in front at most. It takes no memory.
    #[tactic(auto, using(crate::proofs::FrontLemmas::gap_is))]
    pub(crate) fn new(alloc: Global, gap: ByteState, most: usize) -> ByteMap
        ensures { (b : ℕ) → state_at result b ≡ gap }
    {
        ByteMap {
            front: HashMap::new(alloc),
            behind: RunMap::new(alloc, gap),
            taking: Taking::new(most),
            order: Order::new(alloc),
            is_ordered: true,
            alloc,
        }
    }

    /// The state of a byte.
    #[tactic(auto, using(crate::proofs::FrontLemmas::at_front, crate::proofs::FrontLemmas::at_behind))]
    pub(crate) fn at(&self, byte: u64) -> ByteState
        ensures { result ≡ state_at self.now byte }
    {
        match self.front.get(&(byte / 64)) {
            Some(line) => line.words[(byte % 64 / 8) as usize],
            None => self.behind.at(byte),
        }
    }

    /// Changes the states of the bytes from one word up to another of a line, if it is in front, and tells whether it is.
    #[inline(always)]
    fn change_on<C: Change<ByteState>>(
        &mut self,
        line: u64,
        from: usize,
        upto: usize,
        change: &C,
    ) -> bool
        requires upto { upto ≤ 8 }
        ensures changes { result ≡ true → ChangesBetween (64 * line + 8 * from) (64 * line + 8 * upto) (C.changed change.now) self.old self.new }
        ensures unchanged { result ≡ false → KeepsStates self.old self.new }
        ensures there { result ≡ is_some (get nat_eq self.old.front line) }
        ensures front { (b : ℕ) → is_some (line_at self.new b) ≡ is_some (line_at self.old b) }
    {
        match self.front.get_mut(&line) {
            None => false,
            Some(found) => {
                found.change(from, upto, change);
                self.taking.has_changed();
                true
            }
        }
    }

    /// Takes a line in front, if it can be, and tells whether it is there. No state is changed.
    fn take(&mut self, line: u64) -> Result<bool, AllocError>
        requires { 64 * line + 64 ≤ ADDRESS_LIMIT }
        ensures same { KeepsStates self.old self.new }
        ensures there { (result ≡ Ok true) → is_some (get nat_eq self.new.front line) ≡ true }
        ensures others { (q : ℕ) → is_some (get nat_eq self.old.front q) ≡ true → is_some (get nat_eq self.new.front q) ≡ true }
    {
        if self.front.contains_key(&line) {
            return Ok(true);
        }
        match self.to_take(line) {
            None => Ok(false),
            Some(found) => {
                self.is_ordered = false;
                match self.front.insert(line, found) {
                    Ok(_) => Ok(true),
                    Err(_) => Err(AllocError),
                }
            }
        }
    }

    /// The states of the words of a line that is to be taken in front, if it is now, and all its bytes have one state behind.
    fn to_take(&mut self, line: u64) -> Option<Line>
        requires { 64 * line + 64 ≤ ADDRESS_LIMIT }
        ensures front { self.new.front ≡ self.old.front }
        ensures same { KeepsStates self.old self.new }
        ensures even { IfSome result (IsLineOf (behind.state_at self.new.behind) line) }
    {
        if !self.taking.is_now(self.front.len()) {
            return None;
        }
        let found = Line::of_one(&self.behind, line);
        if found.is_none() {
            self.taking.has_failed();
        }
        found
    }

    /// Takes a line that is in front out of there. No state is changed.
    fn spill(&mut self, line: u64) -> Result<(), AllocError>
        requires room { 64 * line + 64 ≤ ADDRESS_LIMIT }
        ensures same { KeepsStates self.old self.new }
        ensures gone { OnOk result (get nat_eq self.new.front line ≡ None) }
        ensures others { (q : ℕ) → get nat_eq self.old.front q ≡ None → get nat_eq self.new.front q ≡ None }
    {
        let found = match self.front.get(&line) {
            None => return Ok(()),
            Some(found) => *found,
        };
        found.put_into(&mut self.behind, line)?;
        self.front.remove(&line);
        Ok(())
    }

    /// Changes the states of the bytes from `first` up to `end`, which is not one of them. An empty range takes no memory.
    /// After an `Err`, which is want of memory, each byte has the state that it had.
    pub(crate) fn change<C: Change<ByteState>>(
        &mut self,
        first: u64,
        end: u64,
        change: &C,
    ) -> Result<(), AllocError>
        requires { end ≤ ADDRESS_LIMIT }
        ensures ok { OnOk result (ChangesBetween first end (C.changed change.now) self.old self.new) }
        ensures unchanged { OnErr result (KeepsStates self.old self.new) }
    {
        if end <= first {
            return Ok(());
        }
        if self.taking.most == 0 {
            return self.change_behind(first, end, change);
        }
        if !are_words(first, end) {
            return self.change_behind(first, end, change);
        }
        let line = first / LINE_SIZE;
        if end > (line + 1) * LINE_SIZE {
            return self.change_more(first, end, change);
        }
        let from = (first % LINE_SIZE / WORD_SIZE) as usize;
        let upto = from + ((end - first) / WORD_SIZE) as usize;
        if self.change_on(line, from, upto, change) {
            return Ok(());
        }
        self.change_absent(line, from, upto, change)
    }

    /// Changes the states of words of a line that is not in front, and takes it there if it can be.
    #[inline(never)]
    fn change_absent<C: Change<ByteState>>(
        &mut self,
        line: u64,
        from: usize,
        upto: usize,
        change: &C,
    ) -> Result<(), AllocError>
        requires room { 64 * line + 64 ≤ ADDRESS_LIMIT }
        requires order { from < upto }
        requires upto { upto ≤ 8 }
        requires absent { get nat_eq self.old.front line ≡ None }
        ensures ok { OnOk result (ChangesBetween (64 * line + 8 * from) (64 * line + 8 * upto) (C.changed change.now) self.old self.new) }
        ensures unchanged { OnErr result (KeepsStates self.old self.new) }
    {
        match self.to_take(line) {
            None => self.change_line_behind(line, from, upto, change),
            Some(found) => self.take_changed(line, found, from, upto, change),
        }
    }

    /// Takes a line in front whose words are changed.
    fn take_changed<C: Change<ByteState>>(
        &mut self,
        line: u64,
        found: Line,
        from: usize,
        upto: usize,
        change: &C,
    ) -> Result<(), AllocError>
        requires room { 64 * line + 64 ≤ ADDRESS_LIMIT }
        requires upto { upto ≤ 8 }
        requires absent { get nat_eq self.old.front line ≡ None }
        requires even { IsLineOf (behind.state_at self.old.behind) line found }
        ensures ok { OnOk result (ChangesBetween (64 * line + 8 * from) (64 * line + 8 * upto) (C.changed change.now) self.old self.new) }
        ensures unchanged { OnErr result (KeepsStates self.old self.new) }
    {
        let mut changed = found;
        changed.change(from, upto, change);
        self.is_ordered = false;
        match self.front.insert(line, changed) {
            Ok(_) => {
                self.taking.has_changed();
                Ok(())
            }
            Err(_) => Err(AllocError),
        }
    }

    /// Changes the states of words of a line that is not in front in the map of runs.
    fn change_line_behind<C: Change<ByteState>>(
        &mut self,
        line: u64,
        from: usize,
        upto: usize,
        change: &C,
    ) -> Result<(), AllocError>
        requires room { 64 * line + 64 ≤ ADDRESS_LIMIT }
        requires order { from < upto }
        requires upto { upto ≤ 8 }
        requires absent { get nat_eq self.old.front line ≡ None }
        ensures ok { OnOk result (ChangesBetween (64 * line + 8 * from) (64 * line + 8 * upto) (C.changed change.now) self.old self.new) }
        ensures unchanged { OnErr result (KeepsStates self.old self.new) }
    {
        let first = LINE_SIZE * line;
        self.behind.change(
            first + WORD_SIZE * from as u64,
            first + WORD_SIZE * upto as u64,
            change,
        )
    }

    /// Changes the states of words that lie on several lines.
    #[inline(never)]
    fn change_more<C: Change<ByteState>>(
        &mut self,
        first: u64,
        end: u64,
        change: &C,
    ) -> Result<(), AllocError>
        requires words { AreWords first end }
        requires room { end ≤ ADDRESS_LIMIT }
        ensures ok { OnOk result (ChangesBetween first end (C.changed change.now) self.old self.new) }
        ensures unchanged { OnErr result (KeepsStates self.old self.new) }
    {
        if self.take_all(first / LINE_SIZE, (end - 1) / LINE_SIZE)? {
            self.change_words(first, end, change);
            return Ok(());
        }
        self.change_behind(first, end, change)
    }

    /// Changes the states of the words of a range whose lines are all in front.
    fn change_words<C: Change<ByteState>>(&mut self, first: u64, end: u64, change: &C)
        requires words { AreWords first end }
        requires there { AreInFront self.old (first / 64) ((end - 1) / 64) }
        ensures { ChangesBetween first end (C.changed change.now) self.old self.new }
    {
        let mut at = first;
        while at < end {
            let line = at / LINE_SIZE;
            let stop = end.min((line + 1) * LINE_SIZE);
            let from = (at % LINE_SIZE / WORD_SIZE) as usize;
            let upto = from + ((stop - at) / WORD_SIZE) as usize;
            self.change_on(line, from, upto, change);
            at = stop;
        }
    }

    /// Takes lines in front, if all can be, and tells whether they are there. No state is changed.
    fn take_all(&mut self, first: u64, last: u64) -> Result<bool, AllocError>
        requires { 64 * last + 64 ≤ ADDRESS_LIMIT }
        ensures same { KeepsStates self.old self.new }
        ensures there { (result ≡ Ok true) → AreInFront self.new first last }
    {
        for line in first..last + 1 {
            if !self.take(line)? {
                return Ok(false);
            }
        }
        Ok(true)
    }

    /// Changes the states of a range in the map of runs, where its lines are put before.
    #[inline(never)]
    fn change_behind<C: Change<ByteState>>(
        &mut self,
        first: u64,
        end: u64,
        change: &C,
    ) -> Result<(), AllocError>
        requires some { first < end }
        requires room { end ≤ ADDRESS_LIMIT }
        ensures ok { OnOk result (ChangesBetween first end (C.changed change.now) self.old self.new) }
        ensures unchanged { OnErr result (KeepsStates self.old self.new) }
    {
        if self.front.is_empty() {
            return self.behind.change(first, end, change);
        }
        let (low, high) = (first / LINE_SIZE, (end - 1) / LINE_SIZE);
        if self.are_many(high - low) {
            return self.change_both(first, end, change);
        }
        self.spill_lines(low, high)?;
        self.behind.change(first, end, change)
    }

    /// Whether so many lines are not looked for one by one.
    fn are_many(&self, lines: u64) -> bool {
        lines > FEW_LINES.max((self.front.len() / FEW_OF) as u64)
    }

    /// Changes the states of a range behind and in front, but for those lines in front that it meets in part, which are put behind before.
    #[inline(never)]
    fn change_both<C: Change<ByteState>>(
        &mut self,
        first: u64,
        end: u64,
        change: &C,
    ) -> Result<(), AllocError>
        requires some { first < end }
        requires room { end ≤ ADDRESS_LIMIT }
        ensures ok { OnOk result (ChangesBetween first end (C.changed change.now) self.old self.new) }
        ensures unchanged { OnErr result (KeepsStates self.old self.new) }
    {
        let (low, high) = (first / LINE_SIZE, (end - 1) / LINE_SIZE);
        self.make_ready()?;
        self.spill(low)?;
        self.spill(high)?;
        self.change_runs(first, end, change)?;
        self.change_front(low, high + 1, change);
        Ok(())
    }

    /// Changes the states of a range in the map of runs alone.
    fn change_runs<C: Change<ByteState>>(
        &mut self,
        first: u64,
        end: u64,
        change: &C,
    ) -> Result<(), AllocError>
        ensures front { self.new.front ≡ self.old.front }
        ensures ok { OnOk result (behind.ChangesBetween first end (C.changed change.now) self.old.behind self.new.behind) }
        ensures unchanged { OnErr result (KeepsStates self.old self.new) }
    {
        self.behind.change(first, end, change)
    }

    /// Changes all states of the lines in front from the first one up to the end.
    fn change_front<C: Change<ByteState>>(&mut self, first: u64, end: u64, change: &C)
        requires { first ≤ end }
        ensures { ChangesFront first end (C.changed change.now) self.old self.new }
    {
        let mut hint = 0;
        let mut line = first;
        while line < end {
            let at = self.next_front(line, end, &mut hint);
            if at == end {
                return;
            }
            self.change_on(at, 0, 8, change);
            line = at + 1;
        }
    }

    /// The least line in front from this one on, if it is below the end, or else the end; or this one, where they are not in order.
    #[inline(always)]
    fn next_front(&self, line: u64, end: u64, hint: &mut usize) -> u64
        requires { line ≤ end }
        ensures from { line ≤ result }
        ensures upto { result ≤ end }
        ensures none { (q : ℕ) → line ≤ q → q < result → get nat_eq self.now.front q ≡ None }
    {
        if !self.is_ordered {
            return line;
        }
        self.order.next(line, end, hint)
    }

    /// Takes the lines from the first to the last out of the front. No state is changed.
    fn spill_lines(&mut self, first: u64, last: u64) -> Result<(), AllocError>
        requires order { first ≤ last }
        requires room { 64 * last + 64 ≤ ADDRESS_LIMIT }
        ensures same { KeepsStates self.old self.new }
        ensures behind { OnOk result (AreBehind self.new first last) }
    {
        for number in first..last + 1 {
            self.spill(number)?;
        }
        Ok(())
    }

    /// Makes ready for a walk over so many lines. No state is changed.
    pub(crate) fn make_ready_for(&mut self, lines: u64) -> Result<(), AllocError>
        ensures { KeepsStates self.old self.new }
    {
        if !self.are_many(lines) {
            return Ok(());
        }
        self.make_ready()
    }

    /// Whether the lines in front are to be walked over once more, and not put behind. No state is changed.
    fn is_to_walk(&mut self) -> bool
        ensures { KeepsStates self.old self.new }
    {
        self.taking.is_to_walk(self.front.len())
    }

    /// Puts the lines in front in order, or behind, where they were walked over often. No state is changed.
    fn make_ready(&mut self) -> Result<(), AllocError>
        ensures { KeepsStates self.old self.new }
    {
        if !self.is_to_walk() {
            return self.settle();
        }
        if self.is_ordered {
            return Ok(());
        }
        self.order = Order::of(self.alloc, &self.front)?;
        self.is_ordered = true;
        Ok(())
    }

    /// Whether a walk passes over what lies between two lines in front in one step.
    pub(crate) fn is_ready(&self) -> bool {
        self.is_ordered || self.front.is_empty()
    }

    /// Puts all lines behind. No state is changed.
    pub(crate) fn settle(&mut self) -> Result<(), AllocError>
        ensures same { KeepsStates self.old self.new }
        ensures none { OnOk result (hash_map_len self.new.front ≡ 0) }
    {
        if self.front.is_empty() {
            return Ok(());
        }
        self.taking.has_put_behind(self.front.len());
        Line::put_all(&self.front, &mut self.behind)?;
        self.front = HashMap::new(self.alloc);
        self.order = Order::new(self.alloc);
        self.is_ordered = true;
        Ok(())
    }

    /// The least byte from `first` up to `end` whose state passes. An empty range has none, also one whose end is below
    /// its first number. Where lines are in front it takes a step for each line of the range, or, where they are in order, for each of
    /// them in the range and for what lies between two.
    pub(crate) fn first_where<T: Test<ByteState>>(
        &self,
        first: u64,
        end: u64,
        test: &T,
    ) -> Option<u64>
        ensures { result ≡ first_from (passing (T.passes test.now) self.now) first (end - first) }
    {
        if self.front.is_empty() {
            return self.behind.first_where(first, end, test);
        }
        let mut hint = 0;
        let mut at = first;
        while at < end {
            let stop = self.next(at, end, &mut hint);
            let found = self.first_on(at, stop, test);
            if found.is_some() {
                return found;
            }
            at = stop;
        }
        None
    }

    /// Where the bytes end, at most at the end, that are all on one line in front, or all behind.
    #[inline(always)]
    fn next(&self, first: u64, end: u64, hint: &mut usize) -> u64
        requires { first < end }
        ensures from { first < result }
        ensures upto { result ≤ end }
        ensures alike { AreAlike self.now first result }
    {
        let stop = step(first, end, LINE_SIZE);
        if stop == end {
            return end;
        }
        let line = first / LINE_SIZE;
        let last = (end - 1) / LINE_SIZE;
        let found = self.next_front(line, last, hint);
        if found == line {
            return stop;
        }
        found * LINE_SIZE
    }

    /// The same for bytes that are all on one line in front, or all behind.
    pub(crate) fn first_on<T: Test<ByteState>>(&self, first: u64, end: u64, test: &T) -> Option<u64>
        requires { AreAlike self.now first end }
        ensures { result ≡ first_from (passing (T.passes test.now) self.now) first (end - first) }
    {
        match self.front.get(&(first / LINE_SIZE)) {
            None => self.behind.first_where(first, end, test),
            Some(line) => line.first_where(first, end, test),
        }
    }

    /// The least key that a state of the bytes from `first` up to `end` has, if one of them has any. It takes as many steps.
    pub(crate) fn least_key<K: Key<ByteState>>(&self, first: u64, end: u64, key: &K) -> Option<u32>
        ensures { result ≡ least_from (keyed (K.key key.now) self.now) first (end - first) }
    {
        if self.front.is_empty() {
            return self.behind.least_key(first, end, key);
        }
        let mut hint = 0;
        let mut least = None;
        let mut at = first;
        while at < end {
            let stop = self.next(at, end, &mut hint);
            least = lesser(least, self.least_on(at, stop, key));
            at = stop;
        }
        least
    }

    /// The same for bytes that are all on one line in front, or all behind.
    fn least_on<K: Key<ByteState>>(&self, first: u64, end: u64, key: &K) -> Option<u32>
        requires { AreAlike self.now first end }
        ensures { result ≡ least_from (keyed (K.key key.now) self.now) first (end - first) }
    {
        match self.front.get(&(first / LINE_SIZE)) {
            None => self.behind.least_key(first, end, key),
            Some(line) => line.least_key(first, end, key),
        }
    }

    /// How many of the cache lines from `first` up to `end`, by their numbers, have a byte whose state passes. It takes as many steps.
    pub(crate) fn count_lines<T: Test<ByteState>>(&self, first: u64, end: u64, test: &T) -> u64
        requires order { first ≤ end }
        requires room { 64 * end ≤ ADDRESS_LIMIT }
        ensures { result ≡ count_from (line_has (passing (T.passes test.now) self.now)) first (end - first) }
    {
        if self.front.is_empty() {
            return self
                .behind
                .count_lines(LINE_SIZE * first, LINE_SIZE * end, test);
        }
        let mut hint = 0;
        let mut count = 0;
        let mut line = first;
        while line < end {
            let found = self.next_front(line, end, &mut hint);
            let next = found.max(line + 1);
            count = self.with_lines(line, next, test, count);
            line = next;
        }
        count
    }

    /// A count with those of the lines that have a byte whose state passes. They are one line in front, or all behind.
    fn with_lines<T: Test<ByteState>>(&self, line: u64, next: u64, test: &T, count: u64) -> u64
        requires low { 64 * next ≤ ADDRESS_LIMIT }
        requires some { line < next }
        requires few { count ≤ line }
        requires alike { AreAlike self.now (64 * line) (64 * next) }
        ensures is { result ≡ count + count_from (line_has (passing (T.passes test.now) self.now)) line (next - line) }
        ensures few { result ≤ next }
    {
        let first = LINE_SIZE * line;
        match self.front.get(&line) {
            None => count + self.behind.count_lines(first, LINE_SIZE * next, test),
            Some(found) => {
                if found.first_where(first, first + LINE_SIZE, test).is_some() {
                    count + 1
                } else {
                    count
                }
            }
        }
    }

    /// How many runs have a state that passes, of those behind, and words of those in front.
    pub(crate) fn count_runs<T: Test<ByteState>>(&self, test: &T) -> usize {
        self.behind
            .count_runs(test)
            .saturating_add(self.front.len().saturating_mul(8))
    }
}
