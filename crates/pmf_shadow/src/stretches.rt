//! Cache lines by their bytes: those with a byte that passes a test, found by stretches of such bytes.

ghost use Rattle.std.specs.Prelude.{◌≡◌, ℕ, ◌+◌, ◌-◌, ◌*◌, ◌/◌, ◌<◌, ◌≤◌, Bool, true, false};
ghost use Rattle.pmf_event.specs.{declared.span.TheConstants.{ADDRESS_LIMIT, LINE_SIZE}, Span.{IsValidExtent}, Ranges.{count_from, first_from}, FlushWarnings.{first_line, line_count}};
ghost use Rattle.pmf_shadow.specs.{declared.byte.ByteState.{ByteState}, Stretches.{AllHave, line_has_but, line_lacks, lines_at, lines_by}};
ghost use Rattle.pmf_shadow.specs.Bytes.{passing};
ghost use Rattle.pmf_runs.specs.Lines.{line_has};

use crate::byte::{ByteState, Fails};
use crate::shadow::Shadow;
use crate::totals::Totals;
use pmf_event::{LINE_SIZE, Lines, Span};
use pmf_runs::Test;

impl Shadow {
    /// Of the lines that the span meets, those with a byte that passes and without one that passes the
    /// other test, and those without a byte that passes: the least, and how many. What passes the other
    /// test passes the one, and what passes the one alone passes the third. Most often the span meets one
    /// line, and a byte of it passes the other test.
    #[tactic(auto, using(crate::proofs::ShadowRules::lines_apart), unfolding(crate::specs::Bytes::passing))]
    pub(crate) fn lines_apart<
        T: Test<ByteState> + Copy,
        U: Test<ByteState> + Copy,
        V: Test<ByteState>,
    >(&self, span: &Span, test: &T, other: &U, alone: &V) -> (Option<Lines>, Option<Lines>)
        requires both { (s : ByteState) → U.passes other.now s ≡ true → T.passes test.now s ≡ true }
        requires alone { (s : ByteState) → T.passes test.now s ≡ true → U.passes other.now s ≡ false
            → V.passes alone.now s ≡ true }
        ensures but { result.0 ≡ lines_by (line_has_but (passing (T.passes test.now) self.now.bytes)
            (passing (U.passes other.now) self.now.bytes)) span.now }
        ensures without { result.1 ≡ lines_by (line_lacks (passing (T.passes test.now) self.now.bytes)) span.now }
    {
        let (first, end) = lines_of(span);
        if end - first == 1 && self.has_on(first, other) {
            return (None, None);
        }
        let with = self.count_with(first, end, test);
        let but = self.lines_with_but(first, end, with, test, other, alone);
        let without = self.lines_without(first, first, end, with, test);
        (but, without)
    }

    /// The same of a span with these totals: so many lines have a byte that passes, and so many one that passes the other test.
    pub(crate) fn lines_counted<
        T: Test<ByteState> + Copy,
        U: Test<ByteState> + Copy,
        V: Test<ByteState>,
    >(
        &self,
        span: &Span,
        totals: &Totals,
        test: &T,
        other: &U,
        alone: &V,
    ) -> (Option<Lines>, Option<Lines>)
        requires counted { totals.now.undurable ≡ count_from (line_has (passing (T.passes test.now) self.now.bytes))
            (first_line span.now) (line_count span.now) }
        requires rest { totals.now.unwritten ≡ count_from (line_has (passing (U.passes other.now) self.now.bytes))
            (first_line span.now) (line_count span.now) }
        requires dense { AllHave (passing (T.passes test.now) self.now.bytes) totals.now.from totals.now.upto }
        requires both { (s : ByteState) → U.passes other.now s ≡ true → T.passes test.now s ≡ true }
        requires alone { (s : ByteState) → T.passes test.now s ≡ true → U.passes other.now s ≡ false
            → V.passes alone.now s ≡ true }
        ensures but { result.0 ≡ lines_by (line_has_but (passing (T.passes test.now) self.now.bytes)
            (passing (U.passes other.now) self.now.bytes)) span.now }
        ensures without { result.1 ≡ lines_by (line_lacks (passing (T.passes test.now) self.now.bytes)) span.now }
    {
        let (first, end) = lines_of(span);
        let (with, rest) = (totals.undurable, totals.unwritten);
        let but = self.lines_left(first, end, with, rest, test, other, alone);
        let known = totals.known(first, end);
        let without = self.lines_without(first, known, end, with, test);
        (but, without)
    }

    // The lines without a byte that passes, where so many have one, and each of those before the known one.
    #[tactic(auto, using(crate::proofs::ShadowRules::lines_without))]
    fn lines_without<T: Test<ByteState> + Copy>(
        &self,
        first: u64,
        known: u64,
        end: u64,
        with: u64,
        test: &T,
    ) -> Option<Lines>
        requires from { first ≤ known }
        requires ordered { known ≤ end }
        requires known { AllHave (passing (T.passes test.now) self.now.bytes) first known }
        requires room { end * LINE_SIZE ≤ ADDRESS_LIMIT }
        requires counted { with ≡ count_from (line_has (passing (T.passes test.now) self.now.bytes))
            first (end - first) }
        ensures { result ≡ lines_at (line_lacks (passing (T.passes test.now) self.now.bytes)) first (end - first) }
    {
        if with == end - first {
            return None;
        }
        let least = self.least_line_beyond(first, known, end, test)?;
        Some(Lines {
            least: least * LINE_SIZE,
            count: end - first - with,
        })
    }

    // The least line without a byte that passes, where each of those before the known one has one.
    #[tactic(auto, using(crate::proofs::ShadowRules::least_line_beyond))]
    fn least_line_beyond<T: Test<ByteState> + Copy>(
        &self,
        first: u64,
        known: u64,
        end: u64,
        test: &T,
    ) -> Option<u64>
        requires from { first ≤ known }
        requires ordered { known ≤ end }
        requires room { end * LINE_SIZE ≤ ADDRESS_LIMIT }
        requires known { AllHave (passing (T.passes test.now) self.now.bytes) first known }
        ensures { result ≡ first_from (line_lacks (passing (T.passes test.now) self.now.bytes))
            first (end - first) }
    {
        self.least_line_without(known, end, test)
    }

    // The lines with a byte that passes and without one that passes the other test, where so many have one
    // that passes.
    #[tactic(auto, using(crate::proofs::ShadowRules::lines_with_but), unfolding(crate::specs::Bytes::passing))]
    fn lines_with_but<T: Test<ByteState> + Copy, U: Test<ByteState> + Copy, V: Test<ByteState>>(
        &self,
        first: u64,
        end: u64,
        with: u64,
        test: &T,
        other: &U,
        alone: &V,
    ) -> Option<Lines>
        requires ordered { first ≤ end }
        requires room { end * LINE_SIZE ≤ ADDRESS_LIMIT }
        requires counted { with ≡ count_from (line_has (passing (T.passes test.now) self.now.bytes))
            first (end - first) }
        requires both { (s : ByteState) → U.passes other.now s ≡ true → T.passes test.now s ≡ true }
        requires alone { (s : ByteState) → T.passes test.now s ≡ true → U.passes other.now s ≡ false
            → V.passes alone.now s ≡ true }
        ensures { result ≡ lines_at (line_has_but (passing (T.passes test.now) self.now.bytes)
            (passing (U.passes other.now) self.now.bytes)) first (end - first) }
    {
        let least = self.least_line_alone(first, end, test, other, alone)?;
        Some(Lines {
            least: least * LINE_SIZE,
            count: with - self.count_with(first, end, other),
        })
    }

    // The same, where so many have one that passes the other test.
    #[tactic(auto, using(crate::proofs::ShadowRules::lines_with_but), unfolding(crate::specs::Bytes::passing))]
    fn lines_left<T: Test<ByteState> + Copy, U: Test<ByteState> + Copy, V: Test<ByteState>>(
        &self,
        first: u64,
        end: u64,
        with: u64,
        rest: u64,
        test: &T,
        other: &U,
        alone: &V,
    ) -> Option<Lines>
        requires ordered { first ≤ end }
        requires room { end * LINE_SIZE ≤ ADDRESS_LIMIT }
        requires counted { with ≡ count_from (line_has (passing (T.passes test.now) self.now.bytes))
            first (end - first) }
        requires rest { rest ≡ count_from (line_has (passing (U.passes other.now) self.now.bytes))
            first (end - first) }
        requires both { (s : ByteState) → U.passes other.now s ≡ true → T.passes test.now s ≡ true }
        requires alone { (s : ByteState) → T.passes test.now s ≡ true → U.passes other.now s ≡ false
            → V.passes alone.now s ≡ true }
        ensures { result ≡ lines_at (line_has_but (passing (T.passes test.now) self.now.bytes)
            (passing (U.passes other.now) self.now.bytes)) first (end - first) }
    {
        if with == rest {
            return None;
        }
        let least = self.least_line_alone(first, end, test, other, alone)?;
        Some(Lines {
            least: least * LINE_SIZE,
            count: with - rest,
        })
    }

    // How many of the lines have a byte that passes.
    pub(crate) fn count_with<T: Test<ByteState>>(&self, first: u64, end: u64, test: &T) -> u64
        requires ordered { first ≤ end }
        requires room { end * LINE_SIZE ≤ ADDRESS_LIMIT }
        ensures { result ≡ count_from (line_has (passing (T.passes test.now) self.now.bytes))
            first (end - first) }
    {
        self.bytes.count_lines(first, end, test)
    }

    // The same as `least_line_but`. It begins at the first byte that passes the third test, and most often
    // there is none.
    #[tactic(auto, using(crate::proofs::ShadowRules::least_line_alone), unfolding(crate::specs::Bytes::passing))]
    fn least_line_alone<T: Test<ByteState> + Copy, U: Test<ByteState> + Copy, V: Test<ByteState>>(
        &self,
        first: u64,
        end: u64,
        test: &T,
        other: &U,
        alone: &V,
    ) -> Option<u64>
        requires ordered { first ≤ end }
        requires room { end * LINE_SIZE ≤ ADDRESS_LIMIT }
        requires alone { (s : ByteState) → T.passes test.now s ≡ true → U.passes other.now s ≡ false
            → V.passes alone.now s ≡ true }
        ensures { result ≡ first_from (line_has_but (passing (T.passes test.now) self.now.bytes)
            (passing (U.passes other.now) self.now.bytes)) first (end - first) }
    {
        let line = self.least_line_with(first, end, alone)?;
        self.least_line_but(line, end, test, other)
    }

    // The least of the lines that has a byte that passes, and none that passes the other test.
    #[tactic(auto, using(crate::proofs::ShadowRules::least_line_but))]
    fn least_line_but<T: Test<ByteState> + Copy, U: Test<ByteState> + Copy>(
        &self,
        first: u64,
        end: u64,
        test: &T,
        other: &U,
    ) -> Option<u64>
        requires ordered { first ≤ end }
        requires room { end * LINE_SIZE ≤ ADDRESS_LIMIT }
        ensures { result ≡ first_from (line_has_but (passing (T.passes test.now) self.now.bytes)
            (passing (U.passes other.now) self.now.bytes)) first (end - first) }
    {
        let mut line = first;
        while let Some(without) = self.least_line_without(line, end, other) {
            match self.least_line_with(without, end, test) {
                None => return None,
                Some(found) => {
                    if found == without {
                        return Some(found);
                    }
                    line = found;
                }
            }
        }
        None
    }

    // The least of the lines that has no byte that passes.
    #[tactic(auto, using(crate::proofs::ShadowRules::least_line_without))]
    pub(crate) fn least_line_without<T: Test<ByteState> + Copy>(
        &self,
        first: u64,
        end: u64,
        test: &T,
    ) -> Option<u64>
        requires ordered { first ≤ end }
        requires room { end * LINE_SIZE ≤ ADDRESS_LIMIT }
        ensures { result ≡ first_from (line_lacks (passing (T.passes test.now) self.now.bytes))
            first (end - first) }
    {
        let mut line = first;
        while line < end {
            if !self.has_on(line, test) {
                return Some(line);
            }
            line = self.stretch_end(line + 1, end, test);
        }
        None
    }

    // The least of the lines that has a byte that passes.
    #[tactic(auto, using(crate::proofs::ShadowRules::least_line_with))]
    pub(crate) fn least_line_with<T: Test<ByteState>>(
        &self,
        first: u64,
        end: u64,
        test: &T,
    ) -> Option<u64>
        requires ordered { first ≤ end }
        requires room { end * LINE_SIZE ≤ ADDRESS_LIMIT }
        ensures { result ≡ first_from (line_has (passing (T.passes test.now) self.now.bytes))
            first (end - first) }
    {
        match self
            .bytes
            .first_where(first * LINE_SIZE, end * LINE_SIZE, test)
        {
            None => None,
            Some(byte) => Some(byte / LINE_SIZE),
        }
    }

    // Whether a byte of the line passes.
    #[tactic(auto, using(crate::proofs::ShadowRules::has_on))]
    pub(crate) fn has_on<T: Test<ByteState>>(&self, line: u64, test: &T) -> bool
        requires { (line + 1) * LINE_SIZE ≤ ADDRESS_LIMIT }
        ensures { result ≡ line_has (passing (T.passes test.now) self.now.bytes) line }
    {
        let first = line * LINE_SIZE;
        self.bytes
            .first_on(first, first + LINE_SIZE, test)
            .is_some()
    }

    // Where the bytes that pass end, from the first of the lines on: the line after those they meet.
    #[tactic(auto, using(crate::proofs::ShadowRules::stretch_end), unfolding(crate::specs::Bytes::passing))]
    fn stretch_end<T: Test<ByteState> + Copy>(&self, first: u64, end: u64, test: &T) -> u64
        requires ordered { first ≤ end }
        requires room { end * LINE_SIZE ≤ ADDRESS_LIMIT }
        ensures from { first ≤ result }
        ensures within { result ≤ end }
        ensures has { AllHave (passing (T.passes test.now) self.now.bytes) first result }
    {
        let until = end * LINE_SIZE;
        match self
            .bytes
            .first_where(first * LINE_SIZE, until, &Fails(*test))
        {
            None => end,
            Some(byte) => (byte + (LINE_SIZE - 1)) / LINE_SIZE,
        }
    }
}

/// The number of the first line that the span meets, and the number after that of the last.
pub(crate) fn lines_of(span: &Span) -> (u64, u64)
    ensures first { result.0 ≡ first_line span.now }
    ensures end { result.1 ≡ (span.now.first + span.now.size - 1) / LINE_SIZE + 1 }
    ensures ordered { result.0 < result.1 }
    ensures room { result.1 * LINE_SIZE ≤ ADDRESS_LIMIT }
    ensures valid { IsValidExtent span.now.first span.now.size }
{
    let last = span.end() - 1;
    (span.first() / LINE_SIZE, last / LINE_SIZE + 1)
}
