//! The least pair of an order assertion, found by a few walks and not by trying pairs.

ghost use Rattle.std.specs.Prelude.{◌≡◌, ◌%◌, ◌<◌};
ghost use Rattle.pmf_event.specs.{declared.span.TheConstants.{ADDRESS_LIMIT, LINE_SIZE}, Span.{IsValidExtent}, Ranges.{first_byte, lesser}, Order.{least_pair, paired}};
ghost use Rattle.pmf_shadow.specs.Bytes.{passing, keyed};
ghost use Rattle.pmf_shadow.specs.{Pairs.{by_epochs, by_line, by_lines, kept, off_line, on_line, pairs_of, IsLeastValue}, Shadow.{ForEachList}, States.{kept_opening, kept_place}, Told.{KeepsOrder}};

use crate::byte::{ByteState, ComesAfter, HasOneBy, IsLate, Opening, OpensIn, Place, StoredBy};
use crate::shadow::Shadow;
use pmf_event::{LINE_SIZE, Profile, Span, line_of};
use pmf_runs::Test;

impl Shadow {
    /// The least unordered pair of a byte of `a` and a byte of `b`, or with `shown` the least
    /// certified one, by the profile's rule. The places that were told of the stores are in their order.
    pub fn least_pair(&self, a: Span, b: Span, shown: bool, profile: Profile) -> Option<(u64, u64)>
        ensures { ForEachList self.now (λ told es p. KeepsOrder told es p → result ≡ least_pair (pairs_of shown profile es p) a b) }
    {
        match (shown, profile) {
            (false, Profile::One) => self.least_by_epochs(&a, &b),
            (false, Profile::Two) => self.least_by_lines(&a, &b, true),
            (true, _) => self.least_by_lines(&a, &b, false),
        }
    }

    // The least pair whose second byte comes after the first: the first byte that was not written
    // back before the earliest epoch of `b`, and the first byte of `b` that comes after it.
    #[tactic(auto, using(crate::proofs::ShadowRules::least_by_epochs), unfolding(crate::specs::Bytes::keyed, crate::specs::Pairs::kept, crate::specs::Bytes::passing))]
    fn least_by_epochs(&self, a: &Span, b: &Span) -> Option<(u64, u64)>
        ensures { result ≡ least_pair (by_epochs (kept self.now.bytes)) a.now b.now }
    {
        let epoch = self.bytes.least_key(b.first(), b.end(), &Opening)?;
        let byte = self.first_in(a, &IsLate { epoch })?;
        let stored = self.bytes.at(byte).checked()?;
        let later = ComesAfter {
            written_back: stored.written_back,
        };
        paired(byte, self.first_in(b, &later))
    }

    // The least pair by the order of stores on one line, and by epochs elsewhere. The earliest epoch
    // of `b` lies on one line; every byte off that line meets it there.
    #[tactic(auto, using(crate::proofs::ShadowRules::least_by_lines), unfolding(crate::specs::Bytes::keyed, crate::specs::Pairs::kept, crate::specs::Bytes::passing))]
    fn least_by_lines(&self, a: &Span, b: &Span, ties: bool) -> Option<(u64, u64)>
        ensures { ForEachList self.now (λ told es p. KeepsOrder told es p → result ≡ least_pair (by_lines ties (kept self.now.bytes)) a.now b.now) }
    {
        let epoch = self.bytes.least_key(b.first(), b.end(), &Opening)?;
        let early = self.first_in(b, &OpensIn { epoch })?;
        let line = line_of(early);
        let first = self.least_place_on(b, line)?;
        let elsewhere = self.least_opening_off(b, line);
        let has_one = HasOneBy {
            ties,
            first,
            elsewhere,
        };
        let byte = self.first_by_line(a, line, &has_one, &IsLate { epoch })?;
        let stored = self.bytes.at(byte).checked()?;
        let before = StoredBy {
            place: stored.last,
            ties,
        };
        let later = ComesAfter {
            written_back: stored.written_back,
        };
        let after = self.first_by_line(b, line_of(byte), &before, &later);
        paired(byte, after)
    }

    // The first byte of the span that passes: on the line the one test, off it the other.
    #[tactic(auto, using(crate::proofs::ShadowRules::first_by_line))]
    fn first_by_line<T: Test<ByteState>, U: Test<ByteState>>(
        &self,
        span: &Span,
        line: u64,
        on: &T,
        off: &U,
    ) -> Option<u64>
        requires line { line % LINE_SIZE ≡ 0 }
        requires room { line < ADDRESS_LIMIT }
        ensures value { result ≡ first_byte (by_line line
            (passing (T.passes on.now) self.now.bytes)
            (passing (U.passes off.now) self.now.bytes)) span.now }
        ensures valid { IsValidExtent span.now.first span.now.size }
    {
        let (first, end) = (span.first(), span.end());
        let next = line + LINE_SIZE;
        let before = self.bytes.first_where(first, end.min(line), off);
        if before.is_some() {
            return before;
        }
        let within = self.bytes.first_where(first.max(line), end.min(next), on);
        if within.is_some() {
            return within;
        }
        self.bytes.first_where(first.max(next), end, off)
    }

    // The least place of a last store among the checked bytes of the span on the line.
    #[tactic(auto, using(crate::proofs::ShadowRules::least_place_on))]
    fn least_place_on(&self, span: &Span, line: u64) -> Option<u32>
        requires line { line % LINE_SIZE ≡ 0 }
        requires room { line < ADDRESS_LIMIT }
        ensures { IsLeastValue (on_line line (keyed kept_place self.now.bytes))
            span.now.first span.now.size result }
    {
        let (first, end) = (span.first().max(line), span.end().min(line + LINE_SIZE));
        self.bytes.least_key(first, end, &Place)
    }

    // The least epoch of a last store among the checked bytes of the span off the line.
    #[tactic(auto, using(crate::proofs::ShadowRules::least_opening_off))]
    fn least_opening_off(&self, span: &Span, line: u64) -> Option<u32>
        requires line { line % LINE_SIZE ≡ 0 }
        requires room { line < ADDRESS_LIMIT }
        ensures { IsLeastValue (off_line line (keyed kept_opening self.now.bytes))
            span.now.first span.now.size result }
    {
        let (first, end) = (span.first(), span.end());
        let before = self.bytes.least_key(first, end.min(line), &Opening);
        let after = self
            .bytes
            .least_key(first.max(line + LINE_SIZE), end, &Opening);
        lesser(before, after)
    }
}

/// The byte with its partner, if it has one.
fn paired(byte: u64, partner: Option<u64>) -> Option<(u64, u64)>
    ensures { result ≡ paired byte partner }
{
    match partner {
        None => None,
        Some(after) => Some((byte, after)),
    }
}

fn lesser(one: Option<u32>, other: Option<u32>) -> Option<u32>
    ensures { result ≡ lesser one other }
{
    match (one, other) {
        (None, _) => other,
        (_, None) => one,
        (Some(x), Some(y)) => Some(x.min(y)),
    }
}
