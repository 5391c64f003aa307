//! Totals over all cache lines: how many are not durable, and how many not written back.

ghost use Rattle.std.specs.Prelude.{◌≡◌, ℕ, ◌+◌, ◌-◌, ◌*◌, ◌/◌, ◌<◌, ◌≤◌, Bool, true, false, IfSome, OnOk, OnErr};
ghost use Rattle.pmf_event.specs.{declared.span.TheConstants.{ADDRESS_LIMIT, LINE_SIZE}, Ranges.{count_from}, FlushWarnings.{first_line, line_count}};
ghost use Rattle.pmf_runs.specs.Lines.{line_has};
ghost use Rattle.pmf_shadow.specs.{Bytes.{passing}, Stretches.{AllHave}, States.{after_store, after_write_back, holds_of, stored_of, written_back_from}};

use crate::byte::{ByteState, IsPending, IsUndurable, IsUnwritten, StoredAt, WrittenBackIn};
use crate::shadow::Shadow;
use crate::stretches::lines_of;
use crate::wide::{WIDEST, flushes_widely};
use pmf_event::{ADDRESS_LIMIT, Event, LINE_SIZE, Span};
use pmf_runs::Test;
use std::alloc::AllocError;

/// How many cache lines there are.
const ALL_LINES: u64 = ADDRESS_LIMIT / LINE_SIZE;

/// A span of so many lines is asked of by the totals. For speed alone.
const MANY: u64 = WIDEST / LINE_SIZE;

/// Where more of the other lines count, those of the span are counted one by one.
const FEW: u64 = 16;

/// So many stores are counted, or one for so many undurable lines, without a wide write-back.
const STORES: u64 = 64;

/// Of how many undurable lines a new count takes as long as a store's.
const LINES: u64 = 32;

/// How many lines have a byte that is not durable, and how many one that is not written back.
#[derive(Clone, Copy, Debug, PartialEq, Eq)]
pub(crate) struct Totals {
    pub(crate) undurable: u64,
    pub(crate) unwritten: u64,
    /// Each line from this one up to the next number has one that is not durable.
    pub(crate) from: u64,
    pub(crate) upto: u64,
    /// How many stores were counted since a wide write-back. For speed alone.
    pub(crate) stores: u64,
}

impl Totals {
    /// Whether to count on takes fewer steps than to count anew later. For speed alone.
    fn pay(self) -> bool {
        self.stores <= STORES || self.stores <= self.undurable / LINES
    }

    /// The stores that were counted since a wide write-back, after one of so many lines.
    fn stores_after(self, lines: u64) -> u64 {
        if lines < MANY { self.stores } else { 0 }
    }

    /// Up to which line all from the first one on, and before the end, are known to be not durable.
    pub(crate) fn known(self, first: u64, end: u64) -> u64
        requires { first ≤ end }
        ensures from { first ≤ result }
        ensures upto { result ≤ end }
        ensures after { first < result → self.from ≤ first }
        ensures before { first < result → result ≤ self.upto }
    {
        if self.from <= first && first < self.upto {
            end.min(self.upto)
        } else {
            first
        }
    }
}

impl Shadow {
    ghost use Rattle.pmf_event.specs.declared.event.Event.{Event};
    ghost use Rattle.pmf_shadow.specs.Shadow.{HasRoom, FollowsAt, Follows, Keeps};
    ghost use Rattle.pmf_shadow.specs.Totals.{AreTotals, AreCounted, CountsAfter, lines_with, undurable_after, unwritten};

    /// Makes totals ready for the event, which comes next, where it writes back widely, but for the first that does.
    pub(crate) fn count_for(&mut self, event: &Event)
        ensures bytes { self.new.bytes ≡ self.old.bytes }
        ensures fences { self.new.fences ≡ self.old.fences }
    {
        if !flushes_widely(*event) {
            return;
        }
        if self.has_flushed && self.bytes.is_ready() {
            self.totals = self.totals_for(event);
        }
        self.has_flushed = true;
    }

    /// Totals of the same lines, or new ones where there are none.
    fn totals_for(&self, event: &Event) -> Option<Totals>
        ensures { AreCounted self.now.bytes self.now.fences result }
    {
        match (self.totals, event) {
            (None, _) => self.count_all(),
            (Some(totals), Event::Flush(span)) => Some(self.with_known(totals, span)),
            _ => self.totals,
        }
    }

    /// The same totals, but for the range of lines that are not durable: those from the span's first on, where these are more.
    fn with_known(&self, totals: Totals, span: &Span) -> Totals
        requires { AreTotals self.now.bytes self.now.fences totals }
        ensures { AreTotals self.now.bytes self.now.fences result }
    {
        let (first, end) = lines_of(span);
        let known = totals.known(first, end);
        let upto = self.end_without(known, end, &IsUndurable { epoch: self.fences });
        if upto - first <= totals.upto.saturating_sub(totals.from) {
            return totals;
        }
        Totals {
            undurable: totals.undurable,
            unwritten: totals.unwritten,
            from: first,
            upto,
            stores: totals.stores,
        }
    }

    // The least line without a byte that passes, if it is below the end, or else the end.
    fn end_without<T: Test<ByteState> + Copy>(&self, first: u64, end: u64, test: &T) -> u64
        requires ordered { first ≤ end }
        requires room { end * LINE_SIZE ≤ ADDRESS_LIMIT }
        ensures from { first ≤ result }
        ensures upto { result ≤ end }
        ensures has { AllHave (passing (T.passes test.now) self.now.bytes) first result }
    {
        match self.least_line_without(first, end, test) {
            None => end,
            Some(line) => line,
        }
    }

    /// The totals, counted by walks over all lines.
    fn count_all(&self) -> Option<Totals>
        ensures { AreCounted self.now.bytes self.now.fences result }
    {
        if self.fences == u32::MAX {
            return None;
        }
        if self.has_from(self.fences + 1) {
            return None;
        }
        Some(Totals {
            undurable: self.count_with(0, ALL_LINES, &IsUndurable { epoch: self.fences }),
            unwritten: self.count_with(0, ALL_LINES, &IsUnwritten),
            from: 0,
            upto: 0,
            stores: 0,
        })
    }

    // Whether a byte was written back in this epoch or later. None was, but that is not among what is known of a shadow.
    fn has_from(&self, epoch: u32) -> bool
        ensures { result ≡ false → (b : ℕ) → b < ADDRESS_LIMIT → passing (λ s. holds_of (written_back_from epoch) (stored_of s)) self.now.bytes b ≡ false }
    {
        self.bytes
            .first_where(0, ADDRESS_LIMIT, &IsPending { epoch })
            .is_some()
    }

    /// Follows a store to the span, where totals are kept.
    #[inline(never)]
    pub(crate) fn store_counted(&mut self, place: u32, span: Span) -> Result<(), AllocError>
        ensures follows { OnOk result (FollowsAt place self.old self.new (Event.Store span)) }
        ensures unchanged { OnErr result (Keeps self.old self.new) }
    {
        let change = StoredAt {
            place,
            epoch: self.fences,
        };
        let totals = self.totals_after_store(&span);
        self.bytes.change(span.first(), span.end(), &change)?;
        self.totals = totals;
        Ok(())
    }

    /// The same of a write-back.
    #[inline(never)]
    pub(crate) fn flush_counted(&mut self, span: Span) -> Result<(), AllocError>
        ensures follows { OnOk result (Follows self.old self.new (Event.Flush span)) }
        ensures unchanged { OnErr result (Keeps self.old self.new) }
    {
        let (first, end) = lines_of(&span);
        let change = WrittenBackIn { epoch: self.fences };
        let totals = self.totals_after_flush(first, end);
        let (from, upto) = self.unwritten_lines(first, end);
        self.bytes
            .change(from * LINE_SIZE, upto * LINE_SIZE, &change)?;
        self.totals = totals;
        Ok(())
    }

    // From where on up to which of the lines some may be not written back: most often it is one line.
    fn unwritten_lines(&self, first: u64, end: u64) -> (u64, u64)
        requires ordered { first ≤ end }
        requires room { end * LINE_SIZE ≤ ADDRESS_LIMIT }
        ensures from { first ≤ result.0 }
        ensures ordered { result.0 ≤ result.1 }
        ensures upto { result.1 ≤ end }
        ensures before { (line : ℕ) → first ≤ line → line < result.0 → line_has (passing unwritten self.now.bytes) line ≡ false }
        ensures behind { (line : ℕ) → result.1 ≤ line → line < end → line_has (passing unwritten self.now.bytes) line ≡ false }
    {
        if !self.is_apt(first, end) {
            return (first, end);
        }
        let from = self.next_unwritten(first, end);
        let after = end.min(from + 1);
        if self.next_unwritten(after, end) == end {
            return (from, after);
        }
        (from, end)
    }

    // The least of the lines that has a byte that is not written back, or else the end.
    fn next_unwritten(&self, first: u64, end: u64) -> u64
        requires ordered { first ≤ end }
        requires room { end * LINE_SIZE ≤ ADDRESS_LIMIT }
        ensures from { first ≤ result }
        ensures upto { result ≤ end }
        ensures before { (line : ℕ) → first ≤ line → line < result → line_has (passing unwritten self.now.bytes) line ≡ false }
    {
        match self.least_line_with(first, end, &IsUnwritten) {
            None => end,
            Some(found) => found,
        }
    }

    /// The same of a fence.
    #[inline(never)]
    pub(crate) fn fence_counted(&mut self)
        requires { HasRoom self.old }
        ensures { Follows self.old self.new Event.Fence }
    {
        self.totals = self.totals_after_fence();
        self.fences += 1;
    }

    /// The totals after a store to the span, or none where they no longer pay.
    fn totals_after_store(&self, span: &Span) -> Option<Totals>
        ensures { (place : ℕ) → CountsAfter self.now.bytes span.now.first (span.now.first + span.now.size) (after_store place self.now.fences) self.now.fences result }
    {
        match self.totals {
            None => None,
            Some(totals) => self.count_store(totals, span),
        }
    }

    fn count_store(&self, totals: Totals, span: &Span) -> Option<Totals>
        requires { AreTotals self.now.bytes self.now.fences totals }
        ensures { (place : ℕ) → CountsAfter self.now.bytes span.now.first (span.now.first + span.now.size) (after_store place self.now.fences) self.now.fences result }
    {
        if !totals.pay() {
            return None;
        }
        let (first, end) = lines_of(span);
        let undurable = self.count_here(first, end, &IsUndurable { epoch: self.fences });
        let unwritten = self.count_here(first, end, &IsUnwritten);
        Some(Totals {
            undurable: totals.undurable + (end - first - undurable),
            unwritten: totals.unwritten + (end - first - unwritten),
            from: totals.from,
            upto: totals.upto,
            stores: totals.stores.saturating_add(1),
        })
    }

    /// The totals after a write-back of the lines from first up to the end.
    fn totals_after_flush(&self, first: u64, end: u64) -> Option<Totals>
        requires ordered { first ≤ end }
        requires room { end * LINE_SIZE ≤ ADDRESS_LIMIT }
        ensures { CountsAfter self.now.bytes (first * LINE_SIZE) (end * LINE_SIZE) (after_write_back self.now.fences) self.now.fences result }
    {
        match self.totals {
            None => None,
            Some(totals) => self.count_flush(totals, first, end),
        }
    }

    fn count_flush(&self, totals: Totals, first: u64, end: u64) -> Option<Totals>
        requires totals { AreTotals self.now.bytes self.now.fences totals }
        requires ordered { first ≤ end }
        requires room { end * LINE_SIZE ≤ ADDRESS_LIMIT }
        ensures { CountsAfter self.now.bytes (first * LINE_SIZE) (end * LINE_SIZE) (after_write_back self.now.fences) self.now.fences result }
    {
        let unwritten = self.count_in(first, end, totals.unwritten, &IsUnwritten);
        Some(Totals {
            undurable: totals.undurable,
            unwritten: totals.unwritten - unwritten,
            from: totals.from,
            upto: totals.upto,
            stores: totals.stores_after(end - first),
        })
    }

    /// The totals after a fence: what was written back is durable.
    fn totals_after_fence(&self) -> Option<Totals>
        ensures { AreCounted self.now.bytes (self.now.fences + 1) result }
    {
        match self.totals {
            None => None,
            Some(totals) => Some(Totals {
                undurable: totals.unwritten,
                unwritten: totals.unwritten,
                from: 0,
                upto: 0,
                stores: totals.stores,
            }),
        }
    }

    /// The totals of the span's lines alone, where it has many lines, and few others count.
    #[inline(always)]
    pub(crate) fn totals_of(&self, span: &Span) -> Option<Totals>
        ensures undurable { IfSome result (λ totals. totals.undurable ≡ count_from (line_has (passing (undurable_after self.now.fences) self.now.bytes)) (first_line span.now) (line_count span.now)) }
        ensures unwritten { IfSome result (λ totals. totals.unwritten ≡ count_from (line_has (passing unwritten self.now.bytes)) (first_line span.now) (line_count span.now)) }
        ensures dense { IfSome result (λ totals. AllHave (passing (undurable_after self.now.fences) self.now.bytes) totals.from totals.upto) }
    {
        match self.totals {
            None => None,
            Some(totals) => self.count_of(totals, span),
        }
    }

    #[inline(never)]
    fn count_of(&self, totals: Totals, span: &Span) -> Option<Totals>
        requires { AreTotals self.now.bytes self.now.fences totals }
        ensures undurable { IfSome result (λ totals. totals.undurable ≡ count_from (line_has (passing (undurable_after self.now.fences) self.now.bytes)) (first_line span.now) (line_count span.now)) }
        ensures unwritten { IfSome result (λ totals. totals.unwritten ≡ count_from (line_has (passing unwritten self.now.bytes)) (first_line span.now) (line_count span.now)) }
        ensures dense { IfSome result (λ totals. AllHave (passing (undurable_after self.now.fences) self.now.bytes) totals.from totals.upto) }
    {
        let (first, end) = lines_of(span);
        if !self.is_apt(first, end) {
            return None;
        }
        let late = IsUndurable { epoch: self.fences };
        Some(Totals {
            undurable: self.count_but_few(first, end, totals.undurable, &late)?,
            unwritten: self.count_but_few(first, end, totals.unwritten, &IsUnwritten)?,
            from: totals.from,
            upto: totals.upto,
            stores: totals.stores,
        })
    }

    // Whether the lines are so many that others may be counted in their place. For speed alone.
    fn is_apt(&self, first: u64, end: u64) -> bool
        requires { first ≤ end }
    {
        end - first >= MANY && self.bytes.is_ready()
    }

    // How many of the lines have a byte that passes, where so many of all lines do.
    fn count_in<T: Test<ByteState>>(&self, first: u64, end: u64, all: u64, test: &T) -> u64
        requires ordered { first ≤ end }
        requires room { end * LINE_SIZE ≤ ADDRESS_LIMIT }
        requires all { all ≡ lines_with (T.passes test.now) self.now.bytes }
        ensures { result ≡ count_from (line_has (passing (T.passes test.now) self.now.bytes)) first (end - first) }
    {
        if !self.is_apt(first, end) {
            return self.count_here(first, end, test);
        }
        match self.count_but_few(first, end, all, test) {
            None => self.count_here(first, end, test),
            Some(count) => count,
        }
    }

    // The same, where few of the other lines do.
    fn count_but_few<T: Test<ByteState>>(
        &self,
        first: u64,
        end: u64,
        all: u64,
        test: &T,
    ) -> Option<u64>
        requires ordered { first ≤ end }
        requires room { end * LINE_SIZE ≤ ADDRESS_LIMIT }
        requires all { all ≡ lines_with (T.passes test.now) self.now.bytes }
        ensures { IfSome result (λ count. count ≡ count_from (line_has (passing (T.passes test.now) self.now.bytes)) first (end - first)) }
    {
        let before = self.few_with(0, first, test)?;
        let behind = self.few_with(end, ALL_LINES, test)?;
        Some(all - before - behind)
    }

    // How many of the lines have a byte that passes, if few do.
    fn few_with<T: Test<ByteState>>(&self, first: u64, end: u64, test: &T) -> Option<u64>
        requires ordered { first ≤ end }
        requires room { end * LINE_SIZE ≤ ADDRESS_LIMIT }
        ensures { IfSome result (λ count. count ≡ count_from (line_has (passing (T.passes test.now) self.now.bytes)) first (end - first)) }
    {
        let mut line = first;
        let mut count = 0;
        while count < FEW {
            match self.least_line_with(line, end, test) {
                None => return Some(count),
                Some(found) => {
                    count += 1;
                    line = found + 1;
                }
            }
        }
        None
    }

    // The same of any number. Most often it is one line.
    fn count_here<T: Test<ByteState>>(&self, first: u64, end: u64, test: &T) -> u64
        requires ordered { first ≤ end }
        requires room { end * LINE_SIZE ≤ ADDRESS_LIMIT }
        ensures { result ≡ count_from (line_has (passing (T.passes test.now) self.now.bytes)) first (end - first) }
    {
        if end - first != 1 {
            return self.count_with(first, end, test);
        }
        if self.has_on(first, test) {
            return 1;
        }
        0
    }
}
