//! The shadow of some events: the states of bytes, and how many fences there were.

ghost use Rattle.std.specs.Prelude.{◌≡◌, ℕ, ◌+◌, List, OnOk, OnErr, is_some};
ghost use Rattle.pmf_event.specs.{declared.event.Event.{Event}, Span.{IsValidExtent}, Ranges.{first_byte}, Interval.{interval_at}, Exclusion.{is_included}, Persist.{is_checked, is_exposed}, FlushWarnings.{is_clean, is_pending, lines_where}};
ghost use Rattle.pmf_shadow.specs.Bytes.{passing};
ghost use Rattle.pmf_shadow.specs.{Told.{interval_as_told}, Totals.{AreCounted}};

use crate::byte::{
    ByteState, IsChecked, IsIncluded, IsLate, IsPending, IsUndurable, IsUnwritten, Marked,
    StoredAt, UNTOUCHED, WrittenBackIn,
};
use crate::front::ByteMap;
use crate::stretches::lines_of;
use crate::totals::Totals;
use crate::wide::{WIDE, asked_at, lines_for, stores_widely};
use pmf_event::{Event, Events, Interval, LINE_SIZE, Lines, Span};
use pmf_runs::Test;
use std::alloc::{AllocError, Global};

/// What is kept of some events: for each byte its last store, the first write-back after it and
/// whether it is excluded; and the number of fences.
///
/// Each change and each question takes O((k + 1) log n) steps for k runs of equal state that it
/// meets and n that are held, whatever the size of its span; a fence is one addition. Memory
/// follows the number of runs, not of events. With lines in front ([`Shadow::for_walk`]) a change of
/// words takes a few steps and a question one for each line that it meets, or for each of those in front.
/// Memory follows the lines, too; a change of other bytes takes the runs of the lines that it meets, or of all where
/// these were walked over often.
///
/// From the second write-back of a very wide span on ([`Shadow::settle_for`]) it counts the lines that are not durable at each change, as
/// totals over all lines. Then such a write-back and its question walk over no line for being one that was written back before, and
/// over few runs but those that are not written back.
#[derive(Debug, Drop)]
pub struct Shadow {
    pub(crate) bytes: ByteMap,
    pub(crate) fences: u32,
    /// Whether a wide span was stored to. For speed alone.
    has_wide: bool,
    /// Whether a span that is wide enough for totals was written back. For speed alone.
    pub(crate) has_flushed: bool,
    /// How many of all lines are not durable, and how many not written back, while this is kept.
    pub(crate) totals: Option<Totals>,
    ghost counted: { AreCounted bytes fences totals },
}

/// Of the lines that a span meets, those of which a write-back warns.
#[derive(Clone, Copy, Debug, PartialEq, Eq)]
pub struct FlushLines {
    /// Those with a write-back that no fence has completed.
    pub pending: Option<Lines>,
    /// Those with nothing to write back.
    pub clean: Option<Lines>,
}

impl Shadow {
    ghost use Rattle.pmf_shadow.specs.Shadow.{StandsFor, ForEachList, HasRoom, FollowsAt, Follows, Keeps, closing};

    /// The shadow of no events. Takes no memory.
    pub fn new(alloc: Global) -> Shadow
        ensures { (told : ℕ → ℕ) (es : List Event) → StandsFor result told es 0 }
    {
        Shadow::with_front(alloc, 0)
    }

    /// The same for a walk over these events. Where few of them ask of wide spans, it has lines in front of the map of runs, on which a
    /// change of a few words takes few steps, and a question one for each line of its span, unless they are in order: so call
    /// [`Shadow::settle_for`] before each event, and [`Shadow::settle`] before any other question of a wide span. Takes no memory.
    pub fn for_walk(alloc: Global, events: &Events) -> Shadow
        ensures { (told : ℕ → ℕ) (es : List Event) → StandsFor result told es 0 }
    {
        Shadow::with_front(alloc, lines_for(events))
    }

    /// The shadow of no events, with so many lines in front at most.
    pub(crate) fn with_front(alloc: Global, most: usize) -> Shadow
        ensures { (told : ℕ → ℕ) (es : List Event) → StandsFor result told es 0 }
    {
        Shadow {
            bytes: ByteMap::new(alloc, UNTOUCHED, most),
            fences: 0,
            has_wide: false,
            has_flushed: false,
            totals: None,
        }
    }

    /// Puts the lines in front behind. The shadow stands for what it stood for, after an `Err`, which is want of memory, too.
    pub fn settle(&mut self) -> Result<(), AllocError>
        ensures { Keeps self.old self.new }
    {
        self.bytes.settle()?;
        Ok(())
    }

    /// Makes the lines in front ready for what the event asks, which comes next: where that is of a wide span, they are put in order, or
    /// behind. The shadow stands for what it stood for, after an `Err`, which is want of memory, too.
    pub fn settle_for(&mut self, event: &Event) -> Result<(), AllocError>
        ensures { Keeps self.old self.new }
    {
        let is_wide = stores_widely(*event);
        self.has_wide = self.has_wide | is_wide;
        let asked = asked_at(*event, self.has_wide);
        if asked < WIDE {
            return Ok(());
        }
        self.bytes.make_ready_for(asked / LINE_SIZE)?;
        self.count_for(event);
        Ok(())
    }

    /// Follows a store to the bytes of the span, and keeps this place of it. Memory: at most two runs.
    /// After an `Err` the shadow stands for what it stood for.
    pub fn store(&mut self, place: u32, span: Span) -> Result<(), AllocError>
        ensures follows { OnOk result (FollowsAt place self.old self.new (Event.Store span)) }
        ensures unchanged { OnErr result (Keeps self.old self.new) }
    {
        if self.totals.is_some() {
            return self.store_counted(place, span);
        }
        let change = StoredAt {
            place,
            epoch: self.fences,
        };
        self.bytes.change(span.first(), span.end(), &change)?;
        Ok(())
    }

    /// Follows a write-back of every line that the span meets. Memory: at most two runs.
    /// After an `Err` the shadow stands for what it stood for.
    pub fn flush(&mut self, span: Span) -> Result<(), AllocError>
        ensures follows { OnOk result (Follows self.old self.new (Event.Flush span)) }
        ensures unchanged { OnErr result (Keeps self.old self.new) }
    {
        if self.totals.is_some() {
            return self.flush_counted(span);
        }
        let (first, end) = lines_of(&span);
        let change = WrittenBackIn { epoch: self.fences };
        self.bytes
            .change(first * LINE_SIZE, end * LINE_SIZE, &change)?;
        Ok(())
    }

    /// Follows a fence. It walks nothing and takes no memory.
    pub fn fence(&mut self)
        requires { HasRoom self.old }
        ensures { Follows self.old self.new Event.Fence }
    {
        if self.totals.is_some() {
            return self.fence_counted();
        }
        self.fences += 1;
    }

    /// Follows an exclusion of the span's bytes. Memory: at most two runs. After an `Err` the shadow
    /// stands for what it stood for.
    pub fn exclude(&mut self, span: Span) -> Result<(), AllocError>
        ensures follows { OnOk result (Follows self.old self.new (Event.Exclude span)) }
        ensures unchanged { OnErr result (Keeps self.old self.new) }
    {
        self.bytes
            .change(span.first(), span.end(), &Marked { excluded: true })?;
        Ok(())
    }

    /// Follows an inclusion of the span's bytes. Memory: at most two runs. After an `Err` the shadow
    /// stands for what it stood for.
    pub fn include(&mut self, span: Span) -> Result<(), AllocError>
        ensures follows { OnOk result (Follows self.old self.new (Event.Include span)) }
        ensures unchanged { OnErr result (Keeps self.old self.new) }
    {
        self.bytes
            .change(span.first(), span.end(), &Marked { excluded: false })?;
        Ok(())
    }

    /// Follows any event: a store made at this place, a write-back, a fence, an exclusion, an inclusion, or one
    /// that changes nothing of a shadow. Memory: at most two runs. After an `Err` the shadow stands for what
    /// it stood for.
    pub fn follow(&mut self, place: u32, event: Event) -> Result<(), AllocError>
        requires { HasRoom self.old }
        ensures follows { OnOk result (FollowsAt place self.old self.new event) }
        ensures unchanged { OnErr result (Keeps self.old self.new) }
    {
        match event {
            Event::Store(span) => self.store(place, span)?,
            Event::Flush(span) => self.flush(span)?,
            Event::Fence => self.fence(),
            Event::Exclude(span) => self.exclude(span)?,
            Event::Include(span) => self.include(span)?,
            _ => {}
        }
        Ok(())
    }

    /// The persist interval of the byte, with the place that was told of its last store, or `None` where no
    /// store has covered it.
    #[tactic(auto, using(crate::proofs::ShadowRules::interval_at))]
    pub fn interval_at(&self, byte: u64) -> Option<Interval>
        ensures { ForEachList self.now (λ told es p. result ≡ interval_as_told told (interval_at es p byte)) }
    {
        match self.bytes.at(byte).stored() {
            None => None,
            Some(stored) => Some(Interval {
                last: stored.last,
                opens: stored.opens,
                closes: Shadow::closing(self.fences, stored.written_back),
            }),
        }
    }

    /// Whether a byte of the span is checked: written, and not excluded.
    pub fn written_included(&self, span: Span) -> bool
        ensures { ForEachList self.now (λ told es p. result ≡ is_some (first_byte (is_checked es p) span)) }
    {
        self.first_in(&span, &IsChecked).is_some()
    }

    /// The least checked byte of the span whose persist interval is open.
    pub fn least_open(&self, span: Span) -> Option<u64>
        ensures { ForEachList self.now (λ told es p. result ≡ first_byte (is_exposed es p) span) }
    {
        self.first_in(&span, &IsLate { epoch: self.fences })
    }

    /// The least byte of the span that is not excluded, written or not.
    pub fn least_included(&self, span: Span) -> Option<u64>
        ensures { ForEachList self.now (λ told es p. result ≡ first_byte (is_included es p) span) }
    {
        self.first_in(&span, &IsIncluded)
    }

    /// Of the lines that the span meets, those with a write-back that no fence has completed: the
    /// least, and how many.
    pub fn pending_lines(&self, span: Span) -> Option<Lines>
        ensures { ForEachList self.now (λ told es p. result ≡ lines_where (is_pending es p) span) }
    {
        self.flush_lines(span).pending
    }

    /// Of the lines that the span meets, those with nothing to write back: the least, and how many.
    pub fn clean_lines(&self, span: Span) -> Option<Lines>
        ensures { ForEachList self.now (λ told es p. result ≡ lines_where (is_clean es p) span) }
    {
        self.flush_lines(span).clean
    }

    /// What a write-back of the span's lines would find: both of these at once, so that lines are counted
    /// once.
    #[tactic(auto, using(crate::proofs::ShadowRules::flush_lines))]
    pub fn flush_lines(&self, span: Span) -> FlushLines
        ensures pending { ForEachList self.now (λ told es p. result.pending ≡ lines_where (is_pending es p) span) }
        ensures clean { ForEachList self.now (λ told es p. result.clean ≡ lines_where (is_clean es p) span) }
    {
        let undurable = IsUndurable { epoch: self.fences };
        let alone = IsPending { epoch: self.fences };
        match self.totals_of(&span) {
            None => {
                let (pending, clean) = self.lines_apart(&span, &undurable, &IsUnwritten, &alone);
                FlushLines { pending, clean }
            }
            Some(totals) => {
                let (pending, clean) = self.lines_counted(
                    &span,
                    &totals,
                    &undurable,
                    &IsUnwritten,
                    &alone,
                );
                FlushLines { pending, clean }
            }
        }
    }

    pub(crate) fn first_in<T: Test<ByteState>>(&self, span: &Span, test: &T) -> Option<u64>
        ensures { result ≡ first_byte (passing (T.passes test.now) self.now.bytes) span.now }
    {
        self.bytes.first_where(span.first(), span.end(), test)
    }

    // The epoch that a first write-back in this one closes the interval with, if it was fenced.
    fn closing(fences: u32, written_back: Option<u32>) -> Option<u32>
        ensures { result ≡ closing fences written_back }
    {
        match written_back {
            None => None,
            Some(epoch) => {
                if epoch < fences {
                    Some(epoch + 1)
                } else {
                    None
                }
            }
        }
    }
}
