//! Bounds of the states of some bytes, which tell whether a change or a question may meet any of them.

ghost use Rattle.std.specs.Prelude.{◌≡◌, true, false, ◌&&◌, Some, refl};
ghost use Rattle.pmf_shadow.specs.{EqualStates.{equal_states}, States.{after_mark, is_unsettled}, Bounds.{all_marked, covers, covers_checked, covers_mark, covers_store, joined, may_be_checked, may_be_checked_late, may_be_late, may_be_late_for_any, may_be_less, with_store, with_write_back, without_unsettled}};

use crate::byte::{ByteState, Stored};
use pmf_runs::State;

/// Which kinds of states there are among those of some bytes, and bounds of their numbers. Where no
/// byte was stored to, the least are the greatest number and the greatest are 0.
#[derive(Clone, Copy, Debug, PartialEq, Eq)]
pub struct Bounds {
    /// Whether a byte may be excluded.
    pub excluded: bool,
    /// Whether a byte may be in the checks.
    pub included: bool,
    /// Whether a byte may have been stored to.
    pub stored: bool,
    /// Whether a byte may have been stored to and not written back.
    pub unsettled: bool,
    /// No last store has a lesser epoch.
    pub least_opening: u32,
    /// No last store has a lesser place.
    pub least_last: u32,
    /// No last store has a greater place.
    pub greatest_last: u32,
    /// No first write-back has a greater epoch.
    pub latest: u32,
    /// Whether a byte in the checks may have been stored to and not written back.
    pub checked_unsettled: bool,
    /// No first write-back of a byte in the checks has a greater epoch.
    pub checked_latest: u32,
}

impl State for ByteState {
    type Summary = Bounds;

    ghost covers = { covers };

    ghost unsettled = { is_unsettled };

    ghost flagged = { after_mark };

    ghost forgets = { λ first last s. refl };

    fn summary(&self) -> Bounds {
        let state = *self;
        match state.stored() {
            None => Bounds::of_mark(state.excluded),
            Some(stored) => Bounds::of_store(state.excluded, stored),
        }
    }

    #[tactic(auto, using(crate::proofs::ShadowRules::joined))]
    fn joined(one: Bounds, other: Bounds) -> Bounds {
        one.joined(other)
    }

    fn is_unsettled(&self) -> bool {
        self.lacks_write_back()
    }

    fn may_be_unsettled(summary: Bounds) -> bool {
        summary.unsettled
    }

    fn settled(summary: Bounds) -> Bounds {
        summary.without_unsettled()
    }

    fn flagged(self, flag: bool) -> ByteState {
        ByteState {
            last: self.last,
            opens: self.opens,
            written_back: self.written_back,
            is_stored: self.is_stored,
            is_written_back: self.is_written_back,
            excluded: flag,
        }
    }

    fn summary_flagged(summary: Bounds, flag: bool) -> Bounds {
        summary.all_marked(flag)
    }

    fn is_same(&self, other: ByteState) -> bool {
        *self == other
    }

    fn are_alike(one: Bounds, other: Bounds) -> bool {
        one == other
    }
}

impl Bounds {
    // The bounds of a byte without a store.
    fn of_mark(excluded: bool) -> Bounds
        ensures { covers_mark result excluded ≡ true }
    {
        Bounds {
            excluded,
            included: !excluded,
            stored: false,
            unsettled: false,
            least_opening: u32::MAX,
            least_last: u32::MAX,
            greatest_last: 0,
            latest: 0,
            checked_unsettled: false,
            checked_latest: 0,
        }
    }

    // The bounds of a byte with this last store.
    fn of_store(excluded: bool, stored: Stored) -> Bounds
        ensures mark { covers_mark result excluded ≡ true }
        ensures store { covers_store result (Some stored) ≡ true }
        ensures checked { excluded ≡ false → covers_checked result (Some stored) ≡ true }
    {
        Bounds {
            excluded,
            included: !excluded,
            stored: true,
            unsettled: stored.written_back.is_none(),
            least_opening: stored.opens,
            least_last: stored.last,
            greatest_last: stored.last,
            latest: stored.written_back.unwrap_or(0),
            checked_unsettled: !excluded && stored.written_back.is_none(),
            checked_latest: if excluded {
                0
            } else {
                stored.written_back.unwrap_or(0)
            },
        }
    }

    fn joined(self, other: Bounds) -> Bounds
        ensures { result ≡ joined self other }
    {
        Bounds {
            excluded: self.excluded | other.excluded,
            included: self.included | other.included,
            stored: self.stored | other.stored,
            unsettled: self.unsettled | other.unsettled,
            least_opening: self.least_opening.min(other.least_opening),
            least_last: self.least_last.min(other.least_last),
            greatest_last: self.greatest_last.max(other.greatest_last),
            latest: self.latest.max(other.latest),
            checked_unsettled: self.checked_unsettled | other.checked_unsettled,
            checked_latest: self.checked_latest.max(other.checked_latest),
        }
    }

    pub(crate) fn with_store(self, place: u32, epoch: u32) -> Bounds
        ensures { result ≡ with_store place epoch self }
    {
        Bounds {
            excluded: self.excluded,
            included: self.included,
            stored: true,
            unsettled: true,
            least_opening: self.least_opening.min(epoch),
            least_last: self.least_last.min(place),
            greatest_last: self.greatest_last.max(place),
            latest: self.latest,
            checked_unsettled: self.checked_unsettled || self.included,
            checked_latest: self.checked_latest,
        }
    }

    pub(crate) fn with_write_back(self, epoch: u32) -> Bounds
        ensures { result ≡ with_write_back epoch self }
    {
        Bounds {
            excluded: self.excluded,
            included: self.included,
            stored: self.stored,
            unsettled: self.unsettled,
            least_opening: self.least_opening,
            least_last: self.least_last,
            greatest_last: self.greatest_last,
            latest: self.latest.max(epoch),
            checked_unsettled: self.checked_unsettled,
            checked_latest: if self.checked_unsettled {
                self.checked_latest.max(epoch)
            } else {
                self.checked_latest
            },
        }
    }

    pub(crate) fn with_mark(self, excluded: bool) -> Bounds
        ensures { result ≡ joined self (all_marked excluded self) }
    {
        self.joined(self.all_marked(excluded))
    }

    // The bounds of the same bytes once all are marked so.
    fn all_marked(self, excluded: bool) -> Bounds
        ensures { result ≡ all_marked excluded self }
    {
        Bounds {
            excluded,
            included: !excluded,
            stored: self.stored,
            unsettled: self.unsettled,
            least_opening: self.least_opening,
            least_last: self.least_last,
            greatest_last: self.greatest_last,
            latest: self.latest,
            checked_unsettled: !excluded && self.unsettled,
            checked_latest: if excluded { 0 } else { self.latest },
        }
    }

    fn without_unsettled(self) -> Bounds
        ensures { result ≡ without_unsettled self }
    {
        Bounds {
            excluded: self.excluded,
            included: self.included,
            stored: self.stored,
            unsettled: false,
            least_opening: self.least_opening,
            least_last: self.least_last,
            greatest_last: self.greatest_last,
            latest: self.latest,
            checked_unsettled: false,
            checked_latest: self.checked_latest,
        }
    }

    /// Whether a byte with this mark may be covered.
    pub(crate) fn has_mark(self, excluded: bool) -> bool
        ensures { result ≡ covers_mark self excluded }
    {
        if excluded {
            self.excluded
        } else {
            self.included
        }
    }

    /// Whether a checked byte may be covered, and so one of which that may be said.
    pub(crate) fn may_be_checked(self, may: bool) -> bool
        ensures { result ≡ may_be_checked self may }
    {
        self.stored && self.included && may
    }

    /// Whether a written byte may be covered, and so one of which that may be said.
    pub(crate) fn may_be_stored(self, may: bool) -> bool
        ensures { result ≡ (self.stored && may) }
    {
        self.stored && may
    }

    /// Whether a covered store may have been written back in no epoch before this one.
    pub(crate) fn may_be_late(self, epoch: u32) -> bool
        ensures { result ≡ may_be_late epoch self }
    {
        self.unsettled || epoch <= self.latest
    }

    /// Whether a covered store of a byte in the checks may have been written back in no epoch before this one.
    pub(crate) fn may_be_checked_late(self, epoch: u32) -> bool
        ensures { result ≡ may_be_checked_late epoch self }
    {
        self.checked_unsettled || epoch <= self.checked_latest
    }

    /// The same of an epoch that may be missing: then it was in time.
    pub(crate) fn may_be_late_for_any(self, epoch: Option<u32>) -> bool
        ensures { result ≡ may_be_late_for_any epoch self }
    {
        match epoch {
            None => false,
            Some(epoch) => self.may_be_checked_late(epoch),
        }
    }
}

/// Whether a number with this bound may lie below the least so far.
pub(crate) fn may_be_less(bound: u32, least: Option<u32>) -> bool
    ensures { result ≡ may_be_less bound least }
{
    match least {
        None => true,
        Some(least) => bound < least,
    }
}
