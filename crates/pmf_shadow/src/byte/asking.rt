//! What questions ask of the state of a byte.

ghost use Rattle.std.specs.Prelude.{◌≡◌, ◌||◌, not};
ghost use Rattle.pmf_shadow.specs.{Bounds.{may_be_late_for_any}, EqualStates.{is_like}, States.{any_store, checked_store, comes_after, has_one_by, holds_of, is_before, is_from, is_outstanding, kept_opening, kept_place, lacks_write_back, late_for, opens_in, stored_by, stored_of, written_back_from}};

use crate::byte::bounds::may_be_less;
use crate::byte::{Bounds, ByteState, is_late};
use pmf_runs::{Key, Test};

/// Whether the byte is checked.
#[derive(Clone, Copy, Debug, Drop)]
pub(crate) struct IsChecked;

impl Test<ByteState> for IsChecked {
    ghost passes = { λ t s. holds_of any_store (checked_store s) };

    fn passes(&self, state: ByteState) -> bool {
        state.checked().is_some()
    }

    fn may_pass(&self, summary: Bounds) -> bool {
        summary.may_be_checked(true)
    }
}

/// Whether the byte was stored to.
#[derive(Clone, Copy, Debug, Drop)]
pub(crate) struct IsStored;

impl Test<ByteState> for IsStored {
    ghost passes = { λ t s. s.is_stored };

    fn passes(&self, state: ByteState) -> bool {
        state.is_stored
    }

    fn may_pass(&self, summary: Bounds) -> bool {
        summary.stored
    }
}

/// Whether the byte is in the checks, written or not.
#[derive(Clone, Copy, Debug, Drop)]
pub(crate) struct IsIncluded;

impl Test<ByteState> for IsIncluded {
    ghost passes = { λ t s. not s.excluded };

    fn passes(&self, state: ByteState) -> bool {
        !state.excluded
    }

    fn may_pass(&self, summary: Bounds) -> bool {
        summary.included
    }
}

/// Whether the byte is checked, and its last store was written back in no epoch before this one.
#[derive(Clone, Copy, Debug, Drop)]
pub(crate) struct IsLate {
    pub(crate) epoch: u32,
}

impl Test<ByteState> for IsLate {
    ghost passes = { λ t s. holds_of (late_for t.epoch) (checked_store s) };

    fn passes(&self, state: ByteState) -> bool {
        match state.checked() {
            None => false,
            Some(stored) => is_late(self.epoch, stored.written_back),
        }
    }

    fn may_pass(&self, summary: Bounds) -> bool {
        summary.may_be_checked(summary.may_be_checked_late(self.epoch))
    }
}

/// Whether the byte is written, and its last store was written back in no epoch before this one.
#[derive(Clone, Copy, Debug, Drop)]
pub(crate) struct IsUndurable {
    pub(crate) epoch: u32,
}

impl Test<ByteState> for IsUndurable {
    ghost passes = { λ t s. holds_of (late_for t.epoch) (stored_of s) };

    fn passes(&self, state: ByteState) -> bool {
        match state.stored() {
            None => false,
            Some(stored) => is_late(self.epoch, stored.written_back),
        }
    }

    fn may_pass(&self, summary: Bounds) -> bool {
        summary.may_be_stored(summary.may_be_late(self.epoch))
    }
}

/// Whether the byte is excluded, or its last store was written back in no epoch before this one.
#[derive(Clone, Copy, Debug, Drop)]
pub(crate) struct IsOutstanding {
    pub(crate) epoch: u32,
}

impl Test<ByteState> for IsOutstanding {
    ghost passes = { λ t s. is_outstanding t.epoch s };

    fn passes(&self, state: ByteState) -> bool {
        state.excluded || IsUndurable { epoch: self.epoch }.passes(state)
    }

    fn may_pass(&self, summary: Bounds) -> bool {
        summary.excluded || IsUndurable { epoch: self.epoch }.may_pass(summary)
    }
}

/// Whether the byte is written, and its last store was first written back in this epoch or later.
#[derive(Clone, Copy, Debug, Drop)]
pub(crate) struct IsPending {
    pub(crate) epoch: u32,
}

impl Test<ByteState> for IsPending {
    ghost passes = { λ t s. holds_of (written_back_from t.epoch) (stored_of s) };

    fn passes(&self, state: ByteState) -> bool {
        match state.stored() {
            None => false,
            Some(stored) => is_from(self.epoch, stored.written_back),
        }
    }

    fn may_pass(&self, summary: Bounds) -> bool {
        summary.may_be_stored(self.epoch <= summary.latest)
    }
}

/// Whether the byte is written, and its last store was not written back.
#[derive(Clone, Copy, Debug, Drop)]
pub(crate) struct IsUnwritten;

impl Test<ByteState> for IsUnwritten {
    ghost passes = { λ t s. holds_of lacks_write_back (stored_of s) };

    fn passes(&self, state: ByteState) -> bool {
        match state.stored() {
            None => false,
            Some(stored) => stored.written_back.is_none(),
        }
    }

    fn may_pass(&self, summary: Bounds) -> bool {
        summary.unsettled
    }
}

/// Whether the byte fails this test.
#[derive(Clone, Copy, Debug, Drop)]
pub(crate) struct Fails<T>(pub(crate) T);

impl<T: Test<ByteState>> Test<ByteState> for Fails<T> {
    ghost passes = { λ t s. not (T.passes t.0 s) };

    fn passes(&self, state: ByteState) -> bool {
        !self.0.passes(state)
    }

    fn may_pass(&self, _summary: Bounds) -> bool {
        true
    }
}

/// Whether the byte has another state than this.
#[derive(Clone, Copy, Debug, Drop)]
pub(crate) struct HasOther {
    pub(crate) state: ByteState,
}

impl Test<ByteState> for HasOther {
    ghost passes = { λ t s. not (is_like s t.state) };

    fn passes(&self, state: ByteState) -> bool {
        state != self.state
    }

    fn may_pass(&self, _summary: Bounds) -> bool {
        true
    }
}

/// Whether the byte is checked, and its last store lies in this epoch.
#[derive(Clone, Copy, Debug, Drop)]
pub(crate) struct OpensIn {
    pub(crate) epoch: u32,
}

impl Test<ByteState> for OpensIn {
    ghost passes = { λ t s. holds_of (opens_in t.epoch) (checked_store s) };

    fn passes(&self, state: ByteState) -> bool {
        match state.checked() {
            None => false,
            Some(stored) => stored.opens == self.epoch,
        }
    }

    fn may_pass(&self, summary: Bounds) -> bool {
        summary.may_be_checked(summary.least_opening <= self.epoch)
    }
}

/// Whether the byte is checked, and its last store comes after one that was first written back then.
#[derive(Clone, Copy, Debug, Drop)]
pub(crate) struct ComesAfter {
    pub(crate) written_back: Option<u32>,
}

impl Test<ByteState> for ComesAfter {
    ghost passes = { λ t s. holds_of (comes_after t.written_back) (checked_store s) };

    fn passes(&self, state: ByteState) -> bool {
        match state.checked() {
            None => false,
            Some(stored) => is_late(stored.opens, self.written_back),
        }
    }

    fn may_pass(&self, summary: Bounds) -> bool {
        summary.may_be_checked(is_late(summary.least_opening, self.written_back))
    }
}

/// Whether the byte is checked, and its last store comes before this place, or at it where ties count.
#[derive(Clone, Copy, Debug, Drop)]
pub(crate) struct StoredBy {
    pub(crate) place: u32,
    pub(crate) ties: bool,
}

impl Test<ByteState> for StoredBy {
    ghost passes = { λ t s. holds_of (stored_by t.ties t.place) (checked_store s) };

    fn passes(&self, state: ByteState) -> bool {
        match state.checked() {
            None => false,
            Some(stored) => is_before(self.ties, stored.last, self.place),
        }
    }

    fn may_pass(&self, summary: Bounds) -> bool {
        summary.may_be_checked(is_before(self.ties, summary.least_last, self.place))
    }
}

/// Whether the byte is checked and has a partner: one on its line, where `first` is the least place of
/// a last store, or one elsewhere, where `elsewhere` is the least epoch.
#[derive(Clone, Copy, Debug, Drop)]
pub(crate) struct HasOneBy {
    pub(crate) ties: bool,
    pub(crate) first: u32,
    pub(crate) elsewhere: Option<u32>,
}

impl Test<ByteState> for HasOneBy {
    ghost passes = { λ t s. holds_of (has_one_by t.ties t.first t.elsewhere) (checked_store s) };

    fn passes(&self, state: ByteState) -> bool {
        match state.checked() {
            None => false,
            Some(stored) => {
                is_before(self.ties, self.first, stored.last)
                    || match self.elsewhere {
                        None => false,
                        Some(epoch) => is_late(epoch, stored.written_back),
                    }
            }
        }
    }

    fn may_pass(&self, summary: Bounds) -> bool {
        summary.may_be_checked(may_have_one(self, summary))
    }
}

/// The place of the last store, if the byte is checked.
#[derive(Clone, Copy, Debug, Drop)]
pub(crate) struct Place;

impl Key<ByteState> for Place {
    ghost key = { λ t s. kept_place s };

    fn key(&self, state: ByteState) -> Option<u32> {
        match state.checked() {
            None => None,
            Some(stored) => Some(stored.last),
        }
    }

    fn may_lower(&self, summary: Bounds, least: Option<u32>) -> bool {
        summary.may_be_checked(may_be_less(summary.least_last, least))
    }

    fn bound(&self, summary: Bounds) -> Option<u32> {
        if summary.may_be_checked(true) {
            Some(summary.least_last)
        } else {
            None
        }
    }
}

/// The epoch of the last store, if the byte is checked.
#[derive(Clone, Copy, Debug, Drop)]
pub(crate) struct Opening;

impl Key<ByteState> for Opening {
    ghost key = { λ t s. kept_opening s };

    fn key(&self, state: ByteState) -> Option<u32> {
        match state.checked() {
            None => None,
            Some(stored) => Some(stored.opens),
        }
    }

    fn may_lower(&self, summary: Bounds, least: Option<u32>) -> bool {
        summary.may_be_checked(may_be_less(summary.least_opening, least))
    }

    fn bound(&self, summary: Bounds) -> Option<u32> {
        if summary.may_be_checked(true) {
            Some(summary.least_opening)
        } else {
            None
        }
    }
}

fn is_from(epoch: u32, written_back: Option<u32>) -> bool
    ensures { result ≡ is_from epoch written_back }
{
    match written_back {
        None => false,
        Some(then) => epoch <= then,
    }
}

fn is_before(ties: bool, place: u32, other: u32) -> bool
    ensures { result ≡ is_before ties place other }
{
    place < other || (ties && place == other)
}

// Whether a covered store may come after the first of the partners on its line, or be late for one
// elsewhere.
fn may_have_one(test: &HasOneBy, bounds: Bounds) -> bool
    ensures { result ≡ (is_before test.now.ties test.now.first bounds.greatest_last
        || may_be_late_for_any test.now.elsewhere bounds) }
{
    is_before(test.ties, test.first, bounds.greatest_last)
        || bounds.may_be_late_for_any(test.elsewhere)
}
