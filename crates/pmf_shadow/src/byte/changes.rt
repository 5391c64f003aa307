//! What events do to the state of a byte.

ghost use Rattle.pmf_shadow.specs.States.{after_mark, after_store, after_write_back};

use crate::byte::{Bounds, ByteState, Stored};
use pmf_runs::{Change, Effect, State};

/// A store at this place, in this epoch.
#[derive(Clone, Copy, Debug, Drop)]
pub(crate) struct StoredAt {
    pub(crate) place: u32,
    pub(crate) epoch: u32,
}

impl StoredAt {
    // Whether a bound of the covered numbers is this store's own, and not reached by the new store.
    fn frees_a_bound(&self, bounds: Bounds, stored: Stored) -> bool {
        (stored.opens == bounds.least_opening && stored.opens < self.epoch)
            || (stored.last == bounds.least_last && stored.last < self.place)
            || (stored.last == bounds.greatest_last && self.place < stored.last)
            || stored.written_back == Some(bounds.latest)
    }
}

impl Change<ByteState> for StoredAt {
    ghost changed = { λ c s. after_store c.place c.epoch s };

    fn changed(&self, state: ByteState) -> ByteState {
        ByteState {
            last: self.place,
            opens: self.epoch,
            written_back: 0,
            is_stored: true,
            is_written_back: false,
            excluded: state.excluded,
        }
    }

    fn may_alter(&self, _summary: Bounds) -> bool {
        true
    }

    fn widened(&self, summary: Bounds) -> Bounds {
        summary.with_store(self.place, self.epoch)
    }

    fn effect(&self, summary: Bounds, state: ByteState) -> Effect {
        if state.excluded && summary.included && !summary.checked_unsettled {
            return Effect::Remakes;
        }
        match state.stored() {
            Some(stored) if self.frees_a_bound(summary, stored) => Effect::Narrows,
            _ => Effect::Widens,
        }
    }
}

/// A write-back in this epoch.
#[derive(Clone, Copy, Debug, Drop)]
pub(crate) struct WrittenBackIn {
    pub(crate) epoch: u32,
}

impl Change<ByteState> for WrittenBackIn {
    ghost changed = { λ c s. after_write_back c.epoch s };

    fn changed(&self, state: ByteState) -> ByteState {
        if state.lacks_write_back() {
            ByteState {
                last: state.last,
                opens: state.opens,
                written_back: self.epoch,
                is_stored: state.is_stored,
                is_written_back: true,
                excluded: state.excluded,
            }
        } else {
            state
        }
    }

    fn may_alter(&self, summary: Bounds) -> bool {
        summary.unsettled
    }

    fn widened(&self, summary: Bounds) -> Bounds {
        summary.with_write_back(self.epoch)
    }

    fn effect(&self, summary: Bounds, state: ByteState) -> Effect {
        if summary.excluded && !state.excluded {
            Effect::Remakes
        } else {
            Effect::Settles
        }
    }
}

/// An exclusion, or an inclusion.
#[derive(Clone, Copy, Debug, Drop)]
pub(crate) struct Marked {
    pub(crate) excluded: bool,
}

impl Marked {
    // Whether the widened bounds of checked bytes are wider than need be, now that this byte is marked.
    fn widens_too_far(&self, bounds: Bounds, state: ByteState) -> bool {
        if self.excluded {
            return state.is_unsettled()
                || (state.is_written_back && state.written_back == bounds.checked_latest);
        }
        let wide = self.widened(bounds);
        let exact = ByteState::joined(bounds, self.changed(state).summary());
        wide.checked_unsettled != exact.checked_unsettled
            || wide.checked_latest != exact.checked_latest
    }
}

impl Change<ByteState> for Marked {
    ghost changed = { λ c s. after_mark c.excluded s };

    fn changed(&self, state: ByteState) -> ByteState {
        state.flagged(self.excluded)
    }

    fn may_alter(&self, summary: Bounds) -> bool {
        summary.has_mark(!self.excluded)
    }

    fn widened(&self, summary: Bounds) -> Bounds {
        summary.with_mark(self.excluded)
    }

    fn effect(&self, summary: Bounds, state: ByteState) -> Effect {
        if self.widens_too_far(summary, state) {
            Effect::Remakes
        } else {
            Effect::Narrows
        }
    }

    fn flag(&self) -> Option<bool> {
        Some(self.excluded)
    }
}
