//! What is kept of a byte: its last store, and the first write-back behind that.

ghost use Rattle.std.specs.Prelude.{refl};
ghost use Rattle.pmf_cause.specs.States.{is_open, is_other, lacks_write_back, may_be, stored_at, written_back_at};

use pmf_runs::{Change, Effect, State, Test};

/// The last store of a byte, and the first write-back of its line behind it, or behind no store; 0 for no place.
#[derive(Clone, Copy, Debug, PartialEq, Eq)]
pub(crate) struct Stored {
    pub(crate) last: u32,
    pub(crate) written_back: u32,
}

/// Of no event.
pub(crate) const UNTOUCHED: Stored = Stored {
    last: 0,
    written_back: 0,
};

/// What is kept of the states of some bytes together.
#[derive(Clone, Copy, Debug, PartialEq, Eq)]
pub(crate) struct Behind {
    /// Whether the write-back of one may be missing.
    pub(crate) lacks: bool,
    /// Whether that of one that was stored to may.
    pub(crate) stored_lacks: bool,
    /// The write-back of none comes later.
    pub(crate) latest: u32,
}

impl State for Stored {
    type Summary = Behind;

    ghost covers = { may_be };

    ghost unsettled = { lacks_write_back };

    ghost flagged = { λ flag s. s };

    ghost forgets = { λ first last s. refl };

    fn summary(&self) -> Behind {
        Behind {
            lacks: self.written_back == 0,
            stored_lacks: self.last > 0 && self.written_back == 0,
            latest: self.written_back,
        }
    }

    fn joined(one: Behind, other: Behind) -> Behind {
        Behind {
            lacks: one.lacks || other.lacks,
            stored_lacks: one.stored_lacks || other.stored_lacks,
            latest: one.latest.max(other.latest),
        }
    }

    fn is_unsettled(&self) -> bool {
        self.written_back == 0
    }

    fn may_be_unsettled(summary: Behind) -> bool {
        summary.lacks
    }

    fn settled(summary: Behind) -> Behind {
        Behind {
            lacks: false,
            stored_lacks: false,
            latest: summary.latest,
        }
    }

    fn is_same(&self, other: Stored) -> bool {
        *self == other
    }

    fn are_alike(one: Behind, other: Behind) -> bool {
        one == other
    }

    fn flagged(self, _flag: bool) -> Stored {
        self
    }

    fn summary_flagged(summary: Behind, _flag: bool) -> Behind {
        summary
    }
}

/// The bytes are stored to at the place.
#[derive(Clone, Copy, Debug, Drop)]
pub(crate) struct StoredAt {
    pub(crate) place: u32,
}

impl Change<Stored> for StoredAt {
    ghost changed = { λ change state. stored_at change.place };

    fn changed(&self, _state: Stored) -> Stored {
        Stored {
            last: self.place,
            written_back: 0,
        }
    }

    fn may_alter(&self, _summary: Behind) -> bool {
        true
    }

    fn widened(&self, summary: Behind) -> Behind {
        Behind {
            lacks: true,
            stored_lacks: true,
            latest: summary.latest,
        }
    }

    fn effect(&self, _summary: Behind, _state: Stored) -> Effect {
        Effect::Widens
    }
}

/// The lines are written back at the place.
#[derive(Clone, Copy, Debug, Drop)]
pub(crate) struct WrittenBackAt {
    pub(crate) place: u32,
}

impl Change<Stored> for WrittenBackAt {
    ghost changed = { λ change state. written_back_at change.place state };

    fn changed(&self, state: Stored) -> Stored {
        if state.written_back == 0 {
            Stored {
                last: state.last,
                written_back: self.place,
            }
        } else {
            state
        }
    }

    fn may_alter(&self, summary: Behind) -> bool {
        summary.lacks
    }

    fn widened(&self, summary: Behind) -> Behind {
        Behind {
            lacks: summary.lacks,
            stored_lacks: summary.stored_lacks,
            latest: summary.latest.max(self.place),
        }
    }

    fn effect(&self, _summary: Behind, state: Stored) -> Effect {
        if state.written_back == 0 {
            Effect::Settles
        } else {
            Effect::None
        }
    }
}

/// Whether the byte was stored to and is not durable, where the last fence is this one.
#[derive(Clone, Copy, Debug, Drop)]
pub(crate) struct IsOpen {
    pub(crate) fence: u32,
}

impl Test<Stored> for IsOpen {
    ghost passes = { λ test state. is_open test.fence state };

    fn passes(&self, state: Stored) -> bool {
        state.last > 0 && (state.written_back == 0 || self.fence < state.written_back)
    }

    fn may_pass(&self, summary: Behind) -> bool {
        summary.stored_lacks || self.fence < summary.latest
    }
}

/// Whether the state is another.
#[derive(Clone, Copy, Debug, Drop)]
pub(crate) struct IsOther {
    pub(crate) state: Stored,
}

impl Test<Stored> for IsOther {
    ghost passes = { λ test state. is_other test.state state };

    fn passes(&self, state: Stored) -> bool {
        state.last != self.state.last || state.written_back != self.state.written_back
    }

    fn may_pass(&self, _summary: Behind) -> bool {
        true
    }
}
