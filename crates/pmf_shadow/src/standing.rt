//! How the bytes stand, run by run, for who goes over all of them.

ghost use Rattle.std.specs.Prelude.{◌≡◌, ◌<◌, ◌≤◌, ◌-◌, ℕ, IfSome, MatchOption};
ghost use Rattle.pmf_event.specs.{LineBytes.{is_undurable}, Ranges.{first_from}};
ghost use Rattle.pmf_shadow.specs.Bytes.{state_at};
ghost use Rattle.pmf_shadow.specs.{Shadow.{ForEachList}, Standing.{AllLeaveOpen, AllStandSo, AreFirstStored, LiesBetween, NoneStored}, States.{holds_of, lacks_write_back, late_for, place_of, stored_of}};

use crate::byte::{ByteState, Fails, HasOther, IsOutstanding, IsStored, IsUndurable, IsUnwritten};
use crate::shadow::Shadow;
use pmf_runs::Test;

/// How some neighbouring bytes stand: all of them so.
#[derive(Clone, Copy, Debug, PartialEq, Eq)]
pub struct Standing {
    /// The place that was told of the last store, where there is one.
    pub last: Option<u32>,
    /// Whether there is one that is not durable.
    pub undurable: bool,
    /// Whether there is one that no write-back follows.
    pub unwritten: bool,
    /// Whether the bytes are excluded.
    pub excluded: bool,
}

// How bytes stand that leave nothing open; a store of them is not told.
const NOTHING_OPEN: Standing = Standing {
    last: None,
    undurable: false,
    unwritten: false,
    excluded: false,
};

impl Shadow {
    /// How the bytes from the first one on stand, and the byte up to which they do, at most the end. It takes
    /// O(log n) steps for n runs of equal state that are held.
    pub fn standing_from(&self, first: u64, end: u64) -> (Standing, u64)
        requires { first < end }
        ensures further { first < result.1 }
        ensures within { result.1 ≤ end }
        ensures stands { ForEachList self.now (λ told es p. AllStandSo told es p first result.1 result.0) }
    {
        let state = self.bytes.at(first);
        let until = self.end_of_run(first, end, state);
        (self.standing_of(state), until)
    }

    /// What the bytes from the first one on leave open, and the byte up to which they do so, at most the end. Neighbouring bytes that are
    /// not excluded, and have no store that is not durable, go together, and no store of them is told. It takes O(log n) steps.
    pub fn open_from(&self, first: u64, end: u64) -> (Standing, u64)
        requires { first < end }
        ensures further { first < result.1 }
        ensures within { result.1 ≤ end }
        ensures opened { ForEachList self.now (λ told es p. AllLeaveOpen told es p first result.1 result.0) }
    {
        let outstanding = IsOutstanding { epoch: self.fences };
        match self.bytes.first_where(first, end, &outstanding) {
            None => (NOTHING_OPEN, end),
            Some(byte) if first < byte => (NOTHING_OPEN, byte),
            Some(_) => self.standing_from(first, end),
        }
    }

    /// How many runs of bytes that stand alike are excluded or have a store that is not durable, as they are held: neighbouring runs may
    /// stand alike. It takes a step for each run, but for what is durable at once.
    pub fn open_runs(&self) -> usize {
        self.bytes.count_runs(&IsOutstanding { epoch: self.fences })
    }

    /// The least byte from the first one on, up to the end, whose last store is not durable.
    pub fn least_undurable(&self, first: u64, end: u64) -> Option<u64>
        ensures { ForEachList self.now (λ told es p. result ≡ first_from (is_undurable es p) first (end - first)) }
    {
        let undurable = IsUndurable { epoch: self.fences };
        self.bytes.first_where(first, end, &undurable)
    }

    /// The first neighbouring bytes from the first one on, up to the end, that were stored to: the least of them, and the byte up to which
    /// all of them were. It takes O(k log n) steps for the k runs of these.
    pub fn stored_from(&self, first: u64, end: u64) -> Option<(u64, u64)>
        ensures lie { IfSome result (LiesBetween first end) }
        ensures stored { ForEachList self.now (λ told es p. MatchOption result (NoneStored es p first end) (AreFirstStored es p first)) }
    {
        let byte = self.bytes.first_where(first, end, &IsStored)?;
        let until = self.bytes.first_where(byte, end, &Fails(IsStored));
        Some((byte, until.unwrap_or(end)))
    }

    // How a byte with this state stands.
    fn standing_of(&self, state: ByteState) -> Standing
        ensures last { result.last ≡ place_of (stored_of state) }
        ensures undurable { result.undurable ≡ holds_of (late_for self.now.fences) (stored_of state) }
        ensures unwritten { result.unwritten ≡ holds_of lacks_write_back (stored_of state) }
        ensures excluded { result.excluded ≡ state.excluded }
    {
        let undurable = IsUndurable { epoch: self.fences };
        let last = match state.stored() {
            None => None,
            Some(stored) => Some(stored.last),
        };
        Standing {
            last,
            undurable: undurable.passes(state),
            unwritten: IsUnwritten.passes(state),
            excluded: state.excluded,
        }
    }

    // The first byte from there on that has another state, or the end.
    fn end_of_run(&self, first: u64, end: u64, state: ByteState) -> u64
        requires within { first < end }
        requires here { state ≡ state_at self.now.bytes first }
        ensures further { first < result }
        ensures within { result ≤ end }
        ensures same { (b : ℕ) → first ≤ b → b < result → state_at self.now.bytes b ≡ state }
    {
        match self.bytes.first_where(first, end, &HasOther { state }) {
            None => end,
            Some(byte) => byte,
        }
    }
}
