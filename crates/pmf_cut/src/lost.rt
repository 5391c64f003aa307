//! Which order assertions a cut may change.

ghost use Rattle.std.specs.Prelude.{◌≡◌, ◌+◌, ◌<◌, ◌≤◌, ℕ, true, false, None, Some, unwrap_or, IfSome, OnOk};
ghost use Rattle.pmf_cut.specs.Lost.{is_told_again, is_unknown};

use crate::part::Part;
use pmf_event::{ADDRESS_LIMIT, Span};
use pmf_runs::{IsIn, PutIn, RunMap};
use pmf_shadow::{Shadow, Standing};
use std::alloc::{AllocError, Global};

/// The bytes that the parts before this one know a store of. Those of the last one are put to the others when the next one ends.
#[derive(Debug, Drop)]
pub(crate) struct Past {
    bytes: RunMap<bool>,
    last: Option<Part>,
}

impl Past {
    ghost use Rattle.pmf_cut.specs.Lost.{Adds, IsPast, Knows, NoneOld, NoneTold, Puts};

    pub(crate) fn new(alloc: Global) -> Past
        ensures { result.last ≡ None }
    {
        Past {
            bytes: RunMap::new(alloc, false),
            last: None,
        }
    }

    /// Whether no part has ended.
    pub(crate) fn is_empty(&self) -> bool
        ensures { result ≡ true → self.now.last ≡ None }
    {
        self.last.is_none()
    }

    /// Takes a part that has ended.
    #[tactic(auto, using(crate::proofs::LostLemmas::add_first, crate::proofs::LostLemmas::add_next))]
    pub(crate) fn add(&mut self, part: Part) -> Result<(), AllocError>
        ensures adds { OnOk result (Adds self.old self.new part) }
        ensures last { OnOk result (self.new.last ≡ Some part) }
    {
        let last = std::mem::replace(&mut self.last, Some(part));
        match last {
            None => Ok(()),
            Some(last) => {
                self.put(&last)?;
                Ok(())
            }
        }
    }

    // Puts the bytes that the part knows a store of to the others. A step for each run of them.
    fn put(&mut self, part: &Part) -> Result<(), AllocError>
        ensures { OnOk result (Puts self.old self.new part.now) }
    {
        let mut first = 0;
        while let Some((start, end)) = part.shadow.stored_from(first, ADDRESS_LIMIT) {
            self.bytes.change(start, end, &PutIn)?;
            first = end;
        }
        Ok(())
    }

    // The least byte from the first one on, up to the end, that a part before this one knows a store of.
    fn first_past(&self, first: u64, end: u64) -> Option<u64>
        ensures lies { IfSome result (λ byte. (first ≤ byte) × (byte < end)) }
        ensures before { (b : ℕ) → first ≤ b → b < unwrap_or result end → IsPast self.now b → ⊥ }
    {
        let member = self.bytes.first_where(first, end, &IsIn);
        match &self.last {
            None => member,
            Some(part) => {
                match part.shadow.stored_from(first, member.unwrap_or(end)) {
                    None => member,
                    Some((start, _)) => Some(start),
                }
            }
        }
    }

    /// Whether an assertion that orders the one span before the other may have another finding in the part than in the whole: one of
    /// the second span's bytes is old, and one of the first's is checked; or one of the first's is old, and one of the second's was told
    /// again in the part's head, which has so many events. A byte is old that was last stored to before the part and is not told again.
    pub(crate) fn may_lose(&self, shadow: &Shadow, head: u32, before: Span, after: Span) -> bool
        ensures { result ≡ false → Knows self.now shadow.now head before after }
    {
        if self.has_old(shadow, after) {
            return shadow.written_included(before) || self.has_old(shadow, before);
        }
        self.has_old(shadow, before) && Past::has_told(shadow, head, after)
    }

    // Whether a byte of the span is old, and not excluded.
    fn has_old(&self, shadow: &Shadow, span: Span) -> bool
        ensures { result ≡ false → NoneOld self.now shadow.now span.first (span.first + span.size) }
    {
        let end = span.end();
        let mut first = span.first();
        while let Some(byte) = self.first_past(first, end) {
            let (standing, until) = shadow.standing_from(byte, end);
            if is_unknown(standing) {
                return true;
            }
            first = until;
        }
        false
    }

    // Whether a byte of the span was last stored to in the head, and is not excluded.
    fn has_told(shadow: &Shadow, head: u32, span: Span) -> bool
        ensures { result ≡ false → NoneTold shadow.now head span.first (span.first + span.size) }
    {
        let end = span.end();
        let mut first = span.first();
        while first < end {
            let (standing, until) = shadow.standing_from(first, end);
            if is_told_again(standing, head) {
                return true;
            }
            first = until;
        }
        false
    }
}

// Whether no store is known of bytes that stand so, and they are not excluded.
fn is_unknown(standing: Standing) -> bool
    ensures { result ≡ is_unknown standing }
{
    standing.last.is_none() && !standing.excluded
}

// Whether bytes that stand so were last stored to in a head of so many events, and are not excluded.
fn is_told_again(standing: Standing, head: u32) -> bool
    ensures { result ≡ is_told_again head standing }
{
    match standing.last {
        None => false,
        Some(last) => last <= head && !standing.excluded,
    }
}
