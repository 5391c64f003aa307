//! The next block of each text that is merged as it stands, and the least of them.

ghost use Rattle.std.specs.Prelude.{◌≡◌, ◌≢◌, ◌↔◌, ◌≤◌, ◌<◌, ◌+◌, ℕ, List, [], Option, None, Some, IfOk, IfErr, MatchOption, OnOk, All, length, map, slice_index_or, slice_set};
ghost use Rattle.pmf_device.specs.Failures.{CanCountOneMore};
ghost use Rattle.pmf_event.specs.declared.profile.Profile.{Profile};
ghost use Rattle.pmf_ledger.specs.RawText.{RawBlock};
ghost use Rattle.pmf_merge.specs.declared.fault.MergeFault.TheVariants.{ProfileMismatch};
ghost use Rattle.pmf_merge.specs.{RawWritten.{AddsRaw}, Trusting.{IsLeastRaw, IsTrustFaultOf, IsTrusting, heads_of, raw_names_of}, Waiting.{IsWaiting}};

use crate::fault::MergeFault;
use crate::raw_feed::RawFeed;
use crate::waiting::Waiting;
use pmf_device::Source;
use pmf_event::Profile;
use std::alloc::Global;

/// The texts that are read side by side, each up to its next block.
#[derive(Drop)]
pub(crate) struct RawHeads {
    pub(crate) feeds: Vec<RawFeed>,
    waiting: Waiting,
    pub(crate) profile: Profile,
}

impl RawHeads {
    /// Reads each text up to its first block.
    pub(crate) fn begin<R: Source>(
        alloc: Global,
        sources: &mut Vec<R>,
        piece: &mut [u8],
    ) -> Result<RawHeads, MergeFault>
        requires room { 0 < length piece.old }
        requires counted { All (λ s. CanCountOneMore (R.failed_calls s)) sources.old.items }
        ensures trusting { IfOk result (λ heads. IsTrusting (length sources.old.items) (map R.left sources.old.items) (map R.left sources.new.items)
            heads.feeds.items heads.profile []) }
        ensures refused { IfErr result (IsTrustFaultOf (map R.left sources.old.items)) }
        ensures waiting { IfOk result (λ heads. IsWaiting (raw_names_of heads.feeds.items) heads.waiting) }
        ensures len { OnOk result (length sources.new.items ≡ length sources.old.items) }
        ensures of_none { IfOk result (λ heads. length sources.old.items ≡ 0 → heads.profile ≡ Profile.One) }
        ensures counted { OnOk result (All (λ s. CanCountOneMore (R.failed_calls s)) sources.new.items) }
        ensures room { length piece.new ≡ length piece.old }
    {
        let mut heads = RawHeads {
            feeds: Vec::new(alloc),
            waiting: Waiting::new(alloc),
            profile: Profile::One,
        };
        for index in 0..sources.len() {
            heads.add(alloc, &mut sources[index], piece, index)?;
        }
        Ok(heads)
    }

    // Reads the text of this index up to its first block.
    fn add<R: Source>(
        &mut self,
        alloc: Global,
        source: &mut R,
        piece: &mut [u8],
        index: usize,
    ) -> Result<(), MergeFault>
        requires room { 0 < length piece.old }
        requires counted { CanCountOneMore (R.failed_calls source.old) }
        ensures added { (starts lefts : List (Option (List ℕ))) → IsTrusting index starts lefts self.old.feeds.items self.old.profile []
            → slice_index_or starts index None ≡ R.left source.old → index < length lefts
            → OnOk result (IsTrusting (index + 1) starts (slice_set lefts index (R.left source.new)) self.new.feeds.items self.new.profile []) }
        ensures waiting { length self.old.feeds.items ≡ index → IsWaiting (raw_names_of self.old.feeds.items) self.old.waiting
            → OnOk result (IsWaiting (raw_names_of self.new.feeds.items) self.new.waiting) }
        ensures refused { (starts lefts : List (Option (List ℕ))) → IsTrusting index starts lefts self.old.feeds.items self.old.profile []
            → slice_index_or starts index None ≡ R.left source.old → index < length starts → IfErr result (IsTrustFaultOf starts) }
        ensures counted { OnOk result (R.failed_calls source.new ≡ R.failed_calls source.old) }
        ensures room { length piece.new ≡ length piece.old }
    {
        let feed = RawFeed::open(alloc, source, piece, index)?;
        let name = feed.name();
        self.profile = self.one_with(feed.profile, index)?;
        match self.feeds.push(feed) {
            Ok(()) => {}
            Err(_) => return Err(MergeFault::OutOfMemory),
        }
        match self.waiting.put(name, index) {
            Ok(()) => Ok(()),
            Err(_) => Err(MergeFault::OutOfMemory),
        }
    }

    // The profile of the text of this index, if it is that of the texts before it.
    fn one_with(&self, profile: Profile, index: usize) -> Result<Profile, MergeFault>
        ensures one { IfOk result (λ one. (one ≡ profile) × (0 < index → self.now.profile ≡ one)) }
        ensures refused { IfErr result (λ found. (found ≡ ProfileMismatch index) × (0 < index) × (self.now.profile ≢ profile)) }
    {
        if index > 0 && profile != self.profile {
            return Err(MergeFault::ProfileMismatch { index });
        }
        Ok(profile)
    }

    /// The index of the least block that comes next, if any does.
    pub(crate) fn least(&self) -> Option<usize>
        requires { IsWaiting (raw_names_of self.now.feeds.items) self.now.waiting }
        ensures { MatchOption result ((i : ℕ) → slice_index_or (heads_of self.now.feeds.items) i None ≡ None)
            (λ least. (least < length self.now.feeds.items) × (v : RawBlock) × IsLeastRaw self.now.feeds.items least v) }
    {
        self.waiting.first()
    }

    /// Reads the text of this index, whose block was told, up to its next one.
    pub(crate) fn advance<R: Source>(
        &mut self,
        alloc: Global,
        source: &mut R,
        piece: &mut [u8],
        index: usize,
    ) -> Result<(), MergeFault>
        requires room { 0 < length piece.old }
        requires counted { CanCountOneMore (R.failed_calls source.old) }
        requires trusting { (n : ℕ) × (starts : List (Option (List ℕ))) × (lefts : List (Option (List ℕ))) × (out : List RawBlock)
            × IsTrusting n starts lefts self.old.feeds.items self.old.profile out × (index < n) × (slice_index_or lefts index None ≡ R.left source.old) }
        ensures advanced { (n : ℕ) (starts lefts : List (Option (List ℕ))) (out new : List RawBlock) (v : RawBlock)
            → IsTrusting n starts lefts self.old.feeds.items self.old.profile out
            → index < n → n ≤ length lefts → slice_index_or lefts index None ≡ R.left source.old → IsLeastRaw self.old.feeds.items index v → AddsRaw out v new
            → OnOk result (IsTrusting n starts (slice_set lefts index (R.left source.new)) self.new.feeds.items self.new.profile new) }
        ensures refused { (starts lefts : List (Option (List ℕ))) (out : List RawBlock)
            → IsTrusting (length starts) starts lefts self.old.feeds.items self.old.profile out
            → index < length starts → slice_index_or lefts index None ≡ R.left source.old → IfErr result (IsTrustFaultOf starts) }
        ensures waiting { IsWaiting (raw_names_of self.old.feeds.items) self.old.waiting → index < length self.old.feeds.items
            → OnOk result (IsWaiting (raw_names_of self.new.feeds.items) self.new.waiting) }
        ensures profile { OnOk result (self.new.profile ≡ self.old.profile) }
        ensures counted { OnOk result (R.failed_calls source.new ≡ R.failed_calls source.old) }
        ensures room { length piece.new ≡ length piece.old }
    {
        let feed = &mut self.feeds[index];
        let name = feed.name();
        feed.advance(alloc, source, piece, index)?;
        let new = feed.name();
        match self.waiting.replace(name, new, index) {
            Ok(()) => Ok(()),
            Err(_) => Err(MergeFault::OutOfMemory),
        }
    }
}
