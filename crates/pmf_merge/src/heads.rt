//! The next section of each text that is read, and the least of them.

ghost use Rattle.std.specs.Prelude.{◌≡◌, ◌≢◌, ◌↔◌, ◌≤◌, ◌<◌, ◌+◌, ℕ, List, [], Option, None, Some, IfOk, IfErr, MatchOption, MatchResult, OnOk, All, IsTrue, length, map, option_map, slice_index_or, slice_set};
ghost use Rattle.pmf_device.specs.Failures.{CanCountOneMore};
ghost use Rattle.pmf_event.specs.declared.profile.Profile.{Profile};
ghost use Rattle.pmf_verdict.specs.Checked.{Checked};
ghost use Rattle.pmf_merge.specs.declared.fault.MergeFault.TheVariants.{ProfileMismatch};
ghost use Rattle.pmf_merge.specs.{Heads.{HasTold, IsLeast, IsMerging, names_of}, Merging.{IsMergeFaultOf}, Waiting.{IsWaiting}};

use crate::fault::MergeFault;
use crate::feed::Feed;
use crate::waiting::Waiting;
use pmf_device::Source;
use pmf_event::{Name, Profile};
use pmf_verdict::Verdict;
use std::alloc::Global;
use std::mem;
use std::thread::Threads;

/// The texts that are read side by side, each up to its next section.
#[derive(Drop)]
pub(crate) struct Heads {
    feeds: Vec<Feed>,
    pub(crate) heads: Vec<Option<Verdict>>,
    waiting: Waiting,
    pub(crate) profile: Profile,
    /// How many threads read blocks of a text.
    workers: usize,
    /// How many texts there are in all.
    texts: usize,
}

impl Heads {
    /// Reads each text up to its first section, by so many threads.
    pub(crate) fn begin<T: Threads + Sync, R: Source>(
        rt: &T,
        alloc: Global,
        workers: usize,
        sources: &mut Vec<R>,
    ) -> Result<Heads, MergeFault>
        requires { All (λ s. CanCountOneMore (R.failed_calls s)) sources.old.items }
        ensures merging { IfOk result (λ heads. IsMerging (length sources.old.items) (map R.left sources.old.items) (map R.left sources.new.items)
            heads.feeds.items heads.heads.items heads.profile []) }
        ensures refused { IfErr result (IsMergeFaultOf (map R.left sources.old.items)) }
        ensures waiting { IfOk result (λ heads. IsWaiting (names_of heads.heads.items) heads.waiting) }
        ensures len { OnOk result (length sources.new.items ≡ length sources.old.items) }
        ensures of_none { IfOk result (λ heads. length sources.old.items ≡ 0 → heads.profile ≡ Profile.One) }
        ensures counted { OnOk result (All (λ s. CanCountOneMore (R.failed_calls s)) sources.new.items) }
    {
        let mut heads = Heads {
            feeds: Vec::new(alloc),
            heads: Vec::new(alloc),
            waiting: Waiting::new(alloc),
            profile: Profile::One,
            workers,
            texts: sources.len(),
        };
        for index in 0..sources.len() {
            heads.add(rt, alloc, &mut sources[index], index)?;
        }
        Ok(heads)
    }

    // Reads the text of this index up to its first section.
    fn add<T: Threads + Sync, R: Source>(
        &mut self,
        rt: &T,
        alloc: Global,
        source: &mut R,
        index: usize,
    ) -> Result<(), MergeFault>
        requires { CanCountOneMore (R.failed_calls source.old) }
        ensures added { (starts lefts : List (Option (List ℕ)))
            → IsMerging index starts lefts self.old.feeds.items self.old.heads.items self.old.profile []
            → slice_index_or starts index None ≡ R.left source.old → index < length lefts
            → OnOk result (IsMerging (index + 1) starts (slice_set lefts index (R.left source.new)) self.new.feeds.items self.new.heads.items self.new.profile []) }
        ensures waiting { length self.old.heads.items ≡ index → IsWaiting (names_of self.old.heads.items) self.old.waiting → OnOk result (IsWaiting (names_of self.new.heads.items) self.new.waiting) }
        ensures refused { (starts lefts : List (Option (List ℕ)))
            → IsMerging index starts lefts self.old.feeds.items self.old.heads.items self.old.profile []
            → slice_index_or starts index None ≡ R.left source.old → index < length starts → IfErr result (IsMergeFaultOf starts) }
        ensures counted { OnOk result (R.failed_calls source.new ≡ R.failed_calls source.old) }
    {
        let Ok(mut feed) = Feed::new(alloc, self.workers, self.texts) else {
            return Err(MergeFault::OutOfMemory);
        };
        let head = feed.next(rt, alloc, source, index)?;
        self.profile = self.one_with(feed.profile(), index)?;
        match self.feeds.push(feed) {
            Ok(()) => {}
            Err(_) => return Err(MergeFault::OutOfMemory),
        }
        match self.waiting.put(name_in(&head), index) {
            Ok(()) => {}
            Err(_) => return Err(MergeFault::OutOfMemory),
        }
        match self.heads.push(head) {
            Ok(()) => Ok(()),
            Err(_) => Err(MergeFault::OutOfMemory),
        }
    }

    // The profile of the text of this index, if it is that of the texts before it.
    fn one_with(&self, profile: Profile, index: usize) -> Result<Profile, MergeFault>
        ensures one { IfOk result (λ one. (one ≡ profile) × (0 < index → self.now.profile ≡ one)) }
        ensures refused { IfErr result (λ found. (found ≡ ProfileMismatch index) × (0 < index) × (self.now.profile ≢ profile)) }
    {
        if index > 0 && !self.is_by(profile) {
            return Err(MergeFault::ProfileMismatch { index });
        }
        Ok(profile)
    }

    /// The index of the least section that waits, if any does.
    pub(crate) fn least(&self) -> Option<usize>
        requires { IsWaiting (names_of self.now.heads.items) self.now.waiting }
        ensures { MatchOption result ((i : ℕ) → slice_index_or self.now.heads.items i None ≡ None)
            (λ least. (least < length self.now.heads.items) × (v : Checked) × IsLeast self.now.heads.items least v) }
    {
        self.waiting.first()
    }

    /// Reads the text of this index, whose section was told, up to its next one, and gives the section away.
    pub(crate) fn advance<T: Threads + Sync, R: Source>(
        &mut self,
        rt: &T,
        alloc: Global,
        source: &mut R,
        index: usize,
    ) -> Result<Option<Verdict>, MergeFault>
        requires counted { CanCountOneMore (R.failed_calls source.old) }
        requires merging { (n : ℕ) × (starts : List (Option (List ℕ))) × (lefts : List (Option (List ℕ))) × (out : List Checked)
            × IsMerging n starts lefts self.old.feeds.items self.old.heads.items self.old.profile out
            × (index < n) × (slice_index_or lefts index None ≡ R.left source.old) }
        ensures advanced { (n : ℕ) (starts lefts : List (Option (List ℕ))) (out new : List Checked) (v : Checked)
            → IsMerging n starts lefts self.old.feeds.items self.old.heads.items self.old.profile out
            → index < n → n ≤ length lefts → slice_index_or lefts index None ≡ R.left source.old
            → IsLeast self.old.heads.items index v → HasTold out v new
            → IfOk result (λ told. (told ≡ Some v)
            × IsMerging n starts (slice_set lefts index (R.left source.new)) self.new.feeds.items self.new.heads.items self.new.profile new) }
        ensures refused { (starts lefts : List (Option (List ℕ))) (out : List Checked)
            → IsMerging (length starts) starts lefts self.old.feeds.items self.old.heads.items self.old.profile out
            → index < length starts → slice_index_or lefts index None ≡ R.left source.old
            → IfErr result (IsMergeFaultOf starts) }
        ensures waiting { IsWaiting (names_of self.old.heads.items) self.old.waiting → index < length self.old.heads.items → OnOk result (IsWaiting (names_of self.new.heads.items) self.new.waiting) }
        ensures profile { OnOk result (self.new.profile ≡ self.old.profile) }
        ensures counted { OnOk result (R.failed_calls source.new ≡ R.failed_calls source.old) }
    {
        let feed = &mut self.feeds[index];
        let head = feed.next(rt, alloc, source, index)?;
        let profile = feed.profile();
        if !self.is_by(profile) {
            return Err(MergeFault::ProfileMismatch { index });
        }
        let name = name_in(&self.heads[index]);
        match self.waiting.replace(name, name_in(&head), index) {
            Ok(()) => {}
            Err(_) => return Err(MergeFault::OutOfMemory),
        }
        Ok(mem::replace(&mut self.heads[index], head))
    }

    // Whether the texts are by this profile.
    fn is_by(&self, profile: Profile) -> bool
        ensures { IsTrue result ↔ (profile ≡ self.now.profile) }
    {
        profile == self.profile
    }
}

// The name of the section that waits, if one does.
fn name_in(head: &Option<Verdict>) -> Option<Name>
    ensures { result ≡ option_map (λ (v : Checked). v.section.name) head.now }
{
    match head {
        Some(verdict) => Some(verdict.name()),
        None => None,
    }
}
