//! A ledger text of any length that is read piece by piece, and each block handed out once it was checked.

ghost use Rattle.std.specs.Prelude.{◌≡◌, ◌≤◌, ◌++◌, ◌∷◌, [], ℕ, List, None, Some, IfOk, IsTrue, MatchResult, codes, false, length, take};
ghost use Rattle.pmf_event.specs.declared.profile.Profile.{Profile};
ghost use Rattle.pmf_ledger.specs.{BlockReading.{GivesBlock, HasNoLineEnd, HasTaken, RefusesFront}, LedgerText.{version_of}, Loading.{AtBlock, Reading, after_version, fault_through, reading_through, unread}, LoneBlock.{IsLone}};

use crate::block_lines::{BlockFault, BlockLines};
use crate::loading::{LedgerFault, is_over};
use crate::lone_block::LoneBlock;
use memchr::memchr;
use pmf_event::Profile;
use pmf_storelog::LOG_LIMIT;
use pmf_verdict::Verdict;
use std::alloc::{AllocFailed, Global};

/// What a [`BlockReader`] took of a piece.
#[derive(Drop)]
pub struct Fed {
    /// How many bytes from its front.
    pub taken: usize,
    /// The block that ends there. Without one the whole piece was taken.
    pub block: Option<Verdict>,
}

/// A ledger text that is read piece by piece. It keeps one section and one text line at most, whatever the length of the text.
/// The names of the blocks have to rise, as they do in every text that was written.
#[derive(Drop)]
pub struct BlockReader {
    pub(crate) lines: BlockLines,
    /// The front of a text line that is not ended.
    pub(crate) front: Vec<u8>,
}

impl BlockReader {
    /// Of no byte. Takes no memory.
    pub fn new(alloc: Global) -> BlockReader
        ensures { HasTaken [] unread result }
    {
        BlockReader {
            lines: BlockLines::new(alloc),
            front: Vec::new(alloc),
        }
    }

    /// Of the first text line alone, which tells this profile. Takes no memory.
    pub(crate) fn behind_version(alloc: Global, profile: Profile) -> BlockReader
        ensures { HasTaken (version_of profile ++ codes "\n") (after_version unread 1 (Some profile)) result }
    {
        BlockReader {
            lines: BlockLines::behind_version(alloc, profile),
            front: Vec::new(alloc),
        }
    }

    /// Whether a block comes next, or the last text line, and no byte of it was taken.
    pub fn is_between(&self) -> bool
        ensures { (text : List ℕ) (r : Reading) → HasTaken text r self.now → IsTrue result → (r.stage ≡ AtBlock) × (self.now.front.items ≡ []) }
    {
        self.front.is_empty() && self.lines.is_between()
    }

    /// Takes the bytes of a block that was read apart, if it is by the text's profile, one comes next, and its name comes after those
    /// before it; else nothing.
    pub fn take(&mut self, lone: &LoneBlock) -> bool
        ensures taken { (text bytes : List ℕ) (r : Reading) (profile : Profile) → HasTaken text r self.old → IsLone profile bytes lone.now → IsTrue result
            → (e : Reading) × HasTaken (text ++ bytes) e self.new × GivesBlock r e (Some lone.now.verdict) }
        ensures kept { result ≡ false → self.new ≡ self.old }
    {
        self.front.is_empty() && self.lines.take(lone)
    }

    /// The profile that the first text line tells, or One before it.
    pub fn profile(&self) -> Profile
        ensures { (text : List ℕ) (r : Reading) → HasTaken text r self.now → result ≡ r.profile }
    {
        self.lines.profile()
    }

    /// Takes the bytes up to the end of the next block, or all. The block's section was checked again, as
    /// [`load_ledger`](crate::load_ledger) does it. Takes memory for the section, and for a text line that goes on in the next piece; none that has
    /// more than [`LOG_LIMIT`] bytes is a ledger's, and such a one is given up as for want of memory.
    pub fn feed(&mut self, alloc: Global, piece: &[u8]) -> Result<Fed, BlockFault>
        requires { (text : List ℕ) × (r : Reading) × HasTaken text r self.old }
        ensures takes { (text : List ℕ) (r : Reading) → HasTaken text r self.old → MatchResult result
            (λ fed. (e : Reading) × HasTaken (text ++ take fed.taken piece.now) e self.new × GivesBlock r e fed.block)
            (RefusesFront (text ++ piece.now)) }
        ensures within { IfOk result (λ fed. fed.taken ≤ length piece.now) }
        ensures all { IfOk result (λ fed. fed.block ≡ None → fed.taken ≡ length piece.now) }
    {
        let mut taken = 0;
        while let Some(length) = memchr(b'\n', &piece[taken..]) {
            let end = taken + length;
            let block = match self.end_line(alloc, &piece[taken..end]) {
                Ok(block) => block,
                Err(fault) => return Err(fault),
            };
            taken = end + 1;
            if block.is_some() {
                return Ok(Fed { taken, block });
            }
        }
        match self.keep(&piece[taken..]) {
            Ok(()) => Ok(Fed {
                taken: piece.len(),
                block: None,
            }),
            Err(fault) => Err(fault),
        }
    }

    /// The text ends here.
    pub fn finish(&self) -> Result<(), LedgerFault>
        ensures { (text : List ℕ) (r : Reading) → HasTaken text r self.now → MatchResult result
            (λ _. (fault_through text ≡ None) × (reading_through text ≡ r))
            (λ found. fault_through text ≡ Some found) }
    {
        if is_over(&self.lines.next, &self.front) {
            Ok(())
        } else {
            Err(LedgerFault::NotALedger {
                line: self.lines.line(),
            })
        }
    }

    // Takes the rest of a text line, and its end.
    fn end_line(&mut self, alloc: Global, rest: &[u8]) -> Result<Option<Verdict>, BlockFault>
        requires taken { (text : List ℕ) × (r : Reading) × HasTaken text r self.old }
        requires unended { HasNoLineEnd rest.now }
        ensures { (text : List ℕ) (r : Reading) → HasTaken text r self.old → MatchResult result
            (λ given. (e : Reading) × HasTaken (text ++ rest.now ++ 10 ∷ []) e self.new × GivesBlock r e given)
            (RefusesFront (text ++ rest.now ++ 10 ∷ [])) }
    {
        if self.front.is_empty() {
            return self.lines.follow(alloc, rest);
        }
        match self.keep(rest) {
            Ok(()) => {}
            Err(fault) => return Err(fault),
        }
        let given = self.lines.follow(alloc, &self.front);
        self.front.clear();
        given
    }

    // Keeps more of a text line that is not ended. One that is longer than any may be is given up.
    fn keep(&mut self, more: &[u8]) -> Result<(), BlockFault>
        requires { HasNoLineEnd more.now }
        ensures { (text : List ℕ) (r : Reading) → HasTaken text r self.old → MatchResult result
            (λ _. HasTaken (text ++ more.now) r self.new)
            (RefusesFront (text ++ more.now)) }
    {
        if self.front.len().saturating_add(more.len()) > LOG_LIMIT {
            return Err(BlockFault::Text(LedgerFault::OutOfMemory));
        }
        match self.front.extend_from_slice(more) {
            Ok(()) => Ok(()),
            Err(_) => Err(BlockFault::Text(LedgerFault::OutOfMemory)),
        }
    }
}
