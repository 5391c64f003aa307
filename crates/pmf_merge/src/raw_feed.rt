//! A ledger text that is read from its source up to its next block, as it stands.

ghost use Rattle.std.specs.Prelude.{◌≡◌, ◌<◌, ◌≤◌, ◌||◌, ◌∷◌, ◌++◌, ℕ, List, [], Option, None, Some, IfErr, IfOk, IsTrue, OnOk, length, option_map};
ghost use Rattle.pmf_device.specs.Failures.{CanCountOneMore};
ghost use Rattle.pmf_event.specs.declared.name.Name.{Name};
ghost use Rattle.std.specs.Io.KnownBytes.{IsAtEnd};
ghost use Rattle.pmf_ledger.specs.LedgerText.{text_of_end};
ghost use Rattle.pmf_ledger.specs.RawText.{HasNoFirst, IsFirst, RawBlock, tells_fail};
ghost use Rattle.pmf_merge.specs.RawFeeding.{IsNoRawText, IsRawFault, IsRawFed, IsRawHead, head_in, rest_of};

use crate::fault::MergeFault;
use crate::unread::Unread;
use pmf_device::Source;
use pmf_event::{Name, Profile};
use pmf_ledger::{
    BlockFault, FirstBlock, LedgerFault, begins_no_block, first_block, first_version, order,
    push_end,
};
use std::alloc::Global;
use std::cmp::Ordering;

// How many bytes the last text line of so many blocks has at most.
fn longest_end(_blocks: u64) -> usize
    ensures { length (text_of_end _blocks) ≤ result }
{
    34
}

/// What was read of a text.
#[derive(Drop)]
pub(crate) struct RawFeed {
    unread: Unread,
    /// The block that comes next, if one does.
    pub(crate) next: Option<FirstBlock>,
    /// What the first text line tells.
    pub(crate) profile: Profile,
    /// The name of the last block that was told.
    last: Option<Name>,
    /// How many blocks were told.
    told: u64,
    /// How many text lines come before the next block.
    lines: u64,
}

impl RawFeed {
    /// Reads a text up to its first block. It is that of this index.
    pub(crate) fn open<R: Source>(
        alloc: Global,
        source: &mut R,
        piece: &mut [u8],
        index: usize,
    ) -> Result<RawFeed, MergeFault>
        requires room { 0 < length piece.old }
        requires counted { CanCountOneMore (R.failed_calls source.old) }
        ensures head { IfOk result (IsRawHead (R.left source.old) (R.left source.new) []) }
        ensures refused { IfErr result (IsRawFault (R.left source.old) index) }
        ensures counted { OnOk result (R.failed_calls source.new ≡ R.failed_calls source.old) }
        ensures room { length piece.new ≡ length piece.old }
    {
        let mut unread = Unread::new(alloc);
        unread.read_more(alloc, source, piece, index)?;
        let Some((profile, taken)) = first_version(unread.rest()) else {
            return Err(MergeFault::Text {
                index,
                fault: BlockFault::Text(LedgerFault::NotALedger { line: 1 }),
            });
        };
        unread.take(taken);
        let mut feed = RawFeed {
            unread,
            next: None,
            profile,
            last: None,
            told: 0,
            lines: 1,
        };
        feed.find(alloc, source, piece, index)?;
        Ok(feed)
    }

    /// The bytes of the next block.
    pub(crate) fn block(&self) -> &[u8]
        ensures { (v : RawBlock) → head_in self.now ≡ Some v → result.now ≡ v.bytes }
    {
        let rest = self.unread.rest();
        match self.next {
            Some(found) => &rest[..found.taken.min(rest.len())],
            None => &rest[..0],
        }
    }

    /// The name of the next block, if one comes next.
    pub(crate) fn name(&self) -> Option<Name>
        ensures { result ≡ option_map (λ (b : RawBlock). b.name) (head_in self.now) }
    {
        match self.next {
            Some(found) => Some(found.name),
            None => None,
        }
    }

    /// Whether some row of the next block counts as fail, or one did before.
    pub(crate) fn tells_fail(&self, before: bool) -> bool
        ensures { (start left : Option (List ℕ)) (told : List RawBlock) (v : RawBlock) → IsRawHead start left told self.now
            → head_in self.now ≡ Some v → result ≡ (before || tells_fail v.bytes) }
    {
        if before {
            return true;
        }
        match self.next {
            Some(found) => found.tells_fail(self.unread.rest()),
            None => false,
        }
    }

    /// Goes on to the block behind the next one, which was told.
    pub(crate) fn advance<R: Source>(
        &mut self,
        alloc: Global,
        source: &mut R,
        piece: &mut [u8],
        index: usize,
    ) -> Result<(), MergeFault>
        requires room { 0 < length piece.old }
        requires counted { CanCountOneMore (R.failed_calls source.old) }
        requires head { (start : Option (List ℕ)) × (told : List RawBlock) × IsRawHead start (R.left source.old) told self.old }
        ensures advanced { (start : Option (List ℕ)) (told : List RawBlock) (v : RawBlock) → IsRawHead start (R.left source.old) told self.old
            → head_in self.old ≡ Some v → OnOk result (IsRawHead start (R.left source.new) (told ++ v ∷ []) self.new) }
        ensures refused { (start : Option (List ℕ)) (told : List RawBlock) → IsRawHead start (R.left source.old) told self.old → IfErr result (IsRawFault start index) }
        ensures profile { self.new.profile ≡ self.old.profile }
        ensures counted { OnOk result (R.failed_calls source.new ≡ R.failed_calls source.old) }
        ensures room { length piece.new ≡ length piece.old }
    {
        let Some(found) = self.next else {
            return Ok(());
        };
        let Some(told) = self.told.checked_add(1) else {
            return Err(MergeFault::OutOfMemory);
        };
        self.unread.take(found.taken);
        self.next = None;
        self.last = Some(found.name);
        self.told = told;
        self.lines = self.lines.saturating_add(found.lines);
        self.find(alloc, source, piece, index)
    }

    // Reads on until a block stands whole, or to the end of the text.
    fn find<R: Source>(
        &mut self,
        alloc: Global,
        source: &mut R,
        piece: &mut [u8],
        index: usize,
    ) -> Result<(), MergeFault>
        requires room { 0 < length piece.old }
        requires counted { CanCountOneMore (R.failed_calls source.old) }
        requires none { self.old.next ≡ None }
        ensures found { (start : Option (List ℕ)) (told : List RawBlock) → IsRawFed start (R.left source.old) told self.old
            → OnOk result (IsRawHead start (R.left source.new) told self.new) }
        ensures refused { (start : Option (List ℕ)) (told : List RawBlock) → IsRawFed start (R.left source.old) told self.old → IfErr result (IsRawFault start index) }
        ensures profile { self.new.profile ≡ self.old.profile }
        ensures counted { OnOk result (R.failed_calls source.new ≡ R.failed_calls source.old) }
        ensures room { length piece.new ≡ length piece.old }
    {
        let mut more = true;
        while more {
            if let Some(found) = first_block(self.unread.rest()) {
                return self.keep(found, index);
            }
            if self.is_garbled() {
                return Err(self.refused(index));
            }
            more = self.unread.read_more(alloc, source, piece, index)?;
        }
        self.end(alloc, index)
    }

    // The block comes next, if its name comes after those before it.
    fn keep(&mut self, found: FirstBlock, index: usize) -> Result<(), MergeFault>
        requires { IsFirst (rest_of self.old.unread) found }
        ensures kept { (start left : Option (List ℕ)) (told : List RawBlock) → IsRawFed start left told self.old → OnOk result (IsRawHead start left told self.new) }
        ensures refused { (start left : Option (List ℕ)) (told : List RawBlock) → IsRawFed start left told self.old → IfErr result (IsRawFault start index) }
        ensures profile { self.new.profile ≡ self.old.profile }
    {
        if let Some(last) = self.last {
            match order(last, found.name) {
                Ordering::Less => {}
                _ => {
                    return Err(MergeFault::Text {
                        index,
                        fault: BlockFault::OutOfOrder { name: found.name },
                    });
                }
            }
        }
        self.next = Some(found);
        Ok(())
    }

    // No block comes next: the last text line does, and all was read.
    fn end(&self, alloc: Global, index: usize) -> Result<(), MergeFault>
        requires { self.now.next ≡ None }
        ensures ended { (start left : Option (List ℕ)) (told : List RawBlock) → IsRawFed start left told self.now → IsAtEnd left
            → OnOk result (IsRawHead start left told self.now) }
        ensures refused { (start left : Option (List ℕ)) (told : List RawBlock) → IsRawFed start left told self.now → IsAtEnd left → HasNoFirst (rest_of self.now.unread)
            → IfErr result (IsRawFault start index) }
    {
        let mut end = String::new(alloc);
        match push_end(&mut end, self.told) {
            Ok(()) => {}
            Err(_) => return Err(MergeFault::OutOfMemory),
        }
        if self.unread.rest() == end.as_bytes() {
            return Ok(());
        }
        Err(self.refused(index))
    }

    // Whether what was read shows that neither a block comes next nor the end, whatever follows.
    fn is_garbled(&self) -> bool
        ensures { IsTrue result → (length (text_of_end self.now.told) < length (rest_of self.now.unread)) × ((more : List ℕ) → HasNoFirst (rest_of self.now.unread ++ more)) }
    {
        let rest = self.unread.rest();
        rest.len() > longest_end(self.told) && begins_no_block(rest)
    }

    // What stands behind the blocks that were told is refused.
    fn refused(&self, index: usize) -> MergeFault
        ensures { (start : Option (List ℕ)) → IsNoRawText start → IsRawFault start index result }
    {
        MergeFault::Text {
            index,
            fault: BlockFault::Text(LedgerFault::NotALedger {
                line: self.lines.saturating_add(1),
            }),
        }
    }
}
