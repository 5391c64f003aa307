//! The text lines of a ledger text, and each block handed out once its last one was read.

ghost use Rattle.std.specs.Prelude.{◌≡◌, ◌↔◌, ◌<◌, ◌^◌, ◌+◌, ◌-◌, ℕ, List, [], None, Some, IfOk, IfErr, IsTrue, MatchOption, MatchResult, false};
ghost use Rattle.pmf_event.specs.declared.profile.Profile.{Profile};
ghost use Rattle.pmf_ledger.specs.{BlockReading.{GivesBlock, IsBeforeHandingOut, AreLinesOf, RefusesLine, behind, without_blocks}, Following.{Reaches, StandsFor}, Loading.{AtBlock, AtEnd, Reading, after_end, after_line, after_version, unread, with_rows}, LoneBlock.{IsLone}, Names.{IsBefore}};

use crate::blocks::{Blocks, Next};
use crate::head::{read_end, read_head};
use crate::loading::LedgerFault;
use crate::lone_block::LoneBlock;
use crate::taking::order;
use pmf_event::{Name, Profile};
use pmf_verdict::Verdict;
use std::alloc::Global;
use std::cmp::Ordering;
use std::error::Error;
use std::{fmt, mem};

/// Why a [`BlockReader`](crate::BlockReader) refuses a text line.
#[derive(Clone, Copy, Debug, PartialEq, Eq)]
pub enum BlockFault {
    /// It is not what has to stand there, as [`load_ledger`](crate::load_ledger) says it, or memory is wanted.
    Text(LedgerFault),
    /// Its block's name doesn't come after those of the blocks before it.
    OutOfOrder {
        /// The section.
        name: Name,
    },
}

impl fmt::Display for BlockFault {
    ghost use Rattle.std.specs.Prelude.{Some};
    ghost use Rattle.pmf_ledger.specs.FaultText.{text_of_block_fault};

    ghost output = { λ fault. Some (text_of_block_fault fault) };

    fn fmt<W: fmt::Write>(&self, f: &mut fmt::Formatter<W>) -> fmt::Result {
        match self {
            BlockFault::Text(fault) => write!(f, "{fault}"),
            BlockFault::OutOfOrder { name } => {
                write!(f, "section {}.{}: out of order", name.run, name.number)
            }
        }
    }
}

impl Error for BlockFault {}

/// The text lines of a ledger text as far as they were read. It keeps one section at most.
#[derive(Drop)]
pub(crate) struct BlockLines {
    blocks: Blocks,
    pub(crate) next: Next,
    line: u64,
    count: u64,
    last: Option<Name>,
}

impl BlockLines {
    /// Of no text line. Takes no memory.
    pub(crate) fn new(alloc: Global) -> BlockLines
        ensures { AreLinesOf unread 1 result }
    {
        BlockLines {
            blocks: Blocks::new(alloc),
            next: Next::Version,
            line: 1,
            count: 0,
            last: None,
        }
    }

    /// Of the first text line alone, which tells this profile. Takes no memory.
    pub(crate) fn behind_version(alloc: Global, profile: Profile) -> BlockLines
        ensures { AreLinesOf (after_version unread 1 (Some profile)) 2 result }
    {
        BlockLines {
            blocks: Blocks::by(alloc, profile),
            next: Next::Block,
            line: 2,
            count: 0,
            last: None,
        }
    }

    /// Whether a block comes next, or the last text line.
    pub(crate) fn is_between(&self) -> bool
        ensures { (r : Reading) (line : ℕ) → AreLinesOf r line self.now → IsTrue result → r.stage ≡ AtBlock }
    {
        matches!(self.next, Next::Block)
    }

    /// Takes the text lines of a block that was read apart, if it is by the text's profile, one comes next, and its name comes after those
    /// before it.
    pub(crate) fn take(&mut self, lone: &LoneBlock) -> bool
        ensures taken { (r : Reading) (line : ℕ) (profile : Profile) (bytes : List ℕ) → AreLinesOf r line self.old → IsLone profile bytes lone.now → IsTrue result
            → AreLinesOf (with_rows r lone.now.verdict.section []) (line + lone.now.lines) self.new × (r.stage ≡ AtBlock) × (profile ≡ r.profile) }
        ensures kept { result ≡ false → self.new ≡ self.old }
    {
        let name = lone.verdict.name();
        let (Some(line), Some(count)) = (
            self.line.checked_add(lone.lines),
            self.count.checked_add(1),
        ) else {
            return false;
        };
        if !self.is_by(lone.verdict.profile()) || !self.is_between() || !self.comes_next(name) {
            return false;
        }
        self.line = line;
        self.count = count;
        self.last = Some(name);
        true
    }

    // Whether the text is by this profile.
    fn is_by(&self, profile: Profile) -> bool
        ensures { IsTrue result → (r : Reading) (line : ℕ) → AreLinesOf r line self.now → profile ≡ r.profile }
    {
        self.profile() == profile
    }

    // Whether the name comes after those of the blocks before it.
    fn comes_next(&self, name: Name) -> bool
        ensures next { IsTrue result → (last : Name) → self.now.last ≡ Some last → IsBefore last name }
        ensures not { result ≡ false → (last : Name) × (self.now.last ≡ Some last) × (IsBefore last name → ⊥) }
    {
        match self.last {
            Some(last) => matches!(order(last, name), Ordering::Less),
            None => true,
        }
    }

    /// The number of the text line that comes next, counted from 1.
    pub(crate) fn line(&self) -> u64
        ensures { (r : Reading) (line : ℕ) → AreLinesOf r line self.now → result ≡ line }
    {
        self.line
    }

    /// The profile that the first text line tells, or One before it.
    pub(crate) fn profile(&self) -> Profile
        ensures { (r : Reading) (line : ℕ) → AreLinesOf r line self.now → result ≡ r.profile }
    {
        self.blocks.pile.profile()
    }

    /// Whether the last text line was read.
    pub(crate) fn is_over(&self) -> bool
        ensures { (r : Reading) (line : ℕ) → AreLinesOf r line self.now → IsTrue result ↔ (r.stage ≡ AtEnd) }
    {
        matches!(self.next, Next::End)
    }

    /// Reads the next text line, without its end, and hands out the block that ends with it, if one does.
    pub(crate) fn follow(
        &mut self,
        alloc: Global,
        text: &[u8],
    ) -> Result<Option<Verdict>, BlockFault>
        requires { (r : Reading) × (line : ℕ) × AreLinesOf r line self.old }
        ensures { (r : Reading) (line : ℕ) → AreLinesOf r line self.old → MatchResult result
            (λ given. AreLinesOf (after_line r line text.now) (line + 1) self.new × GivesBlock r (after_line r line text.now) given)
            (RefusesLine r (after_line r line text.now)) }
    {
        if self.line == u64::MAX {
            return Err(BlockFault::Text(LedgerFault::OutOfMemory));
        }
        match self.end_told(text) {
            Some(told) => self.end(told),
            None => self.step(alloc, text),
        }
    }

    // The number that the text tells, where it is the last text line.
    fn end_told(&self, text: &[u8]) -> Option<u64>
        ensures { (r : Reading) (line : ℕ) → AreLinesOf r line self.now → MatchOption result
            (after_line r line text.now ≡ behind r.blocks (after_line (without_blocks r) line text.now))
            (λ told. after_line r line text.now ≡ after_end r line (Some told)) }
    {
        if !matches!(self.next, Next::Block) {
            return None;
        }
        let told = read_end(text)?;
        match read_head(text) {
            Some(_) => None,
            None => Some(told),
        }
    }

    // The last text line tells this number.
    fn end(&mut self, told: u64) -> Result<Option<Verdict>, BlockFault>
        requires { self.old.line < 2 ^ 64 - 1 }
        ensures { (r : Reading) (line : ℕ) → AreLinesOf r line self.old → MatchResult result
            (λ given. AreLinesOf (after_end r line (Some told)) (line + 1) self.new × GivesBlock r (after_end r line (Some told)) given)
            (RefusesLine r (after_end r line (Some told))) }
    {
        let line = self.line;
        if told != self.count {
            return Err(BlockFault::Text(LedgerFault::NotALedger { line }));
        }
        self.next = Next::End;
        self.line += 1;
        Ok(None)
    }

    // Reads a text line that is not the last.
    fn step(&mut self, alloc: Global, text: &[u8]) -> Result<Option<Verdict>, BlockFault>
        requires room { self.old.line < 2 ^ 64 - 1 }
        requires stands { (r : Reading) × (line : ℕ) × AreLinesOf r line self.old }
        ensures { (r e : Reading) (line : ℕ) → AreLinesOf r line self.old → e ≡ after_line (without_blocks r) line text.now → MatchResult result
            (λ given. AreLinesOf (behind r.blocks e) (line + 1) self.new × GivesBlock r (behind r.blocks e) given)
            (RefusesLine r (behind r.blocks e)) }
    {
        let line = self.line;
        let next = mem::replace(&mut self.next, Next::End);
        match self.blocks.follow(alloc, next, line, text) {
            Ok(awaited) => self.next = awaited,
            Err(fault) => return Err(BlockFault::Text(fault)),
        }
        self.line += 1;
        self.hand_out()
    }

    // Hands out the block that was read last, if one was.
    fn hand_out(&mut self) -> Result<Option<Verdict>, BlockFault>
        requires { self.old.count + 1 < self.old.line }
        ensures { (r e : Reading) (line : ℕ) → IsBeforeHandingOut r e line self.old → MatchResult result
            (λ given. AreLinesOf (behind r.blocks e) line self.new × GivesBlock r (behind r.blocks e) given)
            (RefusesLine r (behind r.blocks e)) }
    {
        let Some(verdict) = self.blocks.hand_out() else {
            return Ok(None);
        };
        let name = verdict.name();
        if !self.comes_next(name) {
            return Err(BlockFault::OutOfOrder { name });
        }
        self.last = Some(name);
        self.count += 1;
        Ok(Some(verdict))
    }
}
