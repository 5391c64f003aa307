//! A ledger text that is read from its source up to its next block.

ghost use Rattle.std.specs.Prelude.{◌<◌, length};

use crate::ahead::Ahead;
use crate::fault::MergeFault;
use pmf_device::{Failed, Source, read_piece};
use pmf_event::Profile;
use pmf_ledger::{BlockFault, BlockReader};
use pmf_verdict::Verdict;
use std::alloc::{AllocError, Global};
use std::thread::Threads;

/// How many bytes are read at once at least, if there are so many.
const PIECE: usize = 16_384;
/// How many at most, where threads read blocks ahead.
const LONG_PIECE: usize = 4_194_304;
/// How many of all texts together then.
const ALL_PIECES: usize = 67_108_864;
/// For fewer bytes no threads are started.
const WORTH_THREADS: usize = 65_536;

/// What was read of a text.
#[derive(Drop)]
pub(crate) struct Feed {
    reader: BlockReader,
    /// Its bytes from `at` up to `end` were read and not taken.
    piece: Vec<u8>,
    at: usize,
    end: usize,
    /// Blocks among them that were read before their turn.
    ahead: Ahead,
    /// How many threads read them.
    workers: usize,
    /// How many bytes were read.
    total: u64,
    ghost room: { 0 < length piece.items },
}

// How many bytes of each of so many texts are read at once.
fn piece_of(workers: usize, texts: usize) -> usize
    ensures { 0 < result }
{
    if workers <= 1 {
        return PIECE;
    }
    (ALL_PIECES / texts.max(1)).clamp(PIECE, LONG_PIECE)
}

impl Feed {
    ghost use Rattle.std.specs.{Prelude.{◌≡◌, ◌<◌, ◌++◌, ℕ, List, [], Option, None, Some, IfOk, IfErr, MatchOption, MatchResult, OnOk, false, ◌+◌, ◌≤◌, ◌^◌, if◌then◌else◌}, Io.KnownBytes.{IsAtEnd}};
    ghost use Rattle.pmf_device.specs.Failures.{CanCountOneMore};
    ghost use Rattle.pmf_ledger.specs.{BlockReading.{GivesBlock}, Loading.{Reading, unread}};
    ghost use Rattle.pmf_merge.specs.{Feeding.{IsFed, IsFedWhole, IsTextFault, TakesNext}, Refusing.{IsFeedFault, IsReadFault}};

    /// Nothing yet, of one of so many texts, whose blocks are read by so many threads.
    pub(crate) fn new(alloc: Global, workers: usize, texts: usize) -> Result<Feed, AllocError>
        ensures { IfOk result (λ feed. (left : Option (List ℕ)) → IsFed left left feed [] unread) }
    {
        let piece = vec![in alloc; 0; piece_of(workers, texts)]?;
        Ok(Feed {
            reader: BlockReader::new(alloc),
            piece,
            at: 0,
            end: 0,
            ahead: Ahead::new(alloc),
            workers,
            total: 0,
        })
    }

    /// The profile that the first text line tells, or One before it.
    pub(crate) fn profile(&self) -> Profile
        ensures { (start left : Option (List ℕ)) (text : List ℕ) (r : Reading) → IsFed start left self.now text r → result ≡ r.profile }
    {
        self.reader.profile()
    }

    /// The next block, or none at the end of the text, which is that of this index.
    pub(crate) fn next<T: Threads + Sync, R: Source>(
        &mut self,
        rt: &T,
        alloc: Global,
        source: &mut R,
        index: usize,
    ) -> Result<Option<Verdict>, MergeFault>
        requires counted { CanCountOneMore (R.failed_calls source.old) }
        requires fed { (start : Option (List ℕ)) × (text : List ℕ) × (r : Reading) × IsFed start (R.left source.old) self.old text r }
        ensures next { (start : Option (List ℕ)) (text : List ℕ) (r : Reading) → IsFed start (R.left source.old) self.old text r → IfOk result
            (λ given. (more : List ℕ) × (e : Reading) × IsFed start (R.left source.new) self.new (text ++ more) e × GivesBlock r e given
            × (given ≡ None → IsFedWhole start (R.left source.new) (text ++ more) e)) }
        ensures refused { (start : Option (List ℕ)) (text : List ℕ) (r : Reading) → IsFed start (R.left source.old) self.old text r → IfErr result (IsFeedFault start index) }
        ensures counted { OnOk result (R.failed_calls source.new ≡ R.failed_calls source.old) }
    {
        let mut more = true;
        while more {
            let block = match self.next_of_piece(rt, alloc) {
                Ok(block) => block,
                Err(fault) => return Err(MergeFault::Text { index, fault }),
            };
            if block.is_some() {
                return Ok(block);
            }
            more = self.read_more(source, index)?;
        }
        match self.reader.finish() {
            Ok(()) => Ok(None),
            Err(fault) => Err(MergeFault::Text {
                index,
                fault: BlockFault::Text(fault),
            }),
        }
    }

    // The next block, if it ends in the piece; else all of the piece is taken.
    fn next_of_piece<T: Threads + Sync>(
        &mut self,
        rt: &T,
        alloc: Global,
    ) -> Result<Option<Verdict>, BlockFault>
        requires { (start : Option (List ℕ)) × (left : Option (List ℕ)) × (text : List ℕ) × (r : Reading) × IsFed start left self.old text r }
        ensures next { (start left : Option (List ℕ)) (text : List ℕ) (r : Reading) → IsFed start left self.old text r
            → MatchResult result (TakesNext start left text r self.new) (IsTextFault start) }
        ensures total { self.new.total ≡ self.old.total }
    {
        self.look_ahead(rt, alloc);
        match self.take_ahead() {
            Some(verdict) => Ok(Some(verdict)),
            None => self.feed(alloc),
        }
    }

    // The same, read now.
    fn feed(&mut self, alloc: Global) -> Result<Option<Verdict>, BlockFault>
        requires { (start : Option (List ℕ)) × (left : Option (List ℕ)) × (text : List ℕ) × (r : Reading) × IsFed start left self.old text r }
        ensures next { (start left : Option (List ℕ)) (text : List ℕ) (r : Reading) → IsFed start left self.old text r
            → MatchResult result (TakesNext start left text r self.new) (IsTextFault start) }
        ensures total { self.new.total ≡ self.old.total }
    {
        match self.reader.feed(alloc, &self.piece[self.at..self.end]) {
            Ok(fed) => {
                self.at += fed.taken;
                Ok(fed.block)
            }
            Err(fault) => Err(fault),
        }
    }

    // Reads blocks of the piece before their turn, if that is worth threads.
    fn look_ahead<T: Threads + Sync>(&mut self, rt: &T, alloc: Global)
        requires { self.old.end ≤ length self.old.piece.items }
        ensures fed { (start left : Option (List ℕ)) (text : List ℕ) (r : Reading) → IsFed start left self.old text r → IsFed start left self.new text r }
        ensures total { self.new.total ≡ self.old.total }
    {
        if self.workers <= 1
            || !self.ahead.is_over()
            || self.end.saturating_sub(self.at) < WORTH_THREADS
            || !self.reader.is_between()
        {
            return;
        }
        let profile = self.reader.profile();
        self.ahead.read(
            rt,
            alloc,
            self.workers,
            profile,
            &self.piece[..self.end],
            self.at,
        );
    }

    // The next block, if it was read before its turn.
    fn take_ahead(&mut self) -> Option<Verdict>
        ensures next { (start left : Option (List ℕ)) (text : List ℕ) (r : Reading) → IsFed start left self.old text r → MatchOption result
            (IsFed start left self.new text r)
            (λ given. TakesNext start left text r self.new (Some given)) }
        ensures total { self.new.total ≡ self.old.total }
    {
        let (lone, to) = self.ahead.take(self.at)?;
        if !self.reader.take(&lone) {
            return None;
        }
        self.at = to;
        Some(lone.verdict)
    }

    // Reads the next piece, behind one that was taken whole. None is the end.
    fn read_more<R: Source>(&mut self, source: &mut R, index: usize) -> Result<bool, MergeFault>
        requires counted { CanCountOneMore (R.failed_calls source.old) }
        ensures more { (start : Option (List ℕ)) (text : List ℕ) (r : Reading) → IsFed start (R.left source.old) self.old text r → self.old.at ≡ self.old.end
            → IfOk result (λ more. IsFed start (R.left source.new) self.new text r × (more ≡ false → IsAtEnd (R.left source.new) × (self.new.at ≡ self.new.end))) }
        ensures counted { OnOk result (R.failed_calls source.new ≡ R.failed_calls source.old) }
        ensures refused { IfErr result (IsReadFault index) }
        ensures total { IfOk result (λ more. (self.old.total + (if more then 1 else 0) ≤ self.new.total) × (self.new.total < 2 ^ 64)) }
    {
        self.ahead.clear();
        let limit = self.piece.len();
        let count = match read_piece(source, &mut self.piece, limit) {
            Ok(count) => count,
            Err(Failed) => return Err(MergeFault::Read { index }),
        };
        let Some(total) = self.total.checked_add(count as u64) else {
            return Err(MergeFault::OutOfMemory);
        };
        self.total = total;
        self.at = 0;
        self.end = count;
        Ok(count > 0)
    }
}
