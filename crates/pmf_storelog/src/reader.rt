//! The reader of a log in pieces.

ghost use Rattle.std.specs.Prelude.{◌≡◌, ◌≢◌, ◌≤◌, ℕ, List, [], ◌∷◌, ◌++◌, None, All, OnOk, OnErr, IfErr, MatchOption, length};
ghost use Rattle.pmf_storelog.specs.declared.fault.TheConstants.{LOG_LIMIT};

use crate::ahead::Ahead;
use crate::fault::{Cause, LOG_LIMIT, LogFault};
use crate::log::Log;
use crate::progress::Progress;
use pmf_event::Section;
use std::alloc::Global;

/// A reader of a log that comes in pieces, cut anywhere.
///
/// It keeps the events so far and the bytes of the record that isn't ended yet, and no other byte of the
/// log. After its first refusal it is spent: it answers [`Cause::Spent`] from then on.
#[derive(Debug, Drop)]
pub struct LogReader {
    progress: Progress,
    /// How many bytes were read.
    total: usize,
    /// Whether a piece was refused.
    spent: bool,
    alloc: Global,
    ghost counted: { progress.tally.records ≤ total },
    ghost within: { total ≤ LOG_LIMIT },
}

impl LogReader {
    ghost use Rattle.pmf_storelog.specs.{Ahead.{IsAheadOf}, LogText.{IsFaultOfAll, log_of, out_of_memory, sections_of, shown_fault, spent}, Answers.{Answers, IsShown}, Reader.{Feeds, HasRead, IsSpent}, Separators.{ended_records}};

    /// A reader of the run's log, of which nothing is fed yet. Takes no memory.
    pub fn new(alloc: Global, run: u64) -> LogReader
        ensures { HasRead run [] result }
    {
        LogReader {
            progress: Progress::new(alloc, run),
            total: 0,
            spent: false,
            alloc,
        }
    }

    /// Reads the next piece, and refuses as soon as the bytes fed so far show a fault: the first one of
    /// the records that a separator ended among the first [`LOG_LIMIT`] bytes, or else TooLong where
    /// there are more bytes. The record that isn't ended yet shows none. An `Err` spends the reader.
    ///
    /// Takes memory for events, and for a record that a piece cuts.
    pub fn feed(&mut self, piece: &[u8]) -> Result<(), LogFault>
        // The reader stands for the piece too, which shows no fault.
        ensures ok { (run : ℕ) (bytes : List ℕ) → HasRead run bytes self.old
            → OnOk result (HasRead run (bytes ++ piece.now) self.new) }
        ensures faultless { (run : ℕ) (bytes : List ℕ) → HasRead run bytes self.old
            → OnOk result (shown_fault (bytes ++ piece.now) ≡ None) }

        // Want of memory aside, the fault is the one that the bytes show, whatever follows them.
        ensures err { (run : ℕ) (bytes : List ℕ) → HasRead run bytes self.old
            → IfErr result (λ fault. IsShown fault (shown_fault (bytes ++ piece.now))) }
        ensures of_all { (run : ℕ) (bytes : List ℕ) → HasRead run bytes self.old
            → IfErr result (λ fault. fault ≢ out_of_memory
            → IsFaultOfAll fault (bytes ++ piece.now)) }

        // A refusal spends the reader, which stays spent.
        ensures refused { OnErr result (IsSpent self.new) }
        ensures spent { IsSpent self.old → result ≡ Err spent }
    {
        self.feed_ahead(piece, Vec::new(self.alloc))
    }

    /// The same, where parts of the piece were read before their turn, in the order in which they stand there. What was read of a part isn't
    /// read again, unless a record goes on into it, or a section would get too many events.
    pub fn feed_ahead(&mut self, piece: &[u8], ahead: Vec<Ahead>) -> Result<(), LogFault>
        requires { All (IsAheadOf piece.now) ahead.items }
        ensures { Feeds self.old piece.now self.new result }
    {
        if self.spent {
            return Err(LogFault::SPENT);
        }
        self.spent = true;
        let taken = piece.len().min(LOG_LIMIT - self.total);
        self.total += taken;
        let ahead = if taken == piece.len() {
            ahead
        } else {
            Vec::new(self.alloc)
        };
        let rest = self.progress.read_with(&piece[..taken], ahead)?;
        if taken < piece.len() {
            return Err(self.progress.tally.fault(Cause::TooLong));
        }
        self.progress.keep(rest)?;
        self.spent = false;
        Ok(())
    }

    /// The section of the records that a separator ended, if they are of just one. Of a reader that refused a piece it says nothing.
    pub fn only_section(&self) -> Option<&Section>
        ensures { (run : ℕ) (bytes : List ℕ) → HasRead run bytes self.now
            → MatchOption result (length (sections_of run (ended_records bytes)) ≢ 1)
            (λ section. sections_of run (ended_records bytes) ≡ section.now ∷ []) }
    {
        self.progress.tally.only_section()
    }

    /// The log of all pieces, or its first fault; the record after the last separator is read now.
    ///
    /// Takes memory for the sections' list, and for the last event.
    pub fn finish(self) -> Result<Log, LogFault>
        ensures answers { (run : ℕ) (bytes : List ℕ) → HasRead run bytes self
            → Answers result (log_of run bytes) }
        ensures spent { IsSpent self → result ≡ Err spent }
    {
        if self.spent {
            return Err(LogFault::SPENT);
        }
        let LogReader { progress, .. } = self;
        let Progress { mut tally, carry } = progress;
        tally.take_part(&carry)?;
        tally.into_log()
    }
}
