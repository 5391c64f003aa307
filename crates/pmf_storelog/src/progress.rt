//! How far a log was read: the records that ended, and the one that a piece cut.

ghost use Rattle.std.specs.Prelude.{◌≡◌, ◌+◌, ◌<◌, ◌≤◌, ◌^◌, ℕ, List, [], ◌∷◌, ◌++◌, length, take, drop, All, MatchOption, OnOk, OnErr, IfOk, IfErr, IfSome};
ghost use Rattle.pmf_storelog.specs.{Quick.{SaysAlone}, Separators.{ended_records, parts_of}};

use crate::ahead::Ahead;
use crate::fault::LogFault;
use crate::quick::read_part;
use crate::stretch::Stretch;
use crate::tally::Tally;
use memchr::memchr3;
use pmf_event::Event;
use std::alloc::Global;

/// What is kept of the bytes so far: the tally of the ended records, and the unfinished part.
#[derive(Debug, Drop)]
pub(crate) struct Progress {
    pub(crate) tally: Tally,
    pub(crate) carry: Vec<u8>,
}

impl Progress {
    ghost use Rattle.pmf_storelog.specs.{LogText.{first_fault, out_of_memory}, Answers.{IsShown}, Ahead.{IsAheadOf, IsStretchOf}, Progress.{HasParsed, HasParsedTo, IsFaultBehind, Reaches}};

    /// What no bytes give. Takes no memory.
    pub(crate) fn new(alloc: Global, run: u64) -> Progress
        ensures parsed { HasParsed run [] result }
        ensures none { result.tally.records ≡ 0 }
    {
        Progress {
            tally: Tally::new(alloc, run),
            carry: Vec::new(alloc),
        }
    }

    /// Takes every part of the piece that a separator ends, and hands back the bytes after the last one.
    pub(crate) fn read_ended<'a>(&mut self, piece: &'a [u8]) -> Result<&'a [u8], LogFault>
        requires { self.old.tally.records + length piece.now < 2 ^ 64 }
        ensures grows { self.new.tally.records ≤ self.old.tally.records + length piece.now }
        ensures ok { (run : ℕ) (bytes : List ℕ) → HasParsed run bytes self.old
            → IfOk result (λ rest. HasParsedTo run bytes piece.now rest.now self.new) }
        ensures err { (run : ℕ) (bytes : List ℕ) → HasParsed run bytes self.old
            → IfErr result (λ fault. IsShown fault (first_fault (ended_records (bytes ++ piece.now)))) }
    {
        let mut start = 0;
        while let Some((len, says)) = next_part(&piece[start..]) {
            self.end_part(&piece[start..start + len], says)?;
            start += len + 1;
        }
        Ok(&piece[start..])
    }

    /// The same, where parts of the piece were read before their turn.
    pub(crate) fn read_with<'a>(
        &mut self,
        piece: &'a [u8],
        ahead: Vec<Ahead>,
    ) -> Result<&'a [u8], LogFault>
        requires room { self.old.tally.records + length piece.now < 2 ^ 64 }
        requires ahead { All (IsAheadOf piece.now) ahead.items }
        ensures grows { self.new.tally.records ≤ self.old.tally.records + length piece.now }
        ensures ok { (run : ℕ) (bytes : List ℕ) → HasParsed run bytes self.old
            → IfOk result (λ rest. HasParsedTo run bytes piece.now rest.now self.new) }
        ensures err { (run : ℕ) (bytes : List ℕ) → HasParsed run bytes self.old
            → IfErr result (λ fault. IsShown fault (first_fault (ended_records (bytes ++ piece.now)))) }
    {
        let mut start = 0;
        for part in ahead {
            start = self.take_ahead(piece, start, part)?;
        }
        let rest = self.read_ended(&piece[start..])?;
        Ok(rest)
    }

    // Goes on from this place of the piece by what was read of a part of it, and tells where that ends.
    fn take_ahead(&mut self, piece: &[u8], start: usize, ahead: Ahead) -> Result<usize, LogFault>
        requires from { start ≤ length piece.now }
        requires room { self.old.tally.records + length piece.now < 2 ^ 64 + start }
        requires ahead { IsAheadOf piece.now ahead }
        ensures grows { self.new.tally.records + start ≤ self.old.tally.records + length piece.now }
        ensures ok { IfOk result (λ end. Reaches piece.now start end self.old self.new) }
        ensures err { IfErr result (IsFaultBehind piece.now start self.old) }
    {
        let mut at = start;
        for stretch in ahead.stretches {
            at = self.read_to(piece, at, stretch.from)?;
            at = self.take_stretch(at, stretch)?;
        }
        Ok(at)
    }

    // Takes parts from this place of the piece on, until one ends at the other place or behind it, or no separator follows.
    fn read_to(&mut self, piece: &[u8], start: usize, to: usize) -> Result<usize, LogFault>
        requires from { start ≤ length piece.now }
        requires room { self.old.tally.records + length piece.now < 2 ^ 64 + start }
        ensures grows { self.new.tally.records + start ≤ self.old.tally.records + length piece.now }
        ensures ok { IfOk result (λ end. Reaches piece.now start end self.old self.new) }
        ensures err { IfErr result (IsFaultBehind piece.now start self.old) }
    {
        let mut end = start;
        while end < to {
            let Some((len, says)) = next_part(&piece[end..]) else {
                break;
            };
            self.end_part(&piece[end..end + len], says)?;
            end += len + 1;
        }
        Ok(end)
    }

    // Takes the stretch of a piece and tells where it ends, if it begins at this place, where nothing is kept of a part, and there is room.
    fn take_stretch(&mut self, start: usize, stretch: Stretch) -> Result<usize, LogFault>
        requires { stretch.from ≡ start → self.old.tally.records + stretch.plain.records < 2 ^ 64 }
        ensures kept { OnErr result (self.new.tally.records ≡ self.old.tally.records) }
        ensures ok { IfOk result (λ end. (piece : List ℕ) → IsStretchOf piece stretch → start ≤ length piece
            → Reaches piece start end self.old self.new) }
        ensures err { IfErr result (λ fault. fault ≡ out_of_memory) }
    {
        if stretch.from != start || !self.carry.is_empty() {
            return Ok(start);
        }
        let Stretch { end, plain, .. } = stretch;
        if self.tally.take_plain(plain)? {
            Ok(end)
        } else {
            Ok(start)
        }
    }

    // Takes the part that ends with these bytes; they may be known to say an event.
    #[inline(always)]
    fn end_part(&mut self, end: &[u8], says: Option<Event>) -> Result<(), LogFault>
        requires room { self.old.tally.records + 1 < 2 ^ 64 }
        requires says { IfSome says (SaysAlone end.now) }
        ensures grows { self.new.tally.records ≤ self.old.tally.records + 1 }
        ensures ok { (run : ℕ) (bytes piece : List ℕ) → HasParsed run bytes self.old
            → parts_of piece ≡ end.now ∷ [] ∷ []
            → OnOk result (HasParsed run (bytes ++ piece) self.new) }
        ensures err { (run : ℕ) (bytes piece : List ℕ) → HasParsed run bytes self.old
            → parts_of piece ≡ end.now ∷ [] ∷ []
            → IfErr result (λ fault. IsShown fault (first_fault (ended_records (bytes ++ piece)))) }
    {
        if self.carry.is_empty() {
            return self.tally.take_alone(end, says);
        }
        self.carry.extend_from_slice(end)?;
        self.tally.take_part(&self.carry)?;
        self.carry.clear();
        Ok(())
    }

    /// Keeps the bytes of a part that isn't ended yet.
    pub(crate) fn keep(&mut self, rest: &[u8]) -> Result<(), LogFault>
        ensures tally { self.new.tally ≡ self.old.tally }
        ensures carry { OnOk result (self.new.carry.items ≡ self.old.carry.items ++ rest.now) }
        ensures err { IfErr result (λ fault. fault ≡ out_of_memory) }
    {
        self.carry.extend_from_slice(rest)?;
        Ok(())
    }
}

/// How long the first part of the text is, where a separator ends it; and the event that it says, where it is spelled as usual, with no
/// blanks around it. Takes no memory.
#[inline(always)]
pub fn next_part(text: &[u8]) -> Option<(usize, Option<Event>)>
    ensures cases { MatchOption result (parts_of text.now ≡ text.now ∷ [])
        (λ part. parts_of (take (part.0 + 1) text.now)
        ≡ take part.0 text.now ∷ [] ∷ []) }
    ensures within { IfSome result (λ part. part.0 < length text.now) }
    ensures says { IfSome result (λ part. IfSome part.1 (SaysAlone (take part.0 text.now))) }
{
    if let Some((event, len)) = read_part(text) {
        return Some((len, Some(event)));
    }
    let len = next_separator(text)?;
    Some((len, None))
}

// Where the first separator stands.
#[inline]
#[tactic(auto, using(crate::proofs::PartLemmas::separator_found))]
fn next_separator(text: &[u8]) -> Option<usize>
    ensures cases { MatchOption result (parts_of text.now ≡ text.now ∷ [])
        (λ end. parts_of (take (end + 1) text.now)
        ≡ take end text.now ∷ [] ∷ []) }
    ensures within { IfSome result (λ end. end < length text.now) }
{
    memchr3(b'|', b'\n', b'\r', text)
}
