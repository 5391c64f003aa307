//! From the texts of ledgers to the text of the ledger of them all.

ghost use Rattle.std.specs.Prelude.{◌≡◌, ◌+◌, ◌++◌, ◌⊎◌, ◌<◌, ◌≤◌, ℕ, List, length, map, take, IfOk, IfErr, IfSome, IsErrOf, MatchResult};
ghost use Rattle.pmf_ledger.specs.{LedgerValue.{LedgerValue}, Loading.{IsOfText, IsRefusedWith, IsWantOfMemory, LoadsAs, MayWantMemory}};
ghost use Rattle.pmf_device.specs.Failures.{CanCountOneMore};
ghost use Rattle.pmf_stream.specs.{Answering.{Answers, TellsFaults}, Joining.{IsJoinFaultOf, IsJoinOf, IsJoinOfTwo, IsJoinedAt, IsJoinedText, IsRefusalOfTexts, IsRefusedAt, IsRefusedInTurn}};

use crate::checking::write_asked;
use crate::fault::StreamFault;
use crate::writing::write_answer;
use pmf_device::Sink;
use pmf_event::Profile;
use pmf_ledger::{Form, JoinFault, Ledger, LedgerFault, load_ledger};
use pmf_storelog::{Cause, LogFault};
use std::alloc::Global;
use std::error::Error;
use std::fmt;

/// What is told of the ledger texts that were joined.
#[derive(Clone, Copy, Debug, PartialEq, Eq)]
pub struct Joined {
    /// How many rows of the report count as fail.
    pub fails: u128,
}

/// Why ledger texts were not joined: the first that applies as they are loaded and joined, text after text.
#[derive(Clone, Copy, Debug, PartialEq, Eq)]
pub enum JoinTextFault {
    /// A text is refused.
    Load {
        /// The index of the text, counted from 0.
        index: usize,
        /// Why it is refused.
        fault: LedgerFault,
    },
    /// The ledger of a text doesn't join that of the texts before it.
    Join(JoinFault),
    /// The texts are joined, and the text of their ledger, which is asked for, has more than [`pmf_ledger::LEDGER_LIMIT`] bytes.
    TooLong,
    /// Room for a ledger was refused.
    OutOfMemory,
}

impl fmt::Display for JoinTextFault {
    ghost use Rattle.std.specs.Prelude.{Some};
    ghost use Rattle.pmf_stream.specs.FaultText.{text_of_join_text};

    ghost output = { λ fault. Some (text_of_join_text fault) };

    fn fmt<W: fmt::Write>(&self, f: &mut fmt::Formatter<W>) -> fmt::Result {
        match self {
            JoinTextFault::Load { fault, .. } => write!(f, "{fault}"),
            JoinTextFault::Join(fault) => write!(f, "{fault}"),
            JoinTextFault::TooLong => f.write_str("ledger is too long"),
            JoinTextFault::OutOfMemory => f.write_str("out of memory"),
        }
    }
}

impl Error for JoinTextFault {}

// Why the text of this index was not loaded.
fn fault_at(index: usize, fault: LedgerFault) -> JoinTextFault
    ensures refused { (before : LedgerValue) (text : List ℕ) → (IsOfText fault → IsRefusedWith text fault)
        → (IsWantOfMemory fault → MayWantMemory text) → IsRefusedAt before index text result }
    ensures memory { result ≡ JoinTextFault.OutOfMemory → IsWantOfMemory fault }
{
    match fault {
        LedgerFault::OutOfMemory => JoinTextFault::OutOfMemory,
        LedgerFault::Log(
            LogFault {
                at: 0,
                cause: Cause::OutOfMemory,
            },
        ) => JoinTextFault::OutOfMemory,
        fault => JoinTextFault::Load { index, fault },
    }
}

// Why the ledger of a text doesn't join that of the texts before it.
fn fault_of_join(fault: JoinFault) -> JoinTextFault
    ensures refused { (before after : LedgerValue) (index : ℕ) (text : List ℕ) → 1 ≤ index → LoadsAs text after
        → IsJoinFaultOf before after fault → IsRefusedAt before index text result }
    ensures memory { result ≡ JoinTextFault.OutOfMemory → fault ≡ JoinFault.OutOfMemory }
{
    match fault {
        JoinFault::OutOfMemory => JoinTextFault::OutOfMemory,
        fault => JoinTextFault::Join(fault),
    }
}

/// The ledger of the sections of all texts. They are loaded and joined text after text, and the first refusal
/// decides: a text that is no ledger's, or one whose ledger doesn't join that of those before it. Of no text it is
/// the empty ledger of profile One.
///
/// The texts are joined by halves of about as many bytes: beside their checks the time grows with their sections times the
/// logarithm of their bytes. Takes memory for the sections and their verdicts, and while two ledgers are joined for a list of both.
pub fn join_texts(alloc: Global, texts: &[Vec<u8>]) -> Result<Ledger, JoinTextFault>
    ensures { MatchResult result (IsJoinOf (map (λ text. text.items) texts.now))
        (IsRefusedInTurn (map (λ text. text.items) texts.now)) }
{
    let none = Ledger::new(alloc, Profile::One);
    join_up_to(alloc, none, texts, 0, texts.len())
}

// The ledger of the texts before the end, of which those before the first are joined. Where their second half isn't joined
// as a whole, the first refusal in turn is looked for in it.
fn join_up_to(
    alloc: Global,
    before: Ledger,
    texts: &[Vec<u8>],
    first: usize,
    end: usize,
) -> Result<Ledger, JoinTextFault>
    requires rises { first ≤ end }
    requires within { end ≤ length texts.now }
    requires reached { IsJoinOf (take first (map (λ text. text.items) texts.now)) before }
    ensures { MatchResult result (IsJoinOf (take end (map (λ text. text.items) texts.now)))
        (IsRefusedInTurn (map (λ text. text.items) texts.now)) }
{
    if first == end {
        return Ok(before);
    }
    if end - first == 1 {
        return join_text(alloc, before, first, &texts[first]);
    }
    let middle = first + middle_of(&texts[first..end]);
    let reached = join_up_to(alloc, before, texts, first, middle)?;
    match join_half(alloc, reached, &texts[middle..end]) {
        Ok(joined) => Ok(joined),
        Err(reached) => join_up_to(alloc, reached, texts, middle, end),
    }
}

// How many of the texts are their first half: both halves have a text, and about as many bytes.
fn middle_of(texts: &[Vec<u8>]) -> usize
    requires { 2 ≤ length texts.now }
    ensures some { 0 < result }
    ensures within { result < length texts.now }
{
    let mut front = 1;
    let mut back = texts.len() - 1;
    let mut before = texts[0].len();
    let mut behind = texts[back].len();
    while front < back {
        if before <= behind {
            before = before.saturating_add(texts[front].len());
            front += 1;
        } else {
            back -= 1;
            behind = behind.saturating_add(texts[back].len());
        }
    }
    front
}

// The ledger of the texts that were joined and of these, or that of the former as it was.
fn join_half(alloc: Global, before: Ledger, texts: &[Vec<u8>]) -> Result<Ledger, Ledger>
    ensures joined { (others : List (List ℕ)) → 0 < length others → IsJoinOf others before
        → IfOk result (IsJoinOf (others ++ map (λ text. text.items) texts.now)) }
    ensures kept { IfErr result (λ kept. kept ≡ before) }
{
    let Some(half) = join_halves(alloc, texts) else {
        return Err(before);
    };
    match before.join(half) {
        Ok(joined) => Ok(joined),
        Err((_, before, _)) => Err(before),
    }
}

// The ledger of the texts, if they are joined.
fn join_halves(alloc: Global, texts: &[Vec<u8>]) -> Option<Ledger>
    ensures { IfSome result (IsJoinOf (map (λ text. text.items) texts.now)) }
{
    match texts {
        [] => None,
        [text] => load_ledger(alloc, text).ok(),
        _ => {
            let (front, back) = texts.split_at(middle_of(texts));
            let front = join_halves(alloc, front)?;
            let back = join_halves(alloc, back)?;
            join_two(front, back).ok()
        }
    }
}

// The ledger of the texts before this one, joined with its own; the first begins.
fn join_text(
    alloc: Global,
    before: Ledger,
    index: usize,
    text: &[u8],
) -> Result<Ledger, JoinTextFault>
    ensures joined { IfOk result (IsJoinedAt before index text.now) }
    ensures refused { IfErr result (IsRefusedAt before index text.now) }
{
    let ledger = match load_ledger(alloc, text) {
        Ok(ledger) => ledger,
        Err(fault) => return Err(fault_at(index, fault)),
    };
    if index == 0 {
        return Ok(ledger);
    }
    match join_two(before, ledger) {
        Ok(joined) => Ok(joined),
        Err(fault) => Err(fault_of_join(fault)),
    }
}

// The ledger of both.
fn join_two(before: Ledger, after: Ledger) -> Result<Ledger, JoinFault>
    ensures joined { IfOk result (IsJoinOfTwo before after) }
    ensures refused { IfErr result (IsJoinFaultOf before after) }
{
    match before.join(after) {
        Ok(joined) => Ok(joined),
        Err((fault, _, _)) => Err(fault),
    }
}

/// Joins the texts of ledgers and writes their ledger in this form. Nothing is written before all texts
/// are joined, and no ledger text that is too long to be loaded.
///
/// Refusals: [`StreamFault::Refused`] and [`StreamFault::OutOfMemory`], of these [`JoinTextFault::TooLong`] last, then
/// [`StreamFault::WriteFault`]. Takes memory as [`join_texts`] does, and for the text.
pub fn join_to<W: Sink>(
    alloc: Global,
    texts: &[Vec<u8>],
    writer: &mut W,
    form: Form,
) -> Result<Joined, StreamFault<JoinTextFault>>
    requires { CanCountOneMore (W.failed_calls writer.old) }
    // Exactly the text of the texts' ledger was written, or they were refused.
    ensures answer { Answers (IsJoinedText form (map (λ text. text.items) texts.now))
        (IsRefusalOfTexts form (map (λ text. text.items) texts.now))
        (W.held writer.old) (W.held writer.new) result }
    // Memory was wanted where a text is loaded or joined, or the texts are joined.
    ensures memory { IsErrOf result StreamFault.OutOfMemory
        → IsRefusedInTurn (map (λ text. text.items) texts.now) JoinTextFault.OutOfMemory
        ⊎ ((ledger : LedgerValue) × IsJoinOf (map (λ text. text.items) texts.now) ledger) }
    ensures faults { TellsFaults 0 0 (W.failed_calls writer.old) (W.failed_calls writer.new)
        writer.old writer.new result }
{
    let ledger = match join_texts(alloc, texts) {
        Ok(ledger) => ledger,
        Err(JoinTextFault::OutOfMemory) => return Err(StreamFault::OutOfMemory),
        Err(fault) => return Err(StreamFault::Refused(fault)),
    };
    let Some((text, totals)) = write_asked(alloc, &ledger, form)? else {
        return Err(StreamFault::Refused(JoinTextFault::TooLong));
    };
    let fails = totals.fail;
    write_answer(writer, &text, Joined { fails })
}
