//! A ledger from its text.

ghost use Rattle.std.specs.Prelude.{◌≡◌, IfErr, MatchResult};
ghost use Rattle.pmf_ledger.specs.{FaultText.{words_of_conflict}, Following.{is_over}, Loading.{IsOfText, IsRefusedWith, IsWantOfMemory, LoadsAs, MayWantMemory}};

use crate::blocks::{Blocks, Next};
use crate::ledger::Ledger;
use memchr::memchr;
use pmf_event::Name;
use pmf_storelog::LogFault;
use std::alloc::Global;
use std::error::Error;
use std::fmt;

/// The greatest length of a ledger text, in bytes: 2^31.
pub const LEDGER_LIMIT: usize = 1 << 31;

/// Why a text was not loaded as a ledger. The first fault in the text decides.
#[derive(Clone, Copy, Debug, PartialEq, Eq)]
pub enum LedgerFault {
    /// The text line of this number, counted from 1, is not what has to stand there, or is missing, or
    /// no line end follows it. It is 0 where the text has more than [`LEDGER_LIMIT`] bytes.
    NotALedger {
        /// The number of the text line.
        line: u64,
    },
    /// The section's rows are not those that its events have, or are told to be more or fewer.
    FalseRows {
        /// The section.
        name: Name,
    },
    /// A block before this one has the same name and other events.
    Conflict {
        /// The section.
        name: Name,
    },
    /// The event at this text line is refused, as a log would refuse it, or is one too many in its
    /// section. Where room for it was refused, the number is 0.
    Log(LogFault),
    /// Room for anything else was refused.
    OutOfMemory,
}

impl fmt::Display for LedgerFault {
    ghost use Rattle.std.specs.Prelude.{Some};
    ghost use Rattle.pmf_ledger.specs.FaultText.{text_of_fault};

    ghost output = { λ fault. Some (text_of_fault fault) };

    fn fmt<W: fmt::Write>(&self, f: &mut fmt::Formatter<W>) -> fmt::Result {
        match self {
            LedgerFault::NotALedger { line } => write!(f, "line {line}: not a ledger"),
            LedgerFault::FalseRows { name } => {
                write!(f, "section {}.{}: rows are false", name.run, name.number)
            }
            LedgerFault::Conflict { name } => {
                write!(f, "section {}.{}: ", name.run, name.number)?;
                f.write_str(words_of_conflict())
            }
            LedgerFault::Log(fault) => {
                if fault.at == 0 {
                    write!(f, "{}", fault.cause)
                } else {
                    write!(f, "line {}: {}", fault.at, fault.cause)
                }
            }
            LedgerFault::OutOfMemory => f.write_str("out of memory"),
        }
    }
}

impl Error for LedgerFault {}

#[tactic(auto, unfolding(crate::specs::FaultText::words_of_conflict))]
pub(crate) fn words_of_conflict() -> &'static str
    ensures { result.now ≡ words_of_conflict }
{
    "held with other events"
}

/// The ledger that the text says. Its rows aren't believed: each section is checked again, by the
/// profile that the first text line tells. Takes memory for the sections as they are read, and never
/// by a number in the text.
///
/// Blocks in the order of their names, as they are written, are loaded in the time that their checks take. In any other
/// order each of N blocks costs some log N moves and as many searches more, and the text is loaded with room for twice its verdicts.
pub fn load_ledger(alloc: Global, text: &[u8]) -> Result<Ledger, LedgerFault>
    ensures loads { MatchResult result (LoadsAs text.now)
        (λ found. IsOfText found → IsRefusedWith text.now found) }
    ensures memory { IfErr result (λ found. IsWantOfMemory found → MayWantMemory text.now) }
{
    if text.len() > LEDGER_LIMIT {
        return Err(LedgerFault::NotALedger { line: 0 });
    }
    let mut blocks = Blocks::new(alloc);
    let mut next = Next::Version;
    let mut rest = text;
    let mut line = 1;
    while let Some(end) = memchr(b'\n', rest) {
        let ended = &rest[..end];
        let (_, behind) = rest.split_at(end + 1);
        next = match blocks.follow(alloc, next, line, ended) {
            Ok(awaited) => awaited,
            Err(fault) => return Err(fault),
        };
        rest = behind;
        line += 1;
    }
    if !is_over(&next, rest) {
        return Err(LedgerFault::NotALedger { line });
    }
    let Ok(ledger) = blocks.pile.into_ledger() else {
        return Err(LedgerFault::OutOfMemory);
    };
    Ok(ledger)
}

// Whether the text may end here: nothing more is awaited, and nothing is left.
pub(crate) fn is_over(next: &Next, rest: &[u8]) -> bool
    ensures { result ≡ is_over next.now rest.now }
{
    match next {
        Next::End => rest.is_empty(),
        _ => false,
    }
}
