//! The one loop that reads a stream, and what its pieces go to.

ghost use Rattle.std.specs.Prelude.{◌≡◌, ◌+◌, ◌++◌, ◌<◌, ◌^◌, ℕ, [], List, length, IfOk, IfErr, MatchResult};
ghost use Rattle.pmf_device.specs.Failures.{CanCountOneMore, CountsFailure};
ghost use Rattle.pmf_stream.specs.{Answering.{RefusesReading, failed_reads}, Reading.{HasReadAll, HasReadTo, ReadsWithin}};

use crate::fault::StreamFault;
use pmf_device::{Failed, Source, read_piece};
use std::alloc::{AllocError, Global};

/// How many bytes are read at once, at most, by one thread.
pub(crate) const PIECE: usize = 65_536;

/// What the pieces of a stream go to, one after another.
pub(crate) trait Intake {
    /// Why a piece is refused.
    type Fault: Drop;

    // The first has taken these bytes, in any number of pieces, and is the second then.
    ghost Takes: { Self → List ℕ → Self → Type 0 };

    // This is the fault with which it refuses a piece.
    ghost Refuses: { Self → List ℕ → Self.Fault → Type 0 };

    // What has to be known of its type.
    ghost Ready: { Type 0 } = { Unit {0} };

    /// Takes a piece, or refuses it.
    fn take(&mut self, piece: &[u8]) -> Result<(), Self::Fault>
        requires { Ready }
        ensures { MatchResult result (λ _. Takes self.old piece.now self.new) (Refuses self.old piece.now) };

    // With no piece nothing is taken.
    ghost takes_none: { (a : Self) → Takes a [] a };

    // One piece after another.
    ghost takes_more: { (a b c : Self) (xs ys : List ℕ) → Takes a xs b → Takes b ys c → Takes a (xs ++ ys) c };
}

/// Reads the stream to its end, to one byte past the limit, or to the first piece that the intake
/// refuses, in pieces that fit the buffer. The outer fault is that of a read, the inner one the intake's.
pub(crate) fn read_into<R: Source, I: Intake>(
    reader: &mut R,
    buffer: &mut [u8],
    intake: &mut I,
    limit: usize,
) -> Result<Result<(), I::Fault>, Failed>
    requires read { CanCountOneMore (R.failed_calls reader.old) }
    requires limited { limit < 2 ^ 63 }
    requires some { 0 < length buffer.old }
    requires ready { I.Ready }
    ensures taken { IfOk result (λ answer. MatchResult answer
        (λ _. (bytes : List ℕ) × HasReadAll limit (R.left reader.old) (R.left reader.new) bytes
        × I.Takes intake.old bytes intake.new)
        (HasReadTo (length buffer.old) I.Takes I.Refuses limit (R.left reader.old) (R.left reader.new) intake.old)) }
    ensures within { ReadsWithin limit (R.left reader.old) (R.left reader.new) }
    ensures counted { CountsFailure (R.failed_calls reader.old) (R.failed_calls reader.new) result }
{
    let mut total = 0;
    while total <= limit {
        let count = read_piece(reader, buffer, limit + 1 - total)?;
        if count == 0 {
            break;
        }
        if let Err(fault) = intake.take(&buffer[..count]) {
            return Ok(Err(fault));
        }
        total += count;
    }
    Ok(Ok(()))
}

impl Intake for Vec<u8> {
    type Fault = AllocError;

    ghost use Rattle.std.proofs.{Common.{append_assoc, sym, ◌∙◌, ap}, lemmas.List.{append-nil}};

    ghost Takes = { λ a xs b. b.items ≡ a.items ++ xs };

    ghost Refuses = { λ _ _ _. Unit {0} };

    ghost takes_none = { λ a. sym (append-nil a.items) };

    ghost takes_more = { λ a b c xs ys first then. then ∙ ap (λ zs. zs ++ ys) first ∙ append_assoc a.items xs ys };

    fn take(&mut self, piece: &[u8]) -> Result<(), AllocError> {
        self.extend_from_slice(piece)
    }
}

/// Reads the stream to its end, or to one byte past the limit, and keeps what it read.
///
/// Takes memory for the bytes that it reads.
pub fn read_all<R: Source, E: Drop>(
    alloc: Global,
    reader: &mut R,
    limit: usize,
) -> Result<Vec<u8>, StreamFault<E>>
    requires read { CanCountOneMore (R.failed_calls reader.old) }
    requires limited { limit < 2 ^ 63 }
    ensures ok { IfOk result (λ bytes.
        HasReadAll limit (R.left reader.old) (R.left reader.new) bytes.items) }
    ensures within { ReadsWithin limit (R.left reader.old) (R.left reader.new) }
    ensures reads { R.failed_calls reader.new ≡ R.failed_calls reader.old + failed_reads result }
    ensures faults { IfErr result (RefusesReading (λ _. ⊥)) }
{
    let mut bytes = Vec::new(alloc);
    match read_into(reader, &mut [0u8; PIECE], &mut bytes, limit) {
        Ok(Ok(())) => Ok(bytes),
        Ok(Err(AllocError)) => Err(StreamFault::OutOfMemory),
        Err(Failed) => Err(StreamFault::ReadFault),
    }
}
