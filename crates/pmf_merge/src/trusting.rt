//! From the sources of ledger texts to the text of all their blocks, as they stand.

ghost use Rattle.std.specs.Prelude.{IfErr, IfOk, All, map};
ghost use Rattle.pmf_device.specs.Failures.{CanCountOneMore};
ghost use Rattle.pmf_merge.specs.{RawWritten.{IsTextOfBlocks}, Refusing.{WritesFront}, Trusting.{IsTrustFaultOf, Trusts}};

use crate::fault::MergeFault;
use crate::raw_heads::RawHeads;
use crate::raw_written::RawWritten;
use crate::unread::PIECE;
use pmf_device::{Sink, Source};
use std::alloc::Global;

/// Merges the ledger texts of the sources on trust, and writes the text of all their blocks, which tells so in its first text line. No
/// section is checked again: the blocks are written as they stand, those that are the same once. The texts may have any length, and may
/// be such texts themselves; the names of their blocks have to rise. Answers whether some row that was told counts as fail.
///
/// Takes memory in proportion to the longest block of each text, and 48 KiB of each. What a head tells to be a block is read as one, so
/// where a head tells too much, its text may be read to its end. The time grows with the bytes, and with the blocks times the logarithm of the
/// number of texts.
pub fn trust_to<R: Source, W: Sink>(
    alloc: Global,
    sources: &mut Vec<R>,
    writer: &mut W,
) -> Result<bool, MergeFault>
    requires reads { All (λ s. CanCountOneMore (R.failed_calls s)) sources.old.items }
    requires writes { CanCountOneMore (W.failed_calls writer.old) }
    ensures merges { IfOk result (Trusts (map R.left sources.old.items) (W.held writer.old) (W.held writer.new)) }
    ensures refused { IfErr result (IsTrustFaultOf (map R.left sources.old.items)) }
    // What was written before is a front of the text of some blocks.
    ensures front { IfErr result (λ found. WritesFront IsTextOfBlocks (W.held writer.old) (W.held writer.new)) }
{
    let mut piece = [0u8; PIECE];
    let mut heads = RawHeads::begin(alloc, sources, &mut piece)?;
    let mut written = match RawWritten::begin(alloc, heads.profile) {
        Ok(written) => written,
        Err(_) => return Err(MergeFault::OutOfMemory),
    };
    let mut fails = false;
    let mut steps: u64 = 0;
    while let Some(index) = heads.least() {
        let Some(more) = steps.checked_add(1) else {
            return Err(MergeFault::OutOfMemory);
        };
        steps = more;
        let feed = &heads.feeds[index];
        if let Some(name) = feed.name() {
            fails = feed.tells_fail(fails);
            written.tell(writer, name, feed.block())?;
        }
        heads.advance(alloc, &mut sources[index], &mut piece, index)?;
    }
    written.end(alloc, writer)?;
    Ok(fails)
}
