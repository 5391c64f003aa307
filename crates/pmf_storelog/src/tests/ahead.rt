//! Logs of which parts are read before their turn.

ghost use Rattle.std.specs.Prelude.{All, IfOk};
ghost use Rattle.pmf_storelog.specs.Ahead.{IsAheadOf};

use crate::{Ahead, Cause, Log, LogFault, LogReader};
use std::alloc::{AllocError, Global};
use std::test::Fail;

// Two parts of the piece, one behind the other, as they were read.
fn parts_at(alloc: Global, piece: &[u8], from: usize, to: usize) -> Result<Vec<Ahead>, AllocError>
    ensures { IfOk result (λ parts. All (IsAheadOf piece.now) parts.items) }
{
    let mut first = Ahead::new(alloc, from, to);
    first.read(alloc, piece);
    let mut second = Ahead::new(alloc, to, piece.len());
    second.read(alloc, piece);
    let mut parts = Vec::new(alloc);
    parts.push(first)?;
    parts.push(second)?;
    Ok(parts)
}

// What the log says of which the piece was fed with two of its parts, behind a front.
fn read_with_parts(
    alloc: Global,
    front: &[u8],
    piece: &[u8],
    from: usize,
    to: usize,
) -> Result<Log, LogFault> {
    let mut reader = LogReader::new(alloc, 5);
    reader.feed(front)?;
    let parts = parts_at(alloc, piece, from, to)?;
    reader.feed_ahead(piece, parts)?;
    reader.finish()
}

// Its first record was begun before.
const PIECE: &[u8] =
    b"CE|FLUSH;64;64\r\n x |\tFENCE|PMT.SECTION;2|FENCE|FENCE|PMT.SECTION;0|STORE;4096;junk;8|FENCE";

#[test]
fn a_log_is_the_same_whichever_parts_are_read_ahead(rt: HostRuntime) -> Result<(), Fail> {
    for from in 0..PIECE.len() {
        for step in 0..8_usize {
            let to = (from + 13 * step).min(PIECE.len());
            let log = read_with_parts(rt.alloc(), b"FENCE|FEN", PIECE, from, to)?;
            assert_eq!(rt; log.skipped(), 1, "from {from} to {to}");
            assert_eq!(rt; log.sections().len(), 2, "from {from} to {to}");
            assert_eq!(rt; log.sections()[0].events().len(), 6, "from {from} to {to}");
            assert_eq!(rt; log.sections()[1].events().len(), 2, "from {from} to {to}");
        }
    }
    Ok(())
}

#[test]
fn a_fault_in_a_part_is_that_of_its_record(rt: HostRuntime) {
    let piece = b"FENCE|x|STORE;1|FENCE|";
    let refused = read_with_parts(rt.alloc(), b"FENCE|", piece, 0, 8).map(|log| log.skipped());
    let cause = Cause::TooFewFields;
    assert_eq!(rt; refused, Err(LogFault { at: 4, cause }));
}
