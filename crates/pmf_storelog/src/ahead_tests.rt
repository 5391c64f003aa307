//! Parts of a piece that are read before their turn. Where memory is refused, less of them is read.

use super::*;
use std::test::Fail;

const PIECE: &[u8] = b"FLUSH;64;64\r\n x |\tFENCE|PMT.SECTION;2|FENCE|FENCE|PMT.SECTION;0|FENCE";

#[test]
fn stretches_end_at_markers_and_faults_with_ample_memory(rt: HostRuntime) {
    let mut part = Ahead::new(rt.alloc(), 0, PIECE.len());
    part.read(rt.alloc(), PIECE);
    assert_eq!(rt; part.stretches.len(), 3);
    let faulty = b"FENCE|STORE;1|FENCE|";
    part.read(rt.alloc(), faulty);
    assert_eq!(rt; part.stretches.len(), 2);
}

#[test]
fn short_stretches_are_given_up_with_ample_memory(rt: HostRuntime) -> Result<(), Fail> {
    for (count, want) in [(60, false), (70, true)] {
        let mut piece = Vec::new(rt.alloc());
        for _ in 0..count {
            piece.extend_from_slice(b"FENCE|PMT.SECTION;1|")?;
        }
        let mut part = Ahead::new(rt.alloc(), 0, piece.len());
        part.read(rt.alloc(), &piece);
        assert_eq!(rt; part.is_short(), want, "of {count}");
    }
    Ok(())
}
