//! Blocks that are read apart from their text.

ghost use Rattle.std.specs.Prelude.{◌≡◌, ℕ, List};
ghost use Rattle.pmf_event.specs.declared.profile.Profile.{Profile};
ghost use Rattle.pmf_ledger.specs.{BlockReading.{HasTaken}, Loading.{Reading}, LoneBlock.{IsLone}};

use super::{feed, name};
use crate::{BlockReader, FirstBlock, LoneBlock, first_block};
use pmf_event::Profile;
use std::process::Abort;
use std::test::Fail;

const FENCE: &[u8] = b"section 0.0 events=1 rows=0\nFENCE\n";

const NONE: &[u8] = b"section 0.1 events=0 rows=0\n";

const PASS: &[u8] = b"\
section 0.2 events=1 rows=1
PMT.PERSIST;0x1000;0x8
1 PERSIST EMPTY
";

#[test]
fn the_first_block_is_as_long_as_its_head_tells(rt: HostRuntime) -> Result<(), Fail> {
    for (bytes, taken) in [
        (FENCE, Some(34)),
        (NONE, Some(28)),
        (PASS, Some(67)),
        (b"section 0.0 events=1 rows=0\nFENCE\nsection 0.1", Some(34)),
        // Whatever its text lines are.
        (b"section 0.0 events=1 rows=0\n\n", Some(29)),
        (b"section 0.0 events=1 rows=1\nFENCE\n", None),
        (b"section 0.0 events=1 rows=0\nFENCE", None),
        (b"section 0.0 events=1 rows=0", None),
        (
            b"section 0.0 events=18446744073709551615 rows=1\nFENCE\n",
            None,
        ),
        (b"end verdicts=0\n", None),
        (b"", None),
    ] {
        assert_eq!(rt;
            first_block(bytes).map(|found: FirstBlock| found.taken),
            taken
        );
    }
    Ok(())
}

#[test]
fn a_block_that_is_whole_and_right_is_read_with_ample_memory(rt: HostRuntime) -> Result<(), Fail> {
    let alloc = rt.alloc();
    for bytes in [FENCE, NONE, PASS] {
        assert!(rt; LoneBlock::read(alloc, Profile::One, bytes).is_some());
        let last = bytes.len().saturating_sub(1);
        assert!(rt; LoneBlock::read(alloc, Profile::One, &bytes[..last]).is_none());
    }
    for bytes in [
        b"section 0.0 events=1 rows=0\nFENCE\n\n".as_slice(),
        b"section 0.0 events=1 rows=0\nFENC\n",
        b"section 0.2 events=1 rows=1\nPMT.PERSIST;0x1000;0x8\n1 PERSIST PASS\n",
        b"end verdicts=0\n",
        b"",
    ] {
        assert!(rt; LoneBlock::read(alloc, Profile::One, bytes).is_none());
    }
    Ok(())
}

// The block is not taken.
fn refuse(rt: &impl Abort, reader: &mut BlockReader, lone: &LoneBlock)
    ensures { reader.new ≡ reader.old }
{
    assert!(rt; !reader.take(lone));
}

// The block is taken.
fn take(rt: &impl Abort, reader: &mut BlockReader, lone: &LoneBlock)
    requires taken { (text : List ℕ) × (r : Reading) × HasTaken text r reader.old }
    requires lone { (profile : Profile) × (bytes : List ℕ) × IsLone profile bytes lone.now }
    ensures { (text : List ℕ) × (r : Reading) × HasTaken text r reader.new }
{
    assert!(rt; reader.take(lone));
}

#[test]
fn a_text_takes_a_block_at_its_turn_with_ample_memory(rt: HostRuntime) -> Result<(), Fail> {
    let alloc = rt.alloc();
    let fence = LoneBlock::read(alloc, Profile::One, FENCE).expect(&rt, "a block");
    let none = LoneBlock::read(alloc, Profile::One, NONE).expect(&rt, "a block");
    let by_two = LoneBlock::read(alloc, Profile::Two, NONE).expect(&rt, "a block");
    let mut reader = BlockReader::new(alloc);
    assert!(rt; !reader.is_between());
    refuse(&rt, &mut reader, &fence);
    feed(alloc, &mut reader, b"PMFARM-LEDGER 1\n")?;
    assert!(rt; reader.is_between());
    refuse(&rt, &mut reader, &by_two);
    take(&rt, &mut reader, &fence);
    refuse(&rt, &mut reader, &fence);
    take(&rt, &mut reader, &none);
    refuse(&rt, &mut reader, &fence);
    assert_eq!(rt; none.verdict.name(), name(0, 1));
    feed(alloc, &mut reader, b"end ver")?;
    assert!(rt; !reader.is_between());
    refuse(&rt, &mut reader, &none);
    feed(alloc, &mut reader, b"dicts=2\n")?;
    assert!(rt; reader.finish().is_ok());
    Ok(())
}
