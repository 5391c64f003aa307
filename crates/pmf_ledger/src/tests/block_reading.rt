//! A ledger text that is read piece by piece, and each of its blocks.

use super::texts::TEXT_OF_TWO;
use super::{assert_told, feed, name};
use crate::{BlockFault, BlockReader, LedgerFault};
use pmf_event::{Name, Profile};
use pmf_fixtures::LEDGER;
use std::alloc::Global;
use std::process::Abort;
use std::test::Fail;

// What was read of a text: its blocks' names, and why it went no further.
#[derive(Drop)]
struct Read {
    names: Vec<Name>,
    profile: Profile,
    refused: Option<BlockFault>,
}

// Reads the text in pieces of at most this many bytes, which is not 0.
fn read_all(alloc: Global, text: &[u8], most: usize) -> Result<Read, Fail> {
    let mut reader = BlockReader::new(alloc);
    let mut names = Vec::new(alloc);
    let mut rest = text;
    // Each turn takes a byte or hands out a block.
    for _turn in 0..text.len().saturating_mul(2) {
        if rest.is_empty() {
            break;
        }
        match feed(alloc, &mut reader, &rest[..most.min(rest.len())]) {
            Ok(fed) => {
                rest = &rest[fed.taken..];
                if let Some(verdict) = fed.block {
                    names.push(verdict.name())?;
                }
            }
            Err(fault) => return Ok(found(names, &reader, Some(fault))),
        }
    }
    let refused = reader.finish().err().map(BlockFault::Text);
    Ok(found(names, &reader, refused))
}

fn found(names: Vec<Name>, reader: &BlockReader, refused: Option<BlockFault>) -> Read {
    Read {
        names,
        profile: reader.profile(),
        refused,
    }
}

const MOST: [usize; 4] = [1, 2, 13, usize::MAX];

// However it comes, the text has these blocks before the fault.
fn assert_read(
    rt: &impl Abort,
    alloc: Global,
    text: &str,
    names: &[Name],
    refused: Option<BlockFault>,
) -> Result<(), Fail> {
    for most in MOST {
        let found = read_all(alloc, text.as_bytes(), most)?;
        assert_eq!(rt; found.refused, refused, "{text}");
        assert!(rt; found.names.as_slice() == names, "{text}");
    }
    Ok(())
}

fn not_a_ledger(line: u64) -> Option<BlockFault> {
    Some(BlockFault::Text(LedgerFault::NotALedger { line }))
}

fn out_of_order(number: u64) -> Option<BlockFault> {
    Some(BlockFault::OutOfOrder {
        name: name(0, number),
    })
}

const FALSE_ROWS: BlockFault = BlockFault::Text(LedgerFault::FalseRows {
    name: Name { run: 0, number: 7 },
});

#[test]
fn a_text_has_the_same_blocks_in_whatever_pieces(rt: HostRuntime) -> Result<(), Fail> {
    let both = [name(0, 0), name(0, 1)];
    let one = [name(0, 0)];
    for (text, names, refused) in [
        (LEDGER, both.as_slice(), None),
        (TEXT_OF_TWO, &one, None),
        ("PMFARM-LEDGER 2\nend verdicts=0\n", &[], None),
        ("", &[], not_a_ledger(1)),
        ("\n", &[], not_a_ledger(1)),
        ("PMFARM-LEDGER 1", &[], not_a_ledger(1)),
        ("PMFARM-LEDGER 1\n", &[], not_a_ledger(2)),
        ("PMFARM-LEDGER 1\nend verdicts=0", &[], not_a_ledger(2)),
        ("PMFARM-LEDGER 1\nend verdicts=1\n", &[], not_a_ledger(2)),
        ("PMFARM-LEDGER 1\nend verdicts=0\nx", &[], not_a_ledger(3)),
        ("PMFARM-LEDGER 1\nend verdicts=0\n\n", &[], not_a_ledger(3)),
        // The last block is handed out before the end is read.
        (
            "PMFARM-LEDGER 1\nsection 0.0 events=1 rows=0\nFENCE\nend verdicts=2\n",
            &one,
            not_a_ledger(4),
        ),
        (
            "PMFARM-LEDGER 1\nsection 0.0 events=1 rows=0\nFENCE\n",
            &one,
            not_a_ledger(4),
        ),
    ] {
        assert_read(&rt, rt.alloc(), text, names, refused)?;
    }
    Ok(())
}

#[test]
fn a_block_behind_which_one_comes_that_is_refused_is_handed_out(
    rt: HostRuntime,
) -> Result<(), Fail> {
    let front = "PMFARM-LEDGER 1\nsection 0.5 events=1 rows=0\nFENCE\n";
    let five = [name(0, 5)];
    for (block, refused) in [
        ("section 0.5 events=1 rows=0\nFENCE\n", out_of_order(5)),
        ("section 0.5 events=0 rows=0\n", out_of_order(5)),
        ("section 0.4 events=1 rows=0\nFENCE\n", out_of_order(4)),
        ("section 0.7 events=0 rows=1\n", Some(FALSE_ROWS)),
        ("section 0.7 events=1 rows=0\n\n", not_a_ledger(5)),
        ("section 0.7 events=1 rows=0\nFENCE", not_a_ledger(5)),
    ] {
        let text = format!(in rt.alloc(); "{front}{block}")?;
        assert_read(&rt, rt.alloc(), text.as_str(), &five, refused)?;
    }
    Ok(())
}

#[test]
fn a_name_may_come_behind_one_of_a_smaller_run(rt: HostRuntime) -> Result<(), Fail> {
    let text = "\
PMFARM-LEDGER 1
section 0.9 events=0 rows=0
section 1.0 events=0 rows=0
section 1.2 events=0 rows=0
end verdicts=3
";
    let names = [name(0, 9), name(1, 0), name(1, 2)];
    assert_read(&rt, rt.alloc(), text, &names, None)
}

#[test]
fn a_piece_is_taken_up_to_the_end_of_a_block(rt: HostRuntime) -> Result<(), Fail> {
    let alloc = rt.alloc();
    let mut reader = BlockReader::new(alloc);
    assert_eq!(rt; reader.profile(), Profile::One);
    let mut rest = LEDGER.as_bytes();
    for (taken, block) in [
        (50, Some(name(0, 0))),
        (111, Some(name(0, 1))),
        (15, None),
        (0, None),
    ] {
        let fed = feed(alloc, &mut reader, rest)?;
        assert_eq!(rt; fed.taken, taken);
        assert_eq!(rt; fed.block.map(|it| it.name()), block);
        rest = &rest[fed.taken..];
    }
    assert_eq!(rt; reader.finish(), Ok(()));
    Ok(())
}

#[test]
fn the_first_line_tells_a_reader_the_profile(rt: HostRuntime) -> Result<(), Fail> {
    for (text, profile, refused) in [
        (LEDGER, Profile::One, None),
        (TEXT_OF_TWO, Profile::Two, None),
        ("PMFARM-LEDGER 2\n", Profile::Two, not_a_ledger(2)),
        ("PMFARM-LEDGER 2", Profile::One, not_a_ledger(1)),
    ] {
        for most in MOST {
            let found = read_all(rt.alloc(), text.as_bytes(), most)?;
            assert_eq!(rt; (found.refused, found.profile), (refused, profile));
        }
    }
    Ok(())
}

#[test]
fn a_refused_block_has_its_text(rt: HostRuntime) -> Result<(), Fail> {
    for (fault, want) in [
        (
            BlockFault::OutOfOrder { name: name(12, 70) },
            "section 12.70: out of order",
        ),
        (FALSE_ROWS, "section 0.7: rows are false"),
        (BlockFault::Text(LedgerFault::OutOfMemory), "out of memory"),
    ] {
        assert_told(&rt, rt.alloc(), fault, want)?;
    }
    Ok(())
}
