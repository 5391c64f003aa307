//! Ledger texts that are merged as they stand.

ghost use Rattle.std.specs.Prelude.{◌≡◌};

use super::{
    BOTH, BY_TWO, EMPTY, EMPTY_TWO, FAILING, Giving, MOST, OTHER, WHOLE, long_fence, sources_of,
};
use crate::{MergeFault, trust_to};
use pmf_device::ByteSink;
use pmf_event::Name;
use pmf_fixtures::LEDGER;
use pmf_ledger::{BlockFault, LedgerFault};
use std::alloc::Global;
use std::process::Abort;
use std::test::Fail;

const TRUSTED: &str = "PMFARM-TRUSTED 1\nend verdicts=0\n";

const TRUSTED_TWO: &str = "PMFARM-TRUSTED 2\nend verdicts=0\n";

// Section 0.1 of the text OTHER with a row that is no row of it, and spelled otherwise.
const FORGED: &str = "\
PMFARM-LEDGER 1
section 00.01 events=1 rows=1
WHATEVER
1 PERSIST PASS
end verdicts=1
";

const TRUSTED_FORGED: &str = "\
PMFARM-TRUSTED 1
section 00.01 events=1 rows=1
WHATEVER
1 PERSIST PASS
end verdicts=1
";

// The merge of the texts answers so, and the sink holds this text.
fn trusts<R: Abort>(
    rt: &R,
    alloc: Global,
    texts: &[&str],
    giving: Giving,
    mut sink: ByteSink,
    want: Result<bool, MergeFault>,
    text: &[u8],
) -> Result<(), Fail>
    requires { sink.failures ≡ 0 }
{
    let mut sources = sources_of(alloc, texts, giving)?;
    let merged = trust_to(alloc, &mut sources, &mut sink);
    assert_eq!(rt; merged, want);
    assert!(rt; sink.bytes() == text, "{want:?}");
    Ok(())
}

// A text with another first text line, which is a byte longer.
fn trusted(alloc: Global, text: &str) -> Result<Vec<u8>, Fail> {
    let mut bytes = Vec::new(alloc);
    bytes.extend_from_slice(b"PMFARM-TRUSTED")?;
    for byte in text.as_bytes().get("PMFARM-LEDGER".len()..).unwrap_or(&[]) {
        bytes.push(*byte)?;
    }
    Ok(bytes)
}

#[test]
fn what_a_merge_writes_is_written_but_for_the_first_line(rt: HostRuntime) -> Result<(), Fail> {
    let alloc = rt.alloc();
    for (texts, fails, text) in [
        ([].as_slice(), false, EMPTY),
        (&[EMPTY_TWO; 3], false, EMPTY_TWO),
        (&[LEDGER], false, LEDGER),
        (&[LEDGER, EMPTY, LEDGER], false, LEDGER),
        (&[BY_TWO, EMPTY_TWO], false, BY_TWO),
        (&[FAILING, LEDGER], true, BOTH),
        (&[LEDGER, FAILING, BOTH], true, BOTH),
        (&[TRUSTED, FAILING, LEDGER], true, BOTH),
        (&[BY_TWO, TRUSTED_TWO], false, BY_TWO),
    ] {
        for most in MOST {
            let giving = Giving { most, ..WHOLE };
            let want = trusted(alloc, text)?;
            trusts(
                &rt,
                alloc,
                texts,
                giving,
                ByteSink::new(alloc),
                Ok(fails),
                &want,
            )?;
        }
    }
    Ok(())
}

#[test]
fn no_block_is_looked_into(rt: HostRuntime) -> Result<(), Fail> {
    let alloc = rt.alloc();
    let text = TRUSTED_FORGED.as_bytes();
    for texts in [[FORGED, TRUSTED_FORGED], [TRUSTED_FORGED, FORGED]] {
        trusts(
            &rt,
            alloc,
            &texts,
            WHOLE,
            ByteSink::new(alloc),
            Ok(false),
            text,
        )?;
    }
    Ok(())
}

#[test]
fn what_is_no_text_of_blocks_is_refused(rt: HostRuntime) -> Result<(), Fail> {
    let alloc = rt.alloc();
    let line = |line: u64| MergeFault::Text {
        index: 1,
        fault: BlockFault::Text(LedgerFault::NotALedger { line }),
    };
    let name = Name { run: 0, number: 1 };
    let order = MergeFault::Text {
        index: 1,
        fault: BlockFault::OutOfOrder {
            name: Name { run: 0, number: 0 },
        },
    };
    for (text, fault) in [
        ("", line(1)),
        ("PMFARM-LEDGER 1", line(1)),
        ("PMFARM-LEDGER 3\nend verdicts=0\n", line(1)),
        ("PMFARM-LEDGER 1\n", line(2)),
        ("PMFARM-LEDGER 1\nend verdicts=1\n", line(2)),
        ("PMFARM-LEDGER 1\nend verdicts=0\n\n", line(2)),
        ("PMFARM-LEDGER 1\nend verdicts=00\n", line(2)),
        ("PMFARM-LEDGER 1\nsection 0.0 events=1 rows=0\n", line(2)),
        (
            "PMFARM-LEDGER 1\nsection 0.0 events=1 rows=0\nFENCE\n",
            line(4),
        ),
        (
            "PMFARM-LEDGER 1\nsection 0.0 events=0 rows=0\nFENCE\nend verdicts=1\n",
            line(3),
        ),
        (
            "PMFARM-LEDGER 1\nsection 0.0 events=0 rows=0\nsection 0.0 events=0 rows=0\nend verdicts=2\n",
            order,
        ),
        (
            "PMFARM-LEDGER 2\nend verdicts=0\n",
            MergeFault::ProfileMismatch { index: 1 },
        ),
        (FORGED, MergeFault::Conflict { name }),
    ] {
        for most in MOST {
            let giving = Giving { most, ..WHOLE };
            let sink = ByteSink::new(alloc);
            trusts(&rt, alloc, &[OTHER, text], giving, sink, Err(fault), b"")?;
        }
    }
    Ok(())
}

// A read fails, and a write.
#[test]
fn a_fault_of_a_device_ends_it(rt: HostRuntime) -> Result<(), Fail> {
    let alloc = rt.alloc();
    for index in 0..2 {
        let giving = Giving {
            fails: Some(index),
            ..WHOLE
        };
        let fault = MergeFault::Read { index };
        trusts(
            &rt,
            alloc,
            &[OTHER, FAILING],
            giving,
            ByteSink::new(alloc),
            Err(fault),
            b"",
        )?;
    }
    let text = trusted(alloc, OTHER)?;
    for written in [0, 9, text.len().saturating_sub(1)] {
        let sink = ByteSink::new(alloc).failing_after(written);
        let fault = MergeFault::Write {
            written: written as u64,
        };
        trusts(
            &rt,
            alloc,
            &[OTHER],
            WHOLE,
            sink,
            Err(fault),
            &text[..written.min(text.len())],
        )?;
    }
    Ok(())
}

#[test]
fn a_block_may_be_longer_than_a_piece(rt: HostRuntime) -> Result<(), Fail> {
    let alloc = rt.alloc();
    for more in [16_384, 40_000] {
        let long = long_fence(alloc, more)?;
        let want = trusted(alloc, &long)?;
        for most in [4_096, usize::MAX] {
            let giving = Giving { most, ..WHOLE };
            trusts(
                &rt,
                alloc,
                &[&long],
                giving,
                ByteSink::new(alloc),
                Ok(false),
                &want,
            )?;
        }
    }
    Ok(())
}

// Of a text in which neither a block nor the end comes next no more is read than shows it.
#[test]
fn what_is_garbled_is_not_read_to_its_end(rt: HostRuntime) -> Result<(), Fail> {
    let alloc = rt.alloc();
    let mut text = String::new(alloc);
    text.push_str("PMFARM-LEDGER 1\n")?;
    for _ in 0..2_000 {
        text.push_str("no head, and no last text line\n")?;
    }
    let mut sources = sources_of(alloc, &[&text], WHOLE)?;
    let mut sink = ByteSink::new(alloc);
    let fault = BlockFault::Text(LedgerFault::NotALedger { line: 2 });
    assert_eq!(rt;
        trust_to(alloc, &mut sources, &mut sink),
        Err(MergeFault::Text { index: 0, fault })
    );
    let is_left = sources.first().map(|it| it.left() > 40_000);
    assert_eq!(rt; is_left, Some(true));
    Ok(())
}
