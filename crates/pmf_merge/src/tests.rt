//! Ledger texts that are merged as they are read, and what is written of them.

ghost use Rattle.std.specs.Prelude.{◌≡◌, IfOk, All};

use super::{MergeFault, merge_to};
use pieces::Pieces;
use pmf_device::ByteSink;
use pmf_event::Name;
use pmf_fixtures::LEDGER;
use pmf_ledger::{BlockFault, Form, LedgerFault, Totals};
use std::alloc::{AllocError, Global};
use std::process::Abort;
use std::test::Fail;
use std::thread::Threads;

mod ahead;
mod many;
mod pieces;
mod trust;

const EMPTY: &str = "PMFARM-LEDGER 1\nend verdicts=0\n";

const EMPTY_TWO: &str = "PMFARM-LEDGER 2\nend verdicts=0\n";

// Section 0.1 is one fence.
const OTHER: &str = "PMFARM-LEDGER 1\nsection 0.1 events=1 rows=0\nFENCE\nend verdicts=1\n";

const FAILING: &str = "\
PMFARM-LEDGER 1
section 1.0 events=2 rows=1
STORE;0x1000;0x0;0x8
PMT.PERSIST;0x1000;0x8
2 PERSIST FAIL byte=0x1000 crash=2
end verdicts=1
";

// Two stores of one line and an assertion of their order, which profile One judges differently.
const BY_TWO: &str = "\
PMFARM-LEDGER 2
section 0.0 events=3 rows=1
STORE;0x1000;0x0;0x8
STORE;0x1008;0x0;0x8
PMT.ORDERED;0x1000;0x8;0x1008;0x8
3 ORDERED PASS
end verdicts=1
";

// Of the texts `FAILING` and `LEDGER`.
const REPORT: &str = "\
section 0.0 events=1 pass=0 fail=0 warn=0 empty=0
section 0.1 events=4 pass=1 fail=0 warn=0 empty=0
4 PERSIST PASS
section 1.0 events=2 pass=0 fail=1 warn=0 empty=0
2 PERSIST FAIL byte=0x1000 crash=2
total sections=3 pass=1 fail=1 warn=0 empty=0
";

const SUMMARY: &str = "\
section 0.0 events=1 pass=0 fail=0 warn=0 empty=0
section 0.1 events=4 pass=1 fail=0 warn=0 empty=0
run 0 sections=2 pass=1 fail=0 warn=0 empty=0
section 1.0 events=2 pass=0 fail=1 warn=0 empty=0
2 PERSIST FAIL byte=0x1000 crash=2
run 1 sections=1 pass=0 fail=1 warn=0 empty=0
total sections=3 pass=1 fail=1 warn=0 empty=0
";

const BOTH: &str = "\
PMFARM-LEDGER 1
section 0.0 events=1 rows=0
FENCE
section 0.1 events=4 rows=1
STORE;0x1000;0x0;0x8
FLUSH;0x1000;0x40
FENCE
PMT.PERSIST;0x1000;0x8
4 PERSIST PASS
section 1.0 events=2 rows=1
STORE;0x1000;0x0;0x8
PMT.PERSIST;0x1000;0x8
2 PERSIST FAIL byte=0x1000 crash=2
end verdicts=3
";

// The read behind the text of this index fails, if one is told.
#[derive(Clone, Copy)]
struct Giving {
    most: usize,
    fails: Option<usize>,
    workers: usize,
}

const WHOLE: Giving = Giving {
    most: usize::MAX,
    fails: None,
    workers: 1,
};

fn sources_of<'a>(
    alloc: Global,
    texts: &[&'a str],
    giving: Giving,
) -> Result<Vec<Pieces<'a>>, AllocError>
    ensures { IfOk result (λ sources. All (λ s. s.failures ≡ 0) sources.items) }
{
    let mut sources = Vec::new(alloc);
    for index in 0..texts.len() {
        let fails = giving.fails == Some(index);
        sources.push(Pieces::new(texts[index].as_bytes(), giving.most, fails))?;
    }
    Ok(sources)
}

fn counts(sections: u64, pass: u128, fail: u128) -> Totals {
    Totals {
        sections,
        pass,
        fail,
        warn: 0,
        empty: 0,
    }
}

// The merge of the texts answers so, and the sink holds these bytes.
fn writes<R: Abort + Threads + Sync>(
    rt: &R,
    alloc: Global,
    texts: &[&str],
    giving: Giving,
    mut sink: ByteSink,
    form: Form,
    want: Result<Totals, MergeFault>,
    text: &[u8],
) -> Result<(), Fail>
    requires { sink.failures ≡ 0 }
{
    let mut sources = sources_of(alloc, texts, giving)?;
    let merged = merge_to(rt, alloc, giving.workers, &mut sources, &mut sink, form);
    assert_eq!(rt; merged, want);
    assert!(rt; sink.bytes() == text, "{want:?}");
    Ok(())
}

// Pieces of a byte each, of seven, and as long as they may be.
const MOST: [usize; 3] = [1, 7, usize::MAX];

#[test]
fn each_text_of_all_is_written(rt: HostRuntime) -> Result<(), Fail> {
    let alloc = rt.alloc();
    let (report, summary, ledger) = (Form::Report, Form::Summary, Form::Ledger);
    let none = "total sections=0 pass=0 fail=0 warn=0 empty=0\n";
    for (texts, form, totals, text) in [
        ([].as_slice(), ledger, counts(0, 0, 0), EMPTY),
        (&[], report, counts(0, 0, 0), none),
        (&[], summary, counts(0, 0, 0), none),
        (&[EMPTY_TWO], ledger, counts(0, 0, 0), EMPTY_TWO),
        (&[EMPTY_TWO; 3], ledger, counts(0, 0, 0), EMPTY_TWO),
        (&[LEDGER], ledger, counts(2, 1, 0), LEDGER),
        (&[LEDGER, EMPTY, LEDGER], ledger, counts(2, 1, 0), LEDGER),
        (&[BY_TWO, EMPTY_TWO], ledger, counts(1, 1, 0), BY_TWO),
        (&[FAILING, LEDGER], report, counts(3, 1, 1), REPORT),
        (&[FAILING, LEDGER], summary, counts(3, 1, 1), SUMMARY),
        (&[LEDGER, FAILING, BOTH], summary, counts(3, 1, 1), SUMMARY),
        (&[LEDGER, FAILING], report, counts(3, 1, 1), REPORT),
        (&[LEDGER, FAILING, BOTH], report, counts(3, 1, 1), REPORT),
        (&[FAILING, LEDGER], ledger, counts(3, 1, 1), BOTH),
    ] {
        for most in MOST {
            let giving = Giving { most, ..WHOLE };
            let sink = ByteSink::new(alloc);
            let want = Ok(totals);
            writes(&rt, alloc, texts, giving, sink, form, want, text.as_bytes())?;
        }
    }
    Ok(())
}

// Five sections, each of one fence.
const FENCES: [&str; 5] = [
    "PMFARM-LEDGER 1\nsection 0.0 events=1 rows=0\nFENCE\nend verdicts=1\n",
    "PMFARM-LEDGER 1\nsection 0.1 events=1 rows=0\nFENCE\nend verdicts=1\n",
    "PMFARM-LEDGER 1\nsection 0.2 events=1 rows=0\nFENCE\nend verdicts=1\n",
    "PMFARM-LEDGER 1\nsection 0.3 events=1 rows=0\nFENCE\nend verdicts=1\n",
    "PMFARM-LEDGER 1\nsection 0.4 events=1 rows=0\nFENCE\nend verdicts=1\n",
];

const FENCE_LINE: &str = "PMFARM-LEDGER 1\nsection 0.0 events=1 rows=0\nFENCE;";

const ALL_FENCES: &str = "\
PMFARM-LEDGER 1
section 0.0 events=1 rows=0
FENCE
section 0.1 events=1 rows=0
FENCE
section 0.2 events=1 rows=0
FENCE
section 0.3 events=1 rows=0
FENCE
section 0.4 events=1 rows=0
FENCE
end verdicts=5
";

const EVEN_FENCES: &str = "\
PMFARM-LEDGER 1
section 0.0 events=1 rows=0
FENCE
section 0.2 events=1 rows=0
FENCE
section 0.4 events=1 rows=0
FENCE
end verdicts=3
";

const ODD_FENCES: &str = "\
PMFARM-LEDGER 1
section 0.1 events=1 rows=0
FENCE
section 0.3 events=1 rows=0
FENCE
end verdicts=2
";

#[test]
fn names_come_in_their_order_whatever_that_of_the_texts(rt: HostRuntime) -> Result<(), Fail> {
    let alloc = rt.alloc();
    let [a, b, c, d, e] = FENCES;
    for texts in [
        [EVEN_FENCES, ODD_FENCES].as_slice(),
        &[ODD_FENCES, EVEN_FENCES],
        &[ODD_FENCES, ALL_FENCES, EVEN_FENCES, EMPTY, ALL_FENCES],
        &[a, b, c, d, e],
        &[e, d, c, b, a],
        &[c, e, a, d, b],
        &[EVEN_FENCES, d, e, b, ODD_FENCES],
    ] {
        let sink = ByteSink::new(alloc);
        let want = Ok(counts(5, 0, 0));
        let text = ALL_FENCES.as_bytes();
        writes(&rt, alloc, texts, WHOLE, sink, Form::Ledger, want, text)?;
    }
    Ok(())
}

fn text_fault(index: usize, fault: LedgerFault) -> MergeFault {
    MergeFault::Text {
        index,
        fault: BlockFault::Text(fault),
    }
}

fn not_a_ledger(index: usize, line: u64) -> MergeFault {
    text_fault(index, LedgerFault::NotALedger { line })
}

fn name(number: u64) -> Name {
    Name { run: 0, number }
}

const FALSE_ROW: &str = "\
PMFARM-LEDGER 1
section 0.0 events=2 rows=1
STORE;0x1000;0x0;0x8
PMT.PERSIST;0x1000;0x8
2 PERSIST PASS
end verdicts=1
";

const FALLING: &str = "\
PMFARM-LEDGER 1
section 0.2 events=1 rows=0
FENCE
section 0.1 events=1 rows=0
FENCE
end verdicts=2
";

const TWICE: &str = "\
PMFARM-LEDGER 1
section 0.2 events=1 rows=0
FENCE
section 0.2 events=1 rows=0
FENCE
end verdicts=2
";

#[test]
fn the_first_refusal_is_told(rt: HostRuntime) -> Result<(), Fail> {
    let alloc = rt.alloc();
    let cut = "PMFARM-LEDGER 1\n";
    let conflict = MergeFault::Conflict { name: name(1) };
    let false_rows = LedgerFault::FalseRows { name: name(0) };
    for (texts, fault) in [
        ([LEDGER, OTHER].as_slice(), conflict),
        (&[OTHER, EMPTY, LEDGER], conflict),
        // Each text is read up to its first section before a section is told.
        (&[LEDGER, cut, OTHER], not_a_ledger(1, 2)),
        (&[LEDGER, OTHER, cut], not_a_ledger(2, 2)),
        (&[cut, FALSE_ROW], not_a_ledger(0, 2)),
        (
            &[EMPTY, EMPTY_TWO],
            MergeFault::ProfileMismatch { index: 1 },
        ),
        (
            &[BY_TWO, BY_TWO, LEDGER],
            MergeFault::ProfileMismatch { index: 2 },
        ),
        (&[BY_TWO, FALSE_ROW], text_fault(1, false_rows)),
        (&[""], not_a_ledger(0, 1)),
        (&[LEDGER, "PMFARM-LEDGER 3\n"], not_a_ledger(1, 1)),
        (
            &[EMPTY, "PMFARM-LEDGER 1\nend verdicts=0"],
            not_a_ledger(1, 2),
        ),
        (&["PMFARM-LEDGER 1\nend verdicts=0\nx"], not_a_ledger(0, 3)),
        (&[FAILING, FALSE_ROW], text_fault(1, false_rows)),
        (
            &[OTHER, FALLING],
            MergeFault::Text {
                index: 1,
                fault: BlockFault::OutOfOrder { name: name(1) },
            },
        ),
        (
            &[TWICE],
            MergeFault::Text {
                index: 0,
                fault: BlockFault::OutOfOrder { name: name(2) },
            },
        ),
    ] {
        for most in MOST {
            let giving = Giving { most, ..WHOLE };
            let sink = ByteSink::new(alloc);
            writes(
                &rt,
                alloc,
                texts,
                giving,
                sink,
                Form::Report,
                Err(fault),
                b"",
            )?;
        }
    }
    Ok(())
}

#[test]
fn a_text_that_is_cut_anywhere_is_refused(rt: HostRuntime) -> Result<(), Fail> {
    let alloc = rt.alloc();
    let text = LEDGER.as_bytes();
    let mut line = 1;
    for cut in 0..text.len() {
        let mut sources = Vec::new(alloc);
        sources.push(Pieces::new(FAILING.as_bytes(), usize::MAX, false))?;
        sources.push(Pieces::new(&text[..cut], usize::MAX, false))?;
        let mut sink = ByteSink::new(alloc);
        let want = Err(not_a_ledger(1, line));
        let merged = merge_to(&rt, alloc, 1, &mut sources, &mut sink, Form::Ledger);
        assert_eq!(rt; merged, want);
        assert!(rt; sink.bytes().is_empty());
        if text[cut] == b'\n' {
            line = u64::saturating_add(line, 1);
        }
    }
    assert_eq!(rt; line, 11);
    Ok(())
}

#[test]
fn a_read_that_fails_is_told_with_its_text(rt: HostRuntime) -> Result<(), Fail> {
    let alloc = rt.alloc();
    let front = "PMFARM-LEDGER 1\nsection 0.0 events=1 rows=0\nFENCE\nsect";
    for (texts, index) in [
        ([""].as_slice(), 0),
        (&[LEDGER, ""], 1),
        (&[LEDGER, front, OTHER], 1),
        (&[front, FAILING], 0),
        // A whole text, of which it is not known that it ends there.
        (&[FAILING, LEDGER], 1),
        (&[EMPTY, FAILING, EMPTY], 2),
    ] {
        for most in MOST {
            let fails = Some(index);
            let giving = Giving {
                most,
                fails,
                ..WHOLE
            };
            let sink = ByteSink::new(alloc);
            let fault = Err(MergeFault::Read { index });
            writes(&rt, alloc, texts, giving, sink, Form::Report, fault, b"")?;
        }
    }
    Ok(())
}

#[test]
fn a_write_that_fails_is_told(rt: HostRuntime) -> Result<(), Fail> {
    let alloc = rt.alloc();
    let texts = [LEDGER, FAILING];
    for room in [0, 10, REPORT.len().saturating_sub(1)] {
        for most in [1, usize::MAX] {
            let sink = ByteSink::new(alloc).failing_after(room).taking(most);
            let written = room as u64;
            let cut = Err(MergeFault::Write { written });
            let text = &REPORT.as_bytes()[..room];
            writes(&rt, alloc, &texts, WHOLE, sink, Form::Report, cut, text)?;
        }
    }
    let sink = ByteSink::new(alloc).taking(1);
    let want = Ok(counts(3, 1, 1));
    let text = REPORT.as_bytes();
    writes(&rt, alloc, &texts, WHOLE, sink, Form::Report, want, text)
}

// A fence, in a text line with this many bytes more.
fn long_fence(alloc: Global, more: usize) -> Result<String, AllocError> {
    let mut text = String::new(alloc);
    text.push_str(FENCE_LINE)?;
    for _ in 0..more {
        text.push_str("x")?;
    }
    text.push_str("\nend verdicts=1\n")?;
    Ok(text)
}

// A text with this fence has the same ledger as one with a short one.
fn reads_long<R: Abort + Threads + Sync>(rt: &R, alloc: Global, more: usize) -> Result<(), Fail> {
    let long = long_fence(alloc, more)?;
    let [fence, ..] = FENCES;
    let texts = [fence, long.as_str()];
    let sink = ByteSink::new(alloc);
    let want = Ok(counts(1, 0, 0));
    let text = fence.as_bytes();
    writes(rt, alloc, &texts, WHOLE, sink, Form::Ledger, want, text)
}

#[test]
fn a_text_line_may_be_longer_than_a_piece(rt: HostRuntime) -> Result<(), Fail> {
    let alloc = rt.alloc();
    // Its line end is the 16,384th byte, and just before and behind it.
    for length in [16_382, 16_383, 16_384, 16_385, 40_000] {
        let more = usize::saturating_sub(length, FENCE_LINE.len());
        reads_long(&rt, alloc, more)?;
    }
    Ok(())
}
