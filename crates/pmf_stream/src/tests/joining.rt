//! Ledger texts that are joined, and what is written of them.

ghost use Rattle.std.specs.Prelude.{◌≡◌};

use crate::checking::{CheckLogFault, text_within};
use crate::fault::StreamFault;
use crate::joining::{JoinTextFault, Joined, join_texts, join_to};
use pmf_device::ByteSink;
use pmf_event::Name;
use pmf_fixtures::LEDGER;
use pmf_ledger::{Form, JoinFault, LedgerFault};
use std::alloc::{AllocError, Global};
use std::process::Abort;
use std::test::Fail;

// Section 0.1 is one fence.
const OTHER: &str = "\
PMFARM-LEDGER 1
section 0.1 events=1 rows=0
FENCE
end verdicts=1
";

const EMPTY: &str = "PMFARM-LEDGER 1\nend verdicts=0\n";

// Of no section, by profile Two.
const EMPTY_TWO: &str = "PMFARM-LEDGER 2\nend verdicts=0\n";

const FAILING: &str = "\
PMFARM-LEDGER 1
section 1.0 events=2 rows=1
STORE;0x1000;0x0;0x8
PMT.PERSIST;0x1000;0x8
2 PERSIST FAIL byte=0x1000 crash=2
end verdicts=1
";

const REPORT: &[u8] = b"\
section 0.0 events=1 pass=0 fail=0 warn=0 empty=0
section 0.1 events=4 pass=1 fail=0 warn=0 empty=0
4 PERSIST PASS
section 1.0 events=2 pass=0 fail=1 warn=0 empty=0
2 PERSIST FAIL byte=0x1000 crash=2
total sections=3 pass=1 fail=1 warn=0 empty=0
";

const SUMMARY: &[u8] = b"\
section 0.0 events=1 pass=0 fail=0 warn=0 empty=0
section 0.1 events=4 pass=1 fail=0 warn=0 empty=0
run 0 sections=2 pass=1 fail=0 warn=0 empty=0
section 1.0 events=2 pass=0 fail=1 warn=0 empty=0
2 PERSIST FAIL byte=0x1000 crash=2
run 1 sections=1 pass=0 fail=1 warn=0 empty=0
total sections=3 pass=1 fail=1 warn=0 empty=0
";

fn bytes_of(alloc: Global, texts: &[&str]) -> Result<Vec<Vec<u8>>, AllocError> {
    let mut list = Vec::new(alloc);
    for text in texts {
        let mut bytes = Vec::new(alloc);
        bytes.extend_from_slice(text.as_bytes())?;
        list.push(bytes)?;
    }
    Ok(list)
}

// The join of the texts answers so, and the sink holds these bytes.
fn writes(
    rt: &impl Abort,
    alloc: Global,
    texts: &[&str],
    mut sink: ByteSink,
    form: Form,
    want: Result<Joined, StreamFault<JoinTextFault>>,
    text: &[u8],
) -> Result<(), Fail>
    requires { sink.failures ≡ 0 }
{
    let texts = bytes_of(alloc, texts)?;
    assert_eq!(rt; join_to(alloc, &texts, &mut sink, form), want);
    assert!(rt; sink.bytes() == text, "{want:?}");
    Ok(())
}

#[test]
fn each_text_of_all_is_written(rt: HostRuntime) -> Result<(), Fail> {
    let alloc = rt.alloc();
    for (texts, form, fails, text) in [
        (
            [LEDGER, EMPTY, LEDGER].as_slice(),
            Form::Ledger,
            0,
            LEDGER.as_bytes(),
        ),
        (&[], Form::Ledger, 0, EMPTY.as_bytes()),
        (&[EMPTY_TWO; 3], Form::Ledger, 0, EMPTY_TWO.as_bytes()),
        (&[FAILING, LEDGER], Form::Report, 1, REPORT),
        (&[FAILING, LEDGER], Form::Summary, 1, SUMMARY),
    ] {
        let sink = ByteSink::new(alloc);
        let want = Ok(Joined { fails });
        writes(&rt, alloc, texts, sink, form, want, text)?;
    }
    let joined = join_texts(alloc, &bytes_of(alloc, &[LEDGER, FAILING])?)?;
    assert_eq!(rt; joined.len(), 3);
    Ok(())
}

// The second text's second line is none of a ledger.
const NOT_LOADED: JoinTextFault = JoinTextFault::Load {
    index: 1,
    fault: LedgerFault::NotALedger { line: 2 },
};

const FAULTY: &str = "PMFARM-LEDGER 1\nx\nend verdicts=0\n";

const CONFLICT: JoinTextFault = JoinTextFault::Join(JoinFault::Conflict {
    name: Name { run: 0, number: 1 },
});

#[test]
fn the_first_refusal_is_told_and_nothing_is_written(rt: HostRuntime) -> Result<(), Fail> {
    for (texts, fault) in [
        ([LEDGER, FAULTY, OTHER], NOT_LOADED),
        ([LEDGER, OTHER, FAULTY], CONFLICT),
    ] {
        let sink = ByteSink::new(rt.alloc());
        let refused = Err(StreamFault::Refused(fault));
        writes(&rt, rt.alloc(), &texts, sink, Form::Report, refused, b"")?;
    }
    Ok(())
}

// Five sections, each of one fence.
const FENCES: [&str; 5] = [
    "PMFARM-LEDGER 1\nsection 0.0 events=1 rows=0\nFENCE\nend verdicts=1\n",
    "PMFARM-LEDGER 1\nsection 0.1 events=1 rows=0\nFENCE\nend verdicts=1\n",
    "PMFARM-LEDGER 1\nsection 0.2 events=1 rows=0\nFENCE\nend verdicts=1\n",
    "PMFARM-LEDGER 1\nsection 0.3 events=1 rows=0\nFENCE\nend verdicts=1\n",
    "PMFARM-LEDGER 1\nsection 0.4 events=1 rows=0\nFENCE\nend verdicts=1\n",
];

#[test]
fn each_number_of_texts_is_joined(rt: HostRuntime) -> Result<(), Fail> {
    let alloc = rt.alloc();
    for count in 0..=FENCES.len() {
        let joined = join_texts(alloc, &bytes_of(alloc, &FENCES[..count])?)?;
        assert_eq!(rt; joined.len(), count);
    }
    Ok(())
}

#[test]
fn the_first_refusal_of_five_is_told(rt: HostRuntime) -> Result<(), Fail> {
    let [first, second, third, fourth, fifth] = FENCES;
    // Section 0.1 is no fence.
    let other = "PMFARM-LEDGER 1\nsection 0.1 events=0 rows=0\nend verdicts=1\n";
    for (texts, fault) in [
        ([first, FAULTY, third, fourth, other], NOT_LOADED),
        ([first, second, third, fourth, other], CONFLICT),
        ([first, second, other, FAULTY, fifth], CONFLICT),
        ([first, other, third, second, FAULTY], CONFLICT),
    ] {
        let sink = ByteSink::new(rt.alloc());
        let refused = Err(StreamFault::Refused(fault));
        writes(&rt, rt.alloc(), &texts, sink, Form::Report, refused, b"")?;
    }
    Ok(())
}

// These are cut off: behind the head of a section, and in its last line, where the rows are found to be false.
const CUT: &str = "PMFARM-LEDGER 1\nsection 0.7 events=1 rows=0\n";

const CUT_WITH_FALSE_ROWS: &str =
    "PMFARM-LEDGER 1\nsection 0.7 events=1 rows=1\nFENCE\nend verdicts=1";

fn load_fault(index: usize, fault: LedgerFault) -> JoinTextFault {
    JoinTextFault::Load { index, fault }
}

#[test]
fn a_text_that_was_cut_off_is_told_in_its_turn(rt: HostRuntime) -> Result<(), Fail> {
    let cut = LedgerFault::NotALedger { line: 3 };
    let name = Name { run: 0, number: 7 };
    let rows = LedgerFault::FalseRows { name };
    let profiles = JoinTextFault::Join(JoinFault::ProfileMismatch);
    for (texts, fault) in [
        ([LEDGER, FENCES[0], CUT], load_fault(2, cut)),
        ([LEDGER, CUT, OTHER], load_fault(1, cut)),
        ([CUT, FAULTY, FENCES[0]], load_fault(0, cut)),
        // Section 0.1 of both differs.
        ([LEDGER, OTHER, CUT], CONFLICT),
        ([EMPTY, EMPTY_TWO, CUT], profiles),
        ([EMPTY, CUT, EMPTY_TWO], load_fault(1, cut)),
        ([LEDGER, FAULTY, CUT], NOT_LOADED),
        ([CUT_WITH_FALSE_ROWS, CUT, FAULTY], load_fault(0, rows)),
    ] {
        let sink = ByteSink::new(rt.alloc());
        let refused = Err(StreamFault::Refused(fault));
        writes(&rt, rt.alloc(), &texts, sink, Form::Report, refused, b"")?;
    }
    Ok(())
}

#[test]
fn a_write_that_fails_is_told(rt: HostRuntime) -> Result<(), Fail> {
    for room in [0, 10, REPORT.len() - 1] {
        let sink = ByteSink::new(rt.alloc()).failing_after(room);
        let written = room as u64;
        let cut = Err(StreamFault::WriteFault { written });
        let text = &REPORT[..room];
        writes(
            &rt,
            rt.alloc(),
            &[LEDGER, FAILING],
            sink,
            Form::Report,
            cut,
            text,
        )?;
    }
    Ok(())
}

#[test]
fn a_refused_join_of_texts_has_its_text(rt: HostRuntime) -> Result<(), Fail> {
    for (fault, want) in [
        (NOT_LOADED, "line 2: not a ledger"),
        (CONFLICT, "section 0.1: held with other events"),
        (JoinTextFault::TooLong, "ledger is too long"),
        (JoinTextFault::OutOfMemory, "out of memory"),
    ] {
        let text = format!(in rt.alloc(); "{fault}")?;
        assert_eq!(rt; text.as_str(), want);
    }
    let text = format!(in rt.alloc(); "{}", CheckLogFault::TooLong)?;
    assert_eq!(rt; text.as_str(), "ledger is too long");
    Ok(())
}

#[test]
fn a_ledger_text_is_given_up_to_its_limit(rt: HostRuntime) -> Result<(), Fail> {
    let alloc = rt.alloc();
    let ledger = join_texts(alloc, &bytes_of(alloc, &[EMPTY])?)?;
    let cut = text_within(alloc, &ledger, 30)?;
    assert!(rt; cut.is_none());
    let whole = text_within(alloc, &ledger, 31)?;
    assert!(rt; whole.as_deref() == Some(EMPTY.as_bytes()));
    Ok(())
}
