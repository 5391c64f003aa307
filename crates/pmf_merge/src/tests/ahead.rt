//! Texts that are long enough for threads, which read their blocks ahead.

use super::{Giving, WHOLE, counts, name, text_fault, writes};
use crate::MergeFault;
use pmf_device::ByteSink;
use pmf_ledger::{BlockFault, Form, LedgerFault};
use std::alloc::{AllocError, Global};
use std::process::Abort;
use std::test::Fail;
use std::thread::Threads;

// A section of one store that an assertion finds not durable has some 110 bytes, so that half of these are worth threads.
const SECTIONS: u64 = 1_400;

// How one text has another section at one place than it should have.
#[derive(Clone, Copy)]
enum Odd {
    None,
    // It tells that the assertion passed.
    FalseRow(u64),
    // An event of it is none.
    NoEvent(u64),
    // It has the name of the section before it.
    Again(u64),
}

// The text of every section of this rest by two.
fn half(alloc: Global, rest: u64, odd: Odd) -> Result<String, AllocError> {
    let mut text = String::new(alloc);
    text.push_str("PMFARM-LEDGER 1\n")?;
    let mut count: u64 = 0;
    for number in 0..SECTIONS {
        if number % 2 == rest {
            push(&mut text, number, odd)?;
            count = count.saturating_add(1);
        }
    }
    write!(text, "end verdicts={count}\n")?;
    Ok(text)
}

fn push(text: &mut String, number: u64, odd: Odd) -> Result<(), AllocError> {
    let mut named = number;
    let mut store = "STORE";
    let mut row = "2 PERSIST FAIL byte=0x1000 crash=2";
    match odd {
        Odd::FalseRow(at) if at == number => row = "2 PERSIST PASS",
        Odd::NoEvent(at) if at == number => store = "SHOP",
        Odd::Again(at) if at == number => named = number.saturating_sub(2),
        _ => {}
    }
    write!(
        text,
        "section 0.{named} events=2 rows=1\n{store};0x1000;0x0;0x8\nPMT.PERSIST;0x1000;0x8\n{row}\n"
    )
}

fn report(alloc: Global) -> Result<String, AllocError> {
    let mut text = String::new(alloc);
    for number in 0..SECTIONS {
        write!(
            text,
            "section 0.{number} events=2 pass=0 fail=1 warn=0 empty=0\n2 PERSIST FAIL byte=0x1000 crash=2\n"
        )?;
    }
    write!(
        text,
        "total sections={SECTIONS} pass=0 fail={SECTIONS} warn=0 empty=0\n"
    )?;
    Ok(text)
}

const WORKERS: [usize; 3] = [1, 3, 64];

#[test]
fn the_same_is_written_by_any_number_of_workers(rt: HostRuntime) -> Result<(), Fail> {
    let alloc = rt.alloc();
    let even = half(alloc, 0, Odd::None)?;
    let odd = half(alloc, 1, Odd::None)?;
    let want = report(alloc)?;
    for workers in WORKERS {
        // Pieces that end within a block, too.
        let most = if workers == 3 { 70_001 } else { usize::MAX };
        let giving = Giving {
            most,
            workers,
            ..WHOLE
        };
        let texts = [odd.as_str(), even.as_str(), odd.as_str()];
        let sink = ByteSink::new(alloc);
        let totals = Ok(counts(SECTIONS, 0, SECTIONS.into()));
        writes(
            &rt,
            alloc,
            &texts,
            giving,
            sink,
            Form::Report,
            totals,
            want.as_bytes(),
        )?;
    }
    Ok(())
}

// A text is refused for the same reason by any number of workers.
fn refuses<R: Abort + Threads + Sync>(
    rt: &R,
    alloc: Global,
    odd: Odd,
    want: MergeFault,
) -> Result<(), Fail> {
    let text = half(alloc, 0, odd)?;
    for workers in WORKERS {
        let giving = Giving { workers, ..WHOLE };
        // Nothing is written before 64 KiB are told, so the place of the fault is where nothing was.
        let sink = ByteSink::new(alloc);
        writes(
            rt,
            alloc,
            &[text.as_str()],
            giving,
            sink,
            Form::Summary,
            Err(want),
            b"",
        )?;
    }
    Ok(())
}

#[test]
fn the_same_fault_is_told_by_any_number_of_workers(rt: HostRuntime) -> Result<(), Fail> {
    let alloc = rt.alloc();
    let false_rows = LedgerFault::FalseRows { name: name(400) };
    refuses(&rt, alloc, Odd::FalseRow(400), text_fault(0, false_rows))?;
    // Four text lines a section, behind the first of all.
    let line = LedgerFault::NotALedger { line: 803 };
    refuses(&rt, alloc, Odd::NoEvent(400), text_fault(0, line))?;
    let again = MergeFault::Text {
        index: 0,
        fault: BlockFault::OutOfOrder { name: name(398) },
    };
    refuses(&rt, alloc, Odd::Again(400), again)
}
