//! Many sections, whose text is written in parts.

use super::{WHOLE, counts, writes};
use crate::MergeFault;
use pmf_device::ByteSink;
use pmf_ledger::Form;
use std::alloc::{AllocError, Global};
use std::test::Fail;

// So many sections are more than is kept before it is written.
const MANY: u64 = 2_000;

// The text of those sections of the first many whose number leaves one of these rests, by three. Each is a fence.
fn every_third(alloc: Global, rests: &[u64]) -> Result<String, AllocError> {
    let mut text = String::new(alloc);
    text.push_str("PMFARM-LEDGER 1\n")?;
    let mut count: u64 = 0;
    for number in 0..MANY {
        if rests.contains(&(number % 3)) {
            write!(text, "section 0.{number} events=1 rows=0\nFENCE\n")?;
            count = count.saturating_add(1);
        }
    }
    write!(text, "end verdicts={count}\n")?;
    Ok(text)
}

fn report_of_many(alloc: Global) -> Result<String, AllocError> {
    let mut text = String::new(alloc);
    for number in 0..MANY {
        write!(
            text,
            "section 0.{number} events=1 pass=0 fail=0 warn=0 empty=0\n"
        )?;
    }
    write!(text, "total sections={MANY} pass=0 fail=0 warn=0 empty=0\n")?;
    Ok(text)
}

#[test]
fn many_sections_are_written_in_parts(rt: HostRuntime) -> Result<(), Fail> {
    let alloc = rt.alloc();
    let first = every_third(alloc, &[0, 2])?;
    let second = every_third(alloc, &[1, 2])?;
    let texts = [first.as_str(), second.as_str()];
    let want = Ok(counts(MANY, 0, 0));
    let all = every_third(alloc, &[0, 1, 2])?;
    let report = report_of_many(alloc)?;
    for (form, text) in [(Form::Ledger, &all), (Form::Report, &report)] {
        let sink = ByteSink::new(alloc);
        writes(&rt, alloc, &texts, WHOLE, sink, form, want, text.as_bytes())?;
    }
    // The first part was written when a later write fails.
    let room = report.len().saturating_sub(9);
    let sink = ByteSink::new(alloc).failing_after(room);
    let cut = Err(MergeFault::Write {
        written: room as u64,
    });
    let front = &report.as_bytes()[..room];
    writes(&rt, alloc, &texts, WHOLE, sink, Form::Report, cut, front)
}
