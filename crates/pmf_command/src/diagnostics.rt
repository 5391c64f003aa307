//! What is said on standard error.

ghost use Rattle.std.specs.Prelude.{◌≡◌};

use crate::status::Status;
use pmf_lint::{Warnings, push_warnings};
use pmf_stream::Notes;
use std::alloc::Global;
use std::fmt::Display;
use std::io::Eprint;

/// Says on standard error why the program ends so, and answers the status. A write that fails
/// there changes nothing.
pub fn fail<R: Eprint, D: Display + Drop>(rt: &R, cause: D, status: Status) -> Status
    ensures { result ≡ status }
{
    let _ = eprintln!(rt; "pmfarm: {cause}");
    status
}

/// The same of one of the program's files.
pub fn fail_file<R: Eprint, D: Display + Drop>(
    rt: &R,
    file: &str,
    cause: D,
    status: Status,
) -> Status
    ensures { result ≡ status }
{
    let _ = eprintln!(rt; "pmfarm: {file}: {cause}");
    status
}

/// Says on standard error that memory ran out.
pub fn out_of_memory<R: Eprint>(rt: &R) -> Status
    ensures { result ≡ Status.NoMemory }
{
    fail(rt, "out of memory", Status::NoMemory)
}

/// Says on standard error why the words of the command line are refused. The text ends its own
/// line.
pub fn refuse_words<R: Eprint>(rt: &R, text: &str) -> Status
    ensures { result ≡ Status.Refused }
{
    let _ = eprint!(rt; "pmfarm: {text}");
    Status::Refused
}

/// Says on standard error how many records of a log were skipped, if any were.
pub fn print_skipped<R: Eprint>(rt: &R, records: u64) {
    if records > 0 {
        let _ = eprintln!(rt; "pmfarm: skipped {records} records");
    }
}

/// Says on standard error which warnings of a log are due.
pub fn print_warnings<R: Eprint>(rt: &R, alloc: Global, warnings: Warnings) {
    let mut text = String::new(alloc);
    let _ = match push_warnings(&mut text, "pmfarm: ", warnings) {
        Ok(()) => eprint!(rt; "{text}"),
        Err(_) => eprintln!(rt; "pmfarm: out of memory for the warnings"),
    };
}

/// Says that a log is awaited from a terminal.
pub fn print_waiting<R: Eprint>(rt: &R) {
    let _ = eprintln!(rt; "pmfarm: reading the log from standard input");
}

/// Says that nothing that was merged was checked.
pub fn print_trust<R: Eprint>(rt: &R) {
    let _ = eprintln!(rt; "pmfarm: merged on trust: no section was checked");
}

/// Says how many cuts were made in a log, and how many files it became, where it is cut into files.
pub fn print_cuts<R: Eprint>(rt: &R, cuts: u64, files: Option<usize>) {
    let _ = match files {
        Some(files) => eprintln!(rt; "pmfarm: {cuts} cuts, {files} files"),
        None => eprintln!(rt; "pmfarm: {cuts} cuts"),
    };
}

/// What is said on standard error while a log is cut.
#[derive(Drop)]
pub struct Spoken<'a, R: Eprint> {
    pub(crate) rt: &'a R,
}

impl<R: Eprint> Notes for Spoken<'_, R> {
    fn note(&mut self, line: &str) {
        let _ = eprintln!(self.rt; "pmfarm: {line}");
    }
}
