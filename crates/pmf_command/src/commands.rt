//! What the program does, from the words of its command line on.

ghost use Rattle.std.specs.Prelude.{map, string_bytes};
ghost use Rattle.pmf_device.specs.Failures.{CanCountOneMore};
ghost use Rattle.pmf_command.specs.Answered.{AnswersSomeWords, AnswersWords};

use crate::diagnostics::print_waiting;
use crate::ended::{Ended, exhausted, refused, report_words};
use crate::files::{NumberedFiles, Prefixed};
use crate::requests::{answer, input_of};
use crate::shelf::{OnDisk, Shelf};
use pmf_device::{Device, Sink, Source, StdSink, StdSource};
use pmf_request::{Cuts, Request};
use pmf_stream::Outlet;
use pmf_words::request_of;
use std::alloc::Global;
use std::io::{Eprint, ErrorKind, Input, IsTerminal};
use std::sync::Wait;
use std::thread::Threads;
use std::{env, io};

/// Does what the words of the command line ask for: reads standard input and the files of the machine, and writes to standard output, or
/// to files of the machine. Workers' threads are started by the second handle: the program's `main` has it.
pub fn execute<T: Threads + Wait + Sync>(rt: &HostRuntime, threads: &T) -> Ended
    ensures { AnswersSomeWords result }
{
    let alloc = rt.alloc();
    let words = match words_of(rt) {
        Ok(words) => words,
        Err(error) if error.kind() == ErrorKind::OutOfMemory => return exhausted(rt),
        Err(_) => return refused(rt, "error: a word of the command line is not UTF-8\n"),
    };
    let input = rt.reader();
    let is_terminal = input.is_terminal();
    answer_words(
        rt,
        threads,
        alloc,
        words.as_slice(),
        is_terminal,
        &mut StdSource::new(input),
        &mut StdSink::new(io::writer(rt)),
        &mut NumberedFiles::new(rt, alloc),
        &OnDisk { rt },
    )
}

fn words_of(rt: &HostRuntime) -> io::Result<Vec<String>> {
    let words = env::args(rt)?.collect(rt.alloc())?;
    Ok(words)
}

/// Does what the words ask for, the first of which is the program's name. Says so before a log is read from a terminal.
fn answer_words<
    'a,
    R: Eprint,
    T: Threads + Wait + Sync,
    S: Source,
    W: Sink + Outlet,
    P: Prefixed<'a>,
    F: Shelf,
>(
    rt: &R,
    threads: &T,
    alloc: Global,
    words: &'a [String],
    is_terminal: bool,
    source: &mut S,
    sink: &mut W,
    parts: &mut P,
    shelf: &F,
) -> Ended
    requires read { CanCountOneMore (S.failed_calls source.old) }
    requires write { CanCountOneMore (W.failed_calls sink.old) }
    requires files { CanCountOneMore (P.failed_calls parts.old) }
    ensures { AnswersWords (map string_bytes words.entry.now) (record {
      left = S.left source.old;
      rest = S.left source.new;
      held = W.held sink.old;
      holds = W.held sink.new;
      held_in = W.held_in sink.old;
      holds_in = W.held_in sink.new;
      parts_held = P.held_in parts.old;
      parts_hold = P.held_in parts.new;
      files = F.bytes shelf.now;
    }) result }
{
    let request = match request_of(alloc, words) {
        Ok(request) => request,
        Err(error) => return report_words(rt, alloc, sink, &error),
    };
    if is_terminal && reads_log(&request) {
        print_waiting(rt);
    }
    parts.begin_names(prefix_of(&request));
    answer(rt, threads, alloc, &request, source, sink, parts, shelf)
}

// The front of the names of the files that a log is cut into.
fn prefix_of<'a>(request: &Request<'a>) -> &'a str {
    match request {
        Request::Cut(
            Cuts {
                files: Some(prefix),
                ..
            },
        ) => *prefix,
        _ => "",
    }
}

// Whether the request's log is read from standard input.
fn reads_log(request: &Request) -> bool {
    match request {
        Request::Join(_) | Request::Sim(_) => false,
        _ => matches!(input_of(request), pmf_request::Input::Standard),
    }
}
