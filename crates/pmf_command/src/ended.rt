//! How the process ends: as what was asked for was answered.

ghost use Rattle.std.specs.{Prelude.{◌≡◌, ◌⊎◌, ◌↔◌, ◌+◌, Bool, map, All, MatchResult, IfOk, Result}, Io.KnownBytes.{Appends}, Process.{exit_status}};
ghost use Rattle.clap.specs.Words.{kind_of};
ghost use Rattle.pmf_device.specs.Failures.{CanCountOneMore};
ghost use Rattle.pmf_stream.specs.{Simulated.{IsSimRefusalOf, IsSimulationOf}, Answering.{Answers, TellsFaults, TellsFaultsOfParts, failed_reads, failed_writes}, Asked.{IsAnswerOf, IsRefusalOf}, Checking.{IsCheckFaultOf, IsReportOf}, Files.{IsCutOf}, Joining.{IsJoinedText, IsRefusalOfTexts}, declared.checking.CheckLogFault.{CheckLogFault}, declared.checking.Done.{Done}, declared.cutting.Pieces.{Pieces}, declared.fault.StreamFault.{StreamFault}, declared.joining.Joined.{Joined}, declared.joining.JoinTextFault.{JoinTextFault}};
ghost use Rattle.pmf_cut.specs.declared.fault.CutFault.{CutFault};
ghost use Rattle.pmf_ledger.specs.declared.totals.Totals.{Totals};
ghost use Rattle.pmf_merge.specs.{Merging.{Merges}, Trusting.{Trusts}, declared.fault.MergeFault.{MergeFault}};
ghost use Rattle.pmf_world.specs.declared.simulating.SimFault.{SimFault};
ghost use Rattle.pmf_command.specs.{Answered.{IsUnmerged, IsUntrusted}, Statuses.{IsAnswerTo, exit_code_of, status_of, status_of_asked, status_of_check_fault, status_of_cut_fault, status_of_done, status_of_fault, status_of_joined, status_of_merge, status_of_pieces, status_of_sim_fault, status_of_text_fault, status_of_trust}, declared.status.Status.{Status}};

use crate::diagnostics::{
    Spoken, fail, fail_file, out_of_memory, print_cuts, print_skipped, print_trust, print_warnings,
    refuse_words,
};
use crate::ending::Ending;
use crate::hints::{print_end, print_hint, print_reason, say};
use crate::shelf::Unread;
use crate::status::Status;
use pmf_device::{Cut, Device, Sink, Source, write_text};
use pmf_farm::OpenGate;
use pmf_ledger::{Form, JoinFault};
use pmf_merge::{MergeFault, merge_to, trust_to};
use pmf_query::{Query, StreamedQuery};
use pmf_request::{Lengths, Settings};
use pmf_stream::{
    Excerpt, JoinTextFault, Joined, Outlet, StreamFault, answer_stream, check_stream, cut_stream,
    join_to, recite_stream, sim_to,
};
use std::alloc::Global;
use std::fmt::Display;
use std::io;
use std::io::Eprint;
use std::marker::Model;
use std::process::{ExitCode, Termination};
use std::sync::Wait;
use std::thread::Threads;

/// How the process ends. The functions of this module alone make one, each as what it did was answered or refused, and it can be
/// neither dropped nor copied: a `main` that returns one ends so.
pub struct Ended {
    status: Status,
}

impl Model for Ended {
    ghost Value = { Status };

    ghost view = { λ ended. ended.status };
}

impl Termination for Ended {
    fn report<R: Eprint>(self, _rt: &R) -> ExitCode
        ensures { exit_status result ≡ exit_code_of self }
    {
        let Ended { status } = self;
        ExitCode::from(status.exit_code())
    }
}

/// The words of the command line are refused.
pub(crate) fn refused<R: Eprint>(rt: &R, text: &str) -> Ended
    ensures { result ≡ Status.Refused }
{
    Ended {
        status: refuse_words(rt, text),
    }
}

/// Memory ran out before anything was answered.
pub(crate) fn exhausted<R: Eprint>(rt: &R) -> Ended
    ensures { result ≡ Status.NoMemory }
{
    Ended {
        status: out_of_memory(rt),
    }
}

/// A file was not read.
pub(crate) fn unread<R: Eprint>(rt: &R, name: &str, why: Unread) -> Ended
    ensures { (result ≡ Status.NoMemory) ⊎ (result ≡ Status.DeviceFault) }
{
    let status = match why {
        Unread::OutOfMemory => out_of_memory(rt),
        Unread::Failed(reason) => {
            let status = fail_file(rt, name, "read failed", Status::DeviceFault);
            print_reason(rt, reason);
            print_end(rt, name);
            status
        }
    };
    Ended { status }
}

/// What was to be read is not answered: says why, and what may help, by the record that is refused and what the system said of a read.
pub(crate) fn unanswered<R: Eprint, E: Ending + Display + Drop>(
    rt: &R,
    fault: StreamFault<E>,
    refused: &Excerpt,
    reason: Option<io::Error>,
) -> Ended
    ensures { result ≡ status_of_fault E.ends_as fault }
{
    let cause = fault.cause();
    let hint = fault.hint();
    let status = fault.status();
    let status = fail(rt, fault, status);
    if let Some(cause) = cause {
        print_hint(rt, cause, refused.text());
    }
    if let Some(hint) = hint {
        say(rt, hint);
    }
    print_reason(rt, reason);
    Ended { status }
}

/// Checks the log of the source by workers whose gate is open, and writes its report to the sink.
pub(crate) fn check_to<R: Eprint, T: Threads + Wait + Sync, S: Source, W: Sink>(
    rt: &R,
    threads: &T,
    alloc: Global,
    source: &mut S,
    sink: &mut W,
    settings: Settings,
) -> Ended
    requires read { CanCountOneMore (S.failed_calls source.old) }
    requires write { CanCountOneMore (W.failed_calls sink.old) }
    ensures { (answer : Result Done (StreamFault CheckLogFault))
        × (result ≡ status_of status_of_done status_of_check_fault answer)
        × Answers (IsReportOf settings (S.left source.old) (S.left source.new))
        (IsCheckFaultOf settings (S.left source.old) (S.left source.new))
        (W.held sink.old) (W.held sink.new) answer
        × TellsFaults (S.failed_calls source.old) (S.failed_calls source.new)
        (W.failed_calls sink.old) (W.failed_calls sink.new) sink.old sink.new answer }
{
    let mut refused = Excerpt::none();
    let answer = check_stream(
        threads,
        alloc,
        source,
        sink,
        settings,
        &OpenGate,
        &mut refused,
    );
    if let Ok(done) = &answer {
        print_skipped(rt, done.skipped);
        if let Some(warnings) = done.warnings {
            print_warnings(rt, alloc, warnings);
        }
    }
    report_ending(rt, answer, &refused, source.reason())
}

/// Reads the log of the source and writes the answer of what is asked of it to the sink.
pub(crate) fn answer_to<
    R: Eprint,
    S: Source,
    W: Sink,
    T: Ending + Drop,
    E: Ending + Display + Drop,
    Q: Query<Told = T, Refusal = E>,
>(rt: &R, alloc: Global, source: &mut S, sink: &mut W, query: &Q) -> Ended
    requires read { CanCountOneMore (S.failed_calls source.old) }
    requires write { CanCountOneMore (W.failed_calls sink.old) }
    ensures { (answer : Result T (StreamFault E))
        × (result ≡ status_of T.ends_as E.ends_as answer)
        × Answers (IsAnswerOf (Q.IsAnswer query.now) (S.left source.old) (S.left source.new))
        (IsRefusalOf (Q.IsRefusal query.now) (S.left source.old) (S.left source.new))
        (W.held sink.old) (W.held sink.new) answer
        × TellsFaults (S.failed_calls source.old) (S.failed_calls source.new)
        (W.failed_calls sink.old) (W.failed_calls sink.new) sink.old sink.new answer }
{
    let mut refused = Excerpt::none();
    let answer = answer_stream(alloc, source, sink, query, &mut refused);
    report_ending(rt, answer, &refused, source.reason())
}

/// Reads the log of the source and writes the answer of what is asked of it to the sink, part by part.
pub(crate) fn recite_to<
    R: Eprint,
    S: Source,
    W: Sink,
    T: Ending + Drop,
    E: Ending + Display + Drop,
    Q: StreamedQuery<Told = T, Refusal = E>,
>(rt: &R, alloc: Global, source: &mut S, sink: &mut W, query: &Q) -> Ended
    requires read { CanCountOneMore (S.failed_calls source.old) }
    requires write { CanCountOneMore (W.failed_calls sink.old) }
    ensures { (answer : Result T (StreamFault E))
        × (result ≡ status_of T.ends_as E.ends_as answer)
        × Answers (IsAnswerOf (Q.IsAnswer query.now) (S.left source.old) (S.left source.new))
        (IsRefusalOf (Q.IsRefusal query.now) (S.left source.old) (S.left source.new))
        (W.held sink.old) (W.held sink.new) answer
        × TellsFaultsOfParts (IsAnswerOf (Q.IsAnswer query.now) (S.left source.old) (S.left source.new)) W.held
        (S.failed_calls source.old) (S.failed_calls source.new)
        (W.failed_calls sink.old) (W.failed_calls sink.new) sink.old sink.new answer }
{
    let mut refused = Excerpt::none();
    let answer = recite_stream(alloc, source, sink, query, &mut refused);
    report_ending(rt, answer, &refused, source.reason())
}

/// Writes the log of the source to the sink with its sections cut, in files of so many bytes where they are told, and says on standard
/// error what that may have changed.
pub(crate) fn cut_to<R: Eprint, S: Source, W: Outlet>(
    rt: &R,
    alloc: Global,
    source: &mut S,
    sink: &mut W,
    lengths: Lengths,
    bytes: Option<u64>,
) -> Ended
    requires read { CanCountOneMore (S.failed_calls source.old) }
    requires write { CanCountOneMore (W.failed_calls sink.old) }
    ensures { (answer : Result Pieces (StreamFault CutFault))
        × (result ≡ status_of status_of_pieces status_of_cut_fault answer)
        × IfOk answer (λ pieces. IsCutOf lengths.step (S.left source.old) (S.left source.new) (W.held_in sink.old) (W.held_in sink.new) pieces.told)
        × (S.failed_calls source.new ≡ S.failed_calls source.old + failed_reads answer)
        × (W.failed_calls sink.new ≡ W.failed_calls sink.old + failed_writes answer) }
{
    let mut refused = Excerpt::none();
    let answer = cut_stream(
        alloc,
        source,
        sink,
        &mut Spoken { rt },
        lengths,
        bytes,
        &mut refused,
    );
    if let Ok(pieces) = &answer {
        print_cuts(rt, pieces.cuts, bytes.is_some().then_some(pieces.files));
    }
    report_ending(rt, answer, &refused, source.reason())
}

/// Joins the texts of the files with these names and writes the ledger of all to the sink in this form.
pub(crate) fn join_all<R: Eprint, W: Sink>(
    rt: &R,
    alloc: Global,
    names: &[&str],
    texts: &[Vec<u8>],
    sink: &mut W,
    form: Form,
) -> Ended
    requires { CanCountOneMore (W.failed_calls sink.old) }
    ensures { (answer : Result Joined (StreamFault JoinTextFault))
        × (result ≡ status_of status_of_joined status_of_text_fault answer)
        × Answers (IsJoinedText form (map (λ text. text.items) texts.now))
        (IsRefusalOfTexts form (map (λ text. text.items) texts.now))
        (W.held sink.old) (W.held sink.new) answer
        × TellsFaults 0 0 (W.failed_calls sink.old) (W.failed_calls sink.new)
        sink.old sink.new answer }
{
    let answer = join_to(alloc, texts, sink, form);
    report_joined(rt, names, answer)
}

/// Merges the ledgers of the sources, which are the files with these names, and writes the ledger of all to the
/// sink in this form. So many threads check their sections.
pub(crate) fn merge_all<R: Eprint, T: Threads + Sync, S: Source, W: Sink>(
    rt: &R,
    threads: &T,
    alloc: Global,
    workers: usize,
    names: &[&str],
    sources: &mut Vec<S>,
    sink: &mut W,
    form: Form,
) -> Ended
    requires reads { All (λ s. CanCountOneMore (S.failed_calls s)) sources.old.items }
    requires writes { CanCountOneMore (W.failed_calls sink.old) }
    ensures { (answer : Result Totals MergeFault) × (result ≡ status_of_merge answer)
        × MatchResult answer (Merges form (map S.left sources.old.items) (W.held sink.old) (W.held sink.new))
        (IsUnmerged form (map S.left sources.old.items) (W.held sink.old) (W.held sink.new)) }
{
    let answer = merge_to(threads, alloc, workers, sources, sink, form);
    let status = match answer {
        Ok(totals) => totals.status(),
        Err(fault) => {
            say_not_merged(rt, names, sources, fault);
            fault.status()
        }
    };
    Ended { status }
}

/// Merges the ledgers of the sources, which are the files with these names, as they stand, writes the text of all to the sink, and says on
/// standard error that no section was checked.
pub(crate) fn trust_all<R: Eprint, S: Source, W: Sink>(
    rt: &R,
    alloc: Global,
    names: &[&str],
    sources: &mut Vec<S>,
    sink: &mut W,
) -> Ended
    requires reads { All (λ s. CanCountOneMore (S.failed_calls s)) sources.old.items }
    requires writes { CanCountOneMore (W.failed_calls sink.old) }
    ensures { (answer : Result Bool MergeFault) × (result ≡ status_of_trust answer)
        × MatchResult answer (Trusts (map S.left sources.old.items) (W.held sink.old) (W.held sink.new))
        (IsUntrusted (map S.left sources.old.items) (W.held sink.old) (W.held sink.new)) }
{
    let answer = trust_to(alloc, sources, sink);
    let status = match answer {
        Ok(fails) => {
            print_trust(rt);
            if fails {
                Status::SomeFail
            } else {
                Status::NoFail
            }
        }
        Err(fault) => {
            say_not_merged(rt, names, sources, fault);
            fault.status()
        }
    };
    Ended { status }
}

// Says on standard error why the files with these names are not merged.
fn say_not_merged<R: Eprint, S: Source>(rt: &R, names: &[&str], sources: &[S], fault: MergeFault) {
    let status: Status = fault.status();
    if status == Status::NoMemory {
        out_of_memory(rt);
        return;
    }
    match fault {
        MergeFault::Text { index, fault } => fail_file(rt, name_of(names, index), fault, status),
        MergeFault::Read { index } => {
            fail_file(rt, name_of(names, index), "read failed", status);
            if let Some(source) = sources.get(index) {
                print_reason(rt, source.reason());
            }
            status
        }
        MergeFault::ProfileMismatch { index } => {
            fail_file(
                rt,
                name_of(names, index),
                JoinFault::ProfileMismatch,
                status,
            )
        }
        MergeFault::Conflict { name } => fail(rt, JoinFault::Conflict { name }, status),
        MergeFault::Write { written } => fail(rt, Cut { written }, status),
        MergeFault::OutOfMemory => status,
    };
}

fn name_of<'a>(names: &[&'a str], index: usize) -> &'a str {
    match names.get(index) {
        Some(name) => *name,
        None => "",
    }
}

/// Plays the schedule with the sections of the log, and writes what comes of it to the sink.
pub(crate) fn play_to<R: Eprint, W: Sink>(
    rt: &R,
    alloc: Global,
    log: &[u8],
    schedule: &[u8],
    workers: u32,
    ledgers: u32,
    sink: &mut W,
) -> Ended
    requires { CanCountOneMore (W.failed_calls sink.old) }
    ensures { (answer : Result (Unit {0}) (StreamFault SimFault))
        × (result ≡ status_of status_of_asked status_of_sim_fault answer)
        × Answers (IsSimulationOf log.now schedule.now workers ledgers)
        (IsSimRefusalOf log.now schedule.now workers ledgers)
        (W.held sink.old) (W.held sink.new) answer
        × TellsFaults 0 0 (W.failed_calls sink.old) (W.failed_calls sink.new)
        sink.old sink.new answer }
{
    let answer = sim_to(alloc, log, schedule, workers, ledgers, sink);
    report_ending(rt, answer, &Excerpt::none(), None)
}

/// Writes what `clap` has to say: help and the version to the sink, a fault to standard error.
pub(crate) fn report_words<R: Eprint, W: Sink>(
    rt: &R,
    alloc: Global,
    sink: &mut W,
    error: &clap::Error,
) -> Ended
    requires { CanCountOneMore (W.failed_calls sink.old) }
    ensures { IsAnswerTo (kind_of error.now) result }
{
    Ended {
        status: say_words(rt, alloc, sink, error),
    }
}

// The same, with its status.
fn say_words<R: Eprint, W: Sink>(rt: &R, alloc: Global, sink: &mut W, error: &clap::Error) -> Status
    requires { CanCountOneMore (W.failed_calls sink.old) }
    ensures { IsAnswerTo (kind_of error.now) result }
{
    let Ok(text) = format!(in alloc; "{error}") else {
        return out_of_memory(rt);
    };
    match Status::of_kind(error.kind()) {
        Status::NoFail => show(rt, sink, text.as_bytes()),
        Status::NoMemory => out_of_memory(rt),
        _ => refuse_words(rt, text.as_str()),
    }
}

/// Writes a text to the sink.
fn show<R: Eprint, W: Sink>(rt: &R, sink: &mut W, text: &[u8]) -> Status
    requires { CanCountOneMore (W.failed_calls sink.old) }
    ensures whole { (result ≡ Status.NoFail) → Appends (W.held sink.old) (W.held sink.new) text.now }
    ensures failed { (result ≡ Status.DeviceFault) ↔ (W.failed_calls sink.new ≡ W.failed_calls sink.old + 1) }
    ensures statuses { (result ≡ Status.NoFail) ⊎ (result ≡ Status.DeviceFault) }
{
    match write_text(sink, text) {
        Ok(()) => Status::NoFail,
        Err(cut) => fail(rt, cut, Status::DeviceFault),
    }
}

/// Says on standard error why a stream is not answered, if it is not, and how the program ends.
fn report_ending<R: Eprint, T: Ending + Drop, E: Ending + Display + Drop>(
    rt: &R,
    answer: Result<T, StreamFault<E>>,
    refused: &Excerpt,
    reason: Option<io::Error>,
) -> Ended
    ensures { result ≡ status_of T.ends_as E.ends_as answer }
{
    match answer {
        Ok(done) => Ended {
            status: done.status(),
        },
        Err(fault) => unanswered(rt, fault, refused, reason),
    }
}

/// Says on standard error why the texts of these files are not joined, if they are not, and how the program ends.
fn report_joined<R: Eprint>(
    rt: &R,
    names: &[&str],
    answer: Result<Joined, StreamFault<JoinTextFault>>,
) -> Ended
    ensures { result ≡ status_of status_of_joined status_of_text_fault answer }
{
    if let Err(StreamFault::Refused(JoinTextFault::Load { index, fault })) = &answer {
        if let Some(name) = names.get(*index) {
            let status = fail_file(rt, *name, *fault, fault.status());
            return Ended { status };
        }
    }
    report_ending(rt, answer, &Excerpt::none(), None)
}
