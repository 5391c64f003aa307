//! What is answered for each request, over the streams and the files that it is handed.

ghost use Rattle.std.specs.Prelude.{◌≡◌, ◌⊎◌, is_none, map, All, IfErr, IfOk};
ghost use Rattle.pmf_ledger.specs.declared.loading.TheConstants.{LEDGER_LIMIT};
ghost use Rattle.pmf_device.specs.Failures.{CanCountOneMore};
ghost use Rattle.pmf_command.specs.{Answered.{AreOpened, AreRead, IsAnswered, IsAnsweredFrom, IsListOf, IsUnread, list_file, JoinsFiles, JoinsNamed, JoinsRead, MergesOpened, Simulates, TrustsOpened, can_cut, form_of, input_of}, declared.status.Status.{Status}};

use crate::ended::{
    Ended, answer_to, check_to, cut_to, exhausted, join_all, merge_all, play_to, recite_to,
    refused, trust_all, unanswered, unread,
};
use crate::hints::print_limit;
use crate::list::all_names;
use crate::shelf::{Shelf, bytes_of};
use pmf_device::{Device, Sink, Source};
use pmf_event::EVENT_LIMIT;
use pmf_ledger::{Form, LEDGER_LIMIT};
use pmf_lint::Survey;
use pmf_request::{Cuts, Files, Input, Joining, Request, Simulation, Wanted};
use pmf_storelog::LOG_LIMIT;
use pmf_stream::{Excerpt, Outlet, read_all};
use pmf_why::{Patch, Why};
use pmf_world::{SCHEDULE_LIMIT, SimFault};
use std::alloc::Global;
use std::io::Eprint;
use std::sync::Wait;
use std::thread::Threads;

/// Does what the request asks for: reads the source and the files of the shelf, its log from where it says, and writes to the sink, or the
/// parts of a log to their files.
pub(crate) fn answer<
    R: Eprint,
    T: Threads + Wait + Sync,
    S: Source,
    W: Sink + Outlet,
    P: Outlet,
    F: Shelf,
>(
    rt: &R,
    threads: &T,
    alloc: Global,
    request: &Request,
    source: &mut S,
    sink: &mut W,
    parts: &mut P,
    shelf: &F,
) -> Ended
    requires read { CanCountOneMore (S.failed_calls source.old) }
    requires write { CanCountOneMore (W.failed_calls sink.old) }
    requires files { CanCountOneMore (P.failed_calls parts.old) }
    ensures { IsAnswered request.now (record {
      left = S.left source.old;
      rest = S.left source.new;
      held = W.held sink.old;
      holds = W.held sink.new;
      held_in = W.held_in sink.old;
      holds_in = W.held_in sink.new;
      parts_held = P.held_in parts.old;
      parts_hold = P.held_in parts.new;
      files = F.bytes shelf.now;
    }) result }
{
    match input_of(request) {
        Input::Standard => { answer_from(rt, threads, alloc, request, source, sink, parts, shelf) }
        Input::File(name) => {
            let mut file = match shelf.open(name) {
                Ok(file) => file,
                Err(why) => return unread(rt, name, why),
            };
            answer_from(rt, threads, alloc, request, &mut file, sink, parts, shelf)
        }
    }
}

/// Where the request's log is read from.
pub(crate) fn input_of<'a>(request: &Request<'a>) -> Input<'a>
    ensures { result ≡ input_of request.now }
{
    match request {
        Request::Check(_, input)
        | Request::Explain(_, input)
        | Request::ExplainAll(_, input)
        | Request::Why(_, input)
        | Request::Patch(_, input)
        | Request::Locate(_, input)
        | Request::Lint(_, input) => *input,
        Request::Cut(_) | Request::Join(_) | Request::Sim(_) => Input::Standard,
    }
}

// Does the same, its log read from the source wherever it is.
fn answer_from<
    R: Eprint,
    T: Threads + Wait + Sync,
    S: Source,
    W: Sink + Outlet,
    P: Outlet,
    F: Shelf,
>(
    rt: &R,
    threads: &T,
    alloc: Global,
    request: &Request,
    source: &mut S,
    sink: &mut W,
    parts: &mut P,
    shelf: &F,
) -> Ended
    requires read { CanCountOneMore (S.failed_calls source.old) }
    requires write { CanCountOneMore (W.failed_calls sink.old) }
    requires files { CanCountOneMore (P.failed_calls parts.old) }
    ensures { IsAnsweredFrom request.now (record {
      left = S.left source.old;
      rest = S.left source.new;
      held = W.held sink.old;
      holds = W.held sink.new;
      held_in = W.held_in sink.old;
      holds_in = W.held_in sink.new;
      parts_held = P.held_in parts.old;
      parts_hold = P.held_in parts.new;
      files = F.bytes shelf.now;
    }) result }
{
    match request {
        Request::Check(settings, _) => check_to(rt, threads, alloc, source, sink, *settings),
        Request::Explain(question, _) => answer_to(rt, alloc, source, sink, question),
        Request::ExplainAll(whole, _) => recite_to(rt, alloc, source, sink, whole),
        Request::Why(reasons, _) => {
            let why = Why { asked: *reasons };
            recite_to(rt, alloc, source, sink, &why)
        }
        Request::Patch(patches, _) => {
            let patch = Patch { asked: *patches };
            answer_to(rt, alloc, source, sink, &patch)
        }
        Request::Locate(sought, _) => answer_to(rt, alloc, source, sink, sought),
        Request::Lint(overview, _) => {
            let survey = Survey { asked: *overview };
            answer_to(rt, alloc, source, sink, &survey)
        }
        Request::Cut(cuts) => {
            if let Some(why) = refusal_of(*cuts) {
                return refused(rt, why);
            }
            match cuts.files {
                Some(_) => cut_to(rt, alloc, source, parts, cuts.lengths, Some(cuts.bytes)),
                None => cut_to(rt, alloc, source, sink, cuts.lengths, None),
            }
        }
        Request::Join(files) => join_files(rt, threads, alloc, files, sink, shelf),
        Request::Sim(simulation) => simulate(rt, alloc, simulation, source, sink, shelf),
    }
}

// Why a log may not be cut so.
fn refusal_of(cuts: Cuts) -> Option<&'static str>
    ensures { is_none result ≡ can_cut cuts.entry }
{
    let events = cuts.lengths.events as usize;
    if events == 0 || EVENT_LIMIT < events || cuts.lengths.step == 0 {
        return Some("error: a piece has 1 to 1048576 events, and a step is at least 1\n");
    }
    if cuts.bytes < 1024 || cuts.bytes > LOG_LIMIT as u64 {
        return Some("error: a file has 1024 to 268435456 bytes\n");
    }
    None
}

// Joins the ledgers of the files, those that a list names among them.
fn join_files<R: Eprint, T: Threads + Sync, W: Sink, F: Shelf>(
    rt: &R,
    threads: &T,
    alloc: Global,
    files: &Files,
    sink: &mut W,
    shelf: &F,
) -> Ended
    requires { CanCountOneMore (W.failed_calls sink.old) }
    ensures { JoinsFiles files.now (F.bytes shelf.now) (W.held sink.old) (W.held sink.new) result }
{
    let list = match list_of(rt, alloc, files.list, shelf) {
        Ok(list) => list,
        Err(ended) => return ended,
    };
    if list.len() > LEDGER_LIMIT {
        return refused(
            rt,
            "error: the list of ledgers has more than 2147483648 bytes\n",
        );
    }
    match all_names(alloc, &files.names, &list) {
        Ok(Some(names)) => {
            let form = form_of(files.wanted);
            join_named(rt, threads, alloc, &names, sink, files, form, shelf)
        }
        Ok(None) => refused(rt, "error: a name in the list of ledgers is not UTF-8\n"),
        Err(_) => exhausted(rt),
    }
}

// In which form the ledger of all is written.
fn form_of(wanted: Wanted) -> Form
    ensures { result ≡ form_of wanted }
{
    match wanted {
        Wanted::Report => Form::Report,
        Wanted::Summary => Form::Summary,
        Wanted::Ledger => Form::Ledger,
    }
}

// The file of the list with this name: `-` is standard input.
fn list_file(name: &str) -> &str
    ensures { result.now ≡ list_file name.now }
{
    if name == "-" { "/dev/stdin" } else { name }
}

// What the list says that names ledgers, or how the program ends without it.
fn list_of<R: Eprint, F: Shelf>(
    rt: &R,
    alloc: Global,
    list: Option<&str>,
    shelf: &F,
) -> Result<Vec<u8>, Ended>
    ensures read { IfOk result (λ bytes. IsListOf list.entry (F.bytes shelf.now) bytes.items) }
    ensures unread { IfErr result IsUnread }
{
    let Some(name) = list else {
        return Ok(Vec::new(alloc));
    };
    let name = list_file(name);
    match bytes_of(shelf, alloc, name, LEDGER_LIMIT) {
        Ok(bytes) => Ok(bytes),
        Err(why) => Err(unread(rt, name, why)),
    }
}

// Joins the ledgers of the files with these names in the way that is asked for.
fn join_named<R: Eprint, T: Threads + Sync, W: Sink, F: Shelf>(
    rt: &R,
    threads: &T,
    alloc: Global,
    names: &[&str],
    sink: &mut W,
    files: &Files,
    form: Form,
    shelf: &F,
) -> Ended
    requires { CanCountOneMore (W.failed_calls sink.old) }
    ensures { JoinsNamed files.now.joining form (map (λ name. name.now) names.now) (F.bytes shelf.now) (W.held sink.old) (W.held sink.new) result }
{
    if names.is_empty() {
        return refused(rt, "error: no ledger is named\n");
    }
    match files.joining {
        Joining::Load => load_named(rt, alloc, names, sink, form, shelf),
        Joining::Merge => {
            let workers = files.workers as usize;
            merge_named(rt, threads, alloc, workers, names, sink, form, shelf)
        }
        Joining::Trust => trust_named(rt, alloc, names, sink, shelf),
    }
}

// Reads the files with these names whole, and joins their ledgers.
fn load_named<R: Eprint, W: Sink, F: Shelf>(
    rt: &R,
    alloc: Global,
    names: &[&str],
    sink: &mut W,
    form: Form,
    shelf: &F,
) -> Ended
    requires { CanCountOneMore (W.failed_calls sink.old) }
    ensures { IsUnread result ⊎ JoinsRead form (map (λ name. name.now) names.now) (F.bytes shelf.now) (W.held sink.old) (W.held sink.new) result }
{
    let texts = match texts_of(rt, alloc, names, shelf) {
        Ok(texts) => texts,
        Err(ended) => return ended,
    };
    join_all(rt, alloc, names, &texts, sink, form)
}

// Merges, as they stand, the ledgers of the files with these names. All of them are open meanwhile.
fn trust_named<R: Eprint, W: Sink, F: Shelf>(
    rt: &R,
    alloc: Global,
    names: &[&str],
    sink: &mut W,
    shelf: &F,
) -> Ended
    requires { CanCountOneMore (W.failed_calls sink.old) }
    ensures { IsUnread result ⊎ TrustsOpened (map (λ name. name.now) names.now) (F.bytes shelf.now) (W.held sink.old) (W.held sink.new) result }
{
    let mut sources = match opened(rt, alloc, names, shelf) {
        Ok(sources) => sources,
        Err(ended) => return ended,
    };
    trust_all(rt, alloc, names, &mut sources, sink)
}

// Merges the ledgers of the files with these names, which are all open meanwhile.
fn merge_named<R: Eprint, T: Threads + Sync, W: Sink, F: Shelf>(
    rt: &R,
    threads: &T,
    alloc: Global,
    workers: usize,
    names: &[&str],
    sink: &mut W,
    form: Form,
    shelf: &F,
) -> Ended
    requires { CanCountOneMore (W.failed_calls sink.old) }
    ensures { IsUnread result ⊎ MergesOpened form (map (λ name. name.now) names.now) (F.bytes shelf.now) (W.held sink.old) (W.held sink.new) result }
{
    let mut sources = match opened(rt, alloc, names, shelf) {
        Ok(sources) => sources,
        Err(ended) => return ended,
    };
    merge_all(rt, threads, alloc, workers, names, &mut sources, sink, form)
}

// Opens the files with these names, or says how the program ends without them.
fn opened<R: Eprint, F: Shelf>(
    rt: &R,
    alloc: Global,
    names: &[&str],
    shelf: &F,
) -> Result<Vec<F::File>, Ended>
    ensures opened { IfOk result (λ sources. AreOpened (F.bytes shelf.now) (map (λ name. name.now) names.now) (map F.File.left sources.items)) }
    ensures fresh { IfOk result (λ sources. All (λ s. CanCountOneMore (F.File.failed_calls s)) sources.items) }
    ensures unopened { IfErr result IsUnread }
{
    let mut sources = Vec::new(alloc);
    for name in names {
        let source = match shelf.open(*name) {
            Ok(source) => source,
            Err(why) => {
                let ended = unread(rt, *name, why);
                print_limit(rt, why);
                return Err(ended);
            }
        };
        match sources.push(source) {
            Ok(()) => {}
            Err(_) => return Err(exhausted(rt)),
        }
    }
    Ok(sources)
}

// The texts of the files with these names, or how the program ends without them.
fn texts_of<R: Eprint, F: Shelf>(
    rt: &R,
    alloc: Global,
    names: &[&str],
    shelf: &F,
) -> Result<Vec<Vec<u8>>, Ended>
    ensures read { IfOk result (λ texts. AreRead LEDGER_LIMIT (F.bytes shelf.now) (map (λ name. name.now) names.now) (map (λ text. text.items) texts.items)) }
    ensures unread { IfErr result IsUnread }
{
    let mut texts = Vec::new(alloc);
    for name in names {
        let text = match bytes_of(shelf, alloc, *name, LEDGER_LIMIT) {
            Ok(text) => text,
            Err(why) => return Err(unread(rt, *name, why)),
        };
        match texts.push(text) {
            Ok(()) => {}
            Err(_) => return Err(exhausted(rt)),
        }
    }
    Ok(texts)
}

// Plays the schedule of the source with the sections of the log in the file, which is read first.
fn simulate<R: Eprint, S: Source, W: Sink, F: Shelf>(
    rt: &R,
    alloc: Global,
    simulation: &Simulation,
    source: &mut S,
    sink: &mut W,
    shelf: &F,
) -> Ended
    requires read { CanCountOneMore (S.failed_calls source.old) }
    requires write { CanCountOneMore (W.failed_calls sink.old) }
    ensures { Simulates simulation.now (F.bytes shelf.now) (S.left source.old) (S.left source.new) (W.held sink.old) (W.held sink.new) result }
{
    let log = match bytes_of(shelf, alloc, simulation.log, LOG_LIMIT) {
        Ok(log) => log,
        Err(why) => return unread(rt, simulation.log, why),
    };
    let schedule = match read_all(alloc, source, SCHEDULE_LIMIT) {
        Ok(schedule) => schedule,
        Err(fault) => return unanswered::<_, SimFault>(
            rt,
            fault,
            &Excerpt::none(),
            source.reason(),
        ),
    };
    play_to(
        rt,
        alloc,
        &log,
        &schedule,
        simulation.workers,
        simulation.ledgers,
        sink,
    )
}
