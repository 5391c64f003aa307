//! From a stream of bytes to its report, or its ledger text.

ghost use Rattle.std.specs.Prelude.{◌≡◌, ◌≢◌, ◌<◌, ◌≤◌, ◌++◌, ◌+◌, ℕ, List, [], length, true, Ok, Option, None, IfOk, IfErr, IfSome, MatchOption, MatchResult};
ghost use Rattle.pmf_storelog.specs.{declared.fault.TheConstants.{LOG_LIMIT}, LogText.{log_of, out_of_memory, shown_fault}, Reader.{HasRead}};
ghost use Rattle.pmf_farm.specs.Running.{IsTaken};
ghost use Rattle.pmf_ledger.specs.{declared.loading.TheConstants.{LEDGER_LIMIT}, Gathered.{IsLedgerOf}, LedgerText.{text_of_ledger}, Loading.{LoadsAs}, Report.{totals_of}};
ghost use Rattle.pmf_device.specs.Failures.{CanCountOneMore};
ghost use Rattle.pmf_stream.specs.{Answering.{Answers, RefusesReading, TellsFaults, failed_reads}, Checking.{AreWarnings, HasKept, IsCheckFaultOf, IsLogOf, IsReportOf, IsTooLong, IsWrittenOf, Reports, form_of}, Reading.{ReadsWithin}};

use crate::ahead::{most_in_piece, read_ahead};
use crate::beside::Beside;
use crate::excerpt::Excerpt;
use crate::fault::StreamFault;
use crate::reading::{Intake, read_into};
use crate::writing::write_answer;
use pmf_device::{Failed, Sink, Source};
use pmf_event::Profile;
use pmf_farm::{FarmFault, Gate, run};
use pmf_ledger::{Form, LEDGER_LIMIT, Ledger, Totals};
use pmf_lint::{Warnings, warnings_due};
use pmf_request::Settings;
use pmf_storelog::{LOG_LIMIT, Log, LogFault, LogReader};
use pmf_verdict::Verdict;
use std::alloc::{AllocError, Global};
use std::error::Error;
use std::sync::Wait;
use std::thread::Threads;
use std::{fmt, mem};

/// What [`check_stream`] tells of a log that it has reported.
#[derive(Clone, Copy, Debug, PartialEq, Eq)]
pub struct Done {
    /// How many records were skipped.
    pub skipped: u64,
    /// How many rows of the report count as pass.
    pub passes: u128,
    /// How many count as fail.
    pub fails: u128,
    /// Which warnings `lint` has of the log, where they are asked for.
    pub warnings: Option<Warnings>,
}

/// Why a log was not checked: it is faulty, or else its sections were not taken by the workers, or else its ledger is too long.
#[derive(Clone, Copy, Debug, PartialEq, Eq)]
pub enum CheckLogFault {
    /// What was read is no log, by its first fault.
    Log(LogFault),
    /// The log was read without a fault, and there are no workers for it, too many, or no memory.
    Farm(FarmFault),
    /// The log was checked, and its ledger text, which is asked for, has more than [`LEDGER_LIMIT`] bytes.
    TooLong,
}

impl fmt::Display for CheckLogFault {
    ghost use Rattle.std.specs.Prelude.{Some};
    ghost use Rattle.pmf_stream.specs.FaultText.{text_of_check};

    ghost output = { λ fault. Some (text_of_check fault) };

    fn fmt<W: fmt::Write>(&self, f: &mut fmt::Formatter<W>) -> fmt::Result {
        match self {
            CheckLogFault::Log(fault) => write!(f, "{fault}"),
            CheckLogFault::Farm(fault) => write!(f, "{fault}"),
            CheckLogFault::TooLong => f.write_str("ledger is too long"),
        }
    }
}

impl Error for CheckLogFault {}

// A log's reader with the workers that read parts of a piece for it, the record for which it refuses a piece, and the bytes that it has
// taken, where these are kept.
#[derive(Drop)]
struct Watched<'a, T: Threads + Sync> {
    rt: &'a T,
    alloc: Global,
    workers: u32,
    /// How many pieces more are read plainly.
    plain: u32,
    log: LogReader,
    excerpt: Excerpt,
    keeps: bool,
    kept: Vec<u8>,
    profile: Profile,
    beside: Beside,
}

impl<'a, T: Threads + Sync> Intake for Watched<'a, T> {
    type Fault = LogFault;

    ghost use Rattle.std.proofs.{Common.{append_assoc, refl, sym, ap, subst, ◌∙◌}, lemmas.List.{append-nil}};
    ghost use Rattle.pmf_stream.specs.{Beside.{GoesOnBeside, IsBeside}, Pieces.{Keeps, Refuses, StandsFor, Takes}};
    ghost use denote.Param.Send.{IsSync};

    ghost Takes = { λ a xs b. Takes a.log xs b.log × Keeps a.keeps b.keeps a.kept.items xs b.kept.items
        × GoesOnBeside a.profile b.profile a.log a.beside xs b.beside };

    ghost Refuses = { λ a xs fault. Refuses a.log xs fault };

    ghost Ready = { IsSync T.row };

    ghost takes_none = { λ a. (
      λ run bytes stands. subst (λ xs. StandsFor run xs a.log) (sym (append-nil bytes)) stands,
      record { same = refl; all = λ is. sym (append-nil a.kept.items) },
      record { same = refl; goes = λ run bytes stands is. subst (λ xs. IsBeside a.profile xs a.beside) (sym (append-nil bytes)) is },
    ) };

    ghost takes_more = { λ a b c xs ys first then. (
      λ run bytes stands. subst (λ zs. StandsFor run zs c.log) (append_assoc bytes xs ys) (then.0 run (bytes ++ xs) (first.0 run bytes stands)),
      record {
        same = then.1.same ∙ first.1.same;
        all = λ is. then.1.all (first.1.same ∙ is) ∙ ap (λ zs. zs ++ ys) (first.1.all is) ∙ append_assoc a.kept.items xs ys;
      },
      record {
        same = then.2.same ∙ first.2.same;
        goes = λ run bytes stands is. subst (λ zs. IsBeside a.profile zs c.beside) (append_assoc bytes xs ys)
            (subst (λ q. IsBeside q ((bytes ++ xs) ++ ys) c.beside) first.2.same (then.2.goes run (bytes ++ xs) (first.0 run bytes stands)
            (subst (λ q. IsBeside q (bytes ++ xs) b.beside) (sym first.2.same) (first.2.goes run bytes stands is))));
      },
    ) };

    fn take(&mut self, piece: &[u8]) -> Result<(), LogFault> {
        let before = mem::replace(&mut self.beside, Beside::Over);
        let (ahead, beside) = read_ahead(
            self.rt,
            self.alloc,
            self.workers,
            &mut self.plain,
            piece,
            before,
            self.profile,
            self.log.only_section(),
        );
        self.beside = beside;
        match self.log.feed_ahead(piece, ahead) {
            Ok(()) => {
                self.excerpt.pass(piece);
                if self.keeps {
                    self.kept.extend_from_slice(piece)?;
                }
                Ok(())
            }
            Err(fault) => {
                self.excerpt.find(piece);
                Err(fault)
            }
        }
    }
}

/// Reads the log to the end of the stream, or to its first fault; its bytes, too, where the settings are strict.
fn read_log<T: Threads + Sync, R: Source>(
    rt: &T,
    alloc: Global,
    reader: &mut R,
    settings: Settings,
    refused: &mut Excerpt,
) -> Result<(Log, Vec<u8>, Option<Verdict>), StreamFault<CheckLogFault>>
    requires { CanCountOneMore (R.failed_calls reader.old) }
    ensures ok { IfOk result (λ read. HasKept settings.strict read.1.items (IsLogOf settings.run (R.left reader.old) (R.left reader.new) read.0) (λ log. log.bytes)) }
    ensures faults { IfErr result
        (RefusesReading (IsCheckFaultOf settings (R.left reader.old) (R.left reader.new))) }
    ensures reads { R.failed_calls reader.new ≡ R.failed_calls reader.old + failed_reads result }
    ensures within { ReadsWithin LOG_LIMIT (R.left reader.old) (R.left reader.new) }
{
    let workers = settings.workers;
    let most = most_in_piece(workers);
    let mut piece = vec![in alloc; 0u8; most]?;
    let mut watched = Watched {
        rt,
        alloc,
        workers,
        plain: 0,
        log: LogReader::new(alloc, settings.run),
        excerpt: Excerpt::none(),
        keeps: settings.strict,
        kept: Vec::new(alloc),
        profile: settings.profile,
        beside: Beside::Waiting,
    };
    match read_into(reader, &mut piece, &mut watched, LOG_LIMIT) {
        Ok(Ok(())) => {}
        Ok(Err(fault)) => {
            let Watched { excerpt, .. } = watched;
            *refused = excerpt;
            return Err(StreamFault::Refused(CheckLogFault::Log(fault)));
        }
        Err(Failed) => return Err(StreamFault::ReadFault),
    }
    let Watched {
        log,
        excerpt,
        kept,
        beside,
        ..
    } = watched;
    *refused = excerpt;
    match log.finish() {
        Ok(log) => {
            let known = beside.finish(log.sections());
            Ok((log, kept, known))
        }
        Err(fault) => Err(StreamFault::Refused(CheckLogFault::Log(fault))),
    }
}

/// The text of the ledger in the form that is asked for, and how many of its rows count as what; or none where it is a ledger text that is
/// too long to be loaded.
pub(crate) fn write_asked(
    alloc: Global,
    ledger: &Ledger,
    form: Form,
) -> Result<Option<(Vec<u8>, Totals)>, AllocError>
    ensures written { IfOk result (λ asked. MatchOption asked (IsTooLong form ledger.now)
        (λ made. IsWrittenOf form ledger.now made.0.items)) }
    ensures totals { IfOk result (λ asked. IfSome asked (λ made. made.1 ≡ totals_of ledger.now.sections)) }
{
    match form {
        Form::Report => {
            let made = ledger.report(alloc)?;
            Ok(Some(made))
        }
        Form::Summary => {
            let made = ledger.summary(alloc)?;
            Ok(Some(made))
        }
        Form::Ledger => {
            let Some(text) = text_within(alloc, ledger, LEDGER_LIMIT)? else {
                return Ok(None);
            };
            Ok(Some((text, ledger.totals())))
        }
    }
}

/// In which form a checked log's ledger is written.
fn form_of(as_ledger: bool) -> Form
    ensures { result ≡ form_of as_ledger }
{
    if as_ledger {
        Form::Ledger
    } else {
        Form::Report
    }
}

/// The text of the ledger, or none where it has more bytes than the limit.
pub(crate) fn text_within(
    alloc: Global,
    ledger: &Ledger,
    limit: usize,
) -> Result<Option<Vec<u8>>, AllocError>
    requires { limit ≤ LEDGER_LIMIT }
    ensures text { IfOk result (λ asked. IfSome asked (λ text. text.items ≡ text_of_ledger ledger.now)) }
    ensures within { IfOk result (λ asked. MatchOption asked (limit < length (text_of_ledger ledger.now))
        (λ text. length text.items ≤ limit)) }
    ensures loads { IfOk result (λ asked. IfSome asked (λ text. LoadsAs text.items ledger.now)) }
{
    let text = ledger.write_ledger(alloc)?;
    if text.len() > limit {
        return Ok(None);
    }
    Ok(Some(text))
}

/// Which warnings `lint` has of these bytes, where they are asked for, by what was read of them.
fn look(
    alloc: Global,
    bytes: &[u8],
    log: &Log,
    strict: bool,
) -> Result<Option<Warnings>, AllocError>
    requires { strict ≡ true → (run : ℕ) × (log_of run bytes.now ≡ Ok log.now) }
    ensures { IfOk result (AreWarnings strict bytes.now) }
{
    if !strict {
        return Ok(None);
    }
    let warnings = warnings_due(alloc, bytes, log)?;
    Ok(Some(warnings))
}

/// What is written of the log's ledger by the settings, and what is told of it; or none where it is too long to be loaded.
fn report_log(
    alloc: Global,
    log: &Log,
    ledger: &Ledger,
    settings: Settings,
    warnings: Option<Warnings>,
) -> Result<Option<(Vec<u8>, Done)>, AllocError>
    requires ledger { IsLedgerOf settings.profile log.now.sections ledger.now }
    requires taken { IsTaken settings.workers log.now.sections }
    ensures reports { IfOk result (λ asked. MatchOption asked (IsTooLong (form_of settings.ledger) ledger.now)
        (λ made. Reports settings log.now made.1 made.0.items)) }
    ensures warnings { IfOk result (λ asked. IfSome asked (λ made. made.1.warnings ≡ warnings)) }
{
    let Some((text, totals)) = write_asked(alloc, ledger, form_of(settings.ledger))? else {
        return Ok(None);
    };
    let done = Done {
        skipped: log.skipped(),
        passes: totals.pass,
        fails: totals.fail,
        warnings,
    };
    Ok(Some((text, done)))
}

/// Reads a log, checks its sections by the profile, by so many workers on threads of their own, and writes their report,
/// or their ledger text. Reads in pieces, at most one byte more than a log may have, and stops at the first fault of the
/// log; writes nothing before the whole log was read and checked, and no ledger text that is too long to be loaded. Keeps the record
/// for which it refuses the log.
///
/// What is written doesn't depend on the number of workers, on the gate, or on which workers were lost.
///
/// Refusals: [`StreamFault::ReadFault`] and [`CheckLogFault::Log`] as the reading goes, then [`CheckLogFault::Farm`],
/// then [`StreamFault::OutOfMemory`] (also as a cause of the two before) and [`CheckLogFault::TooLong`], then
/// [`StreamFault::WriteFault`]. Takes memory
/// for the events, the verdicts and the report, and for no other byte of the log; where the settings are strict for each of its bytes, and
/// for what [`warnings_due`] takes.
pub fn check_stream<H: Threads + Wait + Sync, R: Source, W: Sink, G: Gate + Sync>(
    rt: &H,
    alloc: Global,
    reader: &mut R,
    writer: &mut W,
    settings: Settings,
    gate: &G,
    refused: &mut Excerpt,
) -> Result<Done, StreamFault<CheckLogFault>>
    requires read { CanCountOneMore (R.failed_calls reader.old) }
    requires write { CanCountOneMore (W.failed_calls writer.old) }
    // The whole stream was a log without a fault, and exactly the text of its sections was written; or it
    // was refused with the first fault of what was read, and of every log that begins so; or the farm refused the
    // sections of the whole log; or its ledger text was asked for, and is too long.
    ensures answer { Answers (IsReportOf settings (R.left reader.old) (R.left reader.new))
        (IsCheckFaultOf settings (R.left reader.old) (R.left reader.new))
        (W.held writer.old) (W.held writer.new) result }
    ensures faults { TellsFaults (R.failed_calls reader.old) (R.failed_calls reader.new)
        (W.failed_calls writer.old) (W.failed_calls writer.new) writer.old writer.new result }
    // Whatever the answer is, at most one byte more than a log may have was read.
    ensures within { ReadsWithin LOG_LIMIT (R.left reader.old) (R.left reader.new) }
{
    let (log, kept, known) = match read_log(rt, alloc, reader, settings, refused) {
        Ok(read) => read,
        Err(fault) => return Err(fault),
    };
    let ledger = match run(
        rt,
        alloc,
        log.sections(),
        known,
        settings.workers,
        settings.profile,
        gate,
    ) {
        Ok(ledger) => ledger,
        Err(fault) => return Err(StreamFault::Refused(CheckLogFault::Farm(fault))),
    };
    let warnings = look(alloc, &kept, &log, settings.strict)?;
    let Some((text, done)) = report_log(alloc, &log, &ledger, settings, warnings)? else {
        return Err(StreamFault::Refused(CheckLogFault::TooLong));
    };
    write_answer(writer, &text, done)
}
