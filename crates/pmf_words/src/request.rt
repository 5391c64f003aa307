//! What the words of the command line ask for.

ghost use Rattle.std.specs.{Prelude.{◌≡◌, List, false, true, Some, codes, map, option_map, IfOk, IfSome, MatchResult, bytes_eq, string_bytes, if◌then◌else◌}, List.{list_any}};
ghost use Rattle.clap.specs.Words.{HasKind, Row, Text, found_of, kind_of, rows_of, subcommand_rows_of};
ghost use Rattle.pmf_event.specs.declared.profile.Profile.{Profile};
ghost use Rattle.pmf_words.specs.Words.{IsCheckOf, IsCutOf, IsExplainAllOf, IsExplainBy, IsExplainOf, IsFirstOf, IsInputOf, IsJoinOf, IsLintOf, IsLocateOf, IsMaybeSectionOf, IsPatchOf, IsRefusedWith, IsRequestBy, IsRequestOf, IsSectionOf, IsSimOf, IsWantedOf, IsJoiningOf, IsWhyBy, IsWhyOf, NamesSection, own_kinds};

use crate::commands::program;
use clap::error::ErrorKind;
use clap::{ArgMatches, Error};
use pmf_event::Profile;
use pmf_request::{
    Cuts, Files, Input, Joining, Lengths, Overview, Patches, Question, Reasons, Request, Settings,
    Simulation, Sought, Wanted, Whole,
};
use std::alloc::{AllocError, Global};

/// Reads the words, the first of which is the program's name. Help and the version come as errors
/// of their own kind, and so do want of memory and a word that names no section.
pub fn request_of<'a>(alloc: Global, words: &'a [String]) -> Result<Request<'a>, Error>
    ensures { MatchResult result (IsRequestOf (map string_bytes words.entry.now))
        (λ error. IsRefusedWith (map string_bytes words.entry.now) (kind_of error)) }
{
    let all = has_word(words, "--all");
    let patch = has_word(words, "--patch");
    let matches = program(alloc, all, patch)?.try_get_matches_from(words)?;
    let request = request_by(alloc, &matches, all, patch)?;
    Ok(request)
}

// Whether one of the words is this one.
fn has_word(words: &[String], named: &str) -> bool
    ensures { result ≡ list_any (λ word. bytes_eq (string_bytes word) named.now) words.now }
{
    for word in words {
        if word.as_str() == named {
            return true;
        }
    }
    false
}

// What the command that was found and its words ask for.
fn request_by<'a>(
    alloc: Global,
    matches: &ArgMatches<'a>,
    all: bool,
    patch: bool,
) -> Result<Request<'a>, Error>
    ensures { MatchResult result (λ request. (command : Text) (rows : List Row)
        → subcommand_rows_of matches.now ≡ Some (command, rows) → IsRequestBy all patch command rows request)
        (HasKind own_kinds) }
{
    // There are eight commands, and the parser lets nothing pass without one.
    if let Some(explain) = matches.subcommand_matches("explain") {
        return explain_by(alloc, explain, all);
    }
    if let Some(why) = matches.subcommand_matches("why") {
        return why_by(alloc, why, patch);
    }
    if let Some(locate) = matches.subcommand_matches("locate") {
        let sought = sought_of(alloc, locate)?;
        return Ok(Request::Locate(sought, input_of(locate)));
    }
    if let Some(lint) = matches.subcommand_matches("lint") {
        return Ok(Request::Lint(overview_of(lint), input_of(lint)));
    }
    if let Some(cut) = matches.subcommand_matches("cut") {
        return Ok(Request::Cut(cuts_of(cut)));
    }
    if let Some(join) = matches.subcommand_matches("join") {
        let files = files_of(alloc, join)?;
        return Ok(Request::Join(files));
    }
    if let Some(sim) = matches.subcommand_matches("sim") {
        return Ok(Request::Sim(simulation_of(sim)));
    }
    if let Some(check) = matches.subcommand_matches("check") {
        return Ok(Request::Check(settings_of(check), input_of(check)));
    }
    let settings = Settings {
        workers: 1,
        run: 0,
        profile: Profile::One,
        ledger: false,
        strict: false,
    };
    Ok(Request::Check(settings, Input::Standard))
}

// Where the log is read from.
fn input_of<'a>(matches: &ArgMatches<'a>) -> Input<'a>
    ensures { IsInputOf (rows_of (found_of matches.now)) result }
{
    match matches.get_str("log") {
        Some(name) => Input::File(name),
        None => Input::Standard,
    }
}

fn settings_of(check: &ArgMatches<'_>) -> Settings
    ensures { IsCheckOf (rows_of (found_of check.now)) result }
{
    Settings {
        workers: check.get_one::<u32>("workers").unwrap_or(1),
        run: check.get_one::<u64>("run").unwrap_or(0),
        profile: profile_of(check.get_str("profile")),
        ledger: check.get_flag("ledger"),
        strict: check.get_flag("strict"),
    }
}

// What the words of `explain` ask for, with `--all` or without it.
fn explain_by<'a>(alloc: Global, explain: &ArgMatches<'a>, all: bool) -> Result<Request<'a>, Error>
    ensures { MatchResult result (IsExplainBy all (rows_of (found_of explain.now))) (HasKind own_kinds) }
{
    let input = input_of(explain);
    if all {
        return Ok(Request::ExplainAll(whole_of(explain), input));
    }
    let question = question_of(alloc, explain)?;
    Ok(Request::Explain(question, input))
}

fn whole_of(explain: &ArgMatches<'_>) -> Whole
    ensures { IsExplainAllOf (rows_of (found_of explain.now)) result }
{
    Whole {
        run: explain.get_one::<u64>("run").unwrap_or(0),
        profile: profile_of(explain.get_str("profile")),
        first: explain.get_one::<u32>("first"),
    }
}

// What the words of `why` ask for, with `--patch` or without it.
fn why_by<'a>(alloc: Global, why: &ArgMatches<'a>, patch: bool) -> Result<Request<'a>, Error>
    ensures { MatchResult result (IsWhyBy patch (rows_of (found_of why.now))) (HasKind own_kinds) }
{
    let input = input_of(why);
    if patch {
        let patches = patches_of(alloc, why)?;
        return Ok(Request::Patch(patches, input));
    }
    let reasons = reasons_of(alloc, why)?;
    Ok(Request::Why(reasons, input))
}

fn patches_of(alloc: Global, why: &ArgMatches<'_>) -> Result<Patches, Error>
    ensures { MatchResult result (IsPatchOf (rows_of (found_of why.now))) (HasKind own_kinds) }
{
    let (run, only) = maybe_section_of(alloc, why)?;
    Ok(Patches {
        run,
        profile: profile_of(why.get_str("profile")),
        section: only,
    })
}

fn reasons_of(alloc: Global, why: &ArgMatches<'_>) -> Result<Reasons, Error>
    ensures { MatchResult result (IsWhyOf (rows_of (found_of why.now))) (HasKind own_kinds) }
{
    let (run, section) = maybe_section_of(alloc, why)?;
    let all = why.get_flag("all-rows");
    Ok(Reasons {
        run,
        profile: profile_of(why.get_str("profile")),
        section,
        event: why.get_one::<u32>("event"),
        first: first_of(why, all),
        all,
    })
}

// The most rows that are told, where each row is told or the first of each kind.
fn first_of(why: &ArgMatches<'_>, all: bool) -> u32
    ensures { IsFirstOf (rows_of (found_of why.now)) all result }
{
    why.get_one::<u32>("first").unwrap_or(most_of(all))
}

// The same, where the words name no number.
fn most_of(all: bool) -> u32
    ensures { result ≡ (if all then 4294967295 else 20) }
{
    if all { u32::MAX } else { 20 }
}

// The run, and the number of the section if the words name one.
fn maybe_section_of(alloc: Global, matches: &ArgMatches<'_>) -> Result<(u64, Option<u64>), Error>
    ensures { MatchResult result (λ named. IsMaybeSectionOf (rows_of (found_of matches.now)) named.0 named.1) (HasKind own_kinds) }
{
    match matches.get_str("section") {
        Some(_) => {
            let (run, section) = section_of(alloc, matches)?;
            Ok((run, Some(section)))
        }
        None => Ok((matches.get_one::<u64>("run").unwrap_or(0), None)),
    }
}

fn sought_of(alloc: Global, locate: &ArgMatches<'_>) -> Result<Sought, Error>
    ensures { MatchResult result (IsLocateOf (rows_of (found_of locate.now))) (HasKind own_kinds) }
{
    let (run, section) = section_of(alloc, locate)?;
    Ok(Sought {
        run,
        section,
        event: locate.get_one::<u32>("event").unwrap_or(0),
    })
}

fn question_of(alloc: Global, explain: &ArgMatches<'_>) -> Result<Question, Error>
    ensures { MatchResult result (IsExplainOf (rows_of (found_of explain.now))) (HasKind own_kinds) }
{
    let (run, section) = section_of(alloc, explain)?;
    Ok(Question {
        run,
        profile: profile_of(explain.get_str("profile")),
        section,
        event: explain.get_one::<u32>("event").unwrap_or(0),
    })
}

// The run and the number of the section that the words name.
fn section_of(alloc: Global, matches: &ArgMatches<'_>) -> Result<(u64, u64), Error>
    ensures { MatchResult result (λ named. IsSectionOf (rows_of (found_of matches.now)) named.0 named.1) (HasKind own_kinds) }
{
    let run = matches.get_one::<u64>("run").unwrap_or(0);
    let word = matches.get_str("section").unwrap_or("");
    match named_section(word, run) {
        Some(named) => Ok(named),
        None => Err(no_section(alloc, word)),
    }
}

// The section that the word names, behind its run: N is one of this run, R.N one of run R.
fn named_section(word: &str, run: u64) -> Option<(u64, u64)>
    ensures { IfSome result (λ named. NamesSection word.now run named.0 named.1) }
{
    match word.split_once('.') {
        Some((run, number)) => both_of(run.parse::<u64>().ok(), number.parse::<u64>().ok()),
        None => both_of(Some(run), word.parse::<u64>().ok()),
    }
}

// Both, where both are there.
fn both_of(run: Option<u64>, number: Option<u64>) -> Option<(u64, u64)>
    ensures { IfSome result (λ both. (run ≡ Some both.0) × (number ≡ Some both.1)) }
{
    match (run, number) {
        (Some(run), Some(number)) => Some((run, number)),
        _ => None,
    }
}

// The error of a word that names no section, in the form of the parser's own.
fn no_section(alloc: Global, word: &str) -> Error
    ensures { HasKind own_kinds result }
{
    match error_of(alloc, word) {
        Ok(error) => error,
        Err(refused) => Error::from(refused),
    }
}

fn error_of(alloc: Global, word: &str) -> Result<Error, AllocError>
    ensures { IfOk result (HasKind own_kinds) }
{
    let message = format!(in alloc;
        "invalid value '{word}' for '--section <N>': a section is named N, or R.N as in a report"
    )?;
    program(alloc, false, false)?.error(ErrorKind::ValueValidation, message.as_str())
}

fn overview_of(lint: &ArgMatches<'_>) -> Overview
    ensures { IsLintOf (rows_of (found_of lint.now)) result }
{
    Overview {
        unasserted: lint.get_flag("unasserted"),
    }
}

fn cuts_of<'a>(cut: &ArgMatches<'a>) -> Cuts<'a>
    ensures { IsCutOf (rows_of (found_of cut.now)) result }
{
    Cuts {
        lengths: Lengths {
            events: cut.get_one::<u32>("events").unwrap_or(1_000_000),
            step: cut.get_one::<u64>("step").unwrap_or(1_000_000_000),
        },
        files: cut.get_str("files"),
        bytes: cut.get_one::<u64>("bytes").unwrap_or(268_435_456),
    }
}

fn files_of<'a>(alloc: Global, join: &ArgMatches<'a>) -> Result<Files<'a>, Error>
    ensures { MatchResult result (IsJoinOf (rows_of (found_of join.now))) (HasKind own_kinds) }
{
    let wanted = wanted_of(alloc, join)?;
    let joining = joining_of(alloc, join)?;
    let mut names = Vec::new(alloc);
    names.extend_from_slice(join.get_strs("file").unwrap_or(&[]))?;
    Ok(Files {
        names,
        list: join.get_str("files-from"),
        joining,
        workers: join.get_one::<u32>("workers").unwrap_or(1),
        wanted,
    })
}

// What is to be written. Both flags together are refused.
fn wanted_of(alloc: Global, join: &ArgMatches<'_>) -> Result<Wanted, Error>
    ensures { MatchResult result (IsWantedOf (rows_of (found_of join.now))) (HasKind own_kinds) }
{
    let ledger = join.get_flag("ledger");
    let summary = join.get_flag("summary");
    if ledger {
        if summary {
            return Err(conflict(alloc, TWO_WANTED)?);
        }
        return Ok(Wanted::Ledger);
    }
    if summary {
        return Ok(Wanted::Summary);
    }
    Ok(Wanted::Report)
}

// How they are joined. Trust is for a merge that writes a ledger, and workers are for a merge.
fn joining_of(alloc: Global, join: &ArgMatches<'_>) -> Result<Joining, Error>
    ensures { MatchResult result (IsJoiningOf (rows_of (found_of join.now))) (HasKind own_kinds) }
{
    let stream = join.get_flag("stream");
    let summary = join.get_flag("summary");
    let trust = join.get_flag("trust");
    if trust {
        if !stream || summary {
            return Err(conflict(alloc, NO_TRUST)?);
        }
        return Ok(Joining::Trust);
    }
    if stream {
        return Ok(Joining::Merge);
    }
    match join.get_one::<u32>("workers") {
        Some(_) => Err(conflict(alloc, NO_WORKERS)?),
        None => Ok(Joining::Load),
    }
}

const TWO_WANTED: &str = "the argument '--ledger' cannot be used with '--summary'";

const NO_TRUST: &str =
    "the argument '--trust' needs '--stream', and cannot be used with '--summary'";

const NO_WORKERS: &str = "the argument '--workers' needs '--stream'";

// The error of words that do not go together, in the form of the parser's own.
fn conflict(alloc: Global, message: &str) -> Result<Error, AllocError>
    ensures { IfOk result (HasKind own_kinds) }
{
    program(alloc, false, false)?.error(ErrorKind::ArgumentConflict, message)
}

fn simulation_of<'a>(sim: &ArgMatches<'a>) -> Simulation<'a>
    ensures { IsSimOf (rows_of (found_of sim.now)) result }
{
    Simulation {
        log: sim.get_str("log").unwrap_or(""),
        workers: sim.get_one::<u32>("workers").unwrap_or(0),
        ledgers: sim.get_one::<u32>("ledgers").unwrap_or(0),
    }
}

// The parser lets `1` and `2` pass alone.
fn profile_of(word: Option<&str>) -> Profile
    ensures one { option_map (λ w. w.now) word.entry ≡ Some (codes "1") → result ≡ Profile.One }
    ensures two { option_map (λ w. w.now) word.entry ≡ Some (codes "2") → result ≡ Profile.Two }
{
    match word {
        Some("2") => Profile::Two,
        _ => Profile::One,
    }
}
