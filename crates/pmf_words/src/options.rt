//! The options of the commands.

ghost use Rattle.std.specs.Prelude.{◌≡◌, false, Some, codes};
ghost use Rattle.clap.specs.{Words.{rule_of}, declared.builder.value_parser.ValueParser.{ValueParser}};
ghost use Rattle.pmf_words.specs.Words.{asked, asked_number, file_words, flag, large_number, log_word, maybe_number, number, option, profile_option, row_count, run_option, small_count, small_number, thread_count};

use clap::builder::ValueParser;
use clap::{Arg, ArgAction, value_parser};
use std::alloc::Global;

// An option with one value.
fn option<'a>(alloc: Global, name: &'a str, value: &'a str, help: &'a str) -> Arg<'a>
    ensures rule { rule_of result ≡ option name.entry.now }
    ensures local { result.global ≡ false }
{
    Arg::new(alloc, name)
        .long(name)
        .value_name(value)
        .help(help)
}

// The same, whose value this parser reads.
fn parsed<'a>(
    alloc: Global,
    name: &'a str,
    value: &'a str,
    help: &'a str,
    parser: ValueParser<'a>,
) -> Arg<'a>
    ensures rule { rule_of result ≡ maybe_number name.entry.now parser.entry }
    ensures local { result.global ≡ false }
{
    option(alloc, name, value, help).value_parser(parser)
}

// The same, with a number below 2^32, which has to be given.
pub(crate) fn asked_number<'a>(
    alloc: Global,
    name: &'a str,
    value: &'a str,
    help: &'a str,
) -> Arg<'a>
    ensures rule { rule_of result ≡ asked_number name.entry.now small_number }
    ensures local { result.global ≡ false }
{
    parsed(alloc, name, value, help, value_parser!(u32)).required(true)
}

pub(crate) fn workers<'a>(alloc: Global) -> Arg<'a>
    ensures rule { rule_of result ≡ number (codes "workers") small_number (codes "1") }
    ensures local { result.global ≡ false }
{
    let help = "How many threads check the sections, 1 to 64";
    parsed(alloc, "workers", "N", help, value_parser!(u32)).default_value("1")
}

// The run and the profile, which `check`, `explain` and `why` take.
pub(crate) fn run<'a>(alloc: Global) -> Arg<'a>
    ensures rule { rule_of result ≡ run_option }
    ensures local { result.global ≡ false }
{
    let help = "The run in the name of each section";
    parsed(alloc, "run", "R", help, value_parser!(u64)).default_value("0")
}

pub(crate) fn profile<'a>(alloc: Global) -> Arg<'a>
    ensures rule { (q : ValueParser) × (rule_of result ≡ profile_option q) }
    ensures local { result.global ≡ false }
{
    option(
        alloc,
        "profile",
        "P",
        "The rule for two bytes of one cache line",
    )
    .value_parser(["1", "2"].as_slice())
    .default_value("1")
}

// The section of an event, which has to be given.
pub(crate) fn section<'a>(alloc: Global) -> Arg<'a>
    ensures rule { rule_of result ≡ asked (codes "section") }
    ensures local { result.global ≡ false }
{
    let help = "The number of the section, or R.N, as a report names section N of run R";
    option(alloc, "section", "N", help).required(true)
}

// The place of an event, which has to be given.
pub(crate) fn event<'a>(alloc: Global) -> Arg<'a>
    ensures rule { rule_of result ≡ asked_number (codes "event") small_number }
    ensures local { result.global ≡ false }
{
    let help = "The place of the event in its section, counted from 1";
    asked_number(alloc, "event", "K", help)
}

// The section and the event that `why` is asked for alone, if any are.
pub(crate) fn only_section<'a>(alloc: Global) -> Arg<'a>
    ensures rule { rule_of result ≡ option (codes "section") }
    ensures local { result.global ≡ false }
{
    let help = "The only section that is told of, or cured: its number, or R.N as in a report";
    option(alloc, "section", "N", help)
}

pub(crate) fn only_event<'a>(alloc: Global) -> Arg<'a>
    ensures rule { rule_of result ≡ maybe_number (codes "event") small_number }
    ensures local { result.global ≡ false }
{
    let help = "The only event of each section that is told of, counted from 1";
    parsed(alloc, "event", "K", help, value_parser!(u32))
}

// How many rows `explain --all` explains.
pub(crate) fn first_rows<'a>(alloc: Global) -> Arg<'a>
    ensures rule { rule_of result ≡ maybe_number (codes "first") small_count }
    ensures local { result.global ≡ false }
{
    let help = "The most rows that are explained, 1 or more; all where it is left out";
    let parser = value_parser!(u32).range(1..=4_294_967_295);
    parsed(alloc, "first", "N", help, parser)
}

// How many rows `why` tells.
pub(crate) fn first<'a>(alloc: Global) -> Arg<'a>
    ensures rule { rule_of result ≡ maybe_number (codes "first") row_count }
    ensures local { result.global ≡ false }
{
    let help = "The most rows that are told, 1 to 1000; 20, or with --all-rows all";
    let parser = value_parser!(u32).range(1..=1000);
    parsed(alloc, "first", "N", help, parser)
}

// The most events of a part and the step of their numbers, which `cut` takes.
pub(crate) fn events<'a>(alloc: Global) -> Arg<'a>
    ensures rule { rule_of result ≡ number (codes "events") small_number (codes "1000000") }
    ensures local { result.global ≡ false }
{
    let help = "The most events of a part, 1 to 1048576";
    parsed(alloc, "events", "N", help, value_parser!(u32)).default_value("1000000")
}

pub(crate) fn step<'a>(alloc: Global) -> Arg<'a>
    ensures rule { rule_of result ≡ number (codes "step") large_number (codes "1000000000") }
    ensures local { result.global ≡ false }
{
    let help = "What a part's number is above that of the one before it";
    parsed(alloc, "step", "STEP", help, value_parser!(u64)).default_value("1000000000")
}

pub(crate) fn files<'a>(alloc: Global) -> Arg<'a>
    ensures rule { rule_of result ≡ option (codes "files") }
    ensures local { result.global ≡ false }
{
    let help = "Write PREFIX1.log, PREFIX2.log, .. in the place of standard output";
    option(alloc, "files", "PREFIX", help)
}

pub(crate) fn bytes<'a>(alloc: Global) -> Arg<'a>
    ensures rule { rule_of result ≡ number (codes "bytes") large_number (codes "268435456") }
    ensures local { result.global ≡ false }
{
    let help = "The most bytes of such a file, 1024 to 268435456";
    parsed(alloc, "bytes", "B", help, value_parser!(u64)).default_value("268435456")
}

pub(crate) fn log<'a>(alloc: Global) -> Arg<'a>
    ensures rule { rule_of result ≡ asked (codes "log") }
    ensures local { result.global ≡ false }
{
    let help = "The log with whose sections the schedule is played";
    option(alloc, "log", "FILE", help).required(true)
}

// A word that is there, or not.
fn flag<'a>(alloc: Global, name: &'a str, help: &'a str) -> Arg<'a>
    ensures rule { rule_of result ≡ flag name.entry.now }
    ensures local { result.global ≡ false }
{
    Arg::new(alloc, name)
        .long(name)
        .action(ArgAction::SetTrue)
        .help(help)
}

// The flag that `check` and `join` take.
pub(crate) fn ledger<'a>(alloc: Global) -> Arg<'a>
    ensures rule { rule_of result ≡ flag (codes "ledger") }
    ensures local { result.global ≡ false }
{
    flag(
        alloc,
        "ledger",
        "Write the ledger text instead of the report",
    )
}

// The flag of `join` alone.
pub(crate) fn summary<'a>(alloc: Global) -> Arg<'a>
    ensures rule { rule_of result ≡ flag (codes "summary") }
    ensures local { result.global ≡ false }
{
    let help = "Write the rows that fail or warn alone, and the sums of each run";
    flag(alloc, "summary", help)
}

// The flag of `check`.
pub(crate) fn strict<'a>(alloc: Global) -> Arg<'a>
    ensures rule { rule_of result ≡ flag (codes "strict") }
    ensures local { result.global ≡ false }
{
    let help = "End with 1 also where `lint` warns of the log, or nothing passes";
    flag(alloc, "strict", help)
}

// The flag of `lint`.
pub(crate) fn unasserted<'a>(alloc: Global) -> Arg<'a>
    ensures rule { rule_of result ≡ flag (codes "unasserted") }
    ensures local { result.global ≡ false }
{
    let help = "Name the stores that no assertion covers";
    flag(alloc, "unasserted", help)
}

// The flag of `explain`.
pub(crate) fn all<'a>(alloc: Global) -> Arg<'a>
    ensures rule { rule_of result ≡ flag (codes "all") }
    ensures local { result.global ≡ false }
{
    let help = "Each row of the log that counts as fail, in place of one event";
    flag(alloc, "all", help)
}

// The flags of `why`.
pub(crate) fn all_rows<'a>(alloc: Global) -> Arg<'a>
    ensures rule { rule_of result ≡ flag (codes "all-rows") }
    ensures local { result.global ≡ false }
{
    let help = "Tell each row, and not only the first of each kind";
    flag(alloc, "all-rows", help)
}

pub(crate) fn patch<'a>(alloc: Global) -> Arg<'a>
    ensures rule { rule_of result ≡ flag (codes "patch") }
    ensures local { result.global ≡ false }
{
    let help = "Write the log with all cures put in, in place of the rows";
    flag(alloc, "patch", help)
}

// The file of the log that a command reads.
pub(crate) fn log_file<'a>(alloc: Global) -> Arg<'a>
    ensures rule { rule_of result ≡ log_word }
    ensures local { result.global ≡ false }
{
    Arg::new(alloc, "log").value_name("LOG").help(
        "The file of the log; standard input is read where it is left out",
    )
}

// The ledgers that `join` reads: what names them, and they themselves.
pub(crate) fn files_from<'a>(alloc: Global) -> Arg<'a>
    ensures rule { rule_of result ≡ option (codes "files-from") }
    ensures local { result.global ≡ false }
{
    let help = "Join the ledgers as well that this file names, one on a line; - is standard input";
    option(alloc, "files-from", "LIST", help)
}

pub(crate) fn stream<'a>(alloc: Global) -> Arg<'a>
    ensures rule { rule_of result ≡ flag (codes "stream") }
    ensures local { result.global ≡ false }
{
    let help = "Merge the ledgers as they are read: of any length, with their sections in order";
    flag(alloc, "stream", help)
}

pub(crate) fn trust<'a>(alloc: Global) -> Arg<'a>
    ensures rule { rule_of result ≡ flag (codes "trust") }
    ensures local { result.global ≡ false }
{
    let help = "With --stream: check no section, and write a ledger that says so";
    flag(alloc, "trust", help)
}

pub(crate) fn merge_workers<'a>(alloc: Global) -> Arg<'a>
    ensures rule { rule_of result ≡ maybe_number (codes "workers") thread_count }
    ensures local { result.global ≡ false }
{
    let help =
        "With --stream: how many threads check the sections, 1 to 64; 1 where it is left out";
    let parser = value_parser!(u32).range(1..=64);
    parsed(alloc, "workers", "N", help, parser)
}

pub(crate) fn file<'a>(alloc: Global) -> Arg<'a>
    ensures rule { rule_of result ≡ file_words }
    ensures local { result.global ≡ false }
{
    Arg::new(alloc, "file")
        .value_name("FILE")
        .action(ArgAction::Append)
        .num_args(1..)
        .help("A ledger, as `check --ledger` writes it")
}
