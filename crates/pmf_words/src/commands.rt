//! The commands of the program.

ghost use Rattle.std.specs.Prelude.{◌≡◌, false, true, Ok, IfOk};
ghost use Rattle.clap.specs.{Words.{App, Rule, new_app, rule_of, with_rule, with_subcommand}, declared.builder.value_parser.ValueParser.{ValueParser}};
ghost use Rattle.pmf_words.specs.Words.{HasWords, check_words, cut_words, explain_words, join_words, lint_words, locate_words, pmfarm_words, profile_option, program_words, run_option, sim_words, why_words};

use crate::options::{
    all, all_rows, asked_number, bytes, event, events, file, files, files_from, first, first_rows,
    ledger, log, log_file, merge_workers, only_event, only_section, patch, profile, run, section,
    step, stream, strict, summary, trust, unasserted, workers,
};
use clap::{Arg, Command};
use std::alloc::{AllocError, Global};

// The version, and room behind it: `tools/stamp` writes the commit and the kit into the built program here, and takes away that it is
// not proved where a proof of its sources is kept.
const VERSION: &str =
    "0.1.0 (commit and kit unknown) not proved here                                                  ";

const AFTER_HELP: &str = "\
Examples:
  pmfarm check store.log            the report of the log
  pmfarm check --workers 4 store.log
                                    the same report, checked by four threads
  pmfarm check --run 7 store.log    the same, its sections named 7.N
  pmfarm check --strict store.log   the same; status 1 also where `lint` warns
  pmfarm check --profile 2 store.log
                                    a pair on one line is also ordered by its stores
  ./myprogram | pmfarm check        the report of a log on standard input
  pmfarm explain --section 0.0 --event 6 store.log
                                    what a crash can leave where event 6 fails
  pmfarm explain --all store.log    the same of each row that counts as fail
  pmfarm why store.log              why each kind of row is no PASS, and a cure
  pmfarm why --all-rows --section 0.3 store.log
                                    the same of each row of `section 0.3`
  pmfarm why --patch store.log > cured.log
                                    the log with all cures put in, to be checked
  pmfarm locate --section 0.0 --event 6 store.log
                                    the record that gave event 6
  pmfarm lint store.log             what the log holds, and what is strange in it
  pmfarm cut < long.log > parts.log
                                    its sections in parts that the checker takes
  pmfarm check --ledger --run 7 store.log > 7.ledger
                                    the checked sections themselves, to be joined
  pmfarm join 7.ledger 8.ledger     the report of both, each section once
  pmfarm join --files-from names    the same of the files that `names` lists
  pmfarm join --summary 7.ledger 8.ledger
                                    what fails and warns, and the sums of each run
  pmfarm sim --log store.log --workers 2 --ledgers 1 < steps.schedule
                                    what each step of the schedule comes to

Exit status:
  0  no row of the report counts as fail (which is not the same as: checked), or
     the rows were explained, the causes were told or the log was patched, also
     where no row fails, the event was located, `lint` has no warning, the log was
     cut and nothing may be lost, or the schedule was played
  1  some row counts as fail, `lint` or `check --strict` warns, or what a cut may
     change was told
  2  the input or the command line was refused
  3  memory ran out
  4  a read or a write failed";

const EXPLAIN_HELP: &str = "\
Examples:
  pmfarm explain --section 0.2 --event 3 store.log
                                    the row `3 PERSIST FAIL byte=0x1000 crash=3`
                                    of `section 0.2`
  pmfarm explain --section 2 --event 3 --run 7 --profile 2 store.log
                                    the same of a report with these options
  pmfarm explain --all store.log    each row that counts as fail, also one of
                                    a section's end, which has no event
  pmfarm explain --all --first 3 store.log
                                    the first three of them

What is written of a row that fails:
  image crash=3 full=none           a crash after event 3; no line is there in
                                    full, or this one is
  byte=0x1000 cut=0 shows=0 last=1  of a byte that the row names
  cut      how many stores of the byte's cache line are there
  shows    the event whose store the byte shows, or 0: none
  last     the event of its last store up to the row
  no image                          the row has none: it is no FAIL of PERSIST,
                                    ORDERED or CHECKEND

Exit status:
  0  the rows were explained
  2  the input or the command line was refused
  3  memory ran out
  4  a read or a write failed";

const WHY_HELP: &str = "\
Examples:
  pmfarm why store.log              the first row of each kind, at most 20 rows
  pmfarm why --section 0.3 store.log
                                    the same of `section 0.3` alone
  pmfarm why --section 3 --event 6 store.log
                                    the row of event 6 of that section
  pmfarm why --all-rows --first 100 store.log
                                    the first 100 rows, each by itself
  pmfarm why --patch store.log > cured.log
                                    the log with all cures put in, to be checked

What is written of a row, and at the end:
  0.0 4 ORDERED FAIL byte=0x10040 after=0x10000 crash=3
    lost     record 1 STORE;0x10040;0x1;0x18;append (append_log.c:59)
    kept     record 3 STORE;0x10000;0x1;0x8;append (append_log.c:63)
    cause    not fenced: written back by record 2, no fence before record 3; too late by record 6
    cure     before record 3: FENCE
             this row then passes
  rows=1 told=1 untold=0; with all cures: pass=2 fail=0

  lost, kept   the store that a crash may lose, and the one that it keeps
  event        where no store is lost: the event of the row
  cure         changes of the log, and what a check with them found: the row
               passes, or is gone where no assertion made it; or `none found`
  untold       so many rows are neither told nor like one that is

Rows of one finding, one cause and one place in the source (or one distance of
events) are one kind. Its first row is told; how many more are like it follows
behind all rows that are told, as `2 more like 0.0 4 ORDERED FAIL ..`.

Exit status:
  0  the causes were told or the log was patched, also where no row fails
  2  the input or the command line was refused
  3  memory ran out
  4  a read or a write failed";

/// The program with its eight commands. Which words `explain` takes depends on whether it is asked for all rows, and which `why` takes on
/// whether it is asked for a patched log.
pub(crate) fn program<'a>(alloc: Global, all: bool, patch: bool) -> Result<Command<'a>, AllocError>
    ensures { (p q r : ValueParser) × IfOk result (HasWords (pmfarm_words all patch p q r)) }
{
    let program = with(no_command(alloc), check(alloc));
    let program = with(program, explain(alloc, all));
    let program = with(program, why(alloc, patch));
    let program = with(program, locate(alloc));
    let program = with(program, lint(alloc));
    let program = with(program, cut(alloc));
    with_files(alloc, program)
}

// The same with the commands that read files.
fn with_files<'a>(
    alloc: Global,
    program: Result<Command<'a>, AllocError>,
) -> Result<Command<'a>, AllocError>
    ensures { (words : App) → IfOk program.entry (HasWords words) → IfOk result
        (HasWords (with_subcommand (with_subcommand words join_words.top) sim_words.top)) }
{
    let program = with(program, join(alloc));
    with(program, sim(alloc))
}

// What `add` makes of both, where memory sufficed for them. It knows neither type, so that the ways out of a function that
// knows commands, which are dear to prove, stand here once.
fn added<A: Drop, B: Drop, F: FnOnce(A, B) -> Result<A, AllocError>>(
    old: Result<A, AllocError>,
    more: Result<B, AllocError>,
    add: F,
) -> Result<A, AllocError>
    requires { F.IsAlwaysCallable add }
    ensures { IfOk result (λ made. (a : A) × (b : B) × (old ≡ Ok a) × (more ≡ Ok b)
        × F.post add a b (Ok made)) }
{
    add(old?, more?)
}

// The program with one command more.
fn with<'a>(
    program: Result<Command<'a>, AllocError>,
    command: Result<Command<'a>, AllocError>,
) -> Result<Command<'a>, AllocError>
    ensures { (words more : App) → IfOk program.entry (HasWords words)
        → IfOk command.entry (HasWords more)
        → IfOk result (HasWords (with_subcommand words more.top)) }
{
    added(program, command, Command::subcommand)
}

// The program before it has a command.
fn no_command<'a>(alloc: Global) -> Result<Command<'a>, AllocError>
    ensures { IfOk result (HasWords program_words) }
{
    let about = "Checks the store log of a program that uses persistent memory";
    head(alloc, "pmfarm", about, AFTER_HELP)
        .version(VERSION)
        .subcommand_required(true)
        .bin_name("pmfarm")
}

// What the program and its commands have in common.
fn head<'a>(alloc: Global, name: &'a str, about: &'a str, help: &'a str) -> Command<'a>
    ensures { HasWords (new_app name.entry.now) result }
{
    Command::new(alloc, name).about(about).after_help(help)
}

// The command with one option more.
fn with_option<'a>(
    command: Result<Command<'a>, AllocError>,
    option: Arg<'a>,
) -> Result<Command<'a>, AllocError>
    ensures { (words : App) (rule : Rule) → IfOk command.entry (HasWords words)
        → rule_of option.entry ≡ rule → option.entry.global ≡ false
        → IfOk result (HasWords (with_rule words rule)) }
{
    added(command, Ok(option), Command::arg)
}

// The same with the run and the profile, which `check`, `explain` and `why` take.
fn with_run_and_profile<'a>(
    alloc: Global,
    command: Result<Command<'a>, AllocError>,
) -> Result<Command<'a>, AllocError>
    ensures { (q : ValueParser) × ((words : App) → IfOk command.entry (HasWords words)
        → IfOk result (HasWords (with_rule (with_rule words run_option) (profile_option q)))) }
{
    let command = with_option(command, run(alloc));
    with_option(command, profile(alloc))
}

fn check<'a>(alloc: Global) -> Result<Command<'a>, AllocError>
    ensures { (q : ValueParser) × IfOk result (HasWords (check_words q)) }
{
    let about = "Reads a log and writes its report to standard output";
    let check = Ok(head(alloc, "check", about, AFTER_HELP));
    let check = with_option(check, workers(alloc));
    let check = with_run_and_profile(alloc, check);
    let check = with_option(check, ledger(alloc));
    let check = with_option(check, strict(alloc));
    with_option(check, log_file(alloc))
}

fn explain<'a>(alloc: Global, all: bool) -> Result<Command<'a>, AllocError>
    ensures { (q : ValueParser) × IfOk result (HasWords (explain_words all q)) }
{
    if all {
        return explain_rows(alloc);
    }
    explain_event(alloc)
}

fn explain_event<'a>(alloc: Global) -> Result<Command<'a>, AllocError>
    ensures { (q : ValueParser) × IfOk result (HasWords (explain_words false q)) }
{
    let about = "Writes the rows of one event, and the crash image that shows its failure";
    let explain = Ok(head(alloc, "explain", about, EXPLAIN_HELP));
    let explain = with_option(explain, section(alloc));
    let explain = with_option(explain, event(alloc));
    let explain = with_option(explain, all(alloc));
    let explain = with_run_and_profile(alloc, explain);
    with_option(explain, log_file(alloc))
}

// With `--all` no event is asked for.
fn explain_rows<'a>(alloc: Global) -> Result<Command<'a>, AllocError>
    ensures { (q : ValueParser) × IfOk result (HasWords (explain_words true q)) }
{
    let about = "Writes each row that counts as fail, and the crash image that shows it";
    let explain = Ok(head(alloc, "explain", about, EXPLAIN_HELP));
    let explain = with_option(explain, all(alloc));
    let explain = with_option(explain, first_rows(alloc));
    let explain = with_run_and_profile(alloc, explain);
    with_option(explain, log_file(alloc))
}

fn why<'a>(alloc: Global, patch: bool) -> Result<Command<'a>, AllocError>
    ensures { (q : ValueParser) × IfOk result (HasWords (why_words patch q)) }
{
    if patch {
        return why_patch(alloc);
    }
    why_rows(alloc)
}

fn why_rows<'a>(alloc: Global) -> Result<Command<'a>, AllocError>
    ensures { (q : ValueParser) × IfOk result (HasWords (why_words false q)) }
{
    let about = "Writes why rows are no PASS: the lost store, its cause, and a checked cure";
    let why = Ok(head(alloc, "why", about, WHY_HELP));
    let why = with_option(why, only_section(alloc));
    let why = with_option(why, only_event(alloc));
    let why = with_option(why, first(alloc));
    let why = with_option(why, all_rows(alloc));
    let why = with_option(why, patch(alloc));
    let why = with_run_and_profile(alloc, why);
    with_option(why, log_file(alloc))
}

// With `--patch` no row is told of.
fn why_patch<'a>(alloc: Global) -> Result<Command<'a>, AllocError>
    ensures { (q : ValueParser) × IfOk result (HasWords (why_words true q)) }
{
    let about = "Writes the log with the changes put in that are to cure its rows";
    let why = Ok(head(alloc, "why", about, WHY_HELP));
    let why = with_option(why, only_section(alloc));
    let why = with_option(why, patch(alloc));
    let why = with_run_and_profile(alloc, why);
    with_option(why, log_file(alloc))
}

fn locate<'a>(alloc: Global) -> Result<Command<'a>, AllocError>
    ensures { IfOk result (HasWords locate_words) }
{
    let about = "Writes which record of the log gave one event, and where that record stands";
    let locate = Ok(head(alloc, "locate", about, AFTER_HELP));
    let locate = with_option(locate, section(alloc));
    let locate = with_option(locate, event(alloc));
    let locate = with_option(locate, run(alloc));
    with_option(locate, log_file(alloc))
}

fn lint<'a>(alloc: Global) -> Result<Command<'a>, AllocError>
    ensures { IfOk result (HasWords lint_words) }
{
    let about = "Writes what the log holds, and whether it may not be what it seems to be";
    let lint = Ok(head(alloc, "lint", about, AFTER_HELP));
    let lint = with_option(lint, unasserted(alloc));
    with_option(lint, log_file(alloc))
}

fn cut<'a>(alloc: Global) -> Result<Command<'a>, AllocError>
    ensures { IfOk result (HasWords cut_words) }
{
    let about = "Cuts sections of a log into parts that are no longer than the checker takes";
    let cut = Ok(head(alloc, "cut", about, AFTER_HELP));
    let cut = with_option(cut, events(alloc));
    let cut = with_option(cut, step(alloc));
    let cut = with_option(cut, files(alloc));
    with_option(cut, bytes(alloc))
}

fn join<'a>(alloc: Global) -> Result<Command<'a>, AllocError>
    ensures { IfOk result (HasWords join_words) }
{
    let about = "Checks ledgers again, joins them, and writes the report of all their sections";
    let join = Ok(head(alloc, "join", about, AFTER_HELP));
    let join = with_option(join, ledger(alloc));
    let join = with_option(join, summary(alloc));
    let join = with_option(join, files_from(alloc));
    let join = with_option(join, stream(alloc));
    let join = with_option(join, trust(alloc));
    let join = with_option(join, merge_workers(alloc));
    with_option(join, file(alloc))
}

fn sim<'a>(alloc: Global) -> Result<Command<'a>, AllocError>
    ensures { IfOk result (HasWords sim_words) }
{
    let about = "Plays a schedule from standard input by hand, and writes what each step comes to";
    let workers = asked_number(alloc, "workers", "W", "How many workers there are, 1 to 64");
    let ledgers = asked_number(alloc, "ledgers", "K", "How many ledgers there are, 0 to 64");
    let sim = Ok(head(alloc, "sim", about, AFTER_HELP));
    let sim = with_option(sim, log(alloc));
    let sim = with_option(sim, workers);
    with_option(sim, ledgers)
}
