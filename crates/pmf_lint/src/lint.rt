//! What a log holds, before its rows are believed.

ghost use Rattle.std.specs.Prelude.{◌≡◌, ℕ, Ok, MatchResult, IfOk};
ghost use Rattle.pmf_storelog.specs.{LogText.{log_of}, Separators.{records_of}};
ghost use Rattle.pmf_query.specs.Refusals.{IsLogRefusal};
ghost use Rattle.pmf_lint.specs.{Counting.{AreNotes, Tallies}, Linting.{IsLint, Overviews}, Misread.{has_misread}, Summing.{sums_of}, Warnings.{warnings_by}};

use crate::counting::NameCounts;
use crate::covering::both;
use crate::ending::is_open_ended;
use crate::listing::Listing;
use crate::misread::has_misread;
use crate::naming::Named;
use crate::noting::Notes;
use crate::storing::name_all;
use crate::summing::{Sums, look_through};
use crate::telling::lint_text;
use crate::warnings::Warnings;
use pmf_query::{Answer, LogRefusal, Query, Standing, next_record};
use pmf_request::Overview;
use pmf_storelog::{Log, read_log};
use std::alloc::{AllocError, Global};

/// What was found of a log that was looked through.
#[derive(Clone, Copy, Debug, PartialEq, Eq)]
pub struct Linted {
    /// Whether it may not be what its user believes it is.
    pub is_suspicious: bool,
}

/// What a log holds, as a question about it.
#[derive(Clone, Copy, Debug)]
pub struct Survey {
    /// What it is told by its words.
    pub asked: Overview,
}

impl Query for Survey {
    type Told = Linted;

    type Refusal = LogRefusal;

    ghost IsAnswer = { λ survey. Overviews survey.asked.unasserted };

    ghost IsRefusal = { λ _. IsLogRefusal 0 };

    fn answer(&self, alloc: Global, log: &[u8]) -> Result<Answer<Linted>, LogRefusal> {
        let read = read_whole(alloc, log)?;
        let answer = tell(alloc, log, &read, self.asked.unasserted)?;
        Ok(answer)
    }
}

// What is told of a log that reads so.
fn tell(
    alloc: Global,
    log: &[u8],
    read: &Log,
    unasserted: bool,
) -> Result<Answer<Linted>, AllocError>
    requires { log_of 0 log.now ≡ Ok read.now }
    ensures { IfOk result (λ answer. Overviews unasserted log.now answer.told answer.text.items) }
{
    let (sums, looked) = look_through(alloc, read.sections())?;
    let lint = lint_of(alloc, log, read, sums)?;
    let standing = Standing::of_faultless(alloc, log)?;
    let names = name_all(alloc, log, &standing, &looked, unasserted)?;
    let told = Linted {
        is_suspicious: lint.warnings.are_due(),
    };
    let text = lint_text(alloc, &lint, &names)?;
    Ok(Answer { told, text })
}

/// What a log holds. Names are slices of the log.
#[derive(Debug, Drop)]
pub struct Lint<'a> {
    /// All records; empty ones are none.
    pub records: u64,
    /// How many of them have each known name, in the order of the format's table.
    pub known: Vec<Named<'a>>,
    /// How many of them are skipped.
    pub skipped: u64,
    /// How many skipped ones have each of the first different names, in the order of their first records.
    pub listed: Vec<Named<'a>>,
    /// How many skipped ones have none of these.
    pub others: u64,
    /// The sections.
    pub sections: u64,
    /// What these hold.
    pub sums: Sums,
    /// Why the log may not be what its user believes it is.
    pub warnings: Warnings,
}

/// What the log holds. A faulty log is refused with its first fault.
///
/// Takes memory for the events of the log and a few bytes for each, for the shadow of one section at a time, and for at most 45 names; none
/// for a record.
pub fn lint_log<'a>(alloc: Global, log: &'a [u8]) -> Result<Lint<'a>, LogRefusal>
    ensures { MatchResult result (λ lint. IsLint log.now lint) (IsLogRefusal 0 log.now) }
{
    let read = read_whole(alloc, log)?;
    let (sums, _) = look_through(alloc, read.sections())?;
    let lint = lint_of(alloc, log, &read, sums)?;
    Ok(lint)
}

fn read_whole(alloc: Global, log: &[u8]) -> Result<Log, LogRefusal>
    ensures { MatchResult result (λ read. log_of 0 log.now ≡ Ok read) (IsLogRefusal 0 log.now) }
{
    match read_log(alloc, log, 0) {
        Ok(read) => Ok(read),
        Err(fault) => Err(LogRefusal::Log(fault)),
    }
}

// What a log holds that reads so, and whose sections hold this.
fn lint_of<'a>(alloc: Global, log: &'a [u8], read: &Log, sums: Sums) -> Result<Lint<'a>, AllocError>
    requires read { log_of 0 log.now ≡ Ok read.now }
    requires sums { sums ≡ sums_of read.now.sections }
    ensures { IfOk result (λ lint. IsLint log.now lint) }
{
    let counts = count_names(alloc, log)?;
    let sections = read.sections().len() as u64;
    let misread = is_misread(alloc, log, counts.notes, read)?;
    let warnings = warnings_by(log, counts.notes, sums, misread);
    Ok(told(counts, read.skipped(), sections, sums, warnings))
}

/// Whether an assertion of the log is misread, whose records tell this. No section is looked through where none writes an address in decimal.
pub(crate) fn is_misread(
    alloc: Global,
    log: &[u8],
    notes: Notes,
    read: &Log,
) -> Result<bool, AllocError>
    requires notes { AreNotes notes (records_of log.now) }
    requires read { (run : ℕ) × (log_of run log.now ≡ Ok read.now) }
    ensures { IfOk result (λ any. any ≡ has_misread (records_of log.now)) }
{
    if !notes.has_decimal {
        return Ok(false);
    }
    let any = has_misread(alloc, log, read.sections())?;
    Ok(any)
}

/// Which warnings are due of the log whose records tell this, and whose sections hold this.
#[tactic(auto, unfolding(crate::specs::Warnings::warnings_by, crate::specs::Ending::lacks_stop))]
fn warnings_by(log: &[u8], notes: Notes, sums: Sums, misread: bool) -> Warnings
    requires notes { AreNotes notes (records_of log.now) }
    requires misread { misread ≡ has_misread (records_of log.now) }
    ensures { result ≡ warnings_by log.now (records_of log.now) sums }
{
    Warnings {
        asserts_nothing: sums.asserts_nothing(),
        checks_nothing: sums.checks_nothing(),
        has_near: notes.has_near,
        has_strange: notes.has_strange,
        is_open_ended: is_open_ended(log),
        lacks_stop: both(notes.starts, !notes.stops),
        is_misread: misread,
    }
}

fn told<'a>(
    counts: NameCounts<'a>,
    skipped: u64,
    sections: u64,
    sums: Sums,
    warnings: Warnings,
) -> Lint<'a>
    ensures { result ≡ record {
      records = counts.entry.records;
      known = counts.entry.known;
      skipped = skipped;
      listed = counts.entry.listing.listed;
      others = counts.entry.listing.others;
      sections = sections;
      sums = sums;
      warnings = warnings;
    } }
{
    let NameCounts {
        records,
        known,
        listing,
        ..
    } = counts;
    let Listing { listed, others } = listing;
    Lint {
        records,
        known,
        skipped,
        listed,
        others,
        sections,
        sums,
        warnings,
    }
}

// How many records of each name the log has.
#[tactic(auto, using(pmf_query::proofs::CursorLemmas::anew_first, pmf_query::proofs::CursorLemmas::records_of_nil, crate::proofs::LintLemmas::tallied_next))]
fn count_names<'a>(alloc: Global, log: &'a [u8]) -> Result<NameCounts<'a>, AllocError>
    ensures { IfOk result (λ counts. Tallies counts (records_of log.now)) }
{
    let mut counts = NameCounts::new(alloc)?;
    let mut start = 0;
    while let Some(found) = next_record(log, start) {
        counts.take(found.text)?;
        start = found.next;
    }
    Ok(counts)
}
