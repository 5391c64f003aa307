//! The rows of the sections, one after another, and which of them are told.

ghost use Rattle.std.specs.{Prelude.{◌≡◌, ◌++◌, ◌∷◌, ℕ, ◌-◌, [], ◌≤◌, ◌<◌, ◌^◌, ◌||◌, ◌&&◌, Bool, List, not, nat_lt, length, map, count_by, sum_by, flat_map, slice_index_or, string_bytes, IfOk, IfSome, OnOk}, List.{list_any}};
ghost use Rattle.pmf_verdict.specs.Checked.{rows_in};
ghost use Rattle.pmf_cause.specs.Cause.{cause_of};
ghost use Rattle.pmf_why.specs.{Kinds.{is_one_kind}, Reasons.{Bad, asked_row, asked_rows, is_asked}, Ending.{left_in, like_in, likes_in}, Plans.{IsPlan}, Rows.{bad_of, part_of}, Why.{text_of_numbers, text_of_sums}};

use crate::kind::Kind;
use crate::plan::{Counts, Plan};
use crate::row::{BadRow, Taken};
use crate::telling::{push_more, reason_text};
use crate::trial::way_of;
use pmf_cause::{Cause, Edit, Proposal, causes, propose};
use pmf_event::{Name, Row, Section};
use pmf_query::{Located, Standing};
use pmf_request::Reasons;
use pmf_verdict::check;
use std::alloc::{AllocError, Global};
use std::sync::Arc;

/// A row that is told.
#[derive(Drop)]
pub(crate) struct Told<'a> {
    pub(crate) kind: Kind<'a>,
    /// The name of its section.
    pub(crate) name: Name,
    pub(crate) row: Row,
    pub(crate) text: String,
}

/// What was met of the sections that are asked for.
#[derive(Drop)]
pub(crate) struct Telling<'a> {
    pub(crate) asked: Reasons,
    /// The kind of each row that was asked for.
    pub(crate) kinds: Vec<Kind<'a>>,
    pub(crate) told: Vec<Told<'a>>,
    /// Of each section.
    pub(crate) counts: Vec<Counts>,
    /// More than how many events may still be checked with one row's changes alone.
    pub(crate) budget: usize,
}

impl<'a> Telling<'a> {
    ghost use Rattle.pmf_event.specs.Section.{Trace};
    ghost use Rattle.pmf_query.specs.{Locating.{AreLocations}, Standing.{Stands}};
    ghost use Rattle.pmf_request.specs.declared.settings.Reasons.{Reasons};
    ghost use Rattle.pmf_why.specs.{Ending.{counts_at_end, missed_in, text_at_end}, Telling.{Grows, HasParts, HasRows, is_new_kind}, Why.{asked_sections, text_of_none}};

    /// Nothing yet. Takes no memory.
    pub(crate) fn new(alloc: Global, asked: Reasons, budget: usize) -> Telling<'a>
        ensures parts { (bytes : List ℕ) → HasParts asked bytes [] result }
        ensures none { result.told.items ≡ [] }
    {
        Telling {
            asked,
            kinds: Vec::new(alloc),
            told: Vec::new(alloc),
            counts: Vec::new(alloc),
            budget,
        }
    }

    /// Takes a section of a log, whose events stand so, where it is asked for.
    pub(crate) fn meet(
        &mut self,
        alloc: Global,
        section: &Arc<Section>,
        standing: &Standing<'a>,
    ) -> Result<(), AllocError>
        ensures parts { (asked : Reasons) (bytes : List ℕ) (sections : List Trace)
            → Stands bytes standing.now
            → HasParts asked bytes (asked_sections asked sections) self.old
            → OnOk result (HasParts asked bytes (asked_sections asked (sections ++ section.now.value ∷ [])) self.new) }
        ensures grows { OnOk result (Grows self.old.told.items self.new.told.items) }
    {
        let number = section.name().number;
        if !is_number_asked(self.asked.section, number) {
            return Ok(());
        }
        self.take(alloc, section, standing.in_section(number))
    }

    // Takes a section, whose events stand so.
    fn take(
        &mut self,
        alloc: Global,
        section: &Arc<Section>,
        stands: &[Located<'a>],
    ) -> Result<(), AllocError>
        ensures parts { (asked : Reasons) (bytes : List ℕ) (sections : List Trace)
            → AreLocations bytes section.now.value.name.number stands.now
            → HasParts asked bytes sections self.old
            → OnOk result (HasParts asked bytes (sections ++ section.now.value ∷ []) self.new) }
        ensures grows { OnOk result (Grows self.old.told.items self.new.told.items) }
    {
        let verdict = match check(alloc, Arc::try_clone(section)?, self.asked.profile) {
            Ok(verdict) => verdict,
            Err(_) => return Err(AllocError),
        };
        let causes = causes(alloc, &verdict)?;
        let wanted = wanted_rows(alloc, verdict.rows(), &causes, self.asked.event)?;
        let Proposal { all, own } = propose(alloc, &verdict, &wanted, None)?;
        let plan = Plan::of(alloc, &verdict, all)?;
        self.counts.push(plan.counts(&verdict))?;
        let taken = Taken {
            verdict: &verdict,
            stands,
            plan: &plan,
        };
        self.take_rows(alloc, &taken, &causes, &wanted, &own)
    }

    /// What is written behind the rows that are told.
    #[tactic(auto, unfolding(crate::specs::Ending::text_at_end))]
    pub(crate) fn end(&self, alloc: Global) -> Result<String, AllocError>
        ensures { IfOk result (λ text. string_bytes text ≡ text_at_end self.now) }
    {
        let mut text = likes_in(alloc, self.asked.all, &self.kinds, &self.told)?;
        self.push_end(&mut text)?;
        Ok(text)
    }

    // The counts, or that the event that is asked for has no row.
    fn push_end(&self, text: &mut String) -> Result<(), AllocError>
        ensures { OnOk result (string_bytes text.new ≡ string_bytes text.old ++ text_of_none (missed_in self.now.asked self.now.kinds.items) (counts_at_end self.now)) }
    {
        match self.missed_event() {
            Some(event) => write!(text, "no row at event {event}\n"),
            None => self.push_counts(text),
        }
    }

    // The event that is asked for and has no row.
    fn missed_event(&self) -> Option<u32>
        ensures { result ≡ missed_in self.now.asked self.now.kinds.items }
    {
        if self.kinds.is_empty() {
            self.asked.event
        } else {
            None
        }
    }

    #[tactic(auto, unfolding(crate::specs::Ending::counts_at_end))]
    fn push_counts(&self, text: &mut String) -> Result<(), AllocError>
        ensures { OnOk result (string_bytes text.new ≡ string_bytes text.old ++ counts_at_end self.now) }
    {
        let (rows, told) = (self.kinds.len(), self.told.len());
        let untold = left_in(self.asked.all, &self.kinds, &self.told);
        let (pass, fail) = (sum_pass(&self.counts), sum_fail(&self.counts));
        push_numbers(text, rows, told, untold)?;
        push_sums(text, pass, fail)
    }

    // Takes the rows of a section, with their causes, and the changes that the wanted ones may need alone.
    fn take_rows(
        &mut self,
        alloc: Global,
        taken: &Taken<'a, '_>,
        causes: &[Option<Cause>],
        wanted: &[usize],
        own: &[Vec<Edit>],
    ) -> Result<(), AllocError>
        requires causes { causes.now ≡ map (cause_of taken.now.verdict.now.section.events) (rows_in taken.now.verdict.now) }
        requires plan { IsPlan taken.now.verdict.now taken.now.plan.now }
        ensures rows { (asked : Reasons) (before : List Bad) → HasRows asked before self.old
            → OnOk result (HasRows asked (before ++ asked_rows asked (part_of taken.now)) self.new) }
        ensures counts { OnOk result (self.new.counts.items ≡ self.old.counts.items) }
        ensures grows { OnOk result (Grows self.old.told.items self.new.told.items) }
    {
        for (index, row) in taken.verdict.rows().iter().enumerate() {
            let number = wanted.partition_point(|other| *other < index);
            self.meet_row(alloc, taken, row, &causes[index], edits_at(own, number))?;
        }
        Ok(())
    }

    // Takes a row with its cause, if it has one and is asked for.
    fn meet_row(
        &mut self,
        alloc: Global,
        taken: &Taken<'a, '_>,
        row: &Row,
        cause: &Option<Cause>,
        own: &[Edit],
    ) -> Result<(), AllocError>
        requires cause { cause.now ≡ cause_of taken.now.verdict.now.section.events row.now }
        requires plan { IsPlan taken.now.verdict.now taken.now.plan.now }
        ensures rows { (asked : Reasons) (before : List Bad) → HasRows asked before self.old
            → OnOk result (HasRows asked (before ++ asked_row asked (part_of taken.now) row.now) self.new) }
        ensures counts { OnOk result (self.new.counts.items ≡ self.old.counts.items) }
        ensures grows { OnOk result (Grows self.old.told.items self.new.told.items) }
    {
        if !is_asked(self.asked.event, row.place) {
            return Ok(());
        }
        let Some(cause) = *cause else {
            return Ok(());
        };
        let bad = BadRow {
            taken: *taken,
            row: *row,
            cause,
        };
        self.take_row(alloc, &bad, own)
    }

    // Takes a row, and tells it, where it is the first of its kind and not too many are told.
    fn take_row(
        &mut self,
        alloc: Global,
        bad: &BadRow<'a, '_>,
        own: &[Edit],
    ) -> Result<(), AllocError>
        requires { IsPlan bad.now.taken.verdict.now bad.now.taken.plan.now }
        ensures rows { (asked : Reasons) (before : List Bad) → HasRows asked before self.old
            → OnOk result (HasRows asked (before ++ bad_of bad.now ∷ []) self.new) }
        ensures counts { OnOk result (self.new.counts.items ≡ self.old.counts.items) }
        ensures grows { OnOk result (Grows self.old.told.items self.new.told.items) }
        ensures asked { OnOk result (self.new.asked ≡ self.old.asked) }
    {
        let kind = Kind::of(bad);
        if !self.is_new(&kind) {
            self.kinds.push(kind)?;
            return Ok(());
        }
        let way = way_of(alloc, bad, own, &mut self.budget)?;
        let text = reason_text(alloc, bad, own, way)?;
        let name = bad.taken.verdict.name();
        self.told.push(Told {
            kind,
            name,
            row: bad.row,
            text,
        })?;
        self.kinds.push(kind)?;
        Ok(())
    }

    // Whether a row of this kind is to be told.
    #[tactic(auto, unfolding(crate::specs::Telling::is_new_kind))]
    fn is_new(&self, kind: &Kind<'_>) -> bool
        ensures { result ≡ is_new_kind self.now kind.now }
    {
        if self.told.len() >= self.asked.first as usize {
            return false;
        }
        self.asked.all || !is_alike_to(&self.told, kind)
    }
}

// How many rows of these kinds a row stands for that is told: each for itself, or for all of its kind.
#[tactic(auto, unfolding(crate::specs::Ending::like_in))]
fn like_in(all: bool, kinds: &[Kind<'_>], told: &Told<'_>) -> usize
    ensures { result ≡ like_in all kinds.now told.now }
{
    if all {
        return 1;
    }
    count_kind(kinds, &told.kind)
}

fn count_kind(kinds: &[Kind<'_>], kind: &Kind<'_>) -> usize
    ensures { result ≡ count_by (is_one_kind kind.now) kinds.now }
{
    let mut count = 0;
    for other in kinds {
        if kind.is_same(other) {
            count += 1;
        }
    }
    count
}

// Of what is told, for how many more it stands.
#[tactic(auto, unfolding(crate::specs::Ending::likes_in))]
fn likes_in(
    alloc: Global,
    all: bool,
    kinds: &[Kind<'_>],
    told: &[Told<'_>],
) -> Result<String, AllocError>
    ensures { IfOk result (λ text. string_bytes text ≡ likes_in all kinds.now told.now) }
{
    let mut text = String::new(alloc);
    for one in told {
        push_more(&mut text, one.name, &one.row, like_in(all, kinds, one))?;
    }
    Ok(text)
}

// For how many rows none stands that is told.
#[tactic(auto, unfolding(crate::specs::Ending::left_in))]
fn left_in(all: bool, kinds: &[Kind<'_>], told: &[Told<'_>]) -> usize
    ensures { result ≡ left_in all kinds.now told.now }
{
    let mut left = kinds.len();
    for one in told {
        left = left.saturating_sub(like_in(all, kinds, one));
    }
    left
}

fn sum_pass(counts: &[Counts]) -> u128
    ensures { result ≡ sum_by (λ (c : Counts). c.pass) counts.now }
{
    let mut sum = 0;
    for one in counts {
        sum += one.pass as u128;
    }
    sum
}

fn sum_fail(counts: &[Counts]) -> u128
    ensures { result ≡ sum_by (λ (c : Counts). c.fail) counts.now }
{
    let mut sum = 0;
    for one in counts {
        sum += one.fail as u128;
    }
    sum
}

#[tactic(auto, unfolding(crate::specs::Why::text_of_numbers))]
fn push_numbers(
    text: &mut String,
    rows: usize,
    told: usize,
    untold: usize,
) -> Result<(), AllocError>
    ensures { OnOk result (string_bytes text.new ≡ string_bytes text.old ++ text_of_numbers rows told untold) }
{
    write!(text, "rows={rows} told={told} untold={untold}")
}

#[tactic(auto, unfolding(crate::specs::Why::text_of_sums))]
fn push_sums(text: &mut String, pass: u128, fail: u128) -> Result<(), AllocError>
    ensures { OnOk result (string_bytes text.new ≡ string_bytes text.old ++ text_of_sums pass fail) }
{
    write!(text, "; with all cures: pass={pass} fail={fail}\n")
}

// Whether one of the rows that are told has this kind.
#[tactic(auto, using(std::proofs::lemmas::Grind::common_steps, std::proofs::lemmas::List::Folds::list_any_more))]
fn is_alike_to(told: &[Told<'_>], kind: &Kind<'_>) -> bool
    ensures { result ≡ list_any (λ t. is_one_kind t.kind kind.now) told.now }
{
    let mut met = false;
    for one in told {
        met = met || one.kind.is_same(kind);
    }
    met
}

/// Whether a number is asked for.
pub(crate) fn is_number_asked(named: Option<u64>, number: u64) -> bool
    ensures { result ≡ is_asked named number }
{
    match named {
        Some(named) => number == named,
        None => true,
    }
}

// The same of the place of an event.
fn is_asked(named: Option<u32>, number: u32) -> bool
    ensures { result ≡ is_asked named number }
{
    match named {
        Some(named) => number == named,
        None => true,
    }
}

// The changes of this number, or none.
fn edits_at(own: &[Vec<Edit>], number: usize) -> &[Edit] {
    match own.get(number) {
        Some(edits) => edits,
        None => &[],
    }
}

// The rows that are asked for and have a cause, by their indices.
fn wanted_rows(
    alloc: Global,
    rows: &[Row],
    causes: &[Option<Cause>],
    event: Option<u32>,
) -> Result<Vec<usize>, AllocError> {
    let mut wanted = Vec::new(alloc);
    for (index, row) in rows.iter().enumerate() {
        if is_asked(event, row.place) {
            if let Some(Some(_)) = causes.get(index) {
                wanted.push(index)?;
            }
        }
    }
    Ok(wanted)
}
