//! What tells why the rows of a log are no PASS, written section for section.

ghost use Rattle.std.specs.{Prelude.{◌≡◌, ◌||◌, ◌+◌, ◌++◌, List, ℕ, Option, map, is_none, MatchResult}, List.{list_any}};
ghost use Rattle.pmf_device.specs.{Failures.{CanCountOneMore}, Pages.{IsPage, StopsIn, WritesText, failed_puts}};
ghost use Rattle.pmf_query.specs.{declared.streaming.Unanswered.TheVariants.{Refused}, Standing.{Stands}, Streaming.{Recites, failed_answers}};
ghost use Rattle.pmf_why.specs.{Reasons.{is_asked}, Telling.{told_text}, Why.{IsWhy, IsWhyRefusal, asked_sections, refusal_of, TellsAll}};

use crate::taking::{Telling, Told, is_number_asked};
use pmf_device::{Page, Sink, Stop};
use pmf_event::Section;
use pmf_query::{EventFault, EventRefusal, Standing, StreamedQuery, Unanswered};
use pmf_request::{Reasons, Sought};
use pmf_storelog::read_log;
use std::alloc::Global;
use std::sync::Arc;

/// More than how many events may be checked with one row's changes alone, over all rows.
const BUDGET: usize = 262_144;

/// Why rows are no PASS, as a question about a log.
#[derive(Clone, Copy, Debug)]
pub struct Why {
    /// What it is told by its words.
    pub asked: Reasons,
}

impl StreamedQuery for Why {
    type Told = ();

    type Refusal = EventRefusal;

    ghost IsAnswer = { λ why bytes _ text. IsWhy why.asked bytes text };

    ghost IsRefusal = { λ why. IsWhyRefusal why.asked };

    fn recite<W: Sink>(
        &self,
        alloc: Global,
        log: &[u8],
        writer: &mut W,
    ) -> Result<(), Unanswered<EventRefusal>> {
        tell_why(alloc, log, self.asked, writer)
    }
}

/// Writes why rows are no PASS: of each kind the first, with the store that is lost, its cause, and what cures it. A kind is what is
/// found, the cause, and the place in the source where records tell one, or else how many events lie between.
///
/// Reads the log twice, once for its events and once for where they stand; checks each section that is asked for, looks for causes
/// and cures, checks it once more with all of them, and writes what is to be told of it. At the end it tells how many rows are like those
/// that are told. Changes of single rows are checked, each by one check of its section, while these have fewer than 262,144 events
/// together. Takes memory for the events of the log and where each stands, what [`pmf_cause::propose`] and two checks take, a kind for
/// each row that is asked for, and the text.
pub fn tell_why<W: Sink>(
    alloc: Global,
    log: &[u8],
    asked: Reasons,
    writer: &mut W,
) -> Result<(), Unanswered<EventRefusal>>
    requires { CanCountOneMore (W.failed_calls writer.old) }
    ensures answer { Recites (λ _ text. IsWhy asked log.now text) (IsWhyRefusal asked log.now) W.held writer.old writer.new result }
    ensures counted { W.failed_calls writer.new ≡ W.failed_calls writer.old + failed_answers result }
{
    let read = match read_log(alloc, log, asked.run) {
        Ok(read) => read,
        Err(fault) => return Err(refused(asked, EventFault::Log(fault))),
    };
    if !has_asked(read.sections(), asked.section) {
        return Err(refused(asked, EventFault::NoSection));
    }
    let Ok(standing) = Standing::of_faultless(alloc, log) else {
        return Err(refused(asked, EventFault::OutOfMemory));
    };
    match tell_sections(alloc, read.sections(), &standing, asked, writer) {
        Ok(()) => Ok(()),
        Err(stop) => Err(Unanswered::Stopped(stop)),
    }
}

// The refusal for this reason, with what was asked for.
fn refused(asked: Reasons, fault: EventFault) -> Unanswered<EventRefusal>
    ensures { result ≡ Refused (refusal_of asked fault) }
{
    Unanswered::Refused(EventRefusal {
        sought: Sought {
            run: asked.run,
            section: asked.section.unwrap_or(0),
            event: asked.event.unwrap_or(0),
        },
        fault,
    })
}

/// Whether one of the sections has the number that is named, if one is.
#[tactic(auto, using(std::proofs::lemmas::Grind::common_steps, std::proofs::lemmas::List::Folds::list_any_more))]
pub(crate) fn has_asked(sections: &[Arc<Section>], named: Option<u64>) -> bool
    ensures { result ≡ is_none named || list_any (λ s. is_asked named s.value.name.number) sections.now }
{
    let Some(_) = named else {
        return true;
    };
    let mut has = false;
    for section in sections {
        has = has || is_number_asked(named, section.name().number);
    }
    has
}

// The rows of the sections that are asked for, section for section, and the counts.
fn tell_sections<W: Sink>(
    alloc: Global,
    sections: &[Arc<Section>],
    standing: &Standing<'_>,
    asked: Reasons,
    writer: &mut W,
) -> Result<(), Stop>
    requires { CanCountOneMore (W.failed_calls writer.old) }
    ensures text { (bytes : List ℕ) → Stands bytes standing.now
        → WritesText (TellsAll asked bytes (asked_sections asked (map (λ s. s.value) sections.now))) (W.held writer.old) (W.held writer.new) result }
    ensures counted { W.failed_calls writer.new ≡ W.failed_calls writer.old + failed_puts result }
{
    let mut telling = Telling::new(alloc, asked, BUDGET);
    let mut page = Page::new();
    let mut sent = 0;
    for section in sections {
        telling.meet(alloc, section, standing)?;
        write_told(&telling.told[sent..], writer, &mut page)?;
        sent = telling.told.len();
    }
    let end = telling.end(alloc)?;
    page.put(writer, end.as_bytes())
}

// The text of what is told.
fn write_told<W: Sink>(told: &[Told<'_>], writer: &mut W, page: &mut Page) -> Result<(), Stop>
    requires { CanCountOneMore (W.failed_calls writer.old) }
    ensures put { (held : Option (List ℕ)) (front : List ℕ) → IsPage held (W.held writer.old) front page.old
        → MatchResult result (λ _. IsPage held (W.held writer.new) (front ++ told_text told.now) page.new)
        (StopsIn (λ text. text ≡ front ++ told_text told.now) held (W.held writer.new)) }
    ensures counted { W.failed_calls writer.new ≡ W.failed_calls writer.old + failed_puts result }
{
    for one in told {
        page.put(writer, one.text.as_bytes())?;
    }
    Ok(())
}
