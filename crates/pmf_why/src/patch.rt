//! The log with the changes put in that are to cure its rows.

ghost use Rattle.std.specs.{Prelude.{◌≡◌, true, map, length, IfOk, IfSome, MatchResult, MatchOption}, List.{AllZip}};
ghost use Rattle.pmf_why.specs.{Patching.{IsPatch, IsPatchOf, IsPatchRefusal, IsPatched, IsWell, reasons_of}, Why.{IsWhyFault}};

use crate::patching::text_with;
use crate::plan::Plan;
use crate::refusal::PatchRefusal;
use crate::taking::is_number_asked;
use crate::why::has_asked;
use pmf_cause::{Edit, propose};
use pmf_event::Section;
use pmf_query::{Answer, EventFault, EventRefusal, Query};
use pmf_request::{Patches, Sought};
use pmf_storelog::{Cause, Log, read_log};
use pmf_verdict::check;
use std::alloc::{AllocError, Global};
use std::sync::Arc;

/// The log with its cures, as a question about a log.
#[derive(Clone, Copy, Debug)]
pub struct Patch {
    /// What it is told by its words.
    pub asked: Patches,
}

impl Query for Patch {
    type Told = ();

    type Refusal = PatchRefusal;

    ghost IsAnswer = { λ patch bytes _ text. IsPatch patch.asked bytes text };

    ghost IsRefusal = { λ patch. IsPatchRefusal patch.asked };

    fn answer(&self, alloc: Global, log: &[u8]) -> Result<Answer<()>, PatchRefusal> {
        let text = patch_text(alloc, log, self.asked)?;
        Ok(Answer { told: (), text })
    }
}

/// The log with the changes put in by which [`crate::tell_why`] counts what passes and fails with all cures: an event that is put in stands
/// as a text line of its own in front of its record, or behind the last record of its section, and of one that is left out the record is
/// gone. Where each event of section 0 is, its marker stands in front of the log. All else of the log stays, byte for byte.
///
/// Reads the log twice, as `tell_why` does, checks each section that is asked for, and once more with all changes; then reads what was
/// made, and answers it only where its sections are those with the changes. Takes memory for the events of the log, where each stands, the
/// events of what was made, its text, and what [`pmf_cause::propose`] and two checks take.
pub fn patch_text(alloc: Global, log: &[u8], asked: Patches) -> Result<Vec<u8>, PatchRefusal>
    ensures { MatchResult result (λ text. IsPatch asked log.now text.items) (IsPatchRefusal asked log.now) }
{
    match try_patch(alloc, log, asked) {
        Ok(Some(text)) => Ok(text),
        Ok(None) => Err(PatchRefusal::TooLong),
        Err(fault) => Err(PatchRefusal::Why(EventRefusal {
            sought: Sought {
                run: asked.run,
                section: asked.section.unwrap_or(0),
                event: 0,
            },
            fault,
        })),
    }
}

// The log with its cures; none where what was made is not read so.
fn try_patch(alloc: Global, log: &[u8], asked: Patches) -> Result<Option<Vec<u8>>, EventFault>
    ensures { MatchResult result
        (λ made. MatchOption made (IsWell asked log.now) (λ text. IsPatch asked log.now text.items))
        (IsWhyFault (reasons_of asked) log.now) }
{
    let read = match read_log(alloc, log, asked.run) {
        Ok(read) => read,
        Err(fault) => return Err(EventFault::Log(fault)),
    };
    if !has_asked(read.sections(), asked.section) {
        return Err(EventFault::NoSection);
    }
    let made = patch_log(alloc, log, &read, asked)?;
    Ok(made)
}

// The same, of a log that was read.
fn patch_log(
    alloc: Global,
    log: &[u8],
    read: &Log,
    asked: Patches,
) -> Result<Option<Vec<u8>>, AllocError>
    ensures { IfOk result (λ made. IfSome made (λ text. IsPatchOf asked read.now text.items)) }
{
    let cures = all_patched(alloc, read.sections(), asked)?;
    let text = text_with(alloc, log, &cures)?;
    let again = match read_log(alloc, &text, asked.run) {
        Ok(again) => again,
        Err(fault) => {
            return match fault.cause {
                Cause::OutOfMemory => Err(AllocError),
                _ => Ok(None),
            };
        }
    };
    if again.skipped() == read.skipped() && are_sections(&cures, again.sections()) {
        return Ok(Some(text));
    }
    Ok(None)
}

/// What a section becomes, and by which changes.
#[derive(Drop)]
pub(crate) struct Patched {
    pub(crate) edits: Vec<Edit>,
    pub(crate) section: Arc<Section>,
}

// What each section becomes.
fn all_patched(
    alloc: Global,
    sections: &[Arc<Section>],
    asked: Patches,
) -> Result<Vec<Patched>, AllocError>
    ensures { IfOk result (λ cures. AllZip (λ t (cure : Patched). IsPatched asked t cure.section.value)
        (map (λ s. s.value) sections.now) cures.items) }
{
    let mut cures = Vec::new(alloc);
    for section in sections {
        let cure = patched_of(alloc, section, asked)?;
        cures.push(cure)?;
    }
    Ok(cures)
}

fn patched_of(alloc: Global, section: &Arc<Section>, asked: Patches) -> Result<Patched, AllocError>
    ensures { IfOk result (λ cure. IsPatched asked section.now.value cure.section.value) }
{
    if !is_number_asked(asked.section, section.name().number) {
        return unchanged(alloc, section);
    }
    let verdict = match check(alloc, Arc::try_clone(section)?, asked.profile) {
        Ok(verdict) => verdict,
        Err(_) => return Err(AllocError),
    };
    let proposal = propose(alloc, &verdict, &[], None)?;
    let Plan { edits, trial } = Plan::of(alloc, &verdict, proposal.all)?;
    match trial {
        Some(trial) => Ok(Patched {
            edits,
            section: Arc::try_clone(trial.verdict().section())?,
        }),
        None => unchanged(alloc, section),
    }
}

fn unchanged(alloc: Global, section: &Arc<Section>) -> Result<Patched, AllocError>
    ensures { IfOk result (λ cure. cure.section.value ≡ section.now.value) }
{
    Ok(Patched {
        edits: Vec::new(alloc),
        section: Arc::try_clone(section)?,
    })
}

// Whether these are the sections that they become.
fn are_sections(cures: &[Patched], again: &[Arc<Section>]) -> bool
    ensures { result ≡ true → map (λ (cure : Patched). cure.section.value) cures.now ≡ map (λ s. s.value) again.now }
{
    if cures.len() != again.len() {
        return false;
    }
    for (index, cure) in cures.iter().enumerate() {
        if !cure.section.same_as(&again[index]) {
            return false;
        }
    }
    true
}
