//! From the sources of ledger texts to the text of the ledger of them all.

ghost use Rattle.std.specs.Prelude.{◌≡◌, ◌≢◌, ◌<◌, ℕ, List, [], Option, None, Some, Ok, IfOk, IfErr, MatchResult, OnOk, All, Contains, map, true, false};
ghost use Rattle.pmf_device.specs.Failures.{CanCountOneMore};
ghost use Rattle.pmf_verdict.specs.Checked.{Checked};
ghost use Rattle.pmf_event.specs.declared.profile.Profile.{Profile};
ghost use Rattle.pmf_ledger.specs.{declared.form.Form.{Form}, Names.{IsBefore, Rises}};
ghost use Rattle.pmf_merge.specs.{Heads.{HasTold, IsLast, IsUpTo}, Merging.{IsMergeFaultOf, Merges}, Refusing.{IsTellFault, WritesFront}, Written.{IsTextOfSome, IsWritten}};

use crate::fault::MergeFault;
use crate::heads::Heads;
use crate::written::Written;
use pmf_device::{Sink, Source};
use pmf_ledger::{Form, Totals, order};
use pmf_verdict::Verdict;
use std::alloc::Global;
use std::cmp::Ordering;
use std::thread::Threads;

/// Merges the ledger texts of the sources, and writes their ledger in this form. The texts may have any length; the names
/// of their sections have to rise. What is told of a section is written once it is the least that waits.
///
/// Takes memory for a section and 16 KiB of each text, and for 64 KiB of what is written. The time grows with the bytes, and
/// with the sections times the logarithm of the number of texts.
///
/// With more than one worker, each section that stands whole in what was read of its text is checked again by one of so many threads,
/// before its turn. That takes memory for 64 MiB of all texts, and for what sections these hold.
pub fn merge_to<T: Threads + Sync, R: Source, W: Sink>(
    rt: &T,
    alloc: Global,
    workers: usize,
    sources: &mut Vec<R>,
    writer: &mut W,
    form: Form,
) -> Result<Totals, MergeFault>
    requires reads { All (λ s. CanCountOneMore (R.failed_calls s)) sources.old.items }
    requires writes { CanCountOneMore (W.failed_calls writer.old) }
    ensures merges { IfOk result (Merges form (map R.left sources.old.items) (W.held writer.old) (W.held writer.new)) }
    ensures refused { IfErr result (IsMergeFaultOf (map R.left sources.old.items)) }
    // What was written before is a front of the text of some sections.
    ensures front { IfErr result (λ found. WritesFront (IsTextOfSome form) (W.held writer.old) (W.held writer.new)) }
{
    let mut heads = Heads::begin(rt, alloc, workers, sources)?;
    let mut written = match Written::begin(alloc, form, heads.profile) {
        Ok(written) => written,
        Err(_) => return Err(MergeFault::OutOfMemory),
    };
    let mut last: Option<Verdict> = None;
    let mut steps: u64 = 0;
    while let Some(index) = heads.least() {
        let Some(more) = steps.checked_add(1) else {
            return Err(MergeFault::OutOfMemory);
        };
        steps = more;
        if let Some(verdict) = &heads.heads[index] {
            tell(&mut written, writer, &last, verdict)?;
        }
        last = heads.advance(rt, alloc, &mut sources[index], index)?;
    }
    written.end(writer)
}

// Tells the section, if it isn't the last that was told.
fn tell<W: Sink>(
    written: &mut Written,
    writer: &mut W,
    last: &Option<Verdict>,
    verdict: &Verdict,
) -> Result<(), MergeFault>
    requires counted { CanCountOneMore (W.failed_calls writer.old) }
    requires after { (out : List Checked) × IsLast out last.now × ((c : Checked) → Contains out c → IsUpTo c.section.name verdict.now.section.name) }
    ensures told { (form : Form) (profile : Profile) (held : Option (List ℕ)) (out : List Checked)
        → IsWritten form profile held (W.held writer.old) out written.old → IsLast out last.now → Rises out
        → All (λ (c : Checked). c.profile ≡ profile) out → verdict.now.profile ≡ profile
        → OnOk result ((new : List Checked) × HasTold out verdict.now new × IsLast new (Some verdict.now)
        × IsWritten form profile held (W.held writer.new) new written.new) }
    ensures front { (form : Form) (profile : Profile) (held : Option (List ℕ)) (out : List Checked)
        → IsWritten form profile held (W.held writer.old) out written.old → IfErr result (λ found. WritesFront (IsTextOfSome form) held (W.held writer.new)) }
    ensures refused { IfErr result (IsTellFault last.now verdict.now) }
    ensures counted { OnOk result (W.failed_calls writer.new ≡ W.failed_calls writer.old) }
{
    if is_new(last, verdict)? {
        written.tell(writer, verdict)
    } else {
        Ok(())
    }
}

// Whether the section comes after the last that was told; else it is that one.
fn is_new(last: &Option<Verdict>, verdict: &Verdict) -> Result<bool, MergeFault>
    requires { (out : List Checked) × IsLast out last.now × ((c : Checked) → Contains out c → IsUpTo c.section.name verdict.now.section.name) }
    ensures new { result ≡ Ok true → (l : Checked) → last.now ≡ Some l → IsBefore l.section.name verdict.now.section.name }
    ensures refused { IfErr result (IsTellFault last.now verdict.now) }
    ensures same { result ≡ Ok false → (l : Checked) × (last.now ≡ Some l) × (l.section ≡ verdict.now.section) }
{
    let Some(last) = last else {
        return Ok(true);
    };
    match order(last.name(), verdict.name()) {
        Ordering::Less => Ok(true),
        Ordering::Equal => {
            if last.same_section(verdict) {
                Ok(false)
            } else {
                Err(MergeFault::Conflict {
                    name: verdict.name(),
                })
            }
        }
        Ordering::Greater => unreachable!(),
    }
}
