//! The text of the sections that were told, as far as it is not written.

ghost use Rattle.std.specs.Prelude.{◌≡◌, ◌++◌, ◌∷◌, ◌⊎◌, ◌+◌, [], ℕ, List, Option, Contains, IfOk, IfErr, MatchResult, OnOk, length, string_bytes};
ghost use Rattle.std.specs.Io.KnownBytes.{Appends};
ghost use Rattle.pmf_device.specs.Failures.{CanCountOneMore};
ghost use Rattle.pmf_event.specs.declared.profile.Profile.{Profile};
ghost use Rattle.pmf_verdict.specs.Checked.{Checked};
ghost use Rattle.pmf_ledger.specs.{declared.form.Form.{Form}, Report.{totals_of}, Telling.{parts_after, text_before, text_behind}};
ghost use Rattle.pmf_merge.specs.{Refusing.{IsOfNoText, WritesFront}, Written.{IsTextOfSome, IsWritten}};

use crate::fault::MergeFault;
use pmf_device::{Page, Sink, Stop};
use pmf_event::Profile;
use pmf_ledger::{Form, Teller, Totals};
use pmf_verdict::Verdict;
use std::alloc::{AllocError, Global};

/// How many bytes are kept before they are written.
const ROOM: usize = 65_536;

/// The text of the sections that were told. A front of it was written, and the rest is kept.
#[derive(Drop)]
pub(crate) struct Written {
    page: Page,
    rest: String,
    teller: Teller,
}

impl Written {
    /// No section yet.
    pub(crate) fn begin(alloc: Global, form: Form, profile: Profile) -> Result<Written, AllocError>
        ensures { IfOk result (λ written. (held : Option (List ℕ)) → IsWritten form profile held held [] written) }
    {
        let teller = Teller::new(form);
        let mut rest = String::new(alloc);
        teller.begin(&mut rest, profile)?;
        Ok(Written {
            page: Page::new(),
            rest,
            teller,
        })
    }

    /// Tells one section more.
    pub(crate) fn tell<W: Sink>(
        &mut self,
        writer: &mut W,
        verdict: &Verdict,
    ) -> Result<(), MergeFault>
        requires { CanCountOneMore (W.failed_calls writer.old) }
        ensures told { (form : Form) (profile : Profile) (held : Option (List ℕ)) (out : List Checked)
            → IsWritten form profile held (W.held writer.old) out self.old
            → OnOk result (IsWritten form profile held (W.held writer.new) (out ++ verdict.now ∷ []) self.new) }
        ensures front { (form : Form) (profile : Profile) (held : Option (List ℕ)) (out : List Checked)
            → IsWritten form profile held (W.held writer.old) out self.old → IfErr result (λ found. WritesFront (IsTextOfSome form) held (W.held writer.new)) }
        ensures refused { IfErr result IsOfNoText }
        ensures counted { OnOk result (W.failed_calls writer.new ≡ W.failed_calls writer.old) }
    {
        match self.teller.tell(&mut self.rest, verdict) {
            Ok(()) => {}
            Err(_) => return Err(MergeFault::OutOfMemory),
        }
        if self.rest.len() < ROOM {
            return Ok(());
        }
        self.write(writer)
    }

    /// Tells the end, and how the rows count.
    pub(crate) fn end<W: Sink>(mut self, writer: &mut W) -> Result<Totals, MergeFault>
        requires { CanCountOneMore (W.failed_calls writer.old) }
        ensures refused { IfErr result IsOfNoText }
        ensures written { (form : Form) (profile : Profile) (held : Option (List ℕ)) (out : List Checked)
            → IsWritten form profile held (W.held writer.old) out self
            → IfOk result (λ totals. (totals ≡ totals_of out)
            × Appends held (W.held writer.new) (text_before form profile ++ parts_after form [] out ++ text_behind form out)) }
        ensures front { (form : Form) (profile : Profile) (held : Option (List ℕ)) (out : List Checked)
            → IsWritten form profile held (W.held writer.old) out self → IfErr result (λ found. WritesFront (IsTextOfSome form) held (W.held writer.new)) }
    {
        match self.teller.end(&mut self.rest) {
            Ok(()) => {}
            Err(_) => return Err(MergeFault::OutOfMemory),
        }
        let totals = self.teller.totals();
        match self.page.put(writer, self.rest.as_bytes()) {
            Ok(()) => Ok(totals),
            Err(stop) => Err(fault_of(stop)),
        }
    }

    // Writes what is kept.
    fn write<W: Sink>(&mut self, writer: &mut W) -> Result<(), MergeFault>
        requires { CanCountOneMore (W.failed_calls writer.old) }
        ensures written { (form : Form) (profile : Profile) (held : Option (List ℕ)) (out : List Checked)
            → IsWritten form profile held (W.held writer.old) out self.old
            → OnOk result (IsWritten form profile held (W.held writer.new) out self.new) }
        ensures front { (form : Form) (profile : Profile) (held : Option (List ℕ)) (out : List Checked)
            → IsWritten form profile held (W.held writer.old) out self.old → IfErr result (λ found. WritesFront (IsTextOfSome form) held (W.held writer.new)) }
        ensures refused { IfErr result IsOfNoText }
        ensures counted { OnOk result (W.failed_calls writer.new ≡ W.failed_calls writer.old) }
    {
        match self.page.put(writer, self.rest.as_bytes()) {
            Ok(()) => {}
            Err(stop) => return Err(fault_of(stop)),
        }
        self.rest.clear();
        Ok(())
    }
}

pub(crate) fn fault_of(stop: Stop) -> MergeFault
    ensures { IsOfNoText result }
{
    match stop {
        Stop::Failed { written } => MergeFault::Write { written },
        Stop::OutOfMemory => MergeFault::OutOfMemory,
    }
}
