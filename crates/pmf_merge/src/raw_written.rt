//! The text of the blocks that were told as they stand, as far as it is not written.

ghost use Rattle.std.specs.Prelude.{◌≡◌, ◌↔◌, ◌∷◌, ◌++◌, [], ℕ, List, Option, Some, Contains, IfOk, IfErr, IsTrue, OnOk};
ghost use Rattle.std.specs.Io.KnownBytes.{Appends};
ghost use Rattle.pmf_device.specs.Failures.{CanCountOneMore};
ghost use Rattle.pmf_event.specs.declared.profile.Profile.{Profile};
ghost use Rattle.pmf_ledger.specs.RawText.{RawBlock, RawNamesRise, text_on_trust};
ghost use Rattle.pmf_merge.specs.{Heads.{IsUpTo}, RawWritten.{AddsRaw, IsRawTellFault, IsRawWritten, IsTextOfBlocks}, Refusing.{IsOfNoText, WritesFront}};

use crate::fault::MergeFault;
use crate::written::fault_of;
use pmf_device::{Page, Sink};
use pmf_event::{Name, Profile};
use pmf_ledger::{push_end, trusted_version};
use std::alloc::{AllocError, Global};

/// How many bytes are kept before they are written.
const ROOM: usize = 65_536;

/// The text of the blocks that were told. A front of it was written, and the rest is kept.
#[derive(Drop)]
pub(crate) struct RawWritten {
    page: Page,
    rest: Vec<u8>,
    /// The name of the last block that was told, and its bytes.
    name: Option<Name>,
    last: Vec<u8>,
    /// How many were told.
    count: u64,
}

impl RawWritten {
    /// No block yet.
    pub(crate) fn begin(alloc: Global, profile: Profile) -> Result<RawWritten, AllocError>
        ensures { IfOk result (λ written. (held : Option (List ℕ)) → IsRawWritten profile held held [] written) }
    {
        let mut rest = Vec::new(alloc);
        rest.extend_from_slice(trusted_version(profile).as_bytes())?;
        rest.extend_from_slice(b"\n")?;
        Ok(RawWritten {
            page: Page::new(),
            rest,
            name: None,
            last: Vec::new(alloc),
            count: 0,
        })
    }

    /// Tells one block more, if it isn't the last that was told.
    pub(crate) fn tell<W: Sink>(
        &mut self,
        writer: &mut W,
        name: Name,
        block: &[u8],
    ) -> Result<(), MergeFault>
        requires { CanCountOneMore (W.failed_calls writer.old) }
        ensures told { (profile : Profile) (held : Option (List ℕ)) (out : List RawBlock) (v : RawBlock)
            → IsRawWritten profile held (W.held writer.old) out self.old → RawNamesRise out → v.name ≡ name → v.bytes ≡ block.now
            → ((c : RawBlock) → Contains out c → IsUpTo c.name v.name)
            → OnOk result ((new : List RawBlock) × AddsRaw out v new × IsRawWritten profile held (W.held writer.new) new self.new) }
        ensures front { (profile : Profile) (held : Option (List ℕ)) (out : List RawBlock)
            → IsRawWritten profile held (W.held writer.old) out self.old → IfErr result (λ found. WritesFront IsTextOfBlocks held (W.held writer.new)) }
        ensures refused { (profile : Profile) (held : Option (List ℕ)) (out : List RawBlock) (v : RawBlock)
            → IsRawWritten profile held (W.held writer.old) out self.old → v.name ≡ name → v.bytes ≡ block.now → IfErr result (IsRawTellFault out v) }
        ensures counted { OnOk result (W.failed_calls writer.new ≡ W.failed_calls writer.old) }
    {
        if self.is_last(name) {
            return if self.last.as_slice() == block {
                Ok(())
            } else {
                Err(MergeFault::Conflict { name })
            };
        }
        match self.add(name, block) {
            Ok(()) => {}
            Err(_) => return Err(MergeFault::OutOfMemory),
        }
        if self.rest.len() < ROOM {
            return Ok(());
        }
        self.write(writer)
    }

    // Whether the last block that was told has this name.
    fn is_last(&self, name: Name) -> bool
        ensures { IsTrue result ↔ (self.now.name ≡ Some name) }
    {
        match self.name {
            Some(last) => last == name,
            None => false,
        }
    }

    // Adds the block to what is kept.
    fn add(&mut self, name: Name, block: &[u8]) -> Result<(), AllocError>
        ensures { (profile : Profile) (held holds : Option (List ℕ)) (out : List RawBlock) → IsRawWritten profile held holds out self.old
            → OnOk result (IsRawWritten profile held holds (out ++ record { name = name; bytes = block.now } ∷ []) self.new) }
    {
        let Some(count) = self.count.checked_add(1) else {
            return Err(AllocError);
        };
        self.rest.extend_from_slice(block)?;
        self.last.clear();
        self.last.extend_from_slice(block)?;
        self.name = Some(name);
        self.count = count;
        Ok(())
    }

    /// Tells the end.
    pub(crate) fn end<W: Sink>(mut self, alloc: Global, writer: &mut W) -> Result<(), MergeFault>
        requires { CanCountOneMore (W.failed_calls writer.old) }
        ensures refused { IfErr result IsOfNoText }
        ensures written { (profile : Profile) (held : Option (List ℕ)) (out : List RawBlock) → IsRawWritten profile held (W.held writer.old) out self
            → OnOk result (Appends held (W.held writer.new) (text_on_trust profile out)) }
        ensures front { (profile : Profile) (held : Option (List ℕ)) (out : List RawBlock)
            → IsRawWritten profile held (W.held writer.old) out self → IfErr result (λ found. WritesFront IsTextOfBlocks held (W.held writer.new)) }
    {
        let mut end = String::new(alloc);
        match push_end(&mut end, self.count) {
            Ok(()) => {}
            Err(_) => return Err(MergeFault::OutOfMemory),
        }
        match self.rest.extend_from_slice(end.as_bytes()) {
            Ok(()) => {}
            Err(_) => return Err(MergeFault::OutOfMemory),
        }
        match self.page.put(writer, &self.rest) {
            Ok(()) => Ok(()),
            Err(stop) => Err(fault_of(stop)),
        }
    }

    // Writes what is kept.
    fn write<W: Sink>(&mut self, writer: &mut W) -> Result<(), MergeFault>
        requires { CanCountOneMore (W.failed_calls writer.old) }
        ensures written { (profile : Profile) (held : Option (List ℕ)) (out : List RawBlock) → IsRawWritten profile held (W.held writer.old) out self.old
            → OnOk result (IsRawWritten profile held (W.held writer.new) out self.new) }
        ensures front { (profile : Profile) (held : Option (List ℕ)) (out : List RawBlock)
            → IsRawWritten profile held (W.held writer.old) out self.old → IfErr result (λ found. WritesFront IsTextOfBlocks held (W.held writer.new)) }
        ensures refused { IfErr result IsOfNoText }
        ensures counted { OnOk result (W.failed_calls writer.new ≡ W.failed_calls writer.old) }
    {
        match self.page.put(writer, &self.rest) {
            Ok(()) => {}
            Err(stop) => return Err(fault_of(stop)),
        }
        self.rest.clear();
        Ok(())
    }
}
