//! The files that a request names.

ghost use Rattle.std.specs.Prelude.{◌≡◌, ◌<◌, ◌^◌, ℕ, List, Option, None, IfOk};
ghost use Rattle.pmf_command.specs.Answered.{IsFileOf, IsReadOf};

use pmf_device::{Device, Source, StdSource};
use pmf_stream::{StreamFault, read_all};
use std::alloc::Global;
use std::fs::Files;
use std::io::{ErrorKind, Read};
use std::{fs, io};

/// Why a file is not read.
#[derive(Clone, Copy, Debug)]
pub(crate) enum Unread {
    /// It is not there, or a read failed: with what the system said, where that is known.
    Failed(Option<io::Error>),
    /// Room was refused.
    OutOfMemory,
}

/// Files by their names.
pub(crate) trait Shelf {
    /// A file that is read.
    type File: Source + Drop;

    // The bytes of the file with this name, where they are known.
    ghost bytes: { Self → List ℕ → Option (List ℕ) };

    /// Opens the file with this name.
    fn open(&self, name: &str) -> Result<Self::File, Unread>
        ensures known { IfOk result (λ file. IsFileOf (bytes self.now name.now) (Self.File.left file)) }
        ensures fresh { IfOk result (λ file. Self.File.failed_calls file ≡ 0) };
}

/// The files of the machine.
#[derive(Drop)]
pub(crate) struct OnDisk<'a, R> {
    pub(crate) rt: &'a R,
}

impl<R: Files> Shelf for OnDisk<'_, R> {
    type File = StdSource<R::File>;

    ghost bytes = { λ _ _. None };

    fn open(&self, name: &str) -> Result<StdSource<R::File>, Unread> {
        match fs::open(self.rt, name) {
            Ok(file) => Ok(StdSource::new(file)),
            Err(error) if error.kind() == ErrorKind::OutOfMemory => Err(Unread::OutOfMemory),
            Err(error) => Err(Unread::Failed(Some(error))),
        }
    }
}

/// The bytes of the file, at most one more than the limit.
pub(crate) fn bytes_of<F: Shelf>(
    shelf: &F,
    alloc: Global,
    name: &str,
    limit: usize,
) -> Result<Vec<u8>, Unread>
    requires { limit < 2 ^ 63 }
    ensures { IfOk result (λ text. IsReadOf limit (F.bytes shelf.now name.now) text.items) }
{
    let mut file = match shelf.open(name) {
        Ok(file) => file,
        Err(why) => return Err(why),
    };
    match read_all::<F::File, ()>(alloc, &mut file, limit) {
        Ok(text) => Ok(text),
        Err(StreamFault::OutOfMemory) => Err(Unread::OutOfMemory),
        Err(_) => Err(Unread::Failed(file.reason())),
    }
}
