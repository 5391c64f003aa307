//! The files that a log is cut into.

ghost use Rattle.std.specs.Prelude.{◌≡◌, ◌+◌, None};
ghost use Rattle.pmf_device.specs.Failures.{CanCountOneMore};
ghost use Rattle.pmf_stream.specs.Files.{failed_files};

use crate::diagnostics::fail_file;
use crate::status::Status;
use pmf_device::{Device, Failed, Sink};
use pmf_stream::{NoFile, Outlet, write_whole};
use std::alloc::Global;
use std::fs::{Files, OpenOptions};
use std::io::{Eprint, ErrorKind, Write};
use std::{fs, io};

/// Files whose names begin alike: behind that a file's number, from 1 on, and `.log`. One is open at a time. A file that was there before
/// is refused, so that no piece of another log stands among them.
#[derive(Drop)]
pub struct NumberedFiles<'a, R: Files + Eprint> {
    rt: &'a R,
    alloc: Global,
    prefix: &'a str,
    /// How many there are.
    count: usize,
    /// The one that is open.
    current: usize,
    file: Option<R::File>,
    failures: u64,
}

/// Files whose names begin alike.
pub trait Prefixed<'a>: Outlet {
    /// From now on the files' names begin so.
    fn begin_names(&mut self, prefix: &'a str)
        ensures held { Self.held_in self.new ≡ Self.held_in self.old }
        ensures counted { Self.failed_calls self.new ≡ Self.failed_calls self.old };
}

impl<'a, R: Files + Eprint> NumberedFiles<'a, R> {
    /// No file yet.
    pub fn new(rt: &'a R, alloc: Global) -> NumberedFiles<'a, R>
        ensures { result.failures ≡ 0 }
    {
        NumberedFiles {
            rt,
            alloc,
            prefix: "",
            count: 0,
            current: 0,
            file: None,
            failures: 0,
        }
    }

    // Opens a file at its end, or makes it.
    fn open(&self, file: usize) -> Result<R::File, NoFile> {
        let number = file.saturating_add(1);
        let prefix = self.prefix;
        let Ok(name) = format!(in self.alloc; "{prefix}{number}.log") else {
            return Err(NoFile::OutOfMemory);
        };
        let is_new = file >= self.count;
        match open_apart(self.rt, name.as_str(), is_new) {
            Ok(opened) => Ok(opened),
            Err(error) if error.kind() == ErrorKind::OutOfMemory => Err(NoFile::OutOfMemory),
            Err(error) if error.kind() == ErrorKind::AlreadyExists => {
                fail_file(
                    self.rt,
                    name.as_str(),
                    "the file is there already",
                    Status::DeviceFault,
                );
                Err(NoFile::Failed { written: 0 })
            }
            Err(_) => {
                fail_file(
                    self.rt,
                    name.as_str(),
                    "the file is not opened",
                    Status::DeviceFault,
                );
                Err(NoFile::Failed { written: 0 })
            }
        }
    }

    // From now on this file is written to, at its end.
    fn turn_to(&mut self, file: usize) -> Result<(), NoFile>
        requires { CanCountOneMore self.old.failures }
        ensures { self.new.failures ≡ self.old.failures + failed_files result }
    {
        if self.file.is_some() && self.current == file {
            return Ok(());
        }
        self.file = None;
        match self.open(file) {
            Ok(opened) => {
                self.file = Some(opened);
                self.current = file;
                self.count = self.count.max(file.saturating_add(1));
                Ok(())
            }
            Err(NoFile::OutOfMemory) => Err(NoFile::OutOfMemory),
            Err(refusal) => {
                self.failures += 1;
                Err(refusal)
            }
        }
    }
}

// Opens a file at its end, a new one if so. A standard stream that is closed does not become this file, so that nothing is written to it
// but what is meant for it: all three are open, or folders in their places, meanwhile.
fn open_apart<R: Files>(rt: &R, name: &str, is_new: bool) -> io::Result<R::File> {
    let _first = fs::open(rt, "/")?;
    let _second = fs::open(rt, "/")?;
    let _third = fs::open(rt, "/")?;
    OpenOptions::new()
        .append(true)
        .create_new(is_new)
        .open(rt, name)
}

impl<R: Files + Eprint> Device for NumberedFiles<'_, R> {
    ghost failed_calls = { λ s. s.failures };

    fn failures(&self) -> u64 {
        self.failures
    }
}

impl<R: Files + Eprint> Sink for NumberedFiles<'_, R> {
    ghost held = { λ s. None };

    fn write(&mut self, bytes: &[u8]) -> Result<usize, Failed> {
        if let Some(file) = &mut self.file {
            match file.write(bytes) {
                Ok(count) if count > 0 || bytes.is_empty() => return Ok(count),
                _ => {}
            }
        }
        self.failures += 1;
        Err(Failed)
    }
}

impl<R: Files + Eprint> Outlet for NumberedFiles<'_, R> {
    ghost held_in = { λ s file. None };

    fn write_to(&mut self, file: usize, text: &[u8]) -> Result<(), NoFile> {
        self.turn_to(file)?;
        write_whole(self, text)
    }
}

impl<'a, R: Files + Eprint> Prefixed<'a> for NumberedFiles<'a, R> {
    fn begin_names(&mut self, prefix: &'a str) {
        self.prefix = prefix;
    }
}
