//! How the program ends.

ghost use Rattle.std.specs.Prelude.{◌≡◌};
ghost use Rattle.pmf_command.specs.Statuses.{exit_code_of, status_of_kind};

use clap::error::ErrorKind;

/// How the program ends. From [`Status::Refused`] on there is no verdict, or not all of its text.
#[derive(Clone, Copy, Debug, PartialEq, Eq)]
pub enum Status {
    /// No row counts as fail.
    NoFail,
    /// Some row counts as fail.
    SomeFail,
    /// The input or the command line was refused.
    Refused,
    /// Memory ran out.
    NoMemory,
    /// A read or a write failed.
    DeviceFault,
}

impl Status {
    /// The number that the program exits with.
    pub fn exit_code(self) -> u8
        ensures { result ≡ exit_code_of self }
    {
        match self {
            Status::NoFail => 0,
            Status::SomeFail => 1,
            Status::Refused => 2,
            Status::NoMemory => 3,
            Status::DeviceFault => 4,
        }
    }

    /// How the program ends where its words give no request but an error of this kind.
    pub fn of_kind(kind: ErrorKind) -> Status
        ensures { result ≡ status_of_kind kind }
    {
        match kind {
            ErrorKind::DisplayHelp | ErrorKind::DisplayVersion => Status::NoFail,
            ErrorKind::OutOfMemory => Status::NoMemory,
            _ => Status::Refused,
        }
    }
}
