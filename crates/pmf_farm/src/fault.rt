//! Why a farm did not run.

use pmf_event::Name;
use std::alloc::AllocError;
use std::error::Error;
use std::fmt;

/// Why a farm did not run: the first that applies, in this order.
#[derive(Clone, Copy, Debug, PartialEq, Eq)]
pub enum FarmFault {
    /// No worker was asked for.
    NoWorkers,
    /// More than 64 workers were asked for.
    TooManyWorkers,
    /// More than 65,536 sections were handed in.
    TooManySections,
    /// This name, the least of its kind, stands twice among the sections.
    TwiceNamed {
        /// The name.
        name: Name,
    },
    /// Memory was refused to the caller's own thread.
    OutOfMemory,
}

impl fmt::Display for FarmFault {
    ghost use Rattle.std.specs.Prelude.{Some};
    ghost use Rattle.pmf_farm.specs.FaultText.{text_of_fault};

    ghost output = { λ fault. Some (text_of_fault fault) };

    fn fmt<W: fmt::Write>(&self, f: &mut fmt::Formatter<W>) -> fmt::Result {
        match self {
            FarmFault::NoWorkers | FarmFault::TooManyWorkers => {
                f.write_str("workers must be 1 to 64")
            }
            FarmFault::TooManySections => f.write_str("too many sections"),
            FarmFault::TwiceNamed { name } => {
                write!(f, "section {}.{}: handed in twice", name.run, name.number)
            }
            FarmFault::OutOfMemory => f.write_str("out of memory"),
        }
    }
}

impl Error for FarmFault {}

impl From<AllocError> for FarmFault {
    ghost use Rattle.std.specs.Prelude.{◌≡◌};
    ghost use Rattle.pmf_farm.specs.declared.fault.FarmFault.TheVariants.{OutOfMemory};

    ghost from_gives = { λ _ fault. fault ≡ OutOfMemory };

    fn from(_refused: AllocError) -> FarmFault {
        FarmFault::OutOfMemory
    }
}
