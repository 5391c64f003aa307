//! Why there is no such world.

ghost use Rattle.std.specs.Prelude.{◌≡◌};

use pmf_event::Name;
use std::alloc::AllocError;
use std::error::Error;
use std::fmt;

/// The most ledgers that a world can have.
pub const MOST_LEDGERS: u32 = 64;

/// Why a world was not made: the first that applies, in this order.
#[derive(Clone, Copy, Debug, PartialEq, Eq)]
pub enum WorldNewFault {
    /// No worker was asked for.
    NoWorkers,
    /// More than 64 workers were asked for.
    TooManyWorkers,
    /// More than 65,536 sections were handed in.
    TooManySections,
    /// This name, the least of its kind, stands twice among the sections.
    TwiceNamed {
        /// The name.
        name: Name,
    },
    /// More than 64 ledgers were asked for.
    TooManyLedgers,
    /// Memory was refused.
    OutOfMemory,
}

impl fmt::Display for WorldNewFault {
    ghost use Rattle.std.specs.Prelude.{Some};
    ghost use Rattle.pmf_world.specs.FaultText.{text_of_new};

    ghost output = { λ fault. Some (text_of_new fault) };

    fn fmt<W: fmt::Write>(&self, f: &mut fmt::Formatter<W>) -> fmt::Result {
        match self {
            WorldNewFault::NoWorkers | WorldNewFault::TooManyWorkers => {
                f.write_str("workers must be 1 to 64")
            }
            WorldNewFault::TooManySections => f.write_str("too many sections"),
            WorldNewFault::TwiceNamed { name } => {
                write!(f, "section {}.{}: handed in twice", name.run, name.number)
            }
            WorldNewFault::TooManyLedgers => f.write_str("ledgers must be 0 to 64"),
            WorldNewFault::OutOfMemory => f.write_str("out of memory"),
        }
    }
}

impl Error for WorldNewFault {}

impl From<AllocError> for WorldNewFault {
    ghost use Rattle.pmf_world.specs.declared.fault.WorldNewFault.TheVariants.{OutOfMemory};

    ghost from_gives = { λ _ fault. fault ≡ OutOfMemory };

    fn from(_refused: AllocError) -> WorldNewFault {
        WorldNewFault::OutOfMemory
    }
}
