//! Why a log is not cut.

ghost use Rattle.std.specs.Prelude.{◌≡◌};

use pmf_storelog::LogFault;
use std::alloc::{AllocError, AllocFailed};
use thiserror::Error;

/// Why a log is not cut.
#[derive(Clone, Copy, Debug, PartialEq, Eq, Error)]
pub enum CutFault {
    /// The log is refused, as `check` refuses it, but for the length of a section that could be cut.
    #[error("{0}")]
    Log(LogFault),
    /// The next piece of the section would have a number of 2^64 or more.
    #[error("record {at}: the next piece of section {section} has no number: choose another --step")]
    NoNumber {
        /// The number of the record, counted from 1.
        at: u64,
        /// The section's number.
        section: u64,
    },
    /// A section has the number of a piece of another one.
    #[error("record {at}: a piece of section {section} has the number {number}: choose another --step")]
    Taken {
        /// The number of the record, counted from 1.
        at: u64,
        /// The section of which there is a piece of this number.
        section: u64,
        /// The number.
        number: u64,
    },
    /// Room was refused.
    #[error("out of memory")]
    OutOfMemory,
}

impl From<AllocError> for CutFault {
    ghost use Rattle.pmf_cut.specs.declared.fault.CutFault.TheVariants.{OutOfMemory};

    ghost from_gives = { λ _ e. e ≡ OutOfMemory };

    fn from(_refused: AllocError) -> CutFault {
        CutFault::OutOfMemory
    }
}

impl<T: Drop> From<AllocFailed<T>> for CutFault {
    ghost use Rattle.pmf_cut.specs.declared.fault.CutFault.TheVariants.{OutOfMemory};

    ghost from_gives = { λ _ e. e ≡ OutOfMemory };

    fn from(_refused: AllocFailed<T>) -> CutFault {
        CutFault::OutOfMemory
    }
}
