//! Why a stream was not answered.

ghost use Rattle.std.specs.Prelude.{◌≡◌};

use std::alloc::AllocError;
use std::error::Error;
use std::fmt::{self, Debug, Display};

/// Why a stream was not answered. `E` is what may go wrong besides reading, writing and memory.
#[derive(Clone, Copy, Debug, PartialEq, Eq)]
pub enum StreamFault<E> {
    /// A read of this call failed.
    ReadFault,
    /// What was read is refused, or lacks what is asked for.
    Refused(E),
    /// A write of this call failed, after this many bytes of the text.
    WriteFault { written: u64 },
    /// Room for what was read, checked or to be written was refused.
    OutOfMemory,
}

impl<E: Display> Display for StreamFault<E> {
    ghost use Rattle.pmf_stream.specs.FaultText.{text_of_stream};

    ghost output = { λ fault. text_of_stream E.output fault };

    fn fmt<W: fmt::Write>(&self, f: &mut fmt::Formatter<W>) -> fmt::Result {
        match self {
            StreamFault::ReadFault => f.write_str("read failed"),
            StreamFault::Refused(fault) => write!(f, "{fault}"),
            StreamFault::WriteFault { written } => {
                write!(f, "write failed after {written} bytes")
            }
            StreamFault::OutOfMemory => f.write_str("out of memory"),
        }
    }
}

impl<E: Debug + Display + Drop> Error for StreamFault<E> {}

impl<E> From<AllocError> for StreamFault<E> {
    ghost use Rattle.pmf_stream.specs.declared.fault.StreamFault.TheVariants.{OutOfMemory};

    ghost from_gives = { λ _ fault. fault ≡ OutOfMemory };

    fn from(_refused: AllocError) -> StreamFault<E> {
        StreamFault::OutOfMemory
    }
}
