//! Why ledger texts were not merged.

use pmf_event::Name;
use pmf_ledger::BlockFault;

/// Why ledger texts were not merged: what comes first as they are read side by side. What was written then is a front of a text, without
/// its last text line.
#[derive(Clone, Copy, Debug, PartialEq, Eq)]
pub enum MergeFault {
    /// A read of the source of this index failed.
    Read {
        /// The index, counted from 0.
        index: usize,
    },
    /// The text of this index is refused.
    Text {
        /// The index, counted from 0.
        index: usize,
        /// Why.
        fault: BlockFault,
    },
    /// The text of this index is by another profile than the first.
    ProfileMismatch {
        /// The index, counted from 0.
        index: usize,
    },
    /// This section is held by two texts with other events, or, where they are merged on trust, with other bytes.
    Conflict {
        /// The section.
        name: Name,
    },
    /// A write failed, after this many bytes.
    Write {
        /// In bytes.
        written: u64,
    },
    /// Room was refused.
    OutOfMemory,
}
