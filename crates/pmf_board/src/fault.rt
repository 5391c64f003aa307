//! Why a call on a board was refused.

use thiserror::Error;

/// Why a call was refused. [`crate::Board::new`] answers the first that applies, in the order of the first three.
#[derive(Clone, Copy, Debug, PartialEq, Eq, Error)]
pub enum BoardFault {
    /// A board of no section was asked for.
    #[error("no sections")]
    NoSections,
    /// A board of more than 65,536 sections was asked for.
    #[error("too many sections")]
    TooMany,
    /// Memory was refused.
    #[error("out of memory")]
    OutOfMemory,
    /// The pass holds one share, and can't be split.
    #[error("no share to give")]
    Crowded,
    /// The pass holds fewer than all shares: others are out.
    #[error("shares are out")]
    SharesOut,
}
