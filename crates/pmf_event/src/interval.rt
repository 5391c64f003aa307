//! The persist interval of a byte.

/// The persist interval of a written byte: the epochs in which its last store may become durable.
///
/// An epoch is the number of fences before a place.
#[derive(Clone, Copy, Debug, PartialEq, Eq)]
pub struct Interval {
    /// The place of the last store of the byte.
    pub last: u32,
    /// The epoch of that store.
    pub opens: u32,
    /// The epoch after the first fence that completed a write-back made after that store.
    pub closes: Option<u32>,
}
