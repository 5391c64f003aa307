//! What a row asks for.

/// A byte that has to be durable by some place.
#[derive(Clone, Copy, Debug, PartialEq, Eq)]
pub struct Need {
    /// The byte.
    pub byte: u64,
    /// The place of its last store.
    pub last: u32,
    /// The place by which it has to be durable.
    pub due: u32,
}
