//! What a byte lacks that had to be durable.

/// What a byte lacks that had to be durable by some place: its own line has to be written back behind its last store, and a fence
/// has to follow, in front of that place. Places are those of events, counted from 1.
#[derive(Clone, Copy, Debug, PartialEq, Eq)]
pub enum Lack {
    /// It was stored to behind that place.
    StoredBehind,
    /// The store that had to come after it is its own.
    OneStore,
    /// No write-back of its line follows the store.
    NotWrittenBack,
    /// The first one comes behind that place.
    WrittenBackLate {
        /// The write-back.
        by: u32,
    },
    /// No fence follows the write-back.
    NotFenced {
        /// The write-back.
        by: u32,
    },
    /// The first one comes behind that place.
    FencedLate {
        /// The write-back.
        by: u32,
        /// The fence.
        fence: u32,
    },
}
