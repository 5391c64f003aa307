//! What a worker of a world is doing.

/// What a worker of a world is doing. Sections are told by their place among those that the world was made of, from 0.
#[derive(Clone, Copy, Debug, PartialEq, Eq)]
pub enum Doing {
    /// It has nothing in its hand.
    Idle,
    /// It took the section, and has not checked it yet.
    HasTask {
        /// The section.
        section: u32,
    },
    /// It checked the section, and has the verdict in its hand.
    HasVerdict {
        /// The section.
        section: u32,
    },
    /// It sent the verdict of the section, which it has not marked yet.
    HasSent {
        /// The section.
        section: u32,
    },
    /// It was lost, for good.
    Gone,
}
