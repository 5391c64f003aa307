//! How far what is told as a cure reaches.

/// How far what is told as a cure reaches.
#[derive(Clone, Copy, Debug, PartialEq, Eq)]
pub enum Way {
    /// No cure was found.
    NotFound,
    /// The row is cured by these changes alone, and by those for all rows of its section.
    Alone,
    /// The row is cured by the changes for all rows of its section, and these are some of them.
    WithAll,
}
