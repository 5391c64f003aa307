//! The name of a section.

/// The name of a section: the run that it belongs to, and its number in that run's log.
///
/// Names are ordered by run, then by number.
#[derive(Clone, Copy, Debug, PartialEq, Eq, PartialOrd, Ord, Hash)]
pub struct Name {
    /// The run, as the caller numbers it.
    pub run: u64,
    /// The number that the section's marker gives.
    pub number: u64,
}
