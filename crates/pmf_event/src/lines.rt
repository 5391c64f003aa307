//! Some cache lines, told by the least and their number.

/// Some cache lines, at least one: the address of the least, and how many there are.
#[derive(Clone, Copy, Debug, PartialEq, Eq)]
pub struct Lines {
    /// The address of the first byte of the least line.
    pub least: u64,
    /// How many lines.
    pub count: u64,
}
