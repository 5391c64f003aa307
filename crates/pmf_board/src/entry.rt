//! What stands of a section on the board.

/// What stands of a section: how often it was handed out, 0 to 8, and whether it is done.
#[derive(Clone, Copy, Debug, PartialEq, Eq)]
pub struct Entry {
    pub handouts: u32,
    pub done: bool,
}
