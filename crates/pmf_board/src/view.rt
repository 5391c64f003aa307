//! What a pass knows. It exists in the contracts alone.

use crate::entry::Entry;
use crate::task::Task;
use std::collections::LinkedList;

/// A section as it was found or left by a step.
pub struct Sight {
    pub section: u32,
    pub entry: Entry,
}

/// What a pass took, marked and saw, and its shares. No value of it is made.
pub struct View {
    pub took: LinkedList<Task>,
    pub marked: LinkedList<u32>,
    pub saw: LinkedList<Sight>,
    pub shares: u32,
}
