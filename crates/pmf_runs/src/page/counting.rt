//! What tests count in a page.

use crate::page::Page;
use crate::state::State;

impl<S: State> Page<S> {
    /// How many keys its leaf has.
    pub(crate) fn key_count(&self) -> usize {
        self.leaf.key_count()
    }

    /// The most elements that one of its leaf's lists has room for.
    pub(crate) fn room(&self) -> usize {
        self.leaf.room()
    }
}
