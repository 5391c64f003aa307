//! What tests count in a leaf.

use crate::leaf::Leaf;

impl<S> Leaf<S> {
    /// How many keys it has.
    pub(crate) fn key_count(&self) -> usize {
        self.keys.len()
    }

    /// The most elements that one of its lists has room for.
    pub(crate) fn room(&self) -> usize {
        self.keys.capacity().max(self.states.capacity())
    }
}
