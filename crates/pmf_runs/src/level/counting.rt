//! What tests count in a level.

use crate::level::Level;

impl<P> Level<P> {
    /// Its parts.
    pub(crate) fn parts(&self) -> &[P] {
        &self.parts
    }

    /// The most elements that one of its lists has room for.
    pub(crate) fn room(&self) -> usize {
        self.keys.capacity().max(self.parts.capacity())
    }
}
