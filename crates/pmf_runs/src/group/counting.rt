//! What tests count in a group.

use crate::flagged::Flagged;
use crate::group::Group;
use crate::page::Page;
use crate::state::State;

impl<S: State> Group<S> {
    /// Its pages.
    pub(crate) fn pages(&self) -> &[Flagged<Page<S>>] {
        self.level.parts()
    }

    /// The most elements that one of its level's lists has room for.
    pub(crate) fn room(&self) -> usize {
        self.level.room()
    }
}
