//! What tests count in a map.

use crate::runs::RunMap;
use crate::state::State;

impl<S: State> RunMap<S> {
    /// How many groups it has.
    pub(crate) fn group_count(&self) -> usize {
        let mut count = 0usize;
        if let Some(root) = &self.root {
            count = root.parts().len();
        }
        count
    }

    /// How many leaves its groups have.
    pub(crate) fn leaf_count(&self) -> usize {
        let mut count = 0usize;
        if let Some(root) = &self.root {
            for group in root.parts() {
                count = count.wrapping_add(group.part().pages().len());
            }
        }
        count
    }

    /// The most elements that a list of its groups and leaves has room for.
    pub(crate) fn most_room(&self) -> usize {
        let mut most = 0usize;
        if let Some(root) = &self.root {
            for group in root.parts() {
                most = most.max(group.part().room());
                for page in group.part().pages() {
                    most = most.max(page.part().room());
                }
            }
        }
        most
    }

    /// How many keys its leaves have.
    pub(crate) fn key_count(&self) -> usize {
        let mut count = 0usize;
        if let Some(root) = &self.root {
            for group in root.parts() {
                for page in group.part().pages() {
                    count = count.wrapping_add(page.part().key_count());
                }
            }
        }
        count
    }
}
