//! What tests count in a part that may be yet to be given a flag.

use crate::flagged::Flagged;

impl<P> Flagged<P> {
    /// The part.
    pub(crate) fn part(&self) -> &P {
        &self.part
    }
}
