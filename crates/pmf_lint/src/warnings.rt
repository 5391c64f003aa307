//! Why a log may not be what its user believes it is.

ghost use Rattle.std.specs.Prelude.{◌≡◌};
ghost use Rattle.pmf_lint.specs.Warnings.{are_due, asserts_nothing, checks_nothing};

use crate::summing::Sums;

/// The warnings of a log: which of them are due.
#[derive(Clone, Copy, Debug, PartialEq, Eq)]
pub struct Warnings {
    /// Nothing is asserted, so that a check of the log says nothing of the program.
    pub asserts_nothing: bool,
    /// Something is asserted, and no assertion had anything to check.
    pub checks_nothing: bool,
    /// The name of a skipped record is near to a known name, as a misspelt one is ([`crate::near`]).
    pub has_near: bool,
    /// The name of a skipped record is not text ([`pmf_query::is_text`]), as in a packed log, in UTF-16, or behind a byte order mark.
    pub has_strange: bool,
    /// No end stands behind the last record, and it is not `STOP`: the log may be cut off.
    pub is_open_ended: bool,
    /// `START` stands without `STOP`: the log may be cut off.
    pub lacks_stop: bool,
    /// An assertion that writes an address in decimal had nothing to check, and would have had if its address, or each of its two, were
    /// hexadecimal.
    pub is_misread: bool,
}

impl Warnings {
    /// Whether one of them is due.
    #[tactic(auto, unfolding(crate::specs::Warnings::are_due))]
    pub fn are_due(&self) -> bool
        ensures { result ≡ are_due self.now }
    {
        if self.asserts_nothing || self.checks_nothing || self.has_near || self.has_strange {
            return true;
        }
        self.is_open_ended || self.lacks_stop || self.is_misread
    }
}

impl Sums {
    /// Whether no event asserts anything.
    #[tactic(auto, unfolding(crate::specs::Warnings::asserts_nothing))]
    pub fn asserts_nothing(&self) -> bool
        ensures { result ≡ asserts_nothing self.now }
    {
        self.assertions == 0
    }

    /// Whether something is asserted, and no assertion had anything to check.
    #[tactic(auto, unfolding(crate::specs::Warnings::checks_nothing))]
    pub fn checks_nothing(&self) -> bool
        ensures { result ≡ checks_nothing self.now }
    {
        self.assertions != 0 && self.empty == self.assertions
    }
}
