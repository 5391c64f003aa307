//! A row with its cause, in its section.

use crate::plan::Plan;
use pmf_cause::Cause;
use pmf_event::Row;
use pmf_query::Located;
use pmf_verdict::Verdict;

/// A section that is told of.
#[derive(Clone, Copy)]
pub(crate) struct Taken<'a, 'b> {
    pub(crate) verdict: &'b Verdict,
    /// Where its events stand in the log.
    pub(crate) stands: &'b [Located<'a>],
    pub(crate) plan: &'b Plan,
}

/// A row that counts as fail or as a warning.
#[derive(Clone, Copy)]
pub(crate) struct BadRow<'a, 'b> {
    pub(crate) taken: Taken<'a, 'b>,
    pub(crate) row: Row,
    pub(crate) cause: Cause,
}
