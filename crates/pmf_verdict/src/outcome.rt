//! How a row counts.

ghost use Rattle.std.specs.Prelude.{◌≡◌};
ghost use Rattle.pmf_verdict.specs.Outcome.{outcome_of};

use pmf_event::Finding;

/// How a row counts in a report.
#[derive(Clone, Copy, Debug, PartialEq, Eq)]
pub enum Outcome {
    /// The assertion is shown as kept.
    Pass,
    /// The assertion is not kept, or a transaction or a marker is out of order.
    Fail,
    /// Time was lost, and nothing else.
    Warn,
    /// There was nothing to check.
    Empty,
}

/// How a row with this finding counts.
pub fn outcome_of(finding: Finding) -> Outcome
    ensures { result ≡ outcome_of finding }
{
    match finding {
        Finding::PersistPass => Outcome::Pass,
        Finding::PersistFail { .. } => Outcome::Fail,
        Finding::PersistEmpty => Outcome::Empty,
        Finding::OrderedPass => Outcome::Pass,
        Finding::OrderedFail { .. } => Outcome::Fail,
        Finding::OrderedSameLine { .. } => Outcome::Fail,
        Finding::OrderedEmpty => Outcome::Empty,
        Finding::FlushDoubled { .. } => Outcome::Warn,
        Finding::FlushNeedless { .. } => Outcome::Warn,
        Finding::NoBackup { .. } => Outcome::Fail,
        Finding::DupLog { .. } => Outcome::Warn,
        Finding::CheckPass => Outcome::Pass,
        Finding::CheckFail { .. } => Outcome::Fail,
        Finding::TxStillOpen { .. } => Outcome::Fail,
        Finding::Unmatched => Outcome::Fail,
        Finding::Outside => Outcome::Fail,
        Finding::Nested => Outcome::Fail,
        Finding::Unopened => Outcome::Fail,
        Finding::Unclosed { .. } => Outcome::Fail,
    }
}
