//! How the rows of sections count.

ghost use Rattle.std.specs.Prelude.{◌≡◌, ◌-◌, ◌^◌, [], ◌∷◌};
ghost use Rattle.pmf_verdict.specs.Outcome.{outcome_of};
ghost use Rattle.pmf_ledger.specs.Report.{IsWithin, both, totals_of};

use pmf_event::Row;
use pmf_verdict::{Outcome, Verdict, outcome_of};

/// How many sections there are, and how many of their rows count how.
#[derive(Clone, Copy, Debug, PartialEq, Eq)]
pub struct Totals {
    /// The sections.
    pub sections: u64,
    /// Rows that show an assertion as kept.
    pub pass: u128,
    /// Rows that show one as not kept, or a transaction or a marker as out of order.
    pub fail: u128,
    /// Rows that show time as lost.
    pub warn: u128,
    /// Rows of assertions that had nothing to check.
    pub empty: u128,
}

impl Totals {
    /// Of no section.
    #[tactic(auto, unfolding(crate::specs::Report::totals_of, crate::specs::Report::rows_with_in))]
    pub(crate) fn none() -> Totals
        ensures { result ≡ totals_of [] }
    {
        Totals {
            sections: 0,
            pass: 0,
            fail: 0,
            warn: 0,
            empty: 0,
        }
    }

    /// Of the verdict's section alone. Looks through its rows once.
    #[tactic(auto, using(std::proofs::lemmas::Grind::common_steps, crate::proofs::lemmas::CountLemmas::totals_of_one))]
    pub(crate) fn of(verdict: &Verdict) -> Totals
        ensures value { result ≡ totals_of (verdict.now ∷ []) }
        ensures small { IsWithin 1 (2 ^ 64) result }
    {
        let mut pass = 0;
        let mut fail = 0;
        let mut warn = 0;
        let mut empty = 0;
        for row in verdict.rows() {
            match outcome_of_row(row) {
                Outcome::Pass => pass += 1,
                Outcome::Fail => fail += 1,
                Outcome::Warn => warn += 1,
                Outcome::Empty => empty += 1,
            }
        }
        Totals {
            sections: 1,
            pass,
            fail,
            warn,
            empty,
        }
    }

    /// Adds the sums of other sections.
    pub(crate) fn add(&mut self, more: Totals)
        requires { IsWithin (2 ^ 64 - 1) (2 ^ 128 - 1) (both self.old more) }
        ensures { self.new ≡ both self.old more }
    {
        self.sections += more.sections;
        self.pass += more.pass;
        self.fail += more.fail;
        self.warn += more.warn;
        self.empty += more.empty;
    }
}

fn outcome_of_row(row: &Row) -> Outcome
    ensures { result ≡ outcome_of row.now.finding }
{
    outcome_of(row.finding)
}
