//! The cause of a row, from what is kept of the events in front of it and behind it.

ghost use Rattle.std.specs.Prelude.{◌≡◌, ◌≤◌, ℕ, suc, true, false, None, Some, List, if◌then◌else◌, nat_lt, length, IfOk, OnOk};
ghost use Rattle.pmf_event.specs.{declared.event.Event.{Event}, declared.section.TheConstants.{EVENT_LIMIT}, Line.{line_of_byte}, Store.{last_store}};
ghost use Rattle.pmf_cause.specs.{Cause.{begun_at, cause_at, cause_of, lack_by, need_at, of_need, write_back_after}, Past.{IsPast}, Later.{AreFences, asked, asks_byte, behind_row}, Laws.{asks_why}, Watching.{Asks, has_line}};
ghost use Rattle.pmf_verdict.specs.Outcome.{outcome_of};

use crate::cause::Cause;
use crate::lack::Lack;
use crate::need::Need;
use crate::past::Past;
use pmf_event::{Event, Events, Finding, Row};
use pmf_verdict::{Outcome, outcome_of};
use std::alloc::AllocError;

impl Past {
    /// The cause of the row, behind whose place nothing was passed. The line of the byte that it asks for, if it does, is written back
    /// first at `written_back`, of the places that do not come before the row, and `fences` has the first fence behind each place, from
    /// the last one on.
    pub(crate) fn cause_of(
        &mut self,
        events: &Events,
        row: &Row,
        written_back: u32,
        fences: &[u32],
    ) -> Result<Option<Cause>, AllocError>
        requires past { IsPast self.old events.now }
        requires asks { Asks self.old.watch row.now.finding }
        requires before { suc self.old.place ≤ row.now.place }
        requires within { row.now.place ≤ suc (length events.now) }
        requires few { length events.now ≤ EVENT_LIMIT }
        requires behind { asks_byte row.now.finding ≡ true → written_back ≡ behind_row events.now row.now }
        requires fences { asks_byte row.now.finding ≡ true → AreFences events.now fences.now }
        ensures is { IfOk result (λ cause. cause ≡ cause_of events.now row.now) }
        ensures past { OnOk result (IsPast self.new events.now) }
        ensures watch { OnOk result (self.new.watch ≡ self.old.watch) }
        ensures place { OnOk result (suc self.new.place ≤ row.now.place) }
    {
        if !asks_why(row.finding) {
            return Ok(None);
        }
        self.go_to(events, row.place - 1)?;
        Ok(self.cause(events, row.finding, written_back, fences))
    }

    // The cause of what is found of the next event, or at the section's end.
    #[tactic(auto, using(crate::proofs::JudgingLemmas::by_need, crate::proofs::JudgingLemmas::need_asks))]
    fn cause(
        &self,
        events: &Events,
        finding: Finding,
        written_back: u32,
        fences: &[u32],
    ) -> Option<Cause>
        requires past { IsPast self.now events.now }
        requires asks { Asks self.now.watch finding }
        requires within { self.now.place ≤ length events.now }
        requires few { length events.now ≤ EVENT_LIMIT }
        requires behind { asks_byte finding ≡ true → written_back ≡ write_back_after events.now (line_of_byte (asked finding)) self.now.place }
        requires fences { asks_byte finding ≡ true → AreFences events.now fences.now }
        ensures { result ≡ cause_at events.now self.now.place finding }
    {
        match self.need(finding) {
            Some(need) => self.not_durable(events, need, written_back, fences),
            None => self.misplaced(finding),
        }
    }

    // What the finding asks for.
    #[tactic(auto, unfolding(crate::specs::Cause::need_at, crate::specs::Watching::Asks))]
    fn need(&self, finding: Finding) -> Option<Need>
        requires { self.now.place ≤ EVENT_LIMIT }
        ensures { (es : List Event) → IsPast self.now es → Asks self.now.watch finding → result ≡ need_at es self.now.place finding }
    {
        let (byte, due) = match finding {
            Finding::PersistFail { byte } | Finding::CheckFail { byte } => (byte, self.place + 1),
            Finding::OrderedFail { byte, after, .. } | Finding::OrderedSameLine { byte, after } => (
                byte,
                self.last_store(after).last,
            ),
            _ => return None,
        };
        Some(Need {
            byte,
            last: self.last_store(byte).last,
            due,
        })
    }

    // The cause where the need's byte lacks something.
    fn not_durable(
        &self,
        events: &Events,
        need: Need,
        written_back: u32,
        fences: &[u32],
    ) -> Option<Cause>
        requires past { IsPast self.now events.now }
        requires within { self.now.place ≤ length events.now }
        requires watched { has_line self.now.watch.stored need.byte ≡ true }
        requires last { need.last ≡ last_store events.now self.now.place need.byte }
        requires behind { written_back ≡ write_back_after events.now (line_of_byte need.byte) self.now.place }
        requires fences { AreFences events.now fences.now }
        ensures { result ≡ of_need events.now (Some need) }
    {
        let by = place_or(self.last_store(need.byte).written_back, written_back);
        let fence = fences[events.len() - by as usize];
        match lack_by(need, by, fence) {
            Some(lack) => Some(Cause::NotDurable { need, lack }),
            None => None,
        }
    }

    // The cause of a finding that asks for nothing.
    #[tactic(auto, unfolding(crate::specs::Cause::cause_at, crate::specs::Watching::Asks))]
    fn misplaced(&self, finding: Finding) -> Option<Cause>
        requires { self.now.marks.outside ≤ EVENT_LIMIT }
        ensures { (es : List Event) → IsPast self.now es → Asks self.now.watch finding → need_at es self.now.place finding ≡ None
            → result ≡ cause_at es self.now.place finding }
    {
        let cause = match finding {
            Finding::FlushDoubled { line, .. } | Finding::FlushNeedless { line, .. } => {
                Cause::WrittenBackBefore {
                    by: self.last_flush(line),
                }
            }
            Finding::DupLog { byte } => Cause::BackedUpBefore {
                by: self.last_add(byte),
            },
            Finding::NoBackup { .. } => Cause::NotBackedUp {
                begin: self.begun(),
            },
            Finding::TxStillOpen { .. } => Cause::TransactionRuns {
                begin: self.begun(),
            },
            Finding::Unmatched | Finding::Outside => Cause::NoTransaction {
                ended: self.marks.ended,
            },
            Finding::Nested => Cause::ScopeOpen {
                start: self.marks.scope,
            },
            Finding::Unclosed { start } => Cause::ScopeOpen { start },
            Finding::Unopened => Cause::NoScope {
                ended: self.marks.closed,
            },
            _ => return None,
        };
        Some(cause)
    }

    // Where the outermost transaction that runs began.
    #[tactic(auto, unfolding(crate::specs::Cause::begun_at))]
    fn begun(&self) -> u32
        requires { self.now.marks.outside ≤ EVENT_LIMIT }
        ensures { (es : List Event) → IsPast self.now es → result ≡ begun_at es self.now.place }
    {
        self.marks.outside + 1
    }
}

/// Whether a row with this finding has a cause: whether it counts as fail or as a warning.
pub(crate) fn asks_why(finding: Finding) -> bool
    ensures { result ≡ asks_why (outcome_of finding) }
{
    match outcome_of(finding) {
        Outcome::Fail => true,
        Outcome::Warn => true,
        Outcome::Pass => false,
        Outcome::Empty => false,
    }
}

// The place, or the other one where it is none.
fn place_or(place: u32, other: u32) -> u32
    ensures { result ≡ (if nat_lt 0 place then place else other) }
{
    if place > 0 { place } else { other }
}

// What is lacking, where the first write-back behind the last store is the one, and the first fence behind that the other.
fn lack_by(need: Need, by: u32, fence: u32) -> Option<Lack>
    ensures { result ≡ lack_by need.last need.due by fence }
{
    if need.due < need.last {
        Some(Lack::StoredBehind)
    } else if need.last == need.due {
        Some(Lack::OneStore)
    } else if by == 0 {
        Some(Lack::NotWrittenBack)
    } else if need.due < by {
        Some(Lack::WrittenBackLate { by })
    } else if fence == 0 {
        Some(Lack::NotFenced { by })
    } else if need.due < fence {
        Some(Lack::FencedLate { by, fence })
    } else {
        None
    }
}
