//! Of which kind a row is: what is found, its cause, and where in the source.

ghost use Rattle.std.specs.Prelude.{◌≡◌};
ghost use Rattle.pmf_event.specs.Store.{event_at};
ghost use Rattle.pmf_why.specs.{Kinds.{IsKindOf, is_one_kind}, Reasons.{Bad, cause_number, distance_of, fields_read, finding_number, frame_behind, frame_of, lack_number, place_told, stands_at}, Rows.{bad_of}};

use crate::row::BadRow;
use pmf_cause::{Cause, Lack};
use pmf_event::{Event, Events, Finding, Row};
use pmf_query::{Located, field};

/// Of which kind a row is.
#[derive(Clone, Copy)]
pub(crate) struct Kind<'a> {
    pub(crate) finding: u8,
    pub(crate) cause: u8,
    pub(crate) distance: u32,
    /// The place in the source, or nothing.
    pub(crate) frame: &'a [u8],
}

impl<'a> Kind<'a> {
    #[tactic(auto, unfolding(crate::specs::Reasons::distance_told))]
    pub(crate) fn of(bad: &BadRow<'a, '_>) -> Kind<'a>
        ensures { IsKindOf (bad_of bad.now) result }
    {
        let frame = frame_of(bad);
        let distance = if frame.is_empty() {
            distance_of(bad.cause)
        } else {
            0
        };
        Kind {
            finding: finding_number(bad.row.finding),
            cause: cause_number(bad.cause),
            distance,
            frame,
        }
    }

    pub(crate) fn is_same(&self, other: &Kind<'_>) -> bool
        ensures { result ≡ is_one_kind self.now other.now }
    {
        if self.finding != other.finding {
            return false;
        }
        if self.cause != other.cause {
            return false;
        }
        if self.distance != other.distance {
            return false;
        }
        self.frame == other.frame
    }
}

#[tactic(auto, unfolding(crate::specs::Reasons::finding_number))]
fn finding_number(finding: Finding) -> u8
    ensures { result ≡ finding_number finding }
{
    match finding {
        Finding::PersistFail { .. } => 1,
        Finding::OrderedFail { .. } => 2,
        Finding::OrderedSameLine { .. } => 3,
        Finding::FlushDoubled { .. } => 4,
        Finding::FlushNeedless { .. } => 5,
        Finding::NoBackup { .. } => 6,
        Finding::DupLog { .. } => 7,
        Finding::CheckFail { .. } => 8,
        Finding::TxStillOpen { .. } => 9,
        Finding::Unmatched => 10,
        Finding::Outside => 11,
        Finding::Nested => 12,
        Finding::Unopened => 13,
        Finding::Unclosed { .. } => 14,
        _ => 0,
    }
}

#[tactic(auto, unfolding(crate::specs::Reasons::lack_number))]
fn lack_number(lack: Lack) -> u8
    ensures { result ≡ lack_number lack }
{
    match lack {
        Lack::StoredBehind => 1,
        Lack::OneStore => 2,
        Lack::NotWrittenBack => 3,
        Lack::WrittenBackLate { .. } => 4,
        Lack::NotFenced { .. } => 5,
        Lack::FencedLate { .. } => 6,
    }
}

#[tactic(auto, unfolding(crate::specs::Reasons::cause_number))]
fn cause_number(cause: Cause) -> u8
    ensures { result ≡ cause_number cause }
{
    match cause {
        Cause::NotDurable { lack, .. } => lack_number(lack),
        Cause::WrittenBackBefore { by } => if by == 0 { 8 } else { 7 },
        Cause::BackedUpBefore { .. } => 9,
        Cause::NotBackedUp { .. } => 10,
        Cause::TransactionRuns { .. } => 11,
        Cause::NoTransaction { .. } => 12,
        Cause::ScopeOpen { .. } => 13,
        Cause::NoScope { .. } => 14,
    }
}

#[tactic(auto, unfolding(crate::specs::Reasons::place_told))]
fn place_told(row: &Row, cause: Cause) -> u32
    ensures { result ≡ place_told row.now cause }
{
    match cause {
        Cause::NotDurable { need, .. } => need.last,
        _ => row.place,
    }
}

#[tactic(auto, unfolding(crate::specs::Reasons::distance_of))]
fn distance_of(cause: Cause) -> u32
    ensures { result ≡ distance_of cause }
{
    match cause {
        Cause::NotDurable { need, .. } => need.due.saturating_sub(need.last),
        _ => 0,
    }
}

// The place in the source that the record tells that gave the lost store, or the event.
#[tactic(auto, unfolding(crate::specs::Reasons::frame_of, crate::specs::Reasons::frame_behind))]
fn frame_of<'a>(bad: &BadRow<'a, '_>) -> &'a [u8]
    ensures { result.now ≡ frame_of (bad_of bad.now) }
{
    let place = place_told(&bad.row, bad.cause);
    let Some(event) = event_at(bad.taken.verdict.section().events(), place) else {
        return &[];
    };
    let Some(located) = stands_at(bad.taken.stands, place) else {
        return &[];
    };
    field(located.text, fields_read(&event))
}

#[tactic(auto, unfolding(pmf_event::specs::Store::event_at))]
fn event_at(events: &Events, place: u32) -> Option<Event>
    ensures { result ≡ event_at events.now place }
{
    let index = (place as usize).checked_sub(1)?;
    events.get(index)
}

/// Where the event at the place stands in the log.
#[tactic(auto, unfolding(crate::specs::Reasons::stands_at))]
pub(crate) fn stands_at<'a>(stands: &[Located<'a>], place: u32) -> Option<Located<'a>>
    ensures { result ≡ stands_at stands.now place }
{
    let index = (place as usize).checked_sub(1)?;
    stands.get(index).copied()
}

// How many fields of its record the event is read from, the name being one.
#[tactic(auto, unfolding(crate::specs::Reasons::fields_read))]
fn fields_read(event: &Event) -> usize
    ensures { result ≡ fields_read event.now }
{
    match event {
        Event::Store(_) => 4,
        Event::Ordered(_, _) => 5,
        Event::Flush(_) => 3,
        Event::Persist(_) => 3,
        Event::Exclude(_) => 3,
        Event::Include(_) => 3,
        Event::TxAdd(_) => 3,
        _ => 1,
    }
}
