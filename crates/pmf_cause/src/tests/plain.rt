//! The cause of a row by a search over all events, as plain as can be.

use crate::{Cause, Lack, Need};
use pmf_event::{Event, Finding, LINE_SIZE, Row, line_of};
use pmf_fixtures::plain::{depth, first, scope};

// What an event does.
#[derive(Clone, Copy)]
enum Act {
    Store(u64),
    WriteBack(u64),
    Fence,
    BackUp(u64),
}

fn does(event: &Event, act: Act) -> bool {
    match (event, act) {
        (Event::Store(span), Act::Store(byte)) => span.covers(byte),
        (Event::Flush(span), Act::WriteBack(line)) => {
            span.first() < line.wrapping_add(LINE_SIZE) && line < span.end()
        }
        (Event::Fence, Act::Fence) => true,
        (Event::TxAdd(span), Act::BackUp(byte)) => span.covers(byte),
        _ => false,
    }
}

fn last(past: &[Event], act: Act) -> u32 {
    let (mut place, mut found) = (0u32, 0);
    for event in past {
        place = place.wrapping_add(1);
        if does(event, act) {
            found = place;
        }
    }
    found
}

fn first_behind(events: &[Event], behind: u32, act: Act) -> u32 {
    let mut place = 0u32;
    for event in events {
        place = place.wrapping_add(1);
        if place > behind && does(event, act) {
            return place;
        }
    }
    0
}

// The place behind the last one at which no transaction ran.
fn begun(past: &[Event]) -> u32 {
    let (mut place, mut begun) = (0u32, 1u32);
    for _event in past {
        place = place.wrapping_add(1);
        if depth(first(past, place)) == 0 {
            begun = place.wrapping_add(1);
        }
    }
    begun
}

// Where the last transaction and the last scope ended that did end, or 0.
fn ends(past: &[Event]) -> (u32, u32) {
    let (mut place, mut ends) = (0u32, (0u32, 0u32));
    for _event in past {
        let before = first(past, place);
        place = place.wrapping_add(1);
        let now = first(past, place);
        if depth(before) > 0 && depth(now) == 0 {
            ends.0 = place;
        }
        if scope(before) > 0 && scope(now) == 0 {
            ends.1 = place;
        }
    }
    ends
}

fn lack_of(events: &[Event], need: Need) -> Option<Lack> {
    let by = first_behind(events, need.last, Act::WriteBack(line_of(need.byte)));
    let fence = first_behind(events, by, Act::Fence);
    match (by, fence) {
        _ if need.due < need.last => Some(Lack::StoredBehind),
        _ if need.due == need.last => Some(Lack::OneStore),
        (0, _) => Some(Lack::NotWrittenBack),
        (by, _) if by > need.due => Some(Lack::WrittenBackLate { by }),
        (by, 0) => Some(Lack::NotFenced { by }),
        (by, fence) if fence > need.due => Some(Lack::FencedLate { by, fence }),
        _ => None,
    }
}

fn not_durable(events: &[Event], past: &[Event], byte: u64, due: u32) -> Option<Cause> {
    let last = last(past, Act::Store(byte));
    let need = Need { byte, last, due };
    let lack = lack_of(events, need)?;
    Some(Cause::NotDurable { need, lack })
}

/// The cause of the row.
pub(super) fn cause_of(events: &[Event], row: Row) -> Option<Cause> {
    let past = first(events, row.place.saturating_sub(1));
    match row.finding {
        Finding::PersistFail { byte } | Finding::CheckFail { byte } => {
            not_durable(events, past, byte, row.place)
        }
        Finding::OrderedFail { byte, after, .. } | Finding::OrderedSameLine { byte, after } => {
            not_durable(events, past, byte, last(past, Act::Store(after)))
        }
        Finding::FlushDoubled { line, .. } | Finding::FlushNeedless { line, .. } => {
            let by = last(past, Act::WriteBack(line));
            Some(Cause::WrittenBackBefore { by })
        }
        Finding::NoBackup { .. } => Some(Cause::NotBackedUp { begin: begun(past) }),
        Finding::DupLog { byte } => {
            let by = last(past, Act::BackUp(byte));
            Some(Cause::BackedUpBefore { by })
        }
        Finding::TxStillOpen { .. } => Some(Cause::TransactionRuns { begin: begun(past) }),
        Finding::Unmatched | Finding::Outside => {
            let (ended, _) = ends(past);
            Some(Cause::NoTransaction { ended })
        }
        Finding::Nested | Finding::Unclosed { .. } => {
            let start = scope(past);
            Some(Cause::ScopeOpen { start })
        }
        Finding::Unopened => {
            let (_, ended) = ends(past);
            Some(Cause::NoScope { ended })
        }
        _ => None,
    }
}
