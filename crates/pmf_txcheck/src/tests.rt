//! What transactions and their scopes find, in tables.

ghost use Rattle.std.specs.Prelude.{ℕ, ◌<◌, List, OnOk};
ghost use Rattle.pmf_event.specs.declared.event.Event.{Event};
ghost use Rattle.pmf_event.specs.declared.section.TheConstants.{EVENT_LIMIT};
ghost use Rattle.pmf_txcheck.specs.Tracking.{Tracks, FollowsAt as FollowsTransactionAt};

use crate::state::TxState;
use pmf_event::{EVENT_LIMIT, Event, Finding};
use pmf_fixtures::plain::{depth, is_backed, is_scoped, scope};
use pmf_fixtures::{Step, events_of};
use pmf_shadow::Shadow;
use std::alloc::{AllocError, Global};
use std::process::Abort;
use std::test::Fail;

mod memory;

use Finding::{CheckFail, CheckPass, DupLog, NoBackup};
use Step::{CheckEnd, CheckStart, Exclude, Fence, Flush, Include, Store, TxAdd, TxBegin, TxEnd};

/// The bytes that are looked at, from this one on.
const BASE: u64 = 0x1000;

const BYTES: u64 = 256;

/// What is found of some events, each with its place, and last of the section's end.
type Found = Vec<(u32, Finding)>;

/// What is found of the events, by a state that keeps what the definitions say: also where one of them is refused.
fn found_of(rt: &impl Abort, alloc: Global, events: &[Event]) -> Result<Found, AllocError> {
    if events.len() > EVENT_LIMIT {
        return Err(AllocError);
    }
    let mut shadow = Shadow::new(alloc);
    let mut state = TxState::new(alloc);
    let mut rows = Vec::new(alloc);
    for (index, event) in events.iter().enumerate() {
        let place = index as u32 + 1;
        shadow.follow(place, *event)?;
        let finding = match follow_transactions(&mut state, &shadow, place, *event) {
            Ok(finding) => finding,
            Err(AllocError) => {
                assert_kept(rt, &state, &events[..index]);
                return Err(AllocError);
            }
        };
        if let Some(finding) = finding {
            rows.push((place, finding))?;
        }
    }
    assert_kept(rt, &state, events);
    if let Some(finding) = state.close_section() {
        rows.push((events.len() as u32 + 1, finding))?;
    }
    Ok(rows)
}

/// Follows one event by the state.
fn follow_transactions(
    state: &mut TxState,
    shadow: &Shadow,
    place: u32,
    event: Event,
) -> Result<Option<Finding>, AllocError>
    requires { (told : ℕ → ℕ) × (es : List Event) × (p : ℕ) × Tracks state.old told es p
        × (p < EVENT_LIMIT) }
    ensures { OnOk result (FollowsTransactionAt place state.old state.new event) }
{
    let finding = match event {
        Event::Store(span) => state.store(shadow, span)?,
        Event::TxBegin => {
            state.begin();
            None
        }
        Event::TxAdd(span) => state.add(span)?,
        Event::TxEnd => state.end(),
        Event::CheckStart => state.check_start(place),
        Event::CheckEnd => Some(state.check_end(shadow)),
        _ => None,
    };
    Ok(finding)
}

/// The state keeps what the definitions say of the events.
fn assert_kept(rt: &impl Abort, state: &TxState, past: &[Event]) {
    let (depth, start) = (depth(past), scope(past));
    let unclosed = if start > 0 {
        Some(Finding::Unclosed { start })
    } else {
        None
    };
    assert_eq!(rt; (state.depth(), state.close_section()), (depth, unclosed));
    for byte in BASE..BASE + BYTES {
        if depth > 0 {
            let backed = is_backed(past, byte);
            assert_eq!(rt; state.backup.at(byte), backed, "backup at {byte}");
        }
        if start > 0 {
            let scoped = is_scoped(past, byte);
            assert_eq!(rt; state.stored.at(byte), scoped, "scope at {byte}");
        }
    }
}

#[test]
fn findings_are_those_of_worked_rows(rt: HostRuntime) -> Result<(), Fail> {
    let half = TxAdd(0x1000, 8);
    let wide = TxAdd(0x1000, 16);
    let store = Store(0x1000, 8);
    let both = Store(0x1000, 16);
    let flush = Flush(0x1000, 0x40);
    let again = TxAdd(0x1008, 8);
    let half_out = Exclude(0x1008, 8);
    let out = Exclude(0x1000, 16);
    let back = Include(0x1004, 1);
    for (steps, want, what) in [
        (
            [CheckStart, TxBegin, half, both, TxEnd, CheckEnd].as_slice(),
            [
                (4, NoBackup { byte: 0x1008 }),
                (6, CheckFail { byte: 0x1000 }),
            ]
            .as_slice(),
            "half of a store is backed up",
        ),
        (
            &[CheckStart, TxBegin, half, both, CheckEnd],
            &[
                (4, NoBackup { byte: 0x1008 }),
                (5, Finding::TxStillOpen { depth: 1 }),
            ],
            "the scope ends inside a transaction",
        ),
        (
            &[TxEnd, TxAdd(0, 1), CheckEnd, CheckStart, CheckStart],
            &[
                (1, Finding::Unmatched),
                (2, Finding::Outside),
                (3, Finding::Unopened),
                (5, Finding::Nested),
                (6, Finding::Unclosed { start: 4 }),
            ],
            "markers out of place",
        ),
        (
            &[
                CheckStart, TxBegin, wide, again, store, flush, Fence, TxEnd, CheckEnd,
            ],
            &[(4, DupLog { byte: 0x1008 }), (9, CheckPass)],
            "backed up twice",
        ),
        (
            &[
                CheckStart, TxBegin, TxBegin, half, TxEnd, store, TxEnd, TxBegin, store, flush,
                Fence, TxEnd, CheckEnd,
            ],
            &[(9, NoBackup { byte: 0x1000 }), (13, CheckPass)],
            "a backup lasts as long as the outermost transaction",
        ),
        (
            &[half_out, CheckStart, TxBegin, half, both, TxEnd, CheckEnd],
            &[(7, CheckFail { byte: 0x1000 })],
            "an excluded byte needs no backup",
        ),
        (
            &[out, CheckStart, TxBegin, half, wide, both, TxEnd, CheckEnd],
            &[(5, DupLog { byte: 0x1000 }), (8, CheckPass)],
            "a backup of excluded bytes is told twice all the same",
        ),
        (
            &[out, CheckStart, TxBegin, wide, both, back, TxEnd, CheckEnd],
            &[(8, CheckFail { byte: 0x1004 })],
            "a byte is back at the scope's end",
        ),
        (
            &[store, CheckStart, store, TxBegin, half, TxEnd, CheckEnd],
            &[(7, CheckPass)],
            "stores outside of transactions are no bytes of the scope",
        ),
    ] {
        let events = events_of(rt.alloc(), steps)?;
        let found = found_of(&rt, rt.alloc(), events.as_slice())?;
        assert_eq!(rt; found.as_slice(), want, "{what}");
    }
    Ok(())
}
