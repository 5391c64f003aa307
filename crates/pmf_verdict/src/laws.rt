//! Laws of rows, each the clause of an empty function.

ghost use Rattle.pmf_verdict.specs.{Locality.{PersistIsLocal}, LookBack.{LaterEventsChangeNoRow, RowsLookBack}, Staying.{PassStays}};

/// The rows up to a place look at the events up to that place, and at nothing behind them.
pub fn rows_look_back()
    ensures { RowsLookBack }
{}

/// Events that come behind change no row of those before them.
pub fn later_events_change_no_row()
    ensures { LaterEventsChangeNoRow }
{}

/// A persist assertion that passes does so until a byte of its span is stored to, excluded or included.
pub fn pass_stays()
    ensures { PassStays }
{}

/// A persist assertion looks at the fences, at the write-backs of its span's lines, and at what stores to a byte of its span, excludes
/// it or includes it; at no other event.
#[tactic(auto, using(crate::proofs::LocalityLemmas::persist_is_local))]
pub fn persist_is_local()
    ensures { PersistIsLocal }
{}
