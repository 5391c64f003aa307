//! Changes for many rows together, without those that earlier ones make needless.

use crate::edit::Edit;
use crate::needs::Lacking;
use crate::reach::Before;
use pmf_event::{Event, Span};
use pmf_places::{NO_PLACE, Place, Put};
use pmf_runs::RunMap;
use std::alloc::{AllocError, Global};

/// The changes so far.
#[derive(Debug, Drop)]
pub(crate) struct Plan {
    edits: Vec<Edit>,
    /// For each byte the place in front of which a write-back of its line was put last.
    flushed: RunMap<Place>,
    /// The same of a TXADD of the byte.
    added: RunMap<Place>,
    /// The last place in front of which a fence was put.
    fenced: u32,
}

impl Plan {
    pub(crate) fn new(alloc: Global) -> Plan {
        Plan {
            edits: Vec::new(alloc),
            flushed: RunMap::new(alloc, NO_PLACE),
            added: RunMap::new(alloc, NO_PLACE),
            fenced: 0,
        }
    }

    /// Whether the changes so far cure the row that has these needs and asks for these changes. They may even where that is not seen.
    pub(crate) fn cures(&self, needs: &[Lacking], edits: &[Edit]) -> bool {
        let Some(Edit::Put { before, event }) = edits.last() else {
            return edits.is_empty();
        };
        match event {
            Event::TxAdd(_) => self.backs_up(edits),
            Event::Fence | Event::Flush(_) => {
                for need in needs {
                    if !self.makes_durable(need, *before) {
                        return false;
                    }
                }
                true
            }
            _ => false,
        }
    }

    // Whether what lacks is durable by the place.
    fn makes_durable(&self, need: &Lacking, due: u32) -> bool {
        if self.fenced > due {
            return false;
        }
        if need.written_back > 0 && need.written_back < self.fenced {
            return true;
        }
        let later = Before {
            place: need.last.saturating_add(1),
        };
        self.flushed
            .first_where(need.first, need.end, &later)
            .is_none()
    }

    // Whether all that these would add was added in front of the same place.
    fn backs_up(&self, edits: &[Edit]) -> bool {
        for edit in edits {
            if let Edit::Put {
                before,
                event: Event::TxAdd(span),
            } = edit
            {
                let sooner = Before { place: *before };
                if self
                    .added
                    .first_where(span.first(), span.end(), &sooner)
                    .is_some()
                {
                    return false;
                }
            }
        }
        true
    }

    /// Takes the changes of one row.
    pub(crate) fn take(&mut self, edits: &[Edit]) -> Result<(), AllocError> {
        for edit in edits {
            if let Edit::Put { before, event } = edit {
                self.note(*before, *event)?;
            }
            self.edits.push(*edit)?;
        }
        Ok(())
    }

    fn note(&mut self, before: u32, event: Event) -> Result<(), AllocError> {
        match event {
            Event::Fence => self.fenced = self.fenced.max(before),
            Event::Flush(span) => self
                .flushed
                .change(span.first(), span.end(), &Put { place: before })?,
            Event::TxAdd(span) => self
                .added
                .change(span.first(), span.end(), &Put { place: before })?,
            _ => {}
        }
        Ok(())
    }

    /// All of them, in order of their places; at one place what is added comes first, then write-backs, then one fence, then the rest.
    pub(crate) fn sorted(self) -> Result<Vec<Edit>, AllocError> {
        let Plan { mut edits, .. } = self;
        edits.sort_by_key(|edit| (edit.place(), rank(edit)))?;
        edits.dedup_by(|one, other| one == other && is_one(one));
        Ok(edits)
    }
}

fn rank(edit: &Edit) -> u8 {
    match edit {
        Edit::LeaveOut { .. } => 0,
        Edit::Put { event, .. } => match event {
            Event::TxAdd(_) => 1,
            Event::Flush(_) => 2,
            Event::Fence => 3,
            Event::TxEnd => 4,
            _ => 5,
        },
    }
}

// Whether the change is made once, however often it is asked for.
fn is_one(edit: &Edit) -> bool {
    match edit {
        Edit::Put { event, .. } => !matches!(event, Event::TxEnd),
        Edit::LeaveOut { .. } => true,
    }
}
