//! What lacks of a row.

use std::alloc::{AllocError, Global};

/// The most changes that are proposed for one row.
pub(crate) const MOST: usize = 64;

/// Some bytes that are not durable in time, and alike.
#[derive(Clone, Copy, Debug)]
pub(crate) struct Lacking {
    /// The first byte of their first line.
    pub(crate) first: u64,
    /// The byte behind their last line.
    pub(crate) end: u64,
    /// The last store of these bytes.
    pub(crate) last: u32,
    /// The write-back behind that store and in front of the place that asks for it, or 0.
    pub(crate) written_back: u32,
}

/// What lacks of a row, in order of the bytes, as far as few changes may cure it.
#[derive(Debug, Drop)]
pub(crate) struct Needs {
    pub(crate) each: Vec<Lacking>,
    /// How many runs of lines lack a write-back.
    runs: usize,
    /// The byte behind the last of them.
    end: u64,
}

impl Needs {
    pub(crate) fn new(alloc: Global) -> Needs {
        Needs {
            each: Vec::new(alloc),
            runs: 0,
            end: 0,
        }
    }

    pub(crate) fn clear(&mut self) {
        self.each.clear();
        self.runs = 0;
        self.end = 0;
    }

    /// Whether more write-backs are lacking than changes are proposed.
    pub(crate) fn are_too_many(&self) -> bool {
        self.runs > MOST
    }

    pub(crate) fn push(&mut self, need: Lacking) -> Result<(), AllocError> {
        if need.written_back == 0 {
            if self.runs == 0 || need.first > self.end {
                self.runs = self.runs.saturating_add(1);
            }
            self.end = self.end.max(need.end);
        }
        self.each.push(need)?;
        Ok(())
    }
}
