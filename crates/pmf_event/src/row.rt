//! What the checker says at one place, and lists of it.

ghost use Rattle.std.specs.Prelude.{◌≡◌, List, [], ◌∷◌, ◌++◌, length, OnOk, OnErr};
ghost use Rattle.pmf_event.specs.declared.row.Row.{Row};

use crate::finding::Finding;
use std::alloc::{AllocError, Global};
use std::marker::Model;

/// What the checker says at one place of a section.
#[derive(Clone, Copy, Debug, PartialEq, Eq)]
pub struct Row {
    /// The place of the event, counted from 1; one past the last event for the end of the section.
    pub place: u32,
    /// What is said there.
    pub finding: Finding,
}

/// A list of rows.
#[derive(Debug, Drop)]
pub struct Rows {
    rows: Vec<Row>,
}

impl Model for Rows {
    ghost Value = { List Row };

    ghost view = { λ r. r.rows.items };
}

impl Rows {
    /// No rows. Takes no memory.
    pub fn new(alloc: Global) -> Rows
        ensures { result ≡ [] }
    {
        Rows {
            rows: Vec::new(alloc),
        }
    }

    /// Adds the row at the end. After an `Err` the rows are unchanged.
    pub fn push(&mut self, row: Row) -> Result<(), AllocError>
        ensures ok { OnOk result (self.new ≡ self.old ++ row ∷ []) }
        ensures unchanged { OnErr result (self.new ≡ self.old) }
    {
        self.rows.push(row)?;
        Ok(())
    }

    /// Gives back the memory that the rows don't need, where the allocator takes it.
    pub fn shrink_to_fit(&mut self)
        ensures { self.new ≡ self.old }
    {
        self.rows.shrink_to_fit();
    }

    /// The rows in order.
    pub fn as_slice(&self) -> &[Row]
        ensures { result.now ≡ self.now }
    {
        &self.rows
    }
}
