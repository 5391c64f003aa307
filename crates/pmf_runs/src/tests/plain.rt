//! The map by an array of states, a number at a time.

use super::{Colour, Is, Number};
use crate::state::{Change, Key, Test};
use pmf_event::LINE_SIZE;
use std::alloc::{AllocError, Global};

#[derive(Debug, Drop)]
pub(super) struct Plain {
    states: Vec<Colour>,
}

impl Plain {
    /// So many places, all red.
    pub(super) fn new(alloc: Global, places: u64) -> Result<Plain, AllocError> {
        let mut states = Vec::new(alloc);
        for _place in 0..places {
            states.push(Colour::Red)?;
        }
        Ok(Plain { states })
    }

    pub(super) fn places(&self) -> u64 {
        self.states.len() as u64
    }

    pub(super) fn at(&self, place: u64) -> Colour {
        if place < self.states.len() as u64 {
            self.states[place as usize]
        } else {
            Colour::Red
        }
    }

    fn put(&mut self, place: u64, state: Colour) {
        if place < self.states.len() as u64 {
            self.states[place as usize] = state;
        }
    }

    pub(super) fn change<C: Change<Colour>>(&mut self, first: u64, end: u64, change: &C) {
        for place in first..end {
            let state = change.changed(self.at(place));
            self.put(place, state);
        }
    }

    pub(super) fn first_where(&self, first: u64, end: u64, test: Is) -> Option<u64> {
        for place in first..end {
            if test.passes(self.at(place)) {
                return Some(place);
            }
        }
        None
    }

    /// How many runs pass: the first is red and may have no place, and the last has no end.
    pub(super) fn count_runs(&self, test: Is) -> usize {
        let mut before = Colour::Red;
        let mut count = usize::from(test.passes(before));
        for place in 0..self.places().saturating_add(1) {
            if test.passes(self.at(place)) && !test.passes(before) {
                count = count.saturating_add(1);
            }
            before = self.at(place);
        }
        count
    }

    pub(super) fn count_lines(&self, first: u64, end: u64, test: Is) -> u64 {
        let mut count = 0u64;
        let mut last = None;
        for place in first..end {
            let line = Some(place / LINE_SIZE);
            if test.passes(self.at(place)) && last != line {
                count = count.wrapping_add(1);
                last = line;
            }
        }
        count
    }

    pub(super) fn least_key(&self, first: u64, end: u64) -> Option<u32> {
        let mut least: Option<u32> = None;
        for place in first..end {
            if let Some(found) = Number.key(self.at(place)) {
                least = Some(least.unwrap_or(found).min(found));
            }
        }
        least
    }

    /// How many places have another state than the one before them, with red before and after all.
    pub(super) fn borders(&self) -> usize {
        let mut count = 0usize;
        let mut before = Colour::Red;
        for place in 0..self.places().saturating_add(1) {
            let state = self.at(place);
            if state != before {
                count = count.wrapping_add(1);
            }
            before = state;
        }
        count
    }
}
