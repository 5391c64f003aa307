//! The crash images of short sections whose spans lie in eight bytes at the border of two cache lines.

use crate::plain::{meets, place_of};
use pmf_event::{Event, line_of};
use std::alloc::{AllocError, Global};

/// The bytes in which all spans of such a section lie.
pub const BYTES: [u64; 8] = [60, 61, 62, 63, 64, 65, 66, 67];

/// What memory may hold after a crash: the cuts of the two lines, and the torn bytes.
#[derive(Clone, Copy, Debug, PartialEq, Eq)]
pub struct Image {
    cuts: [u32; 2],
    torn: [bool; 8],
}

impl Image {
    // How many stores of the byte's line the byte may show: those before the cut, and one more where it is torn.
    fn reach(&self, byte: u64) -> u32 {
        let cut = if byte < 64 {
            self.cuts[0]
        } else {
            self.cuts[1]
        };
        if self.is_torn(byte) {
            return cut.wrapping_add(1);
        }
        cut
    }

    /// Whether the byte is torn.
    pub fn is_torn(&self, byte: u64) -> bool {
        byte >= 60 && byte < 68 && self.torn[(byte - 60) as usize]
    }

    /// The place of the store that the byte shows after a crash behind these events, or 0.
    pub fn shows(&self, past: &[Event], byte: u64) -> u32 {
        let reach = self.reach(byte);
        let (mut count, mut shown) = (0u32, 0);
        for (index, event) in past.iter().enumerate() {
            if let Event::Store(span) = event {
                if meets(*span, line_of(byte)) {
                    count = count.wrapping_add(1);
                    if count <= reach && span.covers(byte) {
                        shown = place_of(index);
                    }
                }
            }
        }
        shown
    }

    // The same with the byte torn, where the store after the cut of its line covers it.
    fn with_torn(mut self, past: &[Event], byte: u64) -> Option<Image> {
        let before = self.shows(past, byte);
        if byte < 60 || byte >= 68 {
            return None;
        }
        self.torn[(byte - 60) as usize] = true;
        if self.shows(past, byte) == before {
            return None;
        }
        Some(self)
    }
}

// How many stores of the line are durable, those before its last write-back that a fence follows; and how many there are.
fn cuts_of(past: &[Event], line: u64) -> (u32, u32) {
    let (mut floor, mut written_back, mut count) = (0u32, 0u32, 0u32);
    for event in past {
        match event {
            Event::Store(span) if meets(*span, line) => count = count.wrapping_add(1),
            Event::Flush(span) if meets(*span, line) => written_back = count,
            Event::Fence => floor = written_back,
            _ => {}
        }
    }
    (floor, count)
}

/// Each image that is allowed after a crash behind these events. Of two that show the same one is left out.
pub fn images_after(alloc: Global, past: &[Event]) -> Result<Vec<Image>, AllocError> {
    let mut all = Vec::new(alloc);
    let (floor, count) = cuts_of(past, 0);
    let (other_floor, other_count) = cuts_of(past, 64);
    for cut in floor..=count {
        for other in other_floor..=other_count {
            let untorn = Image {
                cuts: [cut, other],
                torn: [false; 8],
            };
            push_torn(past, untorn, &mut all)?;
        }
    }
    Ok(all)
}

// The image with each choice of bytes torn.
fn push_torn(past: &[Event], untorn: Image, all: &mut Vec<Image>) -> Result<(), AllocError> {
    let begin = all.len();
    all.push(untorn)?;
    for byte in BYTES {
        for index in begin..all.len() {
            if index < all.len() {
                if let Some(torn) = all[index].with_torn(past, byte) {
                    all.push(torn)?;
                }
            }
        }
    }
    Ok(())
}
