//! The bytes of a log with changes put in.

use crate::patch::Patched;
use pmf_cause::Edit;
use pmf_event::Event;
use pmf_query::{Located, Standing};
use pmf_storelog::push_event;
use std::alloc::{AllocError, Global};

/// More bytes than the text line of an event that is put in has.
const ROOM: usize = 64;

/// The marker of section 0, which needs none as long as it has an event.
const FIRST_SECTION: &[u8] = b"PMT.SECTION;0\n";

// A change, and where in the log it is made.
#[derive(Clone, Copy)]
struct Piece {
    offset: usize,
    // How long the record is that is left out.
    length: usize,
    edit: Edit,
    // Whether an event is put behind the record that ends there, which may be the log's last one.
    is_behind: bool,
}

/// The log with the changes of all its sections. Takes memory for the text, the changes, and where each event stands.
pub(crate) fn text_with(
    alloc: Global,
    log: &[u8],
    cures: &[Patched],
) -> Result<Vec<u8>, AllocError> {
    let pieces = pieces_of(alloc, log, cures)?;
    let room = log.len().saturating_add(pieces.len().saturating_mul(ROOM));
    let mut writing = Writing {
        log,
        done: 0,
        line: String::new(alloc),
        text: Vec::with_capacity(alloc, room)?,
    };
    if cures.iter().any(|cure| loses_all(cure)) {
        writing.text.extend_from_slice(FIRST_SECTION)?;
    }
    for piece in &pieces {
        writing.go_to(piece.offset)?;
        writing.make(*piece)?;
    }
    writing.go_to(log.len())?;
    Ok(writing.text)
}

// Whether it is section 0, of which each event is left out.
fn loses_all(cure: &Patched) -> bool {
    cure.section.name().number == 0 && cure.section.events().is_empty() && !cure.edits.is_empty()
}

// The changes by their offsets, those at one offset in the order in which they are made.
fn pieces_of(alloc: Global, log: &[u8], cures: &[Patched]) -> Result<Vec<Piece>, AllocError> {
    let standing = Standing::of(alloc, log)?;
    let mut pieces = Vec::new(alloc);
    for cure in cures {
        let stands = standing.in_section(cure.section.name().number);
        for edit in &cure.edits {
            if let Some(piece) = piece_of(*edit, stands) {
                pieces.push(piece)?;
            }
        }
    }
    pieces.sort_by_key(|piece| piece.offset)?;
    Ok(pieces)
}

// The change of a section whose events stand so.
fn piece_of(edit: Edit, stands: &[Located<'_>]) -> Option<Piece> {
    let index = edit.place().saturating_sub(1) as usize;
    match stands.get(index) {
        Some(record) => Some(Piece {
            offset: record.offset as usize,
            length: record.text.len(),
            edit,
            is_behind: false,
        }),
        None => piece_behind(edit, stands.last()),
    }
}

fn piece_behind(edit: Edit, last: Option<&Located<'_>>) -> Option<Piece> {
    match last {
        Some(record) => Some(Piece {
            offset: (record.offset as usize).saturating_add(record.text.len()),
            length: 0,
            edit,
            is_behind: true,
        }),
        None => None,
    }
}

// A log that is being written with changes.
#[derive(Drop)]
struct Writing<'a> {
    log: &'a [u8],
    // How many bytes of it are written or left out.
    done: usize,
    // Room for a text line.
    line: String,
    text: Vec<u8>,
}

impl Writing<'_> {
    // Writes what stands in front of the offset, and is neither written nor left out.
    fn go_to(&mut self, offset: usize) -> Result<(), AllocError> {
        if self.done < offset && offset <= self.log.len() {
            self.text.extend_from_slice(&self.log[self.done..offset])?;
            self.done = offset;
        }
        Ok(())
    }

    fn make(&mut self, piece: Piece) -> Result<(), AllocError> {
        let Piece {
            length,
            edit,
            is_behind,
            ..
        } = piece;
        match edit {
            Edit::Put { event, .. } => self.put(event, is_behind),
            Edit::LeaveOut { .. } => {
                self.done = self.done.saturating_add(length);
                Ok(())
            }
        }
    }

    fn put(&mut self, event: Event, is_behind: bool) -> Result<(), AllocError> {
        if is_behind {
            return self.put_behind(event);
        }
        self.put_in_front(event)
    }

    fn put_in_front(&mut self, event: Event) -> Result<(), AllocError> {
        self.line.clear();
        push_event(&mut self.line, &event)?;
        self.text.extend_from_slice(self.line.as_bytes())
    }

    // The separator behind the record ends the text line, or the end of the log.
    fn put_behind(&mut self, event: Event) -> Result<(), AllocError> {
        self.line.clear();
        self.line.push_str("\n")?;
        push_event(&mut self.line, &event)?;
        match self.line.as_bytes().split_last() {
            Some((_, line)) => self.text.extend_from_slice(line),
            None => Ok(()),
        }
    }
}
