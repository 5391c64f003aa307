//! The parts of a piece of a log, read side by side.

ghost use Rattle.std.specs.Prelude.{◌≡◌, ◌<◌, All, IfOk, Some, option_map};
ghost use denote.Param.Send.{IsSync};
ghost use Rattle.pmf_storelog.specs.Ahead.{IsAheadOf};
ghost use Rattle.pmf_stream.specs.{Beside.{GoesOn}, Checking.{most_in_piece}};

use crate::beside::Beside;
use crate::reading::PIECE;
use pmf_event::{Profile, Section};
use pmf_storelog::{Ahead, next_part};
use std::alloc::{AllocError, Global};
use std::thread::{Threads, for_each_mut, join};

/// How many bytes a piece has for each worker, where there are several.
const PART: usize = 1 << 20;

/// For how many workers it has so many, at most.
const MOST_PARTS: usize = 16;

/// How many bytes a part has at least: to start a thread takes longer than to read fewer.
const LEAST: usize = 1 << 16;

/// How many bytes of a log are read at once, at most.
pub(crate) fn most_in_piece(workers: u32) -> usize
    ensures value { result ≡ most_in_piece workers }
    ensures some { 0 < result }
{
    if workers > 1 {
        (workers as usize).min(MOST_PARTS) * PART
    } else {
        PIECE
    }
}

/// How many pieces are read plainly behind one whose stretches were short.
const PLAIN: u32 = 15;

/// The parts of a piece, each read by a worker of its own before their turn, while the check goes on of the only section of what was read before. No
/// parts, and no step of the check, where the piece is short, memory for their list is refused, or
/// as many pieces more are to be read plainly as is told: behind one whose stretches were short.
pub(crate) fn read_ahead<T: Threads + Sync>(
    rt: &T,
    alloc: Global,
    workers: u32,
    plain: &mut u32,
    piece: &[u8],
    beside: Beside,
    profile: Profile,
    only: Option<&Section>,
) -> (Vec<Ahead>, Beside)
    ensures parts { All (IsAheadOf piece.now) result.0.items }
    ensures goes { GoesOn profile (option_map (λ section. section.now) only.entry) beside result.1 }
{
    let count = (workers as usize).min(piece.len() / LEAST);
    if count <= 1 {
        return (Vec::new(alloc), beside);
    }
    if *plain > 0 {
        *plain -= 1;
        return (Vec::new(alloc), beside);
    }
    let readers = readers_of(count, only);
    let Ok(parts) = parts_of(alloc, piece, readers) else {
        return (Vec::new(alloc), beside);
    };
    let (parts, beside) = side_by_side(rt, alloc, parts, readers, piece, beside, profile, only);
    if are_short(&parts) {
        *plain = PLAIN;
    }
    (parts, beside)
}

// How many of so many threads read parts: one checks, where there is an only section.
fn readers_of(count: usize, only: Option<&Section>) -> usize
    requires { 1 < count }
    ensures { 0 < result }
{
    match only {
        Some(_) => count - 1,
        None => count,
    }
}

// Reads the parts of the piece, and goes on with the check of the only section, if there is one.
fn side_by_side<T: Threads + Sync>(
    rt: &T,
    alloc: Global,
    parts: Vec<Ahead>,
    count: usize,
    piece: &[u8],
    beside: Beside,
    profile: Profile,
    only: Option<&Section>,
) -> (Vec<Ahead>, Beside)
    requires some { 0 < count }
    requires parts { All (IsAheadOf piece.now) parts.items }
    ensures parts { All (IsAheadOf piece.now) result.0.items }
    ensures goes { GoesOn profile (option_map (λ section. section.now) only.entry) beside result.1 }
{
    let Some(section) = only else {
        let parts = read_parts(rt, alloc, parts, count, piece);
        return (parts, beside.without_section());
    };
    join(
        rt,
        move || -> Vec<Ahead>
            requires sync { IsSync T.row }
            requires some { 0 < count }
            requires parts { All (IsAheadOf piece.now) parts.items }
            ensures { All (IsAheadOf piece.entry.now) result.items }
        { read_parts(rt, alloc, parts, count, piece) },
        move || -> Beside
            ensures { GoesOn profile (Some section.entry.now) beside result }
        { beside.go_on(alloc, profile, section) },
    )
}

// Whether reading one of them stopped at short stretches.
fn are_short(parts: &[Ahead]) -> bool {
    for part in parts {
        if part.is_short() {
            return true;
        }
    }
    false
}

// Reads the parts of the piece, by so many threads.
fn read_parts<T: Threads + Sync>(
    rt: &T,
    alloc: Global,
    mut parts: Vec<Ahead>,
    count: usize,
    piece: &[u8],
) -> Vec<Ahead>
    requires some { 0 < count }
    requires parts { All (IsAheadOf piece.now) parts.items }
    ensures { All (IsAheadOf piece.now) result.items }
{
    for_each_mut(
        rt,
        &mut parts,
        count,
        &|_: usize, part: &mut Ahead|
            requires { IsAheadOf piece.now part.now }
            ensures { IsAheadOf piece.entry.now part.exit.now }
        { part.read(alloc, piece) },
    );
    parts
}

// So many parts of the piece, of which nothing is read yet; the first begins behind a separator, as all others.
fn parts_of(alloc: Global, piece: &[u8], count: usize) -> Result<Vec<Ahead>, AllocError>
    requires { 0 < count }
    ensures { IfOk result (λ parts. All (IsAheadOf piece.now) parts.items) }
{
    let mut parts = Vec::with_capacity(alloc, count)?;
    let size = piece.len() / count;
    let mut from = behind(piece, 0);
    for _ in 1..count {
        let to = behind(piece, from.saturating_add(size));
        parts.push(Ahead::new(alloc, from, to))?;
        from = to;
    }
    parts.push(Ahead::new(alloc, from, piece.len()))?;
    Ok(parts)
}

// The place behind the first separator from this place of the piece on, or behind the piece.
fn behind(piece: &[u8], at: usize) -> usize {
    if at >= piece.len() {
        return piece.len();
    }
    match next_part(&piece[at..]) {
        Some((len, _)) => at + len + 1,
        None => piece.len(),
    }
}
