//! What a part begins with: events that leave open what the events of another one do.
//!
//! Nothing is proved of them here: `renewed` compares what they leave open, and takes none that differ.

ghost use Rattle.std.specs.Prelude.{◌<◌, ◌≤◌};
ghost use Rattle.pmf_event.specs.declared.span.TheConstants.{ADDRESS_LIMIT};

use pmf_event::{ADDRESS_LIMIT, Event, LINE_SIZE, SPAN_LIMIT, Span};
use pmf_shadow::Shadow;
use std::alloc::{AllocError, Global};

/// A run of bytes whose last store, the one at a place, is not durable. Runs are in order by place, and then by byte.
#[derive(Clone, Copy, Debug, PartialEq, Eq, PartialOrd, Ord, Drop)]
struct Store {
    last: u32,
    first: u64,
    end: u64,
    unwritten: bool,
}

/// What is told of some bytes.
#[derive(Clone, Copy)]
enum Kind {
    Store,
    Flush,
    Exclude,
}

/// Bytes from the first up to the end.
#[derive(Clone, Copy, Debug, Drop)]
struct Bytes {
    first: u64,
    end: u64,
}

/// What is open: the stores that are not durable, the lines of those of them that were written back, and the bytes that are excluded.
#[derive(Debug, Drop)]
struct Open {
    stores: Vec<Store>,
    lines: Vec<Bytes>,
    excluded: Vec<Bytes>,
}

/// The exclusions; the stores that were written back, in their order, and the write-backs; and the other stores in theirs.
///
/// Memory: for each run of bytes that is excluded or not durable.
pub(crate) fn head_of(alloc: Global, shadow: &Shadow) -> Result<Vec<Event>, AllocError> {
    let mut open = open_of(alloc, shadow)?;
    open.stores.sort_unstable();
    let stores = whole_stores(alloc, &open.stores)?;
    let mut head = Vec::new(alloc);
    for bytes in &open.excluded {
        push_over(&mut head, Kind::Exclude, *bytes)?;
    }
    push_stores(&mut head, &stores, false)?;
    for bytes in &open.lines {
        push_over(&mut head, Kind::Flush, *bytes)?;
    }
    push_stores(&mut head, &stores, true)?;
    Ok(head)
}

fn open_of(alloc: Global, shadow: &Shadow) -> Result<Open, AllocError> {
    let mut open = Open {
        stores: Vec::new(alloc),
        lines: Vec::new(alloc),
        excluded: Vec::new(alloc),
    };
    let mut first = 0;
    while first < ADDRESS_LIMIT {
        let (standing, end) = shadow.open_from(first, ADDRESS_LIMIT);
        if standing.excluded {
            add(&mut open.excluded, Bytes { first, end })?;
        }
        if let Some(last) = standing.last {
            if standing.undurable {
                open.stores.push(Store {
                    last,
                    first,
                    end,
                    unwritten: standing.unwritten,
                })?;
            }
            if standing.undurable && !standing.unwritten {
                add(&mut open.lines, lines_of(first, end))?;
            }
        }
        first = end;
    }
    Ok(open)
}

// The lines of the bytes.
fn lines_of(first: u64, end: u64) -> Bytes
    requires some { first < end }
    requires within { end ≤ ADDRESS_LIMIT }
{
    Bytes {
        first: first / LINE_SIZE * LINE_SIZE,
        end: ((end - 1) / LINE_SIZE + 1) * LINE_SIZE,
    }
}

// Adds bytes, to the last ones where they touch these.
fn add(list: &mut Vec<Bytes>, bytes: Bytes) -> Result<(), AllocError> {
    if let Some(before) = list.last_mut() {
        if bytes.first <= before.end {
            before.end = bytes.end.max(before.end);
            return Ok(());
        }
    }
    list.push(bytes)?;
    Ok(())
}

// Runs of one store as one, where they touch or lie on one line: what lies between them was stored to later.
fn whole_stores(alloc: Global, runs: &[Store]) -> Result<Vec<Store>, AllocError> {
    let mut stores: Vec<Store> = Vec::new(alloc);
    for run in runs {
        if !widens(&mut stores, run) {
            stores.push(*run)?;
        }
    }
    Ok(stores)
}

// Takes the run to the last store, where it is of that.
fn widens(stores: &mut Vec<Store>, run: &Store) -> bool {
    match stores.last_mut() {
        Some(before) => {
            let near = before.end == run.first
                || before.end.saturating_sub(1) / LINE_SIZE == run.first / LINE_SIZE;
            let joins = near && before.last == run.last && before.unwritten == run.unwritten;
            if joins {
                before.end = run.end;
            }
            joins
        }
        None => false,
    }
}

fn push_stores(head: &mut Vec<Event>, stores: &[Store], unwritten: bool) -> Result<(), AllocError> {
    for store in stores {
        if store.unwritten == unwritten {
            let bytes = Bytes {
                first: store.first,
                end: store.end,
            };
            push_over(head, Kind::Store, bytes)?;
        }
    }
    Ok(())
}

impl Kind {
    fn over(self, span: Span) -> Event {
        match self {
            Kind::Store => Event::Store(span),
            Kind::Flush => Event::Flush(span),
            Kind::Exclude => Event::Exclude(span),
        }
    }
}

// An event over the bytes, or several, where a span has fewer bytes.
fn push_over(head: &mut Vec<Event>, kind: Kind, bytes: Bytes) -> Result<(), AllocError> {
    let mut first = bytes.first;
    while first < bytes.end {
        match Span::make(first, (bytes.end - first).min(SPAN_LIMIT)) {
            Ok(span) => {
                head.push(kind.over(span))?;
                first = span.end();
            }
            Err(_) => return Ok(()),
        }
    }
    Ok(())
}
