//! Ledger texts whose blocks are taken as they stand: where each ends, and whether its rows tell a fail.

ghost use Rattle.std.specs.{Prelude.{◌≡◌, ◌<◌, ◌↔◌, ◌++◌, ℕ, List, MatchOption, IsTrue, length}, List.{list_any}};
ghost use Rattle.pmf_ledger.specs.{Loading.{lines_of}, RawText.{HasNoFirst, HasNoVersion, IsFirst, IsFirstLines, IsFirstVersion, IsVersion, tells_fail_in, trusted_version_of}};

use crate::head::read_head;
use crate::writing::version_of;
use memchr::memchr;
use pmf_event::{Name, Profile};
use pmf_storelog::read_number_in_front;

/// The block that some bytes begin with, as it stands.
#[derive(Clone, Copy, Debug, PartialEq, Eq)]
pub struct FirstBlock {
    /// The name that its head tells.
    pub name: Name,
    /// Where its rows begin, counted from its first byte.
    pub rows: usize,
    /// How many bytes it takes.
    pub taken: usize,
    /// How many text lines.
    pub lines: u64,
}

impl FirstBlock {
    ghost use Rattle.std.specs.Prelude.{◌≡◌};
    ghost use Rattle.pmf_ledger.specs.RawText.{IsFirst, raw_of, tells_fail};

    /// Whether some row of the block, as it stands at the front of the bytes, counts as fail, by its first words. A text line
    /// that begins like no row does.
    pub fn tells_fail(&self, bytes: &[u8]) -> bool
        ensures { IsFirst bytes.now self.now → result ≡ tells_fail (raw_of bytes.now self.now).bytes }
    {
        match bytes.get(self.rows..self.taken) {
            Some(rows) => any_tells_fail(rows),
            None => true,
        }
    }
}

// Whether one of the text lines does.
fn any_tells_fail(rows: &[u8]) -> bool
    ensures { result ≡ list_any tells_fail_in (lines_of rows.now) }
{
    let mut at = 0;
    while let Some(length) = memchr(b'\n', &rows[at..]) {
        if tells_fail_in(&rows[at..at + length]) {
            return true;
        }
        at += length + 1;
    }
    false
}

// Whether the text line begins like a row that counts as fail, or like none.
#[tactic(auto, unfolding(crate::specs::RawText::tells_fail_in))]
fn tells_fail_in(row: &[u8]) -> bool
    ensures { result ≡ tells_fail_in row.now }
{
    let Some((_, rest)) = read_number_in_front(row) else {
        return true;
    };
    !(rest.starts_with(b" PERSIST PASS")
        || rest.starts_with(b" PERSIST EMPTY")
        || rest.starts_with(b" ORDERED PASS")
        || rest.starts_with(b" ORDERED EMPTY")
        || rest.starts_with(b" FLUSH DOUBLED")
        || rest.starts_with(b" FLUSH NEEDLESS")
        || rest.starts_with(b" TXADD DUPLOG")
        || rest.starts_with(b" CHECKEND PASS"))
}

/// The block that the bytes begin with, if it is whole: its head, and as many text lines as this tells. What these text lines are is
/// not looked at.
pub fn first_block(bytes: &[u8]) -> Option<FirstBlock>
    ensures { MatchOption result (HasNoFirst bytes.now) (IsFirst bytes.now) }
{
    let end = memchr(b'\n', bytes)?;
    let head = read_head(&bytes[..end])?;
    let rest = &bytes[end + 1..];
    let events = first_lines(rest, head.events)?;
    let rows = first_lines(&rest[events..], head.rows)?;
    Some(FirstBlock {
        name: head.name,
        rows: end + 1 + events,
        taken: end + 1 + events + rows,
        lines: head.events.saturating_add(head.rows).saturating_add(1),
    })
}

/// Whether no block begins with these bytes, whatever follows them: their first text line is no head.
pub fn begins_no_block(bytes: &[u8]) -> bool
    ensures { IsTrue result → (more : List ℕ) → HasNoFirst (bytes.now ++ more) }
{
    match memchr(b'\n', bytes) {
        Some(end) => read_head(&bytes[..end]).is_none(),
        None => false,
    }
}

// How many bytes so many text lines take that the bytes begin with, if there are so many.
fn first_lines(bytes: &[u8], count: u64) -> Option<usize>
    ensures { MatchOption result (length (lines_of bytes.now) < count) (IsFirstLines bytes.now count) }
{
    let mut taken = 0;
    for _ in 0..count {
        taken += memchr(b'\n', &bytes[taken..])? + 1;
    }
    Some(taken)
}

/// The first text line of a ledger by the profile that was merged on trust.
pub fn trusted_version(profile: Profile) -> &'static str
    ensures { result.now ≡ trusted_version_of profile }
{
    match profile {
        Profile::One => "PMFARM-TRUSTED 1",
        Profile::Two => "PMFARM-TRUSTED 2",
    }
}

/// The profile that the first text line of a ledger tells, whether its sections were checked or it was merged on trust, and how many bytes
/// this text line takes with its end.
pub fn first_version(bytes: &[u8]) -> Option<(Profile, usize)>
    ensures { MatchOption result (HasNoVersion bytes.now) (IsFirstVersion bytes.now) }
{
    let end = memchr(b'\n', bytes)?;
    let line = &bytes[..end];
    if is_version(Profile::One, line) {
        Some((Profile::One, end + 1))
    } else if is_version(Profile::Two, line) {
        Some((Profile::Two, end + 1))
    } else {
        None
    }
}

// Whether the text line is the first of a ledger by the profile.
fn is_version(profile: Profile, line: &[u8]) -> bool
    ensures { IsTrue result ↔ IsVersion profile line.now }
{
    line == version_of(profile).as_bytes() || line == trusted_version(profile).as_bytes()
}
