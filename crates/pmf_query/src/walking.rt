//! The records of a log one after another, where they stand.

ghost use Rattle.std.specs.{Prelude.{◌≡◌, ◌+◌, ◌<◌, ◌≤◌, [], ◌∷◌, length, take, MatchOption}, List.{prefix_len}};
ghost use Rattle.pmf_storelog.specs.Separators.{is_blank, parts_of, records_of};
ghost use Rattle.pmf_query.specs.Walking.{BeginsAnew, IsNext, IsPart};

use memchr::memchr3;
use pmf_storelog::trim;

/// A record where it stands.
#[derive(Clone, Copy)]
pub struct Found<'a> {
    /// How many bytes of the log stand before it.
    pub offset: usize,
    /// The record, without the blanks around it.
    pub text: &'a [u8],
    /// Where the walk goes on.
    pub next: usize,
}

/// The first record from an offset on at which the records begin anew, or None where there is none left.
#[tactic(auto, using(std::proofs::lemmas::Grind::common_steps, crate::proofs::CursorLemmas::few_blanks, crate::proofs::CursorLemmas::next_blank, crate::proofs::CursorLemmas::part_taken))]
pub fn next_record(log: &[u8], start: usize) -> Option<Found<'_>>
    requires within { start ≤ length log.now }
    requires anew { BeginsAnew log.now start }
    ensures { MatchOption result (records_of (take start log.now) ≡ records_of log.now)
        (λ f. IsNext log.now start f.offset f.text.now f.next) }
{
    let mut at = start;
    while at < log.len() {
        let part = part_from(log, at);
        let text = trim(&log[at..at + part.len]);
        if !text.is_empty() {
            let offset = at + blanks_in_front(&log[at..at + part.len]);
            return Some(Found {
                offset,
                text,
                next: part.next,
            });
        }
        at = part.next;
    }
    None
}

// What stands before the next separator.
#[derive(Clone, Copy)]
struct Part {
    len: usize,
    next: usize,
}

#[tactic(auto, using(std::proofs::lemmas::Grind::common_steps, crate::proofs::CursorLemmas::part_of_all))]
fn part_from(log: &[u8], start: usize) -> Part
    requires within { start < length log.now }
    requires anew { BeginsAnew log.now start }
    ensures { IsPart log.now start result.len result.next }
{
    match separator_in(&log[start..]) {
        Some(len) => Part {
            len,
            next: start + len + 1,
        },
        None => Part {
            len: log.len() - start,
            next: log.len(),
        },
    }
}

// Where the first separator stands.
#[tactic(auto, using(crate::proofs::CursorLemmas::separator_within))]
fn separator_in(text: &[u8]) -> Option<usize>
    ensures { MatchOption result (parts_of text.now ≡ text.now ∷ [])
        (λ end. (end < length text.now)
        × (parts_of (take (end + 1) text.now) ≡ take end text.now ∷ [] ∷ [])) }
{
    memchr3(b'|', b'\n', b'\r', text)
}

// How many blanks the part begins with.
fn blanks_in_front(part: &[u8]) -> usize
    ensures { result ≡ prefix_len is_blank part.now }
{
    let mut count = 0;
    while count < part.len() && blank(part[count]) {
        count += 1;
    }
    count
}

fn blank(byte: u8) -> bool
    ensures { result ≡ is_blank byte }
{
    byte == b' ' || byte == b'\t'
}
