//! The text lines of a ledger text that begin a block or end the text.

ghost use Rattle.std.specs.Prelude.{◌≡◌, ℕ, None, Some, MatchOption};
ghost use Rattle.pmf_ledger.specs.Loading.{alone, end_of, head_of, number_behind, profile_of};

use crate::writing::version_of;
use pmf_event::{Name, Profile};
use pmf_storelog::read_number_in_front;

// What the head of a block tells: its section's name, and how many events and rows follow.
#[derive(Clone, Copy)]
pub(crate) struct Head {
    pub(crate) name: Name,
    pub(crate) events: u64,
    pub(crate) rows: u64,
}

#[tactic(auto, unfolding(crate::specs::Loading::profile_of))]
pub(crate) fn read_version(text: &[u8]) -> Option<Profile>
    ensures { result ≡ profile_of text.now }
{
    if text == version_of(Profile::One).as_bytes() {
        Some(Profile::One)
    } else if text == version_of(Profile::Two).as_bytes() {
        Some(Profile::Two)
    } else {
        None
    }
}

// The number behind this word, and the text behind the number.
#[tactic(auto, unfolding(crate::specs::Loading::number_behind))]
fn number_behind<'a>(word: &[u8], text: &'a [u8]) -> Option<(u64, &'a [u8])>
    ensures { MatchOption result (number_behind word.now text.now ≡ None)
        (λ found. number_behind word.now text.now ≡ Some (found.0, found.1.now)) }
{
    if text.starts_with(word) {
        read_number_in_front(&text[word.len()..])
    } else {
        None
    }
}

// The number behind this word, where nothing follows it.
fn last_behind(word: &[u8], text: &[u8]) -> Option<u64>
    ensures { result ≡ alone (number_behind word.now text.now) }
{
    let (number, rest) = number_behind(word, text)?;
    if rest.is_empty() { Some(number) } else { None }
}

#[tactic(auto, unfolding(crate::specs::Loading::head_of))]
pub(crate) fn read_head(text: &[u8]) -> Option<Head>
    ensures { result ≡ head_of text.now }
{
    let (run, rest) = number_behind(b"section ", text)?;
    let (number, rest) = number_behind(b".", rest)?;
    let (events, rest) = number_behind(b" events=", rest)?;
    let rows = last_behind(b" rows=", rest)?;
    let name = Name { run, number };
    Some(Head { name, events, rows })
}

#[tactic(auto, unfolding(crate::specs::Loading::end_of))]
pub(crate) fn read_end(text: &[u8]) -> Option<u64>
    ensures { result ≡ end_of text.now }
{
    last_behind(b"end verdicts=", text)
}
