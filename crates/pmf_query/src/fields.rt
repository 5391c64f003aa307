//! The fields of a record.

ghost use Rattle.std.specs.Prelude.{◌≡◌, ◌∷◌, ◌+◌, ◌<◌, ℕ, [], drop, length, slice_index_or, take, IfSome, MatchOption};
ghost use Rattle.pmf_storelog.specs.Records.{fields_of};

use memchr::memchr;

/// The field of this index of a record, counted from its name at 0, or nothing where it has none.
pub fn field(text: &[u8], index: usize) -> &[u8]
    ensures { result.now ≡ slice_index_or (fields_of text.now) index [] }
{
    let mut rest = text;
    for _ in 0..index {
        let Some(more) = behind_first(rest) else {
            return &[];
        };
        rest = more;
    }
    first_field(rest)
}

#[tactic(auto, using(crate::proofs::FieldLemmas::first_is))]
fn first_field(text: &[u8]) -> &[u8]
    ensures { result.now ≡ slice_index_or (fields_of text.now) 0 [] }
{
    match field_end(text) {
        Some(end) => &text[..end],
        None => text,
    }
}

// The fields behind the first, where there are any.
#[tactic(auto, using(crate::proofs::FieldLemmas::further_is, crate::proofs::FieldLemmas::no_further))]
fn behind_first(text: &[u8]) -> Option<&[u8]>
    ensures { MatchOption result ((k : ℕ) → slice_index_or (fields_of text.now) (k + 1) [] ≡ [])
        (λ rest. (k : ℕ) → slice_index_or (fields_of text.now) (k + 1) [] ≡ slice_index_or (fields_of rest.now) k []) }
{
    match field_end(text) {
        Some(end) => Some(&text[end + 1..]),
        None => None,
    }
}

// Where the first field ends, where another one follows.
#[tactic(auto, using(pmf_storelog::proofs::FieldLemmas::field_end_found))]
fn field_end(text: &[u8]) -> Option<usize>
    ensures cases { MatchOption result (fields_of text.now ≡ text.now ∷ [])
        (λ end. fields_of text.now ≡ take end text.now ∷ fields_of (drop (end + 1) text.now)) }
    ensures within { IfSome result (λ end. end < length text.now) }
{
    memchr(b';', text)
}
