//! The fields of a record.

ghost use Rattle.std.specs.Prelude.{◌≡◌, ◌+◌, ◌<◌, [], ◌∷◌, length, take, drop, MatchResult, MatchOption, IfSome, option_copied};
ghost use Rattle.pmf_storelog.specs.{Fields.{fields_left}, Records.{fields_of}, declared.fault.Cause.TheVariants.{TooFewFields}};

use crate::fault::Cause;
use memchr::memchr;
use std::marker::Model;

/// The fields of a record that are left, seen as a list of their bytes.
#[derive(Drop)]
pub(crate) struct Fields<'a> {
    rest: Option<&'a [u8]>,
}

impl<'a> Model for Fields<'a> {
    ghost use Rattle.std.specs.Prelude.{ℕ, List, option_copied};
    ghost use Rattle.pmf_storelog.specs.Fields.{fields_left};

    ghost Value = { List (List ℕ) };

    ghost view = { λ f. fields_left (option_copied f.rest) };
}

impl<'a> Fields<'a> {
    /// All fields of the record, the name first.
    #[inline]
    #[tactic(auto, unfolding(crate::specs::Fields::fields_left))]
    pub(crate) fn new(text: &'a [u8]) -> Fields<'a>
        ensures { result ≡ fields_of text.now }
    {
        Fields { rest: Some(text) }
    }

    /// Takes the next field off, or answers TooFewFields where none is left.
    #[inline]
    #[tactic(auto, unfolding(crate::specs::Fields::fields_left))]
    pub(crate) fn field(&mut self) -> Result<&'a [u8], Cause>
        ensures { MatchResult result (λ field. self.old ≡ field.now ∷ self.new)
            (λ cause. (self.old ≡ []) × (cause ≡ TooFewFields)) }
    {
        match self.rest {
            Some(text) => {
                let (field, rest) = cut(text);
                self.rest = rest;
                Ok(field)
            }
            None => Err(Cause::TooFewFields),
        }
    }
}

// The first field, and the text after it where a semicolon ends it.
#[inline]
#[tactic(auto, unfolding(crate::specs::Fields::fields_left))]
pub(crate) fn cut(text: &[u8]) -> (&[u8], Option<&[u8]>)
    ensures { fields_of text.now ≡ result.0.now ∷ fields_left (option_copied result.1) }
{
    match field_end(text) {
        Some(end) => (&text[..end], Some(&text[end + 1..])),
        None => (text, None),
    }
}

#[inline]
#[tactic(auto, using(crate::proofs::FieldLemmas::field_end_found))]
fn field_end(text: &[u8]) -> Option<usize>
    ensures cases { MatchOption result (fields_of text.now ≡ text.now ∷ [])
        (λ end. fields_of text.now
        ≡ take end text.now ∷ fields_of (drop (end + 1) text.now)) }
    ensures within { IfSome result (λ end. end < length text.now) }
{
    memchr(b';', text)
}
