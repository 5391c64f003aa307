//! What the records of a log tell of whether it is whole, and read as it was meant.

ghost use Rattle.std.specs.Prelude.{◌≡◌, ◌&&◌, ◌∷◌, ◌++◌, [], List, ℕ, bytes_eq, is_some, not};
ghost use Rattle.pmf_storelog.specs.LogText.{is_skipped};
ghost use Rattle.pmf_query.specs.{Decimal.{asserts_decimal, is_decimal}, RecordNames.{name_of}, Ascii.{is_text}};
ghost use Rattle.pmf_lint.specs.{Counting.{AreNotes}, Nearness.{near_of}};

use crate::covering::either;
use crate::naming::{is_skipped, name_of};
use crate::nearness::is_misspelt;
use pmf_query::{field, is_text, usual_name};

/// What some records tell.
#[derive(Clone, Copy, Debug)]
pub(crate) struct Notes {
    /// Whether the name of a skipped one is near to a known name.
    pub(crate) has_near: bool,
    /// Whether the name of a skipped one is no text.
    pub(crate) has_strange: bool,
    /// Whether one is START.
    pub(crate) starts: bool,
    /// Whether one is STOP.
    pub(crate) stops: bool,
    /// Whether one asserts bytes of which it writes an address in decimal.
    pub(crate) has_decimal: bool,
}

impl Notes {
    /// Of no record.
    pub(crate) fn none() -> Notes
        ensures { AreNotes result [] }
    {
        Notes {
            has_near: false,
            has_strange: false,
            starts: false,
            stops: false,
            has_decimal: false,
        }
    }

    /// Of one record more.
    pub(crate) fn pass(self, text: &[u8]) -> Notes
        ensures { (records : List (List ℕ)) → AreNotes self records → AreNotes result (records ++ text.now ∷ []) }
    {
        if let Some(_index) = usual_name(text) {
            return self;
        }
        let name = name_of(text);
        self.and(text, name, is_skipped(text))
    }

    /// Of one record more, which has this name, and is skipped or not.
    pub(crate) fn and(self, text: &[u8], name: &[u8], skipped: bool) -> Notes
        requires name { name.now ≡ name_of text.now }
        requires skipped { skipped ≡ is_skipped text.now }
        ensures { (records : List (List ℕ)) → AreNotes self records → AreNotes result (records ++ text.now ∷ []) }
    {
        Notes {
            has_near: either(self.has_near, is_near_skipped(name, skipped)),
            has_strange: either(self.has_strange, is_strange_skipped(name, skipped)),
            starts: either(self.starts, is_named(name, b"START")),
            stops: either(self.stops, is_named(name, b"STOP")),
            has_decimal: either(self.has_decimal, asserts_decimal(text, name)),
        }
    }
}

// Whether the record of this name is skipped and its name near to a known one. No other name is looked at.
#[tactic(auto)]
fn is_near_skipped(name: &[u8], skipped: bool) -> bool
    ensures { result ≡ (skipped && is_some (near_of name.now)) }
{
    skipped && is_misspelt(name)
}

// Whether the record of this name is skipped and its name no text. No other name is looked at.
#[tactic(auto)]
fn is_strange_skipped(name: &[u8], skipped: bool) -> bool
    ensures { result ≡ (skipped && not (is_text name.now)) }
{
    skipped && !is_text(name)
}

/// Whether the record of this name asserts bytes of which it writes an address in decimal.
#[tactic(auto, unfolding(pmf_query::specs::Decimal::asserts_decimal))]
pub(crate) fn asserts_decimal(text: &[u8], name: &[u8]) -> bool
    requires { name.now ≡ name_of text.now }
    ensures { result ≡ asserts_decimal text.now }
{
    if is_named(name, b"PMT.PERSIST") {
        return is_decimal(text, 1);
    }
    if is_named(name, b"PMT.ORDERED") {
        return either(is_decimal(text, 1), is_decimal(text, 3));
    }
    false
}

fn is_named(name: &[u8], word: &[u8]) -> bool
    ensures { result ≡ bytes_eq name.now word.now }
{
    name == word
}

// Whether the field begins without `0x`.
#[tactic(auto, unfolding(pmf_query::specs::Decimal::is_decimal))]
fn is_decimal(text: &[u8], index: usize) -> bool
    ensures { result ≡ is_decimal text.now index }
{
    !field(text, index).starts_with(b"0x")
}
