//! The quick reading of the records that a log has most of, in their usual spelling. Where it answers
//! nothing, the plain reading decides.

ghost use Rattle.std.specs.Prelude.{◌≡◌, ◌≤◌, ◌∷◌, length, Ok, IfSome};
ghost use Rattle.pmf_storelog.specs.{Quick.{BeginsWithDigits, BeginsWithEvent, BeginsWithField, BeginsWithFields, BeginsWithNumber, BeginsWithPart}, Records.{order_of_fields, record_of, span_of_fields, stored_span}, Separators.{is_separator}, declared.record.Saying.TheVariants.{Happens}};

use crate::number::digit_of;
use crate::record::Saying;
use pmf_event::{Event, Span};

/// What the record says, if it is of the usual spelling and isn't refused.
#[inline]
pub(crate) fn read_quickly(text: &[u8]) -> Option<Saying>
    ensures { IfSome result (λ saying. record_of text.now ≡ Ok saying) }
{
    match read_event(text) {
        Some((event, len)) => {
            if len < text.len() {
                return None;
            }
            Some(Saying::Happens(event))
        }
        None => read_other(text),
    }
}

/// The event of the text's first part, and how long the part is, if it is a record of the usual
/// spelling that isn't refused, has no blanks around it, and is ended by a separator.
#[inline(always)]
#[tactic(auto, using(std::proofs::lemmas::Grind::common_steps, crate::proofs::QuickLemmas::part_found))]
pub(crate) fn read_part(text: &[u8]) -> Option<(Event, usize)>
    ensures { IfSome result (λ found. BeginsWithPart text.now found.0 found.1) }
{
    let (event, len) = read_event(text)?;
    if len >= text.len() || !separator(text[len]) {
        return None;
    }
    Some((event, len))
}

#[inline]
fn separator(byte: u8) -> bool
    ensures { result ≡ is_separator byte }
{
    byte == b'|' || byte == b'\n' || byte == b'\r'
}

// The event of the usual spelling that the text begins with, and how long its record is.
#[inline(always)]
fn read_event(text: &[u8]) -> Option<(Event, usize)>
    ensures { IfSome result (λ found. BeginsWithEvent text.now found.0 found.1) }
{
    if text.starts_with(b"STORE;") {
        let (span, len) = read_stored(&text[6..])?;
        return Some((Event::Store(span), 6 + len));
    }
    if text.starts_with(b"FLUSH;") {
        let (span, len) = read_span(&text[6..])?;
        return Some((Event::Flush(span), 6 + len));
    }
    if text.starts_with(b"FENCE") {
        return Some((Event::Fence, 5));
    }
    if text.starts_with(b"PMT.PERSIST;") {
        let (span, len) = read_span(&text[12..])?;
        return Some((Event::Persist(span), 12 + len));
    }
    if text.starts_with(b"PMT.ORDERED;") {
        let (event, len) = read_order(&text[12..])?;
        return Some((event, 12 + len));
    }
    if text.starts_with(b"PMT.TXADD;") {
        let (span, len) = read_span(&text[10..])?;
        return Some((Event::TxAdd(span), 10 + len));
    }
    None
}

// A record whose text doesn't even begin as one of the names does, without a search for its name.
#[inline]
#[tactic(auto, using(std::proofs::lemmas::Grind::common_steps, crate::proofs::QuickLemmas::record_of_other))]
fn read_other(text: &[u8]) -> Option<Saying>
    ensures { IfSome result (λ saying. record_of text.now ≡ Ok saying) }
{
    if text.starts_with(b"STORE") || text.starts_with(b"FLUSH") {
        return None;
    }
    if text.starts_with(b"FENCE") || text.starts_with(b"PMT.") {
        return None;
    }
    Some(Saying::Skipped)
}

// The span of a store's fields, and how long they are.
#[inline(always)]
#[tactic(auto, using(std::proofs::lemmas::Grind::common_steps, crate::proofs::QuickLemmas::stored_found))]
fn read_stored(text: &[u8]) -> Option<(Span, usize)>
    ensures { IfSome result (λ found. BeginsWithFields stored_span text.now found.0 found.1) }
{
    let (first, rest) = read_number(text)?;
    let rest = skip_field(after_field(rest)?)?;
    let (size, rest) = read_number(rest)?;
    match Span::make(first, size) {
        Ok(span) => Some((span, text.len() - rest.len())),
        Err(_) => None,
    }
}

// The span of a record's two fields, and how long they are.
#[inline(always)]
#[tactic(auto, using(std::proofs::lemmas::Grind::common_steps, crate::proofs::QuickLemmas::span_found))]
fn read_span(text: &[u8]) -> Option<(Span, usize)>
    ensures { IfSome result (λ found. BeginsWithFields span_of_fields text.now found.0 found.1) }
{
    let (first, rest) = read_number(text)?;
    let (size, rest) = read_number(after_field(rest)?)?;
    match Span::make(first, size) {
        Ok(span) => Some((span, text.len() - rest.len())),
        Err(_) => None,
    }
}

// The order of the two spans of four fields, and how long these are.
#[inline]
#[tactic(auto, using(std::proofs::lemmas::Grind::common_steps, crate::proofs::QuickLemmas::order_found))]
fn read_order(text: &[u8]) -> Option<(Event, usize)>
    ensures { IfSome result (λ found. BeginsWithFields order_of_fields text.now (Happens found.0) found.1) }
{
    let (first, rest) = read_number(text)?;
    let (size, rest) = read_number(after_field(rest)?)?;
    let (other_first, rest) = read_number(after_field(rest)?)?;
    let (other_size, rest) = read_number(after_field(rest)?)?;
    match (Span::make(first, size), Span::make(other_first, other_size)) {
        (Ok(before), Ok(after)) => Some((Event::Ordered(before, after), text.len() - rest.len())),
        _ => None,
    }
}

// The text after the semicolon that it begins with.
#[inline]
fn after_field(text: &[u8]) -> Option<&[u8]>
    ensures { IfSome result (λ rest. text.now ≡ 59 ∷ rest.now) }
{
    if text.is_empty() || text[0] != b';' {
        return None;
    }
    Some(&text[1..])
}

// The text after a field of letters and digits, and after the semicolon that ends it.
#[inline]
#[tactic(auto, using(std::proofs::lemmas::Grind::common_steps, std::proofs::lemmas::Int::Digits::digits_more))]
fn skip_field(text: &[u8]) -> Option<&[u8]>
    ensures { IfSome result (λ rest. BeginsWithField text.now rest.now) }
{
    let mut end = 0;
    while end < text.len() && digit_of(text[end]) < 36 {
        end += 1;
    }
    after_field(&text[end..])
}

// The number that `0x` and the digits after it spell, and the text after them.
#[inline(always)]
fn read_number(text: &[u8]) -> Option<(u64, &[u8])>
    ensures { IfSome result (λ found. BeginsWithNumber text.now found.0 found.1.now) }
{
    if !text.starts_with(b"0x") {
        return None;
    }
    let digits = &text[2..];
    let (value, count) = read_digits(digits)?;
    Some((value, &digits[count..]))
}

// The number that the digits at the start of the text spell, and how many they are: 1 to 16. The bound is
// a constant where it can be, so that the loop is unrolled.
#[inline(always)]
fn read_digits(text: &[u8]) -> Option<(u64, usize)>
    ensures { IfSome result (λ r. BeginsWithDigits text.now r.0 r.1) }
{
    if text.len() < 16 {
        return read_digits_up_to(text, text.len());
    }
    read_digits_up_to(text, 16)
}

// The same of so many bytes at most.
#[inline(always)]
#[tactic(auto, using(std::proofs::lemmas::Grind::common_steps, crate::proofs::QuickLemmas::room_for_a_digit, std::proofs::lemmas::Int::Digits::digits_value_more, std::proofs::lemmas::Int::Digits::digits_more))]
fn read_digits_up_to(text: &[u8], most: usize) -> Option<(u64, usize)>
    requires few { most ≤ 16 }
    requires within { most ≤ length text.now }
    ensures { IfSome result (λ r. BeginsWithDigits text.now r.0 r.1) }
{
    let mut value: u64 = 0;
    let mut count = 0;
    while count < most {
        let digit = digit_of(text[count]);
        if digit >= 16 {
            break;
        }
        value = value * 16 + digit;
        count += 1;
    }
    if count == 0 {
        return None;
    }
    Some((value, count))
}
