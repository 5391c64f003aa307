//! What one record says.

ghost use Rattle.std.specs.Prelude.{◌≡◌};
ghost use Rattle.pmf_storelog.specs.Records.{record_of, order_of_fields, order_of_texts, other_name, saying_of, section_of_fields, span_of_fields, span_of_texts, span_or_cause, stored_span, transaction_of};
ghost use Rattle.pmf_event.specs.Span.{extent_of};

use crate::fault::Cause;
use crate::fields::Fields;
use crate::number::read_number;
use crate::quick::read_quickly;
use pmf_event::{Event, Span};

/// What a record says that isn't refused.
#[derive(Drop)]
pub enum Saying {
    /// The event happens, in the section that is current.
    Happens(Event),
    /// The section of this number becomes current.
    Enters(u64),
    /// The record is not this checker's.
    Skipped,
}

/// What a trimmed record says, or why it is refused. Takes no memory.
#[inline]
pub fn read_record(text: &[u8]) -> Result<Saying, Cause>
    ensures { result ≡ record_of text.now }
{
    match read_quickly(text) {
        Some(saying) => Ok(saying),
        None => read_plainly(text),
    }
}

#[tactic(auto, unfolding(crate::specs::Records::record_of))]
pub(crate) fn read_plainly(text: &[u8]) -> Result<Saying, Cause>
    ensures { result ≡ record_of text.now }
{
    let mut fields = Fields::new(text);
    match fields.field() {
        Ok(name) => read_fields(name, &mut fields),
        Err(_) => Ok(Saying::Skipped),
    }
}

#[inline]
#[tactic(auto, unfolding(crate::specs::Records::saying_of))]
fn read_fields(name: &[u8], fields: &mut Fields) -> Result<Saying, Cause>
    ensures { result ≡ saying_of name.now fields.old }
{
    if name == b"STORE".as_slice() {
        return Ok(Saying::Happens(Event::Store(read_stored(fields)?)));
    }
    if name == b"FLUSH".as_slice() {
        return Ok(Saying::Happens(Event::Flush(read_span(fields)?)));
    }
    if name == b"FENCE".as_slice() {
        return Ok(Saying::Happens(Event::Fence));
    }
    if name == b"PMT.PERSIST".as_slice() {
        return Ok(Saying::Happens(Event::Persist(read_span(fields)?)));
    }
    if name == b"PMT.ORDERED".as_slice() {
        return read_order(fields);
    }
    if name == b"PMT.EXCLUDE".as_slice() {
        return Ok(Saying::Happens(Event::Exclude(read_span(fields)?)));
    }
    if name == b"PMT.INCLUDE".as_slice() {
        return Ok(Saying::Happens(Event::Include(read_span(fields)?)));
    }
    if name == b"PMT.SECTION".as_slice() {
        return read_section(fields);
    }
    read_transaction(name, fields)
}

// A marker of a transaction, or of the scope of its checks.
#[tactic(auto, unfolding(crate::specs::Records::transaction_of))]
fn read_transaction(name: &[u8], fields: &mut Fields) -> Result<Saying, Cause>
    ensures { result ≡ transaction_of name.now fields.old }
{
    if name == b"PMT.TXBEGIN".as_slice() {
        return Ok(Saying::Happens(Event::TxBegin));
    }
    if name == b"PMT.TXADD".as_slice() {
        return Ok(Saying::Happens(Event::TxAdd(read_span(fields)?)));
    }
    if name == b"PMT.TXEND".as_slice() {
        return Ok(Saying::Happens(Event::TxEnd));
    }
    if name == b"PMT.CHECKSTART".as_slice() {
        return Ok(Saying::Happens(Event::CheckStart));
    }
    if name == b"PMT.CHECKEND".as_slice() {
        return Ok(Saying::Happens(Event::CheckEnd));
    }
    read_other(name)
}

#[tactic(auto, unfolding(crate::specs::Records::other_name))]
fn read_other(name: &[u8]) -> Result<Saying, Cause>
    ensures { result ≡ other_name name.now }
{
    if name.starts_with(b"PMT.") {
        return Err(Cause::UnknownMarker);
    }
    Ok(Saying::Skipped)
}

// The number of a section's marker.
#[tactic(auto, unfolding(crate::specs::Records::section_of_fields))]
fn read_section(fields: &mut Fields) -> Result<Saying, Cause>
    ensures { result ≡ section_of_fields fields.old }
{
    let number = fields.field()?;
    match read_number(number) {
        Some(number) => Ok(Saying::Enters(number)),
        None => Err(Cause::BadNumber),
    }
}

// The span of a store: first address, a value that isn't looked at, size.
#[tactic(auto, unfolding(crate::specs::Records::stored_span))]
fn read_stored(fields: &mut Fields) -> Result<Span, Cause>
    ensures { result ≡ stored_span fields.old }
{
    let first = fields.field()?;
    let _value = fields.field()?;
    let size = fields.field()?;
    span_from(first, size)
}

// The span of any other record: first address, size.
#[tactic(auto, unfolding(crate::specs::Records::span_of_fields))]
fn read_span(fields: &mut Fields) -> Result<Span, Cause>
    ensures { result ≡ span_of_fields fields.old }
{
    let first = fields.field()?;
    let size = fields.field()?;
    span_from(first, size)
}

// The order of two spans: first address and size of either.
#[tactic(auto, unfolding(crate::specs::Records::order_of_fields))]
fn read_order(fields: &mut Fields) -> Result<Saying, Cause>
    ensures { result ≡ order_of_fields fields.old }
{
    let first = fields.field()?;
    let size = fields.field()?;
    let other_first = fields.field()?;
    let other_size = fields.field()?;
    order_from(first, size, other_first, other_size)
}

// All four numbers are read before a span is made, and the first span before the second.
#[tactic(auto, unfolding(crate::specs::Records::order_of_texts))]
fn order_from(a: &[u8], sa: &[u8], b: &[u8], sb: &[u8]) -> Result<Saying, Cause>
    ensures { result ≡ order_of_texts a.now sa.now b.now sb.now }
{
    match (
        read_number(a),
        read_number(sa),
        read_number(b),
        read_number(sb),
    ) {
        (Some(a), Some(sa), Some(b), Some(sb)) => {
            let before = span_of(a, sa)?;
            let after = span_of(b, sb)?;
            Ok(Saying::Happens(Event::Ordered(before, after)))
        }
        _ => Err(Cause::BadNumber),
    }
}

// Both numbers are read before the span is made: a bad number comes before a bad span.
#[tactic(auto, unfolding(crate::specs::Records::span_of_texts))]
fn span_from(first: &[u8], size: &[u8]) -> Result<Span, Cause>
    ensures { result ≡ span_of_texts first.now size.now }
{
    match (read_number(first), read_number(size)) {
        (Some(first), Some(size)) => span_of(first, size),
        _ => Err(Cause::BadNumber),
    }
}

// The span of two numbers, or its fault as a record's.
#[inline]
fn span_of(first: u64, size: u64) -> Result<Span, Cause>
    ensures { result ≡ span_or_cause (extent_of first size) }
{
    match Span::make(first, size) {
        Ok(span) => Ok(span),
        Err(fault) => Err(Cause::BadSpan(fault)),
    }
}
