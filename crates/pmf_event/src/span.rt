//! A valid range of bytes, and the cache lines that it meets.

ghost use Rattle.std.specs.Prelude.{◌≡◌, ◌+◌, ◌-◌, ◌<◌, ◌≤◌, ◌^◌, ◌↔◌, min, IsTrue};
ghost use Rattle.pmf_event.specs.{Line.{line_of_byte, meets_span}, Span.{Extent, IsValidExtent, covers_byte, extent_of}, declared.span.TheConstants.{ADDRESS_LIMIT, SPAN_LIMIT}};

use std::error::Error;
use std::fmt;
use std::marker::Model;

/// How many bytes a cache line has. A line is named by the address of its first byte.
pub const LINE_SIZE: u64 = 64;

/// The greatest size of a span, in bytes: 2^32.
pub const SPAN_LIMIT: u64 = 1 << 32;

/// Every span ends at or below this address.
pub const ADDRESS_LIMIT: u64 = 1 << 63;

/// A range of bytes: the first one's address and how many there are, at least one.
///
/// It takes 12 bytes and no alignment, so that an event takes 13: the numbers are kept as bytes, the
/// least significant first.
#[derive(Clone, Copy)]
pub struct Span {
    /// The address of the first byte.
    first: [u8; 8],
    /// How many bytes follow it.
    others: [u8; 4],
}

impl Model for Span {
    ghost use Rattle.std.{specs.Prelude.{◌≡◌, ◌+◌, ◌-◌}, specs.Int.{w32, w64, to_le_bytes, from_le_bytes}, proofs.lemmas.Nat.{le_bytes_4, le_bytes_8}, proofs.Common.{arith}};
    ghost use Rattle.pmf_event.specs.Span.{Extent, IsNumeral, IsValidExtent};

    ghost Value = { Extent };

    ghost view = { λ s. record { first = from_le_bytes w64 s.first; size = from_le_bytes w32 s.others + 1 } };

    ghost invariant = { λ s. IsNumeral 8 s.first × IsNumeral 4 s.others
        × IsValidExtent (from_le_bytes w64 s.first) (from_le_bytes w32 s.others + 1) };

    ghost inverse = { λ e. record { first = to_le_bytes w64 e.first; others = to_le_bytes w32 (e.size - 1) } };

    ghost inverse_ok = { λ s h i. record {
      first = le_bytes_8 s.first (from_le_bytes w64 s.first) h.0.length h.0.small (omega (arith)) i;
      others = le_bytes_4 s.others (from_le_bytes w32 s.others + 1 - 1) h.1.length h.1.small (omega (arith)) i;
    } };
}

impl PartialEq for Span {
    ghost use Rattle.std.{proofs.Common.{rules}, specs.Cmp.Rules.{comparing}, specs.Ordering.{on, eq_of_both}, specs.Prelude.{nat_eq}};
    ghost use Rattle.pmf_event.specs.Span.{Extent};

    ghost eq = { eq_of_both (on (λ (s : Extent). s.first) nat_eq) (on (λ (s : Extent). s.size) nat_eq) };

    ghost laws = { Prim.search (comparing, rules) };

    fn eq(&self, other: &Span) -> bool {
        self.first() == other.first() && self.size() == other.size()
    }
}

impl Eq for Span {
    ghost use Rattle.std.{proofs.Common.{rules}, specs.Cmp.Rules.{comparing}};

    ghost laws = { Prim.search (comparing, rules) };
}

impl fmt::Debug for Span {
    fn fmt<W: fmt::Write>(&self, f: &mut fmt::Formatter<W>) -> fmt::Result {
        f.debug_struct("Span")
            .field("first", &self.first())
            .field("size", &self.size())
            .finish()
    }
}

/// Why two numbers are no span: the first that applies, in this order.
#[derive(Clone, Copy, Debug, PartialEq, Eq)]
pub enum SpanFault {
    /// The size is 0.
    ZeroSize,
    /// The size is above [`SPAN_LIMIT`].
    TooLarge,
    /// The span would end above [`ADDRESS_LIMIT`].
    PastEnd,
}

impl fmt::Display for SpanFault {
    ghost use Rattle.std.specs.Prelude.{Some};
    ghost use Rattle.pmf_event.specs.Span.{words_of_fault};

    ghost output = { λ fault. Some (words_of_fault fault) };

    fn fmt<W: fmt::Write>(&self, f: &mut fmt::Formatter<W>) -> fmt::Result {
        f.write_str(match self {
            SpanFault::ZeroSize => "size is zero",
            SpanFault::TooLarge => "size is too large",
            SpanFault::PastEnd => "range ends past 2^63",
        })
    }
}

impl Error for SpanFault {}

impl Span {
    /// The span of `size` bytes from the address `first` on, or the first fault that applies.
    pub fn make(first: u64, size: u64) -> Result<Span, SpanFault>
        ensures { result ≡ extent_of first size }
    {
        if size == 0 {
            return Err(SpanFault::ZeroSize);
        }
        if size > SPAN_LIMIT {
            return Err(SpanFault::TooLarge);
        }
        if first > ADDRESS_LIMIT - size {
            return Err(SpanFault::PastEnd);
        }
        Ok(Span::of(first, size))
    }

    /// The span of the bytes from `first` up to `end`, which is not one of them, or of the first
    /// [`SPAN_LIMIT`] of these.
    pub fn between(first: u64, end: u64) -> Span
        requires some { first < end }
        requires ends { end ≤ ADDRESS_LIMIT }
        ensures { result ≡ record { first = first; size = min (end - first) SPAN_LIMIT } }
    {
        Span::of(first, (end - first).min(SPAN_LIMIT))
    }

    fn of(first: u64, size: u64) -> Span
        requires { IsValidExtent first size }
        ensures { result ≡ record { first = first; size = size } }
    {
        Span {
            first: first.to_le_bytes(),
            others: ((size - 1) as u32).to_le_bytes(),
        }
    }

    /// The address of the first byte.
    pub fn first(&self) -> u64
        ensures value { result ≡ self.now.first }
        ensures valid { IsValidExtent self.now.first self.now.size }
    {
        u64::from_le_bytes(self.first)
    }

    /// How many bytes there are.
    pub fn size(&self) -> u64
        ensures value { result ≡ self.now.size }
        ensures valid { IsValidExtent self.now.first self.now.size }
    {
        u64::from(u32::from_le_bytes(self.others)) + 1
    }

    /// The address behind the last byte, at most [`ADDRESS_LIMIT`].
    pub fn end(&self) -> u64
        ensures value { result ≡ self.now.first + self.now.size }
        ensures valid { IsValidExtent self.now.first self.now.size }
    {
        self.first() + self.size()
    }

    /// Whether the byte at this address is one of the span's.
    pub fn covers(&self, byte: u64) -> bool
        ensures { result ≡ covers_byte self.now byte }
    {
        byte >= self.first() && byte - self.first() < self.size()
    }

    /// Whether the two spans have a byte in common.
    pub fn meets(&self, other: &Span) -> bool
        ensures { result ≡ meets_span self.now other.now }
    {
        other.first() < self.end() && self.first() < other.end()
    }
}

/// The cache line that holds the byte at this address, named by its first byte's address.
pub fn line_of(byte: u64) -> u64
    ensures { result ≡ line_of_byte byte }
{
    byte - byte % LINE_SIZE
}
