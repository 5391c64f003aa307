//! Laws of the definitions, each the clause of an empty function.

ghost use Rattle.pmf_event.specs.{Laws.{BytesLieBelowTheLimit, MeetsTheLinesOfItsBytes, MeetsTheLinesOfItsNumbers, MeetsWhereAByteIsShared}, LineBytes.{LinesFollowFromTheirBytes}};

/// A span meets exactly the cache lines of the bytes that it covers.
#[tactic(auto, using(crate::proofs::LineLemmas::meets_the_lines_of_its_bytes))]
pub fn span_meets_the_lines_of_its_bytes()
    ensures { MeetsTheLinesOfItsBytes }
{}

/// Two spans meet exactly where a byte is covered by both.
#[tactic(auto, using(crate::proofs::LineLemmas::meets_where_a_byte_is_shared))]
pub fn spans_meet_where_a_byte_is_shared()
    ensures { MeetsWhereAByteIsShared }
{}

/// A span meets exactly the cache lines from that of its first byte to that of its last, by their
/// numbers.
#[tactic(auto, using(crate::proofs::LineLemmas::meets_the_lines_of_its_numbers))]
pub fn span_meets_the_lines_of_its_numbers()
    ensures { MeetsTheLinesOfItsNumbers }
{}

/// A cache line is clean exactly where no byte of it is undurable, and pending exactly where some byte of
/// it is undurable and none is unwritten: the state of a line follows from its bytes.
pub fn lines_follow_from_their_bytes()
    ensures { LinesFollowFromTheirBytes }
{}

/// Where all spans are valid, as those of a section are, no byte that was stored to lies at or above
/// [`crate::ADDRESS_LIMIT`], and so no byte of a scope does: what is said of the bytes below it is said of all.
pub fn bytes_lie_below_the_limit()
    ensures { BytesLieBelowTheLimit }
{}
