//! One event from one text line.

ghost use Rattle.std.specs.Prelude.{◌≡◌};
ghost use Rattle.pmf_storelog.specs.Lines.{event_of_line, event_of_record, is_one_record, names_a_section};

use crate::fault::{Cause, LOG_LIMIT};
use crate::fields::cut;
use crate::record::{Saying, read_record};
use crate::trimming::trim;
use memchr::memchr3;
use pmf_event::Event;

/// Why a text line is not read as an event: the first that applies, in this order.
#[derive(Clone, Copy, Debug, PartialEq, Eq)]
pub enum LineFault {
    /// It has more than [`LOG_LIMIT`] bytes, holds a separator of records, is empty but for blanks, is a
    /// record that a log would skip, or has the name of a section's marker, whatever its fields.
    NoEvent,
    /// It is one record that a log would refuse, for this cause.
    Refused(Cause),
}

/// The event that a text line without its end says, as a record of a log. Takes no memory.
#[tactic(auto, unfolding(crate::specs::Lines::event_of_line))]
pub fn read_event(line: &[u8]) -> Result<Event, LineFault>
    ensures { result ≡ event_of_line line.now }
{
    if !is_one_record(line) {
        return Err(LineFault::NoEvent);
    }
    event_of(trim(line))
}

#[tactic(auto, using(std::proofs::lemmas::Grind::common_steps, crate::proofs::EventLineLemmas::one_record_none, crate::proofs::EventLineLemmas::one_record_some))]
fn is_one_record(line: &[u8]) -> bool
    ensures { result ≡ is_one_record line.now }
{
    match memchr3(b'|', b'\n', b'\r', line) {
        Some(_) => false,
        None => line.len() <= LOG_LIMIT,
    }
}

#[tactic(auto, unfolding(crate::specs::Lines::names_a_section))]
fn names_a_section(text: &[u8]) -> bool
    ensures { result ≡ names_a_section text.now }
{
    let (name, _) = cut(text);
    name == b"PMT.SECTION".as_slice()
}

#[tactic(auto, unfolding(crate::specs::Lines::event_of_record))]
fn event_of(text: &[u8]) -> Result<Event, LineFault>
    ensures { result ≡ event_of_record text.now }
{
    if names_a_section(text) {
        return Err(LineFault::NoEvent);
    }
    match read_record(text) {
        Ok(Saying::Happens(event)) => Ok(event),
        Ok(Saying::Enters(_)) => Err(LineFault::NoEvent),
        Ok(Saying::Skipped) => Err(LineFault::NoEvent),
        Err(cause) => Err(LineFault::Refused(cause)),
    }
}
