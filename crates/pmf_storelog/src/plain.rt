//! What records say that are events' or skipped, wherever they stand.

ghost use Rattle.std.specs.Prelude.{◌≡◌, ◌+◌, ◌<◌, ◌≤◌, ◌^◌, ℕ, List, [], ◌∷◌, ◌++◌, false, true, IfSome};

use crate::record::{Saying, read_record};
use crate::trimming::trim;
use pmf_event::{Event, Name, Section};
use std::alloc::Global;

/// What is kept of records that are events' or skipped, of which it isn't known yet what section they are of.
#[derive(Debug, Drop)]
pub(crate) struct Plain {
    /// Their events, under no name that counts.
    pub(crate) section: Section,
    /// How many records there are, skipped ones included.
    pub(crate) records: u64,
    /// How many of them are skipped.
    pub(crate) skipped: u64,
    ghost among: { skipped ≤ records },
}

impl Plain {
    ghost use Rattle.pmf_event.specs.declared.event.Event.{Event};
    ghost use Rattle.pmf_storelog.specs.{Ahead.{IsPlain}, Quick.{SaysAlone}, Records.{record_of}, Separators.{records_in}, declared.record.Saying.TheVariants.{Happens, Skipped}};

    /// Of no record. Takes no memory.
    #[tactic(auto, using(crate::proofs::AheadLemmas::plain_none))]
    pub(crate) fn none(alloc: Global) -> Plain
        ensures plain { IsPlain [] result }
        ensures none { result.records ≡ 0 }
    {
        Plain {
            section: Section::new(alloc, Name { run: 0, number: 0 }),
            records: 0,
            skipped: 0,
        }
    }

    /// Takes what stands between two separators, if it is an event's, is skipped or is nothing but blanks; tells whether it was taken. It may
    /// be known to say an event as it stands.
    #[inline(always)]
    pub(crate) fn take(&mut self, part: &[u8], says: Option<Event>) -> bool
        requires room { self.old.records + 1 < 2 ^ 64 }
        requires says { IfSome says (SaysAlone part.now) }
        ensures plain { (records : List (List ℕ)) → IsPlain records self.old → result ≡ true
            → IsPlain (records ++ records_in (part.now ∷ [])) self.new }
        ensures same { result ≡ false → self.new ≡ self.old }
        ensures grows { self.new.records ≤ self.old.records + 1 }
    {
        match says {
            Some(event) => self.take_event(event),
            None => self.take_part(part),
        }
    }

    fn take_part(&mut self, part: &[u8]) -> bool
        requires { self.old.records + 1 < 2 ^ 64 }
        ensures plain { (records : List (List ℕ)) → IsPlain records self.old → result ≡ true
            → IsPlain (records ++ records_in (part.now ∷ [])) self.new }
        ensures same { result ≡ false → self.new ≡ self.old }
        ensures grows { self.new.records ≤ self.old.records + 1 }
    {
        let text = trim(part);
        if text.is_empty() {
            return true;
        }
        self.take_record(text)
    }

    fn take_record(&mut self, text: &[u8]) -> bool
        requires { self.old.records + 1 < 2 ^ 64 }
        ensures plain { (records : List (List ℕ)) → IsPlain records self.old → result ≡ true
            → IsPlain (records ++ text.now ∷ []) self.new }
        ensures same { result ≡ false → self.new ≡ self.old }
        ensures grows { self.new.records ≤ self.old.records + 1 }
    {
        match read_record(text) {
            Ok(Saying::Happens(event)) => self.take_event(event),
            Ok(Saying::Skipped) => {
                self.skip();
                true
            }
            _ => false,
        }
    }

    // Takes a record that says this event, whatever its text, unless there are too many, or memory is refused.
    #[inline(always)]
    fn take_event(&mut self, event: Event) -> bool
        requires { self.old.records + 1 < 2 ^ 64 }
        ensures plain { (records : List (List ℕ)) (text : List ℕ) → IsPlain records self.old → record_of text ≡ Ok (Happens event)
            → result ≡ true → IsPlain (records ++ text ∷ []) self.new }
        ensures same { result ≡ false → self.new ≡ self.old }
        ensures grows { self.new.records ≤ self.old.records + 1 }
    {
        match self.section.push(event) {
            Ok(()) => {
                self.records += 1;
                true
            }
            Err(_) => false,
        }
    }

    // Takes a record that is skipped.
    fn skip(&mut self)
        requires { self.old.records + 1 < 2 ^ 64 }
        ensures plain { (records : List (List ℕ)) (text : List ℕ) → IsPlain records self.old → record_of text ≡ Ok Skipped
            → IsPlain (records ++ text ∷ []) self.new }
        ensures grows { self.new.records ≡ self.old.records + 1 }
    {
        self.records += 1;
        self.skipped += 1;
    }
}
