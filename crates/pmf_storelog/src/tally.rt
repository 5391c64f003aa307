//! What the ended records of a log gave so far.

ghost use Rattle.std.specs.Prelude.{◌≡◌, ◌≢◌, ◌+◌, ◌<◌, ◌≤◌, ◌^◌, ℕ, false, if◌then◌else◌, List, [], ◌∷◌, ◌++◌, Ok, OnOk, OnErr, IfOk, IfErr, IfSome, IsOk, MatchOption, length};

use crate::fault::{Cause, LogFault};
use crate::log::Log;
use crate::plain::Plain;
use crate::record::{Saying, read_record};
use crate::sections::OpenSections;
use crate::trimming::trim;
use pmf_event::{Event, Section};
use std::alloc::Global;

/// What the ended records of a log gave so far.
#[derive(Debug, Drop)]
pub(crate) struct Tally {
    /// The sections of their markers and events.
    sections: OpenSections,
    /// How many records there were, skipped ones included.
    records: u64,
    /// How many of them were skipped.
    skipped: u64,
    ghost among: { skipped ≤ records },
}

impl Tally {
    ghost use Rattle.pmf_storelog.specs.{Ahead.{IsPlain}, Separators.{records_in}, LogText.{first_fault, out_of_memory, sections_of, skipped_of}, Answers.{IsShown}, Quick.{SaysAlone}, Records.{record_of}, Tally.{AddsRecord, AddsSkipped, HasTaken, IsFaultFor}, declared.record.Saying.TheVariants.{Happens}};

    /// The tally of no record.
    pub(crate) fn new(alloc: Global, run: u64) -> Tally
        ensures taken { HasTaken run [] result }
        ensures none { result.records ≡ 0 }
    {
        Tally {
            sections: OpenSections::new(alloc, run),
            records: 0,
            skipped: 0,
        }
    }

    /// Takes what stands between two separators: a record, or nothing but blanks.
    #[inline]
    pub(crate) fn take_part(&mut self, part: &[u8]) -> Result<(), LogFault>
        requires { self.old.records + 1 < 2 ^ 64 }
        ensures grows { self.new.records ≤ self.old.records + 1 }
        ensures ok { (run : ℕ) (records : List (List ℕ)) → HasTaken run records self.old
            → OnOk result (HasTaken run (records ++ records_in (part.now ∷ [])) self.new) }
        ensures err { (run : ℕ) (records : List (List ℕ)) → HasTaken run records self.old
            → IfErr result (λ fault. IsShown fault (first_fault (records ++ records_in (part.now ∷ [])))) }
    {
        let text = trim(part);
        if text.is_empty() {
            return Ok(());
        }
        self.take_record(text)
    }

    /// The same, where the part may be known to say an event as it stands.
    #[inline(always)]
    pub(crate) fn take_alone(&mut self, part: &[u8], says: Option<Event>) -> Result<(), LogFault>
        requires room { self.old.records + 1 < 2 ^ 64 }
        requires says { IfSome says (SaysAlone part.now) }
        ensures grows { self.new.records ≤ self.old.records + 1 }
        ensures ok { (run : ℕ) (records : List (List ℕ)) → HasTaken run records self.old
            → OnOk result (HasTaken run (records ++ records_in (part.now ∷ [])) self.new) }
        ensures err { (run : ℕ) (records : List (List ℕ)) → HasTaken run records self.old
            → IfErr result (λ fault. IsShown fault (first_fault (records ++ records_in (part.now ∷ [])))) }
    {
        match says {
            Some(event) => self.take_event(event),
            None => self.take_part(part),
        }
    }

    #[inline]
    fn take_record(&mut self, text: &[u8]) -> Result<(), LogFault>
        requires { self.old.records + 1 < 2 ^ 64 }
        ensures grows { self.new.records ≤ self.old.records + 1 }
        ensures ok { (run : ℕ) (records : List (List ℕ)) → HasTaken run records self.old
            → OnOk result (HasTaken run (records ++ text.now ∷ []) self.new) }
        ensures err { (run : ℕ) (records : List (List ℕ)) → HasTaken run records self.old
            → IfErr result (λ fault. IsShown fault (first_fault (records ++ text.now ∷ []))) }
    {
        match read_record(text) {
            Ok(Saying::Happens(event)) => self.take_event(event),
            Ok(Saying::Enters(number)) => {
                let entered = self.sections.enter(number);
                self.count(entered)
            }
            Ok(Saying::Skipped) => {
                self.skip();
                Ok(())
            }
            Err(cause) => Err(self.fault(cause)),
        }
    }

    /// Takes a record that says this event, whatever its text.
    #[inline(always)]
    pub(crate) fn take_event(&mut self, event: Event) -> Result<(), LogFault>
        requires { self.old.records + 1 < 2 ^ 64 }
        ensures grows { self.new.records ≤ self.old.records + 1 }
        ensures ok { (run : ℕ) (records : List (List ℕ)) (text : List ℕ) → HasTaken run records self.old
            → record_of text ≡ Ok (Happens event)
            → OnOk result (HasTaken run (records ++ text ∷ []) self.new) }
        ensures err { (run : ℕ) (records : List (List ℕ)) (text : List ℕ) → HasTaken run records self.old
            → record_of text ≡ Ok (Happens event)
            → IfErr result (λ fault. IsShown fault (first_fault (records ++ text ∷ []))) }
    {
        let added = self.sections.add(event);
        self.count(added)
    }

    /// Takes the records of which this was kept, wherever they stood, if the current section has room for their events; tells whether it has.
    pub(crate) fn take_plain(&mut self, plain: Plain) -> Result<bool, LogFault>
        requires { self.old.records + plain.records < 2 ^ 64 }
        ensures ok { (run : ℕ) (before records : List (List ℕ)) → HasTaken run before self.old → IsPlain records plain
            → IfOk result (λ taken. HasTaken run (if taken then before ++ records else before) self.new) }
        ensures err { IfErr result (λ fault. fault ≡ out_of_memory) }
        ensures grows { self.new.records ≤ self.old.records + plain.records }
        ensures kept { OnErr result (self.new.records ≡ self.old.records) }
        ensures left { IfOk result (λ taken. taken ≡ false → self.new ≡ self.old) }
    {
        if !self.sections.has_room(&plain.section) {
            return Ok(false);
        }
        let Plain {
            section,
            records,
            skipped,
        } = plain;
        // There is room, so that nothing is refused for another cause.
        let Ok(()) = self.sections.append(section) else {
            return Err(LogFault::OUT_OF_MEMORY);
        };
        self.records += records;
        self.skipped += skipped;
        Ok(true)
    }

    // Counts a record whose section took it, or tells its fault.
    #[inline(always)]
    fn count(&mut self, taken: Result<(), Cause>) -> Result<(), LogFault>
        requires { self.old.records + 1 < 2 ^ 64 }
        ensures ok { OnOk result (IsOk taken × AddsRecord self.old self.new) }
        ensures err { IfErr result (λ fault. fault ≢ out_of_memory → IsFaultFor taken self.old fault) }
        ensures grows { self.new.records ≤ self.old.records + 1 }
    {
        match taken {
            Ok(()) => {
                self.records += 1;
                Ok(())
            }
            Err(Cause::OutOfMemory) => Err(LogFault::OUT_OF_MEMORY),
            Err(cause) => Err(self.fault(cause)),
        }
    }

    // Counts a record that is skipped.
    fn skip(&mut self)
        requires { self.old.records + 1 < 2 ^ 64 }
        ensures skips { AddsSkipped self.old self.new }
        ensures grows { self.new.records ≡ self.old.records + 1 }
    {
        self.records += 1;
        self.skipped += 1;
    }

    /// The fault of the record after those that were taken.
    pub(crate) fn fault(&self, cause: Cause) -> LogFault
        requires { self.now.records + 1 < 2 ^ 64 }
        ensures { result ≡ record { at = self.now.records + 1; cause = cause } }
    {
        LogFault {
            at: self.records + 1,
            cause,
        }
    }

    /// The section of the records that were taken, if they are of just one.
    pub(crate) fn only_section(&self) -> Option<&Section>
        ensures { (run : ℕ) (records : List (List ℕ)) → HasTaken run records self.now
            → MatchOption result (length (sections_of run records) ≢ 1)
            (λ section. sections_of run records ≡ section.now ∷ []) }
    {
        self.sections.only()
    }

    /// The log of the records that were taken.
    pub(crate) fn into_log(self) -> Result<Log, LogFault>
        ensures ok { (run : ℕ) (records : List (List ℕ)) → HasTaken run records self
            → IfOk result (λ log. log ≡ record {
              sections = sections_of run records;
              skipped = skipped_of records;
            }) }
        ensures err { IfErr result (λ fault. fault ≡ out_of_memory) }
    {
        let Tally {
            sections,
            skipped,
            ..
        } = self;
        let sections = sections.into_list()?;
        Ok(Log::new(sections, skipped))
    }
}
