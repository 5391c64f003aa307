//! The text of a log with its sections cut.

ghost use Rattle.std.specs.{Prelude.{◌≡◌, ◌+◌, ◌<◌, ◌≤◌, ◌++◌, ◌∷◌, [], ℕ, List, Some, None, length, take, drop, slice_get, OnOk, IfOk, IfSome}, Ordering.{nat_cmp}, BTreeMap.{get}};
ghost use Rattle.pmf_event.specs.declared.event.Event.{Event};
ghost use Rattle.pmf_storelog.specs.{Quick.{SaysAlone}, Separators.{parts_of}, declared.record.Saying.TheVariants.{Enters, Happens}};
ghost use Rattle.pmf_cut.specs.{declared.section.Cutting.{Cutting}, Cutting.{BeginsFile, BeginsPart, CutsAny, CutsNothing, CutsPart, CutsParts, CutsRecord, Drains, Finds, FindsCurrent, HasCutAll, HasRead, Keeps, KeepsWith, lost_in, Names, TakesAt}};

use crate::fault::CutFault;
use crate::notes::Notes;
use crate::output::{Outputs, Text};
use crate::part::PartFault;
use crate::section::{Cutting, NextPart};
use memchr::memrchr3;
use pmf_event::{EVENT_LIMIT, Event};
use pmf_storelog::{Cause, LogFault, SECTION_LIMIT, Saying, next_part, read_record, trim};
use std::alloc::{AllocError, Global};
use std::collections::BTreeMap;

/// A log as it is read in pieces and written with its sections cut.
///
/// Every record goes out as it came, with its separators. What is put in stands in front of a record, and ends with `|`.
/// Where there are several files, each part goes whole to the file that was the newest when the part began, and a marker goes out
/// as long as its section is not cut. Memory: for each section its part's runs of equal bytes, up to 128 events that wait, and, once it
/// is cut, the runs of the part before and of the bytes that those before it stored to; and for each file.
#[derive(Debug, Drop)]
pub struct Cutter {
    alloc: Global,
    /// The most events of a part.
    limit: u32,
    /// What a part's number is above that of the one before it.
    step: u64,
    sections: Vec<Cutting>,
    /// Where the section of a number stands among them.
    places: BTreeMap<u64, usize>,
    /// Of which section a part has a number.
    names: BTreeMap<u64, u64>,
    /// How many parts began in the newest file.
    named: usize,
    /// Where the section stands that is current in what is read, once there is one.
    current: Option<usize>,
    records: u64,
    cuts: u64,
    /// The bytes behind the last separator that was read.
    waiting: Vec<u8>,
    /// What is to be written.
    outputs: Outputs,
    /// What is to be said.
    notes: Notes,
}

impl Cutter {
    /// A cutter before the log's first byte. A part has at most so many events, of those that a section may have; a file is to have at
    /// most so many bytes, where there may be several.
    pub fn new(
        alloc: Global,
        events: u32,
        step: u64,
        bytes: Option<u64>,
    ) -> Result<Cutter, AllocError>
        ensures { IfOk result (HasRead step [] (λ _. [])) }
    {
        let outputs = Outputs::new(alloc, bytes)?;
        Ok(Cutter {
            alloc,
            limit: events.min(EVENT_LIMIT as u32),
            step,
            sections: Vec::new(alloc),
            places: BTreeMap::new(alloc),
            names: BTreeMap::new(alloc),
            named: 0,
            current: None,
            records: 0,
            cuts: 0,
            waiting: Vec::new(alloc),
            outputs,
            notes: Notes::new(alloc),
        })
    }

    /// Reads a piece of the log. After an `Err` the cutter is of no use.
    pub fn take(&mut self, piece: &[u8]) -> Result<(), CutFault>
        ensures { OnOk result ((step : ℕ) (log : List ℕ) (handed : ℕ → List ℕ) → HasRead step log handed self.old → HasRead step (log ++ piece.now) handed self.new) }
    {
        let end = ended(piece);
        if end > 0 {
            self.copy_ended(&piece[..end])?;
        }
        self.waiting.extend_from_slice(&piece[end..])?;
        Ok(())
    }

    /// Reads the end of the log, which may end its last record.
    pub fn finish(&mut self) -> Result<(), CutFault>
        ensures { OnOk result ((step : ℕ) (log : List ℕ) (handed : ℕ → List ℕ) → HasRead step log handed self.old → HasCutAll step log handed self.new) }
    {
        let rest = std::mem::replace(&mut self.waiting, Vec::new(self.alloc));
        self.take_part(&rest, None, &rest)?;
        for file in 0..self.outputs.count() {
            self.tell_size(file)?;
        }
        Ok(())
    }

    /// What is to be written of what was read since the last call, for each file once: it is handed out once.
    pub fn drain(&mut self) -> Result<Vec<Text>, CutFault>
        ensures { IfOk result (λ texts. Drains self.old texts.items self.new) }
    {
        let texts = self.outputs.drain()?;
        Ok(texts)
    }

    /// The lines that are to be said of what was read since the last call: they are handed out once.
    pub fn notes(&mut self) -> Vec<String>
        ensures reads { (step : ℕ) (log : List ℕ) (handed : ℕ → List ℕ) → HasRead step log handed self.old → HasRead step log handed self.new }
        ensures same { self.new.sections ≡ self.old.sections }
    {
        self.notes.take()
    }

    /// How many files have bytes.
    pub fn files(&self) -> usize {
        self.outputs.count()
    }

    /// How many records were read.
    pub fn records(&self) -> u64 {
        self.records
    }

    /// How many cuts were made.
    pub fn cuts(&self) -> u64 {
        self.cuts
    }

    /// How many things were said.
    pub fn told(&self) -> u64
        ensures { result ≡ 0 → lost_in self.now.sections.items ≡ 0 }
    {
        self.notes.long().saturating_add(lost_in(&self.sections))
    }

    // Cuts the parts that wait and those of these bytes, which a separator ends.
    fn copy_ended(&mut self, bytes: &[u8]) -> Result<(), CutFault>
        ensures { OnOk result ((step : ℕ) (log : List ℕ) (handed : ℕ → List ℕ) → HasRead step log handed self.old → HasRead step (log ++ bytes.now) handed self.new) }
    {
        self.waiting.extend_from_slice(bytes)?;
        let text = std::mem::replace(&mut self.waiting, Vec::new(self.alloc));
        let end = self.copy(&text)?;
        let mut rest = Vec::new(self.alloc);
        rest.extend_from_slice(&text[end..])?;
        self.waiting = rest;
        Ok(())
    }

    // Cuts the parts that a separator ends; how many bytes they have.
    fn copy(&mut self, text: &[u8]) -> Result<usize, CutFault>
        ensures within { IfOk result (λ end. end ≤ length text.now) }
        ensures unended { IfOk result (λ end. parts_of (drop end text.now) ≡ drop end text.now ∷ []) }
        ensures cuts { IfOk result (CutsParts self.old self.new text.now) }
    {
        let mut start = 0;
        while let Some((len, says)) = next_part(&text[start..]) {
            let end = start + len;
            self.take_part(&text[start..end], says, &text[start..end + 1])?;
            start = end + 1;
        }
        Ok(start)
    }

    // Cuts a part of the text, which these bytes are, with its separator where it has one; it may be known to say an event.
    fn take_part(&mut self, part: &[u8], says: Option<Event>, bytes: &[u8]) -> Result<(), CutFault>
        requires { IfSome says (SaysAlone part.now) }
        ensures { OnOk result (CutsPart self.old self.new part.now bytes.now) }
    {
        self.copy_part(part, says, bytes)?;
        if self.outputs.is_full() {
            self.begin_file()?;
        }
        Ok(())
    }

    fn copy_part(&mut self, part: &[u8], says: Option<Event>, bytes: &[u8]) -> Result<(), CutFault>
        requires { IfSome says (SaysAlone part.now) }
        ensures { OnOk result (CutsPart self.old self.new part.now bytes.now) }
    {
        if let Some(event) = says {
            self.records = self.records.saturating_add(1);
            self.happen(&event, bytes)?;
            return Ok(());
        }
        let record = trim(part);
        if record.is_empty() {
            self.pass(bytes)?;
            return Ok(());
        }
        self.records = self.records.saturating_add(1);
        self.take_record(record, bytes)?;
        Ok(())
    }

    // Cuts a record.
    fn take_record(&mut self, record: &[u8], bytes: &[u8]) -> Result<(), CutFault>
        ensures { OnOk result (CutsAny self.old self.new record.now bytes.now) }
    {
        match read_record(record) {
            Ok(Saying::Happens(event)) => self.happen(&event, bytes)?,
            Ok(Saying::Enters(number)) => self.mark(number, bytes)?,
            Ok(Saying::Skipped) => self.pass(bytes)?,
            Err(cause) => return Err(self.refusal(cause)),
        }
        Ok(())
    }

    // What says nothing goes to the newest file.
    fn pass(&mut self, bytes: &[u8]) -> Result<(), AllocError>
        ensures { OnOk result (CutsNothing self.old self.new bytes.now) }
    {
        let newest = self.outputs.newest();
        let current = self.outputs.current(newest);
        self.outputs.push(newest, bytes, current)?;
        Ok(())
    }

    // The section of this number is current in what is read; and in the file to which the marker goes, if it goes to one.
    fn mark(&mut self, number: u64, bytes: &[u8]) -> Result<(), CutFault>
        ensures { OnOk result (CutsRecord self.old self.new bytes.now (Enters number)) }
    {
        let place = self.place_of(number)?;
        self.current = Some(place);
        if place >= self.sections.len() {
            return Ok(());
        }
        let section = &self.sections[place];
        if !self.outputs.are_several() || section.name == number {
            self.outputs.push(section.file, bytes, number)?;
        }
        Ok(())
    }

    // An event happens in the section that is current.
    fn happen(&mut self, event: &Event, bytes: &[u8]) -> Result<(), CutFault>
        ensures { OnOk result (CutsRecord self.old self.new bytes.now (Happens event.now)) }
    {
        let place = self.current_place()?;
        self.cut_if_due(place, event)?;
        self.take_event(place, event, bytes)?;
        Ok(())
    }

    // Where the section stands that is current.
    #[tactic(auto, using(crate::proofs::CuttingLemmas::current_at))]
    fn current_place(&mut self) -> Result<usize, CutFault>
        ensures { IfOk result (FindsCurrent self.old self.new) }
    {
        match self.current {
            Some(place) => Ok(place),
            None => {
                let place = self.place_of(0)?;
                self.current = Some(place);
                Ok(place)
            }
        }
    }

    // Where the section of this number stands, which is there from now on.
    fn place_of(&mut self, number: u64) -> Result<usize, CutFault>
        ensures { IfOk result (Finds self.old self.new number) }
    {
        match self.places.get(&number) {
            Some(place) => Ok(*place),
            None => self.open(number),
        }
    }

    // A section of this number, which has none, begins; where it stands.
    fn open(&mut self, number: u64) -> Result<usize, CutFault>
        ensures { get nat_cmp self.old.places number ≡ None → IfOk result (Finds self.old self.new number) }
    {
        self.name(number, number)?;
        let place = self.sections.len();
        let file = self.outputs.newest();
        self.sections
            .push(Cutting::new(self.alloc, number, file, self.limit))?;
        self.places.insert(number, place)?;
        Ok(place)
    }

    // A part of the section gets a number, in a file that has room for it.
    fn name(&mut self, name: u64, number: u64) -> Result<(), CutFault>
        ensures { OnOk result (Names self.old self.new name number) }
    {
        if let Some(section) = self.names.get(&name) {
            return Err(CutFault::Taken {
                at: self.records,
                section: *section,
                number: name,
            });
        }
        if self.named >= SECTION_LIMIT {
            if !self.outputs.are_several() {
                return Err(self.refusal(Cause::TooManySections));
            }
            self.begin_file()?;
        }
        self.names.insert(name, number)?;
        self.named = self.named.saturating_add(1);
        Ok(())
    }

    // Begins the next file.
    fn begin_file(&mut self) -> Result<(), AllocError>
        ensures { OnOk result (BeginsFile self.old self.new) }
    {
        self.outputs.begin()?;
        self.named = 0;
        Ok(())
    }

    fn refused(&self, fault: PartFault) -> CutFault {
        match fault {
            PartFault::TooManyEvents => self.refusal(Cause::TooManyEvents),
            PartFault::OutOfMemory => CutFault::OutOfMemory,
        }
    }

    fn refusal(&self, cause: Cause) -> CutFault {
        CutFault::Log(LogFault {
            at: self.records,
            cause,
        })
    }

    // Cuts the section in front of this event, if it has to be.
    fn cut_if_due(&mut self, place: usize, event: &Event) -> Result<(), CutFault>
        ensures { OnOk result (Keeps self.old self.new place) }
    {
        let newest = self.outputs.newest();
        if place >= self.sections.len() || !self.sections[place].is_due(newest) {
            return Ok(());
        }
        self.seek_cut(place, event, newest)?;
        Ok(())
    }

    // Cuts the section in front of this event, where that is good.
    fn seek_cut(&mut self, place: usize, event: &Event, newest: usize) -> Result<(), CutFault>
        ensures { OnOk result (Keeps self.old self.new place) }
    {
        if place >= self.sections.len() {
            return Ok(());
        }
        let section = &mut self.sections[place];
        match section.next_part(self.alloc, event, self.limit, newest, &mut self.notes) {
            Ok(Some(next)) => self.cut(place, next)?,
            Ok(None) => {}
            Err(fault) => return Err(self.refused(fault)),
        }
        Ok(())
    }

    // The section goes on with this part, under the next number.
    fn cut(&mut self, place: usize, next: NextPart) -> Result<(), CutFault>
        ensures { OnOk result (KeepsWith self.old self.new place next) }
    {
        if place >= self.sections.len() {
            return Ok(());
        }
        let section = &self.sections[place];
        let number = section.number;
        let name = match section.name.checked_add(self.step) {
            Some(name) => name,
            None => {
                return Err(CutFault::NoNumber {
                    at: self.records,
                    section: number,
                });
            }
        };
        self.name(name, number)?;
        self.cuts = self.cuts.saturating_add(1);
        self.begin(place, name, next)?;
        Ok(())
    }

    // The section's part begins in the newest file.
    #[tactic(auto, using(std::proofs::lemmas::Option::slice_get_within))]
    fn begin(&mut self, place: usize, name: u64, next: NextPart) -> Result<(), AllocError>
        ensures { OnOk result ((section : Cutting) → slice_get self.old.sections.items place ≡ Some section → BeginsPart self.old self.new place name next section) }
    {
        let limit = self.limit;
        let file = self.outputs.newest();
        self.outputs.say(file, name, &next.head)?;
        if place < self.sections.len() {
            self.sections[place].go_on(next.part, name, file, limit)?;
        }
        Ok(())
    }

    // The section has one event more, and so has its part's file.
    fn take_event(&mut self, place: usize, event: &Event, bytes: &[u8]) -> Result<(), CutFault>
        ensures { OnOk result (TakesAt self.old self.new place bytes.now (Happens event.now)) }
    {
        if place >= self.sections.len() {
            return Ok(());
        }
        let section = &mut self.sections[place];
        let (file, name) = (section.file, section.name);
        match section.take(event, &mut self.notes) {
            Ok(()) => self.outputs.put(file, name, bytes)?,
            Err(fault) => return Err(self.refused(fault)),
        }
        Ok(())
    }

    // Whether a file has more bytes than it may have.
    fn tell_size(&mut self, file: usize) -> Result<(), AllocError>
        ensures outputs { self.new.outputs ≡ self.old.outputs }
        ensures sections { self.new.sections ≡ self.old.sections }
    {
        let size = self.outputs.size(file);
        let most = self.outputs.most();
        if size <= most {
            return Ok(());
        }
        let number = if self.outputs.are_several() {
            Some(file.saturating_add(1))
        } else {
            None
        };
        self.notes.tell_size(number, size, most)
    }
}

// How many bytes there are up to the last separator, with it.
fn ended(piece: &[u8]) -> usize
    ensures within { result ≤ length piece.now }
    ensures unended { parts_of (drop result piece.now) ≡ drop result piece.now ∷ [] }
{
    match memrchr3(b'|', b'\n', b'\r', piece) {
        Some(end) => end + 1,
        None => 0,
    }
}

// How often it was said of the sections that an order assertion may have lost its FAIL.
fn lost_in(sections: &[Cutting]) -> u64
    ensures { result ≡ 0 → lost_in sections.now ≡ 0 }
{
    let mut lost: u64 = 0;
    for section in sections {
        lost = lost.saturating_add(section.lost);
    }
    lost
}
