//! Where each event of each section of a log stands.

ghost use Rattle.std.specs.Prelude.{◌≡◌, ◌+◌, ◌<◌, ◌≤◌, ◌^◌, ℕ, List, [], ◌∷◌, ◌++◌, length, take, Ok, Err, IfOk, OnOk};

use crate::locate::Located;
use crate::usual::usual_name;
use crate::walking::{Found, next_record};
use pmf_storelog::{Saying, read_record};
use std::alloc::{AllocError, Global};
use std::collections::BTreeMap;

/// Where each event of each section of a log stands.
#[derive(Debug, Drop)]
pub struct Standing<'a> {
    alloc: Global,
    /// Of the sections that have an event, by their numbers.
    places: BTreeMap<u64, Vec<Located<'a>>>,
    // Of any other.
    none: Vec<Located<'a>>,
    ghost none_is_empty: { none.items ≡ [] },
}

impl<'a> Standing<'a> {
    ghost use Rattle.pmf_storelog.specs.Separators.{records_of};
    ghost use Rattle.pmf_query.specs.{Locating.{AreLocations, IsFaultless}, Standing.{AddsLocation, HasWalked, Stands, located_in}, Walking.{BeginsAnew}};

    /// Where each event of each section of the log stands, faults or not, by one walk over its records.
    ///
    /// Takes memory for a location of each event.
    pub fn of(alloc: Global, log: &'a [u8]) -> Result<Standing<'a>, AllocError>
        ensures { IfOk result (λ standing. Stands log.now standing) }
    {
        let mut walked = Walked::none(alloc);
        let mut start = 0;
        while let Some(found) = next_record(log, start) {
            walked.pass(found)?;
            start = found.next;
        }
        Ok(walked.standing)
    }

    /// The same of a log without a fault: a record that begins with the name of a usual event gives one, and is not read again.
    pub fn of_faultless(alloc: Global, log: &'a [u8]) -> Result<Standing<'a>, AllocError>
        requires { IsFaultless log.now }
        ensures { IfOk result (λ standing. Stands log.now standing) }
    {
        let mut walked = Walked::none(alloc);
        let mut start = 0;
        while let Some(found) = next_record(log, start) {
            walked.pass_sound(found)?;
            start = found.next;
        }
        Ok(walked.standing)
    }

    /// Where the events of the section of this number stand: that of its event number k, counted from 1, at index k - 1.
    pub fn in_section(&self, section: u64) -> &[Located<'a>]
        ensures { (bytes : List ℕ) → Stands bytes self.now → AreLocations bytes section result.now }
    {
        self.kept_of(section)
    }

    /// The same, as it is kept.
    pub fn kept_of(&self, section: u64) -> &[Located<'a>]
        ensures { result.now ≡ located_in self.now section }
    {
        let Some(found) = self.places.get(&section) else {
            return &self.none;
        };
        found
    }

    fn add(&mut self, section: u64, found: Located<'a>) -> Result<(), AllocError>
        ensures { OnOk result (AddsLocation section found.entry self.old self.new) }
    {
        if let Some(before) = self.places.get_mut(&section) {
            before.push(found)?;
            return Ok(());
        }
        let mut first = Vec::new(self.alloc);
        first.push(found)?;
        self.places.insert(section, first)?;
        Ok(())
    }
}

// What the records that were passed say.
#[derive(Drop)]
struct Walked<'a> {
    // How many there were.
    records: u64,
    // The number of the section that is current.
    current: u64,
    standing: Standing<'a>,
}

impl<'a> Walked<'a> {
    ghost use Rattle.pmf_event.specs.declared.event.Event.{Event};
    ghost use Rattle.pmf_storelog.specs.{Records.{record_of}, Separators.{records_of}, declared.fault.Cause.{Cause}, declared.record.Saying.TheVariants.{Happens}};
    ghost use Rattle.pmf_query.specs.{Standing.{HasWalked}, Walking.{IsNext}};

    fn none(alloc: Global) -> Walked<'a>
        ensures walked { (bytes : List ℕ) → HasWalked bytes [] result }
        ensures none { result.records ≡ 0 }
    {
        Walked {
            records: 0,
            current: 0,
            standing: Standing {
                alloc,
                places: BTreeMap::new(alloc),
                none: Vec::new(alloc),
            },
        }
    }

    // Passes a record that is not refused.
    fn pass_sound(&mut self, found: Found<'a>) -> Result<(), AllocError>
        requires room { self.old.records + 1 < 2 ^ 64 }
        requires sound { (cause : Cause) → record_of found.text.now ≡ Err cause → ⊥ }
        ensures count { OnOk result (self.new.records ≡ self.old.records + 1) }
        ensures walked { (bytes : List ℕ) (start : ℕ) → IsNext bytes start found.entry.offset found.entry.text.now found.entry.next
            → HasWalked bytes (records_of (take start bytes)) self.old
            → OnOk result (HasWalked bytes (records_of (take found.entry.next bytes)) self.new) }
    {
        if let Some(_index) = usual_name(found.text) {
            self.pass_event(found)?;
            return Ok(());
        }
        self.pass(found)?;
        Ok(())
    }

    // Passes a record that gives an event.
    fn pass_event(&mut self, found: Found<'a>) -> Result<(), AllocError>
        requires room { self.old.records + 1 < 2 ^ 64 }
        requires event { (event : Event) × (record_of found.text.now ≡ Ok (Happens event)) }
        ensures count { OnOk result (self.new.records ≡ self.old.records + 1) }
        ensures walked { (bytes : List ℕ) (start : ℕ) → IsNext bytes start found.entry.offset found.entry.text.now found.entry.next
            → HasWalked bytes (records_of (take start bytes)) self.old
            → OnOk result (HasWalked bytes (records_of (take found.entry.next bytes)) self.new) }
    {
        self.records += 1;
        let here = Located {
            record: self.records,
            offset: found.offset as u64,
            text: found.text,
        };
        self.standing.add(self.current, here)
    }

    fn pass(&mut self, found: Found<'a>) -> Result<(), AllocError>
        requires room { self.old.records + 1 < 2 ^ 64 }
        ensures count { OnOk result (self.new.records ≡ self.old.records + 1) }
        ensures walked { (bytes : List ℕ) (start : ℕ) → IsNext bytes start found.entry.offset found.entry.text.now found.entry.next
            → HasWalked bytes (records_of (take start bytes)) self.old
            → OnOk result (HasWalked bytes (records_of (take found.entry.next bytes)) self.new) }
    {
        self.records += 1;
        match read_record(found.text) {
            Ok(Saying::Happens(_)) => {
                let located = Located {
                    record: self.records,
                    offset: found.offset as u64,
                    text: found.text,
                };
                self.standing.add(self.current, located)
            }
            Ok(Saying::Enters(number)) => {
                self.current = number;
                Ok(())
            }
            Ok(Saying::Skipped) => Ok(()),
            Err(_) => Ok(()),
        }
    }
}
