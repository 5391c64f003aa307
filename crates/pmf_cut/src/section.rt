//! A section that is cut, up to some event.

ghost use Rattle.std.specs.Prelude.{◌≡◌, ℕ, List, [], IfOk, IfSome, OnOk};
ghost use Rattle.pmf_event.specs.declared.event.Event.{Event};
ghost use Rattle.pmf_cut.specs.{Cutting.{BeginsNext, GoesOnAs, HasPart, HasPast, IsKept, IsSame, SamePast, TakesEvent, TellsLost}, Deferred.{Begins, StaysUpTo}, Parts.{IsPartOf}, declared.part.Part.{Part}};
ghost use Rattle.pmf_event.specs.declared.event.Event.TheVariants.{Ordered};

use crate::deferred::Deferred;
use crate::lost::Past;
use crate::notes::Notes;
use crate::part::{Part, PartFault};
use crate::renewing::Renewal;
use pmf_event::{ADDRESS_LIMIT, Event, Span};
use std::alloc::{AllocError, Global};

/// A section of the log, and the part of it that goes on.
#[derive(Debug, Drop)]
pub(crate) struct Cutting {
    /// Its number.
    pub(crate) number: u64,
    /// The number of its part.
    pub(crate) name: u64,
    /// The file that its part goes to.
    pub(crate) file: usize,
    /// How many events it has had.
    events: u64,
    /// Its part.
    part: Deferred,
    /// How many events the part began with.
    head: u32,
    /// What the parts before it know.
    past: Past,
    /// From how many events of the part on a cut is looked for.
    due: u32,
    /// And from how many on stores may be open there.
    overdue: u32,
    /// The file that was the newest one when a cut was last looked for.
    newest: usize,
    /// Whether it was told that the part is too long.
    is_told: bool,
    /// How often it was told that an order assertion may have lost its FAIL.
    pub(crate) lost: u64,
}

/// The part that a section goes on with, and the events that it has had.
#[derive(Debug, Drop)]
pub(crate) struct NextPart {
    pub(crate) head: Vec<Event>,
    pub(crate) part: Part,
}

impl Cutting {
    /// A section of no events.
    pub(crate) fn new(alloc: Global, number: u64, file: usize, limit: u32) -> Cutting
        ensures has { HasPart result number number file result.part }
        ensures part { (part : Part) × Begins part result.part × ((es : List Event) → IsPartOf part es 0 [] 0) }
        ensures past { (es : List Event) → HasPast result es 0 [] }
    {
        Cutting {
            number,
            name: number,
            file,
            events: 0,
            part: Deferred::new(alloc, Part::new(alloc)),
            head: 0,
            past: Past::new(alloc),
            due: due_after(0, limit),
            overdue: overdue_after(0, limit),
            newest: file,
            is_told: false,
            lost: 0,
        }
    }

    /// Whether a cut is looked for, where this file is the newest one.
    pub(crate) fn is_due(&self, newest: usize) -> bool {
        self.newest != newest || self.part.events() >= self.due
    }

    /// The part that goes on in front of this event, where the section is to be cut there, with the file that is the newest one.
    pub(crate) fn next_part(
        &mut self,
        alloc: Global,
        event: &Event,
        limit: u32,
        newest: usize,
        notes: &mut Notes,
    ) -> Result<Option<NextPart>, PartFault>
        ensures same { OnOk result (IsKept self.old self.new) }
        ensures begins { IfOk result (λ found. IfSome found (BeginsNext self.new)) }
    {
        self.hurry(newest);
        self.part.catch_up()?;
        if !self.part.part().is_outside() {
            self.tell_length(limit, notes, "a transaction or a scope is open")?;
            return Ok(None);
        }
        if !self.is_good(event, limit) {
            return Ok(None);
        }
        let open = self.part.part().shadow.open_runs();
        if open > self.most_open(limit) {
            self.put_off(alloc, limit, open, notes)?;
            return Ok(None);
        }
        let Renewal { head, part } = self.part.part().renewed(alloc, most_of_a_head(limit))?;
        match part {
            Some(part) => Ok(Some(NextPart { head, part })),
            None => {
                self.put_off(alloc, limit, head.len(), notes)?;
                Ok(None)
            }
        }
    }

    // Where a file has begun, a cut is looked for from here on, even where stores are open.
    fn hurry(&mut self, newest: usize)
        ensures { IsSame self.old self.new }
    {
        if self.newest != newest {
            self.newest = newest;
            let length = self.part.events();
            self.due = self.due.min(length);
            self.overdue = self.overdue.min(length);
        }
    }

    // Whether to cut in front of this event, where it may be: in front of any in a part of as many events as it may have; before that
    // in front of one that begins something; and until it is overdue only where nothing is open.
    fn is_good(&self, event: &Event, limit: u32) -> bool {
        (self.part.events() >= limit || begins(event))
            && (self.part.events() >= self.overdue || self.is_durable())
    }

    // How many open runs a head may tell: before the part is full, and where no file waits for the cut, as many as take half of the next
    // part.
    fn most_open(&self, limit: u32) -> usize {
        if self.part.events() < limit && self.file == self.newest {
            limit as usize / 2
        } else {
            most_of_a_head(limit)
        }
    }

    // Whether no store is open.
    fn is_durable(&self) -> bool {
        self.part
            .part()
            .shadow
            .least_undurable(0, ADDRESS_LIMIT)
            .is_none()
    }

    /// The event happens; where it is an order assertion that the cuts may have changed, that is said. After an `Err` the section is
    /// of no use.
    pub(crate) fn take(&mut self, event: &Event, notes: &mut Notes) -> Result<(), PartFault>
        ensures { OnOk result (TakesEvent self.old self.new event.now) }
    {
        if let Event::Ordered(before, after) = event {
            self.tell_lost(*before, *after, notes)?;
        }
        self.events = self.events.saturating_add(1);
        self.part.take(*event)?;
        Ok(())
    }

    fn tell_lost(&mut self, before: Span, after: Span, notes: &mut Notes) -> Result<(), PartFault>
        ensures same { OnOk result (HasPart self.new self.old.number self.old.name self.old.file self.new.part) }
        ensures stays { OnOk result (StaysUpTo self.old.part self.new.part × SamePast self.old self.new) }
        ensures lost { OnOk result (TellsLost self.old self.new (Ordered before after)) }
    {
        if self.past.is_empty() {
            return Ok(());
        }
        self.part.catch_up()?;
        let shadow = &self.part.part().shadow;
        if self.past.may_lose(shadow, self.head, before, after) {
            self.lost = self.lost.saturating_add(1);
            notes.tell(
                self.number,
                self.next_event(),
                "PMT.ORDERED names bytes of before the cut: it may have lost its FAIL",
            )?;
        }
        Ok(())
    }

    /// Goes on with this part, under this name and in this file. After an `Err` the section is of no use.
    pub(crate) fn go_on(
        &mut self,
        part: Part,
        name: u64,
        file: usize,
        limit: u32,
    ) -> Result<(), AllocError>
        ensures { OnOk result (GoesOnAs self.old self.new name file part) }
    {
        let head = part.events();
        let ended = self.part.go_on(part);
        self.past.add(ended)?;
        self.head = head;
        self.name = name;
        self.file = file;
        self.due = due_after(head, limit);
        self.overdue = overdue_after(head, limit);
        self.newest = file;
        self.is_told = false;
        Ok(())
    }

    // A head would leave no room: a cut is looked for again where nothing is open, and else when the part is full, or is longer by as much.
    fn put_off(
        &mut self,
        alloc: Global,
        limit: u32,
        told: usize,
        notes: &mut Notes,
    ) -> Result<(), AllocError>
        ensures { OnOk result (IsSame self.old self.new) }
    {
        let length = self.part.events();
        self.overdue = if length < limit {
            limit
        } else {
            length.saturating_add(limit)
        };
        if self.is_durable() {
            self.due = self.overdue;
        }
        let why = format!(in alloc; "what is excluded or not durable takes about {told} events")?;
        self.tell_length(limit, notes, why.as_str())?;
        Ok(())
    }

    // A part gets longer than it may be; told once.
    fn tell_length(&mut self, limit: u32, notes: &mut Notes, why: &str) -> Result<(), AllocError>
        ensures { OnOk result (IsSame self.old self.new) }
    {
        if self.is_told || self.part.events() < limit {
            return Ok(());
        }
        self.is_told = true;
        notes.tell_length(self.number, self.next_event(), limit, why)?;
        Ok(())
    }

    // The number of the event that happens next, counted from 1.
    fn next_event(&self) -> u64 {
        self.events.saturating_add(1)
    }
}

// Whether this event begins something.
fn begins(event: &Event) -> bool {
    match event {
        Event::Store(_) | Event::TxBegin | Event::CheckStart => true,
        _ => false,
    }
}

// How many events a head may have: behind a longer one a part had no room to speak of.
fn most_of_a_head(limit: u32) -> usize {
    limit.saturating_sub((limit / 16).max(1)) as usize
}

// Three quarters of the room behind a head, and at least one event.
fn due_after(head: u32, limit: u32) -> u32 {
    let room = u64::from(limit.saturating_sub(head));
    head.saturating_add((room * 3 / 4) as u32)
        .max(head.saturating_add(1))
}

// Seven eighths of it.
fn overdue_after(head: u32, limit: u32) -> u32 {
    let room = u64::from(limit.saturating_sub(head));
    head.saturating_add((room * 7 / 8) as u32)
        .max(head.saturating_add(1))
}
