//! What goes out: the files that a log is cut into, of which there may be one alone.

ghost use Rattle.std.specs.Prelude.{◌≡◌, ◌≢◌, ◌<◌, ℕ, List, [], ◌∷◌, length, Contains, OnOk, IfOk, Ok, Bool, true};

use crate::record::{event_record, marker};
use pmf_event::Event;
use pmf_storelog::LOG_LIMIT;
use std::alloc::{AllocError, Global};

/// A file.
#[derive(Debug, Drop)]
pub(crate) struct Output {
    /// What is to be written to it.
    text: Vec<u8>,
    /// How many bytes it has, with those.
    size: u64,
    /// The number that is current in it.
    current: u64,
}

/// What is to be written to a file.
#[derive(Debug, Drop)]
pub struct Text {
    /// The file, counted from 0.
    pub file: usize,
    /// What is to be written at its end.
    pub bytes: Vec<u8>,
}

/// The files, in the order in which they begin.
#[derive(Debug, Drop)]
pub(crate) struct Outputs {
    alloc: Global,
    files: Vec<Output>,
    /// Those that have bytes to be written, in the order in which they got them.
    waiting: Vec<usize>,
    /// How many bytes a file has at most; none where all goes to one.
    most: Option<u64>,
    ghost some: { 0 < length files.items },
}

impl Output {
    fn new(alloc: Global) -> Output
        ensures text { result.text.items ≡ [] }
        ensures current { result.current ≡ 0 }
    {
        Output {
            text: Vec::new(alloc),
            size: 0,
            current: 0,
        }
    }
}

impl Outputs {
    ghost use Rattle.pmf_event.specs.declared.event.Event.{Event};
    ghost use Rattle.pmf_storelog.specs.{Records.{record_of}, declared.record.Saying.TheVariants.{Happens}};
    ghost use Rattle.pmf_cut.specs.Outputs.{AllWait, Begins, HandsOut, Holds, IsNew, Puts, Says, current_in, waiting_in};

    /// One file, which holds nothing; others follow it where a file has at most so many bytes.
    pub(crate) fn new(alloc: Global, most: Option<u64>) -> Result<Outputs, AllocError>
        ensures { IfOk result IsNew }
    {
        let mut files = Vec::new(alloc);
        files.push(Output::new(alloc))?;
        Ok(Outputs {
            alloc,
            files,
            waiting: Vec::new(alloc),
            most,
        })
    }

    /// Whether there may be several.
    pub(crate) fn are_several(&self) -> bool {
        self.most.is_some()
    }

    /// How many bytes a file may have.
    pub(crate) fn most(&self) -> u64 {
        self.most.unwrap_or(LOG_LIMIT as u64)
    }

    /// How many files have bytes.
    pub(crate) fn count(&self) -> usize {
        let newest = self.newest();
        newest + usize::from(self.size(newest) > 0)
    }

    /// The file that began last.
    pub(crate) fn newest(&self) -> usize
        ensures { result < length self.now.files.items }
    {
        self.files.len() - 1
    }

    /// How many bytes the file has.
    pub(crate) fn size(&self, file: usize) -> u64 {
        match self.files.get(file) {
            Some(output) => output.size,
            None => 0,
        }
    }

    /// The number that is current in the file.
    pub(crate) fn current(&self, file: usize) -> u64
        ensures { result ≡ current_in self.now file }
    {
        match self.files.get(file) {
            Some(output) => output.current,
            None => 0,
        }
    }

    /// These bytes go to the file, too, where this number is current then.
    #[tactic(auto, using(crate::proofs::OutputLemmas::puts_set))]
    pub(crate) fn push(&mut self, file: usize, bytes: &[u8], current: u64) -> Result<(), AllocError>
        ensures { OnOk result (Puts self.old self.new file bytes.now current) }
    {
        self.wait_for(file)?;
        if file >= self.files.len() {
            return Ok(());
        }
        let output = &mut self.files[file];
        output.text.extend_from_slice(bytes)?;
        output.size = output.size.saturating_add(bytes.len() as u64);
        output.current = current;
        Ok(())
    }

    // The file is among those that have bytes to be written.
    fn wait_for(&mut self, file: usize) -> Result<(), AllocError>
        ensures files { self.new.files ≡ self.old.files }
        ensures waits { OnOk result (AllWait self.old → AllWait self.new) }
        ensures has { OnOk result (AllWait self.old → file < length self.old.files.items → Contains self.new.waiting.items file) }
    {
        match self.files.get(file) {
            Some(output) if output.text.is_empty() => self.waiting.push(file)?,
            _ => {}
        }
        Ok(())
    }

    /// This number is current in the file from here on: a marker says so, where another one was.
    pub(crate) fn enter(&mut self, file: usize, number: u64) -> Result<(), AllocError>
        ensures { OnOk result (Says true file number [] self.old self.new) }
    {
        if self.current(file) == number {
            return Ok(());
        }
        let bytes = marker(self.alloc, number)?;
        self.push(file, &bytes, number)?;
        Ok(())
    }

    /// The file says these events of the section with this number, too.
    pub(crate) fn say(
        &mut self,
        file: usize,
        number: u64,
        events: &[Event],
    ) -> Result<(), AllocError>
        ensures { OnOk result (Says true file number events.now self.old self.new) }
    {
        self.enter(file, number)?;
        for event in events {
            let bytes = event_record(self.alloc, event)?;
            self.push(file, &bytes, number)?;
        }
        Ok(())
    }

    /// The file says the event of this record of the section with this number, too.
    pub(crate) fn put(&mut self, file: usize, number: u64, bytes: &[u8]) -> Result<(), AllocError>
        ensures { OnOk result ((ends : Bool) (text : List ℕ) (event : Event) → Holds ends bytes.now (text ∷ []) → record_of text ≡ Ok (Happens event)
            → Says ends file number (event ∷ []) self.old self.new) }
    {
        self.enter(file, number)?;
        self.push(file, bytes, number)?;
        Ok(())
    }

    /// Whether the next file is to begin. An eighth of a file is room for the parts that go on in it then.
    pub(crate) fn is_full(&self) -> bool {
        self.most
            .is_some_and(|most| self.size(self.newest()) >= most - most / 8)
    }

    /// Begins the next file.
    pub(crate) fn begin(&mut self) -> Result<(), AllocError>
        ensures { OnOk result (Begins self.old self.new) }
    {
        self.files.push(Output::new(self.alloc))?;
        Ok(())
    }

    /// What is to be written, which is handed out once.
    #[tactic(auto, using(crate::proofs::OutputLemmas::drained_empty))]
    pub(crate) fn drain(&mut self) -> Result<Vec<Text>, AllocError>
        ensures { IfOk result (λ texts. HandsOut self.old texts.items self.new) }
    {
        let alloc = self.alloc;
        let waiting = std::mem::replace(&mut self.waiting, Vec::new(alloc));
        let mut texts = Vec::new(alloc);
        for file in &waiting {
            let bytes = self.take_text(*file);
            if bytes.is_empty() {
                continue;
            }
            texts.push(Text { file: *file, bytes })?;
        }
        Ok(texts)
    }

    // What is to be written to the file, which has nothing to be written then.
    fn take_text(&mut self, file: usize) -> Vec<u8>
        ensures taken { result.items ≡ waiting_in self.old file }
        ensures none_left { waiting_in self.new file ≡ [] }
        ensures others { (other : ℕ) → other ≢ file → waiting_in self.new other ≡ waiting_in self.old other }
        ensures currents { (other : ℕ) → current_in self.new other ≡ current_in self.old other }
        ensures count { length self.new.files.items ≡ length self.old.files.items }
    {
        let none = Vec::new(self.alloc);
        if file >= self.files.len() {
            return none;
        }
        std::mem::replace(&mut self.files[file].text, none)
    }
}
