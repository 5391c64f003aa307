//! The lines that are said while a log is cut.

use std::alloc::{AllocError, Global};

/// The lines that are to be said.
#[derive(Debug, Drop)]
pub(crate) struct Notes {
    alloc: Global,
    lines: Vec<String>,
    /// How often it was said that a part or a file is too long.
    long: u64,
}

impl Notes {
    pub(crate) fn new(alloc: Global) -> Notes {
        Notes {
            alloc,
            lines: Vec::new(alloc),
            long: 0,
        }
    }

    /// How often it was said that a part or a file is too long.
    pub(crate) fn long(&self) -> u64 {
        self.long
    }

    /// The lines since the last call: they are handed out once.
    pub(crate) fn take(&mut self) -> Vec<String> {
        std::mem::replace(&mut self.lines, Vec::new(self.alloc))
    }

    /// Says this of the event of the section.
    pub(crate) fn tell(&mut self, section: u64, event: u64, text: &str) -> Result<(), AllocError> {
        let line = format!(in self.alloc; "section {section}, event {event}: {text}")?;
        self.lines.push(line)?;
        Ok(())
    }

    /// Says that a part gets longer than it may be.
    pub(crate) fn tell_length(
        &mut self,
        section: u64,
        event: u64,
        limit: u32,
        why: &str,
    ) -> Result<(), AllocError> {
        self.long = self.long.saturating_add(1);
        let text = format!(in self.alloc; "the piece has more than {limit} events: {why}")?;
        self.tell(section, event, text.as_str())
    }

    /// Says that a file has more bytes than it may have: the file of a number from 1, or the one that there is.
    pub(crate) fn tell_size(
        &mut self,
        file: Option<usize>,
        size: u64,
        most: u64,
    ) -> Result<(), AllocError> {
        self.long = self.long.saturating_add(1);
        let line = match file {
            Some(number) => {
                format!(in self.alloc; "file {number} has {size} bytes, more than {most}")?
            }
            None => {
                format!(in self.alloc; "the cut log has {size} bytes, more than a log may have")?
            }
        };
        self.lines.push(line)?;
        Ok(())
    }
}
