//! What a closed board tells.

ghost use Rattle.std.specs.Prelude.{◌≡◌, ◌<◌, List, length};
ghost use Rattle.pmf_board.specs.{declared.entry.Entry.{Entry}, Machine.{entry_at}};

use crate::entry::Entry;
use std::marker::Model;

/// What stood of each section when its board was closed. Contracts see it as the list of its entries.
#[derive(Debug, Drop)]
pub struct Tally {
    pub(crate) entries: Vec<Entry>,
}

impl Model for Tally {
    ghost Value = { List Entry };

    ghost view = { λ t. t.entries.items };
}

impl Tally {
    /// How often the section was handed out.
    pub fn handouts(&self, section: u32) -> u32
        requires { section < length self.now }
        ensures { result ≡ (entry_at self.now section).handouts }
    {
        self.entries[section as usize].handouts
    }

    /// Whether the section is done.
    pub fn done(&self, section: u32) -> bool
        requires { section < length self.now }
        ensures { result ≡ (entry_at self.now section).done }
    {
        self.entries[section as usize].done
    }
}
