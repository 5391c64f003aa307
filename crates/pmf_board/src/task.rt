//! A hand-out of a section, in the hands of who took it.

ghost use Rattle.std.specs.Prelude.{◌≡◌};

/// A hand-out: a section, and which of its hand-outs this is, from 1 to 8. Only a take gives one, so a task
/// stands for a hand-out that the board counted. It may be dropped: the section stays handed out.
#[derive(Debug, PartialEq, Eq, Drop)]
pub struct Task {
    pub(crate) section: u32,
    pub(crate) number: u32,
}

impl Task {
    /// The section that was handed out.
    pub fn section(&self) -> u32
        ensures { result ≡ self.now.section }
    {
        self.section
    }

    /// How many hand-outs of the section there were with this one.
    pub fn number(&self) -> u32
        ensures { result ≡ self.now.number }
    {
        self.number
    }
}
