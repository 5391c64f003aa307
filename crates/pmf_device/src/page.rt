//! A text that is written part by part.

ghost use Rattle.std.specs.Prelude.{◌≡◌, ◌+◌, ◌++◌, ℕ, List, [], Option, MatchResult};
ghost use Rattle.pmf_device.specs.{Failures.{CanCountOneMore}, Pages.{IsPage, StopsIn, failed_puts}};

use crate::sink::Sink;
use crate::writing::write_text;
use std::alloc::AllocError;

/// Why a text is not written to its end.
#[derive(Clone, Copy, Debug, PartialEq, Eq)]
pub enum Stop {
    /// A write has failed, after this many bytes of the text.
    Failed { written: u64 },
    /// Room for a part was refused, or the text would get 2^64 bytes.
    OutOfMemory,
}

impl From<AllocError> for Stop {
    ghost use Rattle.std.specs.Prelude.{◌≡◌};
    ghost use Rattle.pmf_device.specs.declared.page.Stop.TheVariants.{OutOfMemory};

    ghost from_gives = { λ _ stop. stop ≡ OutOfMemory };

    fn from(_refused: AllocError) -> Stop {
        Stop::OutOfMemory
    }
}

/// How much of a text was written.
#[derive(Clone, Copy, Debug, PartialEq, Eq)]
pub struct Page {
    /// In bytes.
    pub written: u64,
}

impl Page {
    /// Nothing yet.
    #[tactic(auto, using(crate::proofs::PageLemmas::blank))]
    pub fn new() -> Page
        ensures { (held : Option (List ℕ)) → IsPage held held [] result }
    {
        Page { written: 0 }
    }

    /// Writes the part that comes next. Where a write fails, the bytes of the whole text that were written are told.
    pub fn put<W: Sink>(&mut self, writer: &mut W, part: &[u8]) -> Result<(), Stop>
        requires { CanCountOneMore (W.failed_calls writer.old) }
        ensures put { (held : Option (List ℕ)) (front : List ℕ) → IsPage held (W.held writer.old) front self.old
            → MatchResult result (λ _. IsPage held (W.held writer.new) (front ++ part.now) self.new)
            (StopsIn (λ text. text ≡ front ++ part.now) held (W.held writer.new)) }
        ensures counted { W.failed_calls writer.new ≡ W.failed_calls writer.old + failed_puts result }
    {
        let before = self.written;
        let Some(written) = before.checked_add(part.len() as u64) else {
            return Err(Stop::OutOfMemory);
        };
        match write_text(writer, part) {
            Ok(()) => {
                self.written = written;
                Ok(())
            }
            Err(cut) => Err(Stop::Failed {
                written: before + cut.written,
            }),
        }
    }
}
