//! What is asked of a log in hand, and answered as it is found.

ghost use Rattle.std.specs.Prelude.{◌≡◌, ◌+◌, ℕ, List};
ghost use Rattle.pmf_device.specs.Failures.{CanCountOneMore};
ghost use Rattle.pmf_query.specs.Streaming.{Recites, failed_answers};

use pmf_device::{Sink, Stop};
use std::alloc::Global;

/// Why a question is not answered to its end.
#[derive(Clone, Copy, Debug, PartialEq, Eq)]
pub enum Unanswered<E> {
    /// The log gives no answer. Nothing was written.
    Refused(E),
    /// The answer is not written to its end.
    Stopped(Stop),
}

/// A question about a whole log whose answer is written as it is found.
pub trait StreamedQuery {
    /// What is told of the log beside the text.
    type Told: Drop;
    /// Why a log gives no answer.
    type Refusal: Drop;

    // Of a log of these bytes this is told, and this text written.
    ghost IsAnswer: { Self → List ℕ → Self.Told → List ℕ → Type 0 };

    // This is why bytes give no answer.
    ghost IsRefusal: { Self → List ℕ → Self.Refusal → Type 0 };

    /// Writes the answer of the log, part by part, or tells why it gives none. Takes memory for the events of the log and one part.
    fn recite<W: Sink>(
        &self,
        alloc: Global,
        log: &[u8],
        writer: &mut W,
    ) -> Result<Self::Told, Unanswered<Self::Refusal>>
        requires { CanCountOneMore (W.failed_calls writer.old) }
        ensures answer { Recites (IsAnswer self.now log.now) (IsRefusal self.now log.now) W.held writer.old writer.new result }
        ensures counted { W.failed_calls writer.new ≡ W.failed_calls writer.old + failed_answers result };
}
