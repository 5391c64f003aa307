//! What is asked of a log in hand.

ghost use Rattle.std.specs.Prelude.{ℕ, List, MatchResult};

use std::alloc::Global;

/// What is told of a log, and the text that is written of it.
#[derive(Debug, Drop)]
pub struct Answer<T> {
    /// What is told beside the text.
    pub told: T,
    /// The text.
    pub text: Vec<u8>,
}

/// A question about a whole log: a command of the program is one, with what its words ask for.
pub trait Query {
    /// What is told of the log beside the text.
    type Told: Drop;
    /// Why a log gives no answer.
    type Refusal: Drop;

    // Of a log of these bytes this is told, and this text written.
    ghost IsAnswer: { Self → List ℕ → Self.Told → List ℕ → Type 0 };

    // This is why bytes give no answer.
    ghost IsRefusal: { Self → List ℕ → Self.Refusal → Type 0 };

    /// The answer of the log, or why it gives none. Takes memory for the events of the log and the text.
    fn answer(&self, alloc: Global, log: &[u8]) -> Result<Answer<Self::Told>, Self::Refusal>
        ensures { MatchResult result
            (λ answer. IsAnswer self.now log.now answer.told answer.text.items)
            (IsRefusal self.now log.now) };
}
