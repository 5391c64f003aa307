//! A gate: where a worker may be held before it checks, or be lost.

ghost use Rattle.std.specs.Prelude.{◌≡◌, ℕ};

/// What a gate says to a worker.
#[derive(Clone, Copy, Debug, PartialEq, Eq)]
pub enum Turn {
    /// The worker goes on, and checks the section.
    Go,
    /// The worker ends, with the section taken and not marked.
    Lost,
}

/// Asked by each worker before it checks a section, and told of each section that no worker did. A test, or whoever
/// has to throttle a farm, hands in one of its own; nothing that a farm promises of its ledger rests on it. A gate that
/// waits carries what it waits by, and holds its worker for as long.
pub trait Gate {
    ghost use Rattle.pmf_farm.specs.declared.gate.Turn.{Turn};

    /// Whether it may give a worker this answer about a section.
    ghost answers: { Self → ℕ → ℕ → Turn → Type 0 };

    /// The worker has taken the section, and is about to check it. Sections are told by their place among those that
    /// [`crate::run`] or [`crate::work`] was handed, workers by their number, both from 0.
    fn turn(&self, worker: u32, section: u32) -> Turn
        ensures { answers self.now worker section result };

    /// No worker's verdict of the section arrived, so that the caller's own thread is about to check it.
    fn missing(&self, section: u32);
}

/// The gate that is always open.
#[derive(Clone, Copy, Debug)]
pub struct OpenGate;

impl Gate for OpenGate {
    ghost use Rattle.pmf_farm.specs.declared.gate.Turn.TheVariants.{Go};

    ghost answers = { λ _ _ _ turn. turn ≡ Go };

    fn turn(&self, _worker: u32, _section: u32) -> Turn {
        Turn::Go
    }

    fn missing(&self, _section: u32) {}
}
