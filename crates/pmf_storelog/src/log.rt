//! What a log without a fault says.

ghost use Rattle.std.specs.Prelude.{◌≡◌, map};

use pmf_event::Section;
use std::marker::Model;
use std::sync::Arc;

/// What a log without a fault says.
#[derive(Debug, Drop)]
pub struct Log {
    sections: Vec<Arc<Section>>,
    skipped: u64,
}

impl Model for Log {
    ghost use Rattle.std.specs.Prelude.{map};
    ghost use Rattle.pmf_storelog.specs.LogValue.{LogValue};

    ghost Value = { LogValue };

    ghost view = { λ log. record {
      sections = map (λ a. a.value) log.sections.items;
      skipped = log.skipped;
    } };
}

impl Log {
    pub(crate) fn new(sections: Vec<Arc<Section>>, skipped: u64) -> Log
        ensures { result
            ≡ record { sections = map (λ a. a.value) sections.items; skipped = skipped } }
    {
        Log { sections, skipped }
    }

    /// The sections in order of their number: those with a marker, and section 0 where an event comes
    /// before the first marker.
    pub fn sections(&self) -> &[Arc<Section>]
        ensures { map (λ a. a.value) result.now ≡ self.now.sections }
    {
        &self.sections
    }

    /// How many records have a name that is not this checker's. Empty records are no records.
    pub fn skipped(&self) -> u64
        ensures { result ≡ self.now.skipped }
    {
        self.skipped
    }
}
