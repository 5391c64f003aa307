//! The check of a log's only section, which goes on beside the reading.

ghost use Rattle.std.specs.Prelude.{◌≡◌, ℕ, List, [], ◌∷◌, Option, Some, map};
ghost use Rattle.pmf_event.specs.{declared.event.Event.{Event}, Section.{Trace}};

use pmf_event::{Profile, Section};
use pmf_verdict::{Checker, Verdict};
use std::alloc::Global;
use std::sync::Arc;

/// How many events a section has at least: to start a thread takes longer than to walk over fewer.
const LEAST: usize = 1 << 13;

/// What is checked of a log while it is read. Which of these it is, is a choice of speed.
#[derive(Drop)]
pub(crate) enum Beside {
    /// Nothing yet.
    Waiting,
    /// The section of this number, as far as it was there.
    Going(u64, Checker),
    /// Nothing more: another section has begun, or memory was refused.
    Over,
}

impl Beside {
    ghost use Rattle.pmf_storelog.specs.{LogText.{sections_of}, Separators.{ended_records, records_of}};
    ghost use Rattle.pmf_verdict.specs.Partly.{HasChecked, IsFrontOf};
    ghost use Rattle.pmf_stream.specs.Beside.{GoesOn, IsBeside};

    /// What is left where not just one section has begun.
    pub(crate) fn without_section(self) -> Beside
        ensures { (profile : Profile) (only : Option Trace) → GoesOn profile only self result }
    {
        match self {
            Beside::Waiting => Beside::Waiting,
            _ => Beside::Over,
        }
    }

    /// Goes on over the events that are there of the only section.
    ///
    /// Takes memory as a check does.
    pub(crate) fn go_on(self, alloc: Global, profile: Profile, section: &Section) -> Beside
        ensures { GoesOn profile (Some section.now) self result }
    {
        match self {
            Beside::Waiting => {
                if section.events().len() < LEAST {
                    return Beside::Waiting;
                }
                Beside::walk(Checker::new(alloc, profile, section.events()), section)
            }
            Beside::Going(number, checker) => {
                if number != section.name().number {
                    return Beside::Over;
                }
                Beside::walk(checker, section)
            }
            Beside::Over => Beside::Over,
        }
    }

    // The check of the section, over all of its events that are there.
    fn walk(checker: Checker, section: &Section) -> Beside
        ensures { (profile : Profile) (es : List Event) (run : ℕ) (bytes : List ℕ) → HasChecked profile es checker
            → IsFrontOf es section.now.events → sections_of run (ended_records bytes) ≡ section.now ∷ []
            → IsBeside profile bytes result }
    {
        match checker.advance(section.events()) {
            Ok(checker) => Beside::Going(section.name().number, checker),
            Err(_) => Beside::Over,
        }
    }

    /// The verdict of the section of a log that was read to its end, if it was checked so far.
    pub(crate) fn finish(self, sections: &[Arc<Section>]) -> Option<Verdict>
        requires { (profile : Profile) × (run : ℕ) × (bytes : List ℕ) × IsBeside profile bytes self
            × (map (λ s. s.value) sections.now ≡ sections_of run (records_of bytes)) }
    {
        let Beside::Going(number, checker) = self else {
            return None;
        };
        if sections.len() != 1 || sections[0].name().number != number {
            return None;
        }
        let Ok(section) = Arc::try_clone(&sections[0]) else {
            return None;
        };
        match checker.finish(section) {
            Ok(verdict) => Some(verdict),
            Err(_) => None,
        }
    }
}
