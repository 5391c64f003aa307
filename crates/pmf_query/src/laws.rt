//! Laws of where an event stands, each the clause of an empty function.

ghost use Rattle.pmf_query.specs.Laws.{GivesItsEvent, OneOffset, OneRecordGives};

/// One record alone gives an event of a section.
#[tactic(auto, using(crate::proofs::GivingLemmas::one_record))]
pub fn one_record_gives()
    ensures { OneRecordGives }
{}

/// A record stands at one offset alone.
#[tactic(auto, using(crate::proofs::SolidLemmas::one_offset))]
pub fn one_offset()
    ensures { OneOffset }
{}

/// The event that a record gave is the one of its number among the section's.
#[tactic(auto, using(crate::proofs::GivingLemmas::its_event))]
pub fn gives_its_event()
    ensures { GivesItsEvent }
{}
