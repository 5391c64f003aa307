//! Laws of the numbers of a log's sections, each the clause of an empty function.

ghost use Rattle.pmf_storelog.specs.Laws.{InOrderIsTheSetInOrder, SectionNumbersRise};

/// The numbers of the sections of a log rise strictly, whatever the order of its markers and however
/// often a section comes again.
#[tactic(auto, using(crate::proofs::RisingLemmas::sections_rise))]
pub fn section_numbers_rise()
    ensures { SectionNumbersRise }
{}

/// The numbers of a list in order, by which those of the sections are defined, rise strictly, and a
/// number is among them exactly where it is in the list.
pub fn in_order_is_the_set_in_order()
    ensures { InOrderIsTheSetInOrder }
{}
