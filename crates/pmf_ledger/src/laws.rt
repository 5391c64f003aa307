//! Laws of gatherings, of their ledgers and of ledger texts, each the clause of an empty function.

ghost use Rattle.pmf_ledger.specs.{AllKept.{AllRowsAreTrue, NoEmptyIsFilled, NoFailIsKept}, Gathering.{GivesItsLedger, GivesOrIsRefused, GivesWhereItMay, JoiningAssociates, JoiningCommutes, JoiningRepeats, OnlyTheSetCounts, RefusesForCause}, Laws.{BlocksTellTheirFails, EqualSetsHaveOneLedger, LedgerTextsHaveTheirBlocks, TextsHaveTheirBlocksInOneWay, TextsLoadAsOneLedger, WhatLoadsIsNotRefused}, ReportTold.{ReportsTellSections, ReportsTellTotals}};

/// Whatever ledger a gathering gives, in whatever order it took and joined, it is the ledger of the set that
/// was gathered: each of its sections once, in the order of their names. That set agrees, and all is by one
/// profile.
pub fn gatherings_give_the_ledger_of_their_set()
    ensures { GivesItsLedger }
{}

/// A gathering by one profile whose set agrees is refused at no step, want of memory aside.
#[tactic(auto, using(std::proofs::lemmas::Grind::common_steps, crate::proofs::lemmas::GatheringLemmas::refuses_for_cause))]
pub fn gatherings_are_refused_for_cause_alone()
    ensures { RefusesForCause }
{}

/// A gathering by one profile whose set agrees can give a ledger, so that what is said of given ledgers is
/// said of some.
#[tactic(auto, using(std::proofs::lemmas::Grind::common_steps, crate::proofs::lemmas::GivingLemmas::gives_where_it_may))]
pub fn gatherings_that_agree_give_a_ledger()
    ensures { GivesWhereItMay }
{}

/// A gathering is refused exactly where it can't give a ledger: whatever was gathered, there is a ledger of it or a
/// step that is refused for cause, and never both. So what is said of refusals is said of all that lacks a ledger.
#[tactic(auto, using(std::proofs::lemmas::Grind::common_steps, crate::proofs::lemmas::RefusingLemmas::gives_or_is_refused))]
pub fn gatherings_give_or_are_refused()
    ensures { GivesOrIsRefused }
{}

/// Joined the one way or the other, two gatherings give one ledger, and the one way is refused exactly where the
/// other is.
pub fn joining_commutes()
    ensures { JoiningCommutes }
{}

/// Three gatherings give one ledger in whichever order the two joins are made, and the one order is refused exactly
/// where the other is.
pub fn joining_associates()
    ensures { JoiningAssociates }
{}

/// A gathering that is joined with itself gives what it gave, and is refused exactly where it was.
pub fn joining_again_changes_nothing()
    ensures { JoiningRepeats }
{}

/// Two gatherings by one profile, of sets with the same members, give one ledger, and the one is refused exactly
/// where the other is: orders, repeats and joins leave no trace.
#[tactic(auto, using(crate::proofs::lemmas::AlikeLemmas::set_counts))]
pub fn only_the_set_counts()
    ensures { OnlyTheSetCounts }
{}

/// Sets with the same members have one ledger by a profile, and so one report and one ledger text.
pub fn equal_sets_have_one_ledger()
    ensures { EqualSetsHaveOneLedger }
{}

/// A text loads as one ledger at most.
pub fn texts_load_as_one_ledger()
    ensures { TextsLoadAsOneLedger }
{}

/// A text that loads as a ledger is not refused, memory aside.
pub fn what_loads_is_not_refused()
    ensures { WhatLoadsIsNotRefused }
{}

/// A text has its blocks, as they stand, in one way.
pub fn texts_have_their_blocks_in_one_way()
    ensures { TextsHaveTheirBlocksInOneWay }
{}

/// The text of a ledger has the blocks of its sections.
pub fn ledger_texts_have_their_blocks()
    ensures { LedgerTextsHaveTheirBlocks }
{}

/// The rows of every checked section are true: what passed holds in every crash image that the rules allow, and what failed
/// has one that shows it.
pub fn all_rows_are_true()
    ensures { AllRowsAreTrue }
{}

/// Where the ledger of a set counts no row as FAIL, all that its sections assert holds, in every crash image that the rules
/// allow.
pub fn no_fail_is_kept()
    ensures { NoFailIsKept }
{}

/// Where it counts none as EMPTY, each assertion of its sections had something to check.
pub fn no_empty_is_filled()
    ensures { NoEmptyIsFilled }
{}

/// A report, read text line by text line, tells exactly the sections that it is of, each with its own rows: a line
/// `3 PERSIST PASS` stands below the header of a section exactly where the section has that row.
#[tactic(auto, using(crate::proofs::lemmas::ReportToldLemmas::reports_tell_sections))]
pub fn reports_tell_their_sections()
    ensures { ReportsTellSections }
{}

/// And its last text line tells their sums.
#[tactic(auto, using(crate::proofs::lemmas::ReportToldLemmas::reports_tell_totals))]
pub fn reports_tell_their_totals()
    ensures { ReportsTellTotals }
{}

/// A block of a section, as it stands, tells a fail exactly where one of the section's rows counts as one: so what a merge on trust tells
/// of texts that `check` and `join` wrote is so of their sections.
pub fn blocks_tell_their_fails()
    ensures { BlocksTellTheirFails }
{}
