//! Laws of the world, each the clause of an empty function.

ghost use Rattle.pmf_world.specs.Laws.{DoneWasSent, LedgersAreOfTheGathered, SetsAreOfTheGathered, TasksDiffer, WorldsStandForSome};

/// After every list of steps, what is kept of a ledger is just what was gathered there.
#[tactic(auto, using(std::proofs::lemmas::Grind::common_steps, crate::proofs::lemmas::GatheredLemmas::sets_of_gathered))]
pub fn sets_are_of_the_gathered()
    ensures { SetsAreOfTheGathered }
{}

/// After every list of steps, each ledger is just that of the sections gathered there.
pub fn ledgers_are_of_the_gathered()
    ensures { LedgersAreOfTheGathered }
{}

/// No two tasks that a world hands out are the same.
#[tactic(auto, using(std::proofs::lemmas::Grind::common_steps, crate::proofs::lemmas::TaskLemmas::all_differ))]
pub fn tasks_differ()
    ensures { TasksDiffer }
{}

/// Of each section that is done a message was sent.
#[tactic(auto, using(std::proofs::lemmas::Grind::common_steps, crate::proofs::lemmas::SentLemmas::done_is_sent))]
pub fn done_was_sent()
    ensures { DoneWasSent }
{}

/// A new world stands for some state of the definitions, and what does so does after each step.
#[tactic(auto, using(crate::proofs::lemmas::StandingLemmas::worlds_stand))]
pub fn worlds_stand_for_some_state()
    ensures { WorldsStandForSome }
{}
