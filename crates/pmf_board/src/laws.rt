//! The board machine and the words of a board, as the clauses of an empty function.

ghost use Rattle.pmf_board.specs.Laws.{ChangesAreStepsOnWords, ChangesKeepTheRule, DoneIsFrozen, TakesAreToldByWords};

/// The words and views of a board follow the board machine (`specs/Machine`), in which there is no atomic: the test and
/// the number of a take are the machine's, the change that a take or a mark makes to a word is the machine's change of
/// the board, and the rule is kept by the one with the other. What is done stays as it is, with its hand-outs.
pub fn words_follow_the_machine()
    ensures takes { TakesAreToldByWords }
    ensures words { ChangesAreStepsOnWords }
    ensures frozen { DoneIsFrozen }
    ensures rule { ChangesKeepTheRule }
{}
