//! Laws of causes.

ghost use Rattle.pmf_cause.specs.Laws.{EachFailureHasItsCause, EachLackMeansSo, WhatIsFencedBeforeHolds, WhatIsFencedInTimeHolds};

/// Does nothing. Of a section's rows just those that count as fail or as a warning have a cause.
pub fn each_failure_has_its_cause()
    ensures { EachFailureHasItsCause }
{}

/// Does nothing. A persist assertion holds where each checked byte was written back behind its last store, and fenced, in front of it.
#[tactic(auto, using(crate::proofs::FencedLemmas::in_time))]
pub fn what_is_fenced_in_time_holds()
    ensures { WhatIsFencedInTimeHolds }
{}

/// Does nothing. An order assertion holds where each checked byte of its first span was written back behind its last store, and fenced, in
/// front of the last store of each of the second.
pub fn what_is_fenced_before_holds()
    ensures { WhatIsFencedBeforeHolds }
{}

/// Does nothing. What is told that a byte lacks is what its name means: no write-back of its line stands behind its last store, say.
#[tactic(auto, using(crate::proofs::LackLemmas::means_so))]
pub fn each_lack_means_so()
    ensures { EachLackMeansSo }
{}
