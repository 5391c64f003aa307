//! Laws of what a state stands for, each the clause of an empty function.

ghost use Rattle.pmf_txcheck.specs.Laws.{OneListIsACase, OnlyPastEventsCount, StepsFollowWithin, StepsTrackSome, UntrackedEventsChangeNothing};

/// Write-backs, fences, assertions, exclusions and inclusions change nothing that a state stands for.
pub fn untracked_events_change_nothing()
    ensures { UntrackedEventsChangeNothing }
{}

/// What a state stands for at a place is said of the events up to that place and of the places that they
/// were told at, and of no others.
pub fn only_past_events_count()
    ensures { OnlyPastEventsCount }
{}

/// A call that follows an event at the end of a list follows it within a longer list too.
pub fn steps_follow_within()
    ensures { StepsFollowWithin }
{}

/// A state that stands for some list does so after each call that follows an event; so each state does, as a shadow does.
#[tactic(auto, using(crate::proofs::TrackLemmas::steps_track))]
pub fn steps_stand_for_some_list()
    ensures { StepsTrackSome }
{}

/// Where the state and the shadow stand for one list, the findings of stores and of CHECKENDs are those of
/// the definitions.
pub fn one_list_is_a_case()
    ensures { OneListIsACase }
{}
