//! Laws of what a shadow stands for, each the clause of an empty function.

ghost use Rattle.pmf_shadow.specs.Laws.{OnlyPastEventsCount, StepsFollowWithin, StepsStandForSome, UnseenEventsChangeNothing};

/// A shadow that stands for some events stands for an assertion or a marker of a transaction more,
/// without a call: these change nothing that it keeps.
pub fn unseen_events_change_nothing()
    ensures { UnseenEventsChangeNothing }
{}

/// What a shadow stands for at a place is said of the events up to that place and of the places that
/// they were told at, and of no others.
pub fn only_past_events_count()
    ensures { OnlyPastEventsCount }
{}

/// A call that follows an event at the end of a list follows it within a longer list too.
pub fn steps_follow_within()
    ensures { StepsFollowWithin }
{}

/// A shadow that stands for some list does so after each call that follows an event. A new one stands for that of no events, and what
/// a refused call leaves stands for what it stood for; so each shadow stands for some list, and no answer is promised for want of one.
#[tactic(auto, using(crate::proofs::StandsLemmas::steps_stand))]
pub fn steps_stand_for_some_list()
    ensures { StepsStandForSome }
{}
