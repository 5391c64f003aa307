//! Laws of the definitions, each the clause of an empty function.

#![tactic(auto, using(crate::proofs::ExactLemmas::laws))]

ghost use Rattle.pmf_image.specs.Laws.{CertificatesAreAllowed, CertifiedPairsAreShown, CertifiedPairsDoNotHold, ClosedIntervalsHold, ContradictedDoNotHold, EachByteMayBeTorn, EachCutIsAllowed, EveryPlaceHasImages, OpenIntervalsAreShown, OpenIntervalsDoNotHold, OrderedPairsHold, ProfileTwoIsExact, ScopesHoldForAllBytes};

/// A persist assertion whose checked bytes all have closed intervals holds at every crash from its
/// place on, in every allowed image, torn stores included.
pub fn closed_intervals_hold()
    ensures { ClosedIntervalsHold }
{}

/// An order assertion whose pairs of checked bytes are all ordered, by either profile, holds at every
/// crash up to its place, in every allowed image, torn stores included.
pub fn ordered_pairs_hold()
    ensures { OrderedPairsHold }
{}

/// At every place the image with every cut at its floor and the image with every cut at its count,
/// both untorn, are allowed: no assertion holds for want of images.
pub fn every_place_has_images()
    ensures { EveryPlaceHasImages }
{}

/// A persist assertion, at a place of the list, over a checked byte whose interval is open does not
/// hold.
pub fn open_intervals_do_not_hold()
    ensures { OpenIntervalsDoNotHold }
{}

/// Every cut of a line from its floor to its count is allowed, with every other line at its floor.
pub fn each_cut_is_allowed()
    ensures { EachCutIsAllowed }
{}

/// A byte alone may be torn wherever its line has a store after the cut, at every cut from the floor on.
pub fn each_byte_may_be_torn()
    ensures { EachByteMayBeTorn }
{}

/// The image of each certificate is allowed at its crash place.
pub fn certificates_are_allowed()
    ensures { CertificatesAreAllowed }
{}

/// Where a checked byte's interval is open, the certificate of the place, with no full line, shows less
/// than the byte's last store.
pub fn open_intervals_are_shown()
    ensures { OpenIntervalsAreShown }
{}

/// Of a certified pair, by either profile, the certificate of the second byte's last store, with that
/// byte's line in full, shows that store, and not the last store of the first byte.
pub fn certified_pairs_are_shown()
    ensures { CertifiedPairsAreShown }
{}

/// An assertion that the image of some certificate contradicts does not hold.
pub fn contradicted_do_not_hold()
    ensures { ContradictedDoNotHold }
{}

/// An order assertion with a certified pair, by either profile, does not hold.
pub fn certified_pairs_do_not_hold()
    ensures { CertifiedPairsDoNotHold }
{}

/// An order assertion holds exactly where each pair that profile Two leaves unordered is one byte with
/// itself: of two bytes that one store of a line wrote, a torn image shows the second alone.
pub fn profile_two_is_exact()
    ensures { ProfileTwoIsExact }
{}

/// Where all spans are valid, as those of a section are, what holds of a scope's bytes below
/// [`pmf_event::ADDRESS_LIMIT`] holds of all its bytes: it has no others.
pub fn scopes_hold_for_all_bytes()
    ensures { ScopesHoldForAllBytes }
{}
