//! What is asked of a byte in a certificate's image, and the search for a byte that answers yes.

ghost use Rattle.std.specs.Prelude.{◌≡◌, ◌<◌, ◌≤◌, ◌↔◌, true, length};
ghost use Rattle.pmf_image.specs.{Certificate.{Fits}, Questions.{SomeByte, answer_of, compares, is_asked}};
ghost use Rattle.pmf_event.specs.Store.{last_store};

use crate::borders::end_of_stretch;
use crate::certificate::{Certificate, last_store, shows};
use crate::transactions::{is_included, scope_at};
use pmf_event::Events;

/// What is asked of a byte, at a place and in a certificate's image.
#[derive(Clone, Copy, Debug, PartialEq, Eq)]
pub enum Question {
    /// Whether it is checked, and shows less than its last store.
    FallsShort,
    /// Whether it is checked, and shows its last store.
    IsShown,
    /// Whether it is checked, and shows something else than its last store.
    IsLost,
    /// Whether it is one of the scope's just before the place, is included at the place, and shows less
    /// than its last store.
    ScopeFallsShort,
}

impl Question {
    // Whether the byte is asked, and the answer is yes. At most four passes over the events, and three but
    // for the question of a scope.
    #[tactic(auto, using(crate::proofs::ByteSearchLemmas::passing))]
    pub fn passes(self, events: &Events, place: u32, certificate: Certificate, byte: u64) -> bool
        requires fits { Fits events.now certificate }
        requires some { 0 < place }
        requires within { place ≤ length events.now }
        ensures { result ≡ answer_of self events.now place certificate byte }
    {
        let last = last_store(events, place, byte);
        self.is_asked(events, place, byte, last)
            && self.compares(shows(events, certificate, byte), last)
    }

    // Whether the byte is one of those that are asked, by its last store. At most two passes over the events.
    #[tactic(auto, using(crate::proofs::ByteSearchLemmas::asking))]
    fn is_asked(self, events: &Events, place: u32, byte: u64, last: u32) -> bool
        requires some { 0 < place }
        requires within { place ≤ length events.now }
        requires last { last ≡ last_store events.now place byte }
        ensures { result ≡ is_asked self events.now place byte }
    {
        if !is_included(events, place, byte) {
            return false;
        }
        match self {
            Question::ScopeFallsShort => scope_at(events, place - 1, byte).has_byte,
            _ => last > 0,
        }
    }

    // Whether the answer is yes where the byte shows this place, and its last store is at that.
    #[tactic(auto, unfolding(crate::specs::Questions::compares))]
    fn compares(self, shown: u32, last: u32) -> bool
        ensures { result ≡ compares self shown last }
    {
        match self {
            Question::FallsShort | Question::ScopeFallsShort => shown < last,
            Question::IsShown => shown == last,
            Question::IsLost => shown != last,
        }
    }

    // Whether the answer is yes for a byte from `first` on and below `end`. Asks one byte of each stretch
    // of bytes that are alike.
    pub fn finds(
        self,
        events: &Events,
        place: u32,
        certificate: Certificate,
        first: u64,
        end: u64,
    ) -> bool
        requires fits { Fits events.now certificate }
        requires some { 0 < place }
        requires within { place ≤ length events.now }
        ensures { (result ≡ true) ↔ SomeByte (answer_of self events.now place certificate) first end }
    {
        let mut byte = first;
        while byte < end {
            if self.passes(events, place, certificate, byte) {
                return true;
            }
            byte = end_of_stretch(events, certificate, byte, end);
        }
        false
    }
}
