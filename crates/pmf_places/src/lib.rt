//! Places of events, kept in a map of runs for bytes and for cache lines.
//!
//! A walk over a section's events puts the place of each at the bytes that it writes back ([`write_back`]), adds to a transaction
//! ([`back_up`]) or stores to ([`store`]), so that the map tells of each byte the last such event. After an `Err` of these calls some
//! bytes may have the new place already.
//!
//! Not promised here: that a walk puts each place.
#![tactic(auto)]

mod places;

pub use places::{NO_PLACE, Place, Put, back_up, lines_of, place_if, store, write_back};
