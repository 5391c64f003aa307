//! What many crash images of one section hold, by a few walks over its events.
//!
//! [`show_all`] says of each byte that is asked for, in the image of a certificate and at a place, what `cut`, `shows` and
//! `last_store` of `pmf_image` say of it, which take a pass over the events each (`specs/Showing`). Here all that is asked for is put
//! in the order of the places at which it looks, and each of a few walks over the events tells it all.
//!
//! Not promised here: how long a walk takes, and how much memory.
#![tactic(auto)]

mod counts;
mod showing;
mod sums;
mod telling;
#[cfg(test)]
mod tests;
mod walks;

pub use showing::{Asked, Shown, show_all};
