//! The tests of streams: what goes through them, and devices that fail.

mod asked;
mod checks;
mod cutting;
mod excerpts;
mod fakes;
mod joining;
mod simulating;
mod streams;
