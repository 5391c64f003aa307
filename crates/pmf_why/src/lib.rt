//! Why the rows of a log are no PASS, and what cures them, as a text.
//!
//! [`tell_why`] reads a log, and tells of each kind of row the first: the store that is lost, the one that is kept, the cause, and
//! changes by which the row passes (`specs/WhyText`). Rows are alike that have one finding, one cause, and one place in the source, or
//! one distance where none is known (`specs/Reasons`). A change is told as a cure only where a check of the section with it found
//! that it is one (`specs/Cures`).
//!
//! [`patch_text`] writes the log itself with such changes put in, and promises what the text says where it is read again (`specs/Patching`).
//!
//! Not promised here: that a cure is told wherever there is one.
#![tactic(auto)]

mod cure;
mod kind;
mod patch;
mod patching;
mod plan;
mod refusal;
mod row;
mod taking;
mod telling;
#[cfg(test)]
mod tests;
mod trial;
mod why;

pub use cure::Way;
pub use patch::{Patch, patch_text};
pub use refusal::PatchRefusal;
pub use why::{Why, tell_why};
