//! Why a log is not written with its cures.

use pmf_query::EventRefusal;
use std::error::Error;
use std::fmt;

/// Why a log is not written with its cures: the first that applies, in this order.
#[derive(Clone, Copy, Debug, PartialEq, Eq)]
pub enum PatchRefusal {
    /// As [`crate::tell_why`] refuses it.
    Why(EventRefusal),
    /// The log is well, and what was made of it is not read as a log with these sections: it is longer than a log may be.
    TooLong,
}

impl fmt::Display for PatchRefusal {
    ghost use Rattle.std.specs.Prelude.{Some};
    ghost use Rattle.pmf_why.specs.Patching.{text_of_patch_refusal};

    ghost output = { λ refusal. Some (text_of_patch_refusal refusal) };

    fn fmt<W: fmt::Write>(&self, f: &mut fmt::Formatter<W>) -> fmt::Result {
        match self {
            PatchRefusal::Why(found) => write!(f, "{found}"),
            PatchRefusal::TooLong => {
                f.write_str("the log with its cures is longer than a log may be")
            }
        }
    }
}

impl Error for PatchRefusal {}
