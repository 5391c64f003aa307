//! The rule that the board's table keeps, and what its steps tell.

ghost use Rattle.pmf_board.specs.{Rule.{Rules}, Steps.{counted, exchanged, looked, raised}, Views.{both, first_view, given, kept, spent}};

use crate::view::View;
use atomic_table::{Join, Play, Split, TableRule};

// The rule for a board of so many sections.
pub struct Law;

impl TableRule<(), View, u32> for Law {
    ghost holds = { λ sections s. Rules sections s.words s.views };

    ghost first = { λ sections. first_view };
}

pub(crate) struct Look;

impl Play<(), View> for Look {
    ghost then = { looked };
}

pub(crate) struct Exchange;

impl Play<(), View> for Exchange {
    ghost then = { exchanged };
}

pub(crate) struct Raise;

impl Play<(), View> for Raise {
    ghost then = { raised };
}

pub(crate) struct Count;

impl Play<(), View> for Count {
    ghost then = { counted };
}

pub(crate) struct Cut;

impl Split<View> for Cut {
    ghost left = { kept };

    ghost right = { given };
}

pub(crate) struct Glue;

impl Join<View> for Glue {
    ghost both = { both };

    ghost spent = { spent };
}
