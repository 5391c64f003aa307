//! A pass: the right to take part on one board.

ghost use Rattle.std.specs.Prelude.{◌≡◌, ◌<◌, ◌≤◌, []};
ghost use Rattle.pmf_board.specs.Passes.{IsSound, PassValue};

use crate::view::View;
use atomic_table::Seat;
use std::marker::Model;

/// The right to take sections from one board and to mark them. It may go to another thread. Contracts see it as its
/// board and its view: what it took, marked and saw, and its shares.
#[derive(Drop)]
pub struct Pass {
    pub(crate) seat: Seat<(), View>,
    pub(crate) shares: u32,
}

impl Model for Pass {
    ghost Value = { PassValue };

    ghost view = { λ p. record { board = p.seat.table_id; view = p.seat.me.0 } };

    ghost invariant = { λ p. (p.shares ≡ p.seat.me.0.shares) × (p.seat.me.1 ≡ [])
        × IsSound p.seat.table_id p.seat.me.0 };
}

impl Pass {
    /// How many shares it holds: the first pass has 65, of which [`crate::Board::split`] gives one to each new one.
    pub fn shares(&self) -> u32
        ensures value { result ≡ self.now.view.shares }
        ensures some { (0 < result) × (result ≤ 65) }
    {
        self.shares
    }
}
