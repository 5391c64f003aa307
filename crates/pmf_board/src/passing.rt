//! Passes are split and joined.

ghost use Rattle.std.specs.Prelude.{◌≡◌, ◌↔◌, ◌+◌, ◌≤◌, ℕ, Err, IfErr, IfOk, OnErr, OnOk};
ghost use Rattle.pmf_board.specs.{Passes.{PassValue}, Views.{both, given, kept, times, NeverFalls}};

use crate::board::Board;
use crate::fault::BoardFault;
use crate::pass::Pass;
use crate::rule::{Count, Cut, Glue};

impl Board {
    /// A new pass with one share of the given one, which took and marked nothing and saw what the given one saw.
    pub fn split(&self, pass: &mut Pass) -> Result<Pass, BoardFault>
        requires own { pass.old.board ≡ self.now }
        ensures new { IfOk result (λ p. p
            ≡ record { board = self.now; view = given pass.old.view }) }
        ensures kept { OnOk result (pass.new
            ≡ record { board = pass.old.board; view = kept pass.old.view }) }

        // It is refused exactly where the given pass holds one share, which is then unchanged.
        ensures crowded { (result ≡ Err BoardFault.Crowded) ↔ (pass.old.view.shares ≡ 1) }
        ensures only { IfErr result (λ fault. fault ≡ BoardFault.Crowded) }
        ensures unchanged { OnErr result (pass.new ≡ pass.old) }
    {
        if pass.shares == 1 {
            return Err(BoardFault::Crowded);
        }
        let seat = self.table.shared.split_seat::<Cut>(&mut pass.seat);
        pass.shares -= 1;
        Ok(Pass { seat, shares: 1 })
    }

    /// The first pass has from then on what both had. No hand-out was in both.
    pub fn join(&self, pass: &mut Pass, other: Pass)
        requires own { pass.old.board ≡ self.now }
        requires other { other.board ≡ self.now }
        ensures same { pass.new.board ≡ pass.old.board }
        ensures joined { pass.new.view ≡ both pass.old.view other.view }
        ensures never_falls { NeverFalls pass.old.view pass.new.view
            × NeverFalls other.view pass.new.view }
        ensures apart { (s k : ℕ) → times s k pass.old.view + times s k other.view ≤ 1 }
    {
        let Pass { seat, shares } = other;
        self.table.shared.join_seat::<Glue>(&mut pass.seat, seat);
        self.table.shared.load::<Count>(&mut pass.seat, 0);
        pass.shares += shares;
    }
}
