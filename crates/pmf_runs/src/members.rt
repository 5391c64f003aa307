//! Sets of numbers: maps whose states say whether a number is a member.

ghost use Rattle.std.specs.Prelude.{◌≡◌, true, false, not, refl};
ghost use Rattle.pmf_runs.specs.Members.{both, has_either};

use crate::state::{Change, Effect, State, Test};

/// Whether some numbers are members, and whether some are not.
#[derive(Clone, Copy, Debug, PartialEq, Eq)]
pub struct Members {
    /// Whether there may be a member.
    pub some_in: bool,
    /// Whether there may be a number that is no member.
    pub some_out: bool,
}

impl State for bool {
    type Summary = Members;

    ghost covers = { has_either };

    ghost unsettled = { λ member. false };

    ghost flagged = { λ flag s. s };

    ghost forgets = { λ first last s. refl };

    fn summary(&self) -> Members {
        let member = *self;
        Members {
            some_in: member,
            some_out: !member,
        }
    }

    fn joined(one: Members, other: Members) -> Members {
        both(one, other)
    }

    fn is_unsettled(&self) -> bool {
        false
    }

    fn may_be_unsettled(_summary: Members) -> bool {
        false
    }

    fn settled(summary: Members) -> Members {
        summary
    }

    fn is_same(&self, other: bool) -> bool {
        *self == other
    }

    fn are_alike(one: Members, other: Members) -> bool {
        one == other
    }

    fn flagged(self, _flag: bool) -> bool {
        self
    }

    fn summary_flagged(summary: Members, _flag: bool) -> Members {
        summary
    }
}

fn both(one: Members, other: Members) -> Members
    ensures { result ≡ both one other }
{
    Members {
        some_in: one.some_in || other.some_in,
        some_out: one.some_out || other.some_out,
    }
}

/// Puts the numbers in.
#[derive(Clone, Copy, Debug, Drop)]
pub struct PutIn;

impl Change<bool> for PutIn {
    ghost changed = { λ put member. true };

    fn changed(&self, _member: bool) -> bool {
        true
    }

    fn may_alter(&self, summary: Members) -> bool {
        summary.some_out
    }

    fn widened(&self, summary: Members) -> Members {
        Members {
            some_in: true,
            some_out: summary.some_out,
        }
    }

    fn effect(&self, _summary: Members, _member: bool) -> Effect {
        Effect::Widens
    }
}

/// Whether the number is a member.
#[derive(Clone, Copy, Debug, Drop)]
pub struct IsIn;

impl Test<bool> for IsIn {
    ghost passes = { λ is member. member };

    fn passes(&self, member: bool) -> bool {
        member
    }

    fn may_pass(&self, summary: Members) -> bool {
        summary.some_in
    }
}

/// Whether the number is no member.
#[derive(Clone, Copy, Debug, Drop)]
pub struct IsOut;

impl Test<bool> for IsOut {
    ghost passes = { λ is member. not member };

    fn passes(&self, member: bool) -> bool {
        !member
    }

    fn may_pass(&self, summary: Members) -> bool {
        summary.some_out
    }
}
