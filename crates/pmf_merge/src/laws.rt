//! The law of what is merged as it stands, the clause of an empty function.

ghost use Rattle.pmf_merge.specs.Laws.{TrustKeepsLedgers};

/// Of the texts of ledgers [`trust_to`](crate::trust_to) writes the text of the ledger of all their sections, but for the first text line. So
/// where their rows were true, these are.
pub fn trust_keeps_ledgers()
    ensures { TrustKeepsLedgers }
{}
