//! A ledger's text, as several crates read it.

/// The ledger of a fence, and of a store that is written back, fenced and asserted.
pub const LEDGER: &str = "\
PMFARM-LEDGER 1
section 0.0 events=1 rows=0
FENCE
section 0.1 events=4 rows=1
STORE;0x1000;0x0;0x8
FLUSH;0x1000;0x40
FENCE
PMT.PERSIST;0x1000;0x8
4 PERSIST PASS
end verdicts=2
";
