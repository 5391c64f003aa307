//! Laws of cuts, each the clause of an empty function.

ghost use Rattle.pmf_cut.specs.Laws.{EndsStay, FindingsStay};

/// What is found behind a cut is found in the part, too: of each event but an assertion exactly that, FAIL of a persist
/// assertion as well, and PASS unless no byte that the part knows is checked, which is EMPTY there. The same of an order assertion
/// of whose pairs of checked bytes the part knows both, or the second was stored to behind the cut.
pub fn findings_stay()
    ensures { FindingsStay }
{}

/// What is found of a scope where the whole ends is found where its last part ends.
#[tactic(auto, using(crate::proofs::CutLemmas::ends_stay))]
pub fn ends_stay()
    ensures { EndsStay }
{}
