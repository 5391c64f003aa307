//! What a persist assertion finds.

ghost use Rattle.std.specs.Prelude.{◌≡◌};
ghost use Rattle.pmf_event.specs.Persist.{persist_finding};
ghost use Rattle.pmf_shadow.specs.Shadow.{ForEachList};

use pmf_event::{Finding, Span};
use pmf_shadow::Shadow;

/// What a persist assertion over the span finds after the events that the shadow stands for: EMPTY
/// where no byte is checked, FAIL with the least checked byte whose persist interval is open, else
/// PASS (PMTest, ASPLOS 2019: isPersist).
pub fn check_persist(shadow: &Shadow, span: Span) -> Finding
    ensures { ForEachList shadow.now (λ told es p. result ≡ persist_finding es p span) }
{
    if !shadow.written_included(span) {
        return Finding::PersistEmpty;
    }
    match shadow.least_open(span) {
        None => Finding::PersistPass,
        Some(byte) => Finding::PersistFail { byte },
    }
}
