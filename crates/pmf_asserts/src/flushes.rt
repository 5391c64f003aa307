//! What a write-back finds: lines that had nothing to write back, or were written back already.

ghost use Rattle.std.specs.Prelude.{◌≡◌};
ghost use Rattle.pmf_event.specs.FlushWarnings.{is_clean, is_pending, lines_where, doubled_finding, needless_finding};
ghost use Rattle.pmf_shadow.specs.Shadow.{ForEachList};

use pmf_event::{Finding, Span};
use pmf_shadow::Shadow;

/// What is found of a write-back, in the order of its rows. Both are warnings: time was lost, and
/// nothing else.
#[derive(Clone, Copy, Debug, PartialEq, Eq)]
pub struct FlushFindings {
    /// DOUBLED, where some lines have a write-back that no fence has completed.
    pub doubled: Option<Finding>,
    /// NEEDLESS, where some lines have nothing to write back.
    pub needless: Option<Finding>,
}

/// What is found of a write-back over the span that comes after the events that the shadow stands for:
/// it is judged before it takes effect.
pub fn check_flush(shadow: &Shadow, span: Span) -> FlushFindings
    ensures doubled { ForEachList shadow.now (λ told es p. result.doubled ≡ doubled_finding (lines_where (is_pending es p) span)) }
    ensures needless { ForEachList shadow.now (λ told es p. result.needless ≡ needless_finding (lines_where (is_clean es p) span)) }
{
    let lines = shadow.flush_lines(span);
    let doubled = match lines.pending {
        None => None,
        Some(lines) => Some(Finding::FlushDoubled {
            line: lines.least,
            lines: lines.count,
        }),
    };
    let needless = match lines.clean {
        None => None,
        Some(lines) => Some(Finding::FlushNeedless {
            line: lines.least,
            lines: lines.count,
        }),
    };
    FlushFindings { doubled, needless }
}
