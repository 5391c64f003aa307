//! That the numbers of checked sections fit in 64 bits, as their types say.

ghost use Rattle.std.specs.Prelude.{All};
ghost use Rattle.pmf_ledger.specs.ReportTold.{FitsFinding, FitsRow, FitsSection};

use pmf_event::{Finding, Name, Row};
use pmf_verdict::Verdict;

/// Does nothing. It says that the numbers of each section fit.
pub(crate) fn sections_fit(verdicts: &[Verdict])
    ensures { All FitsSection verdicts.now }
{
    for verdict in verdicts {
        section_fits(verdict);
    }
}

fn section_fits(verdict: &Verdict)
    ensures { FitsSection verdict.now }
{
    let Name {
        run: _run,
        number: _number,
    } = verdict.name();
    let _events = verdict.section().events().len();
    rows_fit(verdict.rows());
}

fn rows_fit(rows: &[Row])
    ensures { All FitsRow rows.now }
{
    for row in rows {
        row_fits(*row);
    }
}

fn row_fits(row: Row)
    ensures { FitsRow row }
{
    let Row {
        place: _place,
        finding,
    } = row;
    finding_fits(finding);
}

fn finding_fits(finding: Finding)
    ensures { FitsFinding finding }
{
    match finding {
        Finding::PersistFail { byte: _byte } => {}
        Finding::OrderedFail {
            byte: _byte,
            after: _after,
            crash: _crash,
        } => {}
        Finding::OrderedSameLine {
            byte: _byte,
            after: _after,
        } => {}
        Finding::FlushDoubled {
            line: _line,
            lines: _lines,
        } => {}
        Finding::FlushNeedless {
            line: _line,
            lines: _lines,
        } => {}
        Finding::NoBackup { byte: _byte } => {}
        Finding::DupLog { byte: _byte } => {}
        Finding::CheckFail { byte: _byte } => {}
        Finding::TxStillOpen { depth: _depth } => {}
        Finding::Unclosed { start: _start } => {}
        _ => {}
    }
}
