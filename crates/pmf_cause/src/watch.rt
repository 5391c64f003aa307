//! The lines of which something is asked, so that events of other lines are passed over.

ghost use Rattle.std.specs.Prelude.{◌≡◌, ℕ, true, false, IfOk, OnOk};
ghost use Rattle.pmf_event.specs.Line.{line_of_byte, meets_line};
ghost use Rattle.pmf_cause.specs.{Later.{AllAsk}, Watching.{Asks, Widens, has_line}};

use pmf_event::{ADDRESS_LIMIT, Finding, LINE_SIZE, Row, Span, line_of};
use pmf_places::lines_of;
use pmf_runs::{IsIn, PutIn, RunMap};
use std::alloc::{AllocError, Global};

/// The lines of which something is asked.
#[derive(Debug, Drop)]
pub(crate) struct Watch {
    /// Those of bytes whose last store is asked for, and what follows it.
    pub(crate) stored: RunMap<bool>,
    /// Those whose last write-back is asked for.
    pub(crate) flushed: RunMap<bool>,
    /// Those of bytes whose last TXADD is asked for.
    pub(crate) added: RunMap<bool>,
}

impl Watch {
    /// No line. Takes no memory.
    pub(crate) fn new(alloc: Global) -> Watch {
        Watch {
            stored: RunMap::new(alloc, false),
            flushed: RunMap::new(alloc, false),
            added: RunMap::new(alloc, false),
        }
    }

    /// What the causes of the rows ask for.
    pub(crate) fn of(alloc: Global, rows: &[Row]) -> Result<Watch, AllocError>
        ensures { IfOk result (λ watch. AllAsk watch rows.now) }
    {
        let mut watch = Watch::new(alloc);
        for row in rows {
            watch.put(row.finding)?;
        }
        Ok(watch)
    }

    // Puts in what the cause of a finding asks for.
    #[tactic(auto, unfolding(crate::specs::Watching::Asks))]
    fn put(&mut self, finding: Finding) -> Result<(), AllocError>
        ensures asks { OnOk result (Asks self.new finding) }
        ensures widens { OnOk result (Widens self.old self.new) }
    {
        match finding {
            Finding::PersistFail { byte } => put_line(&mut self.stored, byte),
            Finding::CheckFail { byte } => put_line(&mut self.stored, byte),
            Finding::OrderedFail { byte, after, .. } => put_both(&mut self.stored, byte, after),
            Finding::OrderedSameLine { byte, after } => put_both(&mut self.stored, byte, after),
            Finding::FlushDoubled { line, .. } => put_line(&mut self.flushed, line),
            Finding::FlushNeedless { line, .. } => put_line(&mut self.flushed, line),
            Finding::DupLog { byte } => put_line(&mut self.added, byte),
            _ => Ok(()),
        }
    }
}

// Puts in the line of the byte.
#[tactic(auto, using(crate::proofs::WatchLemmas::line_kept))]
fn put_line(lines: &mut RunMap<bool>, byte: u64) -> Result<(), AllocError>
    ensures has { OnOk result (has_line lines.new byte ≡ true) }
    ensures kept { OnOk result ((b : ℕ) → has_line lines.old b ≡ true → has_line lines.new b ≡ true) }
{
    let line = line_of(byte);
    lines.change(line, line.saturating_add(LINE_SIZE), &PutIn)?;
    Ok(())
}

fn put_both(lines: &mut RunMap<bool>, one: u64, other: u64) -> Result<(), AllocError>
    ensures one { OnOk result (has_line lines.new one ≡ true) }
    ensures other { OnOk result (has_line lines.new other ≡ true) }
    ensures kept { OnOk result ((b : ℕ) → has_line lines.old b ≡ true → has_line lines.new b ≡ true) }
{
    put_line(lines, one)?;
    put_line(lines, other)
}

/// Puts in the lines that the span meets.
pub(crate) fn put_lines(lines: &mut RunMap<bool>, span: &Span) -> Result<(), AllocError> {
    let (first, end) = lines_of(span);
    lines.change(first, end, &PutIn)?;
    Ok(())
}

/// Puts in all lines.
pub(crate) fn put_all(lines: &mut RunMap<bool>) -> Result<(), AllocError> {
    lines.change(0, ADDRESS_LIMIT, &PutIn)?;
    Ok(())
}

/// Whether the span meets one of the lines.
#[tactic(auto, using(crate::proofs::WatchLemmas::unmet))]
pub(crate) fn are_met(lines: &RunMap<bool>, span: &Span) -> bool
    ensures { result ≡ false → (b : ℕ) → has_line lines.now b ≡ true → meets_line span.now (line_of_byte b) ≡ false }
{
    let (first, end) = lines_of(span);
    lines.first_where(first, end, &IsIn).is_some()
}
