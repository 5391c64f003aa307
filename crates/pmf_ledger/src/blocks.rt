//! The blocks of a ledger text, as far as it was read.

ghost use Rattle.std.specs.Prelude.{◌≡◌, ◌≢◌, ◌+◌, ◌<◌, ◌^◌, ◌≤◌, [], ◌∷◌, ◌++◌, drop, length, codes, None, IfErr, IfOk, IsOk, MatchOption, bytes_eq};
ghost use Rattle.pmf_event.specs.declared.section.TheConstants.{EVENT_LIMIT};
ghost use Rattle.pmf_verdict.specs.{Checked.{rows_in}, Text.{text_of_row}};
ghost use Rattle.pmf_ledger.specs.{BlockReading.{without_blocks}, Following.{HasRead, Reaches, StandsFor}, Loading.{IsOther, IsWantOfMemory, Reading, LineTakesMemory, after_end, after_event, after_head, after_line, after_row, after_version, end_of, fault_at, head_of, profile_of, unread, with_events, with_rows, with_section}};
ghost use Rattle.pmf_storelog.specs.Lines.{event_of_line};

use crate::head::{read_end, read_head, read_version};
use crate::loading::LedgerFault;
use crate::pile::Pile;
use crate::taking::TakeFault;
use pmf_event::{Profile, Row, Section, SectionFault};
use pmf_storelog::{Cause, LineFault, LogFault, read_event};
use pmf_verdict::{Verdict, check, push_row};
use std::alloc::{AllocError, Global};
use std::sync::Arc;

// The want of memory of an event, which is no text line's fault.
const OUT_OF_MEMORY: LogFault = LogFault {
    at: 0,
    cause: Cause::OutOfMemory,
};

/// What comes next in the text.
#[derive(Drop)]
pub(crate) enum Next {
    /// The version.
    Version,
    /// A block, or the end of the text.
    Block,
    /// So many more events of the section, which is told to have so many rows.
    Events {
        section: Section,
        more: u64,
        told: u64,
    },
    /// The rows of the verdict from this one on.
    Rows {
        verdict: Verdict,
        row: usize,
    },
    /// Nothing.
    End,
}

/// The sections of the blocks that were read, and how many blocks they were, repeats counted.
#[derive(Drop)]
pub(crate) struct Blocks {
    pub(crate) pile: Pile,
    pub(crate) count: u64,
    spelled: String,
}

// Why a text line that is no event is refused.
fn fault_at(line: u64, refusal: LineFault) -> LedgerFault
    ensures { result ≡ fault_at line refusal }
{
    match refusal {
        LineFault::NoEvent => LedgerFault::NotALedger { line },
        LineFault::Refused(cause) => LedgerFault::Log(LogFault { at: line, cause }),
    }
}

// Whether the text with a line end is what is spelled.
fn is_line(text: &[u8], spelled: &[u8]) -> bool
    ensures { result ≡ bytes_eq (text.now ++ codes "\n") spelled.now }
{
    match spelled.strip_suffix(b"\n".as_slice()) {
        Some(line) => text == line,
        None => false,
    }
}

impl Blocks {
    /// No blocks. Takes no memory.
    pub(crate) fn new(alloc: Global) -> Blocks
        ensures { HasRead unread result }
    {
        Blocks::by(alloc, Profile::One)
    }

    /// No blocks of a text by this profile. Takes no memory.
    pub(crate) fn by(alloc: Global, profile: Profile) -> Blocks
        ensures { (r : Reading) → r.profile ≡ profile → r.blocks ≡ [] → HasRead r result }
    {
        Blocks {
            pile: Pile::new(alloc, profile),
            count: 0,
            spelled: String::new(alloc),
        }
    }

    /// Reads the text line of this number, without its end.
    #[tactic(auto, unfolding(crate::specs::Loading::after_line))]
    pub(crate) fn follow(
        &mut self,
        alloc: Global,
        next: Next,
        line: u64,
        text: &[u8],
    ) -> Result<Next, LedgerFault>
        requires count { self.old.count < 2 ^ 63 }
        requires stands { (r : Reading) × StandsFor r self.old next }
        ensures reaches { (r : Reading) → StandsFor r self.old next
            → Reaches (after_line r line text.now) result self.new }
        ensures memory { (r : Reading) → StandsFor r self.old next → 0 < line
            → IfErr result (λ found. IsWantOfMemory found → LineTakesMemory r.stage text.now) }
    {
        match next {
            Next::Version => self.version(alloc, line, text),
            Next::Block => self.block(alloc, line, text),
            Next::Events {
                section,
                more,
                told,
            } => self.event(alloc, section, more, told, line, text),
            Next::Rows { verdict, row } => self.row(verdict, row, line, text),
            Next::End => Err(LedgerFault::NotALedger { line }),
        }
    }

    fn version(&mut self, alloc: Global, line: u64, text: &[u8]) -> Result<Next, LedgerFault>
        ensures reaches { (r : Reading) → HasRead r self.old → r.blocks ≡ []
            → Reaches (after_version r line (profile_of text.now)) result self.new }
        ensures memory { IfErr result (λ found. IsWantOfMemory found → ⊥) }
    {
        match read_version(text) {
            Some(profile) => {
                self.pile = Pile::new(alloc, profile);
                Ok(Next::Block)
            }
            None => Err(LedgerFault::NotALedger { line }),
        }
    }

    fn block(&mut self, alloc: Global, line: u64, text: &[u8]) -> Result<Next, LedgerFault>
        requires { self.old.count < 2 ^ 63 }
        ensures reaches { (r : Reading) → HasRead r self.old
            → Reaches (after_head r line text.now (head_of text.now)) result self.new }
        ensures memory { IfErr result (λ found. IsWantOfMemory found → head_of text.now ≢ None) }
    {
        match read_head(text) {
            Some(head) => {
                let section = Section::new(alloc, head.name);
                self.with_events(alloc, section, head.events, head.rows)
            }
            None => self.end(line, text),
        }
    }

    fn end(&mut self, line: u64, text: &[u8]) -> Result<Next, LedgerFault>
        ensures reaches { (r : Reading) → HasRead r self.old
            → Reaches (after_end r line (end_of text.now)) result self.new }
        ensures memory { IfErr result (λ found. IsWantOfMemory found → ⊥) }
    {
        match read_end(text) {
            Some(blocks) => {
                if blocks == self.count {
                    Ok(Next::End)
                } else {
                    Err(LedgerFault::NotALedger { line })
                }
            }
            None => Err(LedgerFault::NotALedger { line }),
        }
    }

    fn event(
        &mut self,
        alloc: Global,
        section: Section,
        more: u64,
        told: u64,
        line: u64,
        text: &[u8],
    ) -> Result<Next, LedgerFault>
        requires count { self.old.count < 2 ^ 63 }
        requires some { 0 < more }
        ensures reaches { (r : Reading) → HasRead r self.old
            → Reaches (after_event r line section more told (event_of_line text.now))
            result self.new }
        ensures memory { 0 < line → IfErr result (λ found. IsWantOfMemory found
            → IsOk (event_of_line text.now) × (length section.events ≢ EVENT_LIMIT)) }
    {
        let mut section = section;
        let event = match read_event(text) {
            Ok(event) => event,
            Err(refusal) => return Err(fault_at(line, refusal)),
        };
        match section.push(event) {
            Ok(()) => {}
            Err(SectionFault::TooManyEvents) => {
                return Err(LedgerFault::Log(LogFault {
                    at: line,
                    cause: Cause::TooManyEvents,
                }));
            }
            Err(SectionFault::OutOfMemory) => return Err(LedgerFault::Log(OUT_OF_MEMORY)),
        }
        self.with_events(alloc, section, more - 1, told)
    }

    // So many events of the section are still to come.
    #[tactic(auto, using(std::proofs::lemmas::Grind::common_steps, crate::proofs::lemmas::ReadingLemmas::events_more, crate::proofs::lemmas::ReadingLemmas::HasRead_at, crate::proofs::lemmas::ReadingLemmas::events_none))]
    fn with_events(
        &mut self,
        alloc: Global,
        section: Section,
        more: u64,
        told: u64,
    ) -> Result<Next, LedgerFault>
        requires { self.old.count < 2 ^ 63 }
        ensures { (r : Reading) → HasRead r self.old
            → Reaches (with_events r section more told) result self.new }
    {
        if more > 0 {
            return Ok(Next::Events {
                section,
                more,
                told,
            });
        }
        self.with_section(alloc, section, told)
    }

    // All events of the section have come: it is checked.
    #[tactic(auto, using(std::proofs::lemmas::Grind::common_steps, crate::proofs::lemmas::ReadingLemmas::own_profile, crate::proofs::lemmas::ReadingLemmas::verdict_is, crate::proofs::lemmas::ReadingLemmas::rows_told))]
    fn with_section(
        &mut self,
        alloc: Global,
        section: Section,
        told: u64,
    ) -> Result<Next, LedgerFault>
        requires { self.old.count < 2 ^ 63 }
        ensures { (r : Reading) → HasRead r self.old
            → Reaches (with_section r section told) result self.new }
    {
        let name = section.name();
        let Ok(section) = Arc::new(alloc, section) else {
            return Err(LedgerFault::OutOfMemory);
        };
        let Ok(verdict) = check(alloc, section, self.pile.profile()) else {
            return Err(LedgerFault::OutOfMemory);
        };
        if verdict.rows().len() as u64 == told {
            self.with_rows(verdict, 0)
        } else {
            Err(LedgerFault::FalseRows { name })
        }
    }

    #[tactic(auto, using(std::proofs::lemmas::Grind::common_steps, crate::proofs::lemmas::ReadingLemmas::row_same, crate::proofs::lemmas::ReadingLemmas::HasRead_same))]
    fn row(
        &mut self,
        verdict: Verdict,
        row: usize,
        line: u64,
        text: &[u8],
    ) -> Result<Next, LedgerFault>
        requires count { self.old.count < 2 ^ 63 }
        requires within { row < length (rows_in verdict) }
        requires profile { verdict.profile ≡ self.old.pile.last.profile }
        ensures { (r : Reading) → HasRead r self.old
            → Reaches (after_row r line text.now verdict.section (drop row (rows_in verdict)))
            result self.new }
    {
        let wanted = &verdict.rows()[row];
        match self.is_row(wanted, text) {
            Ok(true) => self.with_rows(verdict, row + 1),
            Ok(false) => Err(LedgerFault::FalseRows {
                name: verdict.name(),
            }),
            Err(AllocError) => Err(LedgerFault::OutOfMemory),
        }
    }

    // Whether the text is the row's.
    fn is_row(&mut self, row: &Row, text: &[u8]) -> Result<bool, AllocError>
        ensures same { IfOk result (λ same.
            same ≡ bytes_eq (text.now ++ codes "\n") (text_of_row row.now)) }
        ensures pile { self.new.pile ≡ self.old.pile }
        ensures count { self.new.count ≡ self.old.count }
    {
        self.spelled.clear();
        push_row(&mut self.spelled, row)?;
        Ok(is_line(text, self.spelled.as_bytes()))
    }

    // The rows of the verdict from this one on are still to come. With none left it is taken.
    fn with_rows(&mut self, verdict: Verdict, row: usize) -> Result<Next, LedgerFault>
        requires count { self.old.count < 2 ^ 63 }
        requires profile { verdict.profile ≡ self.old.pile.last.profile }
        ensures { (r : Reading) → HasRead r self.old
            → Reaches (with_rows r verdict.section (drop row (rows_in verdict))) result self.new }
    {
        if row < verdict.rows().len() {
            return Ok(Next::Rows { verdict, row });
        }
        self.take(verdict)
    }

    /// Hands out the block that was read last, where it is the only one.
    pub(crate) fn hand_out(&mut self) -> Option<Verdict>
        ensures { (r : Reading) → HasRead r self.old → length r.blocks ≤ 1
            → HasRead (without_blocks r) self.new
            × MatchOption result (r.blocks ≡ []) (λ given. (r.blocks ≡ given.section ∷ []) × (given.profile ≡ r.profile)) }
    {
        let last = self.pile.pop()?;
        self.count = 0;
        Some(last)
    }

    // One block more.
    fn take(&mut self, verdict: Verdict) -> Result<Next, LedgerFault>
        requires count { self.old.count < 2 ^ 63 }
        requires profile { verdict.profile ≡ self.old.pile.last.profile }
        ensures reaches { (r : Reading) → HasRead r self.old
            → Reaches (with_rows r verdict.section []) result self.new }
        ensures memory { (r : Reading) → HasRead r self.old → IfErr result (λ found. IsWantOfMemory found
            → IsOther r.blocks verdict.section → ⊥) }
    {
        let name = verdict.name();
        match self.pile.take(verdict) {
            Ok(()) => {
                self.count += 1;
                Ok(Next::Block)
            }
            Err(TakeFault::Conflict) => Err(LedgerFault::Conflict { name }),
            Err(TakeFault::OutOfMemory) => Err(LedgerFault::OutOfMemory),
            Err(TakeFault::ProfileMismatch) => unreachable!(),
        }
    }
}
