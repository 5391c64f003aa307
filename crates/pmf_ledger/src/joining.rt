//! How two ledgers become one.

ghost use Rattle.std.specs.Prelude.{◌≡◌, ◌≢◌, ◌↔◌, ◌+◌, ◌<◌, ◌≤◌, List, [], IfErr, IfOk, MatchOption, All, vec_len, vec_capacity};
ghost use Rattle.pmf_verdict.specs.Checked.{Checked};
ghost use Rattle.pmf_ledger.specs.{Gathered.{GathersBoth, IsLeastClash, Unites}, Joining.{Agree, AgreeInNames, AgreeTogether, AreRefusedAs, IsLeastDiffering, IsMerging, IsMerged}, Names.{Rises}};

use crate::ledger::Ledger;
use crate::loading::words_of_conflict;
use crate::taking::order;
use pmf_event::Name;
use pmf_verdict::Verdict;
use std::cmp::Ordering;
use std::error::Error;
use std::fmt;

/// Why two ledgers were not joined: the first that applies, in this order.
#[derive(Clone, Copy, Debug, PartialEq, Eq)]
pub enum JoinFault {
    /// They are by different profiles.
    ProfileMismatch,
    /// This name, the least of its kind, is held by both with other events.
    Conflict {
        /// The name.
        name: Name,
    },
    /// Room for the verdicts of both was refused.
    OutOfMemory,
}

impl fmt::Display for JoinFault {
    ghost use Rattle.std.specs.Prelude.{Some};
    ghost use Rattle.pmf_ledger.specs.FaultText.{text_of_join};

    ghost output = { λ fault. Some (text_of_join fault) };

    fn fmt<W: fmt::Write>(&self, f: &mut fmt::Formatter<W>) -> fmt::Result {
        match self {
            JoinFault::ProfileMismatch => f.write_str("profiles differ"),
            JoinFault::Conflict { name } => {
                write!(f, "section {}.{}: ", name.run, name.number)?;
                f.write_str(words_of_conflict())
            }
            JoinFault::OutOfMemory => f.write_str("out of memory"),
        }
    }
}

impl Error for JoinFault {}

// The least name that two sections have, one of each list, that differ.
#[tactic(auto, using(std::proofs::lemmas::Grind::common_steps, crate::proofs::lemmas::ScanLemmas::Scanned_first, crate::proofs::lemmas::ScanLemmas::Scanned_second, crate::proofs::lemmas::ScanLemmas::least_here))]
fn least_differing(first: &[Verdict], second: &[Verdict]) -> Option<Name>
    requires first_rises { Rises first.now }
    requires second_rises { Rises second.now }
    ensures { MatchOption result (AgreeInNames first.now second.now)
        (IsLeastDiffering first.now second.now) }
{
    let mut i = 0;
    let mut j = 0;
    while i < first.len() && j < second.len() {
        let mine = &first[i];
        let other = &second[j];
        match order(mine.name(), other.name()) {
            Ordering::Less => i += 1,
            Ordering::Greater => j += 1,
            Ordering::Equal => {
                if !mine.section().same_as(other.section()) {
                    return Some(mine.name());
                }
                i += 1;
                j += 1;
            }
        }
    }
    None
}

// Moves the last verdict, by the order of names, of both lists to the end of the merged one. Of two with one
// name that of the first list is dropped.
fn merge_last(first: &mut Vec<Verdict>, second: &mut Vec<Verdict>, merged: &mut Vec<Verdict>)
    requires some { 0 < vec_len first.old + vec_len second.old }
    requires room { vec_len first.old + vec_len second.old + vec_len merged.old
        ≤ vec_capacity merged.old }
    ensures merging { (xs ys : List Checked) →
        IsMerging xs ys first.old.items second.old.items merged.old.items →
        IsMerging xs ys first.new.items second.new.items merged.new.items }
    ensures room { vec_len first.new + vec_len second.new + vec_len merged.new
        ≤ vec_capacity merged.new }
    ensures fewer { vec_len first.new + vec_len second.new
        < vec_len first.old + vec_len second.old }
{
    if second.is_empty() {
        merged.push_reserved(first.take_last());
        return;
    }
    if first.is_empty() {
        merged.push_reserved(second.take_last());
        return;
    }
    match order(
        first[first.len() - 1].name(),
        second[second.len() - 1].name(),
    ) {
        Ordering::Less => merged.push_reserved(second.take_last()),
        Ordering::Greater => merged.push_reserved(first.take_last()),
        Ordering::Equal => drop(first.take_last()),
    }
}

// The verdicts of both lists, each once, in the order of their names. There is room for all of them.
fn merge(
    mut first: Vec<Verdict>,
    mut second: Vec<Verdict>,
    mut merged: Vec<Verdict>,
) -> Vec<Verdict>
    requires empty { merged.items ≡ [] }
    requires room { vec_len first + vec_len second + vec_len merged ≤ vec_capacity merged }
    requires first_rises { Rises first.items }
    requires second_rises { Rises second.items }
    requires agree { Agree first.items second.items }
    ensures { IsMerged first.items second.items result.items }
{
    while !first.is_empty() || !second.is_empty() {
        merge_last(&mut first, &mut second, &mut merged);
    }
    merged.reverse();
    merged
}

impl Ledger {
    /// The ledger of the sections that either of the two holds. A section that both hold is held once.
    ///
    /// After a refusal both ledgers come back as they were. The first two refusals come before memory is asked
    /// for. The new list takes memory, with room for the verdicts of both, before a verdict is moved. The time is
    /// linear in the sections of both and in the events of those that both hold.
    #[tactic(auto, using(std::proofs::lemmas::Grind::common_steps, crate::proofs::lemmas::JoiningLemmas::IfOk_gathers))]
    pub fn join(self, other: Ledger) -> Result<Ledger, (JoinFault, Ledger, Ledger)>

        // At Ok it holds what either held and nothing else: the ledger of the union of their sets.
        ensures unites { IfOk result (Unites self other) }
        ensures gathers { IfOk result (GathersBoth self other) }

        // Each refusal comes exactly where it has to, want of memory only where neither does, and both ledgers come back.
        ensures mismatch { AreRefusedAs result JoinFault.ProfileMismatch
            ↔ (self.profile ≢ other.profile) }
        ensures conflict { (name : Name) → (AreRefusedAs result (JoinFault.Conflict name)
            ↔ (self.profile ≡ other.profile) × IsLeastClash self other name) }
        ensures memory { AreRefusedAs result JoinFault.OutOfMemory
            → (self.profile ≡ other.profile) × AgreeTogether self other }
        ensures returned { IfErr result (λ refused. (refused.1 ≡ self) × (refused.2 ≡ other)) }
    {
        if self.profile != other.profile {
            return Err((JoinFault::ProfileMismatch, self, other));
        }
        if let Some(name) = self.least_clash(&other) {
            return Err((JoinFault::Conflict { name }, self, other));
        }
        self.unite(other)
    }

    // The least name that both hold with other events.
    fn least_clash(&self, other: &Ledger) -> Option<Name>
        ensures { MatchOption result (AgreeTogether self.now other.now)
            (IsLeastClash self.now other.now) }
    {
        least_differing(&self.verdicts, &other.verdicts)
    }

    // The ledger of both, where no name is held by both with other events.
    fn unite(self, other: Ledger) -> Result<Ledger, (JoinFault, Ledger, Ledger)>
        requires profile { self.profile ≡ other.profile }
        requires agree { AgreeTogether self other }
        ensures unites { IfOk result (Unites self other) }
        ensures rises { IfOk result (λ joined. Rises joined.sections) }
        ensures checked { IfOk result (λ joined.
            All (λ (c : Checked). c.profile ≡ joined.profile) joined.sections) }
        ensures refused { IfErr result (λ refused.
            refused ≡ (JoinFault.OutOfMemory, self, other)) }
    {
        let alloc = *self.verdicts.allocator();
        let room = self.verdicts.len() + other.verdicts.len();
        let Ok(merged) = Vec::with_capacity(alloc, room) else {
            return Err((JoinFault::OutOfMemory, self, other));
        };
        Ok(Ledger {
            profile: self.profile,
            verdicts: merge(self.verdicts, other.verdicts, merged),
        })
    }
}
