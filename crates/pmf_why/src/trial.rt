//! What is told as a cure: only what a check has confirmed.

ghost use Rattle.std.specs.{Prelude.{◌≡◌, true, IfOk, Contains}, List.{All}};
ghost use Rattle.pmf_why.specs.{Cures.{IsCure}, Plans.{IsPlan}, Rows.{bad_of}};

use crate::cure::Way;
use crate::row::BadRow;
use pmf_cause::{Edit, try_edits};
use std::alloc::{AllocError, Global};

/// How far these changes cure the row, as far as was tried: with all changes of its section, and by themselves, too, while there is room
/// for such a check of the section. Changes that cure it by themselves alone are none: `--patch` would leave them out.
pub(crate) fn way_of(
    alloc: Global,
    bad: &BadRow<'_, '_>,
    edits: &[Edit],
    budget: &mut usize,
) -> Result<Way, AllocError>
    requires { IsPlan bad.now.taken.verdict.now bad.now.taken.plan.now }
    ensures { IfOk result (IsCure (bad_of bad.now) edits.now) }
{
    if edits.is_empty() {
        return Ok(Way::NotFound);
    }
    let Some(with_all) = &bad.taken.plan.trial else {
        return Ok(Way::NotFound);
    };
    if !with_all.is_cured(&bad.row) {
        return Ok(Way::NotFound);
    }
    let verdict = bad.taken.verdict;
    let spent = verdict.section().events().len();
    if spent < *budget {
        *budget -= spent;
        if let Some(alone) = try_edits(alloc, verdict, edits)? {
            if alone.is_cured(&bad.row) {
                return Ok(Way::Alone);
            }
        }
    }
    if are_among(edits, &bad.taken.plan.edits) {
        return Ok(Way::WithAll);
    }
    Ok(Way::NotFound)
}

// Whether the changes are some of the others, whose places rise.
fn are_among(edits: &[Edit], all: &[Edit]) -> bool
    ensures { result ≡ true → All (λ e. Contains all.now e) edits.now }
{
    for edit in edits {
        if !is_among(*edit, all) {
            return false;
        }
    }
    true
}

fn is_among(edit: Edit, all: &[Edit]) -> bool
    ensures { result ≡ true → Contains all.now edit }
{
    let start = all.partition_point(|other| other.place() < edit.place());
    for index in start..all.len() {
        if all[index] == edit {
            return true;
        }
        if all[index].place() != edit.place() {
            return false;
        }
    }
    false
}
