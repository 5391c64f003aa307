//! Verdicts gathered: a ledger holds each section that it took once, in the order of their names.
//!
//! A [`Ledger`] has a profile, and its type keeps that its verdicts are by that profile and that their names
//! rise. What it holds is said as a set (`specs/Gathered`): [`Ledger::take`] adds the verdict's section and
//! nothing else, [`Ledger::join`] unites two; each refuses, want of memory aside, exactly where profiles differ or a
//! name is held with other events, and gives back what it was handed. So a ledger is that of the set of sections that
//! were gathered, whatever was repeated and in whatever order: the laws of `specs/Gathering` and `specs/Laws`.
//!
//! Its report is `specs/Report`, its summary `specs/Summary`. Its own text, `specs/LedgerText`, is read by [`load_ledger`] as `specs/Loading` says:
//! no row of a text is believed, and each section is checked again.
//!
//! Not promised here: that memory suffices.
#![tactic(auto)]

mod block_lines;
mod block_reader;
mod blocks;
mod copying;
mod fitting;
mod form;
mod head;
mod joining;
mod last_run;
mod laws;
mod ledger;
mod loading;
mod lone_block;
mod pile;
mod raw_text;
mod repeats;
mod reporting;
mod summing;
mod taking;
mod telling;
#[cfg(test)]
mod tests;
mod totals;
mod writing;

pub use block_lines::BlockFault;
pub use block_reader::{BlockReader, Fed};
pub use form::Form;
pub use joining::JoinFault;
pub use laws::{
    all_rows_are_true, equal_sets_have_one_ledger, gatherings_are_refused_for_cause_alone,
    gatherings_give_or_are_refused, gatherings_give_the_ledger_of_their_set,
    gatherings_that_agree_give_a_ledger, joining_again_changes_nothing, joining_associates,
    joining_commutes, ledger_texts_have_their_blocks, no_empty_is_filled, no_fail_is_kept,
    only_the_set_counts, reports_tell_their_sections, reports_tell_their_totals,
    texts_have_their_blocks_in_one_way, texts_load_as_one_ledger, what_loads_is_not_refused,
};
pub use ledger::Ledger;
pub use loading::{LEDGER_LIMIT, LedgerFault, load_ledger};
pub use lone_block::LoneBlock;
pub use raw_text::{FirstBlock, begins_no_block, first_block, first_version, trusted_version};
pub use repeats::least_repeat;
pub use taking::{TakeFault, Taken, order};
pub use telling::Teller;
pub use totals::Totals;
pub use writing::push_end;
