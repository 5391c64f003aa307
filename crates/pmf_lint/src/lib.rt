//! What a log's user asks before its rows are believed: what the log holds.
//!
//! [`Survey`] is that question, a `Query` of `pmf_query`, whose answer is one text.
//! [`lint_log`] counts the records of each name (`Naming`), and over the sections the assertions, the rows of those that
//! had nothing to check, the stores, those that no later assertion covers (`Covering`), those that are not durable at the end
//! (`Leaving`), and what is done in vain (`Upkeep`, `Summing`). It tells which warnings are due (`Warnings`): of what is asserted, of
//! names that are near to a known one or no text (`Nearness`), of a log that may be cut off (`Ending`) or misread (`Misread`).
//! What it answers is `Linting.IsLint`. [`name_stores`] names the stores that lack a write-back, a fence or an
//! assertion (`StoreNames`). [`lint_text`] writes all of that, with its warnings (`LintText`).
//!
//! Not promised here: that memory suffices, and that a log is what the program did.
#![tactic(auto)]

mod counting;
mod covering;
mod due;
mod ending;
mod inside;
mod leaving;
mod lint;
mod listing;
mod looking;
mod misread;
mod naming;
mod nearness;
mod noting;
mod storing;
mod summing;
mod telling;
#[cfg(test)]
mod tests;
mod upkeep;
mod usual;
mod warnings;

pub use due::warnings_due;
pub use lint::{Lint, Linted, Survey, lint_log};
pub use listing::Listing;
pub use naming::{LISTED, Named};
pub use nearness::near;
pub use pmf_request::Overview;
pub use storing::{StoreNames, name_stores};
pub use summing::Sums;
pub use telling::{lint_text, push_warnings};
pub use upkeep::Upkeep;
pub use warnings::Warnings;
