//! What a log's user asks beside its check: what shows a failure, and where an event stands.
//!
//! Each question is a [`Query`], whose answer is one text, or a [`StreamedQuery`], whose answer is written as it is found.
//! [`explain_text`] tells what the crash image of one event's failure holds (`Explanation`), and [`explain_all`] the same of each row
//! that counts as fail (`AllExplained`).
//! [`locate_event`] names the record that gave an event of a section, and the offset at which it begins
//! (`Locating`). Which record that is, and at which offset, is settled by the definition alone ([`laws`]).
//!
//! What a question about the records of a log stands on is here, too: a walk over them ([`next_record`]), where each event stands
//! ([`Standing`]), the fields of a record ([`field`]), and its text in ASCII ([`push_ascii`]).
//!
//! Not promised here: that memory suffices, and that a log is what the program did.
#![tactic(auto)]

mod ascii;
mod explain;
mod explaining;
mod fields;
pub mod laws;
mod locate;
mod passing;
mod query;
mod refusal;
mod section;
mod standing;
mod streaming;
#[cfg(test)]
mod tests;
mod usual;
mod walking;

pub use ascii::{is_text, push_ascii};
pub use explain::explain_text;
pub use explaining::explain_all;
pub use fields::field;
pub use locate::{Located, locate_event, locate_text};
pub use pmf_request::{Question, Sought, Whole};
pub use query::{Answer, Query};
pub use refusal::{EventFault, EventRefusal, LogRefusal};
pub use standing::Standing;
pub use streaming::{StreamedQuery, Unanswered};
pub use usual::usual_name;
pub use walking::{Found, next_record};
