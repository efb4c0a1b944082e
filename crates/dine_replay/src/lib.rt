//! Journals, replayed: audited, kept, or gone on with. One that is in memory is replayed whole, and any other while it is read,
//! by one loop over lines. And what an audit writes.
#![tactic(auto)]

mod audit_answer;
mod bound;
mod journal_fault;
mod law;
mod made_again;
mod output;
mod read_by_read;
mod replayed;
mod visitor;
mod whole_text;

pub use audit_answer::{AuditFault, Checked};
pub use journal_fault::{explain_journal, explain_left};
pub use law::{
    every_text_has_an_answer, no_text_has_two_answers, who_goes_on_writes_the_rest_of_the_journal,
};
pub use output::{AuditReading, push_answer, run_audit, write_answer};
pub use read_by_read::{check, check_long, replay};
// `MAX_INPUT` bounds what `audit` and `check` read.
pub use dine_streams::MAX_INPUT;
pub use replayed::Replayed;
pub use whole_text::{audit, audit_text, check_text};
