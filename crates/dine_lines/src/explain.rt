//! What is said beside the output: what was wrong with a line of a script or a journal, in words for people. No reply and no
//! status depend on any of it.

mod journal_text;
mod listener;
mod remark;
mod script_line;

pub use journal_text::{journal_from, push_entry_fault, push_header_fault, push_other_reply};
pub use listener::{Listener, Silence, tell};
pub use remark::{Remark, error_remark};
pub use script_line::{Place, push_line_fault};
