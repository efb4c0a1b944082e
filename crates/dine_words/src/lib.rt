//! The words of the arbiter: its tasks, calls, refusals and replies, and their texts, read and written.
#![tactic(auto)]

mod call;
mod call_word;
mod entry;
mod header;
mod law;
mod limits;
mod mark;
mod number;
mod read;
mod read_entry;
mod short;
mod task;
mod version;
mod write;
mod write_entry;

pub use call::{Call, Refusal, Reply};
pub use call_word::{CallOnOne, CallOnTwo, is_join};
pub use entry::Entry;
pub use header::Header;
pub use law::{entries_are_read_by_their_texts, headers_are_read_by_their_texts};
pub use limits::{
    DEFAULT_CONFLICTS, DEFAULT_TASKS, Limits, MAX_CONFLICTS, MAX_LINE, MAX_NUMBERED_PASSES,
    MAX_TASKS,
};
pub use mark::{Failed, Marked, Sink, Source};
pub use number::{NUMBER_LEN, push_number, push_number_line, push_numbered, put_number, put_text};
pub use read::number_at;
pub use task::{Diner, State, Task};
pub use version::JournalVersion;
pub use write::MAX_ENTRY_LINE;
