//! Scripts, from bytes to bytes: what the lines of a script are answered, and the journal of their calls.
#![tactic(auto)]

mod carried;
mod command;
mod law;
mod printed;
mod script;
mod script_remarks;
mod session;
mod written_text;

// `Listener` and `Remark` are for whoever runs a script and wants to be told what is wrong with it.
pub use dine_lines::{Print, Seed, Silence};
pub use dine_streams::{CliFault, Ended, end_of};
pub use law::a_script_makes_a_legal_history;
pub use script::run_script;
pub use written_text::write_text;
