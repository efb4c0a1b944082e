//! What the program `hygienic` does between its words and streams and its exit status: it runs scripts
//! and races, serves, and audits, draws and goes on with journals.
#![tactic(auto)]

mod chart;
mod drawing;
mod input_remarks;
mod journal_file;
mod law;
mod program;
mod race;
mod resumed;
mod trace;

// `run_words` is the whole program in one call. Only tests and the benchmark take `VERSION`, `Silence`, `NoFiles`,
// `AuditReading`, `run_audit`, `run_race`, `run_resumed`, `run_script` and `run_serve`: what it does by one subcommand,
// tried over streams that fail.
pub use dine_command_line::{CommandLine, Host, Input, NoFiles, Print, Request, VERSION};
pub use dine_lines::{Listener, Remark, Seed, Silence};
pub use dine_race::{Gate, NoGate};
pub use dine_replay::{AuditReading, run_audit};
pub use dine_script::{CliFault, Ended, run_script};
pub use dine_serve::run_serve;
pub use law::who_resumes_writes_the_rest_of_the_journal;
pub use program::run_words;
pub use race::run_race;
pub use resumed::run_resumed;
