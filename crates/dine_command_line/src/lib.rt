//! The program's command line: what it can ask for, what its words mean, and its help. And what whoever gave it is told on
//! standard error.
#![tactic(auto)]

mod chart;
mod command_line;
mod command_remark;
mod command_words;
mod help;
mod host;
mod limits;
mod noting;
mod process;
mod request;
mod telling;

pub use command_line::CommandLine;
pub use command_remark::explain_words;
pub use dine_lines::Print;
pub use help::VERSION;
pub use host::{Host, NoFiles};
pub use noting::{Failures, Noting};
pub use process::{Process, ProcessLine, seed};
pub use request::{Asked, Chart, Graph, Input, Request, Trace};
pub use telling::Telling;
