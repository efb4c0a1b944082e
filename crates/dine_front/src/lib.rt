//! The arbiter for many threads: one lock over a hall, passes that carry a receipt for each call, and looks that take no
//! lock.
#![tactic(auto)]

mod closing;
mod counted;
mod cursors;
mod front;
mod front_fault;
mod known;
mod law;
mod locked;
mod lookout;
mod naming;
mod opening;
mod panel;
mod pass;
mod published;
mod shown;
mod sight;
mod turns;
mod verdict;
mod waiting;

pub use front::Front;
pub use front_fault::{FrontFault, Gone, OpenFault};
pub use law::{there_is_one_verdict, who_has_seen_less_has_seen_a_beginning};
pub use naming::{LEDGER_PARTS, Naming};
pub use opening::Opened;
pub use pass::Pass;
pub use verdict::{Closed, Verdict};
