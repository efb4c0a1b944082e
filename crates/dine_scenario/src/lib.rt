//! Scenarios of races: what they say, how they are read, and what is wrong with a text that is none.
#![tactic(auto)]

mod known;
mod scenario;
mod scenario_fault;
mod scenario_reader;
mod scenario_remark;
mod table_form;
mod value;
mod worker_line;

pub use scenario::{MAX_WORKERS, NamedCall, Scenario, Step, Worker};
pub use scenario_fault::ScenarioFault;
pub use scenario_reader::read_scenario;
pub use scenario_remark::push_scenario_fault;
