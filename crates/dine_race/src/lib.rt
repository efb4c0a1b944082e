//! Races: workers, each in a thread of its own, that do the steps of a scenario over one front.
#![tactic(auto)]

mod bound;
mod gate;
mod meals;
mod racing;
mod report;
mod runner;
mod start;
mod threads;
mod worker;

pub use gate::{Gate, NoGate};
pub use racing::{Raced, race};
