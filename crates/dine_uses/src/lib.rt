//! Callers of this library, as a scheduler, a broker of resources, a test bench and two threads would write them. Each
//! has the contract that its user wants.
//!
//! Which type to call, and what it costs in memory:
//!
//! - [`dine_arbiter::Arbiter`], where one thread decides: 80 bytes for each conflict and some 60 to 70 for each task that
//!   its limits allow, all of it taken when it is made. It keeps no history. [`Scheduler`] and [`Broker`] call it.
//! - [`dine_journal::Hall`], where its journal is to be read or audited: 32 bytes more for each call, for ever.
//!   [`keep_record`] calls it.
//! - [`dine_front::Front`], where several threads call: a hall under one lock, and a receipt of 24 bytes more for each call.
//!   [`eat_in_turns`] calls it.
#![tactic(auto)]

mod calling;
mod recorded;
mod resource_broker;
mod shared;
mod tick;
mod use_fault;

pub use recorded::{Recorded, keep_record};
pub use resource_broker::Broker;
pub use shared::eat_in_turns;
pub use tick::Scheduler;
pub use use_fault::Fault;
