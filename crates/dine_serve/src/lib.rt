//! The arbiter over a pipe: it answers each line as it comes, and what it writes is the journal of what was asked.
#![tactic(auto)]

mod answer_texts;
mod awaits;
mod broker;
mod due;
mod law;
mod receipts;
mod request;
mod request_fault;
mod serving;
mod usual;
mod waiters;

pub use broker::Broker;
pub use dine_streams::{CliFault, Ended};
pub use dine_words::MAX_NUMBERED_PASSES;
pub use law::{
    each_await_is_answered_once, each_call_has_its_line, each_number_is_carried_out_once,
    nobody_waits_whose_turn_has_come, repeats_change_nothing,
    what_comes_again_is_answered_the_same, what_is_served_is_a_journal,
    who_waits_stands_in_the_order_of_last_meals,
};
pub use serving::{answer_all, run_serve};

// No caller makes these: the laws and the value of a broker name them.
pub use awaits::Await;
pub use receipts::{Coming, Receipt, RequestAnswer};
pub use request::Deed;
pub use request_fault::LineFault;
