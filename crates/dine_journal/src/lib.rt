//! The history of an arbiter: kept, and written as text, and who overtakes whom in it; with the slow table that every faster
//! body is compared with.
#![tactic(auto)]

mod board;
mod flat;
mod flat_history;
mod hall;
mod history;
mod journal;
mod law;
mod overtaking;
mod plain;
mod text;
mod views;

pub use board::{Board, Change};
pub use flat::{Aside, FlatReceipt};
pub use hall::{Answer, Hall};
pub use history::History;
pub use journal::Journal;
pub use law::{
    only_who_joined_overtakes, replies_tell_the_states, who_begins_beside_the_hungry_overtakes_them,
};
pub use overtaking::{most_overtakes, overtakes, overtakes_somebody};
pub use plain::PlainTable;
pub use text::TextFault;
pub use views::{Entries, Receipts};
