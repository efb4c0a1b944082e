//! What tests share: streams that fail, never end or take little at a time, texts, usual limits and tasks, drawn numbers and
//! calls, and the bounds of what helpers are handed.
//!
//! They are proved here once, before what is tested by them is. What compares and gives up stands in each crate of
//! tests: only tests may abort.
#![tactic(auto)]

mod bounds;
mod calls;
mod draw;
mod streams;
mod texts;

pub use bounds::{Compared, Host, Machine};
pub use calls::{A, B, C, D, E, F, LIMITS, draw_call};
pub use draw::Draw;
pub use streams::{EndlessReader, FailingReader, FailingWriter};
pub use texts::{JOURNAL, OVERTAKING, REPLIES, RING, SCRIPT, TURNS, push_lines};
