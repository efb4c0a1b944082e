//! Worked calls, each public call once, and who is woken.

mod audited;
mod front;
mod order;
mod same;
mod threads;
mod uses;
mod visit;
mod wakes;
