//! Worked calls with their messages, and each public call once.

mod arbiter;
mod forks;
mod same;
