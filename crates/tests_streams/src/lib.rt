//! Tests of the programs over streams that fail, never end or are interrupted, and with little memory.
//!
//! They stand in a crate of their own so that the gate proves them beside `tests_program`.
#![tactic(auto)]

#[cfg(test)]
mod tests;
