//! Tests that cross the crates: scripts, races and journals with their output, command lines, and streams that fail.
#![tactic(auto)]

#[cfg(test)]
mod tests;
