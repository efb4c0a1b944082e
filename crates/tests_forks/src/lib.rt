//! Tests of the book of forks and of the arbiter: worked calls with their messages, each public call once with ample memory.
#![tactic(auto)]

#[cfg(test)]
mod tests;
