//! Tests of growth below the programs: the arbiter, the book of forks, the plain table, histories and fronts, each growth of
//! which is refused. And of calls that take no memory, of brokers and scripts too.
//!
//! They stand apart from those of the programs since they need none of them: the gate proves them early.
#![tactic(auto)]

#[cfg(test)]
mod tests;
