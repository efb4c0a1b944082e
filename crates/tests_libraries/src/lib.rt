//! Tests of the other libraries, each by itself: worked calls, printed text, each public call once with ample memory; and of
//! the plain table and the arbiter side by side.
//!
//! They stand in a crate of their own since a check of a crate with its tests proves all its functions once more.
#![tactic(auto)]

#[cfg(test)]
mod tests;
