//! Tests of the front and of its proved callers: worked calls, each public call once with ample memory, and who is woken.
//!
//! They are a crate of their own so that the gate begins them while those of the other libraries are still proved.
#![tactic(auto)]

#[cfg(test)]
mod tests;
