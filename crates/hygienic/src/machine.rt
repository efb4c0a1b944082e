//! What the program asks of its machine.

use std::random::RandomSource;
use std::sync::Wait;
use std::thread::Threads;

/// Memory, random numbers, threads, and waiting for them.
pub trait Machine: AllocGlobal + RandomSource + Threads + Wait + Sync {}

impl<T: AllocGlobal + RandomSource + Threads + Wait + Sync> Machine for T {}
