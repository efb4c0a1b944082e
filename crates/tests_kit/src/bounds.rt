//! What helpers of tests ask of what they are handed.

use std::fmt::Debug;
use std::process::Abort;
use std::sync::Wait;
use std::thread::Threads;
use std::time::Clock;

/// What a test is handed that starts no thread: it gives memory and aborts.
pub trait Host: AllocGlobal + Abort {}

impl<R: AllocGlobal + Abort> Host for R {}

/// What a test is handed: it gives memory, starts threads, waits, tells the time and aborts.
pub trait Machine: AllocGlobal + Abort + Threads + Wait + Clock + Sync {}

impl<R: AllocGlobal + Abort + Threads + Wait + Clock + Sync> Machine for R {}

/// What is compared: it is equal to another or not, and is shown where it isn't.
pub trait Compared: PartialEq + Debug + Drop {}

impl<T: PartialEq + Debug + Drop> Compared for T {}
