//! Calls that take no memory: what they need was made before. Each test says from where to where nothing may grow, and
//! `.ci/refused-growth` counts the growths between. By itself such a test shows that the calls are made.

mod arbiters;
mod books;
mod fronts;
mod halls;
mod streams;
mod texts;

use std::alloc::{AllocError, Global};

// Blocks of these sizes are asked for by no other call. So whoever counts growths knows where to begin and where to end.
const BEGINS: usize = 1_000_003;

const ENDS: usize = 1_000_033;

// Asks for a block of this size, and gives it back.
fn ask_for(alloc: Global, size: usize) {
    let block: Result<Vec<u8>, AllocError> = Vec::with_capacity(alloc, size);
    let _ = block.is_ok();
}

/// From here on nothing grows.
pub fn begins(alloc: Global) {
    ask_for(alloc, BEGINS);
}

/// From here on something may grow again.
pub fn ends(alloc: Global) {
    ask_for(alloc, ENDS);
}
