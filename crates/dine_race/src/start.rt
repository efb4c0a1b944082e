//! Where the workers of a race begin.

use crate::gate::Gate;
use std::hint::spin_loop;
use std::sync::Wait;
use std::sync::atomic::{AtomicBool, AtomicU64, Ordering};
use std::thread::yield_now;

// So often a worker looks whether all have come before it lets its processor go. That is a millisecond or two.
const LOOKS: u32 = 50_000;

/// The start of a race, and the gate behind it. Each worker waits here, in its own thread, until all have come. A worker
/// that went on at once would have done most of its steps before the thread of the next one runs.
///
/// That workers go on at once then is no contract's.
#[derive(Drop)]
pub(crate) struct Start<'g, G: Gate> {
    gate: &'g G,
    workers: u64,
    come: AtomicU64,
    is_open: AtomicBool,
}

impl<'g, G: Gate> Start<'g, G> {
    /// For so many workers, none of whom has come.
    pub(crate) fn new(gate: &'g G, workers: usize) -> Start<'g, G> {
        Start {
            gate,
            workers: workers as u64,
            come: AtomicU64::new(0),
            is_open: AtomicBool::new(false),
        }
    }

    /// The gate, which is told of each step.
    pub(crate) fn gate(&self) -> &G {
        self.gate
    }

    /// Lets a worker wait until all have come, or until the start is opened. It doesn't sleep: a worker that sleeps is
    /// awake only after the others have made many calls. On a busy machine the same is so of one that lets its processor
    /// go, so it does that seldom.
    pub(crate) fn pass<R: Wait>(&self, rt: &R, worker: u32) {
        self.gate.comes(worker);
        self.come.fetch_add(1, Ordering::SeqCst);
        for _ in rt.forever() {
            for _ in 0..LOOKS {
                if self.lets_by() {
                    return;
                }
                spin_loop();
            }
            yield_now();
        }
    }

    // Whether a worker may go on.
    fn lets_by(&self) -> bool {
        self.come.load(Ordering::SeqCst) >= self.workers || self.is_open.load(Ordering::SeqCst)
    }

    /// Opens it for those who have come and for those who still come, since one of the others never will.
    pub(crate) fn open(&self) {
        self.is_open.store(true, Ordering::SeqCst);
    }
}
