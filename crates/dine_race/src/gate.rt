//! What stands before a race, and before and after each step of a worker.

/// Is told of each worker that comes to the start, and of each of its steps, in that worker's thread. It holds the worker
/// for as long as it likes: a gate in a test can see to it that steps of two workers overlap.
pub trait Gate {
    /// The worker comes to the start, with no step done. It waits there until all workers have come.
    fn comes(&self, _worker: u32) {}

    /// The worker is about to do a step. Steps count from 0 over all repeats.
    fn before(&self, worker: u32, step: u64);

    /// The worker has done the step.
    fn after(&self, worker: u32, step: u64);
}

/// A gate that holds nobody.
#[derive(Clone, Copy, Debug)]
pub struct NoGate;

impl Gate for NoGate {
    fn before(&self, _worker: u32, _step: u64) {}

    fn after(&self, _worker: u32, _step: u64) {}
}
