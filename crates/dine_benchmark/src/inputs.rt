//! The inputs of a workload, one after the other.

use crate::dinners::{Dinners, Form, Habits};
use crate::graph::Shape;
use dine_words::Limits;
use std::alloc::{AllocError, Global};
use tests_kit::Draw;

/// What the command line asks of a workload.
#[derive(Clone, Copy)]
pub struct Asked {
    /// About how many lines, or calls, each input has.
    pub lines: usize,
    /// What the inputs are drawn by.
    pub seed: u64,
}

/// Where a workload's inputs come from: one seed, by which all graphs are drawn, and from which on each input has its own.
#[derive(Drop)]
pub struct Inputs {
    alloc: Global,
    limits: Limits,
    // Draws the graphs.
    draw: Draw,
    // What the tasks of the next input are drawn by.
    seed: u64,
}

impl Inputs {
    /// The inputs of a seed, before the first.
    pub fn new(alloc: Global, limits: Limits, seed: u64) -> Self {
        Inputs {
            alloc,
            limits,
            draw: Draw { state: seed },
            seed,
        }
    }

    /// The next input: dinners over a graph of this shape, opened.
    pub fn open(
        &mut self,
        form: Form,
        shape: Shape,
        habits: Habits,
    ) -> Result<Dinners, AllocError> {
        let seed = self.seed;
        self.seed = seed.wrapping_add(1);
        let graph = shape.graph(self.alloc, &mut self.draw)?;
        Dinners::open(self.alloc, form, habits, self.limits, graph, seed)
    }
}
