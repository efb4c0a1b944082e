//! A test bench: scripts, their journals, and audits of these.

use crate::commands::LARGEST;
use crate::digest::Digest;
use crate::dinners::Until::Lines;
use crate::dinners::{Habits, MEALS};
use crate::graph::Shape;
use crate::inputs::{Asked, Inputs};
use crate::job::{self, Machine};
use std::alloc::AllocError;

// Tasks that come and go, conflicts that end, questions, and begins that are refused.
const RESTLESS: Habits = Habits {
    leaves: 24,
    separates: 16,
    asks: 32,
    polls: 6,
    withdraws: 24,
    ..MEALS
};

// Meals, and now and then a begin that is refused.
const PATIENT: Habits = Habits { polls: 8, ..MEALS };

/// Runs scripts over graphs of several kinds, once for the replies and once for the journal, and audits the journal.
pub fn run(rt: &impl Machine, asked: Asked, digest: &mut Digest) -> Result<(), AllocError> {
    let lines = asked.lines;
    let more = lines.saturating_add(lines / 2);
    let mut inputs = Inputs::new(rt.alloc(), LARGEST, asked.seed);
    let scripts = [
        (Shape::Ring(64), MEALS, Lines(lines)),
        (Shape::Shared(96, 16, 65_535), PATIENT, Lines(lines)),
        (Shape::Clique(48), PATIENT, Lines(lines)),
        (Shape::Shared(400, 160, 65_535), RESTLESS, Lines(lines)),
        (Shape::Random(4096, 60_000), MEALS, Lines(more)),
    ];
    job::run_scripts(rt, &mut inputs, &scripts, digest)
}
