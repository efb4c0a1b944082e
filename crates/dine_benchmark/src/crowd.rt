//! Awkward inputs: a few tasks in conflict with all others, everybody hungry, many who wait for others, lines with faults and
//! many names.

use crate::commands::{LARGEST, SERVE};
use crate::digest::Digest;
use crate::dinners::Until::More;
use crate::dinners::{Form, HUNGRY, Habits, MEALS};
use crate::graph::Shape;
use crate::inputs::{Asked, Inputs};
use crate::job::{self, Machine};
use std::alloc::AllocError;

// Everybody is hungry nearly always, and somebody asks who is next.
const HUNGRY_AND_ASKING: Habits = Habits { asks: 40, ..HUNGRY };

// Every other line has a fault or is a remark, and tasks come and go.
const ERRING: Habits = Habits {
    leaves: 6,
    asks: 40,
    errs: 2,
    polls: 2,
    ..MEALS
};

/// Runs, serves and audits what is awkward.
pub fn run(rt: &impl Machine, asked: Asked, digest: &mut Digest) -> Result<(), AllocError> {
    let quarter = asked.lines / 4;
    let double = asked.lines.saturating_mul(2);
    let mut inputs = Inputs::new(rt.alloc(), LARGEST, asked.seed);
    let scripts = [
        (Shape::Star(4000, 2), HUNGRY_AND_ASKING, More(quarter)),
        (
            Shape::Shared(3000, 300, 60_000),
            HUNGRY_AND_ASKING,
            More(quarter),
        ),
        (Shape::Random(200, 150), ERRING, More(double)),
    ];
    job::run_scripts(rt, &mut inputs, &scripts, digest)?;
    // All clients want to eat before the first has eaten, so that most of them wait for others than the one who finishes.
    let waiting = Shape::Shared(2000, 250, 60_000);
    let mut clients = inputs.open(Form::Requests, waiting, HUNGRY_AND_ASKING)?;
    clients.all_grow_hungry()?;
    clients.go_on(More(quarter))?;
    job::serve(rt, &SERVE, clients.text.as_slice(), digest)
}
