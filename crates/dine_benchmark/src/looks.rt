//! Who looks at a run: traces of journals, pictures of windows of them, and graphs of tables.

use crate::commands::{CONFLICTS, JOURNAL, TASKS};
use crate::digest::Digest;
use crate::dinners::{Form, Habits, MEALS, Until};
use crate::graph::Shape;
use crate::inputs::{Asked, Inputs};
use crate::job::{self, Machine};
use dine_words::Limits;
use std::alloc::{AllocError, Global};

// Smaller ones than the largest, as of a run that somebody looks at.
const LIMITS: Limits = Limits {
    tasks: 1024,
    conflicts: 32_768,
};

const TO_JOURNAL: [&str; 7] = [
    "hygienic", "run", JOURNAL, TASKS, "1024", CONFLICTS, "32768",
];

const TRACE: [&str; 3] = ["hygienic", "chart", "--trace"];

const RESTLESS: Habits = Habits {
    leaves: 48,
    separates: 32,
    polls: 8,
    withdraws: 32,
    ..MEALS
};

// So many lines a picture shows.
const WINDOW: usize = 900;

// The runs that are looked at.
const RUNS: [(Shape, Habits); 4] = [
    (Shape::Ring(64), MEALS),
    (Shape::Shared(100, 20, 32_768), RESTLESS),
    (Shape::Clique(40), MEALS),
    (Shape::Shared(800, 100, 32_768), RESTLESS),
];

/// Draws journals over graphs of several kinds.
pub fn run(rt: &impl Machine, asked: Asked, digest: &mut Digest) -> Result<(), AllocError> {
    let mut inputs = Inputs::new(rt.alloc(), LIMITS, asked.seed);
    for (shape, habits) in RUNS.iter() {
        let mut dinners = inputs.open(Form::Script, *shape, *habits)?;
        dinners.go_on(Until::Lines(asked.lines))?;
        look_at(rt, dinners.text.as_slice(), asked.lines, digest)?;
    }
    Ok(())
}

// The journal of a script, as a trace, as pictures of some windows, and the graph after some lines.
fn look_at(
    rt: &impl Machine,
    script: &[u8],
    lines: usize,
    digest: &mut Digest,
) -> Result<(), AllocError> {
    let journal = job::run(rt, &TO_JOURNAL, script, digest);
    let _trace = job::run(rt, &TRACE, journal.as_slice(), digest);
    draw_window(rt, "--svg", lines / 3, journal.as_slice(), digest)?;
    draw_window(rt, "--html", lines / 2, journal.as_slice(), digest)?;
    let last = number(rt.alloc(), lines / 4)?;
    let words = ["hygienic", "chart", "--dot", "--to", last.as_str()];
    let _graph = job::run(rt, &words, journal.as_slice(), digest);
    Ok(())
}

// A picture of a window of a journal.
fn draw_window(
    rt: &impl Machine,
    form: &str,
    from: usize,
    journal: &[u8],
    digest: &mut Digest,
) -> Result<(), AllocError> {
    let first = number(rt.alloc(), from)?;
    let last = number(rt.alloc(), from.saturating_add(WINDOW))?;
    let words = [
        "hygienic",
        "chart",
        form,
        "--from",
        first.as_str(),
        "--to",
        last.as_str(),
    ];
    let _picture = job::run(rt, &words, journal, digest);
    Ok(())
}

// A number as a word of a command line.
fn number(alloc: Global, number: usize) -> Result<String, AllocError> {
    format!(in alloc; "{number}")
}
