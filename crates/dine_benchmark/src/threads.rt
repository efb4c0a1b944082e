//! Threads at one front: races, whose reports don't depend on who is when.

use crate::digest::Digest;
use crate::inputs::Asked;
use crate::job::{self, Machine};
use std::alloc::{AllocError, Global};
use tests_kit::Draw;

const RACE: [&str; 2] = ["hygienic", "race"];

/// Races of workers in a ring, in a clique, and with hardly any conflict.
pub fn run(rt: &impl Machine, asked: Asked, digest: &mut Digest) -> Result<(), AllocError> {
    let meals = asked.lines;
    let mut draw = Draw { state: asked.seed };
    let ring = ring(rt.alloc(), 4, meals.saturating_add(draw.below(64)))?;
    let _report = job::run(rt, &RACE, ring.as_bytes(), digest);
    let clique = clique(rt.alloc(), 4, (meals / 4).saturating_add(draw.below(64)))?;
    let _report = job::run(rt, &RACE, clique.as_bytes(), digest);
    let apart = apart(rt.alloc(), 8, meals.saturating_add(draw.below(64)))?;
    let _report = job::run(rt, &RACE, apart.as_bytes(), digest);
    Ok(())
}

// The setup's first lines: so many tasks join.
fn joins(alloc: Global, workers: usize) -> Result<String, AllocError> {
    let mut text = String::from_str(alloc, "setup = [")?;
    for worker in 0..workers {
        let line = format!(in alloc; "\"join t{worker}\", ")?;
        text.push_str(line.as_str())?;
    }
    Ok(text)
}

// Ends the setup, and adds the workers: each eats so often, and looks at its task before each meal where they look.
fn add_workers(
    alloc: Global,
    text: &mut String,
    workers: usize,
    meals: usize,
    they_look: bool,
) -> Result<(), AllocError> {
    text.push_str("]\n")?;
    for worker in 0..workers {
        let look = if they_look {
            format!(in alloc; "\"look t{worker}\", ")?
        } else {
            String::new(alloc)
        };
        let look = look.as_str();
        let table = format!(in alloc;
            "[[worker]]\nrepeat = {meals}\nsteps = [{look}\"eat t{worker}\"]\n"
        )?;
        text.push_str(table.as_str())?;
    }
    Ok(())
}

// A conflict of the tasks of two workers.
fn add_conflict(
    alloc: Global,
    text: &mut String,
    first: usize,
    second: usize,
) -> Result<(), AllocError> {
    let line = format!(in alloc; "\"conflict t{first} t{second}\", ")?;
    text.push_str(line.as_str())
}

// Workers in a ring.
fn ring(alloc: Global, workers: usize, meals: usize) -> Result<String, AllocError> {
    let mut text = joins(alloc, workers)?;
    for worker in 1..workers {
        add_conflict(alloc, &mut text, worker - 1, worker)?;
    }
    add_conflict(alloc, &mut text, workers.saturating_sub(1), 0)?;
    add_workers(alloc, &mut text, workers, meals, false)?;
    Ok(text)
}

// Workers of whom one eats at a time.
fn clique(alloc: Global, workers: usize, meals: usize) -> Result<String, AllocError> {
    let mut text = joins(alloc, workers)?;
    for second in 0..workers {
        for first in 0..second {
            add_conflict(alloc, &mut text, first, second)?;
        }
    }
    add_workers(alloc, &mut text, workers, meals, false)?;
    Ok(text)
}

// Workers who look, of whom the first two alone are in conflict.
fn apart(alloc: Global, workers: usize, meals: usize) -> Result<String, AllocError> {
    let mut text = joins(alloc, workers)?;
    add_conflict(alloc, &mut text, 0, 1)?;
    add_workers(alloc, &mut text, workers, meals, true)?;
    Ok(text)
}
