//! What a terminal is told of a race: how far it is and, if it stands still, who waits for whom.

use crate::waiting::{SECONDS_STILL, meal_at, waiting_text};
use dine_cli::Gate;
use dine_lines::{Name, Seed};
use dine_scenario::{MAX_WORKERS, Scenario, read_scenario};
use std::alloc::{AllocError, Global};
use std::io::{Stderr, Write};
use std::sync::atomic::{AtomicBool, AtomicU64, Ordering};
use std::sync::{OnceLock, Wait};
use std::thread::Parker;
use std::time::Duration;

// After so many steps of a worker the terminal is told how far it is.
const STEPS_BETWEEN: u64 = 100_000;

/// A gate that holds nobody, and notes where each worker is. It is only for a terminal.
#[derive(Drop)]
pub struct Watch {
    alloc: Global,
    stderr: Stderr,
    seed: Seed,
    text: OnceLock<Vec<u8>>,
    places: Vec<Place>,
    has_ended: AtomicBool,
    sleeper: Parker,
}

// How many steps a worker has begun, and how many it has ended.
#[derive(Drop)]
struct Place {
    begun: AtomicU64,
    ended: AtomicU64,
}

impl Gate for Watch {
    fn before(&self, worker: u32, step: u64) {
        if let Some(place) = self.places.get(worker as usize) {
            place.begun.store(step.wrapping_add(1), Ordering::SeqCst);
        }
    }

    fn after(&self, worker: u32, step: u64) {
        let done = step.wrapping_add(1);
        if let Some(place) = self.places.get(worker as usize) {
            place.ended.store(done, Ordering::SeqCst);
        }
        if done % STEPS_BETWEEN == 0 && !self.has_ended() {
            let mut stderr = &self.stderr;
            // A race goes on whether or not it can be told of.
            let _ = writeln!(stderr, "note: worker {worker}: {done} steps");
        }
    }
}

impl Watch {
    /// Watches a race, whose text it will be shown. The terminal is told by this stream.
    pub fn new(alloc: Global, stderr: Stderr, seed: Seed) -> Result<Watch, AllocError> {
        Ok(Watch {
            alloc,
            stderr,
            seed,
            text: OnceLock::new(),
            places: new_places(alloc)?,
            has_ended: AtomicBool::new(false),
            sleeper: Parker::new(),
        })
    }

    /// Where memory for the text comes from.
    pub fn alloc(&self) -> Global {
        self.alloc
    }

    /// Shows it the text of the race's scenario. It looks at the first that it is shown.
    pub fn show(&self, text: Vec<u8>) {
        let _ = self.text.try_set(text);
    }

    // Whether the race has ended, or nobody watches any more.
    fn has_ended(&self) -> bool {
        self.has_ended.load(Ordering::SeqCst)
    }

    /// The race has ended, or nobody is to be told of it, and so its watch ends.
    pub fn end(&self) {
        self.has_ended.store(true, Ordering::SeqCst);
        self.sleeper.unpark();
    }

    /// Watches the race until it has ended, in a thread of its own. Each time that it comes to stand still the terminal
    /// is told once who waits.
    pub fn watch<R: Wait>(&self, rt: &R) {
        let mut last = self.steps();
        let mut is_told = false;
        for _ in rt.forever() {
            self.sleeper
                .park_timeout(rt, Duration::from_secs(SECONDS_STILL));
            if self.has_ended() {
                return;
            }
            let steps = self.steps();
            if steps != last {
                is_told = false;
            } else if !is_told {
                is_told = true;
                self.tell_who_waits();
            }
            last = steps;
        }
    }

    // How many steps all workers have begun and ended.
    fn steps(&self) -> u64 {
        let mut steps = 0u64;
        for place in &self.places {
            let begun = place.begun.load(Ordering::SeqCst);
            let ended = place.ended.load(Ordering::SeqCst);
            steps = steps.wrapping_add(begun).wrapping_add(ended);
        }
        steps
    }

    // Tells who waits, if the text is that of a scenario.
    fn tell_who_waits(&self) {
        let Some(text) = self.text.get() else {
            return;
        };
        if let Ok(scenario) = read_scenario(self.alloc, text, self.seed) {
            self.tell_who_waits_in(&scenario);
        }
    }

    // Tells which workers wait to eat, and with whom each of these tasks is in conflict.
    fn tell_who_waits_in(&self, scenario: &Scenario) {
        for (number, place) in self.places.iter().enumerate() {
            let begun = place.begun.load(Ordering::SeqCst);
            if begun == place.ended.load(Ordering::SeqCst) {
                continue;
            }
            if let Some(name) = meal_at(scenario, number, begun) {
                // If there is no memory for the words, nothing is said.
                let _ = self.tell_waiting(scenario, number, name);
            }
        }
    }

    // Tells that a worker waits to eat with a task.
    fn tell_waiting(
        &self,
        scenario: &Scenario,
        worker: usize,
        name: Name,
    ) -> Result<(), AllocError> {
        let text = waiting_text(self.alloc, scenario, worker, name)?;
        let mut stderr = &self.stderr;
        let _ = writeln!(stderr, "{text}");
        Ok(())
    }
}

// A place for each worker that there can be. None has begun anything.
fn new_places(alloc: Global) -> Result<Vec<Place>, AllocError> {
    let mut places = Vec::with_capacity(alloc, MAX_WORKERS)?;
    for _ in 0..MAX_WORKERS {
        places.push(Place {
            begun: AtomicU64::new(0),
            ended: AtomicU64::new(0),
        })?;
    }
    Ok(places)
}
