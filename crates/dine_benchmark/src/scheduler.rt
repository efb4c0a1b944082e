//! A scheduler in its own process: ticks over an arbiter.

use crate::commands::LARGEST;
use crate::digest::Digest;
use crate::graph::Graph;
use crate::inputs::Asked;
use dine_arbiter::Arbiter;
use dine_words::{Call, Refusal, Reply, State, Task};
use std::alloc::{AllocError, Global};
use tests_kit::Draw;

// A scheduler's tasks, by place.
#[derive(Drop)]
struct Scheduler {
    arbiter: Arbiter,
    graph: Graph,
    tasks: Vec<Task>,
    running: Vec<Task>,
    draw: Draw,
    // How many calls were made.
    calls: usize,
}

/// Ticks of schedulers of several sizes, some of whose tasks come and go.
pub fn run(alloc: Global, asked: Asked, digest: &mut Digest) -> Result<(), AllocError> {
    let Asked { lines: calls, seed } = asked;
    let mut draw = Draw { state: seed };
    let small = Graph::shared(alloc, &mut draw, 64, 8, 2, 65_535)?;
    schedule(alloc, small, 4, calls, seed, digest)?;
    let medium = Graph::shared(alloc, &mut draw, 400, 80, 2, 65_535)?;
    schedule(alloc, medium, 16, calls, seed.wrapping_add(1), digest)?;
    let clique = Graph::clique(alloc, 64)?;
    schedule(alloc, clique, 1, calls, seed.wrapping_add(2), digest)?;
    let large = Graph::shared(alloc, &mut draw, 2000, 200, 2, 65_535)?;
    schedule(alloc, large, 48, calls / 2, seed.wrapping_add(3), digest)
}

// A scheduler goes on until so many calls were made. So many tasks wake before each tick.
fn schedule(
    alloc: Global,
    graph: Graph,
    wakes: usize,
    calls: usize,
    seed: u64,
    digest: &mut Digest,
) -> Result<(), AllocError> {
    let mut scheduler = Scheduler::open(alloc, graph, seed, digest)?;
    for _ in 0..calls {
        if calls <= scheduler.calls {
            break;
        }
        scheduler.turn(wakes, digest)?;
    }
    digest.take(0, b"");
    Ok(())
}

impl Scheduler {
    // All tasks join, and their conflicts are declared.
    fn open(
        alloc: Global,
        graph: Graph,
        seed: u64,
        digest: &mut Digest,
    ) -> Result<Self, AllocError> {
        let mut scheduler = Scheduler {
            arbiter: Arbiter::new(alloc, LARGEST)?,
            graph,
            tasks: Vec::new(alloc),
            running: Vec::new(alloc),
            draw: Draw { state: seed },
            calls: 0,
        };
        for _ in 0..scheduler.graph.neighbours.len() {
            let task = scheduler.join(digest);
            scheduler.tasks.push(task)?;
        }
        for at in 0..scheduler.graph.pairs.len() {
            if let Some((first, second)) = scheduler.graph.pairs.get(at).copied() {
                scheduler.declare(first, second, digest);
            }
        }
        Ok(scheduler)
    }

    // Makes a call, and takes the reply into the digest.
    #[inline]
    fn call(&mut self, call: Call, digest: &mut Digest) -> Reply {
        self.calls = self.calls.wrapping_add(1);
        let reply = if self.arbiter.clock() < u64::MAX {
            self.arbiter.apply(call)
        } else {
            Reply::Refused(Refusal::Full)
        };
        digest.take_number(match reply {
            Reply::Done => 1,
            Reply::Joined(task) => task.born.wrapping_add(u64::from(task.slot) << 40),
            Reply::Refused(refusal) => 2u64.wrapping_add(u64::from(refusal.number())),
        });
        reply
    }

    // A task joins.
    fn join(&mut self, digest: &mut Digest) -> Task {
        match self.call(Call::Join, digest) {
            Reply::Joined(task) => task,
            Reply::Done | Reply::Refused(_) => Task { slot: 0, born: 0 },
        }
    }

    // The tasks at two places are in conflict from now on.
    fn declare(&mut self, first: u32, second: u32, digest: &mut Digest) {
        let one = self.tasks.get(first as usize).copied();
        let two = self.tasks.get(second as usize).copied();
        if let (Some(one), Some(two)) = (one, two) {
            let _ = self.call(Call::Conflict(one, two), digest);
        }
    }

    // Some tasks wake, all that may run are started, and about half of those that run end.
    fn turn(&mut self, wakes: usize, digest: &mut Digest) -> Result<(), AllocError> {
        for _ in 0..wakes {
            let at = self.draw.below(self.tasks.len());
            if let Some(task) = self.tasks.get(at).copied()
                && self.arbiter.state(task) == Some(State::Thinking)
            {
                let _ = self.call(Call::Hungry(task), digest);
            }
        }
        for _ in 0..self.tasks.len() {
            let Some(task) = self.arbiter.next_ready() else {
                break;
            };
            digest.take_number(u64::from(task.slot));
            let _ = self.call(Call::Begin(task), digest);
            self.running.push(task)?;
        }
        for _ in 0..self.running.len().div_ceil(2) {
            let at = self.draw.below(self.running.len());
            if at < self.running.len() {
                let task = self.running.swap_remove(at);
                let _ = self.call(Call::Finish(task), digest);
            }
        }
        if self.draw.below(64) == 0 {
            self.change_task(digest);
        }
        Ok(())
    }

    // A task that thinks leaves, and another takes its place, with the same conflicts.
    fn change_task(&mut self, digest: &mut Digest) {
        let at = self.draw.below(self.tasks.len());
        let Some(task) = self.tasks.get(at).copied() else {
            return;
        };
        if self.arbiter.state(task) != Some(State::Thinking) {
            return;
        }
        let _ = self.call(Call::Leave(task), digest);
        let newcomer = self.join(digest);
        if let Some(found) = self.tasks.get_mut(at) {
            *found = newcomer;
        }
        let count = match self.graph.neighbours.get(at) {
            Some(found) => found.len(),
            None => 0,
        };
        for place in 0..count {
            if let Some(other) = self.neighbour(at, place) {
                self.declare((at & 0xffff) as u32, other, digest);
            }
        }
    }

    // The neighbour of a place that stands there among them.
    fn neighbour(&self, at: usize, place: usize) -> Option<u32> {
        self.graph.neighbours.get(at)?.get(place).copied()
    }
}
