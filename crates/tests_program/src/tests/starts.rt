//! Where workers begin: none before all have come, and then all at once.

use crate::tests::gates::{TWO_FRIENDS, dawdle, gated};
use crate::tests::same::same;
use dine_cli::Print;
use dine_race::Gate;
use std::sync::atomic::{AtomicBool, AtomicU32, Ordering};
use std::thread::{available_parallelism, yield_now};
use tests_kit::Machine;

// Lets each worker but the first come late, one after the other, and notes whether a step is done before the last has come.
// Each step lets others go on first: on a busy machine a worker may else do all its steps before another one has a
// processor.
#[derive(Drop)]
struct LateComers {
    workers: u32,
    come: AtomicU32,
    is_early: AtomicBool,
}

impl Gate for LateComers {
    fn comes(&self, worker: u32) {
        for _ in 0..worker {
            dawdle();
        }
        self.come.fetch_add(1, Ordering::SeqCst);
    }

    fn before(&self, _worker: u32, _step: u64) {
        if self.come.load(Ordering::SeqCst) < self.workers {
            self.is_early.store(true, Ordering::SeqCst);
        }
        yield_now();
    }

    fn after(&self, _worker: u32, _step: u64) {}
}

// How often an entry of the journal is of another worker than the one before it. The number of a worker is one digit, at the
// front of the line. The first line is the header.
fn changes_in(journal: &[u8]) -> usize {
    let mut changes = 0usize;
    let mut last = b'0';
    let mut is_front = false;
    for byte in journal {
        if is_front && *byte != last {
            changes = changes.saturating_add(1);
            last = *byte;
        }
        is_front = *byte == b'\n';
    }
    changes
}

// A race of late comers. No step is early, and it says how often the worker changes.
fn changes_of(rt: &impl Machine, workers: u32, scenario: &[u8]) -> usize {
    let gate = LateComers {
        workers,
        come: AtomicU32::new(0),
        is_early: AtomicBool::new(false),
    };
    let journal = gated(rt, scenario, &gate, Print::Journal);
    same(rt, gate.is_early.load(Ordering::SeqCst), false);
    changes_in(&journal)
}

// So often it is tried: with other programs on the processors the workers may still come one after the other.
const TRIES: usize = 100;

// So often the worker changes in some race.
const CHANGES: usize = 20;

// With one processor it may not. Workers that went on at once would come one after the other.
fn check_changes(rt: &impl Machine, workers: u32, scenario: &[u8]) {
    let is_alone = available_parallelism(rt).is_ok_and(|count| count.get() == 1);
    let tries = if is_alone { 1 } else { TRIES };
    let mut most = 0;
    for _ in 0..tries {
        most = most.max(changes_of(rt, workers, scenario));
        if most >= CHANGES {
            return;
        }
    }
    same(rt, (is_alone, most), (true, most));
}

#[test]
fn two_friends_eat_by_turns(rt: HostRuntime) {
    check_changes(&rt, 2, TWO_FRIENDS);
}

// Each of four round a table eats twenty times.
const RING: &[u8] = b"setup = ['join a', 'join b', 'join c', 'join d', \
'conflict a b', 'conflict b c', 'conflict c d', 'conflict d a']
worker = [{ repeat = 20, steps = ['eat a'] }, { repeat = 20, steps = ['eat b'] }, \
{ repeat = 20, steps = ['eat c'] }, { repeat = 20, steps = ['eat d'] }]
";

#[test]
fn a_ring_eats_side_by_side(rt: HostRuntime) {
    check_changes(&rt, 4, RING);
}
