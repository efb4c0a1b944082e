//! What a gate hears of a race, and workers that it holds.

use crate::tests::same::{same, same_in};
use dine_cli::{Ended, Print, Seed, Silence, run_race};
use dine_race::Gate;
use dine_words::Marked;
use std::hint::spin_loop;
use std::sync::atomic::{AtomicBool, AtomicU64, Ordering};
use std::thread::yield_now;
use tests_kit::Machine;

/// Two in conflict, each of whom eats a hundred times.
pub const TWO_FRIENDS: &[u8] = b"setup = ['join a', 'join b', 'conflict a b']
[[worker]]
repeat = 100
steps = ['eat a']
[[worker]]
repeat = 100
steps = ['eat b']
";

/// Runs a race past a gate. It ends well, and what it writes comes back.
pub fn gated<G: Gate + Sync>(
    rt: &impl Machine,
    scenario: &[u8],
    gate: &G,
    print: Print,
) -> Vec<u8> {
    let (mut reader, mut writer) = (Marked::new(scenario), Marked::new(Vec::new(rt.alloc())));
    let ended = run_race(
        rt,
        rt.alloc(),
        &mut reader,
        &mut writer,
        gate,
        print,
        Seed::fixed(),
        &mut Silence,
    );
    same(rt, ended, Ok(Ended::Good));
    writer.into_inner()
}

// Some milliseconds.
const SPINS: u32 = 100_000;

const MOST_TURNS: u32 = 10_000_000;

/// Gives other threads time to go on, if nothing holds them. It doesn't yield: on a busy machine each time costs what
/// another program likes.
pub fn dawdle() {
    for _ in 0..SPINS {
        spin_loop();
    }
}

// Waits until it is so. Only a fault takes so long that it isn't.
fn awaits(is_so: &AtomicBool) -> bool {
    for _ in 0..MOST_TURNS {
        if is_so.load(Ordering::SeqCst) {
            return true;
        }
        yield_now();
    }
    false
}

// ---- workers overlap

// Holds each of two workers until the other has come as far: as it comes, or in its first step. It notes where that takes
// too long.
#[derive(Drop)]
struct BothAtOnce {
    as_they_come: bool,
    are_there: [AtomicBool; 2],
    took_too_long: AtomicBool,
}

impl BothAtOnce {
    fn holds(&self, worker: u32) {
        let (own, other) = if worker == 0 { (0, 1) } else { (1, 0) };
        self.are_there[own].store(true, Ordering::SeqCst);
        if !awaits(&self.are_there[other]) {
            self.took_too_long.store(true, Ordering::SeqCst);
        }
    }
}

impl Gate for BothAtOnce {
    fn comes(&self, worker: u32) {
        if self.as_they_come {
            self.holds(worker);
        }
    }

    fn before(&self, worker: u32, step: u64) {
        if !self.as_they_come && step == 0 {
            self.holds(worker);
        }
    }

    fn after(&self, _worker: u32, _step: u64) {}
}

// Workers are in each other's way nowhere: one that is held keeps no other from coming as far.
#[test]
fn workers_overlap(rt: HostRuntime) {
    for as_they_come in [true, false] {
        let gate = BothAtOnce {
            as_they_come,
            are_there: [AtomicBool::new(false), AtomicBool::new(false)],
            took_too_long: AtomicBool::new(false),
        };
        let report = gated(&rt, TWO_FRIENDS, &gate, Print::Replies);
        let wanted = b"workers 2\ncalls 603\nmeals a 100\nmeals b 100\nsettled\n";
        same(&rt, report.as_slice(), wanted.as_slice());
        assert!(&rt; !gate.took_too_long.load(Ordering::SeqCst));
    }
}

// ---- what is heard

// Hears of one worker that it comes, and then of each step, before it and after it: these have the numbers from 0 on. It counts
// what it hears, and what of it is out of order or of another worker's steps.
#[derive(Drop)]
struct Ear {
    worker: u32,
    heard: AtomicU64,
    wrong: AtomicU64,
}

impl Ear {
    fn hears(&self, worker: u32, number: u64) {
        let place = self.heard.fetch_add(1, Ordering::SeqCst);
        if worker != self.worker || number != place {
            self.wrong.fetch_add(1, Ordering::SeqCst);
        }
    }
}

impl Gate for Ear {
    fn comes(&self, worker: u32) {
        if worker == self.worker {
            self.hears(worker, 0);
        }
    }

    fn before(&self, worker: u32, step: u64) {
        self.hears(worker, step.saturating_mul(2).saturating_add(1));
    }

    fn after(&self, worker: u32, step: u64) {
        self.hears(worker, step.saturating_mul(2).saturating_add(2));
    }
}

// What a row shows, a scenario of which one worker has six steps and the others none, that worker, and the report.
type Heard = (&'static str, &'static [u8], u32, &'static [u8]);

const HEARD: [Heard; 4] = [
    (
        "one worker",
        b"setup = ['join a']\n[[worker]]\nrepeat = 3\nsteps = ['eat a', 'look a']\n",
        0,
        b"workers 1\ncalls 10\nmeals a 3\nsettled\n",
    ),
    (
        "the second worker",
        b"setup = ['join a']\n[[worker]]\nsteps = []\n\
        [[worker]]\nrepeat = 3\nsteps = ['eat a', 'look a']\n",
        1,
        b"workers 2\ncalls 10\nmeals a 3\nsettled\n",
    ),
    (
        "a worker that joins, which does its steps by another function",
        b"[[worker]]\nsteps = []\n[[worker]]\nsteps = []\n\
        [[worker]]\nrepeat = 2\nsteps = ['join x', 'eat x', 'leave x']\n",
        2,
        b"workers 3\ncalls 10\nsettled\n",
    ),
    (
        "a step by a name that was never bound, which does nothing",
        b"tasks = 1\nsetup = ['join a', 'join b']\n\
        [[worker]]\nrepeat = 3\nsteps = ['eat b', 'eat a']\n",
        0,
        b"workers 1\ncalls 11\nmeals a 3\nsettled\n",
    ),
];

fn check_heard(rt: &impl Machine, heard: &Heard) {
    let (name, scenario, worker, report) = *heard;
    let gate = Ear {
        worker,
        heard: AtomicU64::new(0),
        wrong: AtomicU64::new(0),
    };
    let written = gated(rt, scenario, &gate, Print::Replies);
    same_in(rt, name, written.as_slice(), report);
    let (heard, wrong) = (
        gate.heard.load(Ordering::SeqCst),
        gate.wrong.load(Ordering::SeqCst),
    );
    same_in(rt, name, (heard, wrong), (13, 0));
}

// A gate is told of each worker that comes, and of each step, before it and after it. Steps count over all repeats, and a
// step that makes no call counts.
#[test]
fn a_gate_is_told_of_each_step(rt: HostRuntime) {
    for heard in &HEARD {
        check_heard(&rt, heard);
    }
}

// ---- workers that are held

// Two workers in conflict, each of whom joins a task in the second scenario. The first one's meal is three steps of its own,
// of which the last has this number, and the other's is its first step. The journal is that of a second worker that begins
// after the first one's meal.
type Rivals = (&'static [u8], u64, &'static str);

const RIVALS: [Rivals; 2] = [
    (
        b"setup = ['join a', 'join b', 'conflict a b']\n\
        [[worker]]\nsteps = ['hungry a', 'begin a', 'finish a']\n[[worker]]\nsteps = ['eat b']\n",
        2,
        "dine 2 64 256\n0 join -> joined 0.0\n0 join -> joined 1.1\n0 conflict 0.0 1.1 -> done\n\
        0 hungry 0.0 -> done\n0 begin 0.0 -> done\n0 finish 0.0 -> done\n1 hungry 1.1 -> done\n\
        1 begin 1.1 -> done\n1 finish 1.1 -> done\n",
    ),
    (
        b"setup = ['join a', 'join b', 'conflict a b']\n\
        [[worker]]\nsteps = ['join c', 'hungry a', 'begin a', 'finish a']\n\
        [[worker]]\nsteps = ['eat b', 'join d']\n",
        3,
        "dine 2 64 256\n0 join -> joined 0.0\n0 join -> joined 1.1\n0 conflict 0.0 1.1 -> done\n\
        0 join -> joined 2.2\n0 hungry 0.0 -> done\n0 begin 0.0 -> done\n0 finish 0.0 -> done\n\
        1 hungry 1.1 -> done\n1 begin 1.1 -> done\n1 finish 1.1 -> done\n1 join -> joined 3.5\n",
    ),
];

// Lets the second worker begin its step once the first one's meal has ended, or once it has begun; then the end of the meal
// is held until the step has begun.
#[derive(Drop)]
struct AtTheMeal {
    is_behind: bool,
    finish: u64,
    may_begin: AtomicBool,
    has_begun: AtomicBool,
    has_ended: AtomicBool,
    // Whether the step had begun before the meal ended, and whether it had ended.
    begins_in_time: AtomicBool,
    ends_in_time: AtomicBool,
}

impl AtTheMeal {
    fn new(is_behind: bool, finish: u64) -> Self {
        AtTheMeal {
            is_behind,
            finish,
            may_begin: AtomicBool::new(false),
            has_begun: AtomicBool::new(false),
            has_ended: AtomicBool::new(false),
            begins_in_time: AtomicBool::new(false),
            ends_in_time: AtomicBool::new(false),
        }
    }
}

impl Gate for AtTheMeal {
    fn before(&self, worker: u32, step: u64) {
        if worker == 1 && step == 0 {
            awaits(&self.may_begin);
            self.has_begun.store(true, Ordering::SeqCst);
        } else if worker == 0 && step == self.finish {
            if !self.is_behind {
                let begins = awaits(&self.has_begun);
                self.begins_in_time.store(begins, Ordering::SeqCst);
            }
            dawdle();
            let ends = self.has_ended.load(Ordering::SeqCst);
            self.ends_in_time.store(ends, Ordering::SeqCst);
        }
    }

    fn after(&self, worker: u32, step: u64) {
        let first = if self.is_behind {
            self.finish
        } else {
            self.finish.saturating_sub(1)
        };
        if worker == 1 && step == 0 {
            self.has_ended.store(true, Ordering::SeqCst);
        } else if worker == 0 && step == first {
            self.may_begin.store(true, Ordering::SeqCst);
            dawdle();
        }
    }
}

// A step is done behind the call before it and ahead of the call after it, as the journal shows.
#[test]
fn a_held_step_makes_no_call(rt: HostRuntime) {
    for (scenario, finish, wanted) in &RIVALS {
        let gate = AtTheMeal::new(true, *finish);
        let journal = gated(&rt, scenario, &gate, Print::Journal);
        same(&rt, journal.as_slice(), wanted.as_bytes());
    }
}

// A step that waits for a meal has begun before the meal ends, and has not ended.
#[test]
fn a_step_that_waits_is_told_as_begun(rt: HostRuntime) {
    for (scenario, finish, _) in &RIVALS {
        let gate = AtTheMeal::new(false, *finish);
        gated(&rt, scenario, &gate, Print::Replies);
        let begins = gate.begins_in_time.load(Ordering::SeqCst);
        let ends = gate.ends_in_time.load(Ordering::SeqCst);
        same(&rt, (begins, ends), (true, false));
    }
}
