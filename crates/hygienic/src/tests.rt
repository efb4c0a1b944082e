//! What a terminal is told of a race that stands still, and how its scenario is read for it.

use crate::scenario_text::Kept;
use crate::waiting::{meal_at, waiting_text};
use crate::watch::Watch;
use dine_lines::{Name, Seed};
use dine_scenario::{Scenario, read_scenario};
use std::io::{self, Error, ErrorKind, Read};
use std::process::Abort;

// The setup of c's conflicts is taken back in part, by either order of the names, and made again.
const SCENARIO: &[u8] = b"
setup = [
    'join a', 'join b', 'join c',
    'conflict a b', 'conflict c a', 'conflict b c',
    'separate a c', 'separate c b', 'conflict c b', 'hungry b', 'begin b',
]
[[worker]]
repeat = 2
steps = ['look a', 'eat a']
[[worker]]
steps = ['eat c', 'hungry a']
";

fn scenario<R: AllocGlobal + Abort>(rt: &R) -> Scenario {
    let scenario = read_scenario(rt.alloc(), SCENARIO, Seed::fixed());
    scenario.ok().expect(rt, "a scenario")
}

// A worker, how many steps it has begun, and the letters of whoever is to eat in the last of them.
type Meal = (usize, u64, Option<&'static [u8]>);

const MEALS: [Meal; 9] = [
    (0, 0, None),
    (0, 1, None),
    (0, 2, Some(b"a")),
    (0, 3, None),
    (0, 4, Some(b"a")),
    (1, 0, None),
    (1, 1, Some(b"c")),
    (1, 2, None),
    (2, 1, None),
];

fn check_meal<R: AllocGlobal + Abort>(rt: &R, scenario: &Scenario, row: &Meal) {
    let (worker, begun, letters) = *row;
    let found = meal_at(scenario, worker, begun);
    let is_right = match (&found, letters) {
        (Some(name), Some(letters)) => name.letters() == letters,
        (None, None) => true,
        _ => false,
    };
    assert!(rt; is_right, "worker {worker}, {begun} steps");
}

#[test]
fn the_step_that_was_begun_last_is_the_meal(rt: HostRuntime) {
    let scenario = scenario(&rt);
    for row in &MEALS {
        check_meal(&rt, &scenario, row);
    }
}

// What is told of a worker that has begun so many steps.
type Told = (usize, u64, &'static str);

const TOLD: [Told; 2] = [
    (
        0,
        2,
        "note: no step has ended for 5 seconds: worker 0 waits to eat with a, in conflict with b",
    ),
    (
        1,
        1,
        "note: no step has ended for 5 seconds: worker 1 waits to eat with c, in conflict with b",
    ),
];

fn name_at<R: AllocGlobal + Abort>(rt: &R, scenario: &Scenario, worker: usize, begun: u64) -> Name {
    meal_at(scenario, worker, begun).expect(rt, "a meal")
}

fn check_told<R: AllocGlobal + Abort>(rt: &R, scenario: &Scenario, row: &Told) {
    let (worker, begun, told) = *row;
    let name = name_at(rt, scenario, worker, begun);
    let text = waiting_text(rt.alloc(), scenario, worker, name);
    let text = text.ok().expect(rt, "memory");
    assert!(rt; text.as_str() == told, "{text}");
}

#[test]
fn a_conflict_that_has_ended_keeps_nobody_waiting(rt: HostRuntime) {
    let scenario = scenario(&rt);
    for row in &TOLD {
        check_told(&rt, &scenario, row);
    }
}

// A reader that fails at its second call and at its fourth, in this way. Each other call gives a byte, or nothing from the
// seventh on.
#[derive(Drop)]
struct FailsTwice {
    kind: ErrorKind,
    calls: u32,
}

impl Read for FailsTwice {
    fn read(&mut self, buffer: &mut [u8]) -> io::Result<usize> {
        self.calls = self.calls.saturating_add(1);
        match self.calls {
            2 | 4 => Err(Error::from(self.kind)),
            1 | 3 | 5 | 6 => Ok(buffer.len().min(1)),
            _ => Ok(0),
        }
    }
}

// What the calls of that reader answer.
const ANSWERS: [Option<usize>; 8] = [
    Some(1),
    None,
    Some(1),
    None,
    Some(1),
    Some(1),
    Some(0),
    Some(0),
];

const KINDS: [ErrorKind; 4] = [
    ErrorKind::Interrupted,
    ErrorKind::WouldBlock,
    ErrorKind::IsADirectory,
    ErrorKind::Other,
];

fn check_kept<R: Abort>(rt: &R, kind: ErrorKind, watch: Option<&Watch>) {
    let mut reader = Kept::new(FailsTwice { kind, calls: 0 }, watch);
    let mut room = [0; 16];
    for answer in ANSWERS {
        let found = reader.read(&mut room);
        let is_right = match (&found, answer) {
            (Ok(count), Some(wanted)) => *count == wanted,
            (Err(error), None) => error.kind() == kind,
            _ => false,
        };
        assert!(rt; is_right, "{kind}");
    }
}

// A read is one read of what is within, whoever watches: none is tried again, and no failure is made up.
#[test]
fn a_text_that_is_kept_is_read_as_it_comes(rt: HostRuntime) {
    let watch = Watch::new(rt.alloc(), rt.stderr(), Seed::fixed());
    let watch = watch.ok().expect(&rt, "memory");
    for kind in KINDS {
        check_kept(&rt, kind, None);
        check_kept(&rt, kind, Some(&watch));
    }
}
