//! Calls of sixteen threads have their places in the order in which they were made, by the clock, and a look tells no less
//! than each call that had ended before it.

use crate::tests::same::same;
use crate::tests::visit::{Visit, from, visit_a_front};
use dine_front::{Front, Naming, Pass, Verdict};
use dine_journal::Journal;
use dine_words::{Call, Entry, Reply, State, Task};
use std::sync::Barrier;
use std::thread::{map_vec, yield_now};
use std::time::Instant;
use tests_kit::{A, B, C, D, Draw, E, Machine, RING};

const THREADS: u32 = 16;

// How many calls each thread makes, and how many looks behind each.
const ROUNDS: u32 = 100;

const LOOKS_OF_A_ROUND: u32 = 6;

// The clock before and after.
type Span = (u64, u64);

// The call and the reply of an entry, with the clock around the call.
type Made = (Call, Reply, Span);

// What a look told of a task, with the clock around it.
type Told = (Task, Option<State>, Span);

// No entry is before one whose call had ended when its own began.
fn is_in_order(made: &[Made]) -> bool {
    let mut ended = u64::MAX;
    for (_, _, span) in made.iter().rev() {
        if ended < span.0 {
            return false;
        }
        ended = ended.min(span.1);
    }
    true
}

// The state in which a call leaves the task, if it changes it.
fn left_by(call: Call, reply: Reply, task: Task) -> Option<State> {
    let (named, state) = match (call, reply) {
        (Call::Join, Reply::Joined(joined)) => (joined, State::Thinking),
        (Call::Hungry(named), Reply::Done) => (named, State::Hungry),
        (Call::Begin(named), Reply::Done) => (named, State::Eating),
        (Call::Finish(named) | Call::Withdraw(named), Reply::Done) => (named, State::Thinking),
        _ => return None,
    };
    if named == task { Some(state) } else { None }
}

// The look told the state behind some entry: none before one whose call had ended when the look began, and none whose call
// began when it had ended.
fn is_told(made: &[Made], told: &Told) -> bool {
    let (task, seen, (before, after)) = *told;
    let mut state = None;
    let mut is_told = seen.is_none();
    for (call, reply, span) in made {
        if after < span.0 {
            break;
        }
        if let Some(left) = left_by(*call, *reply, task) {
            state = Some(left);
        }
        is_told = state == seen || (is_told && before <= span.1);
    }
    is_told
}

// ---- sixteen threads

const TASKS: [Task; 5] = [A, B, C, D, E];

// The clock, in nanoseconds.
fn now(rt: &impl Machine, begun: Instant) -> u64 {
    let passed = begun.elapsed(rt).ok().expect(rt, "there is a clock");
    u64::try_from(passed.as_nanos()).unwrap_or(u64::MAX)
}

// The places of a thread's calls, and its looks.
#[derive(Drop)]
struct Notes {
    begun: Instant,
    calls: Vec<(u64, Span)>,
    looks: Vec<Told>,
}

fn calls<J: Naming>(
    rt: &impl Machine,
    front: &Front<J>,
    pass: &mut Pass<J>,
    notes: &mut Notes,
    call: Call,
) {
    let before = now(rt, notes.begun);
    let made = front.act(rt, pass, call);
    let span = (before, now(rt, notes.begun));
    let place = made.ok().expect(rt, "memory").place;
    notes.calls.push((place, span)).expect(rt, "memory");
}

fn looks<J: Naming>(rt: &impl Machine, pass: &mut Pass<J>, notes: &mut Notes, task: Task) {
    let before = now(rt, notes.begun);
    let seen = pass.look(task);
    let span = (before, now(rt, notes.begun));
    let state = seen.ok().expect(rt, "the front is open");
    notes.looks.push((task, state, span)).expect(rt, "memory");
}

fn drawn_task(draw: &mut Draw) -> Task {
    *TASKS.get(draw.below(TASKS.len())).unwrap_or(&A)
}

fn drawn_call(draw: &mut Draw) -> Call {
    let task = drawn_task(draw);
    match draw.below(4) {
        0 => Call::Hungry(task),
        1 => Call::Begin(task),
        2 => Call::Finish(task),
        _ => Call::Withdraw(task),
    }
}

// A thread calls and looks by turns, once all threads are there. It lets others go first before each look. The first lays
// the table.
fn takes_part<J: Naming>(
    rt: &impl Machine,
    front: &Front<J>,
    mut pass: Pass<J>,
    begun: Instant,
    meeting: &Barrier,
) -> (Pass<J>, Notes) {
    let (made, told) = (Vec::new(rt.alloc()), Vec::new(rt.alloc()));
    let mut notes = Notes {
        begun,
        calls: made,
        looks: told,
    };
    let mut draw = Draw {
        state: u64::from(pass.number()),
    };
    if draw.state == 0 {
        for text in RING.split("; ") {
            let entry = Entry::read(text).expect(rt, "an entry");
            calls(rt, front, &mut pass, &mut notes, entry.call);
        }
    }
    meeting.wait(rt);
    for _ in 0..ROUNDS {
        calls(rt, front, &mut pass, &mut notes, drawn_call(&mut draw));
        for _ in 0..LOOKS_OF_A_ROUND {
            yield_now();
            looks(rt, &mut pass, &mut notes, drawn_task(&mut draw));
        }
    }
    (pass, notes)
}

// The entries in their order, each with the clock around the call that was answered its place.
fn beside_the_clock(
    rt: &impl Machine,
    journal: &Journal,
    mut calls: Vec<(u64, Span)>,
) -> Vec<Made> {
    same(rt, calls.len() as u64, journal.len());
    calls.sort_unstable();
    let mut made = Vec::new(rt.alloc());
    for (place, span) in calls {
        same(rt, place, made.len() as u64);
        let entry = journal.entry(place).expect(rt, "there is an entry");
        let noted = (entry.call, entry.reply, span);
        made.push(noted).expect(rt, "memory");
    }
    made
}

// A thread for each pass. All of it is in order then, but isn't with two entries of the first thread swapped.
pub(crate) fn keeps_order<J: Naming + Send + Sync>(
    rt: &impl Machine,
    front: Front<J>,
    passes: Vec<Pass<J>>,
) {
    let begun = Instant::now(rt).ok().expect(rt, "there is a clock");
    let meeting = Barrier::new(passes.len());
    let (shared, together) = (&front, &meeting);
    let parts = map_vec(
        rt,
        passes,
        &|pass| { takes_part(rt, shared, pass, begun, together) },
    );
    let mut handed = Vec::new(rt.alloc());
    let mut made = Vec::new(rt.alloc());
    let mut told = Vec::new(rt.alloc());
    for (pass, notes) in parts.expect(rt, "memory") {
        handed.push(pass).expect(rt, "memory");
        made.extend_from_slice(&notes.calls).expect(rt, "memory");
        told.extend_from_slice(&notes.looks).expect(rt, "memory");
    }
    let closed = front.close(rt, handed);
    same(rt, closed.verdict, Verdict::Settled);
    let mut made = beside_the_clock(rt, &closed.journal, made);
    assert!(rt; told.iter().all(|told| is_told(&made, told)));
    assert!(rt; made.len() > 15 && is_in_order(&made));
    made.swap(0, 15);
    assert!(rt; !is_in_order(&made));
}

#[test]
fn sixteen_threads_keep_the_order_of_the_clock(rt: HostRuntime) {
    let from = from(&rt, THREADS);
    same(&rt, visit_a_front(&rt, from, Visit::Order), None);
}

// ---- entries and looks that are in order or not

const JOINED: Made = (Call::Join, Reply::Joined(A), (1, 2));

const HUNGRY: Made = (Call::Hungry(A), Reply::Done, (3, 6));

// It began before the one before it had ended.
const BEGUN: Made = (Call::Begin(A), Reply::Done, (5, 8));

const IN_ORDER: [Made; 3] = [JOINED, HUNGRY, BEGUN];

// Orders of entries, and whether each is right.
const ORDERS: [([Made; 3], bool); 4] = [
    (IN_ORDER, true),
    ([JOINED, BEGUN, HUNGRY], true),
    ([HUNGRY, JOINED, BEGUN], false),
    ([BEGUN, HUNGRY, JOINED], false),
];

// When the first task is looked at, the state that is told, and whether that is right.
const LOOKS: [(Span, Option<State>, bool); 9] = [
    ((0, 1), None, true),
    ((0, 1), Some(State::Thinking), true),
    ((0, 1), Some(State::Hungry), false),
    ((3, 4), None, false),
    ((3, 4), Some(State::Thinking), true),
    ((7, 8), Some(State::Thinking), false),
    ((7, 8), Some(State::Hungry), true),
    ((7, 8), Some(State::Eating), true),
    ((9, 9), Some(State::Hungry), false),
];

#[test]
fn swapped_entries_and_late_looks_are_wrong(rt: HostRuntime) {
    for (made, is_right) in &ORDERS {
        same(&rt, is_in_order(made), *is_right);
    }
    for (span, state, is_right) in &LOOKS {
        same(&rt, is_told(&IN_ORDER, &(A, *state, *span)), *is_right);
    }
}
