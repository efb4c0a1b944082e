//! Threads at one front, one for each pass.

use dine_front::{Front, FrontFault, Naming, Pass};
use dine_journal::Answer;
use dine_words::{Call, Refusal, Reply, State, Task};
use std::hint::spin_loop;
use std::sync::atomic::{AtomicU32, Ordering};
use std::thread::map_vec;
use tests_kit::{A, Machine};

/// A call that ends waits, and the tasks that are seen to eat then.
pub(crate) type Ending = (Call, &'static [Task]);

/// What a thread does with its pass.
#[derive(Clone, Copy)]
pub(crate) enum Part {
    /// The task eats a hundred times, and is looked at while it is hungry.
    Eat(Task),
    /// The first task joins and begins a meal.
    EatOnce,
    /// Looks until the first task is seen to eat.
    Watch,
    /// Begins the task in turn.
    Wait(Task),
    /// Once the others are about to wait, and had time for it, ends one wait after the other. With none to end it stops the
    /// front.
    End(&'static [Ending]),
    /// Once another is about to wait, and had time to fall asleep, ends the first task's meal, and stops the front at once.
    EndAndStop,
}

/// How many looks saw what they were for, how many calls were answered Done, were refused since the task eats or since it
/// thinks, and were stopped, and the sum of the places of the others of these.
pub(crate) type Tally = [u32; 6];

// How many threads are to wait, and what all note together: how many are about to, and the tally.
#[derive(Drop)]
struct Notes {
    waiters: usize,
    waiting: AtomicU32,
    seen: AtomicU32,
    done: AtomicU32,
    eats: AtomicU32,
    thinks: AtomicU32,
    stopped: AtomicU32,
    places: AtomicU32,
}

fn add(counter: &AtomicU32) {
    counter.fetch_add(1, Ordering::SeqCst);
}

fn read(counter: &AtomicU32) -> u32 {
    counter.load(Ordering::SeqCst)
}

// Notes what a call was answered.
fn note(notes: &Notes, made: Result<Answer, FrontFault>) {
    let Ok(Answer { place, reply }) = made else {
        if made == Err(FrontFault::Stopped) {
            add(&notes.stopped);
        }
        return;
    };
    match reply {
        Reply::Done => add(&notes.done),
        Reply::Refused(Refusal::WrongState(State::Eating)) => add(&notes.eats),
        Reply::Refused(Refusal::WrongState(State::Thinking)) => add(&notes.thinks),
        _ => return,
    }
    let place = u32::try_from(place).unwrap_or(u32::MAX);
    notes.places.fetch_add(place, Ordering::SeqCst);
}

fn acts<J: Naming>(
    rt: &impl Machine,
    front: &Front<J>,
    pass: &mut Pass<J>,
    call: Call,
    notes: &Notes,
) {
    note(notes, front.act(rt, pass, call));
}

fn begins<J: Naming>(
    rt: &impl Machine,
    front: &Front<J>,
    pass: &mut Pass<J>,
    task: Task,
    notes: &Notes,
) {
    note(notes, front.begin_in_turn(rt, pass, task));
}

fn eats<J: Naming>(
    rt: &impl Machine,
    front: &Front<J>,
    pass: &mut Pass<J>,
    task: Task,
    notes: &Notes,
) {
    for _ in 0..100 {
        acts(rt, front, pass, Call::Hungry(task), notes);
        if pass.look(task) == Ok(Some(State::Hungry)) {
            add(&notes.seen);
        }
        begins(rt, front, pass, task, notes);
        acts(rt, front, pass, Call::Finish(task), notes);
    }
}

// How often a thread looks at most.
const MOST: u32 = 1_000_000_000;

// Looks until the task eats.
fn watches<J: Naming>(pass: &mut Pass<J>, task: Task, notes: &Notes) {
    for _ in 0..MOST {
        if pass.look(task) == Ok(Some(State::Eating)) {
            add(&notes.seen);
            break;
        }
    }
}

// Looks until all others are about to wait.
fn sees_waiting(notes: &Notes) {
    for _ in 0..MOST {
        if read(&notes.waiting) as usize == notes.waiters {
            break;
        }
    }
}

// So many looks give the others time to wait. A thread that waits looks for less time than these spins take before it sleeps.
const LOOKS: u32 = 100_000;

const SPINS: u32 = 20_000;

fn ends<J: Naming>(
    rt: &impl Machine,
    front: &Front<J>,
    pass: &mut Pass<J>,
    endings: &[Ending],
    notes: &Notes,
) {
    for _ in 0..LOOKS {
        let _ = pass.look(A);
    }
    for (call, tasks) in endings {
        acts(rt, front, pass, *call, notes);
        for task in *tasks {
            watches(pass, *task, notes);
        }
    }
    if endings.is_empty() {
        front.stop(rt);
    }
}

// The first pass has the first part, and the others have the other parts by turns.
fn part_of(parts: &[Part], number: usize) -> Option<Part> {
    let (first, others) = parts.split_first()?;
    if number == 0 {
        return Some(*first);
    }
    let place = (number - 1).checked_rem(others.len())?;
    others.get(place).copied()
}

fn does<J: Naming>(
    rt: &impl Machine,
    front: &Front<J>,
    pass: &mut Pass<J>,
    part: Part,
    notes: &Notes,
) {
    match part {
        Part::Eat(task) => eats(rt, front, pass, task, notes),
        Part::EatOnce => {
            acts(rt, front, pass, Call::Join, notes);
            acts(rt, front, pass, Call::Hungry(A), notes);
            acts(rt, front, pass, Call::Begin(A), notes);
        }
        Part::Watch => watches(pass, A, notes),
        Part::Wait(task) => {
            add(&notes.waiting);
            begins(rt, front, pass, task, notes);
        }
        Part::End(endings) => {
            sees_waiting(notes);
            ends(rt, front, pass, endings, notes);
        }
        Part::EndAndStop => {
            sees_waiting(notes);
            for _ in 0..SPINS {
                spin_loop();
            }
            acts(rt, front, pass, Call::Finish(A), notes);
            front.stop(rt);
        }
    }
}

// A pass after its part.
fn plays<J: Naming>(
    rt: &impl Machine,
    front: &Front<J>,
    mut pass: Pass<J>,
    parts: &[Part],
    notes: &Notes,
) -> Pass<J> {
    if let Some(part) = part_of(parts, pass.number() as usize) {
        does(rt, front, &mut pass, part, notes);
    }
    pass
}

/// A thread for each pass does its part. The passes come back, and what came of it all.
pub(crate) fn side_by_side<J: Naming + Send + Sync>(
    rt: &impl Machine,
    front: &Front<J>,
    passes: Vec<Pass<J>>,
    parts: &[Part],
) -> (Vec<Pass<J>>, Tally) {
    let notes = Notes {
        waiters: passes.len().saturating_sub(1),
        waiting: AtomicU32::new(0),
        seen: AtomicU32::new(0),
        done: AtomicU32::new(0),
        eats: AtomicU32::new(0),
        thinks: AtomicU32::new(0),
        stopped: AtomicU32::new(0),
        places: AtomicU32::new(0),
    };
    let shared = &notes;
    let played = map_vec(
        rt,
        passes,
        &|pass| { plays(rt, front, pass, parts, shared) },
    );
    let passes = played.expect(rt, "there is memory");
    (passes, tally(&notes))
}

fn tally(notes: &Notes) -> Tally {
    let (eats, thinks) = (read(&notes.eats), read(&notes.thinks));
    let (seen, done) = (read(&notes.seen), read(&notes.done));
    let (stopped, places) = (read(&notes.stopped), read(&notes.places));
    [seen, done, eats, thinks, stopped, places]
}
