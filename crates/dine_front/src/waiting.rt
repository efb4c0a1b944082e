//! Which pass waits for which task.

ghost use Rattle.std.specs.Prelude.{◌≡◌, ◌<◌, if◌then◌else◌, map, slice_set, Some, None};
ghost use Rattle.dine_journal.specs.Kept.{table_now};
ghost use Rattle.dine_front.specs.Passes.{most_passes};
ghost use Rattle.dine_front.specs.Waits.{has_turn, nobody_waits, somebody_waits, still_awaited};

use crate::naming::MAX_PASSES;
use dine_journal::Hall;
use dine_words::Task;
use std::marker::Model;

/// So many passes may wait, each in a place of its own.
pub(crate) const PLACES: usize = MAX_PASSES as usize;

/// For each pass, in the order of their numbers, whether its turn has come.
pub(crate) type Told = [bool; PLACES];

/// The task that each pass waits for. Contracts see the list of them, in the order of the passes' numbers, with `None` for a
/// pass that doesn't wait or was told that its turn has come.
#[derive(Drop)]
pub(crate) struct Waiting {
    tasks: [Option<Task>; PLACES],
    // So that a call which nobody waits for looks at one word alone.
    is_somebody: bool,
}

impl Model for Waiting {
    ghost use Rattle.std.specs.Prelude.{◌≡◌, List, Option, length};
    ghost use Rattle.dine_words.specs.declared.task.Task.{Task};
    ghost use Rattle.dine_front.specs.Waits.{somebody_waits};

    ghost Value = { List (Option Task) };

    ghost view = { λ waiting. waiting.tasks };

    ghost invariant = { λ waiting. (length waiting.tasks ≡ 16)
        × (waiting.is_somebody ≡ somebody_waits waiting.tasks) };
}

impl Waiting {
    /// Nobody waits.
    pub(crate) fn nobody() -> Waiting
        ensures { result ≡ nobody_waits }
    {
        Waiting {
            tasks: [None; PLACES],
            is_somebody: false,
        }
    }

    /// Notes that the pass with this number waits for the task.
    pub(crate) fn note(&mut self, number: usize, task: Task)
        requires { number < most_passes }
        ensures { self.new ≡ slice_set self.old number (Some task) }
    {
        self.tasks[number] = Some(task);
        self.is_somebody = true;
    }

    /// The passes whose turn has come, or `None` where nobody waits. They wait no longer, so whoever asks has to tell them.
    pub(crate) fn end(&mut self, hall: &Hall) -> Option<Told>
        ensures told { result ≡ (if somebody_waits self.old
            then Some (map (has_turn (table_now hall.now)) self.old) else None) }
        ensures left { self.new ≡ map (still_awaited (table_now hall.now)) self.old }
    {
        if !self.is_somebody {
            return None;
        }
        let told = end_each(&mut self.tasks, hall);
        self.is_somebody = is_somebody(&self.tasks);
        Some(told)
    }
}

// Ends the wait of each whose turn has come, and says who they are.
fn end_each(tasks: &mut [Option<Task>; PLACES], hall: &Hall) -> Told
    ensures told { result ≡ map (has_turn (table_now hall.now)) tasks.old }
    ensures left { tasks.new ≡ map (still_awaited (table_now hall.now)) tasks.old }
{
    let mut told = [false; PLACES];
    for number in 0..PLACES {
        let (is_told, left) = judged(hall, tasks[number]);
        told[number] = is_told;
        tasks[number] = left;
    }
    told
}

// Of what a pass waits for, if it waits: whether its turn has come, and what it goes on to wait for.
fn judged(hall: &Hall, awaited: Option<Task>) -> (bool, Option<Task>)
    ensures told { result.0 ≡ has_turn (table_now hall.now) awaited }
    ensures left { result.1 ≡ still_awaited (table_now hall.now) awaited }
{
    match awaited {
        Some(task) => {
            if hall.would_wait(task) {
                (false, Some(task))
            } else {
                (true, None)
            }
        }
        None => (false, None),
    }
}

// Whether somebody waits.
fn is_somebody(tasks: &[Option<Task>; PLACES]) -> bool
    ensures { result ≡ somebody_waits tasks.now }
{
    tasks.iter().any(|task| task.is_some())
}
