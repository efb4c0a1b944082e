//! What a scenario says.

ghost use Rattle.std.specs.Prelude.{◌≤◌, vec_len};
ghost use Rattle.dine_scenario.specs.Ranges.{most_repeats, most_workers};

use dine_lines::Name;
use dine_words::{CallOnOne, CallOnTwo, Limits};

/// The most workers that a scenario may have. Each calls through a pass of its own, so it is the most
/// passes that a front has.
pub const MAX_WORKERS: usize = 16;

// How often, at most, a worker may do its steps.
pub(crate) const MAX_REPEAT: u32 = 1_000_000;

/// A call on tasks that are named, before it is known which tasks they are.
#[derive(Clone, Copy, Debug, PartialEq, Eq)]
pub enum NamedCall {
    /// A task joins, and takes the name.
    Join(Name),
    /// A call about one task.
    OnOne(CallOnOne, Name),
    /// A call about two tasks.
    OnTwo(CallOnTwo, Name, Name),
}

/// What a worker does next.
#[derive(Clone, Copy, Debug, PartialEq, Eq)]
pub enum Step {
    /// One call, which waits for nobody's meal.
    Call(NamedCall),
    /// The task grows hungry, begins when its turn has come, and finishes. It ends at the first refusal.
    Eat(Name),
    /// The state of the task is looked at, and no call is made.
    Look(Name),
}

impl Step {
    ghost use Rattle.std.specs.Prelude.{◌≡◌, option_copied};
    ghost use Rattle.dine_scenario.specs.Asked.{as_call};

    // The call, if the step is one.
    pub(crate) fn as_call(&self) -> Option<&NamedCall>
        ensures { option_copied result ≡ as_call self.now }
    {
        match self {
            Step::Call(call) => Some(call),
            Step::Eat(_) | Step::Look(_) => None,
        }
    }
}

/// One worker of a race: it does its steps in order, `repeat` times.
#[derive(Drop)]
pub struct Worker {
    /// How often the steps are done, from 0 to 1,000,000.
    pub repeat: u32,
    pub steps: Vec<Step>,
    ghost repeat_in_range: { repeat ≤ most_repeats },
}

/// A race: the calls that set the table, and the workers that start together after them.
#[derive(Drop)]
pub struct Scenario {
    pub limits: Limits,
    pub setup: Vec<NamedCall>,
    /// From 1 to [`MAX_WORKERS`] workers, numbered from 0.
    pub workers: Vec<Worker>,
    ghost some_workers: { 1 ≤ vec_len workers },
    ghost workers_in_range: { vec_len workers ≤ most_workers },
}
