//! Steps whose names are looked up once, and not each time that they are done: those of workers that don't join.

ghost use Rattle.std.specs.Prelude.{◌≡◌, IfOk, map};
ghost use Rattle.dine_race.specs.BoundSteps.{bound_by, bound_call, joins, some_join};
ghost use Rattle.dine_race.specs.Runs.{call_named};

use dine_lines::{Name, Names};
use dine_scenario::{NamedCall, Step};
use dine_words::{Call, Task};
use std::alloc::AllocError;

/// What is to be done for a step, by the names that were bound when they were looked up.
#[derive(Clone, Copy, Debug, PartialEq, Eq)]
pub(crate) enum BoundStep {
    /// A task joins, and takes the name.
    Join(Name),
    /// A call that binds no name.
    Call(Call),
    /// A meal of the task.
    Eat(Task),
    /// A look at the task.
    Look(Task),
    /// Nothing, since a name of the step is free.
    Nothing,
}

impl BoundStep {
    /// The step, by these names.
    pub(crate) fn new(names: &Names, step: &Step) -> Self
        ensures { result ≡ bound_by names.now step.now }
    {
        match step {
            Step::Call(NamedCall::Join(name)) => BoundStep::Join(*name),
            Step::Call(line) => BoundStep::of_call(call_named(names, *line)),
            Step::Eat(name) => match names.task(*name) {
                Some(task) => BoundStep::Eat(task),
                None => BoundStep::Nothing,
            },
            Step::Look(name) => match names.task(*name) {
                Some(task) => BoundStep::Look(task),
                None => BoundStep::Nothing,
            },
        }
    }

    // A call, if there is one.
    fn of_call(call: Option<Call>) -> Self
        ensures { result ≡ bound_call call }
    {
        match call {
            Some(call) => BoundStep::Call(call),
            None => BoundStep::Nothing,
        }
    }
}

/// Whether one of the steps joins, which binds its name anew.
pub(crate) fn some_join(steps: &[Step]) -> bool
    ensures { result ≡ some_join steps.now }
{
    steps.iter().any(|step| joins(step))
}

// Whether a step joins.
fn joins(step: &Step) -> bool
    ensures { result ≡ joins step.now }
{
    matches!(step, Step::Call(NamedCall::Join(_)))
}

/// The steps, by these names. An error is want of memory.
pub(crate) fn bound_steps(names: &Names, steps: &Vec<Step>) -> Result<Vec<BoundStep>, AllocError>
    ensures { IfOk result (λ bound. bound.items ≡ map (bound_by names.now) steps.now.items) }
{
    let mut bound = Vec::with_capacity(*steps.allocator(), steps.len())?;
    for step in steps {
        bound.push(BoundStep::new(names, step))?;
    }
    Ok(bound)
}

// The call of a line, where all its names are bound.
pub(crate) fn call_named(names: &Names, line: NamedCall) -> Option<Call>
    ensures { result ≡ call_named names.now line }
{
    match line {
        NamedCall::Join(_) => Some(Call::Join),
        NamedCall::OnOne(call, name) => Some(call.on(names.task(name)?)),
        NamedCall::OnTwo(call, first, second) => {
            Some(call.on(names.task(first)?, names.task(second)?))
        }
    }
}
