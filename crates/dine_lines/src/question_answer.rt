//! The texts of what a question is answered, appended to what is yet to be written. On `Err` a part may have been appended,
//! behind what stood there before.

ghost use Rattle.std.specs.Prelude.{◌≡◌, ◌++◌, OnErr, OnOk, codes};
ghost use Rattle.std.specs.List.{flat_map};
ghost use Rattle.std.specs.Option.{option_map};
ghost use mathlib.Core.List.{IsPrefix};
ghost use Rattle.dine_words.specs.Texts.{task_text};
ghost use Rattle.dine_lines.specs.Answers.{state_or_none, task_or_none, tasks_or_none};

use dine_words::{State, Task};
use std::alloc::AllocError;

/// The state of a task, where it is present. On `Err` a part may have been appended, behind what stood there before.
pub fn push_state(out: &mut Vec<u8>, state: Option<State>) -> Result<(), AllocError>
    ensures ok { OnOk result
        (out.new.items ≡ out.old.items ++ (codes "state " ++ state_or_none state)) }
    ensures err { OnErr result (IsPrefix out.old.items out.new.items) }
{
    out.extend_from_slice(b"state ")?;
    let text = match state {
        None => "none",
        Some(state) => state.text(),
    };
    out.extend_from_slice(text.as_bytes())
}

/// The next ready task, if there is one. On `Err` a part may have been appended, behind what stood there before.
pub fn push_next(out: &mut Vec<u8>, task: Option<Task>) -> Result<(), AllocError>
    ensures ok { OnOk result
        (out.new.items ≡ out.old.items ++ (codes "next " ++ task_or_none task)) }
    ensures err { OnErr result (IsPrefix out.old.items out.new.items) }
{
    out.extend_from_slice(b"next ")?;
    match task {
        None => out.extend_from_slice(b"none"),
        Some(task) => task.write_to(out),
    }
}

/// The neighbours of a task, where it is present. On `Err` a part may have been appended, behind what stood there before.
pub fn push_neighbours(out: &mut Vec<u8>, tasks: Option<Vec<Task>>) -> Result<(), AllocError>
    ensures ok { OnOk result (out.new.items ≡ out.old.items
        ++ (codes "neighbours" ++ tasks_or_none (option_map (λ found. found.items) tasks))) }
    ensures err { OnErr result (IsPrefix out.old.items out.new.items) }
{
    out.extend_from_slice(b"neighbours")?;
    match tasks {
        None => out.extend_from_slice(b" none"),
        Some(tasks) => push_tasks(out, &tasks),
    }
}

/// A space and its name for each task. On `Err` a part may have been appended, behind what stood there before.
pub fn push_tasks(out: &mut Vec<u8>, tasks: &[Task]) -> Result<(), AllocError>
    ensures ok { OnOk result (out.new.items
        ≡ out.old.items ++ flat_map (λ t. codes " " ++ task_text t) tasks.now) }
    ensures err { OnErr result (IsPrefix out.old.items out.new.items) }
{
    for task in tasks {
        out.extend_from_slice(b" ")?;
        task.write_to(out)?;
    }
    Ok(())
}
