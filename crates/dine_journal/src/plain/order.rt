//! Questions on the order of last meals and on the conflicts, and changes of both.

ghost use Rattle.std.specs.Prelude.{◌≡◌, ◌==◌, ◌<◌, ◌^◌, ◌≤◌, not, length, vec_len, vec_capacity, IfOk, OnOk, OnErr};
ghost use Rattle.std.specs.List.{filter, list_any};
ghost use Rattle.dine_table.specs.Table.{has_end, is_in, is_between, keeps_waiting, neighbours_in, other_end, stands_before, state_in};
ghost use Rattle.dine_table.specs.Calls.{free_slot_from, moved_last, diner_put_in, with_state, without};

use dine_words::{Diner, State, Task};
use std::alloc::{AllocError, Global};

/// The state of a task, if it is present.
pub fn state_in(order: &[Diner], task: Task) -> Option<State>
    ensures { result ≡ state_in order.now task }
{
    for diner in order {
        if diner.task == task {
            return Some(diner.state);
        }
    }
    None
}

/// Whether `a` stands before `b`.
pub fn stands_before(order: &[Diner], a: Task, b: Task) -> bool
    ensures { result ≡ stands_before order.now a b }
{
    for diner in order {
        if diner.task == b {
            return false;
        }
        if diner.task == a {
            return true;
        }
    }
    false
}

/// Whether a task is present, and in a state.
pub fn is_in(order: &[Diner], task: Task, state: State) -> bool
    ensures { result ≡ is_in state order.now task }
{
    state_in(order, task) == Some(state)
}

// Whether `other` keeps `task` from eating.
fn keeps_waiting(order: &[Diner], task: Task, other: Task) -> bool
    ensures { result ≡ keeps_waiting order.now task other }
{
    is_in(order, other, State::Eating)
        || (is_in(order, other, State::Hungry) && stands_before(order, other, task))
}

// Whether the conflict is between `a` and `b`, named in either order.
fn is_between(conflict: (Task, Task), a: Task, b: Task) -> bool
    ensures { result ≡ is_between a b conflict }
{
    (a == conflict.0 && b == conflict.1) || (a == conflict.1 && b == conflict.0)
}

// Whether one end of the conflict is the task.
fn has_end(conflict: (Task, Task), task: Task) -> bool
    ensures { result ≡ has_end task conflict }
{
    task == conflict.0 || task == conflict.1
}

// The other end of a conflict that has the task.
fn other_end(conflict: (Task, Task), task: Task) -> Option<Task>
    ensures { result ≡ other_end task conflict }
{
    if task == conflict.0 {
        Some(conflict.1)
    } else if task == conflict.1 {
        Some(conflict.0)
    } else {
        None
    }
}

/// Whether a neighbour keeps the task from eating.
pub fn has_to_wait(order: &[Diner], conflicts: &[(Task, Task)], task: Task) -> bool
    ensures { result ≡ list_any (keeps_waiting order.now task) (neighbours_in conflicts.now task) }
{
    for conflict in conflicts {
        if let Some(other) = other_end(*conflict, task) {
            if keeps_waiting(order, task, other) {
                return true;
            }
        }
    }
    false
}

/// The other ends of the conflicts that have the task, in the order of the conflicts.
pub fn neighbours_in(
    alloc: Global,
    conflicts: &[(Task, Task)],
    task: Task,
) -> Result<Vec<Task>, AllocError>
    ensures { IfOk result (λ tasks. tasks.items ≡ neighbours_in conflicts.now task) }
{
    conflicts
        .iter()
        .filter_map(|conflict| other_end(*conflict, task))
        .collect(alloc)
}

/// Those of the other ends that keep the task from eating.
pub fn blockers_in(
    alloc: Global,
    order: &[Diner],
    conflicts: &[(Task, Task)],
    task: Task,
) -> Result<Vec<Task>, AllocError>
    ensures { IfOk result (λ tasks.
        tasks.items ≡ filter (keeps_waiting order.now task) (neighbours_in conflicts.now task)) }
{
    conflicts
        .iter()
        .filter_map(|conflict| other_end(*conflict, task))
        .filter(|other| keeps_waiting(order, task, *other))
        .collect(alloc)
}

/// Whether a conflict between `a` and `b` stands.
pub fn are_in_conflict(conflicts: &[(Task, Task)], a: Task, b: Task) -> bool
    ensures { result ≡ list_any (is_between a b) conflicts.now }
{
    conflicts.iter().any(|conflict| is_between(*conflict, a, b))
}

// Whether a task has the slot.
fn is_used(order: &[Diner], slot: u32) -> bool
    ensures { result ≡ list_any (λ d. d.task.slot == slot) order.now }
{
    order.iter().any(|diner| diner.task.slot == slot)
}

/// The least slot that no task has.
#[tactic(auto, using(crate::proofs::FreeSlot::steps))]
pub fn free_slot(order: &[Diner]) -> u32
    requires { length order.now < 2 ^ 32 }
    ensures { result ≡ free_slot_from (length order.now) 0 order.now }
{
    let mut slot = 0;
    for _ in 0..order.len() {
        if !is_used(order, slot) {
            return slot;
        }
        slot += 1;
    }
    slot
}

// The diner, in the state if it is the task.
fn diner_put_in(diner: Diner, task: Task, state: State) -> Diner
    ensures { result ≡ diner_put_in state task diner }
{
    if diner.task == task {
        Diner { state, ..diner }
    } else {
        diner
    }
}

/// Puts a task into a state.
pub fn set_state(order: &mut [Diner], task: Task, state: State)
    ensures { order.new ≡ with_state state task order.old }
{
    for diner in order.iter_mut() {
        *diner = diner_put_in(*diner, task, state);
    }
}

/// Takes a task out.
pub fn take_out(order: &mut Vec<Diner>, task: Task)
    ensures items { order.new.items ≡ without task order.old.items }
    ensures capacity { vec_capacity order.new ≡ vec_capacity order.old }
    ensures bound { vec_len order.new ≤ vec_len order.old }
{
    order.retain(|diner| diner.task != task);
}

/// Puts a task last, thinking.
pub fn move_last(order: &mut Vec<Diner>, task: Task) -> Result<(), AllocError>
    ensures ok { OnOk result (order.new.items ≡ moved_last task order.old.items) }
    ensures err { OnErr result (order.new.items ≡ order.old.items) }
{
    order.reserve(1)?;
    take_out(order, task);
    order
        .push(Diner {
            task,
            state: State::Thinking,
        })
        .unwrap();
    Ok(())
}

/// Takes a conflict out.
pub fn take_conflict_out(conflicts: &mut Vec<(Task, Task)>, a: Task, b: Task)
    ensures { conflicts.new.items ≡ filter (λ c. not (is_between a b c)) conflicts.old.items }
{
    conflicts.retain(|conflict| !is_between(*conflict, a, b));
}

/// Takes all conflicts of a task out.
pub fn take_conflicts_of_out(conflicts: &mut Vec<(Task, Task)>, task: Task)
    ensures { conflicts.new.items ≡ filter (λ c. not (has_end task c)) conflicts.old.items }
{
    conflicts.retain(|conflict| !has_end(*conflict, task));
}
