//! The arbiter for programs in C, and for those that call C.
//!
//! A handle is opened, asked and closed. Each export has the contract of the arbiter's own call. What is left to the
//! caller is that a handle is open where it has to be, that the pointers are live and none is null, and that one call at
//! a time is on a handle; all else is tested here.
#![tactic(auto)]

ghost use Rattle.std.specs.Prelude.{◌≡◌, ◌⊎◌, ◌≤◌, ◌<◌, ◌↔◌, ◌==◌, false, true, length, Some, None};
ghost use Rattle.dine_words.specs.Ranges.{most_conflicts, most_tasks};
ghost use Rattle.dine_table.specs.Table.{is_ready, neighbours_if_present, next_ready_of, opening_table, state_of};
ghost use Rattle.dine_table.specs.Waiting.{blockers_if_present, ready_of};
ghost use Rattle.dine_embed.specs.Acting.{ListsTasks, last_clock, messages_left, newcomer_left, number_answered, table_left, task_named};
ghost use Rattle.dine_embed.specs.Numbers.{call_numbered, number_of_fault, number_of_state};
ghost use Rattle.dine_embed.specs.Open.{IsOpen, StaysOpen};
ghost use Rattle.dine_embed.specs.declared.numbers.Fault.TheVariants.{NoMemory, NoSpace, OutOfRange};
ghost use Rattle.dine_words.specs.Refusals.{number_of_refusal};
ghost use Rattle.dine_words.specs.declared.call.Refusal.TheVariants as Refusal;
ghost use Rattle.std.specs.Ptr.{null_ptr};

mod handle;
mod loose;
mod numbers;
mod task;

use crate::handle::Handle;
use crate::numbers::{Fault, call_numbered, number_of_reply, number_of_state};
use crate::task::{DineTask, write_list};
use dine_arbiter::Arbiter;
use dine_words::{Call, Limits, Refusal, Reply};
use std::alloc::Global;

/// Opens an arbiter with room for as many tasks and conflicts at a closed handle, and answers 0.
///
/// It answers `OutOfRange` unless `tasks` is from 1 to 4,096 and `conflicts` from 1 to 65,535, and `NoMemory` where memory
/// runs out; the handle stays closed then. No later call wants memory but those that
/// list tasks: [`dine_neighbours`], [`dine_blockers`] and [`dine_ready`].
#[unsafe(no_mangle)]
pub extern "C" fn dine_open(alloc: Global, tasks: u32, conflicts: u32, dine: &mut Handle) -> u32
    requires closed { dine.old.holds ≡ false }
    ensures answer { (result ≡ 0) ⊎ (result ≡ number_of_fault OutOfRange)
        ⊎ (result ≡ number_of_fault NoMemory) }
    ensures range { result ≡ number_of_fault OutOfRange ↔
        (((1 ≤ tasks) × (tasks ≤ most_tasks)
        × (1 ≤ conflicts) × (conflicts ≤ most_conflicts)) → ⊥) }
    ensures open { result ≡ 0 → IsOpen dine.new }
    ensures tasks { result ≡ 0 → dine.new.value.table.limits.tasks ≡ tasks }
    ensures conflicts { result ≡ 0 → dine.new.value.table.limits.conflicts ≡ conflicts }
    ensures table { result ≡ 0 →
        dine.new.value.table ≡ opening_table dine.new.value.table.limits }
    ensures messages { result ≡ 0 → dine.new.value.messages ≡ 0 }
    ensures kept { (result ≡ 0 → ⊥) → dine.new ≡ dine.old }
{
    let Some(limits) = Limits::new(tasks, conflicts) else {
        return Fault::OutOfRange.number();
    };
    let Ok(arbiter) = Arbiter::new(alloc, limits) else {
        return Fault::NoMemory.number();
    };
    let Ok(arbiter) = Box::new(alloc, arbiter) else {
        return Fault::NoMemory.number();
    };
    dine.put(arbiter);
    0
}

/// Carries a call out, or refuses it: 0, or the number of the refusal. A join writes the newcomer's name to `newcomer`; no
/// other answer touches it.
///
/// It answers `NoSuchCall` where no call has the number, and `ClockEnded` where the clock is at its end; nothing is changed
/// then, and nothing is by a refusal but the count of messages, which is 0.
#[unsafe(no_mangle)]
pub extern "C" fn dine_act(
    alloc: Global,
    dine: &mut Handle,
    call: u32,
    first: &DineTask,
    second: &DineTask,
    newcomer: &mut DineTask,
) -> u32
    requires open { IsOpen dine.old }
    ensures open { IsOpen dine.new }
    ensures answer { result ≡ number_answered dine.old.value.table
        (call_numbered call (task_named first.now) (task_named second.now)) }
    ensures table { dine.new.value.table ≡ table_left dine.old.value.table
        (call_numbered call (task_named first.now) (task_named second.now)) }
    ensures messages { dine.new.value.messages ≡ messages_left dine.old.value
        (call_numbered call (task_named first.now) (task_named second.now)) }
    ensures newcomer { newcomer.new ≡ newcomer_left dine.old.value.table
        (call_numbered call (task_named first.now) (task_named second.now)) newcomer.old }
{
    let Some(call) = call_numbered(call, first.task(), second.task()) else {
        return Fault::NoSuchCall.number();
    };
    let mut arbiter = dine.take(alloc);
    if has_ended(&arbiter) {
        dine.put(arbiter);
        return Fault::ClockEnded.number();
    }
    let reply = arbiter.apply(call);
    dine.put(arbiter);
    if let Reply::Joined(task) = reply {
        *newcomer = DineTask::of(task);
    }
    number_of_reply(reply)
}

/// The answer that [`dine_act`] would give, and nothing is changed.
#[unsafe(no_mangle)]
pub extern "C" fn dine_ask(
    alloc: Global,
    dine: &mut Handle,
    call: u32,
    first: &DineTask,
    second: &DineTask,
) -> u32
    requires open { IsOpen dine.old }
    ensures answer { result ≡ number_answered dine.old.value.table
        (call_numbered call (task_named first.now) (task_named second.now)) }
    ensures kept { StaysOpen dine.old dine.new }
{
    let Some(call) = call_numbered(call, first.task(), second.task()) else {
        return Fault::NoSuchCall.number();
    };
    dine.look(alloc, |arbiter| answer_to(arbiter, call))
}

/// The number of a task's state, and 0 where it isn't present.
#[unsafe(no_mangle)]
pub extern "C" fn dine_state(alloc: Global, dine: &mut Handle, task: &DineTask) -> u32
    requires open { IsOpen dine.old }
    ensures state { result ≡ number_of_state (state_of dine.old.value.table (task_named task.now)) }
    ensures kept { StaysOpen dine.old dine.new }
{
    number_of_state(dine.look(alloc, |arbiter| arbiter.state(task.task())))
}

/// Whether the task is hungry, and may begin to eat.
#[unsafe(no_mangle)]
pub extern "C" fn dine_is_ready(alloc: Global, dine: &mut Handle, task: &DineTask) -> bool
    requires open { IsOpen dine.old }
    ensures ready { result ≡ is_ready dine.old.value.table (task_named task.now) }
    ensures kept { StaysOpen dine.old dine.new }
{
    dine.look(alloc, |arbiter| arbiter.is_ready(task.task()))
}

/// Writes the ready task whose last meal is the earliest to `next`, and answers whether there is one. Where nobody is
/// ready, `next` stays as it is.
#[unsafe(no_mangle)]
pub extern "C" fn dine_next_ready(alloc: Global, dine: &mut Handle, next: &mut DineTask) -> bool
    requires open { IsOpen dine.old }
    ensures some { result ≡ true →
        next_ready_of dine.old.value.table ≡ Some (task_named next.new) }
    ensures none { result ≡ false →
        (next_ready_of dine.old.value.table ≡ None) × (next.new ≡ next.old) }
    ensures kept { StaysOpen dine.old dine.new }
{
    match dine.look(alloc, |arbiter| arbiter.next_ready()) {
        Some(task) => {
            *next = DineTask::of(task);
            true
        }
        None => false,
    }
}

/// Writes the tasks that a task is in conflict with to the front of `found`, in the order in which the conflicts were
/// declared, and how many there are to `count`, and answers 0.
///
/// It answers `Unknown`'s number where the task isn't present, `NoMemory` where memory runs out, and `NoSpace` where
/// `found` is shorter: nothing is written then but, by the last, the count.
#[unsafe(no_mangle)]
pub extern "C" fn dine_neighbours(
    alloc: Global,
    dine: &mut Handle,
    task: &DineTask,
    found: &mut [DineTask],
    count: &mut usize,
) -> u32
    requires open { IsOpen dine.old }
    ensures answer { (result ≡ 0) ⊎ (result ≡ number_of_refusal Refusal.Unknown)
        ⊎ (result ≡ number_of_fault NoMemory) ⊎ (result ≡ number_of_fault NoSpace) }
    ensures found { result ≡ 0 →
        ListsTasks (neighbours_if_present dine.old.value.table (task_named task.now))
        found.new count.new }
    ensures unknown { result ≡ number_of_refusal Refusal.Unknown →
        neighbours_if_present dine.old.value.table (task_named task.now) ≡ None }
    ensures space { result ≡ number_of_fault NoSpace → length found.old < count.new }
    ensures unwritten { (result ≡ 0 → ⊥) → found.new ≡ found.old }
    ensures kept { StaysOpen dine.old dine.new }
{
    match dine.look(alloc, |arbiter| arbiter.neighbours(alloc, task.task())) {
        Ok(Some(tasks)) => write_list(&tasks, found, count),
        Ok(None) => Refusal::Unknown.number(),
        Err(_) => Fault::NoMemory.number(),
    }
}

/// Writes the tasks for which a hungry task waits to the front of `found`, as [`dine_neighbours`] does with all neighbours:
/// those of these that eat, and those that are hungry with an earlier last meal. There are none for a task that isn't
/// hungry, or that may begin.
#[unsafe(no_mangle)]
pub extern "C" fn dine_blockers(
    alloc: Global,
    dine: &mut Handle,
    task: &DineTask,
    found: &mut [DineTask],
    count: &mut usize,
) -> u32
    requires open { IsOpen dine.old }
    ensures answer { (result ≡ 0) ⊎ (result ≡ number_of_refusal Refusal.Unknown)
        ⊎ (result ≡ number_of_fault NoMemory) ⊎ (result ≡ number_of_fault NoSpace) }
    ensures found { result ≡ 0 →
        ListsTasks (blockers_if_present dine.old.value.table (task_named task.now))
        found.new count.new }
    ensures unknown { result ≡ number_of_refusal Refusal.Unknown →
        blockers_if_present dine.old.value.table (task_named task.now) ≡ None }
    ensures space { result ≡ number_of_fault NoSpace → length found.old < count.new }
    ensures unwritten { (result ≡ 0 → ⊥) → found.new ≡ found.old }
    ensures kept { StaysOpen dine.old dine.new }
{
    match dine.look(alloc, |arbiter| arbiter.blockers(alloc, task.task())) {
        Ok(Some(tasks)) => write_list(&tasks, found, count),
        Ok(None) => Refusal::Unknown.number(),
        Err(_) => Fault::NoMemory.number(),
    }
}

/// Writes all tasks that are ready to the front of `found`, the one with the earliest last meal first, and how many there
/// are to `count`, and answers 0.
///
/// It answers `NoMemory` where memory runs out, and `NoSpace` where `found` is shorter: nothing is written then but, by the
/// last, the count.
#[unsafe(no_mangle)]
pub extern "C" fn dine_ready(
    alloc: Global,
    dine: &mut Handle,
    found: &mut [DineTask],
    count: &mut usize,
) -> u32
    requires open { IsOpen dine.old }
    ensures answer { (result ≡ 0) ⊎ (result ≡ number_of_fault NoMemory)
        ⊎ (result ≡ number_of_fault NoSpace) }
    ensures found { result ≡ 0 →
        ListsTasks (Some (ready_of dine.old.value.table)) found.new count.new }
    ensures space { result ≡ number_of_fault NoSpace → length found.old < count.new }
    ensures unwritten { (result ≡ 0 → ⊥) → found.new ≡ found.old }
    ensures kept { StaysOpen dine.old dine.new }
{
    match dine.look(alloc, |arbiter| arbiter.ready(alloc)) {
        Ok(tasks) => write_list(&tasks, found, count),
        Err(_) => Fault::NoMemory.number(),
    }
}

/// Whether one more conflict has room.
#[unsafe(no_mangle)]
pub extern "C" fn dine_has_room(alloc: Global, dine: &mut Handle) -> bool
    requires open { IsOpen dine.old }
    ensures room { result ≡ true ↔
        length dine.old.value.table.conflicts < dine.old.value.table.limits.conflicts }
    ensures kept { StaysOpen dine.old dine.new }
{
    dine.look(alloc, |arbiter| has_room(arbiter))
}

/// How many joins and finishes were accepted.
#[unsafe(no_mangle)]
pub extern "C" fn dine_clock(alloc: Global, dine: &mut Handle) -> u64
    requires open { IsOpen dine.old }
    ensures clock { result ≡ dine.old.value.table.clock }
    ensures kept { StaysOpen dine.old dine.new }
{
    dine.look(alloc, |arbiter| arbiter.clock())
}

/// How many tokens and forks were sent in the last call that had a reply, 0 before the first.
#[unsafe(no_mangle)]
pub extern "C" fn dine_messages(alloc: Global, dine: &mut Handle) -> u32
    requires open { IsOpen dine.old }
    ensures messages { result ≡ dine.old.value.messages }
    ensures kept { StaysOpen dine.old dine.new }
{
    dine.look(alloc, |arbiter| arbiter.messages())
}

/// Writes the limits that the arbiter was opened with.
#[unsafe(no_mangle)]
pub extern "C" fn dine_limits(
    alloc: Global,
    dine: &mut Handle,
    tasks: &mut u32,
    conflicts: &mut u32,
)
    requires open { IsOpen dine.old }
    ensures tasks { tasks.new ≡ dine.old.value.table.limits.tasks }
    ensures conflicts { conflicts.new ≡ dine.old.value.table.limits.conflicts }
    ensures kept { StaysOpen dine.old dine.new }
{
    let limits = dine.look(alloc, |arbiter| arbiter.limits());
    *tasks = limits.tasks;
    *conflicts = limits.conflicts;
}

/// Ends the arbiter, gives its memory back, and leaves the handle closed, at null.
#[unsafe(no_mangle)]
pub extern "C" fn dine_close(alloc: Global, dine: &mut Handle)
    requires open { IsOpen dine.old }
    ensures closed { dine.new.holds ≡ false }
    ensures null { dine.new.address ≡ null_ptr }
{
    let _ = dine.take(alloc);
}

// The number that is answered where a call is asked for.
fn answer_to(arbiter: &Arbiter, call: Call) -> u32
    ensures { result ≡ number_answered arbiter.now.table (Some call) }
{
    if has_ended(arbiter) {
        Fault::ClockEnded.number()
    } else {
        number_of_reply(arbiter.reply_to(call))
    }
}

// Whether the clock is at its end.
fn has_ended(arbiter: &Arbiter) -> bool
    ensures ended { result ≡ (arbiter.now.table.clock == last_clock) }
    ensures room { result ≡ false → arbiter.now.table.clock < last_clock }
{
    arbiter.clock() == u64::MAX
}

// Whether one more conflict has room.
fn has_room(arbiter: &Arbiter) -> bool
    ensures { result ≡ true ↔
        length arbiter.now.table.conflicts < arbiter.now.table.limits.conflicts }
{
    !arbiter.book().is_full()
}
