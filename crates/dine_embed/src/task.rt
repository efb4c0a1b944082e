//! A task's name, for C.

ghost use Rattle.std.specs.Prelude.{◌≡◌, ◌⊎◌, ◌<◌, ◌≤◌, Some, length, map, take};
ghost use Rattle.dine_embed.specs.Acting.{ListsTasks, name_of, task_named};
ghost use Rattle.dine_embed.specs.Numbers.{number_of_fault};
ghost use Rattle.dine_embed.specs.declared.numbers.Fault.TheVariants.{NoSpace};

use crate::numbers::Fault;
use dine_words::Task;

/// The name of a task, as C keeps it. Any two numbers are a name; those of no task that is present are refused as
/// unknown.
#[repr(C)]
#[derive(Clone, Copy)]
pub struct DineTask {
    pub slot: u32,
    pub born: u64,
}

impl DineTask {
    /// The name of this task.
    pub fn of(task: Task) -> DineTask
        ensures { result ≡ name_of task }
    {
        DineTask {
            slot: task.slot,
            born: task.born,
        }
    }

    /// The task that it names.
    pub fn task(self) -> Task
        ensures { result ≡ task_named self }
    {
        Task {
            slot: self.slot,
            born: self.born,
        }
    }
}

/// Writes the names of tasks to the front of a place, and how many there are to `count`, and answers 0. Where the place is
/// shorter it answers `NoSpace`'s number, and writes the count alone.
pub fn write_list(tasks: &[Task], place: &mut [DineTask], count: &mut usize) -> u32
    ensures answer { (result ≡ 0) ⊎ (result ≡ number_of_fault NoSpace) }
    ensures found { result ≡ 0 → ListsTasks (Some tasks.now) place.new count.new }
    ensures space { result ≡ number_of_fault NoSpace → length place.old < count.new }
    ensures unwritten { (result ≡ 0 → ⊥) → place.new ≡ place.old }
{
    *count = tasks.len();
    if place.len() < tasks.len() {
        return Fault::NoSpace.number();
    }
    write_names(tasks, place);
    0
}

// Writes the names of tasks to the front of a place that has room for them.
fn write_names(tasks: &[Task], place: &mut [DineTask])
    requires { length tasks.now ≤ length place.old }
    ensures length { length place.new ≡ length place.old }
    ensures names { take (length tasks.now) place.new ≡ map name_of tasks.now }
{
    for at in 0..tasks.len() {
        place[at] = DineTask::of(tasks[at]);
    }
}
