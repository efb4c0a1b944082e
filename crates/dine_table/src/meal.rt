//! Meals: who begins to eat by an entry.

ghost use Rattle.std.specs.Prelude.{◌≡◌};
ghost use Rattle.dine_words.specs.declared.task.Task.{Task};
ghost use Rattle.dine_table.specs.History.{grants_meal, is_task};

use dine_words::{Call, Entry, Reply, Task};

/// The task that began to eat by an entry, or `None` where nobody did: its call isn't a begin, or was refused.
#[inline]
pub fn eater_of(entry: Entry) -> Option<Task>
    ensures { (t : Task) → grants_meal t entry ≡ is_task t result }
{
    match entry.call {
        Call::Begin(task) => match entry.reply {
            Reply::Done => Some(task),
            Reply::Joined(_) | Reply::Refused(_) => None,
        },
        _ => None,
    }
}
