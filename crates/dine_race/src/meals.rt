//! Who ate how often, by a journal.

ghost use Rattle.std.specs.Prelude.{◌≡◌, ◌+◌, ◌<◌, ◌^◌, if◌then◌else◌, IfOk, OnOk, unwrap_or};
ghost use Rattle.std.specs.HashMap.{get};
ghost use Rattle.dine_words.specs.declared.task.Task.{Task};
ghost use Rattle.dine_table.specs.History.{grants_meal};
ghost use Rattle.dine_table.specs.Table.{same_task};
ghost use Rattle.dine_race.specs.Report.{meals_of};

use dine_journal::Journal;
use dine_table::eater_of;
use dine_words::{Entry, Task};
use std::alloc::{AllocError, Global};
use std::collections::HashMap;

/// How often each task began to eat.
#[derive(Drop)]
pub(crate) struct Meals {
    counts: HashMap<Task, u64>,
}

impl Meals {
    /// Counts the meals of a journal, in one pass over it. An error is want of memory.
    pub(crate) fn count(alloc: Global, journal: &Journal) -> Result<Meals, AllocError>
        ensures { IfOk result (λ meals. (t : Task) →
            unwrap_or (get same_task meals.counts t) 0 ≡ meals_of t journal.now.entries) }
    {
        let mut meals = Meals {
            counts: HashMap::new(alloc),
        };
        for place in 0..journal.len() {
            if let Some(entry) = journal.entry(place) {
                meals.add(entry)?;
            }
        }
        Ok(meals)
    }

    /// How often the task began to eat.
    pub(crate) fn of(&self, task: Task) -> u64
        ensures { result ≡ unwrap_or (get same_task self.now.counts task) 0 }
    {
        self.counts.get(&task).copied().unwrap_or(0)
    }

    // Counts the meal that begins by an entry, if one does.
    fn add(&mut self, entry: Entry) -> Result<(), AllocError>
        requires { (t : Task) → unwrap_or (get same_task self.old.counts t) 0 + 1 < 2 ^ 64 }
        ensures { OnOk result ((t : Task) → unwrap_or (get same_task self.new.counts t) 0
            ≡ (if grants_meal t entry then 1 else 0)
            + unwrap_or (get same_task self.old.counts t) 0) }
    {
        if let Some(task) = eater_of(entry) {
            match self.counts.get_mut(&task) {
                Some(count) => *count += 1,
                None => {
                    self.counts.insert(task, 1)?;
                }
            }
        }
        Ok(())
    }
}
