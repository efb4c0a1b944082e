//! For whom a task waits, and which tasks may begin.

ghost use Rattle.std.specs.Prelude.{◌≡◌, IfOk, option_map};
ghost use Rattle.dine_table.specs.Waiting.{blockers_if_present, ready_of};

use super::Arbiter;
use crate::search::Search;
use crate::walk;
use dine_words::{State, Task};
use std::alloc::{AllocError, Global};

impl Arbiter {
    /// The tasks for which a hungry task waits, in the order in which the conflicts were declared: its neighbours that eat,
    /// and those that are hungry with an earlier last meal. There are none for a task that isn't hungry, or that may begin.
    /// `None` where the task isn't present. An error is want of memory for the list.
    ///
    /// They are those who hold a fork that the task lacks: it looks at the task's own forks alone.
    pub fn blockers(&self, alloc: Global, task: Task) -> Result<Option<Vec<Task>>, AllocError>
        ensures { IfOk result (λ found.
            option_map (λ tasks. tasks.items) found ≡ blockers_if_present self.now.table task) }
    {
        match self.state(task) {
            Some(State::Hungry) => {
                Ok(Some(walk::tasks_around(alloc, &self.seats, &self.book, task.slot, true)?))
            }
            Some(_) => Ok(Some(Vec::new(alloc))),
            None => Ok(None),
        }
    }

    /// All tasks that may begin, the one with the earliest last meal first. An error is want of memory for the list.
    ///
    /// Tasks that lack a fork are passed over, 64 at once, as in [`Arbiter::next_ready`].
    pub fn ready(&self, alloc: Global) -> Result<Vec<Task>, AllocError>
        ensures { IfOk result (λ tasks. tasks.items ≡ ready_of self.now.table) }
    {
        let seats = &self.seats;
        let book = &self.book;
        let hungry = seats.hungry_slots();
        let mut search = Search::new(hungry);
        let mut tasks = Vec::new(alloc);
        while let Some(slot) = search.next(hungry, book) {
            tasks.push(seats.task_at(slot))?;
        }
        tasks.sort_unstable_by_key(|task| seats.stamp_at(task.slot));
        Ok(tasks)
    }
}
