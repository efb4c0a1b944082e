//! A tick loop over an arbiter: it starts every task that may start.

ghost use Rattle.std.specs.Prelude.{◌≡◌, ◌≢◌, ◌<◌, ◌++◌, ◌∷◌, [], List, IfOk, OnErr, OnOk, Some, None, true, false, not};
ghost use Rattle.dine_words.specs.declared.task.Task.{Task};
ghost use Rattle.dine_table.specs.Calls.{changed_by, newcomer};
ghost use Rattle.dine_table.specs.Table.{are_in_conflict, next_ready_of, opening_table, same_task, state_of};
ghost use Rattle.std.specs.List.{filter};
ghost use Rattle.dine_uses.specs.Running.{hungry_in, runs};

use crate::calling::{carry_out, join};
use crate::use_fault::Fault;
use dine_arbiter::Arbiter;
use dine_words::{Call, Limits, State, Task};
use std::alloc::{AllocError, Global};
use std::marker::Model;

/// Tells which tasks run. Those that run are those that eat at its arbiter, so no two of them are in conflict.
#[derive(Drop)]
pub struct Scheduler {
    arbiter: Arbiter,
    running: Vec<Task>,
}

impl Model for Scheduler {
    ghost use Rattle.dine_uses.specs.Running.{IsScheduled, Scheduler as Schedule};

    ghost Value = { Schedule };

    ghost view = { λ s. record { table = s.arbiter.table; running = s.running.items } };

    ghost invariant = { λ s. IsScheduled s.arbiter.table s.running.items };
}

impl Scheduler {
    /// A scheduler with no task. An error is want of memory.
    pub fn new(alloc: Global, limits: Limits) -> Result<Scheduler, AllocError>
        ensures table { IfOk result (λ s. s.table ≡ opening_table limits) }
        ensures running { IfOk result (λ s. s.running ≡ []) }
    {
        Ok(Scheduler {
            arbiter: Arbiter::new(alloc, limits)?,
            running: Vec::new(alloc),
        })
    }

    /// Takes a new task in, which doesn't run yet.
    ///
    /// `Refused` is answered where as many tasks are present as the limits allow, and `ClockEnded` where the clock is at its
    /// end. Nothing has changed then.
    pub fn join(&mut self) -> Result<Task, Fault>
        ensures joined { IfOk result (λ task. task ≡ newcomer self.old.table) }
        ensures table { OnOk result (self.new.table ≡ changed_by self.old.table Call.Join) }
        ensures running { self.new.running ≡ self.old.running }
        ensures err { OnErr result (self.new ≡ self.old) }
    {
        let task = join(&mut self.arbiter)?;
        Ok(task)
    }

    /// From now on the two tasks don't run at the same time.
    ///
    /// `Refused` is answered where the arbiter refuses the conflict, as where both run, and `ClockEnded` where the clock is
    /// at its end. Nothing has changed then.
    pub fn keep_apart(&mut self, first: Task, second: Task) -> Result<(), Fault>
        ensures table { OnOk result (self.new.table ≡
            changed_by self.old.table (Call.Conflict first second)) }
        ensures running { self.new.running ≡ self.old.running }
        ensures err { OnErr result (self.new ≡ self.old) }
    {
        carry_out(&mut self.arbiter, Call::Conflict(first, second))?;
        Ok(())
    }

    /// The task wants to run, and a later tick starts it.
    ///
    /// `Refused` is answered where the task isn't present, wants to run already or runs, and `ClockEnded` where the clock is
    /// at its end. Nothing has changed then.
    pub fn wake(&mut self, task: Task) -> Result<(), Fault>
        ensures table { OnOk result
            (self.new.table ≡ changed_by self.old.table (Call.Hungry task)) }
        ensures running { self.new.running ≡ self.old.running }
        ensures err { OnErr result (self.new ≡ self.old) }
    {
        carry_out(&mut self.arbiter, Call::Hungry(task))?;
        Ok(())
    }

    /// Starts every task that may start, the one whose last meal is the earliest first. Those that ran before run still.
    ///
    /// An error is want of memory, or the end of the clock. Those that were started before it run.
    pub fn tick(&mut self) -> Result<(), Fault>
        ensures nobody_is_left { OnOk result (next_ready_of self.new.table ≡ None) }
        ensures started { (started : List Task) × (self.new.running ≡ self.old.running ++ started) }
        ensures conflicts { self.new.table.conflicts ≡ self.old.table.conflicts }
    {
        while let Some(task) = self.arbiter.next_ready() {
            self.start(task)?;
        }
        Ok(())
    }

    /// A task that runs has ended. A later tick starts those who waited for it.
    ///
    /// `Refused` is answered where the task doesn't run, and `ClockEnded` where the clock is at its end. Nothing has changed
    /// then.
    pub fn end(&mut self, task: Task) -> Result<(), Fault>
        ensures ran { OnOk result (runs self.old.running task ≡ true) }
        ensures ended { OnOk result (runs self.new.running task ≡ false) }
        ensures others { (u : Task) → u ≢ task →
            runs self.new.running u ≡ runs self.old.running u }
        ensures table { OnOk result
            (self.new.table ≡ changed_by self.old.table (Call.Finish task)) }
        ensures err { OnErr result (self.new ≡ self.old) }
    {
        carry_out(&mut self.arbiter, Call::Finish(task))?;
        take_off(&mut self.running, task);
        Ok(())
    }

    /// The tasks that run, in the order in which they were started.
    pub fn running(&self) -> &[Task]
        ensures running { result.now ≡ self.now.running }
        ensures they_eat { (u : Task) → runs self.now.running u ≡ true →
            state_of self.now.table u ≡ Some State.Eating }
        ensures apart { (u v : Task) → runs self.now.running u ≡ true →
            runs self.now.running v ≡ true → are_in_conflict self.now.table u v ≡ false }
    {
        self.running.as_slice()
    }

    // Starts the task that is to start next.
    fn start(&mut self, task: Task) -> Result<(), Fault>
        requires { next_ready_of self.old.table ≡ Some task }
        ensures running { OnOk result (self.new.running ≡ self.old.running ++ task ∷ []) }
        ensures fewer { OnOk result (hungry_in self.new.table < hungry_in self.old.table) }
        ensures conflicts { self.new.table.conflicts ≡ self.old.table.conflicts }
        ensures err { OnErr result (self.new ≡ self.old) }
    {
        self.running.reserve(1)?;
        carry_out(&mut self.arbiter, Call::Begin(task))?;
        self.running.push_reserved(task);
        Ok(())
    }
}

// Takes a task off a list.
fn take_off(running: &mut Vec<Task>, task: Task)
    ensures { running.new.items ≡
        filter (λ other. not (same_task other task)) running.old.items }
{
    running.retain(|other| differ(*other, task));
}

// Whether two tasks are different ones.
fn differ(first: Task, second: Task) -> bool
    ensures { result ≡ not (same_task first second) }
{
    first != second
}
