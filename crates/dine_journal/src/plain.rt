//! The table of last meals as a plain slow program, without forks. It is what every faster body is compared with.

mod order;

ghost use Rattle.std.specs.Prelude.{◌≡◌, ◌<◌, ◌^◌, ◌-◌, false, IfOk, OnOk, OnErr, option_map};
ghost use Rattle.dine_table.specs.Table.{is_ready, neighbours_if_present, next_ready_of, opening_table, state_of};
ghost use Rattle.dine_table.specs.Waiting.{blockers_if_present, ready_of};
ghost use Rattle.dine_table.specs.Calls.{acceptance_of, changed_by, is_absent, is_full, newcomer, refusal_of, refusal_unless, reply_of, table_after_call};

use dine_table::refusal_unless;
use dine_words::{Call, Diner, Limits, Refusal, Reply, State, Task};
use std::alloc::{AllocError, Global};
use std::marker::Model;

/// The table of last meals: who is present, in the order of last meals, and who is in conflict with whom.
///
/// The order restates the order of priority of the 1984 paper. Joining, leaving, new conflicts and separation are this
/// project's own. Each question takes time in the number of tasks and conflicts: the table is there to be plain.
#[derive(Drop)]
pub struct PlainTable {
    order: Vec<Diner>,
    conflicts: Vec<(Task, Task)>,
    clock: u64,
    limits: Limits,
}

impl Model for PlainTable {
    ghost use Rattle.dine_table.specs.Table.{Table};

    ghost Value = { Table };

    ghost view = { λ table.
        record {
          order = table.order.items;
          conflicts = table.conflicts.items;
          clock = table.clock;
          limits = table.limits;
        } };
}

impl PlainTable {
    /// A table at which nobody is present. It takes no memory yet, and takes it from `alloc` as it grows.
    pub fn new(alloc: Global, limits: Limits) -> Self
        ensures { result ≡ opening_table limits }
    {
        PlainTable {
            order: Vec::new(alloc),
            conflicts: Vec::new(alloc),
            clock: 0,
            limits,
        }
    }

    /// How many tasks may be present and how many conflicts may stand at once.
    pub fn limits(&self) -> Limits
        ensures { result ≡ self.now.limits }
    {
        self.limits
    }

    /// How many joins and finishes were accepted so far.
    pub fn clock(&self) -> u64
        ensures { result ≡ self.now.clock }
    {
        self.clock
    }

    /// The state of a task, or `None` where it isn't present.
    pub fn state(&self, task: Task) -> Option<State>
        ensures { result ≡ state_of self.now task }
    {
        order::state_in(&self.order, task)
    }

    /// Whether a task is hungry, and no neighbour keeps it from eating: none eats, and no hungry one ate less recently.
    /// `false` for a task that isn't present.
    pub fn is_ready(&self, task: Task) -> bool
        ensures { result ≡ is_ready self.now task }
    {
        order::is_in(&self.order, task, State::Hungry)
            && !order::has_to_wait(&self.order, &self.conflicts, task)
    }

    /// The ready task whose last meal is the earliest, or `None` where no task is ready.
    pub fn next_ready(&self) -> Option<Task>
        ensures { result ≡ next_ready_of self.now }
    {
        self.order
            .iter()
            .find(|diner| self.is_ready(diner.task))
            .map(|diner| diner.task)
    }

    /// The tasks that a task is in conflict with, in the order in which the conflicts were declared, or `None` where the
    /// task isn't present. An error is want of memory for the list.
    pub fn neighbours(&self, alloc: Global, task: Task) -> Result<Option<Vec<Task>>, AllocError>
        ensures { IfOk result (λ found.
            option_map (λ tasks. tasks.items) found ≡ neighbours_if_present self.now task) }
    {
        if self.is_absent(task) {
            return Ok(None);
        }
        Ok(Some(order::neighbours_in(alloc, &self.conflicts, task)?))
    }

    /// The tasks for which a hungry task waits: its neighbours that eat, and those that are hungry and ate less recently, in
    /// the order in which the conflicts were declared. There are none for a task that isn't hungry. `None` where the task
    /// isn't present. An error is want of memory for the list.
    pub fn blockers(&self, alloc: Global, task: Task) -> Result<Option<Vec<Task>>, AllocError>
        ensures { IfOk result (λ found.
            option_map (λ tasks. tasks.items) found ≡ blockers_if_present self.now task) }
    {
        match self.state(task) {
            Some(State::Hungry) => Ok(Some(order::blockers_in(
                alloc,
                &self.order,
                &self.conflicts,
                task,
            )?)),
            Some(_) => Ok(Some(Vec::new(alloc))),
            None => Ok(None),
        }
    }

    /// All tasks that are ready, the one with the earliest last meal first. An error is want of memory for the list.
    pub fn ready(&self, alloc: Global) -> Result<Vec<Task>, AllocError>
        ensures { IfOk result (λ tasks. tasks.items ≡ ready_of self.now) }
    {
        self.order
            .iter()
            .filter(|diner| self.is_ready(diner.task))
            .map(|diner| diner.task)
            .collect(alloc)
    }

    /// The reply that [`PlainTable::apply`] would give. Nothing changes.
    pub fn reply_to(&self, call: Call) -> Reply
        ensures { result ≡ reply_of self.now call }
    {
        match (self.refusal_of(call), call) {
            (Some(refusal), _) => Reply::Refused(refusal),
            (None, Call::Join) => Reply::Joined(self.newcomer()),
            (
                None,
                Call::Hungry(_)
                | Call::Begin(_)
                | Call::Finish(_)
                | Call::Withdraw(_)
                | Call::Leave(_)
                | Call::Conflict(_, _)
                | Call::Separate(_, _),
            ) => Reply::Done,
        }
    }

    /// Makes a call, and answers it.
    ///
    /// The answer is the first refusal of the call that applies, and a refused call changes nothing. `Full`: all slots
    /// are used. `Unknown`: a named task isn't present. `Same`: both names are equal. `Already`: the conflict stands.
    /// `Apart`: there is no such conflict to take away. `BothEating`: both ends of the conflict eat. `NoRoom`: as many
    /// conflicts stand as the limit allows. `WrongState`: the task is in another state than the call needs. `NotYet`: the
    /// task is hungry and not ready. Otherwise the call is carried out, and answered `Joined` for a join, else `Done`.
    ///
    /// An error is want of memory, and nothing is changed then.
    pub fn apply(&mut self, call: Call) -> Result<Reply, AllocError>
        requires { self.old.clock < 2 ^ 64 - 1 }
        ensures reply { IfOk result (λ reply. reply ≡ reply_of self.old call) }
        ensures table { OnOk result (self.new ≡ table_after_call self.old call) }
        ensures err { OnErr result (self.new ≡ self.old) }
    {
        match self.refusal_of(call) {
            Some(refusal) => Ok(Reply::Refused(refusal)),
            None => self.accept(call),
        }
    }

    // What a call on a task that has to be in a state answers.
    fn refusal_unless(&self, needed: State, task: Task) -> Option<Refusal>
        ensures { result ≡ refusal_unless needed (state_of self.now task) }
    {
        refusal_unless(needed, self.state(task))
    }

    // Whether a task isn't present.
    fn is_absent(&self, task: Task) -> bool
        ensures { result ≡ is_absent self.now task }
    {
        self.state(task).is_none()
    }

    // Why the call is refused, if it is.
    fn refusal_of(&self, call: Call) -> Option<Refusal>
        ensures { result ≡ refusal_of self.now call }
    {
        match call {
            Call::Join if self.order.len() >= self.limits.tasks as usize => Some(Refusal::Full),
            Call::Join => None,
            Call::Leave(task) | Call::Hungry(task) => self.refusal_unless(State::Thinking, task),
            Call::Conflict(a, b) => self.refusal_of_conflict(a, b),
            Call::Separate(a, b) => self.refusal_of_separate(a, b),
            Call::Begin(task) => self.refusal_of_begin(task),
            Call::Finish(task) => self.refusal_unless(State::Eating, task),
            Call::Withdraw(task) => self.refusal_unless(State::Hungry, task),
        }
    }

    // Why a hungry task may not begin, if it may not.
    fn refusal_of_begin(&self, task: Task) -> Option<Refusal>
        ensures { result ≡ refusal_of self.now (Call.Begin task) }
    {
        match self.refusal_unless(State::Hungry, task) {
            Some(refusal) => Some(refusal),
            None if self.is_ready(task) => None,
            None => Some(Refusal::NotYet),
        }
    }

    // Why there is no conflict to be made, if there is none.
    fn refusal_of_conflict(&self, a: Task, b: Task) -> Option<Refusal>
        ensures { result ≡ refusal_of self.now (Call.Conflict a b) }
    {
        if self.is_absent(a) || self.is_absent(b) {
            Some(Refusal::Unknown)
        } else if a == b {
            Some(Refusal::Same)
        } else if order::are_in_conflict(&self.conflicts, a, b) {
            Some(Refusal::Already)
        } else if order::is_in(&self.order, a, State::Eating)
            && order::is_in(&self.order, b, State::Eating)
        {
            Some(Refusal::BothEating)
        } else if self.conflicts.len() >= self.limits.conflicts as usize {
            Some(Refusal::NoRoom)
        } else {
            None
        }
    }

    // Why there is no conflict to be taken away, if there is none.
    fn refusal_of_separate(&self, a: Task, b: Task) -> Option<Refusal>
        ensures { result ≡ refusal_of self.now (Call.Separate a b) }
    {
        if self.is_absent(a) || self.is_absent(b) {
            Some(Refusal::Unknown)
        } else if a == b {
            Some(Refusal::Same)
        } else if order::are_in_conflict(&self.conflicts, a, b) {
            None
        } else {
            Some(Refusal::Apart)
        }
    }

    // What an accepted call does.
    fn accept(&mut self, call: Call) -> Result<Reply, AllocError>
        requires clock { self.old.clock < 2 ^ 64 - 1 }
        requires accepted { refusal_of self.old call ≡ None }
        ensures reply { IfOk result (λ reply. reply ≡ acceptance_of self.old call) }
        ensures table { OnOk result (self.new ≡ changed_by self.old call) }
        ensures err { OnErr result (self.new ≡ self.old) }
    {
        match call {
            Call::Join => return self.join(),
            Call::Leave(task) => {
                order::take_out(&mut self.order, task);
                order::take_conflicts_of_out(&mut self.conflicts, task);
            }
            Call::Conflict(a, b) => self.conflicts.push((a, b))?,
            Call::Separate(a, b) => order::take_conflict_out(&mut self.conflicts, a, b),
            Call::Hungry(task) => order::set_state(&mut self.order, task, State::Hungry),
            Call::Begin(task) => order::set_state(&mut self.order, task, State::Eating),
            Call::Finish(task) => {
                order::move_last(&mut self.order, task)?;
                self.clock += 1;
            }
            Call::Withdraw(task) => order::set_state(&mut self.order, task, State::Thinking),
        }
        Ok(Reply::Done)
    }

    // The name that the next task to join gets.
    fn newcomer(&self) -> Task
        requires { is_full self.now ≡ false }
        ensures { result ≡ newcomer self.now }
    {
        Task {
            slot: order::free_slot(&self.order),
            born: self.clock,
        }
    }

    // Adds a task at the end of the order.
    fn join(&mut self) -> Result<Reply, AllocError>
        requires clock { self.old.clock < 2 ^ 64 - 1 }
        requires accepted { refusal_of self.old Call.Join ≡ None }
        ensures reply { IfOk result (λ reply. reply ≡ acceptance_of self.old Call.Join) }
        ensures table { OnOk result (self.new ≡ changed_by self.old Call.Join) }
        ensures err { OnErr result (self.new ≡ self.old) }
    {
        let task = self.newcomer();
        self.order.push(Diner {
            task,
            state: State::Thinking,
        })?;
        self.clock += 1;
        Ok(Reply::Joined(task))
    }
}
