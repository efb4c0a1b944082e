//! Why calls are refused, and the name that a newcomer gets.

ghost use Rattle.std.specs.Prelude.{◌≡◌, false, is_none};
ghost use Rattle.dine_words.specs.declared.call.Call.TheVariants as call;
ghost use Rattle.dine_table.specs.Table.{are_in_conflict, state_of};
ghost use Rattle.dine_table.specs.Calls.{newcomer, refusal_of, refusal_unless};
ghost use Rattle.dine_arbiter.specs.Arbitration.{early_refusal_of, refusal_of_two};

use super::Arbiter;
use dine_table::refusal_unless;
use dine_words::{Call, Refusal, State, Task};

impl Arbiter {
    // The first refusal that applies to a call.
    #[inline(always)]
    pub(super) fn refusal_of(&self, call: Call) -> Option<Refusal>
        ensures { result ≡ refusal_of self.now.table call }
    {
        match call {
            Call::Join if self.limits.tasks <= self.present => Some(Refusal::Full),
            Call::Join => None,
            Call::Leave(task) | Call::Hungry(task) => self.refusal_unless(State::Thinking, task),
            Call::Conflict(first, second) => self.refusal_of_conflict(first, second),
            Call::Separate(first, second) => self.refusal_of_separation(first, second),
            // Where it is built in, the state is looked at once: what comes of each answer follows without a second look.
            Call::Begin(task) => match self.refusal_unless(State::Hungry, task) {
                None if !self.is_ready(task) => Some(Refusal::NotYet),
                refusal => refusal,
            },
            Call::Finish(task) => self.refusal_unless(State::Eating, task),
            Call::Withdraw(task) => self.refusal_unless(State::Hungry, task),
        }
    }

    // The same but for a conflict that is to end: whether it is there is seen where its record is taken out, by one search.
    #[inline(always)]
    pub(super) fn early_refusal_of(&self, call: Call) -> Option<Refusal>
        ensures { result ≡ early_refusal_of self.now.table call }
    {
        match call {
            Call::Separate(first, second) => self.refusal_of_two(first, second),
            _ => self.refusal_of(call),
        }
    }

    // What a call answers on a task that has to be in a state.
    fn refusal_unless(&self, needed: State, task: Task) -> Option<Refusal>
        ensures { result ≡ refusal_unless needed (state_of self.now.table task) }
    {
        refusal_unless(needed, self.state(task))
    }

    // The name that the next task to join gets: the least free slot, and the clock.
    pub(super) fn newcomer(&self) -> Task
        ensures { result ≡ newcomer self.now.table }
    {
        Task {
            slot: self.seats.first_free(),
            born: self.clock,
        }
    }

    // What speaks against a new conflict between two tasks.
    fn refusal_of_conflict(&self, first: Task, second: Task) -> Option<Refusal>
        ensures { result ≡ refusal_of self.now.table (call.Conflict first second) }
    {
        if let Some(refusal) = self.refusal_of_two(first, second) {
            return Some(refusal);
        }
        if self.are_in_conflict(first, second) {
            return Some(Refusal::Already);
        }
        if self.state(first) == Some(State::Eating) && self.state(second) == Some(State::Eating) {
            return Some(Refusal::BothEating);
        }
        if self.book.is_full() {
            return Some(Refusal::NoRoom);
        }
        None
    }

    // What speaks against the end of a conflict between two tasks.
    fn refusal_of_separation(&self, first: Task, second: Task) -> Option<Refusal>
        ensures { result ≡ refusal_of self.now.table (call.Separate first second) }
    {
        match self.refusal_of_two(first, second) {
            None if !self.are_in_conflict(first, second) => Some(Refusal::Apart),
            refusal => refusal,
        }
    }

    // What speaks against a call on two tasks, whatever the call.
    #[inline(always)]
    fn refusal_of_two(&self, first: Task, second: Task) -> Option<Refusal>
        ensures { result ≡ refusal_of_two self.now.table first second }
    {
        // Nothing is read of the seats here: that each has one task tells that no two who are present have one slot.
        let _ = &self.seats;
        if self.state(first).is_none() || self.state(second).is_none() {
            Some(Refusal::Unknown)
        } else if first.slot == second.slot {
            Some(Refusal::Same)
        } else {
            None
        }
    }

    // Whether two tasks that are present are in conflict.
    fn are_in_conflict(&self, first: Task, second: Task) -> bool
        requires first { is_none (state_of self.now.table first) ≡ false }
        requires second { is_none (state_of self.now.table second) ≡ false }
        ensures { result ≡ are_in_conflict self.now.table first second }
    {
        self.book.find(first.slot, second.slot).is_some()
    }
}
