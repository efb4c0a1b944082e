//! An arbiter with its stored history.

ghost use Rattle.std.specs.Prelude.{◌≡◌, ◌≢◌, ◌<◌, ◌≤◌, ◌↔◌, [], ◌∷◌, ◌++◌, IfOk, IsOk, IsSome, IsTrue, Some, OnErr, OnOk, length, option_map};
ghost use Rattle.dine_table.specs.Calls.{reply_of};
ghost use Rattle.dine_table.specs.History.{IsLegal};
ghost use Rattle.dine_table.specs.Table.{is_ready, neighbours_if_present, next_ready_of, state_of};
ghost use Rattle.dine_table.specs.Waiting.{blockers_if_present, ready_of};
ghost use Rattle.dine_journal.specs.Costs.{last_cost};
ghost use Rattle.dine_journal.specs.Kept.{table_now};

use crate::flat_history::FlatHistory;
use crate::journal::Journal;
use crate::views::Entries;
use dine_arbiter::Arbiter;
use dine_words::{Call, Entry, Limits, Refusal, Reply, State, Task};
use std::alloc::{AllocError, Global};
use std::marker::Model;

/// What a hall answers to a call.
#[derive(Clone, Copy, Debug, PartialEq, Eq, Hash)]
pub struct Answer {
    /// The place of the call in the history, counted from 0.
    pub place: u64,
    pub reply: Reply,
}

/// An arbiter that keeps the history of its calls. Each call is one entry, refused ones too, and each reply is that of the
/// table of last meals.
#[derive(Drop)]
pub struct Hall {
    limits: Limits,
    history: FlatHistory,
    arbiter: Arbiter,
}

impl Model for Hall {
    ghost use Rattle.dine_journal.specs.Kept.{Hall as KeptHistory, IsKeptHall};

    ghost Value = { KeptHistory };

    ghost view = { λ hall.
        record {
          limits = hall.limits;
          history = hall.history.entries;
          room = hall.history.room;
        } };

    ghost invariant = { λ hall.
        IsKeptHall hall.limits hall.history.entries hall.arbiter.table hall.arbiter.messages };
}

impl Hall {
    /// A hall with no entry. An error is want of memory.
    pub fn new(alloc: Global, limits: Limits) -> Result<Self, AllocError>
        ensures limits { IfOk result (λ hall. hall.limits ≡ limits) }
        ensures history { IfOk result (λ hall. hall.history ≡ []) }
    {
        Ok(Hall {
            limits,
            history: FlatHistory::new(alloc),
            arbiter: Arbiter::new(alloc, limits)?,
        })
    }

    /// Makes a call for a pass, and writes it into the history with its reply.
    ///
    /// An error is want of memory, and comes only where there was no room. The call is not made then, and is in no history.
    #[tactic(auto, using(crate::proofs::Growth::growth))]
    pub fn act(&mut self, pass: u32, call: Call) -> Result<Answer, AllocError>
        ensures limits { self.new.limits ≡ self.old.limits }
        ensures place { IfOk result (λ answer. answer.place ≡ length self.old.history) }
        ensures reply { IfOk result (λ answer. answer.reply ≡ reply_of (table_now self.old) call) }
        ensures entry { IfOk result (λ answer. self.new.history ≡
            self.old.history ++ record { pass = pass; call = call; reply = answer.reply } ∷ []) }
        ensures room { 0 < self.old.room → IsOk result }
        ensures err { OnErr result (self.new ≡ self.old) }
    {
        self.reserve()?;
        let place = self.history.len() as u64;
        let reply = self.arbiter.apply(call);
        self.history.append(Entry { pass, call, reply });
        Ok(Answer { place, reply })
    }

    /// Makes the call of an entry whose reply is known: [`Hall::reply_to`] gave it, and no call was made since. There is
    /// room for the entry, so it does what [`Hall::act`] does and needs no memory, and it decides nothing again.
    #[tactic(auto, using(crate::proofs::Growth::growth))]
    #[inline(always)]
    pub fn act_answered(&mut self, entry: Entry) -> Answer
        requires room { 0 < self.old.room }
        requires reply { entry.reply ≡ reply_of (table_now self.old) entry.call }
        ensures limits { self.new.limits ≡ self.old.limits }
        ensures answer { result ≡ record { place = length self.old.history; reply = entry.reply } }
        ensures entry { self.new.history ≡ self.old.history ++ entry ∷ [] }
    {
        let answer = Answer {
            place: self.history.len() as u64,
            reply: entry.reply,
        };
        self.arbiter.apply_answered(entry.call, entry.reply);
        self.history.append(entry);
        answer
    }

    /// Makes room for one more entry. An error is want of memory, and there is no more room than before then.
    pub fn reserve(&mut self) -> Result<(), AllocError>
        ensures limits { self.new.limits ≡ self.old.limits }
        ensures history { self.new.history ≡ self.old.history }
        ensures room { OnOk result (0 < self.new.room) }
        ensures full { OnErr result (self.old.room ≡ 0) }
        ensures err { OnErr result (self.new ≡ self.old) }
    {
        self.history.reserve()
    }

    /// Whether there is room for one more entry, so that [`Hall::act`] needs no memory.
    pub fn has_room(&self) -> bool
        ensures { IsTrue result ↔ (0 < self.now.room) }
    {
        self.history.has_room()
    }

    /// The reply that the call would get now. Nothing changes.
    #[inline(always)]
    pub fn reply_to(&self, call: Call) -> Reply
        ensures { result ≡ reply_of (table_now self.now) call }
    {
        self.arbiter.reply_to(call)
    }

    /// Whether the task is hungry and lacks a fork, so that a `Begin` would be answered `NotYet`.
    pub fn would_wait(&self, task: Task) -> bool
        ensures { IsTrue result ↔
            (reply_of (table_now self.now) (Call.Begin task) ≡ Reply.Refused Refusal.NotYet) }
    {
        self.reply_to(Call::Begin(task)) == Reply::Refused(Refusal::NotYet)
    }

    /// The state of a task, or `None` where it isn't present.
    pub fn state(&self, task: Task) -> Option<State>
        ensures { result ≡ state_of (table_now self.now) task }
    {
        self.arbiter.state(task)
    }

    /// Whether a task is hungry and holds all its forks. `false` for a task that isn't present.
    pub fn is_ready(&self, task: Task) -> bool
        ensures { result ≡ is_ready (table_now self.now) task }
    {
        self.arbiter.is_ready(task)
    }

    /// The ready task whose last meal is the earliest, or `None` where no task is ready. Where a task is hungry and nobody
    /// eats, some task is ready.
    pub fn next_ready(&self) -> Option<Task>
        ensures next { result ≡ next_ready_of (table_now self.now) }
        ensures somebody { (u : Task) → state_of (table_now self.now) u ≡ Some State.Hungry →
            ((v : Task) → state_of (table_now self.now) v ≢ Some State.Eating) → IsSome result }
    {
        self.arbiter.next_ready()
    }

    /// How many joins and finishes were accepted so far. It is at most the number of entries.
    #[tactic(auto, using(crate::proofs::Growth::growth))]
    pub fn clock(&self) -> u64
        ensures clock { result ≡ (table_now self.now).clock }
        ensures bound { result ≤ length self.now.history }
    {
        self.arbiter.clock()
    }

    /// How many tokens and forks were sent by the last call: 0 where it was refused, or where there was none.
    pub fn messages(&self) -> u32
        ensures { result ≡ last_cost self.now.limits self.now.history }
    {
        self.arbiter.messages()
    }

    /// The tasks that a task is in conflict with, in the order in which the conflicts were declared, or `None` where the
    /// task isn't present. An error is want of memory for the list.
    pub fn neighbours(&self, alloc: Global, task: Task) -> Result<Option<Vec<Task>>, AllocError>
        ensures { IfOk result (λ found.
            option_map (λ tasks. tasks.items) found
            ≡ neighbours_if_present (table_now self.now) task) }
    {
        self.arbiter.neighbours(alloc, task)
    }

    /// The tasks for which a hungry task waits: its neighbours that eat, and those that are hungry with an earlier last
    /// meal, in the order in which the conflicts were declared. There are none for a task that isn't hungry, or that may
    /// begin. `None` where the task isn't present. An error is want of memory for the list.
    pub fn blockers(&self, alloc: Global, task: Task) -> Result<Option<Vec<Task>>, AllocError>
        ensures { IfOk result (λ found.
            option_map (λ tasks. tasks.items) found
            ≡ blockers_if_present (table_now self.now) task) }
    {
        self.arbiter.blockers(alloc, task)
    }

    /// All tasks that are ready, the one with the earliest last meal first. An error is want of memory for the list.
    pub fn ready(&self, alloc: Global) -> Result<Vec<Task>, AllocError>
        ensures { IfOk result (λ tasks. tasks.items ≡ ready_of (table_now self.now)) }
    {
        self.arbiter.ready(alloc)
    }

    /// The limits of the table.
    pub fn limits(&self) -> Limits
        ensures { result ≡ self.now.limits }
    {
        self.limits
    }

    /// The entries so far, in order. Each has the reply of the table that the entries before it leave.
    pub fn history(&self) -> Entries<'_>
        ensures history { result ≡ self.now.history }
        ensures legal { IsLegal self.now.limits self.now.history }
    {
        self.history.entries()
    }

    /// The history as a journal. It takes no memory.
    pub fn into_journal(self) -> Journal
        ensures limits { result.limits ≡ self.limits }
        ensures entries { result.entries ≡ self.history }
        ensures legal { IsLegal self.limits self.history }
    {
        let Hall {
            limits,
            history,
            arbiter: _,
        } = self;
        Journal::new(limits, history)
    }
}
