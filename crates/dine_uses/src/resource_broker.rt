//! A broker of resources over an arbiter: a client gets all that it asks for at once, or waits.

ghost use Rattle.std.specs.Prelude.{◌≡◌, ◌≢◌, ◌<◌, ◌^◌, ◌-◌, ℕ, Err, IfErr, IfOk, OnErr, OnOk, Some, None, option_map, take, true};
ghost use Rattle.dine_words.specs.declared.task.Task.{Task};
ghost use Rattle.dine_table.specs.Calls.{newcomer};
ghost use Rattle.dine_table.specs.Sound.{IsSound};
ghost use Rattle.dine_table.specs.Table.{are_in_conflict, next_ready_of, opening_table, state_of};
ghost use Rattle.dine_table.specs.Waiting.{blockers_if_present};
ghost use Rattle.dine_uses.specs.Requests.{HasRequested, IsAsBefore, with_rivals};

use crate::calling::{carry_out, join};
use crate::use_fault::Fault;
use dine_arbiter::Arbiter;
use dine_words::{Call, Limits, State, Task};
use std::alloc::{AllocError, Global};
use std::marker::Model;

// What is begun at this clock, or before, can be ended: a join, or a finish, moves the clock on by one.
const LAST_START: u64 = u64::MAX - 2;

/// Gives resources to clients. Two clients that ask for a common resource are rivals, and never hold what they asked for at
/// the same time.
#[derive(Drop)]
pub struct Broker {
    arbiter: Arbiter,
}

impl Model for Broker {
    ghost use Rattle.dine_table.specs.Sound.{IsSound};
    ghost use Rattle.dine_table.specs.Table.{Table};

    ghost Value = { Table };

    ghost view = { λ broker. broker.arbiter.table };

    ghost invariant = { λ broker. IsSound broker.arbiter.table };
}

impl Broker {
    /// A broker with no client. An error is want of memory, and no later call but [`Broker::waits_for`] wants any.
    pub fn new(alloc: Global, limits: Limits) -> Result<Broker, AllocError>
        ensures { IfOk result (λ broker. broker ≡ opening_table limits) }
    {
        Ok(Broker {
            arbiter: Arbiter::new(alloc, limits)?,
        })
    }

    /// A new client asks for its resources. Its rivals are the clients that hold or want one of them.
    ///
    /// An error is a refusal, or the end of the clock: there is no place for a client or for a rivalry, or a rival isn't a
    /// client, or stands twice among them. All is as it was before then.
    pub fn ask(&mut self, rivals: &[Task]) -> Result<Task, Fault>
        ensures asked { IfOk result (λ client. HasRequested self.old self.new client rivals.now) }
        ensures undone { OnErr result (IsAsBefore self.old self.new) }
        ensures ended { result ≡ Err Fault.ClockEnded → 2 ^ 64 - 3 < self.old.clock }
        ensures fault { IfErr result (λ fault. fault ≢ Fault.Memory) }
    {
        if self.arbiter.clock() > LAST_START {
            return Err(Fault::ClockEnded);
        }
        let newcomer = join(&mut self.arbiter)?;
        let apart = set_apart(&mut self.arbiter, newcomer, rivals);
        match apart {
            Ok(()) => {
                self.arbiter.apply(Call::Hungry(newcomer));
                Ok(newcomer)
            }
            Err(fault) => {
                self.arbiter.apply(Call::Leave(newcomer));
                Err(fault)
            }
        }
    }

    /// The client that is to be served next: of those who may get their resources, the one that waits the longest since it
    /// was served or came. `None` where each has to wait.
    pub fn next_client(&self) -> Option<Task>
        ensures { result ≡ next_ready_of self.now }
    {
        self.arbiter.next_ready()
    }

    /// For whom a client waits: its rivals that hold what they asked for, and those that are to be served before. `None`
    /// where it isn't a client. An error is want of memory for the list.
    pub fn waits_for(&self, alloc: Global, client: Task) -> Result<Option<Vec<Task>>, AllocError>
        ensures { IfOk result (λ found.
            option_map (λ tasks. tasks.items) found ≡ blockers_if_present self.now client) }
    {
        self.arbiter.blockers(alloc, client)
    }

    /// Gives a client what it asked for. An error says why not, and nothing has changed then: `NotYet` where a rival
    /// holds its own, or is to be served before.
    pub fn give(&mut self, client: Task) -> Result<(), Fault>
        ensures given { OnOk result (state_of self.new client ≡ Some State.Eating) }
        ensures alone { OnOk result ((rival : Task) → are_in_conflict self.new client rival ≡ true →
            state_of self.new rival ≢ Some State.Eating) }
        ensures others { (u : Task) → u ≢ client → state_of self.new u ≡ state_of self.old u }
        ensures err { OnErr result (self.new ≡ self.old) }
    {
        carry_out(&mut self.arbiter, Call::Begin(client))?;
        Ok(())
    }

    /// A client gives back what it holds, and is a client no more. An error says why not, and nothing has changed then.
    pub fn take_back(&mut self, client: Task) -> Result<(), Fault>
        ensures gone { OnOk result (state_of self.new client ≡ None) }
        ensures ended { result ≡ Err Fault.ClockEnded → 2 ^ 64 - 3 < self.old.clock }
        ensures others { (u : Task) → u ≢ client → state_of self.new u ≡ state_of self.old u }
        ensures err { OnErr result (self.new ≡ self.old) }
    {
        if self.arbiter.clock() > LAST_START {
            return Err(Fault::ClockEnded);
        }
        carry_out(&mut self.arbiter, Call::Finish(client))?;
        self.arbiter.apply(Call::Leave(client));
        Ok(())
    }
}

// Makes rivals of a client that has just come and of each of these. At an error it is a rival of some of them.
fn set_apart(arbiter: &mut Arbiter, client: Task, rivals: &[Task]) -> Result<(), Fault>
    ensures ok { OnOk result (arbiter.new.table ≡
        with_rivals arbiter.old.table client rivals.now) }
    ensures err { OnErr result ((n : ℕ) × (arbiter.new.table ≡
        with_rivals arbiter.old.table client (take n rivals.now))) }
    ensures sound { IsSound arbiter.old.table → IsSound arbiter.new.table }
    ensures fault { IfErr result (λ fault. fault ≢ Fault.Memory) }
    ensures ended { result ≡ Err Fault.ClockEnded → arbiter.old.table.clock ≡ 2 ^ 64 - 1 }
{
    for rival in rivals {
        carry_out(arbiter, Call::Conflict(client, *rival))?;
    }
    Ok(())
}
