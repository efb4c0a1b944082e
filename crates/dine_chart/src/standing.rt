//! The arbiter after some entries of a journal, and who is present then.

ghost use Rattle.std.specs.Prelude.{◌≡◌, ◌++◌, ◌<◌, ◌-◌, ◌^◌, ◌∷◌, [], IfOk, OnOk, not};
ghost use Rattle.std.specs.List.{filter};
ghost use Rattle.dine_table.specs.Calls.{table_after_call};
ghost use Rattle.dine_table.specs.Table.{opening_table, same_task};
ghost use Rattle.dine_chart.specs.Graph.{order_after, order_after_done, present};
ghost use Rattle.dine_chart.specs.Reading.{IsLegalText};
ghost use Rattle.dine_chart.specs.Standing.{StandsAt};

use dine_arbiter::Arbiter;
use dine_words::{Call, Entry, Header, Limits, Reply, Task};
use std::alloc::{AllocError, Global};

/// The arbiter after some entries, and who is present then, the earliest last meal first.
#[derive(Drop)]
pub(crate) struct Standing {
    pub(crate) arbiter: Arbiter,
    pub(crate) order: Vec<Task>,
}

impl Standing {
    // Before the first entry.
    fn new(alloc: Global, limits: Limits) -> Result<Self, AllocError>
        ensures table { IfOk result (λ standing. standing.arbiter.table ≡ opening_table limits) }
        ensures order { IfOk result (λ standing.
            standing.order.items ≡ present standing.arbiter.table) }
    {
        Ok(Standing {
            arbiter: Arbiter::new(alloc, limits)?,
            order: Vec::new(alloc),
        })
    }

    // Makes the next call.
    fn take_in(&mut self, call: Call) -> Result<(), AllocError>
        requires clock { self.old.arbiter.table.clock < 2 ^ 64 - 1 }
        requires order { self.old.order.items ≡ present self.old.arbiter.table }
        ensures table { OnOk result (self.new.arbiter.table
            ≡ table_after_call self.old.arbiter.table call) }
        ensures order { OnOk result (self.new.order.items ≡ present self.new.arbiter.table) }
    {
        let reply = self.arbiter.apply(call);
        follow(&mut self.order, call, reply)
    }

    /// What stands after so many entries of the journal whose text this is, or after all of them where it has fewer.
    pub(crate) fn at(alloc: Global, text: &[u8], place: u64) -> Result<Self, AllocError>
        requires legal { IsLegalText text.now }
        ensures at { IfOk result (λ standing. StandsAt text.now place standing.arbiter.table) }
        ensures order { IfOk result (λ standing.
            standing.order.items ≡ present standing.arbiter.table) }
    {
        let Some((header, mut rest)) = Header::read_line(text) else {
            unreachable!()
        };
        let mut standing = Standing::new(alloc, header.limits)?;
        let mut done = 0;
        while done < place {
            let Some((entry, after)) = Entry::read_line::<4>(header.version, rest) else {
                return Ok(standing);
            };
            standing.take_in(entry.call)?;
            rest = after;
            done += 1;
        }
        Ok(standing)
    }
}

// What a call makes of the order, by its reply.
fn follow(order: &mut Vec<Task>, call: Call, reply: Reply) -> Result<(), AllocError>
    ensures { OnOk result (order.new.items ≡ order_after call reply order.old.items) }
{
    match reply {
        Reply::Joined(task) => append(order, task),
        Reply::Done => follow_done(order, call),
        Reply::Refused(_) => Ok(()),
    }
}

// What an accepted call makes of it.
fn follow_done(order: &mut Vec<Task>, call: Call) -> Result<(), AllocError>
    ensures { OnOk result (order.new.items ≡ order_after_done call order.old.items) }
{
    match call {
        Call::Leave(task) => {
            remove(order, task);
            Ok(())
        }
        Call::Finish(task) => {
            remove(order, task);
            append(order, task)
        }
        _ => Ok(()),
    }
}

// The order with one more at its end.
fn append(order: &mut Vec<Task>, task: Task) -> Result<(), AllocError>
    ensures { OnOk result (order.new.items ≡ order.old.items ++ task ∷ []) }
{
    order.push(task)?;
    Ok(())
}

// The order without a task.
fn remove(order: &mut Vec<Task>, task: Task)
    ensures { order.new.items ≡ filter (λ t. not (same_task t task)) order.old.items }
{
    order.retain(|other| *other != task);
}
