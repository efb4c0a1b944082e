//! Begins that wait, and what it is to make them.

ghost use Rattle.std.specs.Prelude.{◌≡◌, ◌++◌, ◌+◌, ◌*◌, ◌-◌, ◌<◌, ◌≤◌, ◌^◌, ◌∷◌, [], map, vec_capacity, vec_len};
ghost use Rattle.dine_table.specs.Calls.{has_to_wait, table_after_call};
ghost use Rattle.dine_words.specs.Texts.{AppendsUpTo, entry_text, text_of_lines};
ghost use Rattle.dine_serve.specs.Answers.{entry_in};
ghost use Rattle.dine_serve.specs.Queues.{IsKept, IsRetried, in_order};
ghost use Rattle.dine_serve.specs.Receipts.{settled};
ghost use Rattle.dine_serve.specs.Waits.{begun_from, receipts_begun, still_waiting, table_begun};

use crate::answer_texts::put_begin_line;
use crate::due::first_due;
use crate::receipts::{Receipt, settle};
use crate::waiters::Waiters;
use dine_arbiter::Arbiter;
use dine_words::{Call, Entry, MAX_ENTRY_LINE, Refusal, Reply, Task};

/// A begin that waits: it is made as soon as it would be answered otherwise than `not-yet`.
#[derive(Clone, Copy, Debug, PartialEq, Eq, Hash)]
pub struct Await {
    /// The number of the pass that asked for it.
    pub pass: u32,
    /// The task that is to begin.
    pub task: Task,
    /// The number of that request, where requests have numbers.
    pub number: Option<u64>,
}

/// Whether whoever begins a task has to wait.
#[inline(always)]
pub fn has_to_wait(arbiter: &Arbiter, task: Task) -> bool
    ensures { result ≡ has_to_wait arbiter.now.table task }
{
    matches!(
        arbiter.reply_to(Call::Begin(task)),
        Reply::Refused(Refusal::NotYet)
    )
}

/// Makes each begin that has to wait no longer after a call, in the order of last meals, and appends the lines of their
/// entries, for which there is room. Each entry is put on the receipt of its pass, where the pass has asked for no more
/// since.
pub fn begin_waiting(
    arbiter: &mut Arbiter,
    waiters: &mut Waiters,
    receipts: &mut Vec<Option<Receipt>>,
    call: Call,
    out: &mut Vec<u8>,
)
    requires clock { arbiter.old.table.clock < 2 ^ 64 - 1 }
    requires retried { IsRetried arbiter.old.table call waiters.old }
    requires room { vec_len out.old + MAX_ENTRY_LINE * waiters.old.len ≤ vec_capacity out.old }
    ensures table { arbiter.new.table
        ≡ table_begun arbiter.old.table (in_order arbiter.old.table.order waiters.old.rows) }
    ensures left { in_order arbiter.new.table.order waiters.new.rows
        ≡ still_waiting arbiter.old.table (in_order arbiter.old.table.order waiters.old.rows) }
    ensures receipts { receipts.new.items ≡ receipts_begun arbiter.old.table
        (in_order arbiter.old.table.order waiters.old.rows) receipts.old.items }
    ensures said { out.new.items ≡ out.old.items
        ++ text_of_lines (map entry_text (begun_from arbiter.old.table
        (in_order arbiter.old.table.order waiters.old.rows))) }
    ensures kept { IsKept arbiter.new.table waiters.new }
{
    let mut last = None;
    while let Some(awaited) = first_due(arbiter, waiters, call, last) {
        begin(arbiter, awaited, receipts, out);
        let slot = awaited.task.slot;
        waiters.take_first(slot);
        last = Some(slot);
    }
}

// Makes a begin that waited, appends its line, for which there is room, and puts its entry on the receipt.
fn begin(
    arbiter: &mut Arbiter,
    awaited: Await,
    receipts: &mut Vec<Option<Receipt>>,
    out: &mut Vec<u8>,
)
    requires clock { arbiter.old.table.clock < 2 ^ 64 - 1 }
    requires room { vec_len out.old + MAX_ENTRY_LINE ≤ vec_capacity out.old }
    ensures table { arbiter.new.table
        ≡ table_after_call arbiter.old.table (Call.Begin awaited.task) }
    ensures clock { arbiter.new.table.clock ≡ arbiter.old.table.clock }
    ensures receipts { receipts.new.items ≡ settled receipts.old.items awaited
        (entry_in arbiter.old.table awaited.pass (Call.Begin awaited.task)) }
    ensures said { AppendsUpTo MAX_ENTRY_LINE (text_of_lines (entry_text
        (entry_in arbiter.old.table awaited.pass (Call.Begin awaited.task)) ∷ []))
        out.old out.new }
{
    let call = Call::Begin(awaited.task);
    let reply = arbiter.reply_to(call);
    let pass = awaited.pass;
    let entry = Entry { pass, call, reply };
    put_begin_line(out, pass, awaited.task, reply);
    arbiter.apply_answered(call, reply);
    settle(receipts, awaited, entry);
}
