//! What a call draws beside bars, and how many tasks it may change.

ghost use Rattle.std.specs.Prelude.{◌≡◌, ◌+◌, ◌<◌, ◌≤◌, ◌^◌, ◌++◌, None, is_some, length, option_to_list, true, vec_capacity, vec_len};
ghost use Rattle.dine_table.specs.Calls.{refusal_of, reply_of};
ghost use Rattle.dine_table.specs.Table.{state_of};
ghost use Rattle.dine_bars.specs.Begun.{SlotsBelow};
ghost use Rattle.dine_bars.specs.Marks.{beside, looked_at, looked_at_by, mark_of_done, marks_of_call};

use crate::mark::{ConflictMark, Mark, RefusedCall, TaskMark};
use dine_arbiter::Arbiter;
use dine_words::{Call, Entry, Reply, Task};

/// How many tasks may do something else after a call whose reply is known: no other does.
pub(crate) fn most_looks(arbiter: &Arbiter, call: Call, reply: Reply) -> usize
    requires below { SlotsBelow arbiter.now.table.limits.tasks arbiter.now.table.order }
    requires reply { reply ≡ reply_of arbiter.now.table call }
    ensures looks { result ≡ length (looked_at_by arbiter.now.table call) }
    ensures few { result < 2 ^ 33 }
{
    match reply {
        Reply::Refused(_) => 0,
        Reply::Joined(_) | Reply::Done => most_of_accepted(arbiter, call),
    }
}

// How many tasks may do something else after a call that is accepted.
fn most_of_accepted(arbiter: &Arbiter, call: Call) -> usize
    requires below { SlotsBelow arbiter.now.table.limits.tasks arbiter.now.table.order }
    requires accepted { refusal_of arbiter.now.table call ≡ None }
    ensures looks { result ≡ length (looked_at arbiter.now.table call) }
    ensures few { result < 2 ^ 33 }
{
    match call {
        Call::Join | Call::Leave(_) => 0,
        Call::Conflict(_, _) | Call::Separate(_, _) => 2,
        Call::Hungry(task) | Call::Begin(task) | Call::Finish(task) | Call::Withdraw(task) => {
            count_beside(arbiter, task)
        }
    }
}

// How many neighbours a task has that is present, and the task.
fn count_beside(arbiter: &Arbiter, task: Task) -> usize
    requires below { SlotsBelow arbiter.now.table.limits.tasks arbiter.now.table.order }
    requires here { is_some (state_of arbiter.now.table task) ≡ true }
    ensures count { result ≡ length (beside arbiter.now.table task) }
    ensures few { result < 2 ^ 33 }
{
    arbiter.book().degree(task.slot) as usize + 1
}

/// Adds what a call draws by its reply, beside bars. There is room for a mark.
pub(crate) fn push_mark_of_call(marks: &mut Vec<Mark>, place: u64, entry: Entry, reply: Reply)
    requires { vec_len marks.old < vec_capacity marks.old }
    ensures marks { marks.new.items
        ≡ marks.old.items ++ marks_of_call place entry.pass entry.call reply }
    ensures len { vec_len marks.new ≤ vec_len marks.old + 1 }
    ensures room { vec_capacity marks.new ≡ vec_capacity marks.old }
{
    if let Some(mark) = mark_of_call(place, entry, reply) {
        marks.push_reserved(mark);
    }
}

// What a call draws by its reply, beside bars.
fn mark_of_call(place: u64, entry: Entry, reply: Reply) -> Option<Mark>
    ensures { option_to_list result ≡ marks_of_call place entry.pass entry.call reply }
{
    match reply {
        Reply::Joined(task) => Some(Mark::Joined(TaskMark { task, place })),
        Reply::Done => mark_of_done(place, entry.call),
        Reply::Refused(refusal) => Some(Mark::Refused(RefusedCall {
            place,
            pass: entry.pass,
            call: entry.call,
            refusal,
        })),
    }
}

// What an accepted call draws beside bars.
fn mark_of_done(place: u64, call: Call) -> Option<Mark>
    ensures { option_to_list result ≡ mark_of_done place call }
{
    match call {
        Call::Leave(task) => Some(Mark::Left(TaskMark { task, place })),
        Call::Conflict(first, second) => Some(Mark::Declared(ConflictMark {
            first,
            second,
            place,
        })),
        Call::Separate(first, second) => Some(Mark::Separated(ConflictMark {
            first,
            second,
            place,
        })),
        Call::Join | Call::Hungry(_) | Call::Begin(_) | Call::Finish(_) | Call::Withdraw(_) => None,
    }
}
