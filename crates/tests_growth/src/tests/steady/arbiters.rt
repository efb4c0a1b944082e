//! An arbiter: calls that are drawn, questions, and edges.

use super::{begins, ends};
use crate::tests::same::same;
use dine_arbiter::{Arbiter, settle_edge};
use dine_forks::Fork;
use dine_words::{Call, Limits, Reply, State, Task};
use std::alloc::Global;
use std::process::Abort;
use tests_kit::{Draw, Host, draw_call};

// The most tasks and conflicts of a table, and how many calls are drawn.
type Table = (u32, u32, u32);

// Of few tasks both limits are reached over and over, and of many the sets of slots have several words.
const TABLES: [Table; 3] = [(6, 8, 4_000), (200, 500, 20_000), (4_096, 65_535, 20_000)];

const NOBODY: Task = Task { slot: 0, born: 7 };

// A task that is present, or one that isn't.
fn draw_task(arbiter: &Arbiter, draw: &mut Draw) -> Task {
    let slot = draw.below(arbiter.limits().tasks as usize);
    match u32::try_from(slot) {
        Ok(slot) => arbiter.task_at(slot).unwrap_or(NOBODY),
        Err(_) => NOBODY,
    }
}

// Makes a call, whose reply is known or isn't, and says whether it was accepted.
fn make_call(rt: &impl Abort, arbiter: &mut Arbiter, call: Call, is_known: bool) -> bool {
    assert!(rt; arbiter.clock() < 1_000_000);
    let reply = arbiter.reply_to(call);
    if is_known {
        arbiter.apply_answered(call, reply);
    } else {
        same(rt, arbiter.apply(call), reply);
    }
    !matches!(reply, Reply::Refused(_))
}

// Asks what can be asked of an arbiter and of two tasks. Who is ready is hungry.
fn ask(rt: &impl Abort, arbiter: &Arbiter, task: Task, other: Task) {
    let _ = arbiter.has_hungry_neighbour(task);
    let _ = arbiter.stands_before(task, other);
    let is_hungry = arbiter.state(task) == Some(State::Hungry);
    assert!(rt; is_hungry || !arbiter.is_ready(task));
    assert!(rt; arbiter.book().len() <= arbiter.limits().conflicts);
    let _ = (arbiter.messages(), arbiter.next_ready());
}

// Settles a drawn fork between the states of two tasks that are present.
fn settle(arbiter: &Arbiter, draw: &mut Draw, task: Task, other: Task) {
    let fork = Fork {
        at_first: draw.below(2) == 0,
        dirty: draw.below(2) == 0,
        token_first: draw.below(2) == 0,
    };
    if let (Some(first), Some(second)) = (arbiter.state(task), arbiter.state(other)) {
        let _ = settle_edge(fork, first, second);
    }
}

// Makes drawn calls, asks after each, and settles an edge. Says how many were accepted.
fn make_calls(rt: &impl Abort, arbiter: &mut Arbiter, calls: u32) -> u32 {
    let mut draw = Draw { state: 1984 };
    let mut accepted: u32 = 0;
    for turn in 0..calls {
        let first = draw_task(arbiter, &mut draw);
        let second = draw_task(arbiter, &mut draw);
        let call = draw_call(&mut draw, first, second);
        if make_call(rt, arbiter, call, turn % 3 == 0) {
            accepted = accepted.saturating_add(1);
        }
        let task = draw_task(arbiter, &mut draw);
        let other = draw_task(arbiter, &mut draw);
        ask(rt, arbiter, task, other);
        settle(arbiter, &mut draw, task, other);
    }
    accepted
}

fn check_table(rt: &impl Host, table: &Table) {
    let (tasks, conflicts, calls) = *table;
    let limits = Limits::new(tasks, conflicts).expect(rt, "the limits are in range");
    let mut arbiter = Arbiter::new(rt.alloc(), limits).ok().expect(rt, "memory");
    begins(rt.alloc());
    let accepted = make_calls(rt, &mut arbiter, calls);
    ends(rt.alloc());
    assert!(rt; accepted > calls / 20);
}

#[test]
fn an_arbiter_that_is_made_takes_no_memory(rt: HostRuntime) {
    for table in &TABLES {
        check_table(&rt, table);
    }
}
