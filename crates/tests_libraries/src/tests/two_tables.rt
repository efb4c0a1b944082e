//! Calls drawn by a seed, made on the plain table and on the arbiter side by side: equal replies, states and questions,
//! and as many messages as the order of last meals says.

use crate::tests::journal::histories::both_answer;
use crate::tests::same::same_at;
use dine_arbiter::Arbiter;
use dine_journal::PlainTable;
use dine_words::State::{Eating, Hungry, Thinking};
use dine_words::{Call, Limits, Reply, Task};
use std::alloc::Global;
use tests_kit::{Draw, Host, draw_call};

const CALLS: u32 = 4000;

// So few that both limits are reached over and over.
const LIMITS: Limits = Limits {
    tasks: 6,
    conflicts: 8,
};

// Calls name one of so many tasks that joined last: more than may be present, so some of them have left.
const NAMED: usize = 9;

const NOBODY: Task = Task { slot: 5, born: 0 };

// The tasks that joined, each with the stamp of its last meal or of its joining, the latest last.
type Meals = Vec<(Task, u64)>;

// One of the tasks that joined last.
fn draw_task(draw: &mut Draw, meals: &Meals) -> Task {
    match meals.iter().rev().nth(draw.below(NAMED)) {
        Some(meal) => meal.0,
        None => NOBODY,
    }
}

// By what tasks that are compared are ordered: whoever eats comes last, and else whoever ate last.
fn turn(table: &PlainTable, meals: &Meals, task: Task) -> (bool, Option<u64>) {
    let stamp = meals.iter().find(|meal| meal.0 == task).map(|meal| meal.1);
    (table.state(task) == Some(Eating), stamp)
}

// The messages between the task of a call and one of its neighbours.
fn messages_between(
    table: &PlainTable,
    meals: &Meals,
    call: Call,
    task: Task,
    neighbour: Task,
) -> u32 {
    let is_sooner = turn(table, meals, task) < turn(table, meals, neighbour);
    match (call, table.state(neighbour), is_sooner) {
        (Call::Finish(_), state, _) => u32::from(state == Some(Hungry)),
        (_, Some(Eating), _) => 1,
        (Call::Hungry(_), Some(Hungry), true) => 3,
        (_, Some(Hungry), _) => 1,
        (_, _, true) => 2,
        (_, _, false) => 0,
    }
}

// The messages over a conflict that is declared.
fn messages_of_conflict(table: &PlainTable, meals: &Meals, first: Task, second: Task) -> u32 {
    let (sooner, later) = if turn(table, meals, first) < turn(table, meals, second) {
        (first, second)
    } else {
        (second, first)
    };
    match (table.state(sooner), table.state(later)) {
        (Some(Hungry), Some(Eating)) => 1,
        (Some(Hungry), Some(Thinking)) => 2,
        (Some(Hungry), _) => 3,
        _ => 0,
    }
}

// The messages of an accepted call at this table.
fn messages_of(alloc: Global, table: &PlainTable, meals: &Meals, call: Call) -> Option<u32> {
    let task = match call {
        Call::Hungry(task) | Call::Finish(task) | Call::Withdraw(task) => task,
        Call::Conflict(first, second) => {
            return Some(messages_of_conflict(table, meals, first, second));
        }
        Call::Join | Call::Leave(_) | Call::Separate(..) | Call::Begin(_) => return Some(0),
    };
    let mut messages: u32 = 0;
    for neighbour in &table.neighbours(alloc, task).ok()?? {
        let more = messages_between(table, meals, call, task, *neighbour);
        messages = messages.saturating_add(more);
    }
    Some(messages)
}

// Which of the kinds of reply it is.
fn kind(reply: Reply) -> usize {
    match reply {
        Reply::Joined(_) => 0,
        Reply::Refused(refusal) => refusal.number() as usize,
        Reply::Done => 10,
    }
}

// The two sides, and what the messages are counted from.
#[derive(Drop)]
struct Sides {
    arbiter: Arbiter,
    table: PlainTable,
    meals: Meals,
}

// The reply that the plain table is about to give, and the messages of the call.
fn expected(alloc: Global, sides: &Sides, call: Call) -> Option<(Reply, u32)> {
    let reply = sides.table.reply_to(call);
    match reply {
        Reply::Refused(_) => Some((reply, 0)),
        _ => Some((reply, messages_of(alloc, &sides.table, &sides.meals, call)?)),
    }
}

// Makes a call on both sides, notes a joining or the end of a meal, and says how both reply.
fn make_call(rt: &impl Host, sides: &mut Sides, call: Call, turn: u32) -> Reply {
    let clock = sides.table.clock();
    same_at(rt, turn, sides.arbiter.clock(), clock);
    let wanted = expected(rt.alloc(), sides, call).expect(rt, "memory");
    both_answer(rt, &mut sides.table, &mut sides.arbiter, call, wanted);
    match (call, wanted.0) {
        (_, Reply::Joined(task)) | (Call::Finish(task), Reply::Done) => {
            sides.meals.retain(|meal| meal.0 != task);
            sides.meals.push((task, clock)).expect(rt, "memory");
        }
        _ => {}
    }
    wanted.0
}

// Both sides name the same tasks as the next ones, and tell the same of the tasks that joined last.
fn check_questions(rt: &impl Host, sides: &Sides, turn: u32) {
    let (arbiter, table, alloc) = (&sides.arbiter, &sides.table, rt.alloc());
    same_at(rt, turn, arbiter.next_ready(), table.next_ready());
    let (found, wanted) = (arbiter.ready(alloc).ok(), table.ready(alloc).ok());
    same_at(rt, turn, found.as_deref(), wanted.as_deref());
    for (task, _) in sides.meals.iter().rev().take(NAMED) {
        same_at(rt, turn, arbiter.state(*task), table.state(*task));
        same_at(rt, turn, arbiter.is_ready(*task), table.is_ready(*task));
        let found = arbiter.blockers(alloc, *task).ok().flatten();
        let wanted = table.blockers(alloc, *task).ok().flatten();
        same_at(rt, turn, found.as_deref(), wanted.as_deref());
    }
}

// Each kind of reply is given, so each is compared.
#[test]
fn the_arbiter_answers_drawn_calls_as_the_plain_table(rt: HostRuntime) {
    let mut sides = Sides {
        arbiter: Arbiter::new(rt.alloc(), LIMITS).ok().expect(&rt, "memory"),
        table: PlainTable::new(rt.alloc(), LIMITS),
        meals: Vec::new(rt.alloc()),
    };
    let mut draw = Draw { state: 1989 };
    let mut counts: [u32; 11] = [0; 11];
    for turn in 0..CALLS {
        let first = draw_task(&mut draw, &sides.meals);
        let second = draw_task(&mut draw, &sides.meals);
        let call = draw_call(&mut draw, first, second);
        let reply = make_call(&rt, &mut sides, call, turn);
        check_questions(&rt, &sides, turn);
        if let Some(count) = counts.get_mut(kind(reply)) {
            *count = count.saturating_add(1);
        }
    }
    for (kind, count) in counts.iter().enumerate() {
        assert!(&rt; *count >= 5, "kind {kind} of reply came {count} times");
    }
}
