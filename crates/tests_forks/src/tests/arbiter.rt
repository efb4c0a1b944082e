//! Worked calls of an arbiter, with the messages that each costs and what is asked between them.

mod edge;

use crate::tests::same::{same, same_at};
use dine_arbiter::Arbiter;
use dine_forks::Fork;
use dine_words::{Call, JournalVersion, Limits, Reply, State, Task, push_number};
use std::alloc::{AllocError, Global};
use std::process::Abort;
use tests_kit::{A, Machine};

// What a row shows, the most tasks and conflicts, and the steps, each with its answer. A call has its reply, and behind a comma
// the messages that it costs, if it costs some. Others are questions (`says`).
struct Case {
    name: &'static str,
    limits: (u32, u32),
    steps: &'static str,
}

const CASES: [Case; 9] = [
    Case {
        name: "a neighbour waits for the meal",
        limits: (64, 256),
        steps: "messages -> 0; next -> none; join -> joined 0.0; join -> joined 1.1; \
            conflict 0.0 1.1 -> done; hungry 0.0 -> done, 2; begin 0.0 -> done; \
            hungry 1.1 -> done, 1; begin 1.1 -> refused not-yet; blockers 1.1 -> 0.0; \
            blockers 0.0 -> ; blockers 2.2 -> none; finish 0.0 -> done, 1; begin 1.1 -> done; \
            state 1.1 -> eating; ready 1.1 -> no; clock -> 3; tasks -> 64",
    },
    Case {
        name: "a book lends a record for each conflict, and a task is told its neighbours",
        limits: (64, 256),
        steps: "join -> joined 0.0; join -> joined 1.1; conflict 0.0 1.1 -> done; \
            hungry 1.1 -> done; hungry 0.0 -> done, 3; conflicts -> 1; \
            fork -> of 0 and 1, clean at 0, token at 0; neighbours 0.0 -> 1.1; \
            neighbours 2.2 -> none",
    },
    Case {
        name: "the ready task that ate first is next",
        limits: (64, 256),
        steps: "join -> joined 0.0; join -> joined 1.1; join -> joined 2.2; join -> joined 3.3; \
            join -> joined 4.4; conflict 0.0 1.1 -> done; conflict 1.1 2.2 -> done; \
            conflict 2.2 3.3 -> done; conflict 3.3 4.4 -> done; conflict 4.4 0.0 -> done; \
            hungry 0.0 -> done, 4; hungry 1.1 -> done, 3; hungry 2.2 -> done, 3; \
            hungry 3.3 -> done, 3; hungry 4.4 -> done, 2; blockers 2.2 -> 1.1; \
            blockers 4.4 -> 3.3 0.0; next -> 0.0; begin 0.0 -> done; next -> none; all-ready -> ",
    },
    Case {
        name: "a hungry neighbour is found at either end",
        limits: (64, 256),
        steps: "join -> joined 0.0; join -> joined 1.1; join -> joined 2.2; join -> joined 3.3; \
            conflict 0.0 1.1 -> done; conflict 2.2 1.1 -> done; beside -> no no no no no; \
            hungry 2.2 -> done; beside -> no yes no no no; hungry 1.1 -> done, 3; \
            beside -> yes yes yes no no; conflict 3.3 2.2 -> done, 2; beside -> yes yes yes yes no; \
            separate 1.1 2.2 -> done; beside -> yes no no yes no; begin 2.2 -> done; \
            beside -> yes no no no no; begin 1.1 -> done; beside -> no no no no no; \
            hungry 0.0 -> done, 1; beside -> no yes no no no",
    },
    Case {
        name: "a hub asks each of its neighbours",
        limits: (4096, 4095),
        steps: "all -> join; all -> conflict; all -> hungry; next -> 1.1; \
            hungry 0.0 -> done, 12285; begin 0.0 -> done; next -> none",
    },
    Case {
        name: "a task that joins gets the least free slot",
        limits: (4096, 1),
        steps: "all -> join; leave 2000.2000 -> done; leave 64.64 -> done; \
            leave 4095.4095 -> done; seat 64 -> none; seat 65 -> 65.65; seat 4096 -> none; \
            join -> joined 64.4096; join -> joined 2000.4097; \
            join -> joined 4095.4098; join -> refused full; hungry 64.4096 -> done; \
            hungry 4095.4098 -> done; hungry 65.65 -> done; hungry 63.63 -> done; \
            all-ready -> 63.63 65.65 64.4096 4095.4098",
    },
    // The first gets its fork, and keeps it from the next two. Of these one gets the fork that is given up, and one that of a
    // conflict that ends. Then one withdraws, and the other gets the fork. That one gives it back, and lacks it, which isn't told.
    Case {
        name: "who lacks a fork is told until its last one comes",
        limits: (64, 256),
        steps: "join -> joined 0.0; join -> joined 1.1; join -> joined 2.2; \
            conflict 0.0 1.1 -> done; lacks 0 -> 0; hungry 0.0 -> done, 2; lacks 0 -> 0; \
            hungry 1.1 -> done, 1; lacks 0 -> 2; conflict 1.1 2.2 -> done, 2; lacks 0 -> 2; \
            hungry 2.2 -> done, 1; lacks 0 -> 6; begin 0.0 -> done; lacks 0 -> 6; \
            finish 0.0 -> done, 1; lacks 0 -> 4; begin 1.1 -> done; lacks 0 -> 4; \
            separate 1.1 2.2 -> done; lacks 0 -> 0; begin 2.2 -> done; lacks 0 -> 0; \
            hungry 0.0 -> done, 1; lacks 0 -> 1; finish 1.1 -> done, 1; lacks 0 -> 0; \
            hungry 1.1 -> done, 1; lacks 0 -> 2; withdraw 0.0 -> done, 1; lacks 0 -> 0; \
            hungry 0.0 -> done, 3; lacks 0 -> 0; withdraw 1.1 -> done, 1; lacks 0 -> 0; \
            begin 0.0 -> done; lacks 0 -> 0",
    },
    Case {
        name: "who lacks a fork is told in each word",
        limits: (128, 1),
        steps: "all -> join; conflict 64.64 127.127 -> done; lacks 1 -> 0; \
            hungry 64.64 -> done, 2; lacks 1 -> 0; hungry 127.127 -> done, 1; \
            lacks 1 -> 9223372036854775808; lacks 0 -> 0; withdraw 64.64 -> done, 1; \
            lacks 1 -> 0; begin 127.127 -> done; lacks 1 -> 0",
    },
    Case {
        name: "a task withdraws beside a thinker, a hungry one and an eater, and gives a clean fork back dirty",
        limits: (64, 256),
        steps: "join -> joined 0.0; join -> joined 1.1; conflict 0.0 1.1 -> done; \
            hungry 0.0 -> done, 2; withdraw 0.0 -> done, 2; hungry 0.0 -> done, 2; \
            hungry 1.1 -> done, 1; withdraw 0.0 -> done, 1; \
            fork -> of 0 and 1, dirty at 1, token at 0; begin 1.1 -> done; \
            hungry 0.0 -> done, 1; begin 0.0 -> refused not-yet; withdraw 0.0 -> done, 1; \
            hungry 0.0 -> done, 1; finish 1.1 -> done, 1; begin 0.0 -> done",
    },
];

// The reply to one call, which is what was foretold.
fn act(rt: &impl Abort, arbiter: &mut Arbiter, call: Call) -> Reply {
    let expected = arbiter.reply_to(call);
    let clock = arbiter.clock();
    assert!(rt; clock < u64::MAX);
    let reply = arbiter.apply(call);
    same(rt, reply, expected);
    reply
}

// The task at a slot, where none was left so far.
fn task_of(slot: u32) -> Task {
    let born = u64::from(slot);
    Task { slot, born }
}

// Each task joins, each but the first gets in conflict with it, or grows hungry. None of that costs a message.
fn all(rt: &impl Abort, arbiter: &mut Arbiter, what: &str) {
    for slot in 0..arbiter.limits().tasks {
        let task = task_of(slot);
        let (call, reply) = match what {
            "join" => (Call::Join, Reply::Joined(task)),
            "conflict" => (Call::Conflict(A, task), Reply::Done),
            _ => (Call::Hungry(task), Reply::Done),
        };
        if what == "join" || slot != 0 {
            same_at(rt, slot, act(rt, arbiter, call), reply);
            same_at(rt, slot, arbiter.messages(), 0);
        }
    }
}

// The ends of the first conflict of the first slot, and its fork.
fn first_edge(arbiter: &Arbiter) -> Option<((u32, u32), Fork)> {
    let book = arbiter.book();
    let id = book.first_of(0)?;
    Some((book.ends(id), book.fork(id)))
}

// Says them: where the fork is, if it is clean there, and at which end the request token is.
fn says_edge(arbiter: &Arbiter, out: &mut Vec<u8>) -> Result<(), AllocError> {
    let Some(((first, second), fork)) = first_edge(arbiter) else {
        return out.extend_from_slice(b"none");
    };
    let (of_fork, of_token) = (
        if fork.at_first { first } else { second },
        if fork.token_first { first } else { second },
    );
    out.extend_from_slice(b"of ")?;
    push_number(out, u64::from(first))?;
    out.extend_from_slice(b" and ")?;
    push_number(out, u64::from(second))?;
    out.extend_from_slice(if fork.dirty {
        b", dirty at "
    } else {
        b", clean at "
    })?;
    push_number(out, u64::from(of_fork))?;
    out.extend_from_slice(b", token at ")?;
    push_number(out, u64::from(of_token))
}

fn says_task(task: Option<Task>, out: &mut Vec<u8>) -> Result<(), AllocError> {
    match task {
        Some(task) => task.write_to(out),
        None => out.extend_from_slice(b"none"),
    }
}

fn says_state(state: Option<State>, out: &mut Vec<u8>) -> Result<(), AllocError> {
    out.extend_from_slice(state.map_or("none", State::text).as_bytes())
}

fn says_number(number: u32, out: &mut Vec<u8>) -> Result<(), AllocError> {
    push_number(out, u64::from(number))
}

// Of which of the first five tasks a neighbour is hungry.
fn says_beside(arbiter: &Arbiter, out: &mut Vec<u8>) -> Result<(), AllocError> {
    for slot in 0..5 {
        let is_beside = arbiter.has_hungry_neighbour(task_of(slot));
        out.extend_from_slice(if slot == 0 { b"" } else { b" " })?;
        out.extend_from_slice(if is_beside { b"yes" } else { b"no" })?;
    }
    Ok(())
}

// The bits of those of 64 slots that surely lack a fork.
fn says_lacking(arbiter: &Arbiter, word: u32, out: &mut Vec<u8>) -> Result<(), AllocError> {
    if u64::from(word) * 64 < u64::from(arbiter.limits().tasks) {
        push_number(out, arbiter.book().lacking_word(word as usize))
    } else {
        out.extend_from_slice(b"none")
    }
}

fn says_tasks(tasks: Option<Vec<Task>>, out: &mut Vec<u8>) -> Result<(), AllocError> {
    let Some(tasks) = tasks else {
        return out.extend_from_slice(b"none");
    };
    for (place, task) in tasks.iter().enumerate() {
        out.extend_from_slice(if place == 0 { b"" } else { b" " })?;
        task.write_to(out)?;
    }
    Ok(())
}

// What a question about the whole table is answered, or about a number behind it.
fn says(
    alloc: Global,
    arbiter: &Arbiter,
    asked: &str,
    of: u32,
    out: &mut Vec<u8>,
) -> Result<(), AllocError> {
    match asked {
        "all-ready" => says_tasks(Some(arbiter.ready(alloc)?), out),
        "messages" => says_number(arbiter.messages(), out),
        "next" => says_task(arbiter.next_ready(), out),
        "clock" => push_number(out, arbiter.clock()),
        "tasks" => says_number(arbiter.limits().tasks, out),
        "conflicts" => says_number(arbiter.book().len(), out),
        "fork" => says_edge(arbiter, out),
        "beside" => says_beside(arbiter, out),
        "seat" => says_task(arbiter.task_at(of), out),
        _ => says_lacking(arbiter, of, out),
    }
}

// What a question about a task is answered.
fn says_of(
    alloc: Global,
    arbiter: &Arbiter,
    asked: &str,
    task: Task,
    out: &mut Vec<u8>,
) -> Result<(), AllocError> {
    match asked {
        "state" => says_state(arbiter.state(task), out),
        "ready" if arbiter.is_ready(task) => out.extend_from_slice(b"yes"),
        "ready" => out.extend_from_slice(b"no"),
        "blockers" => says_tasks(arbiter.blockers(alloc, task)?, out),
        _ => says_tasks(arbiter.neighbours(alloc, task)?, out),
    }
}

// Makes a call, and says the reply and the messages.
fn makes(
    rt: &impl Abort,
    arbiter: &mut Arbiter,
    call: Call,
    out: &mut Vec<u8>,
) -> Result<(), AllocError> {
    act(rt, arbiter, call).write_to(out)?;
    match arbiter.messages() {
        0 => Ok(()),
        messages => {
            out.extend_from_slice(b", ")?;
            says_number(messages, out)
        }
    }
}

// Takes a step, and says what it is answered.
fn takes(
    rt: &impl Machine,
    arbiter: &mut Arbiter,
    asked: &str,
    out: &mut Vec<u8>,
) -> Result<(), AllocError> {
    if let Some((call, [])) = Call::read_front(JournalVersion::Two, asked.as_bytes()) {
        return makes(rt, arbiter, call, out);
    }
    let (question, of) = asked.split_once(' ').unwrap_or((asked, "0"));
    match Task::read(of) {
        Some(task) => says_of(rt.alloc(), arbiter, question, task, out),
        None => says(rt.alloc(), arbiter, question, of.parse().unwrap_or(0), out),
    }
}

#[test]
fn an_arbiter_answers(rt: HostRuntime) {
    for case in &CASES {
        let (tasks, conflicts) = case.limits;
        let limits = Limits::new(tasks, conflicts).expect(&rt, "the limits are in range");
        let mut arbiter = Arbiter::new(rt.alloc(), limits).expect(&rt, "there is memory");
        for step in case.steps.split("; ") {
            answers(&rt, &mut arbiter, case.name, step);
        }
    }
}

// A step is answered as it says.
fn answers(rt: &impl Machine, arbiter: &mut Arbiter, name: &str, step: &str) {
    let (asked, wanted) = step.split_once(" -> ").expect(rt, "an answer");
    if asked == "all" {
        return all(rt, arbiter, wanted);
    }
    let mut out = Vec::new(rt.alloc());
    takes(rt, arbiter, asked, &mut out).expect(rt, "there is memory");
    assert_eq!(rt; out.as_slice(), wanted.as_bytes(), "{name}: {step}");
}
