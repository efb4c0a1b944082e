//! A front that is open: looks at it, receipts, stopping and closing it.

ghost use Rattle.dine_front.specs.Opening.{CanOpen};

use super::{begins, ends};
use crate::tests::same::same;
use dine_front::{Closed, Front, LEDGER_PARTS, Naming, Opened, Pass, Verdict};
use dine_words::{Call, State, Task};
use std::alloc::Global;
use std::marker::Brand;
use std::process::Abort;
use std::sync::Wait;
use std::sync::ledger::Blank;
use tests_kit::{A, B, LIMITS};

const NOBODY: Task = Task { slot: 0, born: 7 };

// What one pass does between looks, over and over, and what is seen of the first task then.
const MEAL: [(Call, State); 4] = [
    (Call::Hungry(A), State::Hungry),
    (Call::Begin(A), State::Eating),
    (Call::Finish(A), State::Thinking),
    (Call::Hungry(NOBODY), State::Thinking),
];

const MEALS: u32 = 50;

// Looks at tasks, at one of them twice, and asks the pass what it did.
fn look<J: Naming>(pass: &mut Pass<J>) -> Option<State> {
    let _ = (pass.number(), pass.count());
    let _ = (pass.receipts().is_empty(), pass.receipts().len());
    for task in [B, NOBODY, A] {
        let _ = pass.look(task);
    }
    pass.look(A).ok()?
}

// Makes a call with the first pass, and all passes look.
fn act<J: Naming, R: Wait + Abort>(
    rt: &R,
    alloc: Global,
    front: &Front<J>,
    passes: &mut Vec<Pass<J>>,
    (call, state): (Call, State),
) {
    let pass = passes.first_mut().expect(rt, "a pass");
    let made = front.act(rt, pass, call);
    assert!(rt; made.is_ok());
    for pass in passes {
        begins(alloc);
        let seen = look(pass);
        ends(alloc);
        same(rt, seen, Some(state));
    }
}

// Somebody eats over and over, and all passes look behind each call.
fn eat<J: Naming, R: Wait + Abort>(
    rt: &R,
    alloc: Global,
    front: &Front<J>,
    passes: &mut Vec<Pass<J>>,
) {
    act(rt, alloc, front, passes, (Call::Join, State::Thinking));
    for _ in 0..MEALS {
        for step in MEAL {
            act(rt, alloc, front, passes, step);
        }
    }
}

// Stops a front and closes it.
fn close<J: Naming, R: Wait>(
    rt: &R,
    alloc: Global,
    front: Front<J>,
    passes: Vec<Pass<J>>,
) -> Closed {
    begins(alloc);
    front.stop(rt);
    let closed = front.close(rt, passes);
    ends(alloc);
    closed
}

// Opens a front, uses it and closes it.
fn use_front<J: Naming, R: Wait + Abort>(rt: &R, alloc: Global, ledger: Blank, from: Opened)
    requires { CanOpen J.name J.parts J.limits J.passes J.book ledger from }
{
    let opened = Front::<J>::open(rt, alloc, ledger, from);
    let (front, mut passes) = opened.ok().expect(rt, "memory and places");
    eat(rt, alloc, &front, &mut passes);
    let closed = close(rt, alloc, front, passes);
    let found = (closed.verdict, closed.journal.len());
    same(rt, found, (Verdict::Settled, 201));
}

#[test]
fn a_front_that_is_open_takes_no_memory_for_looks(rt: HostRuntime) {
    begins(rt.alloc());
    let from = Opened::new(LIMITS, 2).ok().expect(&rt, "two passes");
    let ledger = Blank::new(LEDGER_PARTS);
    ends(rt.alloc());
    use_front::<Brand, _>(&rt, rt.alloc(), ledger, from);
}
