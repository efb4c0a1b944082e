//! Fronts: opening them, and the calls made through them.

ghost use Rattle.dine_front.specs.Opening.{CanOpen};

use crate::tests::same::same;
use dine_front::{Front, FrontFault, LEDGER_PARTS, Naming, OpenFault, Opened, Pass, Verdict};
use dine_journal::Answer;
use dine_words::{Call, Refusal, Reply, State, Task};
use std::alloc::Global;
use std::marker::Brand;
use std::process::Abort;
use std::sync::Wait;
use std::sync::ledger::Blank;
use tests_kit::{A, B, LIMITS};

// What is asked of a front.
#[derive(Clone, Copy)]
enum Ask {
    Act(Call),
    InTurn(Task),
    Stop,
}

const THINKS: Reply = Reply::Refused(Refusal::WrongState(State::Thinking));

const STOPPED: Result<(u64, Reply), FrontFault> = Err(FrontFault::Stopped);

// What one pass asks, and the place and the reply, or that the front is stopped.
const ASKED: [(Ask, Result<(u64, Reply), FrontFault>); 11] = [
    (Ask::Act(Call::Join), Ok((0, Reply::Joined(A)))),
    (Ask::Act(Call::Join), Ok((1, Reply::Joined(B)))),
    (Ask::Act(Call::Conflict(A, B)), Ok((2, Reply::Done))),
    (Ask::Act(Call::Hungry(A)), Ok((3, Reply::Done))),
    (Ask::InTurn(A), Ok((4, Reply::Done))),
    (Ask::InTurn(B), Ok((5, THINKS))),
    (Ask::Act(Call::Hungry(B)), Ok((6, Reply::Done))),
    (Ask::Stop, STOPPED),
    (Ask::InTurn(B), STOPPED),
    (Ask::Act(Call::Finish(A)), Ok((7, Reply::Done))),
    (Ask::InTurn(B), Ok((8, Reply::Done))),
];

fn asked<J: Naming, R: Wait>(
    rt: &R,
    front: &Front<J>,
    pass: &mut Pass<J>,
    ask: Ask,
) -> Result<Answer, FrontFault> {
    match ask {
        Ask::Act(call) => front.act(rt, pass, call),
        Ask::InTurn(task) => front.begin_in_turn(rt, pass, task),
        Ask::Stop => {
            front.stop(rt);
            Err(FrontFault::Stopped)
        }
    }
}

// Asks all of a front. What finds no memory leaves the pass as it was, and is asked again.
fn ask_all<J: Naming, R: Wait + Abort>(rt: &R, front: &Front<J>, pass: &mut Pass<J>) {
    for (ask, wanted) in &ASKED {
        let count = pass.count();
        let mut found = asked(rt, front, pass, *ask);
        if found == Err(FrontFault::Memory) {
            let kept = (pass.count(), pass.receipts().len() as u64);
            same(rt, kept, (count, count));
            found = asked(rt, front, pass, *ask);
        }
        same(rt, found.map(|made| (made.place, made.reply)), *wanted);
    }
}

// Opens a front and asks all of it. Says whether there was memory to open it.
fn is_opened_and_asked<J: Naming, R: Wait + Abort>(
    rt: &R,
    alloc: Global,
    ledger: Blank,
    from: Opened,
) -> bool
    requires { CanOpen J.name J.parts J.limits J.passes J.book ledger from }
{
    let (front, mut passes) = match Front::<J>::open(rt, alloc, ledger, from) {
        Ok(opened) => opened,
        Err(fault) => {
            assert!(rt; fault != OpenFault::Count);
            return false;
        }
    };
    for pass in &mut passes {
        ask_all(rt, &front, pass);
    }
    let closed = front.close(rt, passes);
    let found = (closed.verdict, closed.journal.len());
    same(rt, found, (Verdict::Settled, 9));
    true
}

// What a front of one pass is opened from.
fn from(rt: &impl Abort) -> Opened {
    let opened = Opened::new(LIMITS, 1);
    opened.ok().expect(rt, "a front may have one pass")
}

#[test]
fn a_front_is_opened_again_and_asked_again(rt: HostRuntime) {
    let first = Blank::new(LEDGER_PARTS);
    if !is_opened_and_asked::<Brand, _>(&rt, rt.alloc(), first, from(&rt)) {
        let second = Blank::new(LEDGER_PARTS);
        let is_opened = is_opened_and_asked::<Brand, _>(&rt, rt.alloc(), second, from(&rt));
        assert!(&rt; is_opened);
    }
}
