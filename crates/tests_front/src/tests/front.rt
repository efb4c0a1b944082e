//! What no clause says: that calls succeed with ample memory, worked rows, and looks.

use crate::tests::audited::is_audited;
use crate::tests::same::{same, same_in};
use crate::tests::threads::{Part, Tally, side_by_side};
use crate::tests::visit::{Visit, from, visit_a_front};
use dine_front::{Front, FrontFault, Naming, OpenFault, Opened, Pass, Verdict};
use dine_journal::Answer;
use dine_words::{Call, Entry, Reply, Task};
use std::process::Abort;
use tests_kit::{A, B, LIMITS, Machine};

/// What is done after the steps.
#[derive(Clone, Copy)]
pub(crate) enum Then {
    Nothing,
    /// A thread for each pass does its part, and this comes of it.
    SideBySide(&'static [Part], Tally),
    /// Each pass joins a task, and they are turned round.
    JoinByEach,
}

/// What a row shows; the steps at a front, the number of a pass before each: an entry, whose call is made; `in-turn` with a task
/// and the answer; `look` with a task and what is seen; or `stop`. Then what is done in threads, how many calls each pass made,
/// the passes that are held back where the front is closed, and the verdict.
#[derive(Clone, Copy)]
pub(crate) struct Case {
    pub name: &'static str,
    pub has_looks: bool,
    pub steps: &'static str,
    pub then: Then,
    pub counts: &'static [u64],
    pub held_back: &'static [u32],
    pub verdict: Verdict,
}

/// With nothing done, at a front of no pass.
pub(crate) const SETTLED: Case = Case {
    name: "",
    has_looks: true,
    steps: "",
    then: Then::Nothing,
    counts: &[],
    held_back: &[],
    verdict: Verdict::Settled,
};

// Each pass sees what it did and what the other did.
const A_MEAL: &str = "0 join -> joined 0.0; 0 hungry 0.0 -> done; 0 look 0.0 -> hungry; \
    1 look 0.0 -> hungry; 1 look 1.1 -> none; 1 begin 0.0 -> done; 1 look 0.0 -> eating";

const CASES: [Case; 8] = [
    Case {
        name: "a look sees what another pass did",
        steps: A_MEAL,
        counts: &[2, 1],
        ..SETTLED
    },
    Case {
        name: "both passes see what is after each call of either",
        steps: "0 join -> joined 0.0; 0 look 0.0 -> thinking; 1 look 0.0 -> thinking; \
            0 hungry 0.0 -> done; 0 look 0.0 -> hungry; 1 look 0.0 -> hungry; \
            0 begin 0.0 -> done; 0 look 0.0 -> eating; 1 look 0.0 -> eating; \
            0 finish 0.0 -> done; 0 look 0.0 -> thinking; 1 look 0.0 -> thinking; \
            1 hungry 0.0 -> done; 1 look 0.0 -> hungry; 0 look 0.0 -> hungry; \
            1 begin 0.0 -> done; 1 look 0.0 -> eating; 0 look 0.0 -> eating; \
            1 finish 0.0 -> done; 1 look 0.0 -> thinking; 0 look 0.0 -> thinking",
        counts: &[4, 3],
        ..SETTLED
    },
    Case {
        name: "a pass that is held back is missing",
        steps: A_MEAL,
        counts: &[2, 1],
        held_back: &[1],
        verdict: Verdict::Missing(1),
        ..SETTLED
    },
    Case {
        name: "a stopped front answers whoever would wait, before a meal ends and after it",
        steps: "0 join -> joined 0.0; 0 join -> joined 1.1; 0 conflict 0.0 1.1 -> done; \
            0 hungry 0.0 -> done; 0 in-turn 0.0 -> done; 0 in-turn 1.1 -> refused thinking; \
            0 hungry 1.1 -> done; 0 stop; 0 in-turn 0.0 -> refused eating; \
            0 in-turn 3.3 -> refused unknown; 0 in-turn 1.1 -> stopped; 0 finish 0.0 -> done; \
            0 in-turn 0.0 -> refused thinking; 0 in-turn 1.1 -> done",
        counts: &[12],
        ..SETTLED
    },
    Case {
        name: "an equal refused call gets a place of its own",
        steps: "0 begin 0.0 -> refused unknown; 0 begin 0.0 -> refused unknown",
        counts: &[2],
        ..SETTLED
    },
    Case {
        name: "sixteen passes are handed in in reverse",
        then: Then::JoinByEach,
        counts: &[1; 16],
        ..SETTLED
    },
    Case {
        name: "the least missing pass is named",
        then: Then::JoinByEach,
        counts: &[1; 16],
        held_back: &[3, 5],
        verdict: Verdict::Missing(3),
        ..SETTLED
    },
    Case {
        name: "a front without looks answers calls alone",
        has_looks: false,
        steps: "1 join -> joined 0.0; 1 join -> joined 1.1; 1 conflict 0.0 1.1 -> done; \
            1 look 0.0 -> gone; 1 hungry 0.0 -> done; 1 begin 0.0 -> done; 1 hungry 1.1 -> done; \
            1 look 0.0 -> gone",
        counts: &[0, 6],
        ..SETTLED
    },
];

#[test]
fn a_front_answers_one_thread(rt: HostRuntime) {
    for case in &CASES {
        check(&rt, case);
    }
}

const IN_THREADS: [Case; 2] = [
    Case {
        name: "two threads eat by turns",
        steps: "0 join -> joined 0.0; 0 join -> joined 1.1; 0 conflict 0.0 1.1 -> done",
        then: Then::SideBySide(&[Part::Eat(A), Part::Eat(B)], [200, 600, 0, 0, 0, 181_500]),
        counts: &[303, 300],
        ..SETTLED
    },
    Case {
        name: "a thread that only looks sees a meal",
        then: Then::SideBySide(&[Part::EatOnce, Part::Watch], [1, 2, 0, 0, 0, 3]),
        counts: &[3, 0],
        ..SETTLED
    },
];

#[test]
fn a_front_answers_two_threads(rt: HostRuntime) {
    for case in &IN_THREADS {
        check(&rt, case);
    }
}

// A call was answered so, and got the next place, unless the front was stopped.
fn is_answered(
    rt: &impl Machine,
    step: &str,
    wanted: &str,
    made: Result<Answer, FrontFault>,
    calls: &mut u64,
) {
    let mut out = Vec::new(rt.alloc());
    if let Ok(Answer { place, reply }) = made {
        same_in(rt, step, reply.write_to(&mut out), Ok(()));
        same_in(rt, step, place, *calls);
        same_in(rt, step, out.as_slice(), wanted.as_bytes());
        *calls = calls.saturating_add(1);
    } else {
        let stopped = (Err(FrontFault::Stopped), "stopped");
        same_in(rt, step, (made, wanted), stopped);
    }
}

// What a pass sees of a task.
fn seen<J: Naming>(pass: &mut Pass<J>, task: Task) -> &'static str {
    match pass.look(task) {
        Ok(Some(state)) => state.text(),
        Ok(None) => "none",
        Err(_) => "gone",
    }
}

fn takes<J: Naming>(
    rt: &impl Machine,
    front: &Front<J>,
    pass: &mut Pass<J>,
    step: &str,
    calls: &mut u64,
) {
    let Some((asked, wanted)) = step.split_once(" -> ") else {
        front.stop(rt);
        return;
    };
    if let Some(entry) = Entry::read(step) {
        let made = front.act(rt, pass, entry.call);
        return is_answered(rt, step, wanted, made, calls);
    }
    let (asked, task) = asked.rsplit_once(' ').expect(rt, "a task");
    let task = Task::read(task).expect(rt, "a task");
    if asked.ends_with("look") {
        same_in(rt, step, seen(pass, task), wanted);
    } else {
        let made = front.begin_in_turn(rt, pass, task);
        is_answered(rt, step, wanted, made, calls);
    }
}

fn takes_all<J: Naming>(
    rt: &impl Machine,
    front: &Front<J>,
    passes: &mut Vec<Pass<J>>,
    steps: &str,
) {
    let mut calls = 0u64;
    for step in steps.split("; ") {
        let number = usize::from(step.starts_with("1 "));
        if let (Some(pass), false) = (passes.get_mut(number), step.is_empty()) {
            takes(rt, front, pass, step, &mut calls);
        }
    }
}

// Joins by each pass the task whose slot is the pass's number, and turns the passes round.
fn joins_by_each<J: Naming>(rt: &impl Machine, front: &Front<J>, passes: &mut Vec<Pass<J>>) {
    for pass in passes.iter_mut() {
        let slot = pass.number();
        let place = u64::from(slot);
        let reply = Reply::Joined(Task { slot, born: place });
        let made = front.act(rt, pass, Call::Join);
        same(rt, made, Ok(Answer { place, reply }));
    }
    passes.reverse();
}

// The passes are numbered from 0, and made so many calls each. Says how many that are.
fn have_counts<J: Naming>(rt: &impl Abort, passes: &[Pass<J>], counts: &[u64]) -> u64 {
    let mut calls = 0u64;
    same(rt, passes.len(), counts.len());
    for pass in passes {
        let number = pass.number() as usize;
        same(rt, Some(pass.count()), counts.get(number).copied());
        calls = calls.saturating_add(pass.count());
    }
    calls
}

// The front closes with the verdict of the case, after so many calls.
fn closes<J: Naming>(
    rt: &impl Machine,
    front: Front<J>,
    passes: Vec<Pass<J>>,
    case: &Case,
    calls: u64,
) {
    let closed = front.close(rt, passes);
    let found = (closed.verdict, closed.journal.len());
    same_in(rt, case.name, found, (case.verdict, calls));
    is_audited(rt, &closed.journal);
}

// What is done at the front of a case.
pub(crate) fn settles<J: Naming + Send + Sync>(
    rt: &impl Machine,
    front: Front<J>,
    mut passes: Vec<Pass<J>>,
    case: &Case,
) {
    takes_all(rt, &front, &mut passes, case.steps);
    match case.then {
        Then::Nothing => {}
        Then::SideBySide(parts, wanted) => {
            let (handed, tally) = side_by_side(rt, &front, passes, parts);
            same_in(rt, case.name, tally, wanted);
            passes = handed;
        }
        Then::JoinByEach => joins_by_each(rt, &front, &mut passes),
    }
    let calls = have_counts(rt, &passes, case.counts);
    passes.retain(|pass| !case.held_back.contains(&pass.number()));
    closes(rt, front, passes, case, calls);
}

/// The case comes out as it says, at a front of as many passes as it has counts.
pub(crate) fn check(rt: &impl Machine, case: &Case) {
    let passes = case.counts.len();
    assert!(rt; passes <= 16);
    let mut from = from(rt, passes as u32);
    if !case.has_looks {
        from = from.without_looks();
    }
    let fault = visit_a_front(rt, from, Visit::Case(case));
    same_in(rt, case.name, fault, None);
}

// With one pass and with sixteen the cases above are settled.
#[test]
fn a_front_has_one_to_sixteen_passes(rt: HostRuntime) {
    for passes in [0, 17] {
        let fault = Opened::new(LIMITS, passes).err();
        same(&rt, fault, Some(OpenFault::Count));
    }
}

// Contracts cite the ledger's parts from the code: one for each of sixteen passes, and one for the front.
#[test]
fn faults_and_a_ledger_tell_their_numbers(rt: HostRuntime) {
    same(&rt, dine_front::LEDGER_PARTS, 17);
    let (count, memory) = (OpenFault::Count.number(), OpenFault::Memory.number());
    same(&rt, (count, memory, OpenFault::NoPlace.number()), (1, 2, 3));
    let (memory, stopped) = (FrontFault::Memory.number(), FrontFault::Stopped.number());
    same(&rt, (memory, stopped), (1, 2));
}
