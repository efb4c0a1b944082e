//! The proved callers, of which no clause says that they succeed with ample memory; and worked rows.

use crate::tests::audited::is_audited;
use crate::tests::same::same;
use dine_front::Verdict;
use dine_replay::Checked;
use dine_uses::{Broker, Fault, Recorded, Scheduler, eat_in_turns, keep_record};
use dine_words::{Call, Limits, Refusal, State, Task};
use std::process::Abort;
use tests_kit::{A, B, Host};

const CALLS: [Call; 6] = [
    Call::Join,
    Call::Join,
    Call::Conflict(A, B),
    Call::Hungry(A),
    Call::Begin(A),
    Call::Begin(B),
];

fn limits(rt: &impl Abort, tasks: u32, conflicts: u32) -> Limits {
    Limits::new(tasks, conflicts).expect(rt, "the limits are in range")
}

fn ticks(rt: &impl Abort, scheduler: &mut Scheduler, running: &[Task]) {
    same(rt, scheduler.tick(), Ok(()));
    same(rt, scheduler.running(), running);
}

fn broker(rt: &impl Host, tasks: u32, conflicts: u32) -> Broker {
    let broker = Broker::new(rt.alloc(), limits(rt, tasks, conflicts));
    broker.ok().expect(rt, "memory")
}

fn joins(rt: &impl Abort, scheduler: &mut Scheduler) -> Task {
    let task = scheduler.join().ok().expect(rt, "there is a place");
    same(rt, scheduler.wake(task), Ok(()));
    task
}

// Of three tasks two are kept apart.
fn starts_all(rt: &impl Abort, scheduler: &mut Scheduler) {
    let a = joins(rt, scheduler);
    let b = joins(rt, scheduler);
    let c = joins(rt, scheduler);
    same(rt, scheduler.keep_apart(a, b), Ok(()));
    ticks(rt, scheduler, &[a, c]);
    ticks(rt, scheduler, &[a, c]);
    let hungry = Fault::Refused(Refusal::WrongState(State::Hungry));
    same(rt, scheduler.end(b), Err(hungry));
    same(rt, scheduler.end(a), Ok(()));
    ticks(rt, scheduler, &[c, b]);
}

#[test]
fn a_tick_starts_all_that_may_start(rt: HostRuntime) {
    let scheduler = Scheduler::new(rt.alloc(), limits(&rt, 8, 8));
    starts_all(&rt, &mut scheduler.ok().expect(&rt, "memory"));
}

fn asks(rt: &impl Abort, broker: &mut Broker, rivals: &[Task]) -> Task {
    broker.ask(rivals).ok().expect(rt, "there is a place")
}

// A client is given all that it asked for, or this is the fault.
fn gives(rt: &impl Abort, broker: &mut Broker, client: Task, answer: Result<(), Fault>) {
    same(rt, broker.give(client), answer);
}

// A second client waits until the first gives back what both asked for.
fn gives_in_turn(rt: &impl Host, broker: &mut Broker) {
    let a = asks(rt, broker, &[]);
    let b = asks(rt, broker, &[a]);
    same(rt, broker.next_client(), Some(a));
    let found = broker.waits_for(rt.alloc(), b).ok().flatten();
    same(rt, found.as_deref(), Some([a].as_slice()));
    gives(rt, broker, b, Err(Fault::Refused(Refusal::NotYet)));
    gives(rt, broker, a, Ok(()));
    same(rt, broker.next_client(), None);
    same(rt, broker.take_back(a), Ok(()));
    gives(rt, broker, b, Ok(()));
}

#[test]
fn a_client_gets_all_it_asked_for_or_waits(rt: HostRuntime) {
    gives_in_turn(&rt, &mut broker(&rt, 8, 8));
}

// A request beside these rivals is refused.
fn is_refused(rt: &impl Abort, broker: &mut Broker, rivals: &[Task], refusal: Refusal) {
    same(rt, broker.ask(rivals), Err(Fault::Refused(refusal)));
}

// Of three clients, with one conflict, only the last waits.
fn refuses_and_gives(rt: &impl Abort, broker: &mut Broker) {
    let a = asks(rt, broker, &[]);
    let b = asks(rt, broker, &[]);
    is_refused(rt, broker, &[a, b], Refusal::NoRoom);
    is_refused(rt, broker, &[a, a], Refusal::Already);
    let c = asks(rt, broker, &[b]);
    is_refused(rt, broker, &[], Refusal::Full);
    gives(rt, broker, a, Ok(()));
    gives(rt, broker, b, Ok(()));
    gives(rt, broker, c, Err(Fault::Refused(Refusal::NotYet)));
}

#[test]
fn a_refused_request_leaves_nothing_behind(rt: HostRuntime) {
    refuses_and_gives(&rt, &mut broker(&rt, 3, 1));
}

#[test]
fn what_was_written_passes_the_audit(rt: HostRuntime) {
    let recorded = keep_record(rt.alloc(), limits(&rt, 8, 8), &CALLS);
    let Recorded { text, checked } = recorded.ok().expect(&rt, "memory");
    let wanted = Checked {
        entries: 6,
        most_overtakes: 0,
    };
    same(&rt, checked, wanted);
    assert!(&rt; text.ends_with(b"0 begin 1.1 -> refused thinking\n"));
}

#[test]
fn two_threads_eat_by_turns(rt: HostRuntime) {
    let closed = eat_in_turns(&rt, rt.alloc(), limits(&rt, 8, 8), 5);
    let closed = closed.ok().expect(&rt, "memory");
    let found = (closed.verdict, closed.journal.len());
    same(&rt, found, (Verdict::Settled, 33));
    is_audited(&rt, &closed.journal);
}
