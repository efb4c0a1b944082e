//! Workers in threads of their own.

ghost use Rattle.std.specs.Prelude.{◌≡◌, true, IfOk, IsErrOf, length, vec_len};
ghost use Rattle.std.specs.List.{list_any};
ghost use Rattle.dine_race.specs.Works.{AreDone, IsWorkDone, work_may_wait, work_with, worker_may_wait, works_with};

use crate::gate::Gate;
use crate::runner::Runner;
use crate::start::Start;
use crate::worker::work;
use dine_front::{Front, FrontFault, Naming, Pass};
use dine_lines::Names;
use dine_scenario::Worker;
use std::alloc::{AllocError, Global};
use std::marker::Model;
use std::snapshot::Snapshot;
use std::sync::Wait;
use std::thread;
use std::thread::{Promise, PromisedHandle, Scope, Threads};

// What the thread of a worker promises: the work, as it was when the thread was started.
#[derive(Drop)]
struct WorkOf<J: Naming> {
    before: Snapshot<Runner<J>>,
    worker: Snapshot<Worker>,
}

impl<J: Naming> Model for WorkOf<J> {
    ghost use Rattle.dine_race.specs.Works.{Work};

    ghost Value = { Work };

    ghost view = { λ work. record { before = work.before.value; worker = work.worker.value } };
}

impl<J: Naming> Promise<Result<Pass<J>, FrontFault>> for WorkOf<J> {
    ghost use Rattle.std.specs.Prelude.{◌≡◌, true, IfOk, IsErrOf};
    ghost use Rattle.dine_front.specs.declared.front_fault.FrontFault.TheVariants.{Stopped as stopped};
    ghost use Rattle.dine_race.specs.Works.{IsWorkDone, work_may_wait};

    ghost kept_by = { λ work result. IfOk result (IsWorkDone work)
        × (IsErrOf result stopped → work_may_wait work ≡ true) };
}

// A worker at work in a thread of its own.
#[derive(Drop)]
struct AtWork<J: Naming> {
    thread: PromisedHandle<Result<Pass<J>, FrontFault>, WorkOf<J>>,
}

impl<J: Naming> Model for AtWork<J> {
    ghost use Rattle.dine_race.specs.Works.{Work};

    ghost Value = { Work };

    ghost view = { λ at_work. at_work.thread.promise };
}

impl<J: Naming> AtWork<J> {
    // Starts a worker with this pass, and with these names. An error is want of memory, or of a thread.
    fn start<'s, E, R: Wait + Sync, G: Gate + Sync>(
        scope: &Scope<'s, E>,
        rt: &'s R,
        front: &'s Front<J>,
        start: &'s Start<'s, G>,
        pass: Pass<J>,
        names: &Names,
        worker: &'s Worker,
    ) -> Result<AtWork<J>, AllocError>
    where
        J: Send + Sync,
        ensures { IfOk result (λ at_work. at_work ≡ work_with names.now pass worker.entry.now) }
    {
        let runner = Runner::new(pass, names.copy()?);
        let promise = WorkOf {
            before: Snapshot::of(&runner),
            worker: Snapshot::of(worker),
        };
        match scope.spawn_with(promise, move || work(rt, front, start, runner, worker)) {
            Ok(thread) => Ok(AtWork { thread }),
            Err(_) => Err(AllocError),
        }
    }

    // Waits until the worker ends, and answers the pass that it hands back.
    fn end<R: Threads>(self, rt: &R) -> Result<Pass<J>, FrontFault>
        ensures done { IfOk result (IsWorkDone self) }
        ensures stopped { IsErrOf result FrontFault.Stopped → work_may_wait self ≡ true }
    {
        let AtWork { thread } = self;
        thread.join(rt)
    }
}

// Waits for each worker in turn, and gathers their passes.
fn end_all<J: Naming, R: Threads>(
    rt: &R,
    alloc: Global,
    all: Vec<AtWork<J>>,
) -> Result<Vec<Pass<J>>, FrontFault>
    ensures done { IfOk result (λ passes. AreDone all.items passes.items) }
    ensures stopped { IsErrOf result FrontFault.Stopped → list_any work_may_wait all.items ≡ true }
{
    let mut passes = Vec::with_capacity(alloc, all.len())?;
    for at_work in all {
        passes.reserve(1)?;
        passes.push_reserved(at_work.end(rt)?);
    }
    Ok(passes)
}

// Starts each worker with the pass of its number, and with these names, and waits for them all. An error leaves some of
// those who were started at work.
fn start_and_end<'s, E, J: Naming + Send + Sync, R: Threads + Wait + Sync, G: Gate + Sync>(
    scope: &Scope<'s, E>,
    rt: &'s R,
    alloc: Global,
    front: &'s Front<J>,
    start: &'s Start<'s, G>,
    passes: Vec<Pass<J>>,
    names: &Names,
    workers: &'s [Worker],
) -> Result<Vec<Pass<J>>, FrontFault>
    requires { vec_len passes ≡ length workers.now }
    ensures done { IfOk result (λ handed.
        AreDone (works_with names.now passes.items workers.entry.now) handed.items) }
    ensures stopped { IsErrOf result FrontFault.Stopped
        → list_any worker_may_wait workers.entry.now ≡ true }
{
    let mut at_work = Vec::with_capacity(alloc, workers.len())?;
    for pass in passes {
        let worker = &workers[at_work.len()];
        at_work.reserve(1)?;
        at_work.push_reserved(AtWork::start(scope, rt, front, start, pass, names, worker)?);
    }
    end_all(rt, alloc, at_work)
}

/// Lets each worker do its steps in a thread of its own, until all of them have ended. A worker has the pass of its number,
/// and these names at first. None begins before all have come. Their passes come back in order.
///
/// Where one can't be started or meets want of memory, the front is stopped and the start is opened, so that no other waits
/// for it for ever. Only a worker with a meal among its steps is told so.
pub(crate) fn run_workers<J: Naming + Send + Sync, R: Threads + Wait + Sync, G: Gate + Sync>(
    rt: &R,
    alloc: Global,
    front: &Front<J>,
    gate: &G,
    passes: Vec<Pass<J>>,
    names: &Names,
    workers: &[Worker],
) -> Result<Vec<Pass<J>>, FrontFault>
    requires { vec_len passes ≡ length workers.now }
    ensures done { IfOk result (λ handed.
        AreDone (works_with names.now passes.items workers.now) handed.items) }
    ensures stopped { IsErrOf result FrontFault.Stopped
        → list_any worker_may_wait workers.now ≡ true }
{
    let start = Start::new(gate, workers.len());
    thread::scope(
        thread::scope_env(),
        rt,
        |scope| -> Result<Vec<Pass<J>>, FrontFault>
            requires { vec_len passes ≡ length workers.now }
            ensures done { IfOk result (λ handed.
                AreDone (works_with names.entry.now passes.items workers.entry.now) handed.items) }
            ensures stopped { IsErrOf result FrontFault.Stopped
                → list_any worker_may_wait workers.entry.now ≡ true }
        {
            let handed = start_and_end(scope, rt, alloc, front, &start, passes, names, workers);
            if handed.is_err() {
                front.stop(rt);
                start.open();
            }
            handed
        },
    )
}
