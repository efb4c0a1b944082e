//! One worker: it does its steps, and hands its pass back.

ghost use Rattle.std.specs.Prelude.{◌≡◌, ◌+◌, ◌%◌, ◌^◌, ◌<◌, ◌∷◌, [], true, false, IfOk, IsErrOf, OnOk, get_or, length, map};
ghost use Rattle.dine_scenario.specs.declared.scenario.Step.{Step};
ghost use Rattle.dine_race.specs.BoundSteps.{bound_by, some_join};
ghost use Rattle.dine_race.specs.StepKinds.{some_may_wait};
ghost use Rattle.dine_race.specs.Runners.{HandsBack, HasRun};
ghost use Rattle.dine_race.specs.Runs.{repeated};
ghost use Rattle.dine_race.specs.Works.{worker_may_wait};

use crate::bound::{BoundStep, bound_steps, some_join};
use crate::gate::Gate;
use crate::runner::Runner;
use crate::start::Start;
use dine_front::{Front, FrontFault, Naming, Pass};
use dine_scenario::{Step, Worker};
use std::sync::Wait;

/// Does the steps of a worker once all workers have come to the start, as often as it says, and hands the pass back. The
/// gate is told of each step.
///
/// A worker that meets want of memory stops the front and ends so. One that would have to wait at a stopped front ends as
/// well, and so only one that has a meal among its steps. Their passes are not handed back.
pub(crate) fn work<J: Naming, R: Wait, G: Gate>(
    rt: &R,
    front: &Front<J>,
    start: &Start<'_, G>,
    mut runner: Runner<J>,
    worker: &Worker,
) -> Result<Pass<J>, FrontFault>
    ensures done { IfOk result (λ pass.
        HandsBack runner (repeated worker.now.repeat worker.now.steps.items) pass) }
    ensures stopped { IsErrOf result FrontFault.Stopped → worker_may_wait worker.now ≡ true }
{
    start.pass(rt, runner.number());
    match do_rounds(rt, front, start.gate(), &mut runner, worker) {
        Ok(()) => Ok(runner.into_pass()),
        Err(FrontFault::Memory) => {
            front.stop(rt);
            Err(FrontFault::Memory)
        }
        Err(FrontFault::Stopped) => Err(FrontFault::Stopped),
    }
}

// Does the steps as often as the worker says. A join binds its name anew, so a worker that joins looks its names up at
// each step.
fn do_rounds<J: Naming, R: Wait, G: Gate>(
    rt: &R,
    front: &Front<J>,
    gate: &G,
    runner: &mut Runner<J>,
    worker: &Worker,
) -> Result<(), FrontFault>
    ensures done { OnOk result (HasRun runner.old
        (repeated worker.now.repeat worker.now.steps.items) runner.new) }
    ensures stopped { IsErrOf result FrontFault.Stopped → worker_may_wait worker.now ≡ true }
{
    if !some_join(&worker.steps) {
        return do_bound_rounds(rt, front, runner, gate, worker);
    }
    let mut count = 0;
    for _round in 0..worker.repeat {
        count = do_named_steps(rt, front, gate, runner, &worker.steps, count)?;
    }
    Ok(())
}

// Does the steps once, by their names. `done` steps were done before; it answers how many were done then, modulo 2^64.
fn do_named_steps<J: Naming, R: Wait, G: Gate>(
    rt: &R,
    front: &Front<J>,
    gate: &G,
    runner: &mut Runner<J>,
    steps: &[Step],
    done: u64,
) -> Result<u64, FrontFault>
    ensures run { OnOk result (HasRun runner.old steps.now runner.new) }
    ensures count { IfOk result (λ count. count ≡ (done + length steps.now) % 2 ^ 64) }
    ensures stopped { IsErrOf result FrontFault.Stopped → some_may_wait steps.now ≡ true }
{
    let worker = runner.number();
    let mut count = done;
    for step in steps {
        gate.before(worker, count);
        runner.take(rt, front, step)?;
        gate.after(worker, count);
        // No race lives to do 2^64 steps.
        count = count.wrapping_add(1);
    }
    Ok(count)
}

// Does the steps of a worker that doesn't join as often as it says. Their names are looked up once.
fn do_bound_rounds<J: Naming, R: Wait, G: Gate>(
    rt: &R,
    front: &Front<J>,
    runner: &mut Runner<J>,
    gate: &G,
    worker: &Worker,
) -> Result<(), FrontFault>
    requires still { some_join worker.now.steps.items ≡ false }
    ensures done { OnOk result (HasRun runner.old
        (repeated worker.now.repeat worker.now.steps.items) runner.new) }
    ensures stopped { IsErrOf result FrontFault.Stopped → worker_may_wait worker.now ≡ true }
{
    let bound = bound_steps(runner.names(), &worker.steps)?;
    let mut count = 0;
    for _round in 0..worker.repeat {
        count = do_bound_steps(rt, front, runner, gate, &worker.steps, &bound, count)?;
    }
    Ok(())
}

// Does the steps once, as they were looked up. `done` steps were done before; it answers how many were done then, modulo
// 2^64.
fn do_bound_steps<J: Naming, R: Wait, G: Gate>(
    rt: &R,
    front: &Front<J>,
    runner: &mut Runner<J>,
    gate: &G,
    steps: &Vec<Step>,
    bound: &Vec<BoundStep>,
    done: u64,
) -> Result<u64, FrontFault>
    requires still { some_join steps.now.items ≡ false }
    requires bound { bound.now.items ≡ map (bound_by runner.old.names) steps.now.items }
    ensures run { OnOk result (HasRun runner.old steps.now.items runner.new) }
    ensures count { IfOk result (λ count. count ≡ (done + length steps.now.items) % 2 ^ 64) }
    ensures names { OnOk result (runner.new.names ≡ runner.old.names) }
    ensures stopped { IsErrOf result FrontFault.Stopped → some_may_wait steps.now.items ≡ true }
{
    let worker = runner.number();
    let mut count = done;
    for place in 0..steps.len() {
        gate.before(worker, count);
        do_bound_step(rt, front, runner, steps, bound, place)?;
        gate.after(worker, count);
        count = count.wrapping_add(1);
    }
    Ok(count)
}

// Does one of the steps, as it was looked up. It is compiled into the loop over them.
#[inline(always)]
fn do_bound_step<J: Naming, R: Wait>(
    rt: &R,
    front: &Front<J>,
    runner: &mut Runner<J>,
    steps: &Vec<Step>,
    bound: &Vec<BoundStep>,
    place: usize,
) -> Result<(), FrontFault>
    requires inside { place < length steps.now.items }
    requires still { some_join steps.now.items ≡ false }
    requires bound { bound.now.items ≡ map (bound_by runner.old.names) steps.now.items }
    ensures run { OnOk result ((line : Step) →
        HasRun runner.old (get_or steps.now.items place line ∷ []) runner.new) }
    ensures names { OnOk result (runner.new.names ≡ runner.old.names) }
    ensures stopped { IsErrOf result FrontFault.Stopped → some_may_wait steps.now.items ≡ true }
{
    let step = &bound[place];
    runner.do_step(rt, front, step)?;
    Ok(())
}
