//! A race: the setup first, and then the workers, each in a thread of its own.

ghost use Rattle.std.specs.Prelude.{◌≡◌, ◌<◌, ◌∷◌, [], IfOk, IfSome, IsTrue, OnOk, length};
ghost use Rattle.std.specs.List.{list_any};
ghost use Rattle.dine_front.specs.Opening.{CanOpen};
ghost use Rattle.dine_front.specs.Passes.{AreNew};
ghost use Rattle.dine_race.specs.Races.{AreFirst, HasRaced, IsOutcome};
ghost use Rattle.dine_race.specs.Runners.{HasRun};
ghost use Rattle.dine_race.specs.Runs.{lines_of_setup};
ghost use Rattle.dine_race.specs.StepKinds.{looks, worker_looks};

use crate::gate::Gate;
use crate::runner::Runner;
use crate::threads::run_workers;
use dine_front::{Front, FrontFault, LEDGER_PARTS, Naming, Opened, Pass, Verdict};
use dine_journal::{Journal, Receipts};
use dine_lines::{Names, Seed};
use dine_scenario::{NamedCall, Scenario, Step, Worker};
use std::alloc::{AllocError, Global};
use std::marker::Brand;
use std::sync::Wait;
use std::sync::ledger::Blank;
use std::thread::Threads;

/// What comes of a race. Its text, the report, is written in `report.rt`. None is read.
#[derive(Drop)]
pub struct Raced {
    /// The names that the setup bound, in the order of its lines.
    pub names: Names,
    pub journal: Journal,
    pub verdict: Verdict,
}

// Carries out the lines of the setup, before anybody else makes a call.
fn set_up<J: Naming, R: Wait>(
    rt: &R,
    alloc: Global,
    front: &Front<J>,
    pass: Pass<J>,
    setup: &[NamedCall],
    seed: Seed,
) -> Result<Runner<J>, FrontFault>
    ensures run { IfOk result (λ runner.
        HasRun (record { pass = pass; names = [] }) (lines_of_setup setup.now) runner) }
    ensures first { IfOk result (λ runner. AreFirst runner.pass.receipts) }
{
    let mut runner = Runner::new(pass, Names::new_seeded(alloc, seed));
    run_setup(rt, front, &mut runner, setup)?;
    Ok(runner)
}

// The same by this runner, which has no names at first.
fn run_setup<J: Naming, R: Wait>(
    rt: &R,
    front: &Front<J>,
    runner: &mut Runner<J>,
    setup: &[NamedCall],
) -> Result<(), FrontFault>
    ensures run { OnOk result (HasRun runner.old (lines_of_setup setup.now) runner.new) }
    ensures first { OnOk result (AreFirst runner.new.pass.receipts) }
{
    for line in setup {
        runner.take(rt, front, &Step::Call(*line))?;
    }
    // Nobody else has a pass yet, so the places are the first. The front's contracts speak of one pass at a time and do
    // not tell.
    if !are_first(&runner.receipts()) {
        return Err(FrontFault::Memory);
    }
    Ok(())
}

// Whether the places of these receipts are the first of the history.
fn are_first(receipts: &Receipts<'_>) -> bool
    ensures { IsTrue result → AreFirst receipts.now }
{
    for place in 0..receipts.len() {
        if let Some((_, answer)) = receipts.get(place)
            && answer.place != place as u64
        {
            return false;
        }
    }
    true
}

// Puts a pass in front of the others.
fn put_first<J: Naming>(passes: &mut Vec<Pass<J>>, first: Pass<J>) -> Result<(), AllocError>
    ensures { OnOk result (passes.new.items ≡ first ∷ passes.old.items) }
{
    passes.insert(0, first)?;
    Ok(())
}

// The setup, and then the workers.
fn run_all<J: Naming + Send + Sync, R: Threads + Wait + Sync, G: Gate + Sync>(
    rt: &R,
    alloc: Global,
    front: &Front<J>,
    gate: &G,
    mut passes: Vec<Pass<J>>,
    scenario: &Scenario,
    seed: Seed,
) -> Result<(Names, Vec<Pass<J>>), FrontFault>
    requires some { 0 < length scenario.now.workers.items }
    requires new { AreNew (length scenario.now.workers.items) passes.items }
    ensures { IfOk result (λ raced. HasRaced scenario.now raced.0 raced.1.items) }
{
    let first = passes.remove(0);
    let (first, names) = set_up(rt, alloc, front, first, &scenario.setup, seed)?.into_parts();
    put_first(&mut passes, first)?;
    let handed = run_workers(rt, alloc, front, gate, passes, &names, &scenario.workers)?;
    Ok((names, handed))
}

/// Runs a race: opens a front with a pass for each worker, carries out the setup on pass 0, and lets each worker do its
/// steps in a thread of its own. The gate is told of each step of a worker.
///
/// An error is want of memory, or of a thread for a worker. The race ends then as well: the front is stopped, so nobody
/// waits for a worker that has ended. A race in which a task that others wait for stays hungry or eating may wait for ever.
///
/// Its names are found by hashes of this seed: under a seed that a stranger knows, names that are chosen for it can
/// make it slow.
pub fn race<R: Threads + Wait + Sync, G: Gate + Sync>(
    rt: &R,
    alloc: Global,
    scenario: &Scenario,
    gate: &G,
    seed: Seed,
) -> Result<Raced, AllocError>
    ensures { IfOk result (λ raced.
        IsOutcome scenario.now raced.names raced.journal raced.verdict) }
{
    let Some(opened) = opened_for(scenario) else {
        return Err(AllocError);
    };
    let ledger = Blank::new(LEDGER_PARTS);
    race_named::<Brand, R, G>(rt, alloc, ledger, opened, scenario, gate, seed)
}

// What the front of a race is opened from. Its passes look if a worker does, and else not: publishing is most of a call's
// work.
fn opened_for(scenario: &Scenario) -> Option<Opened>
    ensures limits { IfSome result (λ opened. opened.limits ≡ scenario.now.limits) }
    ensures passes { IfSome result (λ opened.
        opened.passes ≡ length scenario.now.workers.items) }
    ensures looks { IfSome result (λ opened.
        opened.looks ≡ list_any worker_looks scenario.now.workers.items) }
{
    let opened = Opened::new(scenario.limits, scenario.workers.len() as u32).ok()?;
    if somebody_looks(&scenario.workers) {
        Some(opened)
    } else {
        Some(opened.without_looks())
    }
}

// Whether a step is a look.
fn looks(step: &Step) -> bool
    ensures { result ≡ looks step.now }
{
    matches!(step, Step::Look(_))
}

// Whether a worker has a look among its steps.
fn worker_looks(worker: &Worker) -> bool
    ensures { result ≡ worker_looks worker.now }
{
    worker.steps.iter().any(|step| looks(step))
}

// Whether some worker has one.
fn somebody_looks(workers: &[Worker]) -> bool
    ensures { result ≡ list_any worker_looks workers.now }
{
    workers.iter().any(|worker| worker_looks(worker))
}

// Runs a race whose front has this name.
fn race_named<J: Naming + Send + Sync, R: Threads + Wait + Sync, G: Gate + Sync>(
    rt: &R,
    alloc: Global,
    ledger: Blank,
    opened: Opened,
    scenario: &Scenario,
    gate: &G,
    seed: Seed,
) -> Result<Raced, AllocError>
    requires opens { CanOpen J.name J.parts J.limits J.passes J.book ledger opened }
    requires limits { opened.limits ≡ scenario.now.limits }
    requires passes { opened.passes ≡ length scenario.now.workers.items }
    requires looks { opened.looks ≡ list_any worker_looks scenario.now.workers.items }
    ensures { IfOk result (λ raced.
        IsOutcome scenario.now raced.names raced.journal raced.verdict) }
{
    let Ok((front, passes)) = Front::<J>::open(rt, alloc, ledger, opened) else {
        return Err(AllocError);
    };
    match run_all(rt, alloc, &front, gate, passes, scenario, seed) {
        Ok((names, handed)) => {
            let closed = front.close(rt, handed);
            Ok(Raced {
                names,
                journal: closed.journal,
                verdict: closed.verdict,
            })
        }
        Err(_) => {
            front.close(rt, Vec::new(alloc));
            Err(AllocError)
        }
    }
}
