//! How a scenario is read.

ghost use Rattle.std.specs.Prelude.{◌≡◌, ◌≢◌, ◌≤◌, [], map, IfErr, IfOk, OnOk, length, vec_len};
ghost use Rattle.std.specs.Option.{ok_or};
ghost use Rattle.toml.specs.View.{table_view};
ghost use Rattle.dine_scenario.specs.Forms.{form_plan, worker_form_plan};
ghost use Rattle.dine_scenario.specs.Lent.{lent};
ghost use Rattle.dine_scenario.specs.Outcomes.{Reads};
ghost use Rattle.dine_scenario.specs.Plan.{plan_in, worker_plan};
ghost use Rattle.dine_scenario.specs.Ranges.{most_workers};
ghost use Rattle.dine_scenario.specs.Scenarios.{document_of, known_after_all, plan_asked, scenario_of, setup_asked, steps_asked, worker_asked, workers_asked};

use crate::known::KnownNames;
use crate::scenario::{NamedCall, Scenario, Step, Worker};
use crate::scenario_fault::ScenarioFault;
use crate::table_form::{Form, WorkerForm};
use dine_lines::Seed;
use std::alloc::Global;
use toml::Table;

/// Reads the text of a scenario.
///
/// An error other than want of memory is the first of these checks that the text fails: it is UTF-8 and TOML
/// (`Toml`); it has the keys of a scenario and no others, each with a value of its type and in its range (`Scenario`);
/// the lines of the setup have no fault (`Setup`); the steps of the workers have none (`Worker`).
///
/// Its names are found by hashes of this seed: under a seed that a stranger knows, names that are chosen for it can
/// make it slow.
pub fn read_scenario(alloc: Global, text: &[u8], seed: Seed) -> Result<Scenario, ScenarioFault>
    ensures ok { IfOk result (λ scenario. scenario_of text.now ≡ Ok (plan_in scenario)) }
    ensures fault { IfErr result (λ fault.
        fault ≢ ScenarioFault.Memory → scenario_of text.now ≡ Err fault) }
{
    let document = read_document(alloc, text)?;
    let form = Form::read(alloc, &document)?;
    read_lines(alloc, &form, seed)
}

// Reads the document that a text is.
fn read_document(alloc: Global, text: &[u8]) -> Result<Table, ScenarioFault>
    ensures { Reads table_view result (ok_or (document_of text.now) ScenarioFault.Toml) }
{
    match toml::table_from_slice(alloc, text) {
        Ok(document) => Ok(document),
        Err(fault) => {
            if fault.is_memory() {
                Err(ScenarioFault::Memory)
            } else {
                Err(ScenarioFault::Toml)
            }
        }
    }
}

// Reads the lines of a scenario.
fn read_lines(alloc: Global, form: &Form, seed: Seed) -> Result<Scenario, ScenarioFault>
    ensures { Reads plan_in result (plan_asked (form_plan form.now)) }
{
    let mut known = KnownNames::new(alloc, seed);
    let setup = read_setup(alloc, &form.setup, &mut known)?;
    let workers = read_workers(alloc, &form.workers, &known)?;
    Ok(Scenario {
        limits: form.limits,
        setup,
        workers,
    })
}

// Reads the lines of the setup, and learns the names that they join.
fn read_setup(
    alloc: Global,
    lines: &[&[u8]],
    known: &mut KnownNames,
) -> Result<Vec<NamedCall>, ScenarioFault>
    requires { known.old ≡ [] }
    ensures read { Reads (λ calls. calls.items) result (setup_asked (lent lines.now)) }
    ensures known { IfOk result (λ calls. known.new ≡ known_after_all calls.items) }
{
    let mut calls = Vec::with_capacity(alloc, lines.len())?;
    for (index, line) in lines.iter().enumerate() {
        let call = match known.read_setup_line(line) {
            Ok(call) => call,
            Err(kind) => return Err(ScenarioFault::Setup(index as u64 + 1, kind)),
        };
        known.learn(&call)?;
        calls.push(call)?;
    }
    Ok(calls)
}

// Reads the workers, each of which starts with the known names.
fn read_workers(
    alloc: Global,
    forms: &[WorkerForm],
    known: &KnownNames,
) -> Result<Vec<Worker>, ScenarioFault>
    requires { length forms.now ≤ most_workers }
    ensures read { Reads (λ workers. map worker_plan workers.items) result
        (workers_asked known.now 0 (map worker_form_plan forms.now)) }
    ensures len { IfOk result (λ workers. vec_len workers ≡ length forms.now) }
{
    let mut workers = Vec::with_capacity(alloc, forms.len())?;
    push_workers(alloc, &mut workers, forms, known)?;
    Ok(workers)
}

// Reads the workers into an empty vector.
fn push_workers(
    alloc: Global,
    workers: &mut Vec<Worker>,
    forms: &[WorkerForm],
    known: &KnownNames,
) -> Result<(), ScenarioFault>
    requires none { workers.old.items ≡ [] }
    requires few { length forms.now ≤ most_workers }
    ensures read { Reads (λ _. map worker_plan workers.new.items) result
        (workers_asked known.now 0 (map worker_form_plan forms.now)) }
    ensures len { OnOk result (vec_len workers.new ≡ length forms.now) }
{
    for (index, form) in forms.iter().enumerate() {
        let worker = read_worker(alloc, form, index as u32, known)?;
        workers.push(worker)?;
    }
    Ok(())
}

// Reads a worker, which starts with the known names.
fn read_worker(
    alloc: Global,
    form: &WorkerForm,
    number: u32,
    known: &KnownNames,
) -> Result<Worker, ScenarioFault>
    ensures { Reads worker_plan result
        (worker_asked known.now number (worker_form_plan form.now)) }
{
    let mut known = known.copy()?;
    let steps = read_steps(alloc, &form.steps, number, &mut known)?;
    Ok(Worker {
        repeat: form.repeat,
        steps,
    })
}

// Reads the lines of a worker, and learns the names that they join.
fn read_steps(
    alloc: Global,
    lines: &[&[u8]],
    worker: u32,
    known: &mut KnownNames,
) -> Result<Vec<Step>, ScenarioFault>
    ensures { Reads (λ steps. steps.items) result
        (steps_asked known.old worker (lent lines.now)) }
{
    let mut steps = Vec::with_capacity(alloc, lines.len())?;
    push_steps(&mut steps, lines, worker, known)?;
    Ok(steps)
}

// Reads the lines of a worker into an empty vector, and learns the names that they join.
fn push_steps(
    steps: &mut Vec<Step>,
    lines: &[&[u8]],
    worker: u32,
    known: &mut KnownNames,
) -> Result<(), ScenarioFault>
    requires { steps.old.items ≡ [] }
    ensures { Reads (λ _. steps.new.items) result
        (steps_asked known.old worker (lent lines.now)) }
{
    for (index, line) in lines.iter().enumerate() {
        let step = match known.read_worker_line(line) {
            Ok(step) => step,
            Err(kind) => return Err(ScenarioFault::Worker(worker, index as u64 + 1, kind)),
        };
        known.learn_from(step.as_call())?;
        steps.push(step)?;
    }
    Ok(())
}
