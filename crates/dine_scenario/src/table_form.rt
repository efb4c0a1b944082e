//! The form of a scenario: which keys its tables have, and what the keys hold. The lines are found here, and not read yet.

ghost use Rattle.std.specs.Prelude.{◌≡◌, ◌≤◌, IfOk, length, map, option_map, vec_len};
ghost use Rattle.toml.specs.View.{items_view, table_view, view};
ghost use Rattle.dine_scenario.specs.Form.{limits_of};
ghost use Rattle.dine_scenario.specs.Ranges.{most_repeats, most_workers};

use crate::scenario::{MAX_REPEAT, MAX_WORKERS};
use crate::scenario_fault::ScenarioFault;
use crate::value::{has_only, lines_in, number_at, value_at};
use dine_words::{DEFAULT_CONFLICTS, DEFAULT_TASKS, Limits, MAX_CONFLICTS, MAX_TASKS};
use std::alloc::Global;
use toml::{Table, Value};

/// How often a worker does its steps, where a scenario doesn't say.
pub const DEFAULT_REPEAT: u32 = 1;

/// A scenario whose lines are still to be read.
#[derive(Drop)]
pub struct Form<'a> {
    pub limits: Limits,
    pub setup: Vec<&'a [u8]>,
    pub workers: Vec<WorkerForm<'a>>,
    ghost some_workers: { 1 ≤ vec_len workers },
    ghost workers_in_range: { vec_len workers ≤ most_workers },
}

/// A worker whose lines are still to be read.
#[derive(Drop)]
pub struct WorkerForm<'a> {
    pub repeat: u32,
    pub steps: Vec<&'a [u8]>,
    ghost repeat_in_range: { repeat ≤ most_repeats },
}

impl<'a> Form<'a> {
    ghost use Rattle.dine_scenario.specs.Form.{written_plan};
    ghost use Rattle.dine_scenario.specs.Forms.{form_plan};
    ghost use Rattle.dine_scenario.specs.Outcomes.{FindsForm};

    /// The document as a scenario. An error is a key too many or too few or a value of another type or out of range, or
    /// want of memory.
    pub fn read(alloc: Global, document: &'a Table) -> Result<Form<'a>, ScenarioFault>
        ensures { FindsForm form_plan result (written_plan (table_view document.now)) }
    {
        if !has_only(document, &["tasks", "conflicts", "setup", "worker"]) {
            return Err(ScenarioFault::Scenario);
        }
        let Some(limits) = limits_of(document) else {
            return Err(ScenarioFault::Scenario);
        };
        let setup = match value_at(document, "setup") {
            Some(value) => lines_in(alloc, value)?,
            None => Vec::new(alloc),
        };
        let Some(value) = value_at(document, "worker") else {
            return Err(ScenarioFault::Scenario);
        };
        let workers = WorkerForm::read_all(alloc, value)?;
        Ok(Form {
            limits,
            setup,
            workers,
        })
    }
}

// The limits that a document says.
fn limits_of(document: &Table) -> Option<Limits>
    ensures { option_map (λ limits. (limits.tasks, limits.conflicts)) result
        ≡ limits_of (table_view document.now) }
{
    let tasks = number_at(document, "tasks", DEFAULT_TASKS, 1, MAX_TASKS)?;
    let conflicts = number_at(document, "conflicts", DEFAULT_CONFLICTS, 1, MAX_CONFLICTS)?;
    Limits::new(tasks, conflicts)
}

impl<'a> WorkerForm<'a> {
    ghost use Rattle.dine_scenario.specs.Form.{each_worker, worker_in, worker_of, workers_in};
    ghost use Rattle.dine_scenario.specs.Forms.{worker_form_plan};
    ghost use Rattle.dine_scenario.specs.Outcomes.{FindsForm};

    // A value as the workers of a scenario.
    fn read_all(alloc: Global, value: &'a Value) -> Result<Vec<WorkerForm<'a>>, ScenarioFault>
        ensures read { FindsForm (λ workers. map worker_form_plan workers.items) result
            (workers_in (view value.now)) }
        ensures some { IfOk result (λ workers. 1 ≤ vec_len workers) }
        ensures range { IfOk result (λ workers. vec_len workers ≤ most_workers) }
    {
        let Some(values) = value.as_array() else {
            return Err(ScenarioFault::Scenario);
        };
        if values.is_empty() || values.len() > MAX_WORKERS {
            return Err(ScenarioFault::Scenario);
        }
        WorkerForm::read_each(alloc, values)
    }

    // Values as workers.
    fn read_each(alloc: Global, values: &'a [Value]) -> Result<Vec<WorkerForm<'a>>, ScenarioFault>
        ensures read { FindsForm (λ workers. map worker_form_plan workers.items) result
            (each_worker (items_view values.now)) }
        ensures len { IfOk result (λ workers. vec_len workers ≡ length values.now) }
    {
        let mut workers = Vec::with_capacity(alloc, values.len())?;
        for value in values {
            workers.push(WorkerForm::read(alloc, value)?)?;
        }
        Ok(workers)
    }

    // A value as a worker.
    fn read(alloc: Global, value: &'a Value) -> Result<WorkerForm<'a>, ScenarioFault>
        ensures { FindsForm worker_form_plan result (worker_in (view value.now)) }
    {
        match value.as_table() {
            Some(table) => WorkerForm::read_table(alloc, table),
            None => Err(ScenarioFault::Scenario),
        }
    }

    // A table as a worker.
    fn read_table(alloc: Global, table: &'a Table) -> Result<WorkerForm<'a>, ScenarioFault>
        ensures { FindsForm worker_form_plan result (worker_of (table_view table.now)) }
    {
        if !has_only(table, &["repeat", "steps"]) {
            return Err(ScenarioFault::Scenario);
        }
        let Some(repeat) = number_at(table, "repeat", DEFAULT_REPEAT, 0, MAX_REPEAT) else {
            return Err(ScenarioFault::Scenario);
        };
        let Some(value) = value_at(table, "steps") else {
            return Err(ScenarioFault::Scenario);
        };
        let steps = lines_in(alloc, value)?;
        Ok(WorkerForm { repeat, steps })
    }
}
