//! What is wrong with a scenario.

use crate::scenario::{MAX_REPEAT, MAX_WORKERS};
use crate::scenario_fault::ScenarioFault;
use dine_lines::{LineFault, Place, Remark, push_line_fault};
use dine_words::{MAX_CONFLICTS, MAX_TASKS};
use std::alloc::{AllocError, Global};
use toml::{Table, Value};

/// Says what is wrong with the text of a scenario that fails this check. On `Err` memory has run out, and a part may have
/// been said.
pub fn push_scenario_fault(
    alloc: Global,
    remark: &mut Remark,
    text: &[u8],
    fault: ScenarioFault,
) -> Result<(), AllocError> {
    match toml::table_from_slice(alloc, text) {
        Ok(document) => push_document_fault(remark, &document, fault),
        Err(error) => push_text(alloc, remark, &error),
    }
}

// Says what is wrong with a text that is no document.
fn push_text(
    alloc: Global,
    remark: &mut Remark,
    error: &toml::de::Error,
) -> Result<(), AllocError> {
    let text = error.to_string(alloc)?;
    for (number, line) in text.lines().enumerate() {
        if number > 0 {
            remark.push(b": ")?;
        }
        remark.push(line.as_bytes())?;
    }
    Ok(())
}

// Says what is wrong with a document.
fn push_document_fault(
    remark: &mut Remark,
    document: &Table,
    fault: ScenarioFault,
) -> Result<(), AllocError> {
    match fault {
        ScenarioFault::Setup(line, kind) => {
            remark.push(b"line ")?;
            remark.push_number(line)?;
            remark.push(b" of the setup: ")?;
            push_line(remark, Place::Setup, document.get("setup"), line, kind)
        }
        ScenarioFault::Worker(worker, step, kind) => {
            remark.push(b"step ")?;
            remark.push_number(step)?;
            remark.push(b" of worker ")?;
            remark.push_number(u64::from(worker))?;
            remark.push(b": ")?;
            push_line(remark, Place::Step, steps_of(document, worker), step, kind)
        }
        ScenarioFault::Scenario => push_form_fault(remark, document),
        ScenarioFault::Toml => remark.push(b"it is no TOML"),
        ScenarioFault::Memory => remark.push(b"out of memory"),
    }
}

// The steps of a worker, counted from 0.
fn steps_of(document: &Table, worker: u32) -> Option<&Value> {
    let workers = document.get("worker")?.as_array()?;
    workers.get(worker as usize)?.as_table()?.get("steps")
}

// Says what is wrong with the line that has this number in a list, from 1.
fn push_line(
    remark: &mut Remark,
    place: Place,
    lines: Option<&Value>,
    number: u64,
    kind: LineFault,
) -> Result<(), AllocError> {
    match line_in(lines, number) {
        Some(line) => push_line_fault(remark, place, line.as_bytes(), kind),
        None => remark.push(kind.text().as_bytes()),
    }
}

// The line that has this number in a list, from 1.
fn line_in(lines: Option<&Value>, number: u64) -> Option<&str> {
    let index = usize::try_from(number.checked_sub(1)?).ok()?;
    lines?.as_array()?.get(index)?.as_str()
}

// Says which key of a document is missing, unknown or has no value that it may have.
fn push_form_fault(remark: &mut Remark, document: &Table) -> Result<(), AllocError> {
    const KEYS: &[&str] = &["tasks", "conflicts", "setup", "worker"];
    if let Some(key) = unknown_key(document, KEYS) {
        return push_unknown(
            remark,
            key,
            b"a scenario has the keys tasks, conflicts, setup and worker",
        );
    }
    if !has_number(document, "tasks", 1, MAX_TASKS) {
        return push_range(remark, b"tasks", 1, MAX_TASKS);
    }
    if !has_number(document, "conflicts", 1, MAX_CONFLICTS) {
        return push_range(remark, b"conflicts", 1, MAX_CONFLICTS);
    }
    if !document.get("setup").is_none_or(is_lines) {
        return remark.push(b"'setup' is a list of strings");
    }
    match document.get("worker").and_then(|value| value.as_array()) {
        Some(workers) => push_workers_fault(remark, workers),
        None => remark.push(b"there is no [[worker]]"),
    }
}

// Says what is wrong with the list of workers.
fn push_workers_fault(remark: &mut Remark, workers: &[Value]) -> Result<(), AllocError> {
    if workers.len() > MAX_WORKERS {
        return remark.push(b"there are more than 16 workers");
    }
    for (number, worker) in workers.iter().enumerate() {
        if !is_worker(worker) {
            remark.push(b"worker ")?;
            remark.push_number(number as u64)?;
            remark.push(b": ")?;
            return push_worker_fault(remark, worker);
        }
    }
    remark.push(b"there is no worker")
}

// Whether a value is a worker.
fn is_worker(value: &Value) -> bool {
    match value.as_table() {
        Some(worker) => {
            unknown_key(worker, &["repeat", "steps"]).is_none()
                && has_number(worker, "repeat", 0, MAX_REPEAT)
                && worker.get("steps").is_some_and(is_lines)
        }
        None => false,
    }
}

// Says what is wrong with a worker.
fn push_worker_fault(remark: &mut Remark, value: &Value) -> Result<(), AllocError> {
    let Some(worker) = value.as_table() else {
        return remark.push(b"it is no table");
    };
    if let Some(key) = unknown_key(worker, &["repeat", "steps"]) {
        return push_unknown(remark, key, b"a worker has the keys repeat and steps");
    }
    if !has_number(worker, "repeat", 0, MAX_REPEAT) {
        return push_range(remark, b"repeat", 0, MAX_REPEAT);
    }
    remark.push(b"'steps' is a list of strings, and there is always one")
}

// The first key of a table that is none of these.
fn unknown_key<'a>(table: &'a Table, known: &[&str]) -> Option<&'a str> {
    let key = table.keys().find(|key| !known.contains(&key.as_str()))?;
    Some(key.as_str())
}

// Says that there is no such key, and which there are.
fn push_unknown(remark: &mut Remark, key: &str, keys: &[u8]) -> Result<(), AllocError> {
    remark.push(b"no such key ")?;
    remark.push_quoted(key.as_bytes())?;
    remark.push(b": ")?;
    remark.push(keys)
}

// Whether a key is left out, or is a number from `low` to `high`.
fn has_number(table: &Table, key: &str, low: u32, high: u32) -> bool {
    match table.get(key) {
        Some(value) => match value.as_integer() {
            Some(number) => i64::from(low) <= number && number <= i64::from(high),
            None => false,
        },
        None => true,
    }
}

// Says of a key that it is a number, and from where to where.
fn push_range(remark: &mut Remark, key: &[u8], low: u32, high: u32) -> Result<(), AllocError> {
    remark.push_quoted(key)?;
    remark.push(b" is a number from ")?;
    remark.push_number(u64::from(low))?;
    remark.push(b" to ")?;
    remark.push_number(u64::from(high))
}

// Whether a value is a list of strings.
fn is_lines(value: &Value) -> bool {
    match value.as_array() {
        Some(lines) => lines.iter().all(|line| line.is_str()),
        None => false,
    }
}
