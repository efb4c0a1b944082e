//! What the tables of a scenario hold.

ghost use Rattle.std.specs.Prelude.{◌≡◌, map, option_map};
ghost use Rattle.toml.specs.Data.{get_member};
ghost use Rattle.toml.specs.View.{items_view, table_view, view};
ghost use Rattle.dine_scenario.specs.Form.{has_only, lines_in, number_in, number_or, strings_of};
ghost use Rattle.dine_scenario.specs.Lent.{lent};
ghost use Rattle.dine_scenario.specs.Outcomes.{FindsForm};

use crate::scenario_fault::ScenarioFault;
use std::alloc::Global;
use toml::{Table, Value};

/// Whether each key of a table is one of these.
pub fn has_only(table: &Table, keys: &[&str]) -> bool
    ensures { result ≡ has_only (map (λ key. key.now) keys.now) (table_view table.now) }
{
    table.keys().all(|key| keys.contains(&key.as_str()))
}

/// What a key holds.
pub fn value_at<'a>(table: &'a Table, key: &str) -> Option<&'a Value>
    ensures { option_map (λ value. view value.now) result
        ≡ get_member key.now (table_view table.now) }
{
    table.get(key)
}

/// What a key holds as a number from `low` to `high`, or the default where the key is missing.
pub fn number_at(table: &Table, key: &str, default: u32, low: u32, high: u32) -> Option<u32>
    ensures { result ≡ number_or default low high (get_member key.now (table_view table.now)) }
{
    match value_at(table, key) {
        None => Some(default),
        Some(value) => number_in(value, low, high),
    }
}

// A value as a number from `low` to `high`.
fn number_in(value: &Value, low: u32, high: u32) -> Option<u32>
    ensures { result ≡ number_in low high (view value.now) }
{
    let number = u32::try_from(value.as_integer()?).ok()?;
    if low <= number && number <= high {
        Some(number)
    } else {
        None
    }
}

/// A value as a list of strings. An error is that it is none, or want of memory.
pub fn lines_in<'a>(alloc: Global, value: &'a Value) -> Result<Vec<&'a [u8]>, ScenarioFault>
    ensures { FindsForm (λ lines. lent lines.items) result (lines_in (view value.now)) }
{
    match value.as_array() {
        Some(values) => strings_of(alloc, values),
        None => Err(ScenarioFault::Scenario),
    }
}

// Values as strings.
fn strings_of<'a>(alloc: Global, values: &'a [Value]) -> Result<Vec<&'a [u8]>, ScenarioFault>
    ensures { FindsForm (λ lines. lent lines.items) result (strings_of (items_view values.now)) }
{
    let mut lines = Vec::with_capacity(alloc, values.len())?;
    for value in values {
        let Some(line) = value.as_str() else {
            return Err(ScenarioFault::Scenario);
        };
        lines.push(line.as_bytes())?;
    }
    Ok(lines)
}
