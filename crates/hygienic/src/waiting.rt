//! Who waits in a race that stands still, and for whom.

use dine_lines::Name;
use dine_scenario::{NamedCall, Scenario, Step};
use dine_words::CallOnTwo;
use std::alloc::{AllocError, Global};

/// A race in which no step begins or ends for so many seconds stands still.
pub const SECONDS_STILL: u64 = 5;

/// Who is to eat in the last step that a worker has begun, if it is a meal. `begun` counts its steps.
pub fn meal_at(scenario: &Scenario, worker: usize, begun: u64) -> Option<Name> {
    let steps = scenario.workers.get(worker)?.steps.as_slice();
    let place = begun.checked_sub(1)?.checked_rem(steps.len() as u64)?;
    match steps.get(place as usize)? {
        Step::Eat(name) => Some(*name),
        Step::Call(_) | Step::Look(_) => None,
    }
}

/// What is told of a worker that waits to eat with a task.
pub fn waiting_text(
    alloc: Global,
    scenario: &Scenario,
    worker: usize,
    name: Name,
) -> Result<String, AllocError> {
    let rivals = rivals_of(alloc, scenario, name)?;
    let mut text = format!(in alloc;
        "note: no step has ended for {SECONDS_STILL} seconds: worker {worker} waits to eat with "
    )?;
    push_name(&mut text, name)?;
    text.push_str(", in conflict with")?;
    for rival in rivals {
        text.push(' ')?;
        push_name(&mut text, rival)?;
    }
    Ok(text)
}

// With whom the setup leaves a task in conflict.
fn rivals_of(alloc: Global, scenario: &Scenario, name: Name) -> Result<Vec<Name>, AllocError> {
    let mut rivals = Vec::new(alloc);
    for call in &scenario.setup {
        match call {
            NamedCall::OnTwo(CallOnTwo::Conflict, one, other) => {
                if let Some(rival) = other_of(name, *one, *other) {
                    rivals.push(rival)?;
                }
            }
            NamedCall::OnTwo(CallOnTwo::Separate, one, other) => {
                if let Some(rival) = other_of(name, *one, *other) {
                    rivals.retain(|known| *known != rival);
                }
            }
            NamedCall::Join(_) | NamedCall::OnOne(..) => {}
        }
    }
    Ok(rivals)
}

// The other of two names, where this is one of them.
fn other_of(name: Name, one: Name, other: Name) -> Option<Name> {
    if name == one {
        Some(other)
    } else if name == other {
        Some(one)
    } else {
        None
    }
}

// Appends a name, whose letters are of ASCII.
fn push_name(text: &mut String, name: Name) -> Result<(), AllocError> {
    for letter in name.letters() {
        text.push(char::from(*letter))?;
    }
    Ok(())
}
