//! Why a text is no scenario.

ghost use Rattle.std.specs.Prelude.{◌≡◌, ◌++◌, ◌+◌, ◌≤◌, codes, decimal, OnOk, OnErr, vec_capacity, vec_len};
ghost use Rattle.dine_lines.specs.Faults.{fault_text};
ghost use Rattle.dine_scenario.specs.declared.scenario_fault.ScenarioFault.TheVariants.{Memory};
ghost use Rattle.dine_scenario.specs.FaultText.{scenario_fault_text};

use dine_lines::LineFault;
use dine_words::{NUMBER_LEN, put_number, put_text};
use std::alloc::{AllocError, AllocFailed};
use thiserror::Error;

/// Why a text is no scenario: the first of the checks that it fails, in this order; or that memory ran out, which says
/// nothing of the text.
#[derive(Clone, Copy, Debug, PartialEq, Eq, Hash, Error)]
pub enum ScenarioFault {
    /// The text is not UTF-8, or no TOML.
    #[error("the scenario is no TOML text")]
    Toml,
    /// A key is unknown or missing, or its value has another type or is out of range.
    #[error("the scenario has a key too many or too few, or a value of another type or out of range")]
    Scenario,
    /// A line of the setup, counted from 1, has a fault.
    #[error("line {0} of the setup has a fault: {1:?}")]
    Setup(u64, LineFault),
    /// A worker, counted from 0, has a step, counted from 1, that has a fault.
    #[error("worker {0} has a fault in step {1}: {2:?}")]
    Worker(u32, u64, LineFault),
    /// Memory ran out.
    #[error("no memory for the scenario")]
    Memory,
}

impl From<AllocError> for ScenarioFault {
    ghost from_gives = { λ _ fault. fault ≡ Memory };

    fn from(_: AllocError) -> ScenarioFault {
        ScenarioFault::Memory
    }
}

impl<T: Drop> From<AllocFailed<T>> for ScenarioFault {
    ghost from_gives = { λ _ fault. fault ≡ Memory };

    fn from(_: AllocFailed<T>) -> ScenarioFault {
        ScenarioFault::Memory
    }
}

// The most bytes that a fault takes as text.
const FAULT_LEN: usize = 67;

impl ScenarioFault {
    /// Appends the fault as it stands in output, as `fault setup 2 unbound`, with no line feed. On `Err` the content of
    /// `out` is unchanged.
    pub fn write_to(&self, out: &mut Vec<u8>) -> Result<(), AllocError>
        ensures ok { OnOk result (out.new.items ≡ out.old.items ++ scenario_fault_text self.now) }
        ensures err { OnErr result (out.new.items ≡ out.old.items) }
    {
        out.reserve(FAULT_LEN)?;
        match *self {
            ScenarioFault::Toml => put_text(out, b"fault toml"),
            ScenarioFault::Scenario => put_text(out, b"fault scenario"),
            ScenarioFault::Setup(line, kind) => {
                put_text(out, b"fault setup ");
                put_place(out, line, kind);
            }
            ScenarioFault::Worker(worker, step, kind) => {
                put_text(out, b"fault worker ");
                put_number(out, u64::from(worker));
                put_text(out, b" step ");
                put_place(out, step, kind);
            }
            ScenarioFault::Memory => put_text(out, b"fault memory"),
        }
        Ok(())
    }
}

// Appends the number of a line, a space, and the kind of its fault.
fn put_place(out: &mut Vec<u8>, line: u64, kind: LineFault)
    requires { vec_len out.old + NUMBER_LEN + 8 ≤ vec_capacity out.old }
    ensures { out.new.items ≡ out.old.items ++ decimal line ++ codes " " ++ fault_text kind }
{
    put_number(out, line);
    put_text(out, b" ");
    put_text(out, kind.text().as_bytes());
}
