//! Why something was not done.

ghost use Rattle.std.specs.Prelude.{◌≡◌, ⊤};
ghost use Rattle.dine_uses.specs.declared.use_fault.Fault.TheVariants.{Memory as memory};

use dine_front::{FrontFault, OpenFault};
use dine_words::Refusal;
use std::alloc::AllocError;
use thiserror::Error;

/// Why something was not done.
#[derive(Clone, Copy, Debug, PartialEq, Eq, Error)]
pub enum Fault {
    /// The arbiter refuses it.
    #[error("the arbiter refuses the call")]
    Refused(Refusal),
    /// The clock is at its end. It counts joins and finishes, so no program lives to see it.
    #[error("the arbiter counts no more joins and finishes")]
    ClockEnded,
    /// There is no memory.
    #[error("no memory")]
    Memory,
    /// The front that threads share was stopped, since one of them met a fault.
    #[error("the front is stopped")]
    Stopped,
    /// The front that threads were to share was not opened.
    #[error("no front was opened")]
    NotOpened(#[from] OpenFault),
}

impl From<AllocError> for Fault {
    ghost from_gives = { λ _ fault. fault ≡ memory };

    fn from(_error: AllocError) -> Fault {
        Fault::Memory
    }
}

impl From<FrontFault> for Fault {
    ghost from_gives = { λ _ _. ⊤ };

    fn from(fault: FrontFault) -> Fault {
        match fault {
            FrontFault::Memory => Fault::Memory,
            FrontFault::Stopped => Fault::Stopped,
        }
    }
}
