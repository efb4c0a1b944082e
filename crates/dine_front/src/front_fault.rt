//! Why a front was not opened, and why a call was not made.

ghost use Rattle.std.specs.Prelude.{◌≡◌};
ghost use Rattle.dine_front.specs.declared.front_fault.FrontFault.TheVariants.{Memory as memory};
ghost use Rattle.dine_front.specs.FaultNumbers.{number_of_front_fault, number_of_open_fault};

use std::alloc::AllocError;
use thiserror::Error;

/// Why a front was not opened.
#[derive(Clone, Copy, Debug, PartialEq, Eq, Error)]
pub enum OpenFault {
    /// A front has 1 to 16 passes.
    #[error("a front has 1 to 16 passes")]
    Count,
    /// There is no memory for the table or for the passes.
    #[error("no memory for the front: nothing was opened")]
    Memory,
    /// There is no place from which a pass could look.
    #[error("no place to look from: nothing was opened")]
    NoPlace,
}

impl OpenFault {
    /// The number of the fault, from 1 to 3, in the order in which they stand here.
    pub fn number(self) -> u32
        ensures { result ≡ number_of_open_fault self }
    {
        match self {
            OpenFault::Count => 1,
            OpenFault::Memory => 2,
            OpenFault::NoPlace => 3,
        }
    }
}

/// Why a call was not made.
#[derive(Clone, Copy, Debug, PartialEq, Eq, Error)]
pub enum FrontFault {
    /// There is no memory for one more entry or for one more receipt.
    #[error("no memory for the call: it was not made, and may be made again")]
    Memory,
    /// The task would have to wait, and the front is stopped.
    #[error("the front is stopped: the task can begin only once its neighbours let it")]
    Stopped,
}

impl FrontFault {
    /// The number of the fault: 1 or 2, in the order in which they stand here.
    pub fn number(self) -> u32
        ensures { result ≡ number_of_front_fault self }
    {
        match self {
            FrontFault::Memory => 1,
            FrontFault::Stopped => 2,
        }
    }
}

/// There is nothing to look at: the front was closed, or opened without looks.
#[derive(Clone, Copy, Debug, PartialEq, Eq, Error)]
#[error("nothing to look at: the front was closed, or opened without looks")]
pub struct Gone;

impl From<AllocError> for FrontFault {
    ghost from_gives = { λ _ fault. fault ≡ memory };

    fn from(_error: AllocError) -> FrontFault {
        FrontFault::Memory
    }
}
