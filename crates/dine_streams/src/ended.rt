//! How an engine of the program ends.

ghost use Rattle.std.specs.Prelude.{◌≡◌};
ghost use Rattle.dine_streams.specs.declared.ended.CliFault.TheVariants.{Memory, Write};
ghost use Rattle.dine_streams.specs.GivingUp.{fault_of_input};
ghost use Rattle.dine_streams.specs.Ending.{IsEndMarked, IsEnded, end_of, exit_status, last_line, status_of};

use crate::input::InputFault;
use crate::whole::write_whole;
use dine_words::{Failed, Sink};
use std::alloc::AllocError;
use thiserror::Error;

/// How a run came to its end. The program's exit status is 0, 1 or 2, in this order.
#[derive(Clone, Copy, Debug, PartialEq, Eq, Hash)]
pub enum Ended {
    /// There was nothing to find fault with. A refused call is no fault.
    Good,
    /// What was examined is in good form, and is wrong.
    Wrong,
    /// The input has a fault.
    Fault,
}

impl Ended {
    /// The exit status of a run that ended so.
    pub fn status(self) -> u8
        ensures { result ≡ status_of self }
    {
        match self {
            Ended::Good => 0,
            Ended::Wrong => 1,
            Ended::Fault => 2,
        }
    }
}

/// How a run ends of which a line has a fault, or none has.
pub fn end_of(has_fault: bool) -> Ended
    ensures { result ≡ end_of has_fault }
{
    if has_fault { Ended::Fault } else { Ended::Good }
}

/// Why a run gave up. The program's exit status is 3.
#[derive(Clone, Copy, Debug, PartialEq, Eq, Hash, Error)]
pub enum CliFault {
    /// Memory ran out.
    #[error("out of memory")]
    Memory,
    /// A read failed, or the input is longer than an input may be.
    #[error("a read failed")]
    Read,
    /// A write failed, or took none of some bytes.
    #[error("a write failed")]
    Write,
}

impl CliFault {
    // What the program writes last after a run that gave up so: nothing after a failed write.
    fn last_line(self) -> &'static [u8]
        ensures { result.now ≡ last_line self }
    {
        match self {
            CliFault::Memory => b"fault memory\n",
            CliFault::Read => b"fault read\n",
            CliFault::Write => b"",
        }
    }
}

impl From<AllocError> for CliFault {
    ghost from_gives = { λ _ fault. fault ≡ Memory };

    fn from(_: AllocError) -> CliFault {
        CliFault::Memory
    }
}

impl From<InputFault> for CliFault {
    ghost from_gives = { λ reason fault. fault ≡ fault_of_input reason };

    fn from(reason: InputFault) -> CliFault {
        match reason {
            InputFault::Read => CliFault::Read,
            InputFault::Memory => CliFault::Memory,
        }
    }
}

// A `Failed` comes from a write: a read that fails is an `InputFault`.
impl From<Failed> for CliFault {
    ghost from_gives = { λ _ fault. fault ≡ Write };

    fn from(_: Failed) -> CliFault {
        CliFault::Write
    }
}

/// Ends the program: writes the last line of a run that gave up, if it can be written, and answers the exit status.
pub fn finish<W: Sink>(outcome: Result<Ended, CliFault>, writer: &mut W) -> u8
    ensures status { result ≡ exit_status outcome }
    ensures line { IsEnded outcome (W.contents writer.old) (W.contents writer.new) }
    ensures mark { IsEndMarked outcome (W.mark writer.old) (W.mark writer.new) }
{
    match outcome {
        Ok(ended) => ended.status(),
        Err(fault) => {
            let _ = write_whole(writer, fault.last_line());
            3
        }
    }
}
