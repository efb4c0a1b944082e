//! What an audit answers.

ghost use Rattle.std.specs.Prelude.{◌≡◌};
ghost use Rattle.dine_replay.specs.declared.audit_answer.AuditFault.TheVariants.{Memory as memory};
ghost use Rattle.dine_replay.specs.FaultNumbers.{number_of_audit_fault};

use dine_words::Reply;
use std::alloc::AllocError;
use thiserror::Error;

/// Why a text is not that of a legal history. Lines are counted from 0, the header's.
#[derive(Clone, Copy, Debug, PartialEq, Eq, Error)]
pub enum AuditFault {
    /// The text doesn't begin with a header's line.
    #[error("the first line is no header")]
    Header,
    /// This line isn't an entry's, or lacks its line feed.
    #[error("line {0} is no entry")]
    Line(u64),
    /// This line is an entry's with another reply than the table's, which is given here.
    #[error("line {0} has another reply than the table")]
    Wrong(u64, Reply),
    /// A read failed, or the input is too long.
    #[error("the journal can't be read, or is too long")]
    Read,
    /// There is no memory for the text, or for the history.
    #[error("no memory for the journal")]
    Memory,
}

impl AuditFault {
    /// The number of the fault, from 1 to 5, in the order in which they stand here.
    pub fn number(self) -> u32
        ensures { result ≡ number_of_audit_fault self }
    {
        match self {
            AuditFault::Header => 1,
            AuditFault::Line(_) => 2,
            AuditFault::Wrong(..) => 3,
            AuditFault::Read => 4,
            AuditFault::Memory => 5,
        }
    }
}

impl From<AllocError> for AuditFault {
    ghost from_gives = { λ _ fault. fault ≡ memory };

    fn from(_error: AllocError) -> Self {
        AuditFault::Memory
    }
}

/// What is told of a legal journal of which no entry is kept.
#[derive(Clone, Copy, Debug, PartialEq, Eq)]
pub struct Checked {
    /// How many entries it has.
    pub entries: u64,
    /// The most that anybody is overtaken by another, as [`dine_journal::most_overtakes`] answers it.
    pub most_overtakes: u64,
}
