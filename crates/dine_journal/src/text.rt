//! The text of a journal.

ghost use Rattle.std.specs.Prelude.{◌≡◌};
ghost use Rattle.dine_journal.specs.declared.text.TextFault.TheVariants.{Memory, Write};
ghost use Rattle.dine_journal.specs.FaultNumbers.{number_of_text_fault};
ghost use Rattle.dine_journal.specs.GivingUp.{fault_of_text};
ghost use Rattle.dine_journal.specs.Marks.{IsWriterMarked};

use crate::journal::Journal;
use dine_streams::{CliFault, write_if_enough, write_whole};
use dine_words::{Failed, Sink};
use std::alloc::{AllocError, Global};
use thiserror::Error;

/// Why the text of a journal was not written to its end.
#[derive(Clone, Copy, Debug, PartialEq, Eq, Error)]
pub enum TextFault {
    /// A write failed, or took none of some bytes.
    #[error("the journal can't be written")]
    Write,
    /// There is no memory for the lines.
    #[error("no memory for the lines of the journal")]
    Memory,
}

impl TextFault {
    /// The number of the fault: 1 or 2, in the order in which they stand here.
    pub fn number(self) -> u32
        ensures { result ≡ number_of_text_fault self }
    {
        match self {
            TextFault::Write => 1,
            TextFault::Memory => 2,
        }
    }
}

impl From<TextFault> for CliFault {
    ghost from_gives = { λ reason fault. fault ≡ fault_of_text reason };

    fn from(reason: TextFault) -> CliFault {
        match reason {
            TextFault::Write => CliFault::from(Failed),
            TextFault::Memory => CliFault::Memory,
        }
    }
}

impl Journal {
    ghost use Rattle.dine_journal.specs.JournalText.{WritesText};

    /// Writes the header's line, and a line for each entry.
    ///
    /// `Memory` is answered where there is none for the lines: the first lines were written then, each whole. `Write` is
    /// answered where a write failed or took none of some bytes: a first part of the text was written then.
    pub fn write_text<W: Sink>(&self, alloc: Global, writer: &mut W) -> Result<(), TextFault>
        ensures text { WritesText (W.contents writer.old) (W.contents writer.new) self.now result }
        ensures mark { IsWriterMarked result (W.mark writer.old) (W.mark writer.new) }
    {
        let mut lines = Vec::new(alloc);
        self.limits().write_header_line_to(&mut lines)?;
        let history = self.entries();
        for place in 0..history.len() {
            write_if_enough(writer, &mut lines)?;
            history.at(place).write_line_to(&mut lines)?;
        }
        write_whole(writer, &lines)?;
        Ok(())
    }
}

impl From<Failed> for TextFault {
    ghost from_gives = { λ _ fault. fault ≡ Write };

    fn from(_failed: Failed) -> Self {
        TextFault::Write
    }
}

impl From<AllocError> for TextFault {
    ghost from_gives = { λ _ fault. fault ≡ Memory };

    fn from(_error: AllocError) -> Self {
        TextFault::Memory
    }
}
