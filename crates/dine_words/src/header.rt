//! The first line of a journal.

use crate::limits::Limits;
use crate::version::JournalVersion;

/// What the first line of a journal says. Its text is read in `read.rt`, and written in `write.rt`, from the limits.
#[derive(Clone, Copy, Debug, PartialEq, Eq, Hash)]
pub struct Header {
    pub version: JournalVersion,
    pub limits: Limits,
}
