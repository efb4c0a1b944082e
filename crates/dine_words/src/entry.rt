//! One line of a history.

use crate::call::{Call, Reply};

/// A call that a pass made, with the reply that it got. Its text is read in `read_entry.rt`, and written in
/// `write.rt`; as the line of a journal it is written in `write_entry.rt`.
#[derive(Clone, Copy, Debug, PartialEq, Eq, Hash)]
pub struct Entry {
    /// The number of the pass through which the call came.
    pub pass: u32,
    pub call: Call,
    pub reply: Reply,
}
