//! What a run writes of what it was asked.

/// What a run writes.
#[derive(Clone, Copy, Debug, PartialEq, Eq, Hash)]
pub enum Print {
    /// One line for each line of the script that isn't passed over.
    Replies,
    /// The journal of the calls alone. The lines that have a fault aren't in it, nor are those that ask without a call.
    Journal,
}
