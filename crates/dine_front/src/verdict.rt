//! What a front that is closed leaves.

use dine_journal::Journal;

/// How the receipts of the passes stand to a journal. That the journal has the limits of its front is known whatever the
/// verdict, so none speaks of them.
#[derive(Clone, Copy, Debug, PartialEq, Eq)]
pub enum Verdict {
    /// The pass with this number was not handed in. It is the least such pass.
    Missing(u32),
    /// The receipts of the pass with this number are not what the journal says: they first part at this place among
    /// them, counted from 0. It is the least such pass.
    Differs(u32, u64),
    /// Each pass has just the receipts that the journal says.
    Settled,
}

/// The journal of a front, and how the receipts of its passes stand to it.
#[derive(Drop)]
pub struct Closed {
    pub journal: Journal,
    pub verdict: Verdict,
}
