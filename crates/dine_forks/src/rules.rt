//! What a walk of a slot's list is handed in: the rules by which forks and request tokens are sent.
//!
//! A book knows who has a fork, and not what it is needed for. So its caller says what becomes of each.

ghost use Rattle.std.specs.Prelude.{◌≡◌, ◌<◌, true};
ghost use Rattle.dine_forks.specs.Edges.{is_first};
ghost use Rattle.dine_forks.specs.Sending.{after};

use crate::record::{End, Fork};
use crate::sent::Sent;

/// The records of a slot that a walk has to do with. It ends behind the last of them.
#[derive(Clone, Copy, Debug, PartialEq, Eq, Hash)]
pub enum Reach {
    /// Those whose fork the slot lacks.
    Lacked,
    /// Those whose fork the slot has and is asked for.
    Asked,
    /// All of them.
    All,
}

/// What becomes of the forks of a slot that is walked.
pub trait Rules {
    ghost use Rattle.std.specs.Prelude.{ℕ, Bool};
    ghost use Rattle.dine_forks.specs.declared.record.Fork.{Fork};
    ghost use Rattle.dine_forks.specs.declared.rules.Reach.{Reach};

    // How many slots they are known for.
    ghost places: { Self → ℕ };

    // The records that they are run at.
    ghost reach: { Self → Reach };

    // Whether a fork is such as they meet there, of which the slot is the first end or the second.
    ghost meets: { Self → Bool → Fork → Bool };

    // The fork of a record afterwards, by whether the slot is its first end, and by its other end.
    ghost forks: { Self → Bool → ℕ → Fork → Fork };

    /// The records that the rules are run at.
    fn reach(&self) -> Reach
        ensures { result ≡ reach self.now };

    /// A fork that they meet, told by what they know of it: who is handed what is known reads the rest alone.
    fn met(&self, end: End, fork: Fork) -> Fork
        requires { meets self.now (is_first end) fork ≡ true }
        ensures { result ≡ fork };

    /// What is sent at the fork of a record of which the slot is this end.
    fn sent(&self, end: End, other: u32, fork: Fork) -> Sent
        requires other { other < places self.now }
        requires meets { meets self.now (is_first end) fork ≡ true }
        ensures { after result fork ≡ forks self.now (is_first end) other fork };
}
