//! The calls of the arbiter, and its replies.

ghost use Rattle.std.specs.Prelude.{◌≡◌, ◌≤◌, length};
ghost use Rattle.dine_words.specs.Refusals.{number_of_refusal};
ghost use Rattle.dine_words.specs.Texts.{refusal_text};
ghost use Rattle.dine_words.specs.Waits.{may_end_waits};

use crate::task::{State, Task};

/// What can be asked of the arbiter. `Hungry`, `Begin` and `Finish` are the diner's life in the 1984 paper; joining,
/// leaving, a conflict graph that changes while it is used and hunger that is given up are this project's own.
#[derive(Clone, Copy, Debug, PartialEq, Eq, Hash)]
pub enum Call {
    /// A new task joins, thinking. It counts as having eaten last.
    Join,
    /// A thinking task leaves, and its conflicts go with it.
    Leave(Task),
    /// From now on the two tasks never eat at the same time.
    Conflict(Task, Task),
    /// The two tasks may eat at the same time again.
    Separate(Task, Task),
    /// A thinking task wants to eat.
    Hungry(Task),
    /// A hungry task that holds all its forks begins to eat.
    Begin(Task),
    /// An eating task thinks again, and has eaten last.
    Finish(Task),
    /// A hungry task thinks again without a meal, and keeps its place in the order of last meals.
    Withdraw(Task),
}

impl Call {
    /// Whether a task that hungers for its turn may have to wait no longer after this call, where it got this reply: it was
    /// accepted, and took a conflict, a meal or a hunger away. No other call ends a wait.
    #[inline(always)]
    pub fn may_end_waits(self, reply: Reply) -> bool
        ensures { result ≡ may_end_waits self reply }
    {
        matches!(
            (self, reply),
            (
                Call::Finish(_) | Call::Separate(..) | Call::Withdraw(_),
                Reply::Done
            )
        )
    }
}

/// Why a call is refused. A refused call changes nothing. Where several refusals apply, the first in the order of the
/// call's own list is answered.
#[derive(Clone, Copy, Debug, PartialEq, Eq, Hash)]
pub enum Refusal {
    /// All slots are used.
    Full,
    /// A named task isn't present.
    Unknown,
    /// Both names are the same.
    Same,
    /// The conflict stands already.
    Already,
    /// There is no such conflict to take away.
    Apart,
    /// Both tasks eat, so it is too late for a conflict between them.
    BothEating,
    /// The limit of conflicts is reached.
    NoRoom,
    /// The task isn't in the state that the call needs. It carries the state found.
    WrongState(State),
    /// The task is hungry, and lacks a fork.
    NotYet,
}

impl Refusal {
    /// The number of the refusal, from 1 to 9, in the order in which they stand here. A wrong state has one number,
    /// whatever state was found.
    pub fn number(self) -> u32
        ensures { result ≡ number_of_refusal self }
    {
        match self {
            Refusal::Full => 1,
            Refusal::Unknown => 2,
            Refusal::Same => 3,
            Refusal::Already => 4,
            Refusal::Apart => 5,
            Refusal::BothEating => 6,
            Refusal::NoRoom => 7,
            Refusal::WrongState(_) => 8,
            Refusal::NotYet => 9,
        }
    }

    /// The name of the refusal, as it stands in output and journals. A wrong state goes by the state found.
    pub fn text(self) -> &'static str
        ensures text { result.now ≡ refusal_text self }
        ensures len { length result.now ≤ 11 }
    {
        match self {
            Refusal::WrongState(found) => found.text(),
            Refusal::Full => "full",
            Refusal::Unknown => "unknown",
            Refusal::Same => "same",
            Refusal::Already => "already",
            Refusal::Apart => "apart",
            Refusal::BothEating => "both-eating",
            Refusal::NoRoom => "no-room",
            Refusal::NotYet => "not-yet",
        }
    }
}

/// The answer to a call. Its text is read in `read.rt`, and written in `write.rt`.
#[derive(Clone, Copy, Debug, PartialEq, Eq, Hash)]
pub enum Reply {
    /// A task joined, under this name.
    Joined(Task),
    /// The call was carried out.
    Done,
    /// The call changed nothing.
    Refused(Refusal),
}
