//! Marks: all that is drawn of a history.

ghost use Rattle.std.specs.Prelude.{◌≡◌};
ghost use Rattle.dine_bars.specs.Marks.{named_first};

use crate::bar::Bar;
use dine_words::{Call, Refusal, Task};

/// A task and a place.
#[derive(Clone, Copy, Debug, PartialEq, Eq, Hash)]
pub struct TaskMark {
    pub task: Task,
    /// The place that the call leads to.
    pub place: u64,
}

/// The two ends of a conflict in the order in which the call names them, and a place.
#[derive(Clone, Copy, Debug, PartialEq, Eq, Hash)]
pub struct ConflictMark {
    pub first: Task,
    pub second: Task,
    /// The place that the call leads to.
    pub place: u64,
}

/// A call that was refused, and so changed nothing.
#[derive(Clone, Copy, Debug, PartialEq, Eq, Hash)]
pub struct RefusedCall {
    /// The place that the call leads to, which is drawn as the one before.
    pub place: u64,
    /// The number of the pass through which the call came.
    pub pass: u32,
    pub call: Call,
    pub refusal: Refusal,
}

impl RefusedCall {
    /// The task that the call names first, in whose lane it is drawn: `None` for a join. The task need not be one that ever
    /// joined.
    pub fn task(self) -> Option<Task>
        ensures { result ≡ named_first self.call }
    {
        match self.call {
            Call::Join => None,
            Call::Leave(task)
            | Call::Conflict(task, _)
            | Call::Separate(task, _)
            | Call::Hungry(task)
            | Call::Begin(task)
            | Call::Finish(task)
            | Call::Withdraw(task) => Some(task),
        }
    }
}

/// One thing that is drawn.
#[derive(Clone, Copy, Debug, PartialEq, Eq, Hash)]
pub enum Mark {
    /// What a task did over some places. It comes with the entry that ends it.
    Bar(Bar),
    /// A task joined, and its lane begins.
    Joined(TaskMark),
    /// A task left, and its lane ends. Its conflicts end too.
    Left(TaskMark),
    /// A conflict was declared.
    Declared(ConflictMark),
    /// A conflict was taken away. It may have been declared with its ends in the other order.
    Separated(ConflictMark),
    /// A call was refused.
    Refused(RefusedCall),
}
