//! Tasks, and the states that they go through.

ghost use Rattle.std.specs.Prelude.{◌≡◌, ◌≤◌, length};
ghost use Rattle.dine_words.specs.Texts.{state_text};

/// The name of a task: the slot that it sits in, and the clock just before it joined. A slot is used again after its
/// task left, under a later `born`, so a departed task's name is never given again.
///
/// A task is what the literature calls a diner or philosopher. Joining and leaving are this project's own.
///
/// Its text is read in `read.rt`, and where its numbers are short in `short.rt`. It is written in `write.rt`, and the
/// line of a task that joined in `write_entry.rt`.
#[derive(Clone, Copy, Debug, PartialEq, Eq, PartialOrd, Ord, Hash)]
pub struct Task {
    pub slot: u32,
    pub born: u64,
}

/// The most bytes that a task takes as text.
pub(crate) const TASK_LEN: usize = 41;

/// A task goes from thinking to hungry to eating to thinking, as in the 1984 paper.
#[derive(Clone, Copy, Debug, PartialEq, Eq, PartialOrd, Ord, Hash)]
pub enum State {
    /// The task wants nothing.
    Thinking,
    /// The task wants to eat, and waits for its forks.
    Hungry,
    /// The task works, and none of its neighbours does.
    Eating,
}

impl State {
    /// The name of the state, as it stands in output and journals.
    pub fn text(self) -> &'static str
        ensures text { result.now ≡ state_text self }
        ensures len { length result.now ≤ 8 }
    {
        match self {
            State::Thinking => "thinking",
            State::Hungry => "hungry",
            State::Eating => "eating",
        }
    }
}

/// A task at the table, in its state.
#[derive(Clone, Copy, Debug, PartialEq, Eq, Hash)]
pub struct Diner {
    pub task: Task,
    pub state: State,
}
