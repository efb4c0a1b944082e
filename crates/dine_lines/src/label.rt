//! Names that somebody gives tasks.

use dine_words::Task;

/// A text that somebody gives for a task, to stand in the place of its own.
#[derive(Debug, Drop)]
pub struct Label {
    pub task: Task,
    /// Any text at all: it is written so that it can't end what it stands in.
    pub text: Vec<u8>,
}
