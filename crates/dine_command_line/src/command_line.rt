//! A command line, and what its words ask for.

ghost use Rattle.std.specs.Prelude.{IfOk};

use crate::command_words::read_words;
use crate::request::Request;
use std::alloc::{AllocError, Global};
use std::convert::AsStr;

/// The words of a command line. The first is the program's name.
pub trait CommandLine {
    ghost use Rattle.dine_command_line.specs.declared.request.Request.{Request};

    // The words ask for this.
    ghost asks: { Self → Request → Type 0 };

    /// What the words ask for. An error is want of memory.
    fn read(self, alloc: Global) -> Result<Request, AllocError>
        ensures { IfOk result (λ request. asks self request) };
}

// What a list of words asks for is tested: of these words no clause says more.
impl<'a, S: AsStr> CommandLine for &'a [S] {
    ghost asks = { λ _ _. Unit {0} };

    fn read(self, alloc: Global) -> Result<Request, AllocError> {
        read_words(alloc, self)
    }
}
