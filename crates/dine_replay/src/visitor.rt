//! Who is told the entries of a journal whose calls are made again.

ghost use Rattle.std.specs.Prelude.{◌≡◌, ◌∷◌, [], ◌++◌, OnOk, List};
ghost use Rattle.dine_words.specs.declared.entry.Entry.{Entry};
ghost use Rattle.dine_journal.specs.Flat.{JoinsAlone};

use dine_journal::History;
use dine_words::Entry;
use std::alloc::AllocError;

/// What the loop over a journal's lines tells each entry, once the entry's call was made again and got its reply.
pub(crate) trait Visitor {
    // It was told these entries, in order.
    ghost told: { Self → List Entry → Type 0 };

    /// Takes an entry in, whose reply names a task only where its call is a join. An error is want of memory, and ends the
    /// loop.
    fn visit(&mut self, entry: Entry) -> Result<(), AllocError>
        requires { JoinsAlone entry.call entry.reply }
        ensures { OnOk result ((before : List Entry) →
            told self.old before → told self.new (before ++ entry ∷ [])) };
}

/// Nobody is told.
#[derive(Clone, Copy)]
pub(crate) struct Nobody;

impl Visitor for Nobody {
    ghost told = { λ _ _. Unit {0} };

    #[inline(always)]
    fn visit(&mut self, _entry: Entry) -> Result<(), AllocError> {
        Ok(())
    }
}

// A history keeps what it is told.
impl Visitor for History {
    ghost told = { λ history entries. history ≡ entries };

    #[inline(always)]
    fn visit(&mut self, entry: Entry) -> Result<(), AllocError> {
        self.push(entry)
    }
}
