//! Entries that are kept one after the other.

ghost use Rattle.std.specs.Prelude.{◌≡◌, List, [], ◌∷◌, ◌++◌, OnErr, OnOk};
ghost use Rattle.dine_words.specs.declared.entry.Entry.{Entry};
ghost use Rattle.dine_table.specs.History.{IsLegal};
ghost use Rattle.dine_journal.specs.Flat.{JoinsAlone};

use crate::flat_history::FlatHistory;
use crate::journal::Journal;
use dine_words::{Entry, Limits};
use std::alloc::{AllocError, Global};
use std::marker::Model;

/// A history that grows entry by entry, in 32 bytes each, and becomes a journal once it is known to be legal.
#[derive(Drop)]
pub struct History {
    entries: FlatHistory,
}

impl Model for History {
    ghost Value = { List Entry };

    ghost view = { λ history. history.entries.entries };
}

impl History {
    /// A history with no entry. It takes no memory.
    pub fn new(alloc: Global) -> Self
        ensures { result ≡ [] }
    {
        History {
            entries: FlatHistory::new(alloc),
        }
    }

    /// Appends an entry, whose reply names a task only where its call is a join. An error is want of memory, and the history
    /// is as it was then.
    #[inline(always)]
    pub fn push(&mut self, entry: Entry) -> Result<(), AllocError>
        requires { JoinsAlone entry.call entry.reply }
        ensures ok { OnOk result (self.new ≡ self.old ++ entry ∷ []) }
        ensures err { OnErr result (self.new ≡ self.old) }
    {
        self.entries.reserve()?;
        self.entries.append(entry);
        Ok(())
    }

    /// The journal of this history, which is legal at a table with these limits. It takes no memory.
    pub fn into_journal(self, limits: Limits) -> Journal
        requires { IsLegal limits self }
        ensures limits { result.limits ≡ limits }
        ensures entries { result.entries ≡ self }
    {
        Journal::new(limits, self.entries)
    }
}
