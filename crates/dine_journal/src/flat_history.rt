//! Entries that lie flat, one after the other: what a hall, a history and a journal are kept in.

ghost use Rattle.std.specs.Prelude.{◌≡◌, ◌+◌, ◌<◌, ◌≤◌, ◌^◌, ◌↔◌, ◌-◌, [], ◌∷◌, ◌++◌, IsTrue, OnErr, OnOk, length};
ghost use Rattle.dine_journal.specs.Flat.{JoinsAlone};

use crate::flat::FlatEntry;
use crate::views::Entries;
use dine_words::Entry;
use std::alloc::{AllocError, Global};
use std::marker::Model;

/// A history that lies flat, in 32 bytes each entry. Whether it is legal is told by what it is kept in.
#[derive(Drop)]
pub(crate) struct FlatHistory {
    flat: Vec<FlatEntry>,
}

impl Model for FlatHistory {
    ghost use Rattle.std.specs.Prelude.{◌-◌, vec_capacity, vec_len};
    ghost use Rattle.dine_journal.specs.Flat.{entries_of};
    ghost use Rattle.dine_journal.specs.Kept.{FlatHistory as LyingEntries};

    ghost Value = { LyingEntries };

    ghost view = { λ history.
        record {
          entries = entries_of history.flat.items;
          room = vec_capacity history.flat - vec_len history.flat;
        } };
}

impl FlatHistory {
    /// A history with no entry. It takes no memory.
    pub(crate) fn new(alloc: Global) -> Self
        ensures { result.entries ≡ [] }
    {
        FlatHistory {
            flat: Vec::new(alloc),
        }
    }

    /// Makes room for one more entry. An error is want of memory, and there is no more room than before then.
    pub(crate) fn reserve(&mut self) -> Result<(), AllocError>
        ensures entries { self.new.entries ≡ self.old.entries }
        ensures room { OnOk result (0 < self.new.room) }
        ensures full { OnErr result (self.old.room ≡ 0) }
        ensures err { OnErr result (self.new ≡ self.old) }
    {
        self.flat.reserve(1)
    }

    /// Whether there is room for one more entry.
    pub(crate) fn has_room(&self) -> bool
        ensures { IsTrue result ↔ (0 < self.now.room) }
    {
        self.flat.len() < self.flat.capacity()
    }

    /// Appends an entry for which there is room, and whose reply names a task only where its call is a join.
    #[inline(always)]
    pub(crate) fn append(&mut self, entry: Entry)
        requires room { 0 < self.old.room }
        requires joins { JoinsAlone entry.call entry.reply }
        ensures { self.new.entries ≡ self.old.entries ++ entry ∷ [] }
    {
        self.flat.push_reserved(FlatEntry::new(entry));
    }

    /// How many entries there are.
    pub(crate) fn len(&self) -> usize
        ensures len { result ≡ length self.now.entries }
        ensures bound { result + self.now.room < 2 ^ 64 }
    {
        self.flat.len()
    }

    /// The entries, in order.
    pub(crate) fn entries(&self) -> Entries<'_>
        ensures { result ≡ self.now.entries }
    {
        Entries::new(self.flat.as_slice())
    }
}
