//! A legal history with its limits.

ghost use Rattle.std.specs.Prelude.{◌≡◌, ◌↔◌, [], IsTrue, length, slice_get};
ghost use Rattle.dine_table.specs.History.{IsLegal};

use crate::flat_history::FlatHistory;
use crate::views::Entries;
use dine_words::{Entry, Limits};
use std::marker::Model;

/// A history in which each reply is that of the table of last meals, with the limits of that table.
///
/// Journals come from a hall, or from a history that an audit kept, and can't be changed. A journal's text is written in
/// `text.rt`.
#[derive(Drop)]
pub struct Journal {
    limits: Limits,
    history: FlatHistory,
}

impl Model for Journal {
    ghost use Rattle.dine_table.specs.History.{IsLegal};
    ghost use Rattle.dine_journal.specs.Kept.{Journal as Chronicle};

    ghost Value = { Chronicle };

    ghost view = { λ journal.
        record { limits = journal.limits; entries = journal.history.entries } };

    ghost invariant = { λ journal. IsLegal journal.limits journal.history.entries };
}

impl Journal {
    // The journal of a history that is known to be legal.
    pub(crate) fn new(limits: Limits, history: FlatHistory) -> Self
        requires { IsLegal limits history.entries }
        ensures limits { result.limits ≡ limits }
        ensures entries { result.entries ≡ history.entries }
    {
        Journal { limits, history }
    }

    /// The limits of the table.
    pub fn limits(&self) -> Limits
        ensures { result ≡ self.now.limits }
    {
        self.limits
    }

    // The entries, in order. Each has the reply of the table that the entries before it leave.
    pub(crate) fn entries(&self) -> Entries<'_>
        ensures entries { result ≡ self.now.entries }
        ensures legal { IsLegal self.now.limits self.now.entries }
    {
        self.history.entries()
    }

    /// How many entries there are. Each of them has the reply of the table that the entries before it leave.
    pub fn len(&self) -> u64
        ensures len { result ≡ length self.now.entries }
        ensures legal { IsLegal self.now.limits self.now.entries }
    {
        self.history.len() as u64
    }

    /// Whether there is no entry.
    pub fn is_empty(&self) -> bool
        ensures { IsTrue result ↔ (self.now.entries ≡ []) }
    {
        self.entries().is_empty()
    }

    /// The entry at a place, counted from 0, or `None` past the last one.
    #[inline(always)]
    pub fn entry(&self, place: u64) -> Option<Entry>
        ensures { result ≡ slice_get self.now.entries place }
    {
        self.entries().get(place as usize)
    }
}
