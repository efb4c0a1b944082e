//! Entries and receipts that lie flat, seen as what they were.

ghost use Rattle.std.specs.Prelude.{◌≡◌, ◌≢◌, ◌<◌, ◌↔◌, [], IsFalse, IsTrue, length, slice_get, slice_index_or};
ghost use Rattle.dine_words.specs.declared.call.Call.{Call};
ghost use Rattle.dine_words.specs.declared.entry.Entry.{Entry};
ghost use Rattle.dine_journal.specs.declared.hall.Answer.{Answer};
ghost use Rattle.dine_journal.specs.Flat.{entries_of, receipts_of_flat};

use crate::flat::{FlatEntry, FlatReceipt};
use crate::hall::Answer;
use dine_words::{Call, Entry};
use std::marker::Model;

/// The entries of a history, in order. Each lies there in 32 bytes, and is given as it was.
#[derive(Drop)]
pub struct Entries<'a> {
    flat: &'a [FlatEntry],
}

impl<'a> Model for Entries<'a> {
    ghost use Rattle.std.specs.Prelude.{List};
    ghost use Rattle.dine_words.specs.declared.entry.Entry.{Entry};
    ghost use Rattle.dine_journal.specs.Flat.{entries_of};

    ghost Value = { List Entry };

    ghost view = { λ entries. entries_of entries.flat.now };
}

impl<'a> Entries<'a> {
    pub(crate) fn new(flat: &'a [FlatEntry]) -> Self
        ensures { result ≡ entries_of flat.now }
    {
        Entries { flat }
    }

    /// How many there are.
    pub fn len(&self) -> usize
        ensures { result ≡ length self.now }
    {
        self.flat.len()
    }

    /// Whether there is none.
    pub fn is_empty(&self) -> bool
        ensures { IsTrue result ↔ (self.now ≡ []) }
    {
        self.flat.is_empty()
    }

    /// The entry at a place, counted from 0, or `None` past the last one.
    #[inline(always)]
    pub fn get(&self, place: usize) -> Option<Entry>
        ensures { result ≡ slice_get self.now place }
    {
        match self.flat.get(place) {
            Some(flat) => Some(flat.entry()),
            None => None,
        }
    }

    /// The entry at a place, counted from 0.
    pub fn at(&self, place: usize) -> Entry
        requires { place < length self.now }
        ensures { (e : Entry) → result ≡ slice_index_or self.now place e }
    {
        entry_at(self.flat, place)
    }

    /// The number of the pass that made the call at a place, counted from 0.
    #[inline(always)]
    pub fn pass_at(&self, place: usize) -> u32
        requires { place < length self.now }
        ensures { (e : Entry) → result ≡ (slice_index_or self.now place e).pass }
    {
        pass_at(self.flat, place)
    }
}

/// The receipts of a pass, in order. Each lies there in few bytes, and is given as it was.
#[derive(Drop)]
pub struct Receipts<'a> {
    flat: &'a [FlatReceipt],
}

impl<'a> Model for Receipts<'a> {
    ghost use Rattle.std.specs.Prelude.{List};
    ghost use Rattle.dine_words.specs.declared.call.Call.{Call};
    ghost use Rattle.dine_journal.specs.declared.hall.Answer.{Answer};
    ghost use Rattle.dine_journal.specs.Flat.{receipts_of_flat};

    ghost Value = { List (Call × Answer) };

    ghost view = { λ receipts. receipts_of_flat receipts.flat.now };
}

impl<'a> Receipts<'a> {
    /// The receipts that lie there.
    pub fn new(flat: &'a [FlatReceipt]) -> Self
        ensures { result ≡ receipts_of_flat flat.now }
    {
        Receipts { flat }
    }

    /// How many there are.
    pub fn len(&self) -> usize
        ensures { result ≡ length self.now }
    {
        self.flat.len()
    }

    /// Whether there is none.
    pub fn is_empty(&self) -> bool
        ensures { IsTrue result ↔ (self.now ≡ []) }
    {
        self.flat.is_empty()
    }

    /// The receipt at an index, counted from 0, or `None` past the last one.
    pub fn get(&self, index: usize) -> Option<(Call, Answer)>
        ensures { result ≡ slice_get self.now index }
    {
        match self.flat.get(index) {
            Some(flat) => Some(flat.receipt()),
            None => None,
        }
    }

    /// Whether the receipt at an index is the one for the entry at a place.
    #[inline(always)]
    pub fn is_for(&self, index: usize, entries: &Entries<'_>, place: usize) -> bool
        requires receipt { index < length self.now }
        requires entry { place < length entries.now }
        ensures is { IsTrue result → (r : Call × Answer) (e : Entry) →
            slice_index_or self.now index r ≡ (
              (slice_index_or entries.now place e).call,
              record { place = place; reply = (slice_index_or entries.now place e).reply },
            ) }
        ensures is_not { IsFalse result → (r : Call × Answer) (e : Entry) →
            slice_index_or self.now index r ≢ (
              (slice_index_or entries.now place e).call,
              record { place = place; reply = (slice_index_or entries.now place e).reply },
            ) }
    {
        is_for_at(self.flat, index, entries.flat, place)
    }
}

// The entry that lies at a place.
fn entry_at(flat: &[FlatEntry], place: usize) -> Entry
    requires { place < length flat.now }
    ensures { (e : Entry) → result ≡ slice_index_or (entries_of flat.now) place e }
{
    flat[place].entry()
}

// The number of the pass of the entry that lies at a place.
#[inline(always)]
fn pass_at(flat: &[FlatEntry], place: usize) -> u32
    requires { place < length flat.now }
    ensures { (e : Entry) → result ≡ (slice_index_or (entries_of flat.now) place e).pass }
{
    flat[place].pass
}

// Whether the receipt that lies at an index is the one for the entry that lies at a place.
#[inline(always)]
fn is_for_at(receipts: &[FlatReceipt], index: usize, entries: &[FlatEntry], place: usize) -> bool
    requires receipt { index < length receipts.now }
    requires entry { place < length entries.now }
    ensures is { IsTrue result → (r : Call × Answer) (e : Entry) →
        slice_index_or (receipts_of_flat receipts.now) index r
        ≡ (
          (slice_index_or (entries_of entries.now) place e).call,
          record { place = place; reply = (slice_index_or (entries_of entries.now) place e).reply },
        ) }
    ensures is_not { IsFalse result → (r : Call × Answer) (e : Entry) →
        slice_index_or (receipts_of_flat receipts.now) index r
        ≢ (
          (slice_index_or (entries_of entries.now) place e).call,
          record { place = place; reply = (slice_index_or (entries_of entries.now) place e).reply },
        ) }
{
    receipts[index].is_for(&entries[place], place as u64)
}
