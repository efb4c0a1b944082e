//! The lists: fork records in order of declaration, each in the lists of its two ends, its fork as it was written last.
//!
//! They know no mark and no count. Of a fork they know only whether a walk reaches it (`is_reached`). All records lie in one raw block, and the vacant ones hang in a list of their own. Ids that
//! were never given come from a counter, once no record is vacant.

ghost use Rattle.std.specs.Prelude.{◌≡◌, ◌≢◌, ◌==◌, ◌+◌, ◌<◌, ◌≤◌, false, if◌then◌else◌, length, None, Some, IfOk, IfSome, IsTrue};
ghost use Rattle.dine_forks.specs.Book.{CanBeLinked, FitsBook, HasLinked, IsBook, IsVisit, behind, book_with_fork, empty_book, first_id, id_between, is_in_use, other_end, reached, record_of, slot_list, without};
ghost use Rattle.dine_forks.specs.Counts.{one_if};
ghost use Rattle.dine_forks.specs.Walking.{is_reached};
ghost use Rattle.dine_forks.specs.Lists.{CanHang, cut_list, cut_lists, hung_list, hung_lists, hung_nodes_in, cut_nodes_in, links_at, list_at, node_at};

mod block;
mod cells;
mod search;
mod signatures;

use crate::record::{Fork, ForkId, ForkRecord, Link, Onward, Visit};
use crate::rules::Reach;
use block::Records;
use signatures::{is_noted, note};
use std::alloc::{AllocError, Global};
use std::marker::Model;

/// The neighbours of a record in one list.
#[derive(Clone, Copy)]
pub struct Links {
    pub previous: Link,
    pub next: Link,
}

/// The first and the last record of a list, and how many there are.
#[derive(Clone, Copy)]
pub struct ListEnds {
    pub first: Link,
    pub last: Link,
    pub degree: u32,
}

impl ListEnds {
    /// Those of a list without records.
    pub const EMPTY: ListEnds = ListEnds {
        first: Link::NONE,
        last: Link::NONE,
        degree: 0,
    };

    /// The ends once a record is hung behind the last one.
    #[inline(always)]
    pub fn with_one(self, id: ForkId) -> ListEnds
        requires few { self.degree ≤ 65536 }
        requires id { id.number < 65536 }
        ensures { result ≡ hung_list id self }
    {
        let link = Link::some(id);
        ListEnds {
            first: if self.first.is_none() {
                link
            } else {
                self.first
            },
            last: link,
            degree: self.degree + 1,
        }
    }

    /// The ends once a record that had these neighbours is cut out.
    #[inline(always)]
    pub fn without_one(self, links: Links) -> ListEnds
        requires { 1 ≤ self.degree }
        ensures { result ≡ cut_list links self }
    {
        ListEnds {
            first: if links.previous.is_none() {
                links.next
            } else {
                self.first
            },
            last: if links.next.is_none() {
                links.previous
            } else {
                self.last
            },
            degree: self.degree - 1,
        }
    }
}

/// Fork records between slots, in order of declaration and walked by slot, as they are written.
#[derive(Drop)]
pub struct Lists {
    // All records.
    records: Records,
    // The list of those in use, in order of declaration.
    all: ListEnds,
    // The list of the vacant ones: they were given, and their records are gone.
    vacant: ListEnds,
    // The list of each slot.
    by_slot: Vec<ListEnds>,
    // The signature of each slot: the bits of all slots that records join to it, and maybe of others.
    signatures: Vec<u64>,
}

impl Model for Lists {
    ghost use Rattle.dine_forks.specs.Book.{ForkBook};

    ghost Value = { ForkBook };

    ghost use Rattle.dine_forks.specs.Kept.{IsStored, book_of};
    ghost use Rattle.dine_forks.specs.Rows.{IsOrdered, ids_of};
    ghost use Rattle.dine_forks.specs.Signatures.{AreSignatures};

    ghost view = { λ b. book_of b.records.room b.records.nodes b.by_slot.items
        (ids_of b.records.nodes b.all) };

    ghost invariant = { λ b. IsStored b.records.room b.records.nodes b.by_slot.items
        (ids_of b.records.nodes b.all) (ids_of b.records.nodes b.vacant)
        × IsOrdered b.records.nodes b.all b.vacant
        × AreSignatures b.signatures.items
        (book_of b.records.room b.records.nodes b.by_slot.items
        (ids_of b.records.nodes b.all)) };
}

impl Lists {
    /// Empty lists over so many slots, with room for so many records: both 1 to 65,536.
    ///
    /// All memory is taken here, and none of it is written for a record before that is first given. An error is want of memory.
    pub fn new(alloc: Global, slots: u32, room: u32) -> Result<Lists, AllocError>
        requires { FitsBook slots room }
        ensures { IfOk result (λ book. book ≡ empty_book slots room) }
    {
        let by_slot = vec![in alloc; ListEnds::EMPTY; slots as usize]?;
        let signatures = vec![in alloc; 0; slots as usize]?;
        let records = Records::new(alloc, room)?;
        Ok(Lists {
            records,
            all: ListEnds::EMPTY,
            vacant: ListEnds::EMPTY,
            by_slot,
            signatures,
        })
    }

    /// How many records there are.
    #[inline(always)]
    pub fn len(&self) -> u32
        ensures value { result ≡ length self.now.records }
        ensures sound { IsBook self.now }
    {
        self.all.degree
    }

    /// How many records there is room for.
    #[inline(always)]
    pub fn room(&self) -> u32
        ensures { result ≡ self.now.room }
    {
        self.records.room()
    }

    /// How many records have the slot as an end.
    #[inline(always)]
    pub fn degree(&self, slot: u32) -> u32
        requires { slot < self.now.slots }
        ensures { result ≡ length (slot_list slot self.now.records) }
    {
        self.by_slot[slot as usize].degree
    }

    /// Whether a record may join two slots, by their signatures: where the answer is no, none does. No record is looked at.
    #[inline(always)]
    pub fn may_be_joined(&self, a: u32, b: u32) -> bool
        requires first { a < self.now.slots }
        requires second { b < self.now.slots }
        ensures { result ≡ false → id_between a b self.now.records ≡ None }
    {
        is_noted(&self.signatures, a, b) && is_noted(&self.signatures, b, a)
    }

    /// Adds a record of two slots behind all others, under an id that no record has.
    ///
    /// The slots differ, and no record joins them yet. The answer is `None` where the room is full, and then nothing changes.
    pub fn link(&mut self, a: u32, b: u32, fork: Fork) -> Option<ForkId>
        requires { CanBeLinked a b self.old }
        ensures { HasLinked a b fork self.old result self.new }
    {
        // They are read in front of other writes: right behind a read, a choice of what was read becomes a jump, and which slots
        // have no record follows no rule that a processor could guess.
        let first = self.signatures[a as usize];
        let second = self.signatures[b as usize];
        let id = self.records.take(&mut self.vacant)?;
        let degree = self.by_slot[a as usize].degree;
        note(&mut self.signatures, a, first, b, degree);
        let degree = self.by_slot[b as usize].degree;
        note(&mut self.signatures, b, second, a, degree);
        self.records.hang(None, id, self.all.last);
        self.all = self.all.with_one(id);
        let record = ForkRecord::new(id, a, b, fork);
        self.records.write(record);
        hang(&mut self.by_slot, &mut self.records, a, id);
        hang(&mut self.by_slot, &mut self.records, b, id);
        Some(id)
    }

    /// Takes a record out. All others keep id, ends, fork and order.
    #[inline(always)]
    pub fn unlink(&mut self, id: ForkId)
        requires { IsTrue (is_in_use id self.old.records) }
        ensures { self.new ≡ record self.old { records = without id self.old.records } }
    {
        let record = self.record(id);
        cut(&mut self.by_slot, &mut self.records, record.first, id);
        cut(&mut self.by_slot, &mut self.records, record.second, id);
        let links = self.records.cut(None, id);
        self.all = self.all.without_one(links);
        self.records.hang(None, id, self.vacant.last);
        self.vacant = self.vacant.with_one(id);
    }

    /// The record with an id.
    #[inline(always)]
    #[tactic(auto, using(crate::proofs::Named::place_of_used, crate::proofs::Named::record_of_named))]
    pub fn record(&self, id: ForkId) -> ForkRecord
        requires { IsTrue (is_in_use id self.now.records) }
        ensures found { record_of id self.now.records ≡ Some result }
        ensures sound { IsBook self.now }
    {
        self.records.record(id)
    }

    /// Whether a walk has to do with a record. `first` says whether its slot is the first end.
    #[inline(always)]
    #[tactic(auto, using(crate::proofs::Named::place_of_used, crate::proofs::Named::record_of_named))]
    pub fn is_reached(&self, reach: Reach, id: ForkId, first: bool) -> bool
        requires { IsTrue (is_in_use id self.now.records) }
        ensures { IfSome (record_of id self.now.records)
            (λ r. result ≡ is_reached reach first r.fork) }
    {
        self.records.is_reached(reach, id, first)
    }

    /// Puts a fork in place of a record's own. Everything else stays.
    #[inline(always)]
    #[tactic(auto, using(crate::proofs::Named::place_of_used))]
    pub fn write(&mut self, id: ForkId, fork: Fork)
        requires { IsTrue (is_in_use id self.old.records) }
        ensures { self.new ≡ book_with_fork id fork self.old }
    {
        self.records.write_fork(id, fork);
    }

    /// The first record of a slot's list, which has the records with the slot as an end, in order of declaration.
    #[inline(always)]
    #[tactic(auto, using(crate::proofs::Listing::first_of_ids))]
    pub fn first_of(&self, slot: u32) -> Option<ForkId>
        requires { slot < self.now.slots }
        ensures first { result ≡ first_id (slot_list slot self.now.records) }
        ensures sound { IsBook self.now }
    {
        self.by_slot[slot as usize].first.get()
    }

    /// What follows a record in a slot's list.
    #[inline(always)]
    #[tactic(auto, using(crate::proofs::CallerLemmas::in_use_of_slot, crate::proofs::Named::place_of_used))]
    pub fn onward(&self, slot: u32, id: ForkId) -> Onward
        requires { IsTrue (is_in_use id (slot_list slot self.now.records)) }
        ensures { reached self.now result ≡ first_id (behind id (slot_list slot self.now.records)) }
    {
        self.records.read(Some(slot), id).1
    }

    /// The record that follows in a slot's list.
    #[inline(always)]
    pub fn next_of(&self, slot: u32, id: ForkId) -> Option<ForkId>
        requires { IsTrue (is_in_use id (slot_list slot self.now.records)) }
        ensures { result ≡ first_id (behind id (slot_list slot self.now.records)) }
    {
        self.records.reached(self.onward(slot, id))
    }

    /// The record that a walk goes on with that had so many records of a list to do with, among them the last one if `hit`. Where it
    /// has some left there is one.
    #[inline(always)]
    pub fn goes_on(&self, left: &mut u32, hit: bool, onward: Onward) -> Option<ForkId>
        requires some { 1 ≤ left.old }
        requires more { one_if hit < left.old → onward.number < self.now.room }
        ensures left { left.new + one_if hit ≡ left.old }
        ensures next { result ≡ (if left.new == 0 then None else reached self.now onward) }
    {
        let number = onward.number;
        if !hit {
            return Some(ForkId { number });
        }
        *left -= 1;
        (*left != 0).then_some(ForkId { number })
    }

    /// A record of a slot's list, its other end, and the record that follows: all that a step of a walk reads.
    #[inline(always)]
    #[tactic(auto, using(crate::proofs::CallerLemmas::in_use_of_slot, crate::proofs::Linking::ends_of_listed, crate::proofs::Linking::ends_of_used, crate::proofs::Linking::other_end_of_used))]
    pub fn visit(&self, slot: u32, id: ForkId) -> Visit
        requires { IsTrue (is_in_use id (slot_list slot self.now.records)) }
        ensures visited { IsVisit slot id result self.now.records }
        ensures differ { result.record.first ≢ result.record.second }
        ensures within { result.other < self.now.slots }
        ensures next { result.next ≡ first_id (behind id (slot_list slot self.now.records)) }
        ensures sound { IsBook self.now }
    {
        let record = self.record(id);
        Visit {
            record,
            other: record.other_end(slot),
            next: self.next_of(slot, id),
        }
    }

    /// What holds of all records. It does nothing: its contract is what it is for.
    #[inline(always)]
    pub fn are_sound(&self)
        ensures { IsBook self.now }
    {
        let _ = &self.all;
    }
}

// Hangs a record behind all others in the list of a slot.
fn hang(by_slot: &mut Vec<ListEnds>, records: &mut Records, slot: u32, id: ForkId)
    requires slot { slot < length by_slot.old.items }
    requires id { id.number < 65536 }
    requires hangs { CanHang records.old.nodes id (list_at by_slot.old.items slot).last }
    requires few { (list_at by_slot.old.items slot).degree < 65536 }
    ensures lists { by_slot.new.items ≡ hung_lists slot id by_slot.old.items }
    ensures records { records.new ≡ record records.old {
      nodes =
          hung_nodes_in (Some slot) id (list_at by_slot.old.items slot).last records.old.nodes;
    } }
{
    // The ends are written before the record is hung, so that they are read once: whatever is written there might be theirs.
    let ends = by_slot[slot as usize];
    let last = ends.last;
    by_slot[slot as usize] = ends.with_one(id);
    records.hang(Some(slot), id, last);
}

// Cuts a record out of the list of a slot.
fn cut(by_slot: &mut Vec<ListEnds>, records: &mut Records, slot: u32, id: ForkId)
    requires slot { slot < length by_slot.old.items }
    requires id { id.number < length records.old.nodes }
    requires some { 1 ≤ (list_at by_slot.old.items slot).degree }
    ensures lists { by_slot.new.items ≡
        cut_lists slot (links_at slot (node_at records.old.nodes id)) by_slot.old.items }
    ensures records { records.new ≡ record records.old {
      nodes =
          cut_nodes_in (Some slot) (links_at slot (node_at records.old.nodes id)) records.old.nodes;
    } }
{
    // As in `hang`. Both ends are read, so that those which stay are picked, and nothing is decided.
    let ends = by_slot[slot as usize];
    let links = records.cut(Some(slot), id);
    let degree = by_slot[slot as usize].degree;
    by_slot[slot as usize] = ListEnds { degree, ..ends }.without_one(links);
}
