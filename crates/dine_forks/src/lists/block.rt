//! All records, in one raw block. Each hangs by raw pointers in the lists of its ends and in one list of all.
//!
//! A record lies in three cells of the block: what a walk reads, by which the next pointers go, and beside it the previous
//! pointers, and those of the list of all. So a walk takes 24 bytes of a record along. A pointer leads to the first of the cells.
//! A place behind the last record stands for none: what has no neighbour points there, so no link is ever tested. The memory is
//! taken at once, but the cells of a record are written when the record is first given: a page of them costs nothing before.

ghost use Rattle.std.specs.Prelude.{◌≡◌, ◌==◌, ◌+◌, ◌<◌, if◌then◌else◌, Some, None, ◌≤◌, ◌++◌, ◌∷◌, [], length, IfOk, IfSome};
ghost use Rattle.dine_forks.specs.Lists.{CanHang, HasPlace, blank_node, cut_nodes_in, empty_list, forked_nodes, hung_nodes_in, links_in, node_at, put_next_in, put_previous_in, record_at, renewed_nodes};
ghost use Rattle.dine_forks.specs.Book.{id_below};
ghost use Rattle.dine_forks.specs.declared.lists.block.Part.TheVariants as part;
ghost use Rattle.dine_forks.specs.Blocks.{IsBlock, IsIn, IsSameBlock, IsWritten, block_nodes, cell_place, fork_in, label_of, link_in, linked_id, number_at, number_or, put_link, vacant_cell, with_pointer};
ghost use Rattle.dine_forks.specs.Taking.{HasTaken};
ghost use Rattle.dine_forks.specs.Walking.{is_reached};

use super::cells::{Cells, Lease, Place, allocate, deallocate};
use super::{Links, ListEnds};
use crate::record::{Fork, ForkId, ForkRecord, Link, Onward};
use crate::rules::Reach;
use std::alloc::{AllocError, Global};
use std::marker::Model;

/// One of the three cells of a record.
#[derive(Clone, Copy)]
pub enum Part {
    /// What follows the record in the lists of its first and of its second end, with the record itself.
    Next,
    /// What it follows there.
    Previous,
    /// What it follows in the list of all, and what follows it there.
    All,
}

/// Two pointers of a record, and in the part of the next ones its ends and its label: its number and its fork.
#[derive(Clone, Copy)]
pub struct Cell {
    one: Place,
    two: Place,
    first: u16,
    second: u16,
    label: u32,
}

// The label of a record: a bit for each thing that is told of its fork, and above these eight bits its number.
#[inline(always)]
fn label(number: u32, fork: Fork) -> u32
    requires { number ≤ 65536 }
    ensures { result ≡ label_of number fork }
{
    let dirty = if fork.dirty { 1 } else { 0 };
    let at_first = if fork.at_first { 2 } else { 0 };
    let token = if fork.token_first { 4 } else { 0 };
    number * 256 + dirty + at_first + token
}

impl Cell {
    // The cell of a record in no list.
    #[inline(always)]
    fn vacant(number: u32, nowhere: Place) -> Cell
        requires { number ≤ 65536 }
        ensures { result ≡ vacant_cell nowhere number }
    {
        Cell {
            one: nowhere,
            two: nowhere,
            first: 0,
            second: 0,
            label: number * 256,
        }
    }

    // Puts one of the two pointers.
    #[inline(always)]
    fn set_pointer(&mut self, one: bool, pointer: Place)
        ensures { self.new ≡ with_pointer one pointer self.old }
    {
        if one {
            self.one = pointer;
        } else {
            self.two = pointer;
        }
    }

    // The fork of the record.
    #[inline(always)]
    fn fork(&self) -> Fork
        ensures { result ≡ fork_in self.now.label }
    {
        Fork {
            at_first: self.label / 2 % 2 == 1,
            dirty: self.label % 2 == 1,
            token_first: self.label / 4 % 2 == 1,
        }
    }

    // Whether a walk has to do with the record. Bit 1 is `at_first`, bit 2 `token_first`: 6 and 7 have both, 0 and 1 neither.
    #[inline(always)]
    #[tactic(auto, using(crate::proofs::Blocks::label_asked, crate::proofs::Blocks::label_lacked))]
    fn is_reached(&self, reach: Reach, first: bool) -> bool
        ensures { result ≡ is_reached reach first (fork_in self.now.label) }
    {
        let bits = self.label % 8;
        match (reach, first) {
            (Reach::Lacked, _) => (bits / 2 % 2 == 1) != first,
            (Reach::Asked, true) => (bits == 6) | (bits == 7),
            (Reach::Asked, false) => (bits == 0) | (bits == 1),
            (Reach::All, _) => true,
        }
    }
}

/// All records, in their block.
pub struct Records {
    block: Block,
}

/// Where the block lies and what is in it, with the right to free it.
pub struct Block {
    base: Place,
    cells: Cells<Cell>,
    lease: Lease<Cell, Global>,
    alloc: Global,
    room: u32,
    // How many records were ever given: those below the number, whose cells are written.
    given: u32,
}

impl Block {
    // Where a cell of a record lies, or of the place that stands for none.
    #[inline(always)]
    fn place(&self, part: Part, number: u32) -> Place
        requires block { IsBlock self.now }
        requires within { number ≤ self.now.room }
        ensures { result.ptr ≡ cell_place self.now.cells.at self.now.room part number }
    {
        let places = self.room as usize + 1;
        let index = match part {
            Part::Next => number as usize,
            Part::Previous => places + number as usize,
            Part::All => places + places + number as usize,
        };
        self.cells.place(self.base, index)
    }

    // The number of the record at a place, or that of the place which stands for none.
    #[inline(always)]
    #[tactic(auto, using(crate::proofs::Blocks::filled_in))]
    fn number_of(&self, place: Place) -> u32
        requires block { IsBlock self.now }
        requires within { IsIn self.now.cells.at self.now.room self.now.given place }
        ensures { result ≡ number_at self.now.cells.at place.ptr }
    {
        self.cells.at(place).label / 256
    }

    // Whether a slot that is an end of the record at a place is the first one.
    #[inline(always)]
    #[tactic(auto, using(crate::proofs::Blocks::filled_in, crate::proofs::Blocks::node_is))]
    fn is_first(&self, slot: u32, at: Place) -> bool
        requires block { IsBlock self.now }
        requires within { IsIn self.now.cells.at self.now.room self.now.given at }
        ensures { let number = number_at self.now.cells.at at.ptr in number < self.now.given →
            result ≡ (slot == (node_at (block_nodes self.now) record { number = number }).content.first) }
    {
        slot == self.cells.at(at).first as u32
    }

    // One of the two pointers of a cell.
    #[inline(always)]
    #[tactic(auto, using(crate::proofs::Blocks::cell_is, crate::proofs::Blocks::filled, crate::proofs::Blocks::is_cell, crate::proofs::Blocks::link_one, crate::proofs::Blocks::link_two, crate::proofs::Blocks::pointer_in))]
    fn pointer(&self, part: Part, number: u32, one: bool) -> Place
        requires block { IsBlock self.now }
        requires written { IsWritten self.now.room self.now.given number }
        ensures within { IsIn self.now.cells.at self.now.room self.now.given result }
        ensures link { number < self.now.given →
            linked_id self.now.cells.at self.now.room result
            ≡ link_in part one (node_at (block_nodes self.now) record { number = number }) }
    {
        let cell = self.cells.at(self.place(part, number));
        if one { cell.one } else { cell.two }
    }

    // Puts one of the two pointers of a cell.
    #[inline(always)]
    #[tactic(auto, using(crate::proofs::Blocks::filled, crate::proofs::Blocks::pointer_nodes))]
    fn set_pointer(&mut self, part: Part, number: u32, one: bool, pointer: Place)
        requires block { IsBlock self.old }
        requires written { IsWritten self.old.room self.old.given number }
        requires within { IsIn self.old.cells.at self.old.room self.old.given pointer }
        ensures block { IsSameBlock self.old self.new }
        ensures nodes { block_nodes self.new ≡ put_link part one (id_below self.old.room number)
            (linked_id self.old.cells.at self.old.room pointer) (block_nodes self.old) }
    {
        let at = self.place(part, number);
        let cell = self.cells.at_mut(at);
        cell.set_pointer(one, pointer);
    }

    // Puts one of the two pointers of the cell at a place, which walks read.
    #[inline(always)]
    #[tactic(auto, using(crate::proofs::Blocks::filled_in, crate::proofs::Blocks::pointer_nodes))]
    fn set_at(&mut self, at: Place, one: bool, pointer: Place)
        requires block { IsBlock self.old }
        requires within { IsIn self.old.cells.at self.old.room self.old.given at }
        requires pointer { IsIn self.old.cells.at self.old.room self.old.given pointer }
        ensures block { IsSameBlock self.old self.new }
        ensures nodes { block_nodes self.new
            ≡ put_link part.Next one (linked_id self.old.cells.at self.old.room at)
            (linked_id self.old.cells.at self.old.room pointer) (block_nodes self.old) }
    {
        let cell = self.cells.at_mut(at);
        cell.set_pointer(one, pointer);
    }

    // What follows the record at a place, of this number, in a list is the record at the other place, or none.
    #[inline(always)]
    fn set_next(&mut self, list: Option<u32>, at: Place, number: u32, next: Place)
        requires block { IsBlock self.old }
        requires within { IsIn self.old.cells.at self.old.room self.old.given at }
        requires number { number ≡ number_at self.old.cells.at at.ptr }
        requires next { IsIn self.old.cells.at self.old.room self.old.given next }
        ensures block { IsSameBlock self.old self.new }
        ensures nodes { block_nodes self.new
            ≡ put_next_in list (linked_id self.old.cells.at self.old.room at)
            (linked_id self.old.cells.at self.old.room next) (block_nodes self.old) }
    {
        match list {
            Some(slot) => self.set_at(at, self.is_first(slot, at), next),
            None => self.set_pointer(Part::All, number, false, next),
        }
    }

    // What the record at a place, of this number, follows in a list is the record at the other place, or none.
    #[inline(always)]
    fn set_previous(&mut self, list: Option<u32>, at: Place, number: u32, previous: Place)
        requires block { IsBlock self.old }
        requires within { IsIn self.old.cells.at self.old.room self.old.given at }
        requires number { number ≡ number_at self.old.cells.at at.ptr }
        requires previous { IsIn self.old.cells.at self.old.room self.old.given previous }
        ensures block { IsSameBlock self.old self.new }
        ensures nodes { block_nodes self.new
            ≡ put_previous_in list (linked_id self.old.cells.at self.old.room at)
            (linked_id self.old.cells.at self.old.room previous) (block_nodes self.old) }
    {
        match list {
            Some(slot) => {
                self.set_pointer(Part::Previous, number, self.is_first(slot, at), previous)
            }
            None => self.set_pointer(Part::All, number, true, previous),
        }
    }

    // A neighbour of a record in a list: the next one, or the previous one.
    #[inline(always)]
    fn beside(&self, list: Option<u32>, number: u32, next: bool) -> Place
        requires block { IsBlock self.now }
        requires given { number < self.now.given }
        ensures within { IsIn self.now.cells.at self.now.room self.now.given result }
        ensures link { linked_id self.now.cells.at self.now.room result
            ≡ (let links = links_in list (node_at (block_nodes self.now) record { number = number }) in
            if next then links.next else links.previous) }
    {
        match list {
            Some(slot) => {
                let part = if next { Part::Next } else { Part::Previous };
                let one = self.is_first(slot, self.place(Part::Next, number));
                self.pointer(part, number, one)
            }
            None => self.pointer(Part::All, number, !next),
        }
    }

    // Gives the first record that was never given. It is in no list.
    fn give(&mut self) -> ForkId
        requires block { IsBlock self.old }
        requires left { self.old.given < self.old.room }
        ensures block { IsBlock self.new }
        ensures room { self.new.room ≡ self.old.room }
        ensures id { result.number ≡ length (block_nodes self.old) }
        ensures nodes { block_nodes self.new
            ≡ block_nodes self.old ++ blank_node (length (block_nodes self.old)) ∷ [] }
    {
        let number = self.given;
        let places = self.room as usize + 1;
        let at = number as usize;
        let vacant = Cell::vacant(number, self.place(Part::Next, self.room));
        self.cells.write(self.base, at, vacant);
        self.cells.write(self.base, places + at, vacant);
        self.cells.write(self.base, places + places + at, vacant);
        self.given = number + 1;
        ForkId { number }
    }
}

impl Model for Records {
    ghost use Rattle.dine_forks.specs.Nodes.{Records};

    ghost Value = { Records };

    ghost use Rattle.dine_forks.specs.Blocks.{IsBlock, block_nodes};

    ghost view = { λ r. record { room = r.block.room; nodes = block_nodes r.block } };

    ghost invariant = { λ r. IsBlock r.block };
}

impl Drop for Records {
    fn drop(self) {
        let Records { block } = self;
        let Block {
            base,
            cells,
            lease,
            alloc,
            room,
            given: _,
        } = block;
        deallocate(&alloc, base, 3 * (room as usize + 1), cells, lease);
    }
}

impl Records {
    /// Takes a block for so many records, of which none is given yet. Of its cells only those of the last place are written,
    /// which stands for none. An error is want of memory.
    pub fn new(alloc: Global, room: u32) -> Result<Records, AllocError>
        requires { room ≤ 65536 }
        ensures { IfOk result (λ r. r ≡ record { room = room; nodes = [] }) }
    {
        let places = room as usize + 1;
        let (base, mut cells, lease) = allocate(&alloc, places + places + places)?;
        let none = Cell::vacant(room, cells.place(base, room as usize));
        cells.write(base, room as usize, none);
        cells.write(base, places + room as usize, none);
        cells.write(base, places + places + room as usize, none);
        let block = Block {
            base,
            cells,
            lease,
            alloc,
            room,
            given: 0,
        };
        Ok(Records { block })
    }

    /// How many records there is room for.
    #[inline(always)]
    pub fn room(&self) -> u32
        ensures { result ≡ self.now.room }
    {
        self.block.room
    }

    /// Takes the last vacant record out of its list. Where none is vacant it is the first that was never given, and where each
    /// was given there is none, and nothing changes.
    #[inline(always)]
    #[tactic(auto, using(crate::proofs::Blocks::length_nodes))]
    pub fn take(&mut self, vacant: &mut ListEnds) -> Option<ForkId>
        requires last { HasPlace self.old.nodes vacant.old.last }
        requires some { IfSome vacant.old.last (λ _. 1 ≤ vacant.old.degree) }
        requires end { IfSome vacant.old.last (λ id.
            (node_at self.old.nodes id).all.next ≡ None) }
        requires none { vacant.old.last ≡ None → vacant.old ≡ empty_list }
        ensures { HasTaken self.old vacant.old result self.new vacant.new }
    {
        match vacant.last.get() {
            Some(id) => {
                let mut links = self.cut(None, id);
                // It was the last one, so what follows it isn't asked.
                links.next = Link::NONE;
                *vacant = vacant.without_one(links);
                Some(id)
            }
            None if self.block.given == self.block.room => None,
            None => Some(self.block.give()),
        }
    }

    /// A record. No link is followed.
    #[inline(always)]
    #[tactic(auto, using(crate::proofs::Blocks::below_room, crate::proofs::Blocks::length_nodes, crate::proofs::Blocks::record_is))]
    pub fn record(&self, id: ForkId) -> ForkRecord
        requires { id.number < length self.now.nodes }
        ensures record { result ≡ record_at self.now.nodes id }
        ensures id { result.id ≡ id }
        ensures first { result.first < 65536 }
        ensures second { result.second < 65536 }
    {
        let cell = self.block.cells.at(self.block.place(Part::Next, id.number));
        ForkRecord::new(id, cell.first as u32, cell.second as u32, cell.fork())
    }

    /// Reads a record, and what follows it in a list.
    #[inline(always)]
    #[tactic(auto, using(crate::proofs::Blocks::below_room, crate::proofs::Blocks::length_nodes))]
    pub fn read(&self, list: Option<u32>, id: ForkId) -> (ForkRecord, Onward)
        requires { id.number < length self.now.nodes }
        ensures record { result.0 ≡ record_at self.now.nodes id }
        ensures next { id_below self.now.room result.1.number
            ≡ (links_in list (node_at self.now.nodes id)).next }
    {
        let number = self
            .block
            .number_of(self.block.beside(list, id.number, true));
        (self.record(id), Onward { number })
    }

    /// Whether a walk has to do with a record. `first` says whether its slot is the first end.
    #[inline(always)]
    #[tactic(auto, using(crate::proofs::Blocks::below_room, crate::proofs::Blocks::length_nodes))]
    pub fn is_reached(&self, reach: Reach, id: ForkId, first: bool) -> bool
        requires { id.number < length self.now.nodes }
        ensures { result ≡ is_reached reach first (record_at self.now.nodes id).fork }
    {
        let cell = self.block.cells.at(self.block.place(Part::Next, id.number));
        cell.is_reached(reach, first)
    }

    /// The record that a list goes on with, if it does. No record is looked at.
    #[inline(always)]
    pub fn reached(&self, onward: Onward) -> Option<ForkId>
        ensures { result ≡ id_below self.now.room onward.number }
    {
        let number = onward.number;
        (number < self.block.room).then_some(ForkId { number })
    }

    /// Writes a record under its id. It stays where it is in its lists.
    #[inline(always)]
    pub fn write(&mut self, content: ForkRecord)
        requires within { content.id.number < length self.old.nodes }
        requires first { content.first < 65536 }
        requires second { content.second < 65536 }
        ensures { self.new ≡ record self.old { nodes = renewed_nodes content self.old.nodes } }
    {
        let at = self.block.place(Part::Next, content.id.number);
        let cell = self.block.cells.at_mut(at);
        cell.first = content.first as u16;
        cell.second = content.second as u16;
        // Its number is there already: so a walk needn't keep it.
        cell.label = label(cell.label / 256, content.fork);
    }

    /// Writes the fork of a record, and nothing else.
    #[inline(always)]
    pub fn write_fork(&mut self, id: ForkId, fork: Fork)
        requires { id.number < length self.old.nodes }
        ensures { self.new ≡ record self.old { nodes = forked_nodes self.old.nodes id fork } }
    {
        let record = self.record(id);
        self.write(ForkRecord { fork, ..record });
    }

    /// Hangs a record behind the last one of a list: that of a slot which is an end, that of all, or that of the vacant ones.
    #[tactic(auto, using(crate::proofs::Blocks::below_room, crate::proofs::Blocks::id_has, crate::proofs::Blocks::length_nodes, crate::proofs::Blocks::is_in, crate::proofs::Blocks::is_in_same, crate::proofs::Blocks::last_written, crate::proofs::Blocks::number_or_written, crate::proofs::Blocks::written_same))]
    pub fn hang(&mut self, list: Option<u32>, id: ForkId, last: Link)
        requires { CanHang self.old.nodes id last }
        ensures { self.new ≡ record self.old { nodes = hung_nodes_in list id last self.old.nodes } }
    {
        let behind = last.number_or(self.block.room);
        let place = self.block.place(Part::Next, id.number);
        let back = self.block.place(Part::Next, behind);
        let nowhere = self.block.place(Part::Next, self.block.room);
        match list {
            Some(slot) => {
                let one = self.block.is_first(slot, place);
                self.block.set_pointer(Part::Previous, id.number, one, back);
                self.block.set_at(place, one, nowhere);
                self.block.set_next(list, back, behind, place);
            }
            None => {
                self.block.set_pointer(Part::All, id.number, true, back);
                self.block.set_pointer(Part::All, id.number, false, nowhere);
                self.block.set_next(list, back, behind, place);
            }
        }
    }

    /// Cuts a record out of a list, and returns its neighbours there.
    #[tactic(auto, using(crate::proofs::Blocks::length_nodes))]
    pub fn cut(&mut self, list: Option<u32>, id: ForkId) -> Links
        requires { id.number < length self.old.nodes }
        ensures links { result ≡ links_in list (node_at self.old.nodes id) }
        ensures nodes { self.new ≡ record self.old {
          nodes = cut_nodes_in list
              (links_in list (node_at self.old.nodes id)) self.old.nodes;
        } }
    {
        let before = self.block.beside(list, id.number, false);
        let after = self.block.beside(list, id.number, true);
        let previous = self.block.number_of(before);
        let next = self.block.number_of(after);
        self.block.set_next(list, before, previous, after);
        self.block.set_previous(list, after, next, before);
        Links {
            previous: Link::below(self.block.room, previous),
            next: Link::below(self.block.room, next),
        }
    }
}
