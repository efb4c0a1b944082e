//! A book of forks and a set of slots that are made: what changes them, and what is asked of them.

ghost use Rattle.std.specs.Prelude.{◌≡◌, ◌<◌, length};

use super::{begins, ends};
use crate::tests::same::same;
use dine_forks::{Fork, ForkBook, SlotSet};
use std::alloc::AllocError;
use std::process::Abort;
use tests_kit::Draw;

// The book of so many slots gets full over and over: it has room for so few records.
const SLOTS: u32 = 20;

const ROOM: u32 = 40;

const CHANGES: u32 = 5_000;

// A set of so many slots has several words.
const MEMBERS: u32 = 200;

const FORK: Fork = Fork {
    at_first: true,
    dirty: true,
    token_first: false,
};

// A slot of so many.
fn draw_slot(draw: &mut Draw, slots: u32) -> u32
    requires { 0 < slots }
    ensures { result < slots }
{
    let drawn = u32::try_from(draw.below(slots as usize)).unwrap_or(0);
    drawn.min(slots - 1)
}

// Two slots that have a record lose it, and two others get one.
fn change_between(book: &mut ForkBook, slots: u32, a: u32, b: u32)
    requires { book.old.slots ≡ slots }
    ensures { book.new.slots ≡ slots }
{
    if a == b || a >= slots || b >= slots {
        return;
    }
    match book.find(a, b) {
        Some(id) => {
            let _ = book.unlink(id);
        }
        None => {
            let _ = book.link(a, b, FORK);
        }
    }
}

// The fork of two slots goes to the other end.
fn pass_between(book: &mut ForkBook, slots: u32, a: u32, b: u32)
    requires { book.old.slots ≡ slots }
    ensures { book.new.slots ≡ slots }
{
    if a >= slots || b >= slots {
        return;
    }
    if let Some(id) = book.find(a, b) {
        let (fork, _ends) = (book.fork(id), book.ends(id));
        let passed = Fork {
            at_first: !fork.at_first,
            dirty: !fork.dirty,
            token_first: fork.at_first,
        };
        book.set_fork(id, passed);
    }
}

// Asks what can be asked of a slot.
fn ask(book: &ForkBook, slots: u32, slot: u32)
    requires { book.now.slots ≡ slots }
{
    if slot >= slots {
        return;
    }
    let _ = (book.len(), book.room(), book.is_full());
    let _ = (book.degree(slot), book.holds_all(slot));
    if let Some(id) = book.first_of(slot) {
        let _ = (book.next_of(slot, id), book.other(id, slot));
    }
}

// Drawn changes. It says whether the book was full after some of them.
fn change(book: &mut ForkBook, slots: u32) -> bool
    requires book { book.old.slots ≡ slots }
    requires some { 0 < slots }
    ensures { book.new.slots ≡ slots }
{
    let mut draw = Draw { state: 1984 };
    let mut was_full = false;
    for _ in 0..CHANGES {
        let a = draw_slot(&mut draw, slots);
        let b = draw_slot(&mut draw, slots);
        change_between(book, slots, a, b);
        pass_between(book, slots, b, a);
        ask(book, slots, a);
        was_full |= book.is_full();
    }
    was_full
}

#[test]
fn a_book_that_is_made_takes_no_memory(rt: HostRuntime) -> Result<(), AllocError> {
    let mut book = ForkBook::new(rt.alloc(), SLOTS, ROOM)?;
    begins(rt.alloc());
    let was_full = change(&mut book, SLOTS);
    ends(rt.alloc());
    same(&rt, was_full, true);
    Ok(())
}

// Puts drawn slots in and takes drawn ones out. It says whether there were members, and whether none stood behind some slot.
fn draw_set(set: &mut SlotSet) -> (bool, bool)
    requires { length set.old ≡ MEMBERS }
    ensures { length set.new ≡ MEMBERS }
{
    let mut draw = Draw { state: 1984 };
    let (mut had_some, mut had_none) = (false, false);
    for _ in 0..CHANGES {
        set.insert(draw_slot(&mut draw, MEMBERS));
        had_some |= set.first_from(0) < MEMBERS && set.word_marks() != 0;
        let slot = draw_slot(&mut draw, MEMBERS);
        set.remove(slot);
        had_none |= set.first_from(slot) == MEMBERS && set.word(0) != 0;
    }
    (had_some, had_none)
}

#[test]
fn a_set_of_slots_takes_no_memory(rt: HostRuntime) -> Result<(), AllocError> {
    let mut set = SlotSet::new(rt.alloc(), MEMBERS)?;
    begins(rt.alloc());
    let found = draw_set(&mut set);
    ends(rt.alloc());
    same(&rt, found, (true, true));
    Ok(())
}
