//! A book's answers on worked examples.

ghost use Rattle.std.specs.Prelude.{◌≡◌, ◌<◌, ◌≤◌, IfOk};
ghost use Rattle.dine_forks.specs.Book.{FitsBook};

use crate::tests::same::same;
use dine_forks::{End, Fork, ForkBook, Reach, Rules, Sent};
use std::alloc::Global;
use std::test::Fail;

const F: Fork = Fork {
    at_first: true,
    dirty: true,
    token_first: false,
};

const G: Fork = Fork {
    at_first: false,
    dirty: false,
    token_first: true,
};

const H: Fork = Fork {
    at_first: false,
    dirty: true,
    token_first: true,
};

// As `F`, but clean.
const CLEAN: Fork = Fork { dirty: false, ..F };

// Each end has the fork together with its request token: it is asked for.
const FIRST_IS_ASKED: Fork = Fork {
    token_first: true,
    ..F
};

const SECOND_IS_ASKED: Fork = Fork {
    token_first: false,
    ..H
};

// Two slots, the first end named first, and the fork that is put between them.
type Link = (u32, u32, Fork);

// Whether there was room for a record of two slots that had none.
fn links(book: &mut ForkBook, slots: u32, link: &Link) -> bool
    requires { book.old.slots ≡ slots }
    ensures { book.new.slots ≡ slots }
{
    let (a, b, fork) = *link;
    if a == b || a >= slots || b >= slots {
        return false;
    }
    match book.find(a, b) {
        Some(_) => false,
        None => book.link(a, b, fork).is_some(),
    }
}

// A book with these records. What is known of them is not told: a test names each by its two ends.
fn book_of(alloc: Global, slots: u32, room: u32, rows: &[Link]) -> Result<ForkBook, Fail>
    requires { FitsBook slots room }
    ensures { IfOk result (λ book. book.slots ≡ slots) }
{
    let mut book = ForkBook::new(alloc, slots, room)?;
    for link in rows {
        if !links(&mut book, slots, link) {
            return Err("there is room for each".into());
        }
    }
    Ok(book)
}

// The fork between two slots.
fn fork_between(book: &ForkBook, a: u32, b: u32) -> Option<Fork>
    requires first { a < book.now.slots }
    requires second { b < book.now.slots }
{
    let id = book.find(a, b)?;
    Some(book.fork(id))
}

// The ends of the record of two slots, the first one first.
fn ends_between(book: &ForkBook, a: u32, b: u32) -> Option<(u32, u32)>
    requires first { a < book.now.slots }
    requires second { b < book.now.slots }
{
    let id = book.find(a, b)?;
    Some(book.ends(id))
}

// Puts a fork between two slots that have a record.
fn puts(book: &mut ForkBook, a: u32, b: u32, fork: Fork) -> Option<()>
    requires first { a < book.old.slots }
    requires second { b < book.old.slots }
    ensures { book.new.slots ≡ book.old.slots }
{
    let id = book.find(a, b)?;
    book.set_fork(id, fork);
    Some(())
}

// Takes the record of two slots out, and tells its fork.
fn unlinked(book: &mut ForkBook, a: u32, b: u32) -> Option<Fork>
    requires first { a < book.old.slots }
    requires second { b < book.old.slots }
    ensures { book.new.slots ≡ book.old.slots }
{
    let id = book.find(a, b)?;
    Some(book.unlink(id))
}

// Whether a slot holds all its forks, which are in use then.
fn takes_in_use(book: &mut ForkBook, slot: u32) -> bool
    requires { slot < book.old.slots }
    ensures { book.new.slots ≡ book.old.slots }
{
    if !book.holds_all(slot) {
        return false;
    }
    book.take_in_use(slot);
    true
}

// The other ends of the first three records of a slot's list, and whether a fourth follows.
fn others(book: &ForkBook, slot: u32) -> ([Option<u32>; 3], bool)
    requires { slot < book.now.slots }
{
    let Some(a) = book.first_of(slot) else {
        return ([None, None, None], false);
    };
    let first = book.other(a, slot);
    let Some(b) = book.next_of(slot, a) else {
        return ([Some(first), None, None], false);
    };
    let second = book.visit(slot, b);
    let Some(c) = second.next else {
        return ([Some(first), Some(second.other), None], false);
    };
    let third = book.visit(slot, c);
    (
        [Some(first), Some(second.other), Some(third.other)],
        third.next.is_some(),
    )
}

const NOBODY: ([Option<u32>; 3], bool) = ([None, None, None], false);

const TWO_ABOUT_THE_SECOND: [Link; 2] = [(0, 1, F), (2, 1, G)];

#[test]
fn a_full_book_is_walked_and_used_again(rt: HostRuntime) -> Result<(), Fail> {
    let mut book = book_of(rt.alloc(), 4, 2, &TWO_ABOUT_THE_SECOND)?;
    same(&rt, book.is_full(), true);
    same(&rt, others(&book, 1), ([Some(0), Some(2), None], false));
    same(&rt, book.degree(1), 2);
    same(&rt, links(&mut book, 4, &(0, 3, H)), false);
    same(&rt, unlinked(&mut book, 0, 1), Some(F));
    same(&rt, others(&book, 1), ([Some(2), None, None], false));
    same(&rt, others(&book, 0), NOBODY);
    same(&rt, ends_between(&book, 1, 2), Some((2, 1)));
    same(&rt, links(&mut book, 4, &(0, 3, H)), true);
    same(&rt, book.len(), 2);
    Ok(())
}

#[test]
fn a_record_tells_its_ends_and_its_fork(rt: HostRuntime) -> Result<(), Fail> {
    let mut book = ForkBook::new(rt.alloc(), 4, 3)?;
    let x = book.link(3, 1, F).ok_or("an empty book has room")?;
    same(&rt, book.room(), 3);
    same(&rt, book.ends(x), (3, 1));
    same(&rt, book.other(x, 1), 3);
    let visit = book.visit(1, x);
    same(&rt, visit.record.fork, F);
    same(&rt, visit.other, 3);
    same(&rt, visit.next, None);
    same(&rt, book.fork(x), F);
    book.set_fork(x, G);
    same(&rt, book.fork(x), G);
    Ok(())
}

// Which of three slots hold all their forks.
fn holders(book: &ForkBook) -> [bool; 3]
    requires { 3 ≤ book.now.slots }
{
    [book.holds_all(0), book.holds_all(1), book.holds_all(2)]
}

// Which of them do with this fork between the first two.
fn holders_with(book: &mut ForkBook, fork: Fork) -> Option<[bool; 3]>
    requires { 3 ≤ book.old.slots }
    ensures { book.new.slots ≡ book.old.slots }
{
    puts(book, 0, 1, fork)?;
    Some(holders(book))
}

#[test]
fn a_slot_tells_whether_it_holds_all_its_forks(rt: HostRuntime) -> Result<(), Fail> {
    let empty = book_of(rt.alloc(), 3, 2, &[])?;
    same(&rt, holders(&empty), [true, true, true]);
    let mut book = book_of(rt.alloc(), 3, 2, &TWO_ABOUT_THE_SECOND)?;
    same(&rt, holders(&book), [true, false, false]);
    // The fork goes to the second end, gets dirty there, and comes back.
    same(&rt, holders_with(&mut book, G), Some([false, true, false]));
    same(&rt, holders_with(&mut book, H), Some([false, true, false]));
    same(&rt, holders_with(&mut book, F), Some([true, false, false]));
    same(&rt, unlinked(&mut book, 0, 1), Some(F));
    same(&rt, holders(&book), [true, true, false]);
    same(&rt, unlinked(&mut book, 2, 1), Some(G));
    same(&rt, holders(&book), [true, true, true]);
    Ok(())
}

const THREE_ABOUT_THE_FIRST: [Link; 3] = [(0, 1, F), (0, 2, G), (3, 0, H)];

#[test]
fn what_is_left_of_a_walk_keeps_its_order(rt: HostRuntime) -> Result<(), Fail> {
    let mut book = book_of(rt.alloc(), 4, 3, &THREE_ABOUT_THE_FIRST)?;
    same(&rt, unlinked(&mut book, 0, 2), Some(G));
    same(&rt, others(&book, 0), ([Some(1), Some(3), None], false));
    same(&rt, book.degree(0), 2);
    same(&rt, others(&book, 2), NOBODY);
    same(&rt, links(&mut book, 4, &(2, 0, F)), true);
    same(&rt, others(&book, 0), ([Some(1), Some(3), Some(2)], false));
    same(&rt, others(&book, 2), ([Some(0), None, None], false));
    same(&rt, ends_between(&book, 0, 2), Some((2, 0)));
    // It is dropped here, with three records in it.
    Ok(())
}

// Rules by which each fork that is reached goes to the other end, clean.
struct Sends;

impl Rules for Sends {
    ghost use Rattle.dine_forks.specs.declared.rules.Reach.TheVariants.{Asked};
    ghost use Rattle.std.specs.Prelude.{false, not, true};

    ghost places = { λ _. 65536 };

    ghost reach = { λ _. Asked };

    ghost meets = { λ _ _ _. true };

    ghost forks = { λ _ _ _ fork. record fork { at_first = not fork.at_first; dirty = false } };

    fn reach(&self) -> Reach {
        Reach::Asked
    }

    fn met(&self, _end: End, fork: Fork) -> Fork {
        fork
    }

    fn sent(&self, _end: End, _other: u32, _fork: Fork) -> Sent {
        Sent::Fork
    }
}

const FIVE_OF_WHICH_TWO_ARE_SENT: [Link; 5] = [
    (0, 1, SECOND_IS_ASKED),
    (1, 2, FIRST_IS_ASKED),
    (1, 3, CLEAN),
    (4, 1, CLEAN),
    (2, 3, FIRST_IS_ASKED),
];

// The forks between the second slot and the three beside it.
fn forks_of_the_second(book: &ForkBook) -> [Option<Fork>; 3]
    requires { 4 ≤ book.now.slots }
{
    [
        fork_between(book, 0, 1),
        fork_between(book, 1, 2),
        fork_between(book, 1, 3),
    ]
}

// Sends the forks of a slot that are asked for, and tells how many those are.
fn gives_up(book: &mut ForkBook, slot: u32) -> u32
    requires slot { slot < book.old.slots }
    requires few { book.old.slots ≤ 65536 }
    ensures { book.new.slots ≡ book.old.slots }
{
    let asked = book.count(slot).asked;
    book.walk(slot, &Sends);
    asked
}

#[test]
fn a_slot_gives_up_the_forks_that_are_asked_for(rt: HostRuntime) -> Result<(), Fail> {
    let mut book = book_of(rt.alloc(), 5, 5, &FIVE_OF_WHICH_TWO_ARE_SENT)?;
    // Two are sent, the third is kept, the fourth is the neighbour's, and the fifth is elsewhere.
    same(&rt, gives_up(&mut book, 1), 2);
    same(
        &rt,
        forks_of_the_second(&book),
        [Some(CLEAN), Some(G), Some(CLEAN)],
    );
    same(&rt, fork_between(&book, 4, 1), Some(CLEAN));
    same(&rt, fork_between(&book, 2, 3), Some(FIRST_IS_ASKED));
    // The numbers of forks follow: the slots 0 and 2 have all of theirs now.
    same(&rt, holders(&book), [true, false, true]);
    // Nobody asks for the one that it kept.
    same(&rt, gives_up(&mut book, 1), 0);
    Ok(())
}

#[test]
fn room_for_one_serves_a_thousand_times(rt: HostRuntime) -> Result<(), Fail> {
    let mut book = ForkBook::new(rt.alloc(), 2, 1)?;
    for _ in 0..1000 {
        let id = book.link(0, 1, F).ok_or("the book is empty")?;
        same(&rt, book.unlink(id), F);
    }
    same(&rt, book.len(), 0);
    Ok(())
}

// The forks between the first two of three slots, and between the last two.
fn forks_on_either_side(book: &ForkBook) -> [Option<Fork>; 2]
    requires { 3 ≤ book.now.slots }
{
    [fork_between(book, 0, 1), fork_between(book, 1, 2)]
}

// As `FIRST_IS_ASKED`, which is dirty.
const IN_USE: [Option<Fork>; 2] = [Some(F), Some(FIRST_IS_ASKED)];

#[test]
fn forks_in_use_are_dirty_until_they_are_sent(rt: HostRuntime) -> Result<(), Fail> {
    let mut book = book_of(rt.alloc(), 3, 2, &[(1, 0, CLEAN), (1, 2, FIRST_IS_ASKED)])?;
    same(&rt, takes_in_use(&mut book, 1), true);
    same(&rt, forks_on_either_side(&book), IN_USE);
    // The first is kept, and the second sent, clean.
    same(&rt, gives_up(&mut book, 1), 1);
    same(&rt, forks_on_either_side(&book), [Some(F), Some(G)]);
    Ok(())
}

#[test]
fn a_new_record_of_a_slot_with_forks_in_use_has_its_own_dirt(rt: HostRuntime) -> Result<(), Fail> {
    let mut book = book_of(rt.alloc(), 4, 3, &[(1, 0, CLEAN)])?;
    same(&rt, takes_in_use(&mut book, 1), true);
    same(&rt, links(&mut book, 4, &(1, 2, CLEAN)), true);
    same(&rt, links(&mut book, 4, &(3, 1, CLEAN)), true);
    same(
        &rt,
        forks_of_the_second(&book),
        [Some(F), Some(CLEAN), Some(CLEAN)],
    );
    Ok(())
}

#[test]
fn a_fork_in_use_is_changed_alone_and_taken_out_dirty(rt: HostRuntime) -> Result<(), Fail> {
    let mut book = book_of(rt.alloc(), 3, 2, &[(1, 0, CLEAN), (1, 2, CLEAN)])?;
    same(&rt, takes_in_use(&mut book, 1), true);
    same(&rt, puts(&mut book, 1, 2, CLEAN).is_some(), true);
    same(&rt, fork_between(&book, 1, 2), Some(CLEAN));
    same(&rt, unlinked(&mut book, 1, 0), Some(F));
    Ok(())
}

// The ends of the record that was found, and how many records were read.
type Found = (Option<(u32, u32)>, u32);

fn found(book: &ForkBook, a: u32, b: u32) -> Found
    requires first { a < book.now.slots }
    requires second { b < book.now.slots }
{
    let (id, read) = book.find_counted(a, b);
    match id {
        Some(id) => (Some(book.ends(id)), read),
        None => (None, read),
    }
}

const FOUR_OF_FIVE_SLOTS: [Link; 4] = [(0, 1, F), (0, 2, F), (0, 3, F), (3, 1, F)];

#[test]
fn a_search_reads_the_list_of_the_end_with_fewer_records(rt: HostRuntime) -> Result<(), Fail> {
    let book = book_of(rt.alloc(), 5, 4, &FOUR_OF_FIVE_SLOTS)?;
    same(&rt, found(&book, 3, 0), (Some((0, 3)), 1));
    same(&rt, found(&book, 4, 0), (None, 0));
    same(&rt, found(&book, 0, 2), (Some((0, 2)), 1));
    same(&rt, found(&book, 2, 1), (None, 1));
    same(&rt, found(&book, 1, 3), (Some((3, 1)), 2));
    same(&rt, found(&book, 3, 1), (Some((3, 1)), 2));
    Ok(())
}
