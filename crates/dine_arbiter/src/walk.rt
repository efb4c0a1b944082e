//! Walks over the records of one slot, in order of declaration. No other is read or written, but where a mark ends on the way.

ghost use Rattle.std.specs.Prelude.{◌≡◌, ◌<◌, ◌&&◌, IfOk, filter, map, not};
ghost use Rattle.dine_forks.specs.declared.record.ForkId.{ForkId};
ghost use Rattle.dine_forks.specs.Book.{IsBook, are_joined, first_id, holds, slot_list};
ghost use Rattle.dine_arbiter.specs.Records.{MayLink, book_without_pair, book_without_slot, longer_book};
ghost use Rattle.dine_arbiter.specs.Records.{messages_of_new, neighbour_at};

use crate::edge::{new_fork, settle_edge};
use crate::seats::Seats;
use dine_forks::ForkBook;
use dine_words::Task;
use std::alloc::{AllocError, Global};

/// Adds the record of a new conflict between the tasks at two slots, whose edge comes to rest at once, and returns the messages.
#[tactic(auto, using(crate::proofs::Settling::where_quiet))]
pub fn link_between(seats: &Seats, book: &mut ForkBook, first: u32, second: u32) -> u32
    requires { MayLink seats.now book.old first second }
    ensures book { (id : ForkId) × (book.new ≡ longer_book seats.now id first second book.old) }
    ensures messages { result ≡ messages_of_new seats.now first second }
{
    let (fork, messages) = settle_edge(
        new_fork(seats.is_sooner_at(first, second)),
        seats.seat_state(first),
        seats.seat_state(second),
    );
    book.link(first, second, fork);
    u32::from(messages)
}

/// Takes out the records of a slot.
pub fn unlink_around(book: &mut ForkBook, slot: u32)
    requires { slot < book.old.slots }
    ensures { book.new ≡ book_without_slot slot book.old }
{
    while let Some(id) = book.first_of(slot) {
        book.unlink(id);
    }
}

/// Takes out the record of two slots, if there is one, and tells whether there was.
pub fn unlink_between(book: &mut ForkBook, first: u32, second: u32) -> bool
    requires first { first < book.old.slots }
    requires second { second < book.old.slots }
    ensures book { book.new ≡ book_without_pair first second book.old }
    ensures found { result ≡ are_joined first second book.old.records }
{
    // How many there are isn't used: the question alone tells that the book is sound, so it has no second record of the two.
    let _ = book.len();
    // Who ends a conflict mostly has one, so their signatures aren't asked first.
    let Some(id) = book.find_counted(first, second).0 else {
        return false;
    };
    book.unlink(id);
    true
}

/// The tasks at the other ends of a slot's records, in order of declaration: of all, or only of those whose fork it lacks.
pub fn tasks_around(
    alloc: Global,
    seats: &Seats,
    book: &ForkBook,
    slot: u32,
    lacked_alone: bool,
) -> Result<Vec<Task>, AllocError>
    requires { slot < book.now.slots }
    ensures { IfOk result (λ tasks. tasks.items ≡ map (neighbour_at seats.now slot)
        (filter (λ r. not (lacked_alone && holds slot r)) (slot_list slot book.now.records))) }
{
    let mut tasks = Vec::new(alloc);
    let mut next = book.first_of(slot);
    while let Some(id) = next {
        let visit = book.visit(slot, id);
        let is_first = visit.record.first == slot;
        if !lacked_alone | (visit.record.fork.at_first != is_first) {
            tasks.push(seats.task_at(visit.other))?;
        }
        next = visit.next;
    }
    Ok(tasks)
}
