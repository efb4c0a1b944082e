//! Texts, books of forks, arbiters and the plain table.

ghost use Rattle.std.specs.Prelude.{◌≡◌};
ghost use Rattle.dine_forks.specs.Book.{empty_book};

use crate::tests::same::same;
use dine_arbiter::Arbiter;
use dine_forks::{Fork, ForkBook};
use dine_journal::PlainTable;
use dine_words::{Call, Entry, Reply, State, Task};
use std::alloc::{AllocError, Global};
use std::process::Abort;
use tests_kit::{A, D, E, Host, LIMITS, RING, TURNS};

// A task and entries, the longest among them, each behind a first byte.
const APPENDED: [&str; 5] = [
    "x4294967295.18446744073709551615",
    "x7 join -> joined 4294967295.18446744073709551615",
    "x7 conflict 0.0 4294967295.18446744073709551615 -> refused both-eating",
    "x7 join -> joined 0.0",
    "x7 begin 1.1 -> refused thinking",
];

fn append(out: &mut Vec<u8>, text: &str) -> Result<(), AllocError> {
    match (Task::read(text), Entry::read(text)) {
        (Some(task), _) => task.write_to(out),
        (_, Some(entry)) => entry.write_to(out),
        _ => Ok(()),
    }
}

// Appends to a text of one byte.
fn check_appended(rt: &impl Host, wanted: &str) {
    let mut out = Vec::new(rt.alloc());
    if out.push(b'x').is_err() {
        same(rt, out.push(b'x').is_ok(), true);
    }
    let text = wanted.strip_prefix("x").unwrap_or("");
    if append(&mut out, text).is_err() {
        same(rt, out.as_slice(), b"x".as_slice());
        same(rt, append(&mut out, text), Ok(()));
    }
    same(rt, out.as_slice(), wanted.as_bytes());
}

#[test]
fn a_text_is_appended_whole_or_not_at_all(rt: HostRuntime) {
    for text in &APPENDED {
        check_appended(&rt, text);
    }
}

// A book over four slots, with room for two records.
fn new_book(rt: &impl Host) -> ForkBook
    ensures { result ≡ empty_book 4 2 }
{
    let made = ForkBook::new(rt.alloc(), 4, 2).or_else(|_| ForkBook::new(rt.alloc(), 4, 2));
    made.ok().expect(rt, "one growth is refused at most")
}

#[test]
fn a_book_is_made_again(rt: HostRuntime) {
    let mut book = new_book(&rt);
    let fork = Fork {
        at_first: false,
        dirty: true,
        token_first: true,
    };
    let size = (book.len(), book.room(), book.is_full());
    same(&rt, size, (0, 2, false));
    let id = book.link(0, 1, fork).expect(&rt, "the book has room");
    same(&rt, (book.len(), book.degree(1)), (1, 1));
    same(&rt, book.unlink(id), fork);
}

fn new_arbiter(rt: &impl Host) -> Arbiter {
    let made = Arbiter::new(rt.alloc(), LIMITS).or_else(|_| Arbiter::new(rt.alloc(), LIMITS));
    made.ok().expect(rt, "one growth is refused at most")
}

fn beside(alloc: Global, arbiter: &Arbiter, task: Task) -> Result<Option<Vec<Task>>, AllocError> {
    let blockers = arbiter.blockers(alloc, task)?;
    let neighbours = arbiter.neighbours(alloc, task)?;
    Ok(neighbours.filter(|_| blockers.is_some()))
}

// The neighbours of a task, each of which it waits for. Where there is no memory for them, they are asked for again.
fn is_beside(rt: &impl Host, arbiter: &Arbiter, task: Task, wanted: Option<&[Task]>) {
    let found = beside(rt.alloc(), arbiter, task).or_else(|_| beside(rt.alloc(), arbiter, task));
    let found = found.ok().expect(rt, "one growth is refused at most");
    same(rt, found.as_deref(), wanted);
}

#[test]
fn an_arbiter_is_made_and_tells_the_neighbours_again(rt: HostRuntime) {
    let mut arbiter = new_arbiter(&rt);
    for text in RING.split("; ") {
        let Entry { call, reply, .. } = Entry::read(text).expect(&rt, "an entry");
        assert!(&rt; arbiter.clock() < 100);
        same(&rt, arbiter.apply(call), reply);
    }
    same(&rt, (arbiter.clock(), arbiter.book().len()), (5, 5));
    is_beside(&rt, &arbiter, E, Some(&[D, A]));
    is_beside(&rt, &arbiter, Task { slot: 9, born: 9 }, None);
    assert!(&rt; arbiter.clock() < 100);
    same(&rt, arbiter.apply(Call::Finish(A)), Reply::Done);
    let found = arbiter
        .ready(rt.alloc())
        .or_else(|_| arbiter.ready(rt.alloc()));
    same(&rt, found.map(|tasks| tasks.len()), Ok(1));
}

// How far a plain table is: its clock, the states of two tasks, and the next task that may begin.
fn standing(table: &PlainTable) -> (u64, Option<State>, Option<State>, Option<Task>) {
    (
        table.clock(),
        table.state(A),
        table.state(E),
        table.next_ready(),
    )
}

// Makes the call of an entry at a plain table, which replies as the entry says. One that finds no memory changes nothing, and
// is made again.
fn applies_again(rt: &impl Abort, table: &mut PlainTable, text: &str) {
    let Entry { call, reply, .. } = Entry::read(text).expect(rt, "an entry");
    let before = standing(table);
    assert!(rt; table.clock() < 100);
    let mut made = table.apply(call);
    if made.is_err() {
        same(rt, standing(table), before);
        same(rt, table.reply_to(call), reply);
        assert!(rt; table.clock() < 100);
        made = table.apply(call);
    }
    same(rt, made, Ok(reply));
}

#[test]
fn a_call_of_the_plain_table_is_made_again(rt: HostRuntime) {
    for entries in [TURNS, RING] {
        let mut table = PlainTable::new(rt.alloc(), LIMITS);
        for text in entries.split("; ") {
            applies_again(&rt, &mut table, text);
        }
    }
}
