//! Halls with room, journals that are made of them, and plain tables that are new.

use super::{begins, ends};
use crate::tests::same::same;
use dine_journal::{Answer, Hall, History, PlainTable};
use dine_words::{Call, Entry, Reply, State};
use std::alloc::AllocError;
use std::process::Abort;
use tests_kit::{A, B, Host, LIMITS, RING};

// What five round a table do once all are hungry and the first eats.
const MORE: &str = "0 begin 1.1 -> refused not-yet; 0 finish 0.0 -> done; 0 begin 1.1 -> done; \
    0 withdraw 2.2 -> done; 0 separate 2.2 3.3 -> done; 0 leave 2.2 -> done";

// Makes a call in a hall with room: as any, or as one whose reply is known.
fn act(rt: &impl Host, hall: &mut Hall, entry: Entry, is_known: bool) {
    let has_room = hall.has_room();
    assert!(rt; has_room);
    let Entry { pass, call, reply } = entry;
    let place = hall.history().len() as u64;
    begins(rt.alloc());
    let found = hall.reply_to(call);
    let made = if is_known {
        let reply = found;
        Ok(hall.act_answered(Entry { pass, call, reply }))
    } else {
        hall.act(pass, call)
    };
    ends(rt.alloc());
    same(rt, (found, made), (reply, Ok(Answer { place, reply })));
}

// Makes the calls of entries, for each of which there is room then.
fn act_in_room(rt: &impl Host, hall: &mut Hall, entries: &str, is_known: bool) {
    for text in entries.split("; ") {
        let entry = Entry::read(text).expect(rt, "an entry");
        same(rt, hall.reserve(), Ok(()));
        act(rt, hall, entry, is_known);
    }
}

// Asks all that can be asked of a hall in which the first of the five eats.
fn ask(rt: &impl Abort, hall: &Hall) {
    same(rt, (hall.would_wait(B), hall.would_wait(A)), (true, false));
    same(rt, hall.state(A), Some(State::Eating));
    same(rt, (hall.is_ready(B), hall.next_ready()), (false, None));
    same(rt, (hall.clock(), hall.messages()), (5, 0));
    same(rt, hall.limits(), LIMITS);
    let last = hall.history().get(15);
    same(rt, last.map(|entry| entry.call), Some(Call::Begin(A)));
}

// The journal of a hall has so many entries.
fn check_journal(rt: &impl Host, hall: Hall, entries: u64) {
    begins(rt.alloc());
    let journal = hall.into_journal();
    let found = (journal.len(), journal.limits());
    let first = journal.entry(0);
    ends(rt.alloc());
    same(rt, found, (entries, LIMITS));
    same(rt, first.map(|entry| entry.call), Some(Call::Join));
}

#[test]
fn a_hall_with_room_takes_no_memory(rt: HostRuntime) -> Result<(), AllocError> {
    for is_known in [false, true] {
        let mut hall = Hall::new(rt.alloc(), LIMITS)?;
        act_in_room(&rt, &mut hall, RING, is_known);
        begins(rt.alloc());
        ask(&rt, &hall);
        ends(rt.alloc());
        act_in_room(&rt, &mut hall, MORE, is_known);
        check_journal(&rt, hall, 22);
    }
    Ok(())
}

#[test]
fn what_is_new_has_no_memory(rt: HostRuntime) {
    begins(rt.alloc());
    let journal = History::new(rt.alloc()).into_journal(LIMITS);
    let table = PlainTable::new(rt.alloc(), LIMITS);
    same(&rt, table.reply_to(Call::Join), Reply::Joined(A));
    same(&rt, (table.state(A), table.next_ready()), (None, None));
    ends(rt.alloc());
    same(&rt, journal.len(), 0);
}
