//! Halls, journals, their text, their audit, and who overtakes whom.

use crate::tests::same::same;
use dine_journal::{Answer, Hall, Journal, TextFault, most_overtakes, overtakes};
use dine_replay::{AuditFault, Checked, audit, check};
use dine_words::{Call, Entry, Marked, Task};
use std::alloc::{AllocError, Global};
use std::process::Abort;
use tests_kit::{A, B, D, E, F, FailingWriter, Host, JOURNAL, LIMITS, OVERTAKING, RING, TURNS};

// How far a hall is: the length of its history, its clock, and the messages of its last call.
fn standing(hall: &Hall) -> (usize, u64, u32) {
    (hall.history().len(), hall.clock(), hall.messages())
}

fn new_hall(rt: &impl Host) -> Hall {
    let made = Hall::new(rt.alloc(), LIMITS).or_else(|_| Hall::new(rt.alloc(), LIMITS));
    made.ok().expect(rt, "one growth is refused at most")
}

// Makes a call. One that finds no memory changes nothing, and is made again.
fn acts_again(rt: &impl Abort, hall: &mut Hall, call: Call) -> Result<Answer, AllocError> {
    let before = standing(hall);
    let had_room = hall.has_room();
    let made = hall.act(0, call);
    if made.is_ok() {
        return made;
    }
    assert!(rt; !had_room);
    same(rt, standing(hall), before);
    hall.act(0, call)
}

// Makes room. Where there is no memory nothing changes, and it is made again.
fn reserves_again(rt: &impl Abort, hall: &mut Hall) {
    let before = standing(hall);
    if hall.reserve().is_err() {
        same(rt, (standing(hall), hall.has_room()), (before, false));
        same(rt, hall.reserve(), Ok(()));
    }
    same(rt, (standing(hall), hall.has_room()), (before, true));
}

// A hall that has made the calls of the entries: it replies as they say, and they are its history. Room for each call may be
// made before.
fn hall_after(rt: &impl Host, entries: &str, is_reserved: bool) -> Hall {
    let mut hall = new_hall(rt);
    for (place, text) in entries.split("; ").enumerate() {
        let entry = Entry::read(text).expect(rt, "an entry");
        if is_reserved {
            reserves_again(rt, &mut hall);
        }
        let wanted = Answer {
            place: place as u64,
            reply: entry.reply,
        };
        same(rt, acts_again(rt, &mut hall, entry.call), Ok(wanted));
        same(rt, hall.history().get(place), Some(entry));
    }
    hall
}

#[test]
fn a_call_of_a_hall_is_made_again_and_it_tells_the_neighbours_again(rt: HostRuntime) {
    hall_after(&rt, TURNS, false);
    let hall = hall_after(&rt, RING, false);
    let found = hall
        .neighbours(rt.alloc(), E)
        .or_else(|_| hall.neighbours(rt.alloc(), E));
    let found = found.ok().expect(&rt, "one growth is refused at most");
    same(&rt, found.as_deref(), Some([D, A].as_slice()));
}

#[test]
fn room_in_a_hall_is_made_again(rt: HostRuntime) {
    hall_after(&rt, TURNS, true);
}

// A journal of A and B, how many entries it has, and how often each overtakes the other, and anybody anybody at the most.
type Case = (&'static str, u64, u64);

const CASES: [Case; 2] = [(OVERTAKING, 10, 1), (JOURNAL, 9, 0)];

// An audit that keeps no entry. One that finds no memory is made again.
fn checked_again(alloc: Global, text: &[u8]) -> Result<Checked, AuditFault> {
    match check(alloc, &mut Marked::new(text)) {
        Err(AuditFault::Memory) => check(alloc, &mut Marked::new(text)),
        checked => checked,
    }
}

// The journal of a text. An audit that finds no memory is made again.
fn audited(rt: &impl Host, text: &str) -> Journal {
    let mut reader = Marked::new(text.as_bytes());
    match audit(rt.alloc(), &mut reader) {
        Ok(journal) => journal,
        Err(fault) => {
            same(rt, (fault, reader.is_marked()), (AuditFault::Memory, false));
            let again = audit(rt.alloc(), &mut Marked::new(text.as_bytes()));
            again.ok().expect(rt, "the journal is legal")
        }
    }
}

// How many meals the second of two tasks began in one hunger of the first, or the most of any two.
fn counted(
    alloc: Global,
    journal: &Journal,
    pair: Option<(Task, Task)>,
) -> Result<u64, AllocError> {
    match pair {
        Some((task, other)) => overtakes(alloc, journal, task, other),
        None => most_overtakes(alloc, journal),
    }
}

fn counts(rt: &impl Host, journal: &Journal, pair: Option<(Task, Task)>, wanted: u64) {
    let found = counted(rt.alloc(), journal, pair).or_else(|_| counted(rt.alloc(), journal, pair));
    same(rt, found, Ok(wanted));
}

// Writes the text. Where memory runs out, whole lines of it are written, and it is written again.
fn check_text(rt: &impl Host, journal: &Journal, text: &[u8]) {
    let mut writer = FailingWriter::new(1024, 100);
    let mut written = journal.write_text(rt.alloc(), &mut writer);
    if written == Err(TextFault::Memory) {
        assert!(rt; writer.holds_lines_of(text));
        writer = FailingWriter::new(1024, 100);
        written = journal.write_text(rt.alloc(), &mut writer);
    }
    same(rt, written, Ok(()));
    same(rt, writer.written(), text);
}

#[test]
fn an_audit_its_counts_and_its_text_are_made_again(rt: HostRuntime) {
    for (text, entries, most) in &CASES {
        let journal = audited(&rt, text);
        same(&rt, (journal.len(), journal.limits()), (*entries, LIMITS));
        let wanted = Checked {
            entries: *entries,
            most_overtakes: *most,
        };
        same(&rt, checked_again(rt.alloc(), text.as_bytes()), Ok(wanted));
        counts(&rt, &journal, Some((B, A)), *most);
        counts(&rt, &journal, Some((A, B)), *most);
        counts(&rt, &journal, Some((A, A)), 0);
        counts(&rt, &journal, Some((F, A)), 0);
        counts(&rt, &journal, None, *most);
        check_text(&rt, &journal, text.as_bytes());
    }
}
