//! A hall, its journal as text, and the audit of texts.

pub mod histories;

use crate::tests::same::{same, same_at};
use dine_journal::{Answer, Hall, Journal, PlainTable, TextFault};
use dine_replay::AuditFault::{self, Header, Line, Memory, Read, Wrong};
use dine_replay::{audit, replay};
use dine_words::JournalVersion::{self, One, Two};
use dine_words::Reply::Done;
use dine_words::State::{self, Hungry, Thinking};
use dine_words::{Entry, Marked, Task};
use histories::plays;
use std::alloc::AllocError;
use std::process::Abort;
use tests_kit::{A, B, Host, JOURNAL, LIMITS, OVERTAKING, TURNS};

// The tasks that were asked for.
type Listed = Result<Option<Vec<Task>>, AllocError>;

const NOBODY: Task = Task { slot: 5, born: 5 };

// A task, its state, whether it is ready, and if it is present its neighbours, and those for whom it waits.
type Told = (Task, Option<State>, bool, Option<[&'static [Task]; 2]>);

// What a row shows, the entries of calls, and what a hall and the plain table tell then: the clock, who may begin, and of
// some tasks.
type Case = (
    &'static str,
    &'static str,
    u64,
    &'static [Task],
    &'static [Told],
);

const CASES: [Case; 5] = [
    ("nothing was done", "", 0, &[], &[(A, None, false, None)]),
    (
        "a refused call is an entry too",
        "7 join -> joined 0.0; 7 begin 0.0 -> refused thinking",
        1,
        &[],
        &[
            (A, Some(Thinking), false, Some([&[], &[]])),
            (NOBODY, None, false, None),
        ],
    ),
    (
        "one who is hungry by itself is next",
        "4294967295 join -> joined 0.0; 0 hungry 0.0 -> done",
        1,
        &[A],
        &[(A, Some(Hungry), true, Some([&[], &[]]))],
    ),
    (
        "a hungry neighbour of an eater would wait",
        "0 join -> joined 0.0; 0 join -> joined 1.1; 0 conflict 0.0 1.1 -> done; \
        0 hungry 0.0 -> done (2); 0 begin 0.0 -> done; 0 hungry 1.1 -> done (1)",
        2,
        &[],
        &[(B, Some(Hungry), false, Some([&[A], &[A]]))],
    ),
    (
        "of two who are hungry the one with the earlier meal is next",
        "0 join -> joined 0.0; 0 join -> joined 1.1; 0 conflict 0.0 1.1 -> done; \
        0 hungry 1.1 -> done; 0 hungry 0.0 -> done (3)",
        2,
        &[A],
        &[
            (A, Some(Hungry), true, Some([&[B], &[]])),
            (B, Some(Hungry), false, Some([&[A], &[A]])),
        ],
    ),
];

// An entry, and the number of messages behind it, of which there are none where no number is.
fn entry_of(rt: &impl Abort, text: &str) -> (Entry, u32) {
    let (entry, messages) = text.split_once(" (").unwrap_or((text, "0)"));
    let messages = messages.strip_suffix(")").unwrap_or("").parse().ok();
    let entry = Entry::read(entry).expect(rt, "an entry");
    (entry, messages.expect(rt, "a number"))
}

// Makes the call of an entry, which gets this place and the entry's reply, and is the last of the history then.
fn writes(rt: &impl Abort, hall: &mut Hall, place: usize, text: &str) {
    let (entry, _) = entry_of(rt, text);
    let Entry { pass, call, reply } = entry;
    same_at(rt, text, hall.reply_to(call), reply);
    same_at(rt, text, (hall.reserve(), hall.has_room()), (Ok(()), true));
    let answer = Answer {
        place: place as u64,
        reply,
    };
    same_at(rt, text, hall.act(pass, call), Ok(answer));
    let history = hall.history();
    let kept = (history.get(place), history.len().checked_sub(1));
    same_at(rt, text, kept, (Some(entry), Some(place)));
}

// A hall with room for 64 tasks and 256 conflicts that has made the calls of these entries.
fn hall_after(rt: &impl Host, entries: &str) -> Hall {
    let mut hall = Hall::new(rt.alloc(), LIMITS).ok().expect(rt, "memory");
    if !entries.is_empty() {
        for (place, text) in entries.split("; ").enumerate() {
            writes(rt, &mut hall, place, text);
        }
    }
    hall
}

fn both_tell(rt: &impl Host, name: &str, hall: &Hall, table: &PlainTable, wanted: &Told) {
    let (task, state, is_ready, told) = *wanted;
    same_at(rt, name, [hall.state(task), table.state(task)], [state; 2]);
    let found = [hall.is_ready(task), table.is_ready(task)];
    same_at(rt, name, found, [is_ready; 2]);
    let [beside, blockers] = told.unwrap_or([&[]; 2]);
    same_at(rt, name, hall.would_wait(task), !blockers.is_empty());
    let alloc = rt.alloc();
    let (found, plain) = (hall.neighbours(alloc, task), table.neighbours(alloc, task));
    lists(rt, name, found, told.map(|_| beside));
    lists(rt, name, plain, told.map(|_| beside));
    let (found, plain) = (hall.blockers(alloc, task), table.blockers(alloc, task));
    lists(rt, name, found, told.map(|_| blockers));
    lists(rt, name, plain, told.map(|_| blockers));
}

// Tasks are listed as they should.
fn lists(rt: &impl Abort, name: &str, found: Listed, wanted: Option<&[Task]>) {
    same_at(rt, name, found.ok().expect(rt, "memory").as_deref(), wanted);
}

fn check(rt: &impl Host, case: &Case) {
    let (name, entries, clock, ready, rows) = *case;
    let mut hall = hall_after(rt, entries);
    let table = plays(rt, LIMITS, entries);
    same_at(rt, name, hall.history().is_empty(), entries.is_empty());
    same_at(rt, name, [hall.limits(), table.limits()], [LIMITS; 2]);
    let wanted = (clock, ready.first().copied());
    same_at(rt, name, (hall.clock(), hall.next_ready()), wanted);
    same_at(rt, name, (table.clock(), table.next_ready()), wanted);
    lists(rt, name, hall.ready(rt.alloc()).map(Some), Some(ready));
    lists(rt, name, table.ready(rt.alloc()).map(Some), Some(ready));
    for wanted in rows {
        both_tell(rt, name, &hall, &table, wanted);
    }
}

#[test]
fn a_hall_writes_its_history_and_both_tell_of_their_tasks(rt: HostRuntime) {
    for case in &CASES {
        check(&rt, case);
    }
}

// The text that a journal is written as.
fn text_of(rt: &impl Host, journal: &Journal) -> Vec<u8> {
    let mut text = Marked::new(Vec::new(rt.alloc()));
    let written = journal.write_text(rt.alloc(), &mut text);
    assert!(rt; written.is_ok());
    text.into_inner()
}

fn audited(rt: &impl Host, text: &[u8]) -> Journal {
    let read = audit(rt.alloc(), &mut Marked::new(text));
    read.ok().expect(rt, "it is legal")
}

// An audit of the journal's text gives the same journal.
fn is_audited(rt: &impl Host, journal: &Journal) {
    let found = audited(rt, &text_of(rt, journal));
    let sizes = (found.limits(), found.len());
    same(rt, sizes, (journal.limits(), journal.len()));
    for place in 0..journal.len() {
        same(rt, found.entry(place), journal.entry(place));
    }
}

#[test]
fn a_journal_has_the_entries_of_its_hall_and_is_written(rt: HostRuntime) {
    let journal = hall_after(&rt, TURNS).into_journal();
    same(&rt, (journal.limits(), journal.is_empty()), (LIMITS, false));
    let last = Entry::read("0 begin 1.1 -> done");
    same(&rt, (journal.entry(8), journal.entry(9)), (last, None));
    same(&rt, text_of(&rt, &journal).as_slice(), JOURNAL.as_bytes());
}

// Faults in the order of their numbers.
const FAULTS: [AuditFault; 5] = [Header, Line(7), Wrong(7, Done), Read, Memory];

#[test]
fn faults_have_their_numbers(rt: HostRuntime) {
    for (place, fault) in FAULTS.iter().enumerate() {
        same_at(&rt, place, fault.number() as usize, place + 1);
    }
    let (write, memory) = (TextFault::Write.number(), TextFault::Memory.number());
    same(&rt, (write, memory), (1, 2));
}

// A text, and what its audit answers: the number of entries, or the first fault.
const AUDITED: [(&str, Result<u64, AuditFault>); 4] = [
    ("", Err(Header)),
    ("dine 1 64 256\n", Ok(0)),
    ("dine 1 64 256\n0 join -> joi", Err(Line(1))),
    (
        "dine 1 64 256\n0 join -> joined 0.0\n0 hungry 0.0 -> done\n\
        0 begin 0.0 -> refused not-yet\n",
        Err(Wrong(3, Done)),
    ),
];

#[test]
fn an_audit_answers_the_first_fault(rt: HostRuntime) {
    for (text, wanted) in &AUDITED {
        let journal = audit(rt.alloc(), &mut Marked::new(text.as_bytes()));
        same_at(&rt, text, journal.map(|journal| journal.len()), *wanted);
    }
}

// A text and the torn line at its end; the version, how many entries there are, and whether somebody is overtaken.
const REPLAYED: [(&str, &str, JournalVersion, u64, bool); 3] = [
    ("dine 1 64 256\n", "", One, 0, false),
    ("dine 1 9 9\n0 join -> joined 0.0\n12", "12", One, 1, false),
    (OVERTAKING, "", Two, 10, true),
];

#[test]
fn a_replay_tells_what_a_journal_leaves(rt: HostRuntime) {
    for (text, torn, version, entries, is_overtaken) in &REPLAYED {
        let mut left = Vec::new(rt.alloc());
        let found = replay(rt.alloc(), &mut Marked::new(text.as_bytes()), &mut left);
        let found = found.map(|it| (it.version, it.entries, it.is_overtaken, it.is_torn));
        let wanted = (*version, *entries, *is_overtaken, !torn.is_empty());
        same_at(&rt, text, found, Ok(wanted));
        same_at(&rt, text, left.as_slice(), torn.as_bytes());
    }
}
