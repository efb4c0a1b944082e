//! Worked values, and each public call once.

use crate::tests::same::{same, same_at};
use dine_lines::{Name, Names};
use dine_words::Call::{self, Begin, Join};
use dine_words::JournalVersion::{self, One, Two};
use dine_words::Refusal::{Full, NotYet};
use dine_words::Reply::{self, Done, Joined, Refused};
use dine_words::{Entry, Header, Limits, MAX_ENTRY_LINE, NUMBER_LEN, Task, push_number};
use std::alloc::AllocError;
use std::test::Fail;
use tests_kit::{A, LIMITS};

// Numbers of tasks and conflicts, and whether they are limits.
const RANGES: [(u32, u32, bool); 9] = [
    (1, 1, true),
    (256, 1024, true),
    (1, 1025, true),
    (257, 1, true),
    (4096, 65535, true),
    (0, 1, false),
    (1, 0, false),
    (4097, 1, false),
    (1, 65536, false),
];

#[test]
fn limits_are_from_1_to_4096_tasks_and_1_to_65535_conflicts(rt: HostRuntime) {
    for row in &RANGES {
        let (tasks, conflicts, _) = *row;
        let limits = Limits::new(tasks, conflicts);
        same(&rt, (tasks, conflicts, limits.is_some()), *row);
    }
}

// The task with the longest text.
const LAST: Task = Task {
    slot: u32::MAX,
    born: u64::MAX,
};

// Texts, and the tasks that they name.
const TASKS: [(&str, Option<Task>); 6] = [
    ("1.7", Some(Task { slot: 1, born: 7 })),
    ("0.0", Some(A)),
    ("4294967295.18446744073709551615", Some(LAST)),
    ("4294967296.0", None),
    ("00.0", None),
    ("1", None),
];

#[test]
fn a_task_is_read_from_its_text_alone(rt: HostRuntime) {
    for (text, task) in &TASKS {
        same_at(&rt, text, Task::read(text), *task);
    }
}

// Texts, and the entries that they are: the pass, the call and the reply.
const ENTRIES: [(&str, Option<(u32, Call, Reply)>); 6] = [
    ("7 join -> done", Some((7, Join, Done))),
    (
        "7 begin 0.0 -> refused full",
        Some((7, Begin(A), Refused(Full))),
    ),
    ("07 join -> done", None),
    ("7  join -> done", None),
    ("7 join -> done\n", None),
    ("4294967296 join -> done", None),
];

#[test]
fn an_entry_is_read_from_its_text_alone(rt: HostRuntime) {
    for (text, wanted) in &ENTRIES {
        let found = Entry::read(text).map(|entry| (entry.pass, entry.call, entry.reply));
        same_at(&rt, text, found, *wanted);
    }
}

#[test]
fn a_header_and_an_entry_are_read_from_the_front(rt: HostRuntime) {
    let found = Header::read_front(b"dine 1 64 256\n0 join");
    let found = found.map(|(header, rest)| (header.version, header.limits, rest));
    same(&rt, found, Some((One, LIMITS, b"\n0 join".as_slice())));
    let found = Entry::read_line::<0>(Two, b"7 begin 0.0 -> refused full\n0 join");
    let found = found.map(|(entry, rest)| (entry.pass, entry.call, entry.reply, rest));
    let wanted = (7, Begin(A), Refused(Full), b"0 join".as_slice());
    same(&rt, found, Some(wanted));
}

// Replies, and texts behind the calls that got them, up to a next line.
const ANSWERS: [(Reply, &str); 4] = [
    (Done, " -> done\n0 join"),
    (Joined(Task { slot: 1, born: 7 }), " -> joined 1.7\n0 join"),
    (Refused(NotYet), " -> refused not-yet\n0 join"),
    (Refused(Full), " -> refused full\n0 join"),
];

#[test]
fn a_reply_is_found_behind_its_call(rt: HostRuntime) {
    for (reply, text) in &ANSWERS {
        let rest = reply.after_answer(text.as_bytes());
        same_at(&rt, text, rest, Some(b"0 join".as_slice()));
    }
}

#[test]
fn a_task_and_a_header_are_appended(rt: HostRuntime) -> Result<(), AllocError> {
    let mut out = b"x".to_vec(rt.alloc())?;
    Task { slot: 1, born: 7 }.write_to(&mut out)?;
    LIMITS.write_header_line_to(&mut out)?;
    same(&rt, out.as_slice(), b"x1.7dine 2 64 256\n".as_slice());
    same(&rt, JournalVersion::written(), Two);
    Ok(())
}

// Refusals in the order of their numbers.
const REFUSALS: &str = "full; unknown; same; already; apart; both-eating; no-room; eating; not-yet";

#[test]
fn refusals_have_their_numbers(rt: HostRuntime) {
    for (place, text) in REFUSALS.split("; ").enumerate() {
        let entry = format!(in rt.alloc(); "0 join -> refused {text}");
        let entry = Entry::read(&entry.ok().expect(&rt, "memory"));
        if let Some(Refused(refusal)) = entry.map(|entry| entry.reply) {
            same_at(&rt, text, refusal.number() as usize, place + 1);
            same_at(&rt, text, refusal.text(), text);
        } else {
            same_at(&rt, text, entry.is_some(), true);
        }
    }
}

#[test]
fn names_are_bound_and_counted(rt: HostRuntime) -> Result<(), Fail> {
    let mut names = Names::new(rt.alloc());
    same(&rt, (names.is_empty(), names.len()), (true, 0));
    let name = Name::read(b"ann").ok_or("a name")?;
    same(&rt, names.bind(name, A)?, true);
    same(&rt, (names.is_empty(), names.len()), (false, 1));
    same(&rt, names.task(name), Some(A));
    Ok(())
}

// Contracts cite these from the code.
#[test]
fn rooms_of_texts_have_their_sizes(rt: HostRuntime) -> Result<(), AllocError> {
    let mut largest = Vec::new(rt.alloc());
    push_number(&mut largest, u64::MAX)?;
    same(&rt, largest.len(), NUMBER_LEN);
    same(&rt, (NUMBER_LEN, MAX_ENTRY_LINE), (20, 166));
    Ok(())
}
