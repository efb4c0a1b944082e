//! Worked histories: a plain table and an arbiter answer alike, a journal keeps the entries, and who overtakes whom.

use super::{NOBODY, entry_of, hall_after, is_audited, text_of};
use crate::tests::same::same_at;
use dine_arbiter::Arbiter;
use dine_journal::{Journal, PlainTable, most_overtakes, overtakes};
use dine_replay::{Checked, check, check_long};
use dine_words::{Call, Entry, Limits, Marked, Reply, Task};
use std::process::Abort;
use tests_kit::{A, B, C, Host, LIMITS};

// A task, another, and how often the first is overtaken by the other at most.
type Pair = (Task, Task, u64);

// What a row shows; the entries of the calls, those with messages having their number behind them; the most that any task is overtaken by another, and pairs of tasks.
type Row = (&'static str, &'static str, u64, &'static [Pair]);

const ROWS: [Row; 11] = [
    (
        "two eat by turns",
        "0 join -> joined 0.0; 0 join -> joined 1.1; 0 conflict 0.0 1.1 -> done; \
        0 hungry 0.0 -> done (2); 0 begin 0.0 -> done; 0 hungry 1.1 -> done (1); \
        0 begin 1.1 -> refused not-yet; 0 finish 0.0 -> done (1); 0 begin 1.1 -> done",
        0,
        &[(A, B, 0), (B, A, 0)],
    ),
    (
        "five round a table are hungry",
        "0 join -> joined 0.0; 0 join -> joined 1.1; 0 join -> joined 2.2; 0 join -> joined 3.3; \
        0 join -> joined 4.4; 0 conflict 0.0 1.1 -> done; 0 conflict 1.1 2.2 -> done; \
        0 conflict 2.2 3.3 -> done; 0 conflict 3.3 4.4 -> done; 0 conflict 4.4 0.0 -> done; \
        0 hungry 0.0 -> done (4); 0 hungry 1.1 -> done (3); 0 hungry 2.2 -> done (3); \
        0 hungry 3.3 -> done (3); 0 hungry 4.4 -> done (2); 0 begin 0.0 -> done",
        1,
        &[(B, A, 1), (C, A, 0)],
    ),
    (
        "two eaters get no conflict",
        "0 join -> joined 0.0; 0 join -> joined 1.1; 0 join -> joined 2.2; \
        0 conflict 0.0 1.1 -> done; 0 conflict 1.1 2.2 -> done; 0 hungry 0.0 -> done (2); \
        0 begin 0.0 -> done; 0 hungry 2.2 -> done; 0 begin 2.2 -> done; \
        0 conflict 0.0 2.2 -> refused both-eating",
        0,
        &[],
    ),
    (
        "a meal is placed by its end",
        "0 join -> joined 0.0; 0 join -> joined 1.1; 0 hungry 0.0 -> done; 0 begin 0.0 -> done; \
        0 hungry 1.1 -> done; 0 begin 1.1 -> done; 0 finish 1.1 -> done; \
        0 conflict 0.0 1.1 -> done; 0 hungry 1.1 -> done (1); 0 begin 1.1 -> refused not-yet; \
        0 finish 0.0 -> done (1); 0 hungry 0.0 -> done (1); 0 begin 0.0 -> refused not-yet; \
        0 begin 1.1 -> done",
        1,
        &[(A, B, 1), (B, A, 0)],
    ),
    (
        "who withdraws lets the neighbour eat",
        "0 join -> joined 0.0; 0 join -> joined 1.1; 0 conflict 0.0 1.1 -> done; \
        0 hungry 0.0 -> done (2); 0 hungry 1.1 -> done (1); 0 withdraw 0.0 -> done (1); \
        0 begin 1.1 -> done; 0 hungry 0.0 -> done (1); 0 begin 0.0 -> refused not-yet; \
        0 finish 1.1 -> done (1); 0 begin 0.0 -> done",
        0,
        &[(A, B, 0)],
    ),
    (
        "a hungry task is overtaken once: A begins beside B's hunger, and then B in the next of A",
        "0 join -> joined 0.0; 0 join -> joined 1.1; 0 conflict 0.0 1.1 -> done; \
        0 hungry 1.1 -> done; 0 hungry 0.0 -> done (3); 0 begin 1.1 -> refused not-yet; \
        0 begin 0.0 -> done; 0 finish 0.0 -> done (1); 0 hungry 0.0 -> done (1); \
        0 begin 0.0 -> refused not-yet; 0 begin 1.1 -> done",
        1,
        &OF_ALL,
    ),
    (
        "A begins beside B's hunger, before the two are in conflict",
        "0 join -> joined 0.0; 0 join -> joined 1.1; 0 hungry 1.1 -> done; 0 hungry 0.0 -> done; \
        0 begin 0.0 -> done; 0 finish 0.0 -> done; 0 conflict 0.0 1.1 -> done (2); \
        0 hungry 0.0 -> done (1); 0 begin 0.0 -> refused not-yet",
        0,
        &[(B, A, 0)],
    ),
    (
        "C begins beside B's hunger, and then A, which alone is in conflict with B",
        "0 join -> joined 0.0; 0 join -> joined 1.1; 0 join -> joined 2.2; \
        0 conflict 0.0 1.1 -> done; 0 hungry 1.1 -> done; 0 hungry 2.2 -> done; \
        0 begin 2.2 -> done; 0 hungry 0.0 -> done (3); 0 begin 0.0 -> done; \
        0 finish 0.0 -> done (1)",
        1,
        &[(B, C, 0), (B, A, 1)],
    ),
    (
        "B eats, and then A begins beside the hunger that B gives up, and again after that",
        "0 join -> joined 0.0; 0 join -> joined 1.1; 0 conflict 0.0 1.1 -> done; \
        0 hungry 1.1 -> done; 0 begin 1.1 -> done; 0 finish 1.1 -> done; 0 hungry 1.1 -> done; \
        0 hungry 0.0 -> done (3); 0 begin 0.0 -> done; 0 finish 0.0 -> done (1); \
        0 withdraw 1.1 -> done (2); 0 hungry 0.0 -> done; 0 begin 0.0 -> done",
        1,
        &[(B, A, 1), (A, B, 0)],
    ),
    (
        "a meal that ends sends forks to hungry neighbours alone",
        "0 join -> joined 0.0; 0 join -> joined 1.1; 0 join -> joined 2.2; \
        0 conflict 0.0 1.1 -> done; 0 hungry 0.0 -> done (2); 0 begin 0.0 -> done; \
        0 finish 0.0 -> done; 0 hungry 2.2 -> done; 0 hungry 0.0 -> done; 0 begin 0.0 -> done; \
        0 finish 0.0 -> done; 0 hungry 0.0 -> done; 0 begin 0.0 -> done; \
        0 hungry 1.1 -> done (1); 0 finish 0.0 -> done (1); 0 begin 1.1 -> done; \
        0 finish 1.1 -> done; 0 begin 2.2 -> done; 0 finish 2.2 -> done",
        0,
        &[],
    ),
    (
        "a task withdraws beside a thinker and beside an eater",
        "0 join -> joined 0.0; 0 join -> joined 1.1; 0 conflict 0.0 1.1 -> done; \
        0 hungry 0.0 -> done (2); 0 withdraw 0.0 -> done (2); 0 hungry 0.0 -> done (2); \
        0 begin 0.0 -> done; 0 hungry 1.1 -> done (1); 0 withdraw 1.1 -> done (1)",
        0,
        &[],
    ),
];

const OF_ALL: [Pair; 6] = [
    (B, A, 1),
    (A, B, 1),
    (A, A, 0),
    (B, B, 0),
    (NOBODY, A, 0),
    (A, NOBODY, 0),
];

/// Makes a call at a table and at an arbiter: both answer so, with so many messages.
pub fn both_answer(
    rt: &impl Abort,
    table: &mut PlainTable,
    arbiter: &mut Arbiter,
    call: Call,
    (reply, messages): (Reply, u32),
) {
    assert!(rt; table.clock() < u64::MAX && arbiter.clock() < u64::MAX);
    same_at(rt, table.clock(), table.apply(call), Ok(reply));
    same_at(rt, table.clock(), arbiter.reply_to(call), reply);
    same_at(rt, table.clock(), arbiter.apply(call), reply);
    same_at(rt, table.clock(), arbiter.messages(), messages);
}

// A table that has made the calls of the entries, and an arbiter beside it.
pub fn plays(rt: &impl Host, limits: Limits, entries: &str) -> PlainTable {
    let mut table = PlainTable::new(rt.alloc(), limits);
    let mut arbiter = Arbiter::new(rt.alloc(), limits).ok().expect(rt, "memory");
    for text in entries.split("; ") {
        if !text.is_empty() {
            let (Entry { call, reply, .. }, messages) = entry_of(rt, text);
            both_answer(rt, &mut table, &mut arbiter, call, (reply, messages));
        }
    }
    table
}

// The most tasks and conflicts, and entries at these limits.
const AT_SMALL_LIMITS: [(u32, u32, &str); 2] = [
    (
        2,
        1,
        "0 join -> joined 0.0; 0 join -> joined 1.1; 0 join -> refused full; \
        0 separate 0.0 1.1 -> refused apart; 0 conflict 0.0 1.1 -> done; \
        0 conflict 1.1 0.0 -> refused already; 0 conflict 1.1 1.1 -> refused same; \
        0 hungry 2.2 -> refused unknown; 0 begin 0.0 -> refused thinking; 0 leave 0.0 -> done; \
        0 join -> joined 0.2; 0 hungry 0.0 -> refused unknown; 0 conflict 0.2 1.1 -> done; \
        0 separate 1.1 0.2 -> done",
    ),
    (
        3,
        1,
        "0 join -> joined 0.0; 0 join -> joined 1.1; 0 join -> joined 2.2; 0 join -> refused full; \
        0 conflict 0.0 1.1 -> done; 0 conflict 0.0 2.2 -> refused no-room; \
        0 hungry 0.0 -> done (2); 0 leave 0.0 -> refused hungry; 0 leave 1.1 -> done; \
        0 join -> joined 1.3; 0 leave 1.1 -> refused unknown; 0 conflict 0.0 3.3 -> refused unknown; \
        0 separate 0.0 1.3 -> refused apart; 0 conflict 1.3 0.0 -> done (2); \
        0 separate 0.0 1.3 -> done; 0 conflict 0.0 1.3 -> done (2); \
        0 conflict 1.1 0.0 -> refused unknown",
    ),
];

#[test]
fn table_and_arbiter_answer_as_wanted(rt: HostRuntime) {
    for (_, entries, ..) in &ROWS {
        plays(&rt, LIMITS, entries);
    }
    for (tasks, conflicts, entries) in &AT_SMALL_LIMITS {
        let limits = Limits::new(*tasks, *conflicts);
        plays(&rt, limits.expect(&rt, "limits"), entries);
    }
}

// The same is found in the journal, and by both checks of its text.
fn has_most(rt: &impl Host, name: &str, journal: &Journal, most: u64) {
    same_at(rt, name, most_overtakes(rt.alloc(), journal), Ok(most));
    let text = text_of(rt, journal);
    let wanted = Checked {
        entries: journal.len(),
        most_overtakes: most,
    };
    let checked = check(rt.alloc(), &mut Marked::new(text.as_slice()));
    let mut left = Vec::new(rt.alloc());
    let long = check_long(rt.alloc(), &mut Marked::new(text.as_slice()), &mut left);
    same_at(rt, name, [checked, long], [Ok(wanted); 2]);
}

fn check_row(rt: &impl Host, row: &Row) {
    let (name, entries, most, pairs) = *row;
    let journal = hall_after(rt, entries).into_journal();
    is_audited(rt, &journal);
    has_most(rt, name, &journal, most);
    for (task, other, wanted) in pairs {
        let found = overtakes(rt.alloc(), &journal, *task, *other);
        same_at(rt, name, found, Ok(*wanted));
    }
}

#[test]
fn a_task_is_overtaken_by_who_begins_beside_its_hunger(rt: HostRuntime) {
    for row in &ROWS {
        check_row(&rt, row);
    }
}
