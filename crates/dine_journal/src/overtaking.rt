//! Who overtakes whom in a legal history.
//!
//! A hungry task is overtaken by a neighbour at most once, so the first meal that begins beside a hungry neighbour is all
//! that has to be found.

ghost use Rattle.std.specs.Prelude.{◌≡◌, ◌≤◌, IfOk};
ghost use Rattle.dine_words.specs.declared.entry.Entry.{Entry};
ghost use Rattle.dine_table.specs.History.{overtaken};
ghost use Rattle.dine_table.specs.Sound.{IsSound};
ghost use Rattle.dine_table.specs.Table.{are_in_conflict, is_in};
ghost use Rattle.dine_journal.specs.Overtakes.{most_overtaken};
ghost use Rattle.dine_journal.specs.Overtaking.{overtakes_at, overtakes_somebody, some_entry};

use crate::journal::Journal;
use crate::views::Entries;
use dine_arbiter::Arbiter;
use dine_table::eater_of;
use dine_words::{Call, Entry, Reply, State, Task};
use std::alloc::{AllocError, Global};

/// The most meals that `other` began in one hunger of `task` while the two were in conflict. It is 0 or 1, and 0 where the
/// two are one task or one of them never joined.
///
/// A hunger lasts from the entry in which it was accepted to that of the task's next meal or of its withdrawal,
/// or to the end of the history. An error is want of memory for an arbiter.
pub fn overtakes(
    alloc: Global,
    journal: &Journal,
    task: Task,
    other: Task,
) -> Result<u64, AllocError>
    ensures value { IfOk result (λ n.
        n ≡ overtaken journal.now.limits journal.now.entries task other) }
    ensures once { IfOk result (λ n. n ≤ 1) }
{
    let mut arbiter = Arbiter::new(alloc, journal.limits())?;
    let is_overtaken = some_entry_overtakes(&mut arbiter, &journal.entries(), task, other);
    Ok(u64::from(is_overtaken))
}

// Whether `other` overtakes `task` at some entry. The arbiter, at which nobody made a call yet, makes the calls again.
fn some_entry_overtakes(
    arbiter: &mut Arbiter,
    history: &Entries<'_>,
    task: Task,
    other: Task,
) -> bool
    requires clock { arbiter.old.table.clock ≡ 0 }
    requires sound { IsSound arbiter.old.table }
    ensures { result ≡ some_entry (overtakes_at task other) arbiter.old.table history.now }
{
    for place in 0..history.len() {
        let entry = history.at(place);
        arbiter.apply(entry.call);
        if overtakes_at(arbiter, &entry, task, other) {
            return true;
        }
    }
    false
}

/// The greatest of [`overtakes`] over all pairs of tasks that joined, 0 where there is none. So it is 1 where a meal was
/// begun beside a hungry neighbour, and else 0.
///
/// The calls are made again up to the first such meal. An error is want of memory for an arbiter.
pub fn most_overtakes(alloc: Global, journal: &Journal) -> Result<u64, AllocError>
    ensures value { IfOk result (λ n. n ≡ most_overtaken journal.now.limits journal.now.entries) }
    ensures once { IfOk result (λ n. n ≤ 1) }
{
    let mut arbiter = Arbiter::new(alloc, journal.limits())?;
    let is_overtaken = some_entry_overtakes_somebody(&mut arbiter, &journal.entries());
    Ok(u64::from(is_overtaken))
}

// Whether somebody is overtaken at some entry. The arbiter, at which nobody made a call yet, makes the calls again.
fn some_entry_overtakes_somebody(arbiter: &mut Arbiter, history: &Entries<'_>) -> bool
    requires { arbiter.old.table.clock ≡ 0 }
    ensures { result ≡ some_entry overtakes_somebody arbiter.old.table history.now }
{
    for place in 0..history.len() {
        let entry = history.at(place);
        arbiter.apply(entry.call);
        if overtakes_somebody(arbiter, &entry) {
            return true;
        }
    }
    false
}

/// Whether an entry, whose call the arbiter was just given, begins a meal beside a hungry neighbour.
#[inline(always)]
pub fn overtakes_somebody(arbiter: &Arbiter, entry: &Entry) -> bool
    ensures { result ≡ overtakes_somebody arbiter.now.table entry.now }
{
    match (entry.call, entry.reply) {
        (Call::Begin(task), Reply::Done) => arbiter.has_hungry_neighbour(task),
        _ => false,
    }
}

// Whether an entry, whose call the arbiter was just given, begins a meal of `other` while `task` is hungry and in conflict
// with it.
fn overtakes_at(arbiter: &Arbiter, entry: &Entry, task: Task, other: Task) -> bool
    requires { IsSound arbiter.now.table }
    ensures { result ≡ overtakes_at task other arbiter.now.table entry.now }
{
    match eater_of(*entry) {
        Some(eater) => {
            other == eater && is_hungry(arbiter, task) && are_in_conflict(arbiter, task, other)
        }
        None => false,
    }
}

// Whether a task is hungry.
fn is_hungry(arbiter: &Arbiter, task: Task) -> bool
    ensures { result ≡ is_in State.Hungry arbiter.now.table.order task }
{
    arbiter.state(task) == Some(State::Hungry)
}

// Whether two tasks are in conflict, as they are exactly where they can be separated.
fn are_in_conflict(arbiter: &Arbiter, task: Task, other: Task) -> bool
    requires { IsSound arbiter.now.table }
    ensures { result ≡ are_in_conflict arbiter.now.table task other }
{
    matches!(arbiter.reply_to(Call::Separate(task, other)), Reply::Done)
}
