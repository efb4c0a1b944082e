//! Looks at tasks: what each does now, and the bar that ends where it did something else.
//!
//! A call changes what is drawn of few tasks, and of most neighbours their bar alone tells that it can't have changed:
//! nobody else is looked at.

ghost use Rattle.std.specs.Prelude.{◌≡◌, ◌≢◌, ◌+◌, ◌<◌, ◌≤◌, ◌++◌, Some, length, slice_set, vec_capacity, vec_len};
ghost use Rattle.dine_words.specs.declared.task.State.{State};
ghost use Rattle.dine_words.specs.declared.task.Task.{Task};
ghost use Rattle.dine_table.specs.Table.{state_of};
ghost use Rattle.dine_bars.specs.Bars.{kind_at, same_kind};
ghost use Rattle.dine_bars.specs.Begun.{AreCalmAfter, AreCalmBut, AreKept, AreSeated, IsCalm, seated_at};
ghost use Rattle.dine_bars.specs.Marks.{LooksAt, LooksAtEach, begun_by, begun_of, beside, ended_at, ended_by};
ghost use Rattle.dine_bars.specs.Marks.{giver_of, goes_on, looked_at, next_bar, turn_after};

use crate::bar::{BarKind, OpenBar, Turn};
use crate::mark::Mark;
use dine_arbiter::Arbiter;
use dine_words::{Call, State, Task};

/// Looks at the tasks that may do something else after an accepted call, which leads to the place. There is room for a mark
/// of each.
pub(crate) fn look_after(
    begun: &mut Vec<Option<OpenBar>>,
    arbiter: &Arbiter,
    call: Call,
    place: u64,
    marks: &mut Vec<Mark>,
)
    requires room { vec_len marks.old + length (looked_at arbiter.now.table call)
        ≤ vec_capacity marks.old }
    requires calm { AreCalmAfter call arbiter.now.table place begun.old.items }
    ensures begun { begun.new.items ≡ begun_by call place arbiter.now.table begun.old.items
        (looked_at arbiter.now.table call) }
    ensures marks { marks.new.items ≡ marks.old.items
        ++ ended_by call place arbiter.now.table begun.old.items
        (looked_at arbiter.now.table call) }
{
    match call {
        Call::Join | Call::Leave(_) => {}
        Call::Conflict(first, second) | Call::Separate(first, second) => {
            look(begun, arbiter, call, place, first, marks);
            look(begun, arbiter, call, place, second, marks);
        }
        // A meal that begins changes nobody else.
        Call::Begin(task) => look(begun, arbiter, call, place, task, marks),
        Call::Hungry(task) => {
            look_around(begun, arbiter, call, place, task, BarKind::MayBegin, marks);
        }
        Call::Finish(task) | Call::Withdraw(task) => {
            look_around(
                begun,
                arbiter,
                call,
                place,
                task,
                BarKind::KeptWaiting,
                marks,
            );
        }
    }
}

// Looks at those of a task's neighbours whose bars are of the kind, in the order in which the conflicts were declared, and
// then at the task: the call changes no other.
fn look_around(
    begun: &mut Vec<Option<OpenBar>>,
    arbiter: &Arbiter,
    call: Call,
    place: u64,
    task: Task,
    kind: BarKind,
    marks: &mut Vec<Mark>,
)
    requires room { vec_len marks.old + length (beside arbiter.now.table task)
        ≤ vec_capacity marks.old }
    requires calm { AreCalmBut arbiter.now.table task kind place begun.old.items }
    requires hunger { kind ≢ BarKind.Meal }
    ensures { LooksAtEach call place arbiter.now.table (beside arbiter.now.table task)
        begun.old.items begun.new.items marks.old.items marks.new.items }
{
    let book = arbiter.book();
    // How many there are isn't used: the question alone tells that the book is sound.
    let _ = book.len();
    let mut next = book.first_of(task.slot);
    while let Some(id) = next {
        let visit = book.visit(task.slot, id);
        look_at(begun, arbiter, call, place, visit.other, kind, marks);
        next = visit.next;
    }
    look(begun, arbiter, call, place, task, marks);
}

// Looks at the task of a slot if its bar is of the kind, one of the two of a hungry task.
#[inline(always)]
fn look_at(
    begun: &mut Vec<Option<OpenBar>>,
    arbiter: &Arbiter,
    call: Call,
    place: u64,
    slot: u32,
    kind: BarKind,
    marks: &mut Vec<Mark>,
)
    requires room { vec_len marks.old < vec_capacity marks.old }
    requires slot { slot < arbiter.now.table.limits.tasks }
    requires kept { AreKept arbiter.now.table place begun.old.items }
    requires calm { IsCalm arbiter.now.table kind begun.old.items
        (seated_at arbiter.now.table.order slot) }
    requires hunger { kind ≢ BarKind.Meal }
    ensures looked { LooksAt call place arbiter.now.table (seated_at arbiter.now.table.order slot)
        begun.old.items begun.new.items marks.old.items marks.new.items }
    ensures len { vec_len marks.new ≤ vec_len marks.old + 1 }
    ensures room { vec_capacity marks.new ≡ vec_capacity marks.old }
{
    let Some(bar) = begun[slot as usize] else {
        return;
    };
    if !same_kind(bar.kind, kind) {
        return;
    }
    let now = kind_of_hungry(arbiter, slot);
    if !same_kind(now, kind) {
        change(begun, call, place, bar.task, Some(bar), Some(now), marks);
    }
}

// What is drawn of the task of a slot where it is hungry: its forks tell, with no look at its seat.
#[inline(always)]
fn kind_of_hungry(arbiter: &Arbiter, slot: u32) -> BarKind
    requires slot { slot < arbiter.now.table.limits.tasks }
    requires seated { AreSeated arbiter.now.table arbiter.now.table.limits.tasks }
    ensures { (w : Task) → w.slot ≡ slot → state_of arbiter.now.table w ≡ Some State.Hungry →
        kind_at arbiter.now.table w ≡ Some result }
{
    if arbiter.book().holds_all(slot) {
        BarKind::MayBegin
    } else {
        BarKind::KeptWaiting
    }
}

// Ends the bar of a task where it does something else now, and begins the next.
fn look(
    begun: &mut Vec<Option<OpenBar>>,
    arbiter: &Arbiter,
    call: Call,
    place: u64,
    task: Task,
    marks: &mut Vec<Mark>,
)
    requires { vec_len marks.old < vec_capacity marks.old }
    ensures looked { LooksAt call place arbiter.now.table task
        begun.old.items begun.new.items marks.old.items marks.new.items }
    ensures len { vec_len marks.new ≤ vec_len marks.old + 1 }
    ensures room { vec_capacity marks.new ≡ vec_capacity marks.old }
{
    let now = kind_of(arbiter, task);
    let before = begun_of(begun, task);
    if !goes_on(before, now) {
        change(begun, call, place, task, before, now, marks);
    }
}

// Ends the bar of a task, if it has one, and begins the next, if it has one.
fn change(
    begun: &mut Vec<Option<OpenBar>>,
    call: Call,
    place: u64,
    task: Task,
    before: Option<OpenBar>,
    now: Option<BarKind>,
    marks: &mut Vec<Mark>,
)
    requires { vec_len marks.old < vec_capacity marks.old }
    ensures begun { begun.new.items
        ≡ slice_set begun.old.items task.slot (next_bar call place task before now) }
    ensures marks { marks.new.items ≡ marks.old.items ++ ended_at place before }
    ensures len { vec_len marks.new ≤ vec_len marks.old + 1 }
    ensures room { vec_capacity marks.new ≡ vec_capacity marks.old }
{
    if let Some(bar) = before {
        marks.push_reserved(Mark::Bar(bar.until(place)));
    }
    put(begun, task, next_bar(call, place, task, before, now));
}

/// What is drawn of a task: `None` where it thinks, or isn't there.
pub fn kind_of(arbiter: &Arbiter, task: Task) -> Option<BarKind>
    ensures { result ≡ kind_at arbiter.now.table task }
{
    match arbiter.state(task)? {
        State::Eating => Some(BarKind::Meal),
        State::Hungry => {
            if arbiter.is_ready(task) {
                Some(BarKind::MayBegin)
            } else {
                Some(BarKind::KeptWaiting)
            }
        }
        State::Thinking => None,
    }
}

// The bar at the slot of a task.
fn begun_of(begun: &[Option<OpenBar>], task: Task) -> Option<OpenBar>
    ensures { result ≡ begun_of begun.now task }
{
    match begun.get(task.slot as usize) {
        Some(bar) => *bar,
        None => None,
    }
}

// Writes the bar at the slot of a task, if there is such a slot.
fn put(begun: &mut Vec<Option<OpenBar>>, task: Task, bar: Option<OpenBar>)
    ensures { begun.new.items ≡ slice_set begun.old.items task.slot bar }
{
    let slot = task.slot as usize;
    if slot < begun.len() {
        begun[slot] = bar;
    }
}

// Whether two kinds are one.
#[inline(always)]
fn same_kind(a: BarKind, b: BarKind) -> bool
    ensures { result ≡ same_kind a b }
{
    a == b
}

// Whether the bar is of what is done now, or there is none and nothing is done.
fn goes_on(before: Option<OpenBar>, now: Option<BarKind>) -> bool
    ensures { result ≡ goes_on before now }
{
    match (before, now) {
        (None, None) => true,
        (Some(bar), Some(kind)) => kind == bar.kind,
        (None, Some(_)) | (Some(_), None) => false,
    }
}

// The bar that a task has from the place on.
fn next_bar(
    call: Call,
    place: u64,
    task: Task,
    before: Option<OpenBar>,
    now: Option<BarKind>,
) -> Option<OpenBar>
    ensures { result ≡ next_bar call place task before now }
{
    let kind = now?;
    Some(OpenBar {
        task,
        kind,
        from: place,
        turn: turn_after(call, place, task, before, kind),
    })
}

// Which call ended the wait of a task, if it was kept waiting before it may begin, or before it may begin and began.
fn turn_after(
    call: Call,
    place: u64,
    task: Task,
    before: Option<OpenBar>,
    next: BarKind,
) -> Option<Turn>
    ensures { result ≡ turn_after call place task before next }
{
    let bar = before?;
    match (bar.kind, next) {
        (BarKind::KeptWaiting, BarKind::MayBegin) => Some(Turn {
            giver: giver_of(call, task)?,
            place,
        }),
        (BarKind::MayBegin, BarKind::Meal) => bar.turn,
        _ => None,
    }
}

// Whose finish, withdrawal or separation the call is, as the task sees it.
fn giver_of(call: Call, task: Task) -> Option<Task>
    ensures { result ≡ giver_of call task }
{
    match call {
        Call::Finish(other) | Call::Withdraw(other) => Some(other),
        Call::Separate(first, second) => {
            if second == task {
                Some(first)
            } else {
                Some(second)
            }
        }
        Call::Join | Call::Leave(_) | Call::Conflict(..) | Call::Hungry(_) | Call::Begin(_) => None,
    }
}
