//! A drawing that takes in one entry after the other, and gives the bars that each ends.

ghost use Rattle.std.specs.Prelude.{◌≡◌, ℕ, ◌-◌, ◌+◌, ◌<◌, ◌≤◌, ◌^◌, ◌↔◌, ◌++◌, true, [], IfOk, Some, OnErr, OnOk, length, take, vec_capacity, vec_len};
ghost use mathlib.Core.List.{IsPrefix};
ghost use Rattle.dine_words.specs.declared.task.Task.{Task};
ghost use Rattle.dine_table.specs.Calls.{reply_of, table_after_call};
ghost use Rattle.dine_table.specs.History.{table_after};
ghost use Rattle.dine_bars.specs.declared.bar.BarKind.{BarKind};
ghost use Rattle.dine_bars.specs.Bars.{is_drawn, kind_at};
ghost use Rattle.dine_bars.specs.Begun.{AreTold};
ghost use Rattle.dine_bars.specs.Marks.{begun_by, drawn_after, ended_by, last_marks, looked_at_by, marks_at, marks_of, opening_drawn};

use crate::bar::OpenBar;
use crate::call::{most_looks, push_mark_of_call};
use crate::look::look_after;
use crate::mark::Mark;
use dine_arbiter::Arbiter;
use dine_journal::Journal;
use dine_words::{Call, Entry, Limits, Reply};
use std::alloc::{AllocError, Global};
use std::marker::Model;

/// What is drawn of the entries so far, as far as it isn't handed out yet: the bars that go on. It takes the memory of an
/// arbiter and of a bar for each slot, however long the history is.
#[derive(Drop)]
pub struct Drawing {
    arbiter: Arbiter,
    // By slot, the bar that its task has now.
    begun: Vec<Option<OpenBar>>,
    // How many entries were taken in.
    place: u64,
}

impl Model for Drawing {
    ghost use Rattle.std.specs.Prelude.{◌≤◌};
    ghost use Rattle.dine_bars.specs.Begun.{AreTold};
    ghost use Rattle.dine_bars.specs.Marks.{Drawing as Drawn};

    ghost Value = { Drawn };

    ghost view = { λ d.
        record { table = d.arbiter.table; begun = d.begun.items; place = d.place } };

    ghost invariant = { λ d.
        (d.arbiter.table.clock ≤ d.place) × AreTold d.arbiter.table d.place d.begun.items };
}

impl Drawing {
    /// The drawing of no entry. An error is want of memory.
    pub fn new(alloc: Global, limits: Limits) -> Result<Self, AllocError>
        ensures { IfOk result (λ d. d ≡ opening_drawn limits) }
    {
        Ok(Drawing {
            arbiter: Arbiter::new(alloc, limits)?,
            begun: vec![in alloc; None; limits.tasks as usize]?,
            place: 0,
        })
    }

    /// How many entries were taken in. It is the number of the last one's line in the journal.
    pub fn place(&self) -> u64
        ensures { result ≡ self.now.place }
    {
        self.place
    }

    /// The arbiter, to which the calls so far were made.
    pub fn arbiter(&self) -> &Arbiter
        ensures { result.now.table ≡ self.now.table }
    {
        &self.arbiter
    }

    /// Makes the call of the next entry, and adds what the entry draws, and the bars that end by it, to the marks. Returns
    /// the reply: where it isn't the entry's, the history isn't legal.
    ///
    /// It looks at the tasks that the call names and at their neighbours alone. An error is want of memory, and nothing has
    /// changed then.
    pub fn take_in(
        &mut self,
        alloc: Global,
        entry: Entry,
        marks: &mut Vec<Mark>,
    ) -> Result<Reply, AllocError>
        requires { self.old.place < 2 ^ 64 - 1 }
        ensures drawn { IfOk result (λ _. self.new ≡ drawn_after self.old entry) }
        ensures reply { IfOk result (λ reply. reply ≡ reply_of self.old.table entry.call) }
        ensures marks { IfOk result (λ _.
            marks.new.items ≡ marks.old.items ++ marks_at self.old entry) }
        ensures err { OnErr result (self.new ≡ self.old) }
        ensures err_marks { OnErr result (marks.new.items ≡ marks.old.items) }
    {
        // The marks alone want memory, by their own allocator.
        let _ = alloc;
        let reply = self.arbiter.reply_to(entry.call);
        marks.reserve(most_looks(&self.arbiter, entry.call, reply) + 1)?;
        self.place += 1;
        push_mark_of_call(marks, self.place, entry, reply);
        carry_out(
            &mut self.begun,
            &mut self.arbiter,
            entry.call,
            reply,
            self.place,
            marks,
        );
        Ok(reply)
    }

    /// Adds the bars that go on to the marks, as ending one place behind the last, in the order of their slots. On `Err`,
    /// which is want of memory, some of them may have been added, behind the marks that stood there before.
    pub fn end(&self, marks: &mut Vec<Mark>) -> Result<(), AllocError>
        requires { self.now.place < 2 ^ 64 - 1 }
        ensures ok { IfOk result (λ _.
            marks.new.items ≡ marks.old.items ++ last_marks (self.now.place + 1) self.now.begun) }
        ensures err { OnErr result (IsPrefix marks.old.items marks.new.items) }
    {
        for bar in &self.begun {
            if let Some(bar) = *bar {
                marks.push(Mark::Bar(bar.until(self.place + 1)))?;
            }
        }
        Ok(())
    }
}

// Makes a call whose reply is known, which leads to the place, and looks at the tasks that may do something else then. There
// is room for a mark of each.
fn carry_out(
    begun: &mut Vec<Option<OpenBar>>,
    arbiter: &mut Arbiter,
    call: Call,
    reply: Reply,
    place: u64,
    marks: &mut Vec<Mark>,
)
    requires clock { arbiter.old.table.clock < 2 ^ 64 - 1 }
    requires reply { reply ≡ reply_of arbiter.old.table call }
    requires told { AreTold arbiter.old.table place begun.old.items }
    requires room { vec_len marks.old + length (looked_at_by arbiter.old.table call)
        ≤ vec_capacity marks.old }
    ensures table { arbiter.new.table ≡ table_after_call arbiter.old.table call }
    ensures begun { begun.new.items ≡ begun_by call place (table_after_call arbiter.old.table call)
        begun.old.items (looked_at_by arbiter.old.table call) }
    ensures marks { marks.new.items ≡ marks.old.items
        ++ ended_by call place (table_after_call arbiter.old.table call) begun.old.items
        (looked_at_by arbiter.old.table call) }
    ensures told { AreTold arbiter.new.table place begun.new.items }
{
    // The book isn't used: the question alone tells that the table is sound.
    let _ = arbiter.book();
    arbiter.apply_answered(call, reply);
    if let Reply::Refused(_) = reply {
        return;
    }
    look_after(begun, arbiter, call, place, marks);
}

/// The marks of a history, in the order of the entries with which they come, and then the bars that go on at its end, in the
/// order of their slots.
///
/// A bar of a kind is drawn over a place exactly where the task does this in the table after that many entries. An error is
/// want of memory.
pub fn draw(alloc: Global, journal: &Journal) -> Result<Vec<Mark>, AllocError>
    ensures marks { IfOk result (λ marks.
        marks.items ≡ marks_of journal.now.limits journal.now.entries) }
    ensures exactly { IfOk result (λ marks.
        (u : Task) (k : BarKind) (place : ℕ) → place ≤ length journal.now.entries →
        ((is_drawn marks.items u k place ≡ true)
        ↔ (kind_at (table_after journal.now.limits (take place journal.now.entries)) u ≡ Some k))) }
{
    let mut marks = Vec::new(alloc);
    draw_into(alloc, journal, &mut marks)?;
    Ok(marks)
}

// Draws a history, and puts its marks into an empty vector.
fn draw_into(alloc: Global, journal: &Journal, marks: &mut Vec<Mark>) -> Result<(), AllocError>
    requires { marks.old.items ≡ [] }
    ensures { OnOk result (marks.new.items ≡ marks_of journal.now.limits journal.now.entries) }
{
    // No list is that long, but no contract of a journal says so.
    if journal.len() == u64::MAX {
        return Err(AllocError);
    }
    let mut drawing = Drawing::new(alloc, journal.limits())?;
    take_in_all(alloc, journal, &mut drawing, marks)
}

// Takes in all entries of a history, from its first on, and adds the bars that go on at its end.
fn take_in_all(
    alloc: Global,
    journal: &Journal,
    drawing: &mut Drawing,
    marks: &mut Vec<Mark>,
) -> Result<(), AllocError>
    requires few { length journal.now.entries < 2 ^ 64 - 1 }
    requires opened { drawing.old ≡ opening_drawn journal.now.limits }
    requires none { marks.old.items ≡ [] }
    ensures { OnOk result (marks.new.items ≡ marks_of journal.now.limits journal.now.entries) }
{
    for place in 0..journal.len() {
        if let Some(entry) = journal.entry(place) {
            drawing.take_in(alloc, entry, marks)?;
        }
    }
    drawing.end(marks)
}
