//! The lines of a journal. Nearly all have one of a few forms, and are written behind one look at the room, by a vector
//! that is taken out of its place meanwhile: so its length needs no store for each byte.

ghost use Rattle.std.specs.Prelude.{◌≡◌, ◌++◌, ◌+◌, ◌≤◌, codes, decimal, length, IsOk, OnOk, OnErr, vec_capacity, vec_len};
ghost use Rattle.dine_words.specs.JournalText.{WritesLineOf};
ghost use Rattle.dine_words.specs.Texts.{AppendsUpTo, entry_text, reply_text, task_text};

use crate::call::{Call, Refusal, Reply};
use crate::entry::Entry;
use crate::number::{put_number, put_text};
use crate::task::{TASK_LEN, Task};
use crate::write::MAX_ENTRY_LINE;
use core::mem::replace_with;
use std::alloc::AllocError;

impl Entry {
    /// Appends the entry's text, as `7 begin 0.0 -> refused not-yet`, and a line feed. On `Err` the content of `out` is
    /// unchanged. Where there is room for [`MAX_ENTRY_LINE`] bytes it wants no memory.
    #[inline(always)]
    pub fn write_line_to(&self, out: &mut Vec<u8>) -> Result<(), AllocError>
        ensures ok { OnOk result
            (out.new.items ≡ out.old.items ++ entry_text self.now ++ codes "\n") }
        ensures err { OnErr result (out.new.items ≡ out.old.items) }
        ensures room { vec_len out.old + MAX_ENTRY_LINE ≤ vec_capacity out.old → IsOk result }
    {
        let pass = self.pass;
        match (self.call, self.reply) {
            (Call::Hungry(task), Reply::Done) => write_hungry(out, pass, task),
            (Call::Begin(task), Reply::Done) => write_begun(out, pass, task),
            (Call::Begin(task), Reply::Refused(Refusal::NotYet)) => write_not_yet(out, pass, task),
            (Call::Finish(task), Reply::Done) => write_finished(out, pass, task),
            (Call::Conflict(first, second), Reply::Done) => {
                write_conflict(out, pass, first, second)
            }
            (Call::Separate(first, second), Reply::Done) => {
                write_separate(out, pass, first, second)
            }
            (Call::Join, Reply::Joined(task)) => write_joined(out, pass, task),
            // A copy, so that the entry itself needs no place in memory.
            (call, reply) => Entry { pass, call, reply }.write_any_line_to(out),
        }
    }
}

impl Task {
    /// Appends the line of the reply by which the task has joined, as `joined 1.7`. On `Err` the content of `out` is
    /// unchanged.
    ///
    /// Where there is room and both numbers are short, nothing is called, so fewer registers are saved.
    #[inline(never)]
    pub fn write_joined_line(self, out: &mut Vec<u8>) -> Result<(), AllocError>
        ensures ok { OnOk result
            (out.new.items ≡ out.old.items ++ reply_text (Reply.Joined self) ++ codes "\n") }
        ensures err { OnErr result (out.new.items ≡ out.old.items) }
    {
        if self.slot >= 10_000
            || self.born >= 100_000_000
            || out.capacity() - out.len() < MAX_ENTRY_LINE
        {
            return self.write_any_joined_line(out);
        }
        replace_with(
            out,
            self,
            |lines: Vec<u8>, task: Task|
                requires { vec_len lines + MAX_ENTRY_LINE ≤ vec_capacity lines }
            { (with_joined(lines, task), ()) },
        );
        Ok(())
    }

    // As `write_joined_line`, of any task, with the room that it takes.
    #[inline(never)]
    fn write_any_joined_line(self, out: &mut Vec<u8>) -> Result<(), AllocError>
        ensures ok { OnOk result
            (out.new.items ≡ out.old.items ++ reply_text (Reply.Joined self) ++ codes "\n") }
        ensures err { OnErr result (out.new.items ≡ out.old.items) }
    {
        Reply::Joined(self).write_line_to(out)
    }
}

// The line of a task that grows hungry.
#[inline(never)]
fn write_hungry(out: &mut Vec<u8>, pass: u32, task: Task) -> Result<(), AllocError>
    ensures { WritesLineOf pass (Call.Hungry task) Reply.Done
        MAX_ENTRY_LINE out.old out.new result }
{
    out.reserve(MAX_ENTRY_LINE)?;
    replace_with(
        out,
        (pass, task),
        |lines: Vec<u8>, about: (u32, Task)|
            requires { vec_len lines + MAX_ENTRY_LINE ≤ vec_capacity lines }
        {
            (
                with_step(lines, about.0, b" hungry ", about.1, b" -> done\n"),
                (),
            )
        },
    );
    Ok(())
}

// The line of a task that begins a meal.
#[inline(never)]
fn write_begun(out: &mut Vec<u8>, pass: u32, task: Task) -> Result<(), AllocError>
    ensures { WritesLineOf pass (Call.Begin task) Reply.Done
        MAX_ENTRY_LINE out.old out.new result }
{
    out.reserve(MAX_ENTRY_LINE)?;
    replace_with(
        out,
        (pass, task),
        |lines: Vec<u8>, about: (u32, Task)|
            requires { vec_len lines + MAX_ENTRY_LINE ≤ vec_capacity lines }
        {
            (
                with_step(lines, about.0, b" begin ", about.1, b" -> done\n"),
                (),
            )
        },
    );
    Ok(())
}

// The line of a task that may not begin yet.
#[inline(never)]
fn write_not_yet(out: &mut Vec<u8>, pass: u32, task: Task) -> Result<(), AllocError>
    ensures { WritesLineOf pass (Call.Begin task) (Reply.Refused Refusal.NotYet)
        MAX_ENTRY_LINE out.old out.new result }
{
    out.reserve(MAX_ENTRY_LINE)?;
    replace_with(
        out,
        (pass, task),
        |lines: Vec<u8>, about: (u32, Task)|
            requires { vec_len lines + MAX_ENTRY_LINE ≤ vec_capacity lines }
        {
            (
                with_step(
                    lines,
                    about.0,
                    b" begin ",
                    about.1,
                    b" -> refused not-yet\n",
                ),
                (),
            )
        },
    );
    Ok(())
}

// The line of a task that finishes its meal.
#[inline(never)]
fn write_finished(out: &mut Vec<u8>, pass: u32, task: Task) -> Result<(), AllocError>
    ensures { WritesLineOf pass (Call.Finish task) Reply.Done
        MAX_ENTRY_LINE out.old out.new result }
{
    out.reserve(MAX_ENTRY_LINE)?;
    replace_with(
        out,
        (pass, task),
        |lines: Vec<u8>, about: (u32, Task)|
            requires { vec_len lines + MAX_ENTRY_LINE ≤ vec_capacity lines }
        {
            (
                with_step(lines, about.0, b" finish ", about.1, b" -> done\n"),
                (),
            )
        },
    );
    Ok(())
}

// The line of a task that joins.
#[inline(never)]
fn write_joined(out: &mut Vec<u8>, pass: u32, task: Task) -> Result<(), AllocError>
    ensures { WritesLineOf pass Call.Join (Reply.Joined task)
        MAX_ENTRY_LINE out.old out.new result }
{
    out.reserve(MAX_ENTRY_LINE)?;
    replace_with(
        out,
        (pass, task),
        |lines: Vec<u8>, about: (u32, Task)|
            requires { vec_len lines + MAX_ENTRY_LINE ≤ vec_capacity lines }
        {
            (
                with_step(lines, about.0, b" join -> joined ", about.1, b"\n"),
                (),
            )
        },
    );
    Ok(())
}

// The line of two tasks between whom a conflict begins.
#[inline(never)]
fn write_conflict(out: &mut Vec<u8>, pass: u32, first: Task, second: Task) -> Result<(), AllocError>
    ensures { WritesLineOf pass (Call.Conflict first second) Reply.Done
        MAX_ENTRY_LINE out.old out.new result }
{
    out.reserve(MAX_ENTRY_LINE)?;
    replace_with(
        out,
        (pass, first, second),
        |lines: Vec<u8>, about: (u32, Task, Task)|
            requires { vec_len lines + MAX_ENTRY_LINE ≤ vec_capacity lines }
        {
            (
                with_pair(lines, about.0, b" conflict ", about.1, about.2),
                (),
            )
        },
    );
    Ok(())
}

// The line of two tasks whose conflict ends.
#[inline(never)]
fn write_separate(out: &mut Vec<u8>, pass: u32, first: Task, second: Task) -> Result<(), AllocError>
    ensures { WritesLineOf pass (Call.Separate first second) Reply.Done
        MAX_ENTRY_LINE out.old out.new result }
{
    out.reserve(MAX_ENTRY_LINE)?;
    replace_with(
        out,
        (pass, first, second),
        |lines: Vec<u8>, about: (u32, Task, Task)|
            requires { vec_len lines + MAX_ENTRY_LINE ≤ vec_capacity lines }
        {
            (
                with_pair(lines, about.0, b" separate ", about.1, about.2),
                (),
            )
        },
    );
    Ok(())
}

// These lines with one about one task.
#[inline(always)]
fn with_step(lines: Vec<u8>, pass: u32, asked: &[u8], task: Task, answer: &[u8]) -> Vec<u8>
    requires short { length asked.now + length answer.now ≤ 40 }
    requires room { vec_len lines + MAX_ENTRY_LINE ≤ vec_capacity lines }
    ensures { result.items
        ≡ lines.items ++ decimal pass ++ asked.now ++ task_text task ++ answer.now }
{
    let mut lines = lines;
    put_number(&mut lines, u64::from(pass));
    put_text(&mut lines, asked);
    push_task(&mut lines, task);
    put_text(&mut lines, answer);
    lines
}

// These lines with one about two tasks.
#[inline(always)]
fn with_pair(lines: Vec<u8>, pass: u32, asked: &[u8], first: Task, second: Task) -> Vec<u8>
    requires short { length asked.now ≤ 20 }
    requires room { vec_len lines + MAX_ENTRY_LINE ≤ vec_capacity lines }
    ensures { result.items ≡ lines.items ++ decimal pass ++ asked.now
        ++ (task_text first ++ codes " " ++ task_text second) ++ codes " -> done\n" }
{
    let mut lines = lines;
    put_number(&mut lines, u64::from(pass));
    put_text(&mut lines, asked);
    push_task(&mut lines, first);
    put_text(&mut lines, b" ");
    push_task(&mut lines, second);
    put_text(&mut lines, b" -> done\n");
    lines
}

// These lines with the one of a reply by which a task has joined.
#[inline(always)]
fn with_joined(lines: Vec<u8>, task: Task) -> Vec<u8>
    requires room { vec_len lines + MAX_ENTRY_LINE ≤ vec_capacity lines }
    ensures { result.items ≡ lines.items ++ reply_text (Reply.Joined task) ++ codes "\n" }
{
    let mut lines = lines;
    put_text(&mut lines, b"joined ");
    push_task(&mut lines, task);
    put_text(&mut lines, b"\n");
    lines
}

// Appends a task's text, for which there is room.
#[inline(always)]
fn push_task(line: &mut Vec<u8>, task: Task)
    requires { vec_len line.old + TASK_LEN ≤ vec_capacity line.old }
    ensures { AppendsUpTo TASK_LEN (task_text task) line.old line.new }
{
    put_number(line, u64::from(task.slot));
    put_text(line, b".");
    put_number(line, task.born);
}
