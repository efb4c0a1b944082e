//! The texts of answers, appended to what is yet to be written. On `Err`, which is want of memory, a part may have been
//! appended, behind what stood there before.

ghost use Rattle.std.specs.Prelude.{◌≡◌, ◌+◌, ◌*◌, ◌++◌, ◌≤◌, ◌∷◌, [], OnErr, OnOk, option_map, vec_capacity, vec_len};
ghost use mathlib.Core.List.{IsPrefix};
ghost use Rattle.dine_words.specs.Texts.{AppendsUpTo, entry_text, reply_text, text_of_lines};
ghost use Rattle.dine_serve.specs.Answers.{again_lines, cancelled_line, fault_line, listed_or_none, task_if};

use crate::receipts::RequestAnswer;
use crate::request_fault::LineFault;
use dine_lines::push_tasks;
use dine_words::{Call, Entry, MAX_ENTRY_LINE, Reply, Task, push_numbered, put_number, put_text};
use std::alloc::AllocError;

/// The line of an entry, and room behind it for the lines of so many more. On `Err` nothing was appended.
#[inline(always)]
pub fn push_line_and_room(out: &mut Vec<u8>, entry: Entry, more: usize) -> Result<(), AllocError>
    ensures ok { OnOk result
        (out.new.items ≡ out.old.items ++ text_of_lines (entry_text entry ∷ [])) }
    ensures room { OnOk result
        (vec_len out.new + MAX_ENTRY_LINE * more ≤ vec_capacity out.new) }
    ensures err { OnErr result (out.new.items ≡ out.old.items) }
{
    // So many never wait: as many as there are tasks at the most.
    let Some(room) = MAX_ENTRY_LINE.checked_mul(more) else {
        return Err(AllocError);
    };
    let len = out.len();
    entry.write_line_to(out)?;
    if let Err(error) = out.reserve(room) {
        out.truncate(len);
        return Err(error);
    }
    Ok(())
}

/// The line of a begin, for which there is room.
pub fn put_begin_line(out: &mut Vec<u8>, pass: u32, task: Task, reply: Reply)
    requires { vec_len out.old + MAX_ENTRY_LINE ≤ vec_capacity out.old }
    ensures { AppendsUpTo MAX_ENTRY_LINE (text_of_lines (entry_text
        (record { pass = pass; call = Call.Begin task; reply = reply }) ∷ [])) out.old out.new }
{
    put_number(out, u64::from(pass));
    put_text(out, b" begin ");
    put_number(out, u64::from(task.slot));
    put_text(out, b".");
    put_number(out, task.born);
    put_text(out, b" -> ");
    put_reply(out, reply);
    put_text(out, b"\n");
}

// A reply, for which there is room.
fn put_reply(out: &mut Vec<u8>, reply: Reply)
    requires { vec_len out.old + 48 ≤ vec_capacity out.old }
    ensures { AppendsUpTo 48 (reply_text reply) out.old out.new }
{
    match reply {
        Reply::Joined(task) => {
            put_text(out, b"joined ");
            put_number(out, u64::from(task.slot));
            put_text(out, b".");
            put_number(out, task.born);
        }
        Reply::Done => put_text(out, b"done"),
        Reply::Refused(refusal) => {
            put_text(out, b"refused ");
            put_text(out, refusal.text().as_bytes());
        }
    }
}

/// The line that tells whether a begin of the task was taken back.
pub fn push_cancelled_line(out: &mut Vec<u8>, found: bool, task: Task) -> Result<(), AllocError>
    ensures ok { OnOk result
        (out.new.items ≡ out.old.items ++ text_of_lines (cancelled_line found task ∷ [])) }
    ensures err { OnErr result (IsPrefix out.old.items out.new.items) }
{
    out.extend_from_slice(b"? cancelled ")?;
    push_if_found(out, found, task)?;
    out.extend_from_slice(b"\n")
}

// The task, where it was found.
fn push_if_found(out: &mut Vec<u8>, found: bool, task: Task) -> Result<(), AllocError>
    ensures ok { OnOk result (out.new.items ≡ out.old.items ++ task_if found task) }
    ensures err { OnErr result (IsPrefix out.old.items out.new.items) }
{
    if found {
        task.write_to(out)
    } else {
        out.extend_from_slice(b"none")
    }
}

/// A word, and a space and its name for each task, or that there is none.
pub fn push_listed(
    out: &mut Vec<u8>,
    word: &[u8],
    tasks: Option<Vec<Task>>,
) -> Result<(), AllocError>
    ensures ok { OnOk result (out.new.items ≡ out.old.items
        ++ (word.now ++ listed_or_none (option_map (λ found. found.items) tasks))) }
    ensures err { OnErr result (IsPrefix out.old.items out.new.items) }
{
    out.extend_from_slice(word)?;
    match tasks {
        Some(tasks) if !tasks.is_empty() => push_tasks(out, &tasks),
        _ => out.extend_from_slice(b" none"),
    }
}

/// What a request was answered, as it is answered when it comes again: nothing where it waits.
pub fn push_again(out: &mut Vec<u8>, answer: RequestAnswer) -> Result<(), AllocError>
    ensures ok { OnOk result
        (out.new.items ≡ out.old.items ++ text_of_lines (again_lines answer)) }
    ensures err { OnErr result (IsPrefix out.old.items out.new.items) }
{
    match answer {
        RequestAnswer::Made(entry) => {
            out.extend_from_slice(b"= ")?;
            entry.write_line_to(out)
        }
        RequestAnswer::Cancelled(found, task) => {
            out.extend_from_slice(b"= ")?;
            push_cancelled_line(out, found, task)
        }
        RequestAnswer::Waits => Ok(()),
    }
}

/// The line of a fault of the line with this number.
pub fn push_fault_line(out: &mut Vec<u8>, number: u64, fault: LineFault) -> Result<(), AllocError>
    ensures ok { OnOk result
        (out.new.items ≡ out.old.items ++ text_of_lines (fault_line number fault ∷ [])) }
    ensures err { OnErr result (IsPrefix out.old.items out.new.items) }
{
    push_numbered(out, b"! ", number)?;
    out.extend_from_slice(b" fault ")?;
    out.extend_from_slice(fault.text().as_bytes())?;
    out.extend_from_slice(b"\n")
}
