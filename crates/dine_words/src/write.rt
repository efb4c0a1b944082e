//! Names, calls, replies and entries as text.

ghost use Rattle.std.specs.Prelude.{◌≡◌, ◌++◌, ◌+◌, ◌≤◌, codes, IsOk, OnOk, OnErr, length, vec_capacity, vec_len};
ghost use Rattle.dine_words.specs.CallWords.{opening_on_two};
ghost use Rattle.dine_words.specs.JournalText.{WritesLineOf};
ghost use Rattle.dine_words.specs.Texts.{call_text, entry_text, header_text, reply_text, task_text};
ghost use Rattle.dine_words.specs.Versions.{written_version};

use crate::call::{Call, Refusal, Reply};
use crate::call_word::{CallOnOne, CallOnTwo, JOIN};
use crate::entry::Entry;
use crate::limits::Limits;
use crate::number::{NUMBER_LEN, put_number, put_text};
use crate::task::{State, TASK_LEN, Task};
use crate::version::JournalVersion;
use std::alloc::AllocError;

// The most bytes that a call takes as text.
const CALL_LEN: usize = 92;

// The most bytes that a reply takes as text.
const REPLY_LEN: usize = 48;

// The most bytes that an entry takes as text.
const ENTRY_LEN: usize = NUMBER_LEN + 1 + CALL_LEN + 4 + REPLY_LEN;

/// The most bytes that the line of an entry takes. Where there is room for as many, [`Entry::write_line_to`] wants no memory.
pub const MAX_ENTRY_LINE: usize = ENTRY_LEN + 1;

impl Task {
    /// Appends the task's text, as `1.7`. On `Err` the content of `out` is unchanged.
    pub fn write_to(&self, out: &mut Vec<u8>) -> Result<(), AllocError>
        ensures ok { OnOk result (out.new.items ≡ out.old.items ++ task_text self.now) }
        ensures err { OnErr result (out.new.items ≡ out.old.items) }
    {
        out.reserve(TASK_LEN)?;
        put_task(out, *self);
        Ok(())
    }
}

impl Reply {
    /// Appends the reply's text, as `refused not-yet`. On `Err` the content of `out` is unchanged.
    pub fn write_to(&self, out: &mut Vec<u8>) -> Result<(), AllocError>
        ensures ok { OnOk result (out.new.items ≡ out.old.items ++ reply_text self.now) }
        ensures err { OnErr result (out.new.items ≡ out.old.items) }
    {
        out.reserve(REPLY_LEN)?;
        put_reply(out, *self);
        Ok(())
    }

    /// Appends the reply's text and a line feed. On `Err` the content of `out` is unchanged.
    ///
    /// Nearly all calls of a run get one of two replies, whose lines are one store each.
    #[inline(always)]
    pub fn write_line_to(&self, out: &mut Vec<u8>) -> Result<(), AllocError>
        ensures ok { OnOk result
            (out.new.items ≡ out.old.items ++ reply_text self.now ++ codes "\n") }
        ensures err { OnErr result (out.new.items ≡ out.old.items) }
    {
        match *self {
            Reply::Done => out.extend_from_slice(b"done\n"),
            Reply::Refused(Refusal::NotYet) => out.extend_from_slice(b"refused not-yet\n"),
            // A copy, so that the reply itself needs no place in memory.
            rare => rare.write_rare_line_to(out),
        }
    }

    // Appends the text of any reply and a line feed. It stands apart from the loops that write the two usual ones.
    #[inline(never)]
    fn write_rare_line_to(self, out: &mut Vec<u8>) -> Result<(), AllocError>
        ensures ok { OnOk result
            (out.new.items ≡ out.old.items ++ reply_text self ++ codes "\n") }
        ensures err { OnErr result (out.new.items ≡ out.old.items) }
    {
        out.reserve(REPLY_LEN + 1)?;
        put_reply(out, self);
        put_text(out, b"\n");
        Ok(())
    }
}

impl Entry {
    /// Appends the entry's text, as `7 begin 0.0 -> refused not-yet`, with no line feed. On `Err` the content of `out` is
    /// unchanged.
    pub fn write_to(&self, out: &mut Vec<u8>) -> Result<(), AllocError>
        ensures ok { OnOk result (out.new.items ≡ out.old.items ++ entry_text self.now) }
        ensures err { OnErr result (out.new.items ≡ out.old.items) }
    {
        out.reserve(ENTRY_LEN)?;
        put_entry(out, self);
        Ok(())
    }

    // Appends the text of any entry and a line feed. On `Err` the content of `out` is unchanged.
    #[inline(never)]
    pub(crate) fn write_any_line_to(self, out: &mut Vec<u8>) -> Result<(), AllocError>
        ensures { WritesLineOf self.pass self.call self.reply
            MAX_ENTRY_LINE out.old out.new result }
    {
        out.reserve(MAX_ENTRY_LINE)?;
        put_entry(out, &self);
        put_text(out, b"\n");
        Ok(())
    }
}

impl Limits {
    /// Appends the header's line of a journal with these limits, as `dine 2 64 256` and a line feed. On `Err` the content of
    /// `out` is unchanged.
    pub fn write_header_line_to(&self, out: &mut Vec<u8>) -> Result<(), AllocError>
        ensures ok { OnOk result (out.new.items ≡ out.old.items
            ++ header_text written_version self.now ++ codes "\n") }
        ensures err { OnErr result (out.new.items ≡ out.old.items) }
    {
        out.reserve(7 + NUMBER_LEN + 1 + NUMBER_LEN + 1)?;
        put_text(out, JournalVersion::written().opening());
        put_number(out, u64::from(self.tasks));
        put_text(out, b" ");
        put_number(out, u64::from(self.conflicts));
        put_text(out, b"\n");
        Ok(())
    }
}

// Appends an entry's text.
fn put_entry(out: &mut Vec<u8>, entry: &Entry)
    requires { vec_len out.old + ENTRY_LEN ≤ vec_capacity out.old }
    ensures text { out.new.items ≡ out.old.items ++ entry_text entry.now }
    ensures len { vec_len out.new ≤ vec_len out.old + ENTRY_LEN }
    ensures capacity { vec_capacity out.new ≡ vec_capacity out.old }
{
    put_number(out, u64::from(entry.pass));
    put_text(out, b" ");
    put_call(out, entry.call);
    put_text(out, b" -> ");
    put_reply(out, entry.reply);
}

// Appends a task's text.
#[inline(never)]
fn put_task(out: &mut Vec<u8>, task: Task)
    requires { vec_len out.old + TASK_LEN ≤ vec_capacity out.old }
    ensures text { out.new.items ≡ out.old.items ++ task_text task }
    ensures len { vec_len out.new ≤ vec_len out.old + TASK_LEN }
    ensures capacity { vec_capacity out.new ≡ vec_capacity out.old }
{
    put_number(out, u64::from(task.slot));
    put_text(out, b".");
    put_number(out, task.born);
}

// Appends the word of a call, a space, and a task's text. Each word is then built in as a store.
#[inline(always)]
fn put_with_task(out: &mut Vec<u8>, word: &[u8], task: Task)
    requires { vec_len out.old + length word.now + TASK_LEN ≤ vec_capacity out.old }
    ensures text { out.new.items ≡ out.old.items ++ word.now ++ task_text task }
    ensures len { vec_len out.new ≤ vec_len out.old + length word.now + TASK_LEN }
    ensures capacity { vec_capacity out.new ≡ vec_capacity out.old }
{
    put_text(out, word);
    put_task(out, task);
}

// Appends a call's text.
fn put_call(out: &mut Vec<u8>, call: Call)
    requires { vec_len out.old + CALL_LEN ≤ vec_capacity out.old }
    ensures text { out.new.items ≡ out.old.items ++ call_text call }
    ensures len { vec_len out.new ≤ vec_len out.old + CALL_LEN }
    ensures capacity { vec_capacity out.new ≡ vec_capacity out.old }
{
    match call {
        Call::Join => put_text(out, JOIN),
        Call::Leave(task) => put_with_task(out, CallOnOne::Leave.opening(), task),
        Call::Conflict(first, second) => {
            put_with_tasks(out, CallOnTwo::Conflict, first, second);
        }
        Call::Separate(first, second) => {
            put_with_tasks(out, CallOnTwo::Separate, first, second);
        }
        Call::Hungry(task) => put_with_task(out, CallOnOne::Hungry.opening(), task),
        Call::Begin(task) => put_with_task(out, CallOnOne::Begin.opening(), task),
        Call::Finish(task) => put_with_task(out, CallOnOne::Finish.opening(), task),
        Call::Withdraw(task) => put_with_task(out, CallOnOne::Withdraw.opening(), task),
    }
}

// Appends the word of a call about two tasks, a space, and the tasks' texts.
#[inline(always)]
fn put_with_tasks(out: &mut Vec<u8>, asked: CallOnTwo, first: Task, second: Task)
    requires { vec_len out.old + CALL_LEN ≤ vec_capacity out.old }
    ensures text { out.new.items ≡ out.old.items
        ++ opening_on_two asked ++ task_text first ++ codes " " ++ task_text second }
    ensures len { vec_len out.new ≤ vec_len out.old + CALL_LEN }
    ensures capacity { vec_capacity out.new ≡ vec_capacity out.old }
{
    put_with_task(out, asked.opening(), first);
    put_with_task(out, b" ", second);
}

// Appends a reply's text.
fn put_reply(out: &mut Vec<u8>, reply: Reply)
    requires { vec_len out.old + REPLY_LEN ≤ vec_capacity out.old }
    ensures text { out.new.items ≡ out.old.items ++ reply_text reply }
    ensures len { vec_len out.new ≤ vec_len out.old + REPLY_LEN }
    ensures capacity { vec_capacity out.new ≡ vec_capacity out.old }
{
    match reply {
        Reply::Joined(task) => put_with_task(out, b"joined ", task),
        Reply::Done => put_text(out, b"done"),
        Reply::Refused(refusal) => put_refused(out, refusal),
    }
}

// Appends a refused reply's text. Each is one text, since one append costs less than two.
fn put_refused(out: &mut Vec<u8>, refusal: Refusal)
    requires { vec_len out.old + REPLY_LEN ≤ vec_capacity out.old }
    ensures text { out.new.items ≡ out.old.items ++ reply_text (Reply.Refused refusal) }
    ensures len { vec_len out.new ≤ vec_len out.old + REPLY_LEN }
    ensures capacity { vec_capacity out.new ≡ vec_capacity out.old }
{
    match refusal {
        Refusal::Full => put_text(out, b"refused full"),
        Refusal::Unknown => put_text(out, b"refused unknown"),
        Refusal::Same => put_text(out, b"refused same"),
        Refusal::Already => put_text(out, b"refused already"),
        Refusal::Apart => put_text(out, b"refused apart"),
        Refusal::BothEating => put_text(out, b"refused both-eating"),
        Refusal::NoRoom => put_text(out, b"refused no-room"),
        Refusal::WrongState(State::Thinking) => put_text(out, b"refused thinking"),
        Refusal::WrongState(State::Hungry) => put_text(out, b"refused hungry"),
        Refusal::WrongState(State::Eating) => put_text(out, b"refused eating"),
        Refusal::NotYet => put_text(out, b"refused not-yet"),
    }
}
