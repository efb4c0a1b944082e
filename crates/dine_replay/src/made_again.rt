//! The call of a journal's line, made again.
//!
//! Nearly all lines have one of a few forms, which the reader of entries hands out one by one. Their calls are made within
//! the loop over lines, where each is compiled for itself. What such a line says after its call is compared before the call is
//! made, so a line of another form, or with another reply, leaves the arbiter as it was, and is taken from its front as any
//! line.

ghost use Rattle.std.specs.Prelude.{◌≡◌, ◌≢◌, ◌<◌, ◌-◌, ◌^◌, ◌∷◌, Some, IfErr, IfOk, IsFalse, IsTrue};
ghost use Rattle.dine_words.specs.CallWords.{call_about_two};
ghost use Rattle.dine_words.specs.Reading.{answer_at};
ghost use Rattle.dine_replay.specs.Audit.{IsRefusedBy, IsUntold, Repeats};
ghost use Rattle.dine_replay.specs.Noting.{MakesCall, MakesOrLeaves, MakesStep, RepeatsInEachVersion};

use crate::audit_answer::AuditFault;
use crate::visitor::Visitor;
use dine_arbiter::Arbiter;
use dine_journal::overtakes_somebody;
use dine_words::CallOnOne::{Begin, Finish, Hungry, Leave, Withdraw};
use dine_words::{Call, CallOnOne, CallOnTwo, Entry, JournalVersion, Reply, Task};
use std::alloc::AllocError;

/// Makes the call of a usual line at the front of the text again, if it gets the reply that the line tells, and tells the
/// visitor the entry. Gives whether somebody was overtaken, before or now, and the text after the line. An error is the
/// visitor's.
///
/// Where it gives `None`, the line may still be right: [`replay_line`] tells, from the arbiter as it is.
#[inline(always)]
pub(crate) fn repeat_line<'a, V: Visitor>(
    arbiter: &mut Arbiter,
    is_overtaken: bool,
    visitor: &mut V,
    text: &'a [u8],
) -> Result<Option<(bool, &'a [u8])>, AllocError>
    requires { arbiter.old.table.clock < 2 ^ 64 - 1 }
    ensures { MakesOrLeaves RepeatsInEachVersion arbiter.old.table arbiter.new.table is_overtaken
        (V.told visitor.old) (V.told visitor.new) text.now result }
{
    if let Some((pass, step, rest)) = Entry::read_step_word(text) {
        return repeat_step(arbiter, is_overtaken, visitor, pass, step, rest);
    }
    if let Some((pair, first, second, asked)) = Entry::read_pair(text) {
        return repeat_pair(arbiter, is_overtaken, visitor, pair, first, second, asked);
    }
    let Some(asked) = Entry::read_join(text) else {
        return Ok(None);
    };
    repeat(arbiter, is_overtaken, visitor, asked, 0, Call::Join)
}

// Makes the call of a step again, or another about one task, whose name the text begins with. Each is compiled for itself,
// the reading of the name too, so that nothing asks again which it is.
#[inline(always)]
fn repeat_step<'a, V: Visitor>(
    arbiter: &mut Arbiter,
    is_overtaken: bool,
    visitor: &mut V,
    pass: u32,
    step: CallOnOne,
    text: &'a [u8],
) -> Result<Option<(bool, &'a [u8])>, AllocError>
    requires { arbiter.old.table.clock < 2 ^ 64 - 1 }
    ensures { MakesOrLeaves (MakesStep pass step) arbiter.old.table arbiter.new.table is_overtaken
        (V.told visitor.old) (V.told visitor.new) text.now result }
{
    match step {
        Begin => repeat_on(Begin, arbiter, is_overtaken, visitor, text, pass),
        Hungry => repeat_on(Hungry, arbiter, is_overtaken, visitor, text, pass),
        Finish => repeat_on(Finish, arbiter, is_overtaken, visitor, text, pass),
        Leave => repeat_on(Leave, arbiter, is_overtaken, visitor, text, pass),
        Withdraw => repeat_on(Withdraw, arbiter, is_overtaken, visitor, text, pass),
    }
}

// Makes one of these calls again.
#[inline(always)]
fn repeat_on<'a, V: Visitor>(
    step: CallOnOne,
    arbiter: &mut Arbiter,
    is_overtaken: bool,
    visitor: &mut V,
    text: &'a [u8],
    pass: u32,
) -> Result<Option<(bool, &'a [u8])>, AllocError>
    requires { arbiter.old.table.clock < 2 ^ 64 - 1 }
    ensures { MakesOrLeaves (MakesStep pass step) arbiter.old.table arbiter.new.table is_overtaken
        (V.told visitor.old) (V.told visitor.new) text.now result }
{
    let Some((task, asked)) = Task::read_short(text, b' ') else {
        return Ok(None);
    };
    repeat(arbiter, is_overtaken, visitor, asked, pass, step.on(task))
}

// Makes a call about two tasks on pass 0 again. Each is compiled for itself.
#[inline(always)]
fn repeat_pair<'a, V: Visitor>(
    arbiter: &mut Arbiter,
    is_overtaken: bool,
    visitor: &mut V,
    pair: CallOnTwo,
    first: Task,
    second: Task,
    asked: &'a [u8],
) -> Result<Option<(bool, &'a [u8])>, AllocError>
    requires { arbiter.old.table.clock < 2 ^ 64 - 1 }
    ensures { MakesOrLeaves (MakesCall 0 (call_about_two pair first second))
        arbiter.old.table arbiter.new.table is_overtaken
        (V.told visitor.old) (V.told visitor.new) asked.now result }
{
    match pair {
        CallOnTwo::Conflict => {
            let call = Call::Conflict(first, second);
            repeat(arbiter, is_overtaken, visitor, asked, 0, call)
        }
        CallOnTwo::Separate => {
            let call = Call::Separate(first, second);
            repeat(arbiter, is_overtaken, visitor, asked, 0, call)
        }
    }
}

// Makes a call again, if what its line says after it is the reply that it gets.
#[inline(always)]
fn repeat<'a, V: Visitor>(
    arbiter: &mut Arbiter,
    is_overtaken: bool,
    visitor: &mut V,
    asked: &'a [u8],
    pass: u32,
    call: Call,
) -> Result<Option<(bool, &'a [u8])>, AllocError>
    requires { arbiter.old.table.clock < 2 ^ 64 - 1 }
    ensures { MakesOrLeaves (MakesCall pass call) arbiter.old.table arbiter.new.table is_overtaken
        (V.told visitor.old) (V.told visitor.new) asked.now result }
{
    let reply = arbiter.reply_to(call);
    let Some(rest) = reply.after_answer(asked) else {
        return Ok(None);
    };
    arbiter.apply_answered(call, reply);
    let entry = Entry { pass, call, reply };
    let is_overtaken = is_overtaken || overtakes_somebody(arbiter, &entry);
    visitor.visit(entry)?;
    Ok(Some((is_overtaken, rest)))
}

/// Makes the call of the line at the front of the text again, whatever its form, which has this number, and gives its entry
/// and the text after it. The fault is `Line` or `Wrong`. After `Wrong`, and after `Line` where a call stands there, the call
/// was made.
pub(crate) fn replay_line<'a>(
    arbiter: &mut Arbiter,
    version: JournalVersion,
    line: u64,
    text: &'a [u8],
) -> Result<(Entry, &'a [u8]), AuditFault>
    requires { arbiter.old.table.clock < 2 ^ 64 - 1 }
    ensures ok { IfOk result (λ found.
        Repeats version arbiter.old.table arbiter.new.table text.now found.0 found.1.now) }
    ensures err { IfErr result (IsRefusedBy version arbiter.old.table line text.now) }
{
    let Some((pass, call, asked)) = Entry::read_asked(version, text) else {
        return Err(AuditFault::Line(line));
    };
    let reply = arbiter.apply(call);
    compare(line, Entry { pass, call, reply }, asked)
}

// The entry of a line whose call got its reply, and the text after the line, if what the line says after its call is that
// reply.
fn compare(line: u64, entry: Entry, asked: &[u8]) -> Result<(Entry, &[u8]), AuditFault>
    ensures entry { IfOk result (λ found. found.0 ≡ entry) }
    ensures told { IfOk result (λ found.
        answer_at asked.now ≡ Some (entry.reply, 10 ∷ found.1.now)) }
    ensures err { IfErr result (IsUntold line entry.reply asked.now) }
{
    let reply = entry.reply;
    let Some((told, rest)) = Entry::read_answer_line(asked) else {
        return Err(AuditFault::Line(line));
    };
    if !is_told(reply, told) {
        return Err(AuditFault::Wrong(line, reply));
    }
    Ok((entry, rest))
}

// Whether the reply is the one that a line tells.
fn is_told(reply: Reply, told: Reply) -> bool
    ensures same { IsTrue result → reply ≡ told }
    ensures other { IsFalse result → reply ≢ told }
{
    reply == told
}
