//! A history in Chrome's trace format, as a stream: what is kept is what goes on, and never the whole. On `Err` a part
//! may have been appended.

ghost use Rattle.std.specs.Prelude.{◌≡◌, ◌++◌, ◌+◌, ◌<◌, ◌≤◌, ◌-◌, ◌^◌, ◌∷◌, [], OnErr, OnOk, length, vec_capacity, vec_len};
ghost use Rattle.std.specs.Io.KnownBytes.{Appends};
ghost use Rattle.dine_journal.specs.Marks.{IsWriterMarked};
ghost use Rattle.dine_bars.specs.Marks.{drawn_after, marks_at};
ghost use Rattle.dine_chart.specs.Ending.{AppendsFront, last_text};
ghost use Rattle.dine_chart.specs.Reading.{IsLegalText};
ghost use Rattle.dine_chart.specs.Trace.{bar_event, bar_events, conflict_event, doing_end, event_text, events_text, flow_end, giving_event, instant_opening, is_traced, joined_events, mark_events, naming_event, refused_event, taking_event, task_event, thread_of, thread_of_any, thread_of_refused, trace_end, trace_opening, turn_events, with_name};
ghost use Rattle.dine_chart.specs.Writing.{WritesTrace};

use crate::elements::push_refused_entry;
use crate::escape::{Setting, push_name_in};
use crate::picture::given_in;
use crate::piece::{Pushed, push, push_labelled, put_labelled};
use dine_bars::{Bar, BarKind, ConflictMark, Drawing, Mark, RefusedCall, TaskMark, Turn, Window};
use dine_journal::TextFault;
use dine_lines::Label;
use dine_streams::{write_if_enough, write_whole};
use dine_words::{Entry, Header, NUMBER_LEN, Refusal, Sink, Task, put_text};
use std::alloc::Global;

// The number of a task's thread.
fn thread_of(task: Task) -> u64
    ensures { result ≡ thread_of task }
{
    task.born.saturating_add(2)
}

// The number of the thread of a task that may be none.
fn thread_of_any(task: Option<Task>) -> u64
    ensures { result ≡ thread_of_any task }
{
    match task {
        Some(task) => thread_of(task),
        None => 1,
    }
}

// The number of the thread of a refused call that names this task first.
fn thread_of_refused(refusal: Refusal, task: Option<Task>) -> u64
    ensures { result ≡ thread_of_refused refusal task }
{
    match refusal {
        Refusal::Unknown => 1,
        _ => thread_of_any(task),
    }
}

// The most bytes that an event of a bar or of its arrow takes, and an event at a place up to its text. There is room for
// all of them before the first is written, so that each piece is but copied.
const EVENT_LEN: usize = 35 + NUMBER_LEN + 6 + NUMBER_LEN + 19 + NUMBER_LEN + 23;

// Appends an event up to its time.
#[inline(always)]
#[tactic(auto, unfolding(crate::specs::Trace::event_text))]
fn put_event(out: &mut Vec<u8>, opening: &[u8], thread: u64, place: u64)
    requires { vec_len out.old + length opening.now + 46 ≤ vec_capacity out.old }
    ensures text { out.new.items ≡ out.old.items ++ event_text opening.now thread place }
    ensures len { vec_len out.new ≤ vec_len out.old + length opening.now + 46 }
    ensures capacity { vec_capacity out.old ≤ vec_capacity out.new }
{
    put_labelled(out, opening, thread);
    put_labelled(out, b",\"ts\":", place);
}

// Appends what a task does, and the end of the event.
#[inline(always)]
fn put_doing(out: &mut Vec<u8>, kind: BarKind)
    requires { vec_len out.old + 23 ≤ vec_capacity out.old }
    ensures { out.new.items ≡ out.old.items ++ doing_end kind }
{
    match kind {
        BarKind::Meal => put_text(out, b",\"name\":\"eats\"}"),
        BarKind::KeptWaiting => put_text(out, b",\"name\":\"kept waiting\"}"),
        BarKind::MayBegin => put_text(out, b",\"name\":\"may begin\"}"),
    }
}

// Appends a bar.
fn push_bar(out: &mut Vec<u8>, bar: Bar) -> Pushed
    ensures { OnOk result (out.new.items ≡ out.old.items ++ bar_event bar) }
{
    out.reserve(EVENT_LEN)?;
    put_bar(out, bar);
    Ok(())
}

// Appends a bar, for which there is room.
#[tactic(auto, unfolding(crate::specs::Trace::bar_event))]
fn put_bar(out: &mut Vec<u8>, bar: Bar)
    requires { vec_len out.old + EVENT_LEN ≤ vec_capacity out.old }
    ensures { out.new.items ≡ out.old.items ++ bar_event bar }
{
    let opening = b",\n{\"ph\":\"X\",\"pid\":1,\"tid\":";
    put_event(out, opening, thread_of(bar.task), bar.from);
    put_labelled(out, b",\"dur\":", bar.to.saturating_sub(bar.from));
    put_doing(out, bar.kind);
}

// Appends what the two ends of an arrow have in common.
#[inline(always)]
#[tactic(auto, unfolding(crate::specs::Trace::flow_end))]
fn put_flow_end(out: &mut Vec<u8>, number: u64)
    requires { vec_len out.old + 54 ≤ vec_capacity out.old }
    ensures { out.new.items ≡ out.old.items ++ flow_end number }
{
    put_labelled(out, b",\"cat\":\"turn\",\"id\":", number);
    put_text(out, b",\"name\":\"turn\"}");
}

// Appends where the arrow of a turn begins.
fn push_giving(out: &mut Vec<u8>, turn: Turn, meal: Bar) -> Pushed
    ensures { OnOk result (out.new.items ≡ out.old.items ++ giving_event turn meal) }
{
    out.reserve(EVENT_LEN)?;
    put_giving(out, turn, meal);
    Ok(())
}

// Appends where the arrow of a turn begins, for which there is room.
#[tactic(auto, unfolding(crate::specs::Trace::giving_event))]
fn put_giving(out: &mut Vec<u8>, turn: Turn, meal: Bar)
    requires { vec_len out.old + EVENT_LEN ≤ vec_capacity out.old }
    ensures { out.new.items ≡ out.old.items ++ giving_event turn meal }
{
    let opening = b",\n{\"ph\":\"s\",\"pid\":1,\"tid\":";
    let place = turn.place.saturating_sub(1);
    put_event(out, opening, thread_of(turn.giver), place);
    put_flow_end(out, meal.from);
}

// Appends where it ends.
fn push_taking(out: &mut Vec<u8>, meal: Bar) -> Pushed
    ensures { OnOk result (out.new.items ≡ out.old.items ++ taking_event meal) }
{
    out.reserve(EVENT_LEN)?;
    put_taking(out, meal);
    Ok(())
}

// Appends where it ends, for which there is room.
#[tactic(auto, unfolding(crate::specs::Trace::taking_event))]
fn put_taking(out: &mut Vec<u8>, meal: Bar)
    requires { vec_len out.old + EVENT_LEN ≤ vec_capacity out.old }
    ensures { out.new.items ≡ out.old.items ++ taking_event meal }
{
    let opening = b",\n{\"ph\":\"f\",\"bp\":\"e\",\"pid\":1,\"tid\":";
    put_event(out, opening, thread_of(meal.task), meal.from);
    put_flow_end(out, meal.from);
}

// Appends the arrow of a bar, if it is a meal that took a turn.
fn push_turn(out: &mut Vec<u8>, bar: Bar) -> Pushed
    ensures { OnOk result (out.new.items ≡ out.old.items ++ turn_events bar.kind bar.turn bar) }
{
    match (bar.kind, bar.turn) {
        (BarKind::Meal, Some(turn)) => {
            push_giving(out, turn, bar)?;
            push_taking(out, bar)
        }
        _ => Ok(()),
    }
}

// Appends a bar, and the arrow of its turn.
fn push_bar_and_turn(out: &mut Vec<u8>, bar: Bar) -> Pushed
    ensures { OnOk result (out.new.items ≡ out.old.items ++ bar_events bar) }
{
    push_bar(out, bar)?;
    push_turn(out, bar)
}

// Appends the name of a task's thread.
#[tactic(auto, unfolding(crate::specs::Trace::naming_event))]
fn push_naming(out: &mut Vec<u8>, labels: &[Label], task: Task) -> Pushed
    ensures { OnOk result (out.new.items ≡ out.old.items ++ naming_event labels.now task) }
{
    let opening = b",\n{\"ph\":\"M\",\"name\":\"thread_name\",\"pid\":1,\"tid\":";
    push_labelled(out, opening, thread_of(task))?;
    push(out, b",\"args\":{\"name\":\"")?;
    push_name_in(out, Setting::Json, given_in(labels, task), task)?;
    push(out, b"\"}}")
}

// Appends what stands before the text of something that happens at a place.
fn push_instant(out: &mut Vec<u8>, thread: u64, place: u64) -> Pushed
    ensures { OnOk result (out.new.items ≡ out.old.items ++ instant_opening thread place) }
{
    out.reserve(EVENT_LEN)?;
    put_instant(out, thread, place);
    Ok(())
}

// Appends it where there is room for it.
#[tactic(auto, unfolding(crate::specs::Trace::instant_opening))]
fn put_instant(out: &mut Vec<u8>, thread: u64, place: u64)
    requires { vec_len out.old + EVENT_LEN ≤ vec_capacity out.old }
    ensures { out.new.items ≡ out.old.items ++ instant_opening thread place }
{
    let opening = b",\n{\"ph\":\"i\",\"s\":\"t\",\"pid\":1,\"tid\":";
    put_event(out, opening, thread, place);
    put_text(out, b",\"name\":\"");
}

// Appends that a task joins or leaves.
#[tactic(auto, unfolding(crate::specs::Trace::task_event))]
fn push_of_task(out: &mut Vec<u8>, word: &[u8], mark: TaskMark) -> Pushed
    ensures { OnOk result (out.new.items ≡ out.old.items ++ task_event word.now mark) }
{
    push_instant(out, thread_of(mark.task), mark.place)?;
    push(out, word)?;
    push(out, b"\"}")
}

// Appends a text, and the name of a task behind it.
#[tactic(auto, unfolding(crate::specs::Trace::with_name))]
fn push_with_name(out: &mut Vec<u8>, labels: &[Label], text: &[u8], task: Task) -> Pushed
    ensures { OnOk result (out.new.items
        ≡ out.old.items ++ with_name labels.now text.now task) }
{
    push(out, text)?;
    push_name_in(out, Setting::Json, given_in(labels, task), task)
}

// Appends a conflict that is declared or taken away.
#[tactic(auto, unfolding(crate::specs::Trace::conflict_event))]
fn push_conflict(out: &mut Vec<u8>, labels: &[Label], word: &[u8], mark: ConflictMark) -> Pushed
    ensures { OnOk result (out.new.items
        ≡ out.old.items ++ conflict_event labels.now word.now mark) }
{
    push_instant(out, thread_of(mark.first), mark.place)?;
    push_with_name(out, labels, word, mark.first)?;
    push_with_name(out, labels, b" ", mark.second)?;
    push(out, b"\"}")
}

// Appends a refused call.
#[tactic(auto, unfolding(crate::specs::Trace::refused_event))]
fn push_refused(out: &mut Vec<u8>, mark: RefusedCall) -> Pushed
    ensures { OnOk result (out.new.items ≡ out.old.items ++ refused_event mark) }
{
    push_instant(
        out,
        thread_of_refused(mark.refusal, mark.task()),
        mark.place,
    )?;
    push_refused_entry(out, mark)?;
    push(out, b"\"}")
}

// Appends the name of a task that joins, and that it does so where the window has the place.
fn push_joined(out: &mut Vec<u8>, labels: &[Label], window: Window, mark: TaskMark) -> Pushed
    ensures { OnOk result (out.new.items ≡ out.old.items ++ joined_events labels.now window mark) }
{
    push_naming(out, labels, mark.task)?;
    if window.has(mark.place) {
        push_of_task(out, b"joins", mark)
    } else {
        Ok(())
    }
}

// Appends the events of a mark.
fn push_mark(out: &mut Vec<u8>, labels: &[Label], window: Window, mark: Mark) -> Pushed
    ensures { OnOk result (out.new.items ≡ out.old.items ++ mark_events labels.now window mark) }
{
    match mark {
        Mark::Bar(bar) => push_bar_and_turn(out, bar),
        Mark::Joined(joined) => push_joined(out, labels, window, joined),
        Mark::Left(left) => push_of_task(out, b"leaves", left),
        Mark::Declared(ends) => push_conflict(out, labels, b"conflict ", ends),
        Mark::Separated(ends) => push_conflict(out, labels, b"separate ", ends),
        Mark::Refused(refused) => push_refused(out, refused),
    }
}

// Whether a mark has events in the window.
fn is_traced(window: Window, mark: Mark) -> bool
    ensures { result ≡ is_traced window mark }
{
    match mark {
        Mark::Bar(bar) => bar.from < window.to && window.from < bar.to,
        Mark::Joined(at) => at.place < window.to,
        Mark::Left(at) => window.has(at.place),
        Mark::Declared(at) | Mark::Separated(at) => window.has(at.place),
        Mark::Refused(call) => window.has(call.place),
    }
}

// Appends the events of a mark, if it has some in the window.
fn push_if_traced(out: &mut Vec<u8>, labels: &[Label], window: Window, mark: Mark) -> Pushed
    ensures { OnOk result (out.new.items
        ≡ out.old.items ++ events_text labels.now window (mark ∷ [])) }
{
    if is_traced(window, mark) {
        push_mark(out, labels, window, mark)
    } else {
        Ok(())
    }
}

// Appends the events of those of the marks that have some in the window.
fn push_marks(out: &mut Vec<u8>, labels: &[Label], window: Window, marks: &[Mark]) -> Pushed
    ensures { OnOk result (out.new.items
        ≡ out.old.items ++ events_text labels.now window marks.now) }
{
    for mark in marks {
        push_if_traced(out, labels, window, *mark)?;
    }
    Ok(())
}

// Takes in an entry, and appends the events of its marks. `ended` is room for these, empty before and after.
fn push_entry(
    alloc: Global,
    drawing: &mut Drawing,
    entry: Entry,
    window: Window,
    labels: &[Label],
    ended: &mut Vec<Mark>,
    out: &mut Vec<u8>,
) -> Pushed
    requires place { drawing.old.place < 2 ^ 64 - 1 }
    requires empty { ended.old.items ≡ [] }
    ensures drawn { OnOk result (drawing.new ≡ drawn_after drawing.old entry) }
    ensures events { OnOk result (out.new.items
        ≡ out.old.items ++ events_text labels.now window (marks_at drawing.old entry)) }
    ensures empty { OnOk result (ended.new.items ≡ []) }
{
    drawing.take_in(alloc, entry, ended)?;
    push_marks(out, labels, window, ended)?;
    ended.clear();
    Ok(())
}

// Appends the beginning.
#[tactic(auto, unfolding(crate::specs::Trace::trace_opening))]
fn push_opening(out: &mut Vec<u8>) -> Pushed
    ensures { OnOk result (out.new.items ≡ out.old.items ++ trace_opening) }
{
    push(
        out,
        b"{\"displayTimeUnit\":\"ns\",\"traceEvents\":[\n{\"ph\":\"M\",\"name\":\"process_name\",\"pid\":1,\"args\":{\"name\":\"hygienic\"}},\n{\"ph\":\"M\",\"name\":\"thread_name\",\"pid\":1,\"tid\":1,\"args\":{\"name\":\"other calls\"}}",
    )
}

// Appends the end.
#[tactic(auto, unfolding(crate::specs::Trace::trace_end))]
fn push_end(out: &mut Vec<u8>) -> Pushed
    ensures { OnOk result (out.new.items ≡ out.old.items ++ trace_end) }
{
    push(out, b"\n]}\n")
}

// Appends the events of the marks that are left, and the end.
fn push_last(out: &mut Vec<u8>, labels: &[Label], window: Window, marks: &[Mark]) -> Pushed
    ensures { OnOk result (out.new.items
        ≡ out.old.items ++ (events_text labels.now window marks.now ++ trace_end)) }
{
    push_marks(out, labels, window, marks)?;
    push_end(out)
}

/// Writes the trace of the places that a window has of the journal whose text this is, with these names for its tasks.
/// It keeps no entry of the journal: beside the text it takes the memory of an arbiter, of a bar for each slot and of
/// some lines.
///
/// An error comes where memory runs out, or where a write failed or took none of some bytes: a first part of the trace was
/// written then.
pub fn write_trace<W: Sink>(
    alloc: Global,
    text: &[u8],
    window: Window,
    labels: &[Label],
    writer: &mut W,
) -> Result<(), TextFault>
    requires legal { IsLegalText text.now }
    ensures { WritesTrace text.now labels.now window result
        (W.contents writer.old) (W.contents writer.new) (W.mark writer.old) (W.mark writer.new) }
{
    let mut ended = Vec::new(alloc);
    let mut lines = Vec::new(alloc);
    write_by_lines(alloc, text, window, labels, &mut ended, &mut lines, writer)
}

// The same, by lines that wait to be written. `ended` is room for the marks of an entry.
fn write_by_lines<W: Sink>(
    alloc: Global,
    text: &[u8],
    window: Window,
    labels: &[Label],
    ended: &mut Vec<Mark>,
    lines: &mut Vec<u8>,
    writer: &mut W,
) -> Result<(), TextFault>
    requires legal { IsLegalText text.now }
    requires none_ended { ended.old.items ≡ [] }
    requires none_waits { lines.old.items ≡ [] }
    ensures { WritesTrace text.now labels.now window result
        (W.contents writer.old) (W.contents writer.new) (W.mark writer.old) (W.mark writer.new) }
{
    let Some((header, mut rest)) = Header::read_line(text) else {
        unreachable!()
    };
    let mut drawing = Drawing::new(alloc, header.limits)?;
    push_opening(lines)?;
    while let Some((entry, after)) = Entry::read_line::<3>(header.version, rest) {
        write_if_enough(writer, lines)?;
        push_entry(alloc, &mut drawing, entry, window, labels, ended, lines)?;
        rest = after;
    }
    write_end(&drawing, ended, lines, window, labels, writer)
}

// Writes the lines that wait, the bars that go on, and the end. `ended` is room for these bars.
fn write_end<W: Sink>(
    drawing: &Drawing,
    ended: &mut Vec<Mark>,
    lines: &mut Vec<u8>,
    window: Window,
    labels: &[Label],
    writer: &mut W,
) -> Result<(), TextFault>
    requires place { drawing.now.place < 2 ^ 64 - 1 }
    requires empty { ended.old.items ≡ [] }
    ensures ok { OnOk result (Appends (W.contents writer.old) (W.contents writer.new)
        (lines.old.items ++ last_text labels.now window drawing.now)) }
    ensures err { OnErr result (AppendsFront (W.contents writer.old) (W.contents writer.new)
        (lines.old.items ++ last_text labels.now window drawing.now)) }
    ensures mark { IsWriterMarked result (W.mark writer.old) (W.mark writer.new) }
{
    drawing.end(ended)?;
    push_last(lines, labels, window, ended)?;
    write_whole(writer, lines)?;
    Ok(())
}
