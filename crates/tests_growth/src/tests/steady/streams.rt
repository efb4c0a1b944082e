//! Scripts, brokers and audits that are under way: what comes later takes no more memory than what came before.

ghost use Rattle.std.specs.Prelude.{None, Bool};

use super::{begins, ends};
use crate::tests::same::same;
use dine_replay::check;
use dine_script::{Ended, Print, Seed, Silence, run_script};
use dine_serve::run_serve;
use dine_words::{Failed, Sink, Source};
use std::alloc::{AllocError, Global};
use tests_kit::{Host, LIMITS};

// At which call of a stream nothing grows from then on, and at which it may again, counted from 1.
type Span = (u32, u32);

// In no run are there so many calls.
const NEVER: Span = (0, 0);

const LATE: Span = (200, 400);

/// A reader of a text in pieces of a thousand bytes, or a writer that takes all and keeps nothing. From one call to another
/// nothing grows.
#[derive(Drop)]
struct Counted<'a> {
    alloc: Global,
    rest: &'a [u8],
    calls: u32,
    span: Span,
}

impl<'a> Counted<'a> {
    fn new(alloc: Global, text: &'a str, span: Span) -> Self {
        Counted {
            alloc,
            rest: text.as_bytes(),
            calls: 0,
            span,
        }
    }

    // Counts a call, and says whether the span begins or ends there.
    fn count(&mut self) {
        self.calls = self.calls.saturating_add(1);
        if self.calls == self.span.0 {
            begins(self.alloc);
        }
        if self.calls == self.span.1 {
            ends(self.alloc);
        }
    }
}

impl Source for Counted<'_> {
    ghost remaining = { λ _. None };

    ghost mark = { λ _. Bool.false };

    fn read(&mut self, buffer: &mut [u8]) -> Result<usize, Failed> {
        self.count();
        let count = self.rest.len().min(buffer.len()).min(1_000);
        buffer[..count].copy_from_slice(&self.rest[..count]);
        self.rest = &self.rest[count..];
        Ok(count)
    }
}

impl Sink for Counted<'_> {
    ghost contents = { λ _. None };

    ghost mark = { λ _. Bool.false };

    fn write(&mut self, bytes: &[u8]) -> Result<usize, Failed> {
        self.count();
        Ok(bytes.len())
    }
}

// A text of a front, and of two parts that are repeated so often.
fn text_of(alloc: Global, front: &str, parts: [(&str, u32); 2]) -> Result<String, AllocError> {
    let mut text = String::from_str(alloc, front)?;
    for (part, times) in parts {
        for _ in 0..times {
            text.push_str(part)?;
        }
    }
    Ok(text)
}

const JOINS: &str = "join a\njoin b\nconflict a b\n";

// A line that prints more than it says.
const QUESTION: &str = "state a\n";

// What usual lines there are, but for those that bind a name or list tasks.
const LINES: &str = "hungry a\nbegin a\nhungry b\nbegin b\nfinish a\nbegin b\nfinish b\nhungry a\n\
    withdraw a\nseparate a b\nconflict a b\n# a remark\nstate b\nnext\n";

// Runs a script: it ends well.
fn run(rt: &impl Host, print: Print, reader: &mut Counted, writer: &mut Counted) {
    let (alloc, seed, mut nobody) = (rt.alloc(), Seed::fixed(), Silence);
    let ended = run_script(alloc, reader, writer, LIMITS, print, seed, &mut nobody);
    same(rt, ended, Ok(Ended::Good));
}

// Behind the questions, which print more than they say, the lines are carried out from a whole text.
#[test]
fn a_script_takes_no_memory_for_usual_lines(rt: HostRuntime) -> Result<(), AllocError> {
    let text = text_of(rt.alloc(), JOINS, [(QUESTION, 20_000), (LINES, 5_000)])?;
    let mut reader = Counted::new(rt.alloc(), &text, NEVER);
    let mut writer = Counted::new(rt.alloc(), "", (2, 6));
    run(&rt, Print::Replies, &mut reader, &mut writer);
    assert!(&rt; writer.calls >= 6);
    Ok(())
}

const PASSED_OVER: &str = "state a\nnext\n# a remark\n\nstate b\n";

// What is printed of a script waits until its end has come. Of these lines nothing is.
#[test]
fn a_script_takes_no_memory_for_what_prints_nothing(rt: HostRuntime) -> Result<(), AllocError> {
    let text = text_of(rt.alloc(), JOINS, [(PASSED_OVER, 10_000), ("", 0)])?;
    let mut reader = Counted::new(rt.alloc(), &text, (150, 300));
    let mut writer = Counted::new(rt.alloc(), "", NEVER);
    run(&rt, Print::Journal, &mut reader, &mut writer);
    assert!(&rt; reader.calls >= 300);
    Ok(())
}

const SERVED: &str = "0 join\n0 join\n0 conflict 0.0 1.1\n";

// Each kind of request, but for those that list tasks.
const REQUESTS: &str = "0 hungry 0.0\n0 begin 0.0\n1 hungry 1.1\n1 await 1.1\n0 finish 0.0\n\
    1 finish 1.1\n0 hungry 0.0\n0 withdraw 0.0\n0 separate 0.0 1.1\n0 conflict 0.0 1.1\n\
    1 hungry 1.1\n0 hungry 0.0\n1 begin 1.1\n0 await 0.0\n0 cancel 0.0\n1 finish 1.1\n\
    0 withdraw 0.0\n0 begin 0.0\n0 nonsense\n# a remark\nstate 0.0\nnext\n";

// Serves a text, late in which nothing grows.
fn serve(rt: &impl Host, text: &str, passes: Option<u32>, wanted: Ended) {
    let mut reader = Counted::new(rt.alloc(), text, LATE);
    let mut writer = Counted::new(rt.alloc(), "", NEVER);
    let ended = run_serve(rt.alloc(), &mut reader, &mut writer, LIMITS, passes);
    same(rt, ended.ok(), Some(wanted));
    assert!(rt; reader.calls >= LATE.1);
}

#[test]
fn a_broker_under_way_takes_no_memory(rt: HostRuntime) -> Result<(), AllocError> {
    let text = text_of(rt.alloc(), SERVED, [(REQUESTS, 2_000), ("", 0)])?;
    serve(&rt, &text, None, Ended::Fault);
    Ok(())
}

// The requests of two passes that eat by turns, each with its number, and one of them twice.
fn numbered(alloc: Global) -> Result<String, AllocError> {
    let mut text = String::from_str(alloc, "0 1 join\n1 1 join\n0 2 conflict 0.0 1.1\n")?;
    for turn in 1..4_000_u64 {
        let number = turn.saturating_mul(3);
        let (next, last) = (number.saturating_add(1), number.saturating_add(2));
        let lines = format!(in alloc;
            "0 {number} hungry 0.0\n1 {number} hungry 1.1\n\
0 {next} await 0.0\n1 {next} await 1.1\n1 {next} await 1.1\n\
0 {last} finish 0.0\n1 {last} finish 1.1\n"
        )?;
        text.push_str(lines.as_str())?;
    }
    Ok(text)
}

#[test]
fn a_broker_of_numbered_passes_takes_no_memory(rt: HostRuntime) -> Result<(), AllocError> {
    serve(&rt, &numbered(rt.alloc())?, Some(2), Ended::Good);
    Ok(())
}

const HEADER: &str =
    "dine 2 64 256\n0 join -> joined 0.0\n0 join -> joined 1.1\n0 conflict 0.0 1.1 -> done\n";

// Two eat by turns, and nobody is overtaken.
const TURN: &str = "0 hungry 0.0 -> done\n0 begin 0.0 -> done\n1 hungry 1.1 -> done\n\
    1 begin 1.1 -> refused not-yet\n0 finish 0.0 -> done\n1 begin 1.1 -> done\n1 finish 1.1 -> done\n";

#[test]
fn an_audit_under_way_takes_no_memory(rt: HostRuntime) -> Result<(), AllocError> {
    let text = text_of(rt.alloc(), HEADER, [(TURN, 4_000), ("", 0)])?;
    let mut reader = Counted::new(rt.alloc(), &text, LATE);
    let checked = check(rt.alloc(), &mut reader).ok();
    same(&rt, checked.map(|checked| checked.entries), Some(28_003));
    assert!(&rt; reader.calls >= LATE.1);
    Ok(())
}
