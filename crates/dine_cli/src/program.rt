//! The program between its words and streams and its exit status.

ghost use Rattle.std.specs.Prelude.{◌≡◌, ◌≤◌, OnOk};
ghost use Rattle.dine_cli.specs.Asked.{IsRequestDone, IsRun};
ghost use Rattle.dine_command_line.specs.Program.{IsAnswered, IsOver, IsProgramRun, reading, writing};

use crate::drawing::{Drawing, run_drawing};
use crate::journal_file::open_journal;
use crate::race::run_race;
use crate::resumed::run_resumed;
use crate::trace::run_trace;
use dine_command_line::{Asked, CommandLine, Host, Input, Request, explain_words};
use dine_lines::{Listener, Seed};
use dine_race::Gate;
use dine_replay::{AuditReading, run_audit};
use dine_script::{CliFault, Ended, run_script, write_text};
use dine_serve::run_serve;
use dine_streams::finish;
use dine_words::{Sink, Source};
use std::alloc::Global;
use std::sync::Wait;
use std::thread::Threads;

// What a run needs besides its words and streams.
#[derive_where(Clone, Copy)]
struct Means<'a, T, G> {
    rt: &'a T,
    alloc: Global,
    gate: &'a G,
    seed: Seed,
}

/// The whole program: reads the words, of which the first is the program's name, does what they ask for, and answers the
/// exit status.
///
/// The status is 0 if all is well, or help was asked for. It is 1 if a journal has another reply than the table, or a race
/// isn't settled. It is 2 if the input or the command line has a fault, for the latter after the line `fault command`. It is
/// 3 if memory ran out or a read or a write failed, after a last line that says which, if it can be written.
///
/// The input is the reader's, or that of the file that the words name. The host opens that file, and the journal that is
/// gone on with. A file that can't be opened is a read that failed, and then nothing of the reader is read. The host is
/// told what the words ask for, what is wrong with the input, and why the run gave up.
///
/// Each step of a race's workers goes through the gate. Names are found by hashes of the seed: under one that a stranger
/// knows, names that are chosen for it can make the program slow.
pub fn run_words<T, C, R, W, H, G>(
    rt: &T,
    alloc: Global,
    words: C,
    reader: &mut R,
    writer: &mut W,
    host: &mut H,
    gate: &G,
    seed: Seed,
) -> u8
where
    T: Threads + Wait + Sync,
    C: CommandLine,
    R: Source,
    W: Sink,
    H: Host,
    G: Gate + Sync,
    ensures status { result ≤ 3 }
    ensures ran { IsProgramRun (C.asks words) (IsRequestDone H.lacks H.holds)
        (reading (R.remaining reader.old) (R.remaining reader.new)
        (R.mark reader.old) (R.mark reader.new))
        (writing (W.contents writer.old) (W.contents writer.new)
        (W.mark writer.old) (W.mark writer.new)) result }
{
    let means = Means {
        rt,
        alloc,
        gate,
        seed,
    };
    let outcome = means.answer_words(words, reader, writer, host);
    let status = finish(outcome, writer);
    if let Err(fault) = outcome {
        host.give_up(fault);
    }
    status
}

impl<'a, T: Threads + Wait + Sync, G: Gate + Sync> Means<'a, T, G> {
    // Reads the words, and does what they ask for.
    fn answer_words<C: CommandLine, R: Source, W: Sink, H: Host>(
        &self,
        words: C,
        reader: &mut R,
        writer: &mut W,
        host: &mut H,
    ) -> Result<Ended, CliFault>
        ensures { IsAnswered (C.asks words) (IsRequestDone H.lacks H.holds)
            (reading (R.remaining reader.old) (R.remaining reader.new)
            (R.mark reader.old) (R.mark reader.new))
            (writing (W.contents writer.old) (W.contents writer.new)
            (W.mark writer.old) (W.mark writer.new)) result }
    {
        let request = words.read(self.alloc)?;
        host.begin(&request);
        self.do_request(request, reader, writer, host)
    }

    // Does what is asked for, behind the journal that it names, if it names one.
    fn do_request<R: Source, W: Sink, H: Host>(
        &self,
        request: Request,
        reader: &mut R,
        writer: &mut W,
        host: &mut H,
    ) -> Result<Ended, CliFault>
        ensures { IsRequestDone H.lacks H.holds request
            (reading (R.remaining reader.old) (R.remaining reader.new)
            (R.mark reader.old) (R.mark reader.new))
            (writing (W.contents writer.old) (W.contents writer.new)
            (W.mark writer.old) (W.mark writer.new)) result }
    {
        match open_journal(&request.asked, host) {
            Some(mut journal) => self.do_over(request, &mut journal, reader, writer, host),
            None => Err(CliFault::Read),
        }
    }

    // Does what is asked for over the input that is named.
    fn do_over<J: Source, R: Source, W: Sink, H: Host>(
        &self,
        request: Request,
        journal: &mut J,
        reader: &mut R,
        writer: &mut W,
        host: &mut H,
    ) -> Result<Ended, CliFault>
        ensures over { IsOver H.lacks H.holds request.input
            (IsRun request.asked (J.remaining journal.old) (J.mark journal.new))
            (reading (R.remaining reader.old) (R.remaining reader.new)
            (R.mark reader.old) (R.mark reader.new))
            (writing (W.contents writer.old) (W.contents writer.new)
            (W.mark writer.old) (W.mark writer.new)) result }
        ensures journal_unmarked { OnOk result (J.mark journal.new ≡ J.mark journal.old) }
    {
        let Request {
            asked,
            input,
            is_quiet: _,
        } = request;
        match input {
            Input::Standard => {
                if asked.has_input() {
                    host.read_standard();
                }
                self.carry_out(asked, journal, reader, writer, host)
            }
            Input::File(path) => match host.open(path.as_str()) {
                Some(mut file) => self.carry_out(asked, journal, &mut file, writer, host),
                None => Err(CliFault::Read),
            },
        }
    }

    // Does what is asked for. What is written, how it ends, and what was written if it gives up, is that of the script, the
    // race, the audit, the service, the chart, the trace or the graph, the text of the help, or the line `fault command`.
    // The listener is told what is wrong, if something is. Of a line that is served the answer says it.
    //
    // The journal is the one that is gone on with, whatever path is asked for. If none is, it isn't read.
    fn carry_out<J: Source, R: Source, W: Sink, L: Listener>(
        &self,
        asked: Asked,
        journal: &mut J,
        reader: &mut R,
        writer: &mut W,
        listener: &mut L,
    ) -> Result<Ended, CliFault>
        ensures ran { IsRun asked (J.remaining journal.old) (J.mark journal.new)
            (reading (R.remaining reader.old) (R.remaining reader.new)
            (R.mark reader.old) (R.mark reader.new))
            (writing (W.contents writer.old) (W.contents writer.new)
            (W.mark writer.old) (W.mark writer.new)) result }
        ensures journal_unmarked { OnOk result (J.mark journal.new ≡ J.mark journal.old) }
    {
        let (rt, alloc, gate, seed) = (self.rt, self.alloc, self.gate, self.seed);
        match asked {
            Asked::Run(limits, print) => {
                run_script(alloc, reader, writer, limits, print, seed, listener)
            }
            Asked::Race(print) => {
                run_race(rt, alloc, reader, writer, gate, print, seed, listener)
            }
            Asked::Audit => run_audit(alloc, reader, AuditReading::Whole, writer, listener),
            Asked::Serve(limits, passes) => run_serve(alloc, reader, writer, limits, passes),
            Asked::Resume(_, passes) => {
                run_resumed(alloc, journal, reader, writer, passes, listener)
            }
            Asked::AuditLong => {
                run_audit(alloc, reader, AuditReading::ReadByRead, writer, listener)
            }
            Asked::Chart(chart) => {
                run_drawing(alloc, reader, writer, Drawing::Chart(chart), listener)
            }
            Asked::Trace(trace) => run_trace(alloc, reader, writer, trace, listener),
            Asked::Graph(graph) => {
                run_drawing(alloc, reader, writer, Drawing::Graph(graph), listener)
            }
            Asked::Help(text) => write_text(writer, text.as_bytes(), Ended::Good),
            Asked::Nothing(explanation) => {
                explain_words(alloc, explanation.as_bytes(), listener);
                write_text(writer, b"fault command\n", Ended::Fault)
            }
        }
    }
}
