//! The program for scripts between its words and streams and its exit status.

ghost use Rattle.std.specs.Prelude.{◌≤◌};
ghost use Rattle.dine_command_line.specs.Program.{IsAnswered, IsProgramRun, reading, writing};
ghost use Rattle.hygienic_run.specs.Asked.{IsRequestDone, IsRun};

use dine_command_line::{Asked, CommandLine, Host, Input, Request, explain_words};
use dine_lines::{Listener, Seed, tell};
use dine_script::{CliFault, Ended, run_script, write_text};
use dine_streams::finish;
use dine_words::{Sink, Source};
use std::alloc::Global;

// What is said to whoever asks for something else.
const ELSEWHERE: &[u8] =
    b"error: this program runs scripts alone, and the whole one has the other commands";

/// The program for scripts: reads the words, of which the first is the program's name, does what they ask for, and answers
/// the exit status. It is the whole program's, if they ask for a script's run, for help, or for nothing that there is. If
/// they ask for anything else, it writes `fault command`, and the status is 2.
///
/// The input is the reader's, or that of the file that the words name, which the host opens. A file that can't be opened is
/// a read that failed, and then nothing of the reader is read. The host is told what the words ask for, what is wrong with
/// the input, and why the run gave up.
///
/// Names are found by hashes of the seed: under one that a stranger knows, names that are chosen for it can make the program
/// slow.
pub fn run_words<C: CommandLine, R: Source, W: Sink, H: Host>(
    alloc: Global,
    words: C,
    reader: &mut R,
    writer: &mut W,
    host: &mut H,
    seed: Seed,
) -> u8
    ensures status { result ≤ 3 }
    ensures ran { IsProgramRun (C.asks words) (IsRequestDone H.lacks H.holds)
        (reading (R.remaining reader.old) (R.remaining reader.new)
        (R.mark reader.old) (R.mark reader.new))
        (writing (W.contents writer.old) (W.contents writer.new)
        (W.mark writer.old) (W.mark writer.new)) result }
{
    let outcome = answer_words(alloc, words, reader, writer, host, seed);
    let status = finish(outcome, writer);
    if let Err(fault) = outcome {
        host.give_up(fault);
    }
    status
}

// Reads the words, and does what they ask for.
fn answer_words<C: CommandLine, R: Source, W: Sink, H: Host>(
    alloc: Global,
    words: C,
    reader: &mut R,
    writer: &mut W,
    host: &mut H,
    seed: Seed,
) -> Result<Ended, CliFault>
    ensures { IsAnswered (C.asks words) (IsRequestDone H.lacks H.holds)
        (reading (R.remaining reader.old) (R.remaining reader.new)
        (R.mark reader.old) (R.mark reader.new))
        (writing (W.contents writer.old) (W.contents writer.new)
        (W.mark writer.old) (W.mark writer.new)) result }
{
    let request = words.read(alloc)?;
    host.begin(&request);
    do_request(alloc, request, reader, writer, host, seed)
}

// Does what is asked for over the input that is named.
fn do_request<R: Source, W: Sink, H: Host>(
    alloc: Global,
    request: Request,
    reader: &mut R,
    writer: &mut W,
    host: &mut H,
    seed: Seed,
) -> Result<Ended, CliFault>
    ensures { IsRequestDone H.lacks H.holds request
        (reading (R.remaining reader.old) (R.remaining reader.new)
        (R.mark reader.old) (R.mark reader.new))
        (writing (W.contents writer.old) (W.contents writer.new)
        (W.mark writer.old) (W.mark writer.new)) result }
{
    let Request {
        asked,
        input,
        is_quiet: _,
    } = request;
    match input {
        Input::Standard => {
            if asked.has_input() {
                host.read_standard();
            }
            carry_out(alloc, asked, reader, writer, host, seed)
        }
        Input::File(path) => match host.open(path.as_str()) {
            Some(mut file) => carry_out(alloc, asked, &mut file, writer, host, seed),
            None => Err(CliFault::Read),
        },
    }
}

// Does what is asked for, as the whole program does it. What only that one can do is no command here.
fn carry_out<R: Source, W: Sink, L: Listener>(
    alloc: Global,
    asked: Asked,
    reader: &mut R,
    writer: &mut W,
    listener: &mut L,
    seed: Seed,
) -> Result<Ended, CliFault>
    ensures { IsRun asked
        (reading (R.remaining reader.old) (R.remaining reader.new)
        (R.mark reader.old) (R.mark reader.new))
        (writing (W.contents writer.old) (W.contents writer.new)
        (W.mark writer.old) (W.mark writer.new)) result }
{
    match asked {
        Asked::Run(limits, print) => {
            run_script(alloc, reader, writer, limits, print, seed, listener)
        }
        Asked::Help(text) => write_text(writer, text.as_bytes(), Ended::Good),
        Asked::Nothing(explanation) => {
            explain_words(alloc, explanation.as_bytes(), listener);
            write_text(writer, b"fault command\n", Ended::Fault)
        }
        _ => {
            let _ = tell(alloc, ELSEWHERE, listener);
            write_text(writer, b"fault command\n", Ended::Fault)
        }
    }
}
