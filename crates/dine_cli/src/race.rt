//! A race from its scenario's bytes to its output.

ghost use Rattle.std.specs.Prelude.{◌≡◌, ◌≢◌, ◌++◌, ◌∷◌, [], IfOk, IfSome, OnOk, length};
ghost use Rattle.std.specs.Io.KnownBytes.{Appends, Keeps};
ghost use Rattle.dine_journal.specs.JournalText.{journal_text};
ghost use Rattle.dine_scenario.specs.FaultText.{scenario_fault_text};
ghost use Rattle.dine_script.specs.Script.{journal_lines};
ghost use Rattle.dine_cli.specs.RaceOutput.{IsRaced, IsRacedInLines, IsRacedInPart, raced_lines, raced_output, verdict_end};
ghost use Rattle.dine_script.specs.Streams.{IsMarked, IsMarkedOrLong};
ghost use Rattle.dine_streams.specs.Inputs.{IsReadWhole};
ghost use Rattle.dine_streams.specs.Marks.{WritesOnly};
ghost use Rattle.dine_streams.specs.Written.{AppendsLinesOf, AppendsPartOf};

use crate::input_remarks::explain_scenario;
use dine_front::Verdict;
use dine_journal::Journal;
use dine_lines::{Listener, Print, Seed};
use dine_race::{Gate, Raced, race};
use dine_scenario::{Scenario, ScenarioFault, read_scenario};
use dine_script::{CliFault, Ended};
use dine_streams::{read_whole, write_whole};
use dine_words::{Sink, Source};
use std::alloc::Global;
use std::sync::Wait;
use std::thread::Threads;

/// Runs a race: reads a scenario, carries out its setup, lets each worker do its steps in a thread of its own, and writes
/// the report or the race's journal alone. The gate is told of each step of a worker.
///
/// It ends with `Good` where the verdict is that all is settled, with `Wrong` under another verdict, and with `Fault`
/// where the text fails a check, the first of which is written then. It gives up with `Read` where a read fails or the
/// input is too long, and has written nothing then; with `Write` where a write fails, and has written a part of the
/// output; with `Memory` where memory runs out or no thread can be started, and has written some whole lines of the
/// output, from the first on: none where a worker met it.
///
/// A race in which a task that others wait for stays hungry or eating may wait for ever. The names are found by hashes
/// of this seed: under a seed that a stranger knows, names that are chosen for it can make it slow. The listener is
/// told what is wrong with a text that is no scenario.
pub fn run_race<T: Threads + Wait + Sync, R: Source, W: Sink, G: Gate + Sync, L: Listener>(
    rt: &T,
    alloc: Global,
    reader: &mut R,
    writer: &mut W,
    gate: &G,
    print: Print,
    seed: Seed,
    listener: &mut L,
) -> Result<Ended, CliFault>
    ensures raced { IfOk result (λ ended. IfSome (R.remaining reader.old) (λ input.
        IsRaced print input (W.contents writer.old) (W.contents writer.new) ended)) }
    ensures memory { result ≡ Err CliFault.Memory → IfSome (R.remaining reader.old) (λ input.
        IsRacedInLines print input (W.contents writer.old) (W.contents writer.new)) }
    ensures write { result ≡ Err CliFault.Write → IfSome (R.remaining reader.old) (λ input.
        IsRacedInPart print input (W.contents writer.old) (W.contents writer.new)) }
    ensures read { result ≡ Err CliFault.Read →
        Keeps (W.contents writer.old) (W.contents writer.new) }
    ensures marks { IsMarked result (IsMarkedOrLong (R.mark reader.new) (R.remaining reader.old))
        (R.mark reader.old) (R.mark reader.new) (W.mark writer.old) (W.mark writer.new) }
    ensures whole { result ≢ Err CliFault.Read → IsReadWhole (R.remaining reader.old)
        (R.remaining reader.new) (R.mark reader.old) (R.mark reader.new) }
{
    let input = read_whole(alloc, reader)?;
    race_text(rt, alloc, &input, seed, gate, print, writer, listener)
}

// Runs the race of a text, and writes what comes of it.
fn race_text<T: Threads + Wait + Sync, W: Sink, G: Gate + Sync, L: Listener>(
    rt: &T,
    alloc: Global,
    text: &[u8],
    seed: Seed,
    gate: &G,
    print: Print,
    writer: &mut W,
    listener: &mut L,
) -> Result<Ended, CliFault>
    ensures raced { IfOk result (λ ended.
        IsRaced print text.now (W.contents writer.old) (W.contents writer.new) ended) }
    ensures memory { result ≡ Err CliFault.Memory →
        IsRacedInLines print text.now (W.contents writer.old) (W.contents writer.new) }
    ensures write { result ≡ Err CliFault.Write →
        IsRacedInPart print text.now (W.contents writer.old) (W.contents writer.new) }
    ensures writes_only { WritesOnly result (W.mark writer.old) (W.mark writer.new) }
{
    match read_scenario(alloc, text, seed) {
        Ok(scenario) => {
            let raced = race(rt, alloc, &scenario, gate, seed)?;
            write_raced(alloc, &scenario, &raced, print, writer)
        }
        Err(fault) => match fault {
            ScenarioFault::Memory => Err(CliFault::Memory),
            _ => {
                explain_scenario(alloc, text, fault, listener);
                write_refused(alloc, fault, writer)
            }
        },
    }
}

// Writes the check that a scenario fails.
fn write_refused<W: Sink>(
    alloc: Global,
    fault: ScenarioFault,
    writer: &mut W,
) -> Result<Ended, CliFault>
    ensures ok { OnOk result (Appends (W.contents writer.old) (W.contents writer.new)
        (scenario_fault_text fault ++ 10 ∷ [])) }
    ensures ended { IfOk result (λ ended. ended ≡ Ended.Fault) }
    ensures memory { result ≡ Err CliFault.Memory →
        Keeps (W.contents writer.old) (W.contents writer.new) }
    ensures write { result ≡ Err CliFault.Write →
        AppendsPartOf (W.contents writer.old) (W.contents writer.new)
        (scenario_fault_text fault ++ 10 ∷ []) }
    ensures writes_only { WritesOnly result (W.mark writer.old) (W.mark writer.new) }
{
    let mut line = Vec::new(alloc);
    fault.write_to(&mut line)?;
    line.extend_from_slice(b"\n")?;
    write_whole(writer, &line)?;
    Ok(Ended::Fault)
}

// Writes what came of a race of a scenario.
fn write_raced<W: Sink>(
    alloc: Global,
    scenario: &Scenario,
    raced: &Raced,
    print: Print,
    writer: &mut W,
) -> Result<Ended, CliFault>
    ensures ok { OnOk result (Appends (W.contents writer.old) (W.contents writer.new)
        (raced_output print (length scenario.now.workers.items) raced.now)) }
    ensures ended { IfOk result (λ ended. ended ≡ verdict_end raced.now.verdict) }
    ensures memory { result ≡ Err CliFault.Memory →
        AppendsLinesOf (W.contents writer.old) (W.contents writer.new)
        (raced_lines print (length scenario.now.workers.items) raced.now) }
    ensures write { result ≡ Err CliFault.Write →
        AppendsPartOf (W.contents writer.old) (W.contents writer.new)
        (raced_output print (length scenario.now.workers.items) raced.now) }
    ensures writes_only { WritesOnly result (W.mark writer.old) (W.mark writer.new) }
{
    let ended = end_of(raced.verdict);
    match print {
        Print::Replies => write_report(alloc, scenario.workers.len() as u32, raced, ended, writer),
        Print::Journal => write_journal(alloc, ended, &raced.journal, writer),
    }
}

// Writes the journal of a race.
fn write_journal<W: Sink>(
    alloc: Global,
    ended: Ended,
    journal: &Journal,
    writer: &mut W,
) -> Result<Ended, CliFault>
    ensures ok { OnOk result (Appends (W.contents writer.old) (W.contents writer.new)
        (journal_text journal.now.limits journal.now.entries)) }
    ensures ended { IfOk result (λ answered. answered ≡ ended) }
    ensures memory { result ≡ Err CliFault.Memory →
        AppendsLinesOf (W.contents writer.old) (W.contents writer.new)
        (journal_lines journal.now.limits journal.now.entries) }
    ensures write { result ≡ Err CliFault.Write →
        AppendsPartOf (W.contents writer.old) (W.contents writer.new)
        (journal_text journal.now.limits journal.now.entries) }
    ensures writes_only { WritesOnly result (W.mark writer.old) (W.mark writer.new) }
{
    journal.write_text(alloc, writer)?;
    Ok(ended)
}

// Writes the report of a race with so many workers.
fn write_report<W: Sink>(
    alloc: Global,
    workers: u32,
    raced: &Raced,
    ended: Ended,
    writer: &mut W,
) -> Result<Ended, CliFault>
    ensures ok { OnOk result (Appends (W.contents writer.old) (W.contents writer.new)
        (raced_output Print.Replies workers raced.now)) }
    ensures ended { IfOk result (λ answered. answered ≡ ended) }
    ensures memory { result ≡ Err CliFault.Memory →
        Keeps (W.contents writer.old) (W.contents writer.new) }
    ensures write { result ≡ Err CliFault.Write →
        AppendsPartOf (W.contents writer.old) (W.contents writer.new)
        (raced_output Print.Replies workers raced.now) }
    ensures writes_only { WritesOnly result (W.mark writer.old) (W.mark writer.new) }
{
    let mut report = Vec::new(alloc);
    raced.report(alloc, workers, &mut report)?;
    write_whole(writer, &report)?;
    Ok(ended)
}

// How a race with this verdict ends.
fn end_of(verdict: Verdict) -> Ended
    ensures { result ≡ verdict_end verdict }
{
    match verdict {
        Verdict::Settled => Ended::Good,
        Verdict::Missing(_) | Verdict::Differs(..) => Ended::Wrong,
    }
}
