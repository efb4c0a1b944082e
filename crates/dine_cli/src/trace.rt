//! A journal traced, from its bytes to the events.

ghost use Rattle.std.specs.Prelude.{◌≡◌, ◌≢◌, ◌⊎◌, IfOk, IfSome, OnErr, OnOk, length};
ghost use Rattle.std.specs.Io.KnownBytes.{Keeps};
ghost use Rattle.dine_journal.specs.JournalText.{IsTextOf};
ghost use Rattle.dine_journal.specs.Kept.{Journal};
ghost use Rattle.dine_chart.specs.Reading.{IsLegalText, IsTraced, IsTracedInPart};
ghost use Rattle.dine_streams.specs.declared.ended.Ended.TheVariants.{Good};
ghost use Rattle.dine_script.specs.Streams.{IsMarked, IsMarkedOrLong};
ghost use Rattle.dine_streams.specs.Inputs.{IsReadWhole};
ghost use Rattle.dine_streams.specs.Marks.{WritesOnly};
ghost use Rattle.dine_cli.specs.TraceOutput.{IsPartlyTraceWritten, IsTraceWritten};

use crate::input_remarks::explain_places;
use dine_bars::Window;
use dine_chart::{window_in, write_trace};
use dine_command_line::Trace;
use dine_lines::{Label, Listener};
use dine_replay::{check_text, explain_journal, write_answer};
use dine_script::{CliFault, Ended, write_text};
use dine_streams::read_whole;
use dine_words::{Sink, Source};
use std::alloc::Global;

/// Traces a journal: reads all of its text, makes its calls again, and then once more, while it writes the events. It
/// keeps no more of the journal than its text.
///
/// It ends with `Good` after a trace. A text that is no legal journal is answered as [`dine_replay::run_audit`] does, and a
/// journal of which no line is asked for with a line that says so, and `Fault`. The listener is told what is wrong.
///
/// It gives up with `Read` where a read fails or the input is too long, and has written nothing then; with `Memory` where
/// memory runs out, and with `Write` where a write fails, and may have written a part of the output.
pub(crate) fn run_trace<R: Source, W: Sink, L: Listener>(
    alloc: Global,
    reader: &mut R,
    writer: &mut W,
    trace: Trace,
    listener: &mut L,
) -> Result<Ended, CliFault>
    ensures ok { IfOk result (λ ended. IfSome (R.remaining reader.old) (λ text.
        IsTraceWritten trace text (W.contents writer.old) (W.contents writer.new) ended)) }
    ensures read { result ≡ Err CliFault.Read →
        Keeps (W.contents writer.old) (W.contents writer.new) }
    ensures memory { result ≡ Err CliFault.Memory →
        Keeps (W.contents writer.old) (W.contents writer.new)
        ⊎ IfSome (R.remaining reader.old) (λ text.
        IsPartlyTraceWritten trace text (W.contents writer.old) (W.contents writer.new)) }
    ensures write { result ≡ Err CliFault.Write → IfSome (R.remaining reader.old) (λ text.
        IsPartlyTraceWritten trace text (W.contents writer.old) (W.contents writer.new)) }
    ensures marks { IsMarked result (IsMarkedOrLong (R.mark reader.new) (R.remaining reader.old))
        (R.mark reader.old) (R.mark reader.new) (W.mark writer.old) (W.mark writer.new) }
    ensures whole { result ≢ Err CliFault.Read → IsReadWhole (R.remaining reader.old)
        (R.remaining reader.new) (R.mark reader.old) (R.mark reader.new) }
{
    let text = read_whole(alloc, reader)?;
    match check_text(alloc, &text) {
        Ok(checked) => trace_legal(alloc, &text, checked.entries, trace, writer, listener),
        Err(fault) => {
            explain_journal(alloc, &text, fault, listener);
            write_answer(alloc, Err(fault), writer)
        }
    }
}

// Writes what becomes of the text of a legal journal of so many entries.
fn trace_legal<W: Sink, L: Listener>(
    alloc: Global,
    text: &[u8],
    entries: u64,
    trace: Trace,
    writer: &mut W,
    listener: &mut L,
) -> Result<Ended, CliFault>
    requires counted { (journal : Journal) × IsTextOf text.now journal
        × (entries ≡ length journal.entries) }
    ensures ok { IfOk result (λ ended.
        IsTraceWritten trace text.now (W.contents writer.old) (W.contents writer.new) ended) }
    ensures part { OnErr result
        (IsPartlyTraceWritten trace text.now (W.contents writer.old) (W.contents writer.new)) }
    ensures writes_only { WritesOnly result (W.mark writer.old) (W.mark writer.new) }
{
    let Trace { from, to, labels } = trace;
    let window = window_in(Window { from, to }, entries);
    if window.to <= window.from {
        explain_places(alloc, 0, listener);
        write_text(writer, b"fault places 0\n", Ended::Fault)
    } else {
        write_window(alloc, text, window, &labels, writer)
    }
}

// Writes the trace of the lines in a window, with these names, and ends well.
fn write_window<W: Sink>(
    alloc: Global,
    text: &[u8],
    window: Window,
    labels: &[Label],
    writer: &mut W,
) -> Result<Ended, CliFault>
    requires legal { IsLegalText text.now }
    ensures ok { OnOk result (IsTraced text.now labels.now window
        (W.contents writer.old) (W.contents writer.new)) }
    ensures ended { IfOk result (λ ended. ended ≡ Good) }
    ensures part { OnErr result (IsTracedInPart text.now labels.now window
        (W.contents writer.old) (W.contents writer.new)) }
    ensures writes_only { WritesOnly result (W.mark writer.old) (W.mark writer.new) }
{
    write_trace(alloc, text, window, labels, writer)?;
    Ok(Ended::Good)
}
