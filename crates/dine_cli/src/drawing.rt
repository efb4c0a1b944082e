//! A journal drawn, from its bytes to the picture or the graph.

ghost use Rattle.std.specs.Prelude.{◌≢◌, IfOk};
ghost use Rattle.dine_cli.specs.DrawingOutput.{IsDrawingText, IsDrawingWritten, IsPartlyDrawingWritten};
ghost use Rattle.dine_streams.specs.Inputs.{IsReadWhole};
ghost use Rattle.dine_streams.specs.Reported.{IsReported};
ghost use Rattle.dine_script.specs.Streams.{IsMarked, IsMarkedOrLong};

use crate::chart::draw;
use dine_chart::push_graph;
use dine_command_line::{Chart, Graph};
use dine_lines::Listener;
use dine_replay::{audit_text, check_text, explain_journal, push_answer};
use dine_script::{CliFault, Ended};
use dine_streams::{read_whole, write_whole};
use dine_words::{Sink, Source};
use std::alloc::Global;

/// What is drawn of a journal.
#[derive(Debug, Drop)]
pub(crate) enum Drawing {
    /// When each task was hungry and ate.
    Chart(Chart),
    /// Who is in conflict with whom at a line.
    Graph(Graph),
}

/// Draws a journal: reads all of its text, makes its calls again, and writes the picture or the graph that is asked for.
///
/// It ends with `Good` after a drawing. A text that is no legal journal is answered as [`dine_replay::run_audit`] does, and
/// a journal of which more is asked for than a picture can show with a line that says how much, and `Fault`. It gives up
/// with `Read` where a read fails or the input is too long, and with `Memory` where memory runs out, and has written
/// nothing then; with `Write` where a write fails, and has written a part of the output. The listener is told what is
/// wrong.
pub(crate) fn run_drawing<R: Source, W: Sink, L: Listener>(
    alloc: Global,
    reader: &mut R,
    writer: &mut W,
    drawing: Drawing,
    listener: &mut L,
) -> Result<Ended, CliFault>
    ensures reported { IsReported result
        (R.remaining reader.old) (W.contents writer.old) (W.contents writer.new)
        (IsDrawingWritten drawing) (IsPartlyDrawingWritten drawing) }
    ensures marks { IsMarked result (IsMarkedOrLong (R.mark reader.new) (R.remaining reader.old))
        (R.mark reader.old) (R.mark reader.new) (W.mark writer.old) (W.mark writer.new) }
    ensures whole { result ≢ Err CliFault.Read → IsReadWhole (R.remaining reader.old)
        (R.remaining reader.new) (R.mark reader.old) (R.mark reader.new) }
{
    let text = read_whole(alloc, reader)?;
    let mut output = Vec::new(alloc);
    let ended = push_drawing(alloc, &text, drawing, &mut output, listener)?;
    write_whole(writer, &output)?;
    Ok(ended)
}

// Appends what becomes of a text.
fn push_drawing<L: Listener>(
    alloc: Global,
    text: &[u8],
    drawing: Drawing,
    out: &mut Vec<u8>,
    listener: &mut L,
) -> Result<Ended, CliFault>
    ensures ok { IfOk result (λ ended.
        IsDrawingText drawing text.now out.old.items out.new.items ended) }
    ensures no_read { result ≢ Err CliFault.Read }
    ensures no_write { result ≢ Err CliFault.Write }
{
    match drawing {
        Drawing::Chart(chart) => match audit_text(alloc, text) {
            Ok(journal) => {
                let ended = draw(alloc, &journal, chart, out, listener)?;
                Ok(ended)
            }
            Err(fault) => {
                explain_journal(alloc, text, fault, listener);
                push_answer(out, Err(fault))
            }
        },
        Drawing::Graph(graph) => match check_text(alloc, text) {
            Ok(_) => {
                push_graph(alloc, text, graph.line, &graph.labels, out)?;
                Ok(Ended::Good)
            }
            Err(fault) => {
                explain_journal(alloc, text, fault, listener);
                push_answer(out, Err(fault))
            }
        },
    }
}
