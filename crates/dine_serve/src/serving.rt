//! The loop: it listens, answers each whole line that it heard, and listens again.

ghost use Rattle.std.specs.Prelude.{◌≡◌, ◌∷◌, ◌++◌, ◌||◌, [], true, OnErr, OnOk};
ghost use Rattle.std.specs.Io.KnownBytes.{Appends, Keeps};
ghost use Rattle.dine_streams.specs.Ending.{end_of};
ghost use Rattle.dine_streams.specs.Lines.{begun_line, seen_lines};
ghost use Rattle.dine_streams.specs.Written.{AppendsLinesOf, AppendsPartOf};
ghost use Rattle.dine_words.specs.Texts.{header_text, text_of_lines};
ghost use Rattle.dine_words.specs.Versions.{written_version};
ghost use Rattle.dine_serve.specs.Serving.{has_fault_of, is_torn, opening, said_from, said_of_begun, standing_from};
ghost use Rattle.dine_serve.specs.Streams.{Says, Serves};

use crate::broker::Broker;
use dine_streams::{CliFault, Ended, LineBuffer, end_of, write_if_enough, write_whole};
use dine_words::{Failed, Limits, Sink, Source};
use std::alloc::Global;

/// Serves: writes the header of a journal, and answers each line as it comes, until no more comes. It ends with `Fault`
/// where a line has a fault, else with `Good`.
///
/// A line is the front of a journal's line, a pass and a call, and it is answered by the journal's line: so what is
/// written is the journal of what was asked. A begin that has to wait is asked for by `await` in its place: it is made as
/// soon as it has to wait no longer, and `cancel` takes it back. Beside the journal a question is answered by a line that
/// begins with `? `, and what is no request by one that begins with `! `. Whenever it listens, all answers that are owed
/// to the whole lines heard so far are written.
///
/// Where `passes` are given, those below this number may ask, and each request has a number behind its pass. The numbers
/// of a pass rise. The number of its last request is answered as that was, behind `= `, and nothing is done. There are at
/// most [`MAX_NUMBERED_PASSES`](crate::MAX_NUMBERED_PASSES): a greater number is taken for it.
///
/// It gives up with `Read` where a read fails; with `Write` where a write fails, and has written a part of the output;
/// and with `Memory` where memory runs out, and has written some whole lines of the output, from the first on. However
/// much comes, it takes no more memory than for as many begins that wait as tasks may be present.
pub fn run_serve<R: Source, W: Sink>(
    alloc: Global,
    reader: &mut R,
    writer: &mut W,
    limits: Limits,
    passes: Option<u32>,
) -> Result<Ended, CliFault>
    ensures { Serves result
        (λ ended input. ended ≡ end_of (has_fault_of (opening limits passes) input))
        (opening limits passes) (header_text written_version limits ∷ [])
        (R.remaining reader.old) (R.remaining reader.new)
        (W.contents writer.old) (W.contents writer.new)
        (R.mark reader.old) (R.mark reader.new) (W.mark writer.old) (W.mark writer.new) }
{
    let mut broker = Broker::new(alloc, limits, passes)?;
    serve_on(alloc, &mut broker, reader, writer, limits)?;
    Ok(end_of(broker.has_fault()))
}

// Writes the header of a journal with these limits, and answers each line that comes.
fn serve_on<R: Source, W: Sink>(
    alloc: Global,
    broker: &mut Broker,
    reader: &mut R,
    writer: &mut W,
    limits: Limits,
) -> Result<(), CliFault>
    ensures { Serves result
        (λ done input. broker.new.has_fault ≡ has_fault_of broker.old input)
        broker.old (header_text written_version limits ∷ [])
        (R.remaining reader.old) (R.remaining reader.new)
        (W.contents writer.old) (W.contents writer.new)
        (R.mark reader.old) (R.mark reader.new) (W.mark writer.old) (W.mark writer.new) }
{
    write_header(alloc, writer, limits)?;
    answer_all(alloc, broker, reader, writer)
}

// Writes the line of a journal's header.
fn write_header<W: Sink>(alloc: Global, writer: &mut W, limits: Limits) -> Result<(), CliFault>
    ensures { Says result (text_of_lines (header_text written_version limits ∷ []))
        (Keeps (W.contents writer.old) (W.contents writer.new))
        (W.contents writer.old) (W.contents writer.new)
        (W.mark writer.old) (W.mark writer.new) }
{
    let mut header = Vec::new(alloc);
    limits.write_header_line_to(&mut header)?;
    write_whole(writer, &header)?;
    Ok(())
}

/// Answers each line that comes, from where the broker stands, until no more comes.
///
/// It gives up as [`run_serve`] does.
pub fn answer_all<R: Source, W: Sink>(
    alloc: Global,
    broker: &mut Broker,
    reader: &mut R,
    writer: &mut W,
) -> Result<(), CliFault>
    ensures { Serves result
        (λ done input. broker.new.has_fault ≡ has_fault_of broker.old input)
        broker.old []
        (R.remaining reader.old) (R.remaining reader.new)
        (W.contents writer.old) (W.contents writer.new)
        (R.mark reader.old) (R.mark reader.new) (W.mark writer.old) (W.mark writer.new) }
{
    let mut buffer = LineBuffer::new(alloc)?;
    let mut pending = Vec::new(alloc);
    'reads: for _ in 0..u64::MAX {
        let has_come = match buffer.hear(reader) {
            Ok(has_come) => has_come,
            Err(_) => return Err(CliFault::Read),
        };
        if !has_come {
            return answer_begun(&buffer, broker, &mut pending, writer);
        }
        answer_lines(broker, buffer.lines(), &mut pending, writer)?;
    }
    Err(CliFault::Memory)
}

// Answers the lines of a text, of which each has its line feed, and writes the answers.
fn answer_lines<W: Sink>(
    broker: &mut Broker,
    text: &[u8],
    pending: &mut Vec<u8>,
    writer: &mut W,
) -> Result<(), CliFault>
    requires pending { pending.old.items ≡ [] }
    requires whole { begun_line [] text.now ≡ [] }
    ensures after { OnOk result (broker.new ≡ standing_from broker.old (seen_lines [] text.now)) }
    ensures none_pending { OnOk result (pending.new.items ≡ []) }
    ensures says { Says result (text_of_lines (said_from broker.old (seen_lines [] text.now)))
        (AppendsLinesOf (W.contents writer.old) (W.contents writer.new)
        (said_from broker.old (seen_lines [] text.now)))
        (W.contents writer.old) (W.contents writer.new)
        (W.mark writer.old) (W.mark writer.new) }
{
    let mut rest = text;
    while !rest.is_empty() {
        if broker.is_worn_out() {
            return Err(CliFault::Memory);
        }
        rest = broker.take_front(rest, pending)?;
        write_if_enough(writer, pending)?;
    }
    flush(writer, pending)?;
    Ok(())
}

// Writes the lines that are pending, so that none is.
fn flush<W: Sink>(writer: &mut W, pending: &mut Vec<u8>) -> Result<(), Failed>
    ensures written { OnOk result
        (Appends (W.contents writer.old) (W.contents writer.new) pending.old.items) }
    ensures cleared { OnOk result (pending.new.items ≡ []) }
    ensures part { OnErr result
        (AppendsPartOf (W.contents writer.old) (W.contents writer.new) pending.old.items) }
    ensures unmarked { OnOk result (W.mark writer.new ≡ W.mark writer.old) }
    ensures mark { OnErr result (W.mark writer.new ≡ true) }
{
    write_whole(writer, pending)?;
    pending.clear();
    Ok(())
}

// Answers the line that has begun and has no line feed, if there is one.
fn answer_begun<W: Sink>(
    buffer: &LineBuffer,
    broker: &mut Broker,
    last: &mut Vec<u8>,
    writer: &mut W,
) -> Result<(), CliFault>
    requires { last.old.items ≡ [] }
    ensures fault { OnOk result
        (broker.new.has_fault ≡ (broker.old.has_fault || is_torn buffer.now.begun)) }
    ensures says { Says result (text_of_lines (said_of_begun broker.old buffer.now.begun))
        (Keeps (W.contents writer.old) (W.contents writer.new))
        (W.contents writer.old) (W.contents writer.new)
        (W.mark writer.old) (W.mark writer.new) }
{
    if !buffer.has_begun() {
        return Ok(());
    }
    if broker.is_worn_out() {
        return Err(CliFault::Memory);
    }
    broker.take_torn(last)?;
    write_whole(writer, last)?;
    Ok(())
}
