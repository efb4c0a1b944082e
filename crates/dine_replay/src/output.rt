//! A journal audited, from its bytes to the lines of output, read by read.

ghost use Rattle.std.specs.Prelude.{◌≡◌, ◌≢◌, ◌++◌, codes, decimal, true, Err, IfOk, OnOk};
ghost use Rattle.std.specs.Io.KnownBytes.{Appends, Keeps};
ghost use Rattle.dine_replay.specs.AuditOutput.{IsAudited, IsPartlyAudited, audit_end, audit_output};
ghost use Rattle.dine_replay.specs.Marks.{HasFailedIn, IsReadFar};
ghost use Rattle.dine_replay.specs.Replaying.{IsMarkedOrEndless};
ghost use Rattle.dine_streams.specs.Inputs.{IsMarkedOrLong, IsReadWhole, IsReadPast, most_bytes_of_an_input};
ghost use Rattle.dine_streams.specs.Reported.{IsReported};
ghost use Rattle.dine_streams.specs.Marks.{IsMarked};
ghost use Rattle.dine_streams.specs.Written.{AppendsPartOf};
ghost use Rattle.dine_words.specs.Texts.{reply_text};
ghost use Rattle.dine_replay.specs.Audit.{TellsOfText};

use crate::audit_answer::{AuditFault, Checked};
use crate::journal_fault::explain_left;
use crate::read_by_read::{check_bounded, check_long};
use dine_lines::Listener;
use dine_streams::{CliFault, Ended, MAX_INPUT, read_out, write_whole};
use dine_words::{Reply, Sink, Source, push_number_line, push_numbered};
use std::alloc::{AllocError, Global};

/// How far an audit reads its journal, of which neither keeps more than one read and the front of a line.
#[derive(Clone, Copy, Debug, PartialEq, Eq)]
pub enum AuditReading {
    /// To its end, whichever line is wrong, so that a read which fails there is told. The text may be as long as
    /// [`MAX_INPUT`](crate::MAX_INPUT).
    Whole,
    /// Up to the first line that is wrong, however long the text is.
    ReadByRead,
}

/// Audits a journal: makes its calls again, and writes whether each reply is the table's. It takes the same memory however
/// long the journal is.
///
/// It writes `legal` and the number of entries, and then `overtakes` and the most meals that a task began in one hunger
/// of a task that it was in conflict with, and ends with `Good`; or `wrong`, the number of the line, `want` and the
/// table's reply, and ends with `Wrong`; or `fault header`, or `fault line` and its number, and ends with `Fault`. Lines
/// are counted from 0, the header's. It gives up with `Read` where a read fails or the input is too long, and with
/// `Memory` where memory runs out, and has written nothing then; with `Write` where a write fails, and has written a part
/// of the output. The listener is told what is wrong with a journal that is not legal.
///
/// A read that fails is told before want of memory: where that comes, the rest is read first, up to more than
/// [`MAX_INPUT`](crate::MAX_INPUT) bytes.
pub fn run_audit<R: Source, W: Sink, L: Listener>(
    alloc: Global,
    reader: &mut R,
    reading: AuditReading,
    writer: &mut W,
    listener: &mut L,
) -> Result<Ended, CliFault>
    ensures reported { IsReported result
        (R.remaining reader.old) (W.contents writer.old) (W.contents writer.new)
        IsAudited IsPartlyAudited }
    ensures whole { reading ≡ AuditReading.Whole → result ≢ Err CliFault.Read →
        IsReadWhole (R.remaining reader.old) (R.remaining reader.new)
        (R.mark reader.old) (R.mark reader.new) }
    ensures far { result ≡ Err CliFault.Memory → IsReadFar reading (R.remaining reader.old)
        (R.remaining reader.new) (R.mark reader.old) (R.mark reader.new) }
    ensures marks { IsMarked result
        (HasFailedIn reading (R.mark reader.new) (R.remaining reader.old))
        (R.mark reader.old) (R.mark reader.new) (W.mark writer.old) (W.mark writer.new) }
{
    match reading {
        AuditReading::Whole => run_whole_audit(alloc, reader, writer, listener),
        AuditReading::ReadByRead => run_long_audit(alloc, reader, writer, listener),
    }
}

// Audits a journal that is read to its end.
fn run_whole_audit<R: Source, W: Sink, L: Listener>(
    alloc: Global,
    reader: &mut R,
    writer: &mut W,
    listener: &mut L,
) -> Result<Ended, CliFault>
    ensures reported { IsReported result
        (R.remaining reader.old) (W.contents writer.old) (W.contents writer.new)
        IsAudited IsPartlyAudited }
    ensures whole { result ≢ Err CliFault.Read → IsReadWhole (R.remaining reader.old)
        (R.remaining reader.new) (R.mark reader.old) (R.mark reader.new) }
    ensures marks { IsMarked result (IsMarkedOrLong (R.mark reader.new) (R.remaining reader.old))
        (R.mark reader.old) (R.mark reader.new) (W.mark writer.old) (W.mark writer.new) }
{
    let mut left = Vec::new(alloc);
    let answer = check_bounded(alloc, reader, &mut left);
    explain_answer(alloc, &left, answer, listener);
    write_answer(alloc, answer, writer)
}

// Audits a journal that is read up to the first line that is wrong. Where memory runs out, the rest is read first: a read
// that fails there is told before.
fn run_long_audit<R: Source, W: Sink, L: Listener>(
    alloc: Global,
    reader: &mut R,
    writer: &mut W,
    listener: &mut L,
) -> Result<Ended, CliFault>
    ensures reported { IsReported result
        (R.remaining reader.old) (W.contents writer.old) (W.contents writer.new)
        IsAudited IsPartlyAudited }
    ensures far { result ≡ Err CliFault.Memory → IsReadPast most_bytes_of_an_input
        (R.remaining reader.old) (R.remaining reader.new)
        (R.mark reader.old) (R.mark reader.new) }
    ensures marks { IsMarked result
        (IsMarkedOrEndless (R.mark reader.new) (R.remaining reader.old))
        (R.mark reader.old) (R.mark reader.new) (W.mark writer.old) (W.mark writer.new) }
{
    let mut left = Vec::new(alloc);
    let answer = check_long(alloc, reader, &mut left);
    explain_answer(alloc, &left, answer, listener);
    match write_answer(alloc, answer, writer) {
        Ok(ended) => Ok(ended),
        Err(CliFault::Memory) => Err(fault_behind(reader)),
        Err(CliFault::Read) => Err(CliFault::Read),
        Err(CliFault::Write) => Err(CliFault::Write),
    }
}

// The fault of an audit for which memory was wanting. What is left of its journal is read first, up to more than an input
// may have.
#[cold]
fn fault_behind<R: Source>(reader: &mut R) -> CliFault
    ensures read { result ≡ CliFault.Read → R.mark reader.new ≡ true }
    ensures memory { result ≡ CliFault.Memory → IsReadPast most_bytes_of_an_input
        (R.remaining reader.old) (R.remaining reader.new)
        (R.mark reader.old) (R.mark reader.new) }
    ensures no_write { result ≢ CliFault.Write }
{
    match read_out(reader, MAX_INPUT) {
        Ok(_) => CliFault::Memory,
        Err(_) => CliFault::Read,
    }
}

// Tells the listener what is wrong with a journal that is answered so. `left` is its text from the line at fault on.
fn explain_answer<L: Listener>(
    alloc: Global,
    left: &[u8],
    answer: Result<Checked, AuditFault>,
    listener: &mut L,
) {
    if let Err(fault) = answer {
        explain_left(alloc, left, fault, listener);
    }
}

/// Writes the lines of an answer, and tells how an audit with this answer ends.
pub fn write_answer<W: Sink>(
    alloc: Global,
    answer: Result<Checked, AuditFault>,
    writer: &mut W,
) -> Result<Ended, CliFault>
    ensures tells { OnOk result (TellsOfText answer) }
    ensures failed { answer ≡ Err AuditFault.Read → result ≡ Err CliFault.Read }
    ensures written { OnOk result (Appends (W.contents writer.old) (W.contents writer.new)
        (audit_output answer)) }
    ensures ended { IfOk result (λ ended. ended ≡ audit_end answer) }
    ensures read { result ≡ Err CliFault.Read → (answer ≡ Err AuditFault.Read)
        × Keeps (W.contents writer.old) (W.contents writer.new) }
    ensures memory { result ≡ Err CliFault.Memory →
        Keeps (W.contents writer.old) (W.contents writer.new) }
    ensures write { result ≡ Err CliFault.Write → TellsOfText answer
        × AppendsPartOf (W.contents writer.old) (W.contents writer.new) (audit_output answer) }
    ensures write_mark { result ≡ Err CliFault.Write → W.mark writer.new ≡ true }
    ensures write_unmarked { OnOk result (W.mark writer.new ≡ W.mark writer.old) }
{
    let mut lines = Vec::new(alloc);
    let ended = push_answer(&mut lines, answer)?;
    write_whole(writer, &lines)?;
    Ok(ended)
}

/// Appends the lines of an answer, and tells how an audit with this answer ends.
pub fn push_answer(
    lines: &mut Vec<u8>,
    answer: Result<Checked, AuditFault>,
) -> Result<Ended, CliFault>
    ensures tells { OnOk result (TellsOfText answer) }
    ensures failed { answer ≡ Err AuditFault.Read → result ≡ Err CliFault.Read }
    ensures lines { OnOk result (lines.new.items ≡ lines.old.items ++ audit_output answer) }
    ensures ended { IfOk result (λ ended. ended ≡ audit_end answer) }
    ensures read { result ≡ Err CliFault.Read → answer ≡ Err AuditFault.Read }
    ensures no_write { result ≢ Err CliFault.Write }
{
    match answer {
        Ok(checked) => {
            push_number_line(lines, b"legal ", checked.entries)?;
            push_number_line(lines, b"overtakes ", checked.most_overtakes)?;
            Ok(Ended::Good)
        }
        Err(AuditFault::Wrong(number, wanted)) => {
            push_wrong(lines, number, wanted)?;
            Ok(Ended::Wrong)
        }
        Err(AuditFault::Header) => {
            lines.extend_from_slice(b"fault header\n")?;
            Ok(Ended::Fault)
        }
        Err(AuditFault::Line(number)) => {
            push_number_line(lines, b"fault line ", number)?;
            Ok(Ended::Fault)
        }
        Err(AuditFault::Read) => Err(CliFault::Read),
        Err(AuditFault::Memory) => Err(CliFault::Memory),
    }
}

// The line of an entry with another reply than the table's.
fn push_wrong(line: &mut Vec<u8>, number: u64, wanted: Reply) -> Result<(), AllocError>
    ensures { OnOk result (line.new.items ≡ line.old.items
        ++ (codes "wrong " ++ decimal number
        ++ codes " want " ++ reply_text wanted ++ codes "\n")) }
{
    push_numbered(line, b"wrong ", number)?;
    line.extend_from_slice(b" want ")?;
    wanted.write_to(line)?;
    line.extend_from_slice(b"\n")
}
