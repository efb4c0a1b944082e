//! A journal replayed read by read: up to a line that is wrong, however long it is, or to its end, up to a bound.

ghost use Rattle.std.specs.Prelude.{◌≡◌, ◌≢◌, ◌⊎◌, ◌<◌, ◌-◌, ◌^◌, ◌++◌, ℕ, List, [], drop, length, Err, IfErr, IfOk, IfSome, IsErrOf, IsFalse, IsTrue, OnOk};
ghost use Rattle.std.specs.Io.KnownBytes.{IsAtEnd};
ghost use Rattle.dine_words.specs.Versions.{AllowsLimits};
ghost use Rattle.dine_words.specs.JournalText.{HasNoHeader};
ghost use Rattle.dine_streams.specs.Inputs.{IsMarkedOrLong, IsReadWhole};
ghost use Rattle.dine_replay.specs.Bounds.{IsMarkedOrPastFrom, StaysWithinBound};
ghost use Rattle.dine_replay.specs.Checking.{IsChecked};
ghost use Rattle.dine_journal.specs.JournalText.{header_line_of};
ghost use Rattle.dine_replay.specs.Marks.{HasRead, IsAnswered, IsReaderMarked};
ghost use Rattle.dine_replay.specs.Replaying.{HearsHeader, IsMarkedOrEndless, IsPastWhileReplaying, IsRefusal, IsRefusalFrom, IsReplay, IsReplayed, IsReplayedFrom, IsReplaying, IsReplayingSome};

use crate::audit_answer::{AuditFault, Checked};
use crate::bound::Bound;
use crate::replayed::{Replayed, keep_front};
use crate::visitor::Nobody;
use dine_streams::{InputFault, LineBuffer, MAX_INPUT, fault_without_memory};
use dine_words::{Header, MAX_LINE, Source};
use std::alloc::Global;

/// Replays a journal of any length, of either version: makes its calls again on an arbiter, and compares each reply. It
/// takes the same memory however long the journal is, and ends at the first line that is wrong.
///
/// A last line without its line feed is dropped, which [`Replayed::is_torn`] tells: whoever wrote it was cut off. One of
/// more than [`MAX_LINE`] bytes is a fault: no entry begins so. The fault is else that of an audit. It is `Read` also where
/// there are more entries than 64 bits can count.
///
/// Of what was dropped, or of the text from a line that was refused, the front is put into `left`, so that people can be
/// told.
pub fn replay<R: Source>(
    alloc: Global,
    reader: &mut R,
    left: &mut Vec<u8>,
) -> Result<Replayed, AuditFault>
    ensures few { IfOk result (λ replayed. replayed.entries < 2 ^ 64 - 1) }
    ensures answered { IsAnswered IsReplay IsMarkedOrEndless result
        (R.remaining reader.old) (R.mark reader.old) (R.mark reader.new) }
    ensures heard { result ≢ Err AuditFault.Read →
        HasRead (R.remaining reader.old) (R.remaining reader.new) }
{
    let mut buffer = LineBuffer::new(alloc)?;
    replay_within(alloc, reader, &mut buffer, &mut Bound::endless(), left)
}

// As `replay`, of a journal of no more bytes than may come. The fault is `Read` also where there are more.
fn replay_within<R: Source>(
    alloc: Global,
    reader: &mut R,
    buffer: &mut LineBuffer,
    bound: &mut Bound,
    left: &mut Vec<u8>,
) -> Result<Replayed, AuditFault>
    requires { buffer.old.begun ≡ [] }
    ensures few { IfOk result (λ replayed. replayed.entries < 2 ^ 64 - 1) }
    ensures answer { IfSome (R.remaining reader.old) (λ text. IsReplay text result) }
    ensures end { OnOk result (IsAtEnd (R.remaining reader.new)) }
    ensures within { result ≢ Err AuditFault.Read → StaysWithinBound
        (R.remaining reader.old) (R.remaining reader.new) bound.old bound.new }
    ensures mark { IsReaderMarked result (IsMarkedOrPastFrom
        (R.mark reader.new) (R.remaining reader.old) bound.old)
        (R.mark reader.old) (R.mark reader.new) }
{
    let mut replayed = replay_front(alloc, reader, buffer, bound, left)?;
    replay_rest(reader, buffer, bound, &mut replayed, left)?;
    Ok(replayed)
}

// Replays what is heard up to the read that ends the first line: the header, and the lines that came with it.
fn replay_front<R: Source>(
    alloc: Global,
    reader: &mut R,
    buffer: &mut LineBuffer,
    bound: &mut Bound,
    left: &mut Vec<u8>,
) -> Result<Replayed, AuditFault>
    requires { buffer.old.begun ≡ [] }
    ensures going { IfOk result (IsReplaying
        (R.remaining reader.old) (R.remaining reader.new) buffer.new) }
    ensures few { IfOk result (λ replayed. replayed.entries < 2 ^ 64 - 1) }
    ensures fault { IfErr result (λ fault.
        IfSome (R.remaining reader.old) (λ text. IsRefusal text fault)) }
    ensures within { result ≢ Err AuditFault.Read → StaysWithinBound
        (R.remaining reader.old) (R.remaining reader.new) bound.old bound.new }
    ensures mark { IsReaderMarked result (IsMarkedOrPastFrom
        (R.mark reader.new) (R.remaining reader.old) bound.old)
        (R.mark reader.old) (R.mark reader.new) }
{
    let (header, place) = hear_header(reader, buffer, bound, left)?;
    let mut replayed = Replayed::new(alloc, header)?;
    replayed.take_in(&buffer.lines()[place..], &mut Nobody, left)?;
    Ok(replayed)
}

// Replays the rest of a journal, read by read. `buffer` has the front of the next line, which was heard before.
fn replay_rest<R: Source>(
    reader: &mut R,
    buffer: &mut LineBuffer,
    bound: &mut Bound,
    replayed: &mut Replayed,
    left: &mut Vec<u8>,
) -> Result<(), AuditFault>
    requires going { IsReplayingSome (R.remaining reader.old) buffer.old replayed.old }
    requires few { replayed.old.entries < 2 ^ 64 - 1 }
    ensures answer { OnOk result (IsReplayedFrom
        (R.remaining reader.old) buffer.old replayed.old replayed.new) }
    ensures few { OnOk result (replayed.new.entries < 2 ^ 64 - 1) }
    ensures end { OnOk result (IsAtEnd (R.remaining reader.new)) }
    ensures fault { IfErr result (IsRefusalFrom
        (R.remaining reader.old) buffer.old replayed.old) }
    ensures within { result ≢ Err AuditFault.Read → StaysWithinBound
        (R.remaining reader.old) (R.remaining reader.new) bound.old bound.new }
    ensures mark { IsReaderMarked result (IsPastWhileReplaying
        (R.mark reader.new) (R.remaining reader.old) bound.old buffer.old replayed.old)
        (R.mark reader.old) (R.mark reader.new) }
{
    'reads: for _ in 0..u64::MAX {
        if buffer.begun().len() > MAX_LINE {
            keep_front(left, buffer.begun());
            return Err(AuditFault::Line(replayed.entries + 1));
        }
        match bound.hear(reader, buffer) {
            Ok(true) => replayed.take_in(buffer.lines(), &mut Nobody, left)?,
            Ok(false) => {
                replayed.is_torn = buffer.has_begun();
                keep_front(left, buffer.begun());
                return Ok(());
            }
            Err(_) => return Err(AuditFault::Read),
        }
    }
    Err(AuditFault::Read)
}

// Hears up to the end of the first line, and gives the header that it is, and the place in the buffer's lines where it ends.
fn hear_header<R: Source>(
    reader: &mut R,
    buffer: &mut LineBuffer,
    bound: &mut Bound,
    left: &mut Vec<u8>,
) -> Result<(Header, usize), AuditFault>
    requires { buffer.old.begun ≡ [] }
    ensures heard { IfOk result (λ found. HearsHeader
        (R.remaining reader.old) (R.remaining reader.new) buffer.new found.0 found.1) }
    ensures fault { IfErr result (λ fault.
        IfSome (R.remaining reader.old) (λ text. IsRefusal text fault)) }
    ensures within { result ≢ Err AuditFault.Read → StaysWithinBound
        (R.remaining reader.old) (R.remaining reader.new) bound.old bound.new }
    ensures mark { IsReaderMarked result (IsMarkedOrPastFrom
        (R.mark reader.new) (R.remaining reader.old) bound.old)
        (R.mark reader.old) (R.mark reader.new) }
{
    'reads: for _ in 0..u64::MAX {
        if buffer.begun().len() > MAX_LINE {
            keep_front(left, buffer.begun());
            return Err(AuditFault::Header);
        }
        match bound.hear(reader, buffer) {
            Ok(true) => {}
            Ok(false) => {
                keep_front(left, buffer.begun());
                return Err(AuditFault::Header);
            }
            Err(_) => return Err(AuditFault::Read),
        }
        let lines = buffer.lines();
        if !lines.is_empty() {
            return first_line(lines, left);
        }
    }
    Err(AuditFault::Read)
}

// The header that the first line of a text is, and the place where it ends.
fn first_line(text: &[u8], left: &mut Vec<u8>) -> Result<(Header, usize), AuditFault>
    ensures found { IfOk result (λ found.
        AllowsLimits found.0.version found.0.limits
        × (text.now ≡ header_line_of found.0.version found.0.limits ++ drop found.1 text.now)
        × (found.1 ≡ length (header_line_of found.0.version found.0.limits))) }
    ensures none { IfErr result (λ fault.
        (fault ≡ AuditFault.Header) × HasNoHeader text.now) }
{
    match Header::read_line(text) {
        Some((header, rest)) => Ok((header, text.len() - rest.len())),
        None => {
            keep_front(left, text);
            Err(AuditFault::Header)
        }
    }
}

/// Audits a journal of any length: what [`check`] answers to it, in memory that does not grow. It ends at the first line
/// that is wrong, whatever comes after it.
///
/// Where a line is refused, the front of the text from there on is put into `left`, so that people can be told.
pub fn check_long<R: Source>(
    alloc: Global,
    reader: &mut R,
    left: &mut Vec<u8>,
) -> Result<Checked, AuditFault>
    ensures answered { IsAnswered IsChecked IsMarkedOrEndless result
        (R.remaining reader.old) (R.mark reader.old) (R.mark reader.new) }
    ensures heard { result ≢ Err AuditFault.Read →
        HasRead (R.remaining reader.old) (R.remaining reader.new) }
{
    let replayed = replay(alloc, reader, left)?;
    answer_of(&replayed)
}

/// Checks a journal as [`audit`](crate::audit) does, and keeps neither its text nor its entries: it takes the same memory
/// however long the journal is. How often somebody is overtaken is told by the way, so the calls are made again only once.
/// The faults are those of [`audit`](crate::audit). Whatever line is wrong, and wherever memory runs out, it reads on to the
/// end: a read that fails there, or more than [`MAX_INPUT`] bytes, is the fault then.
pub fn check<R: Source>(alloc: Global, reader: &mut R) -> Result<Checked, AuditFault>
    ensures answered { IsAnswered IsChecked IsMarkedOrLong result
        (R.remaining reader.old) (R.mark reader.old) (R.mark reader.new) }
    ensures whole { result ≢ Err AuditFault.Read → IsReadWhole (R.remaining reader.old)
        (R.remaining reader.new) (R.mark reader.old) (R.mark reader.new) }
{
    check_bounded(alloc, reader, &mut Vec::new(alloc))
}

// As `check`. Where a line is refused, the front of the text from there on is put into `left`, so that people can be told.
pub(crate) fn check_bounded<R: Source>(
    alloc: Global,
    reader: &mut R,
    left: &mut Vec<u8>,
) -> Result<Checked, AuditFault>
    ensures answered { IsAnswered IsChecked IsMarkedOrLong result
        (R.remaining reader.old) (R.mark reader.old) (R.mark reader.new) }
    ensures whole { result ≢ Err AuditFault.Read → IsReadWhole (R.remaining reader.old)
        (R.remaining reader.new) (R.mark reader.old) (R.mark reader.new) }
{
    let Ok(mut buffer) = LineBuffer::new(alloc) else {
        return Err(fault_before_reading(reader));
    };
    let mut bound = Bound::new(MAX_INPUT);
    match replay_within(alloc, reader, &mut buffer, &mut bound, left) {
        Ok(replayed) => answer_of(&replayed),
        Err(fault) => {
            if is_of_reading(fault) {
                return Err(AuditFault::Read);
            }
            match bound.hear_to_end(reader, &mut buffer) {
                Ok(()) => Err(fault),
                Err(_) => Err(AuditFault::Read),
            }
        }
    }
}

// The fault of a journal for which memory was wanting before its first read. It is read all the same.
#[cold]
fn fault_before_reading<R: Source>(reader: &mut R) -> AuditFault
    ensures one { (result ≡ AuditFault.Read) ⊎ (result ≡ AuditFault.Memory) }
    ensures read { result ≡ AuditFault.Read →
        IsMarkedOrLong (R.mark reader.new) (R.remaining reader.old) }
    ensures memory { result ≡ AuditFault.Memory → IsReadWhole (R.remaining reader.old)
        (R.remaining reader.new) (R.mark reader.old) (R.mark reader.new) }
{
    match fault_without_memory(reader, MAX_INPUT) {
        InputFault::Read => AuditFault::Read,
        InputFault::Memory => AuditFault::Memory,
    }
}

// Whether the fault is that of a read.
fn is_of_reading(fault: AuditFault) -> bool
    ensures read { IsTrue result → fault ≡ AuditFault.Read }
    ensures other { IsFalse result → fault ≢ AuditFault.Read }
{
    fault == AuditFault::Read
}

// What an audit answers to a journal that was replayed to its end.
fn answer_of(replayed: &Replayed) -> Result<Checked, AuditFault>
    requires few { replayed.now.entries < 2 ^ 64 - 1 }
    ensures answer { (text : List ℕ) → IsReplayed text replayed.now → IsChecked text result }
    ensures reads_none { IsErrOf result AuditFault.Read → ⊥ }
{
    if replayed.is_torn {
        return Err(AuditFault::Line(replayed.entries + 1));
    }
    Ok(replayed.checked())
}
