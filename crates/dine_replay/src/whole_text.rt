//! A journal in memory audited.

ghost use Rattle.std.specs.Prelude.{◌≡◌, ◌≢◌, ◌⊎◌, Err, IfErr, IfOk, IfSome, IsErrOf};
ghost use Rattle.dine_streams.specs.Inputs.{IsMarkedOrLong, IsReadWhole};
ghost use Rattle.dine_replay.specs.Audit.{IsAnswer};
ghost use Rattle.dine_replay.specs.Checking.{IsChecked};
ghost use Rattle.dine_replay.specs.Lines.{IsReplayedWhole};
ghost use Rattle.dine_replay.specs.Marks.{IsAnswered, IsReaderMarked};

use crate::audit_answer::{AuditFault, Checked};
use crate::replayed::Replayed;
use crate::visitor::{Nobody, Visitor};
use dine_journal::{History, Journal};
use dine_streams::{InputFault, read_whole};
use dine_words::{Header, Source};
use std::alloc::Global;

/// Reads a journal of either version, and checks each reply by making the calls again.
///
/// The header names the version, and so which limits it can have and which calls the lines after it. The whole input is read
/// first. Then lines are taken in order, and the first fault is answered. `Read` is answered where a read fails or the input
/// is longer than [`MAX_INPUT`](crate::MAX_INPUT), and `Memory` where memory runs out, once all is read: neither says
/// anything of the text.
pub fn audit<R: Source>(alloc: Global, reader: &mut R) -> Result<Journal, AuditFault>
    ensures answered { IsAnswered IsAnswer IsMarkedOrLong result
        (R.remaining reader.old) (R.mark reader.old) (R.mark reader.new) }
    ensures whole { result ≢ Err AuditFault.Read → IsReadWhole (R.remaining reader.old)
        (R.remaining reader.new) (R.mark reader.old) (R.mark reader.new) }
{
    audit_text(alloc, &read_text(alloc, reader)?)
}

// The whole input.
fn read_text<R: Source>(alloc: Global, reader: &mut R) -> Result<Vec<u8>, AuditFault>
    ensures text { IfOk result (λ text. IfSome (R.remaining reader.old) (λ all. text.items ≡ all)) }
    ensures fault { IfErr result (λ fault.
        (fault ≡ AuditFault.Read) ⊎ (fault ≡ AuditFault.Memory)) }
    ensures mark { IsReaderMarked result
        (IsMarkedOrLong (R.mark reader.new) (R.remaining reader.old))
        (R.mark reader.old) (R.mark reader.new) }
    ensures whole { result ≢ Err AuditFault.Read → IsReadWhole (R.remaining reader.old)
        (R.remaining reader.new) (R.mark reader.old) (R.mark reader.new) }
{
    match read_whole(alloc, reader) {
        Ok(text) => Ok(text),
        Err(InputFault::Read) => Err(AuditFault::Read),
        Err(InputFault::Memory) => Err(AuditFault::Memory),
    }
}

/// Audits a journal's text as [`audit`] does a reader's. The fault is never `Read`.
pub fn audit_text(alloc: Global, text: &[u8]) -> Result<Journal, AuditFault>
    ensures answer { IsAnswer text.now result }
    ensures reads_none { IsErrOf result AuditFault.Read → ⊥ }
{
    let mut history = History::new(alloc);
    let replayed = replay_text(alloc, text, &mut history)?;
    Ok(history.into_journal(replayed.arbiter.limits()))
}

/// Checks a journal's text as [`check`](crate::check) does a reader's. The fault is never `Read`.
pub fn check_text(alloc: Global, text: &[u8]) -> Result<Checked, AuditFault>
    ensures answer { IsChecked text.now result }
    ensures reads_none { IsErrOf result AuditFault.Read → ⊥ }
{
    let replayed = replay_text(alloc, text, &mut Nobody)?;
    Ok(replayed.checked())
}

// Makes the calls of a whole text again, and tells the visitor each entry.
fn replay_text<V: Visitor>(
    alloc: Global,
    text: &[u8],
    visitor: &mut V,
) -> Result<Replayed, AuditFault>
    ensures ok { IfOk result
        (IsReplayedWhole (V.told visitor.old) (V.told visitor.new) text.now) }
    ensures err { IfErr result (λ fault. IsAnswer text.now (Err fault)) }
    ensures reads_none { IsErrOf result AuditFault.Read → ⊥ }
{
    let Some((header, lines)) = Header::read_line(text) else {
        return Err(AuditFault::Header);
    };
    let mut replayed = Replayed::new(alloc, header)?;
    replayed.take_in(lines, visitor, &mut Vec::new(alloc))?;
    Ok(replayed)
}
