//! The loop over a journal's lines.

ghost use Rattle.std.specs.Prelude.{◌≡◌, ◌≤◌, ◌<◌, ◌-◌, ◌^◌, IfErr, IfOk, OnOk};
ghost use Rattle.std.specs.Int.{from_bool};
ghost use Rattle.dine_replay.specs.Lines.{IsStoppedIn};

use crate::audit_answer::{AuditFault, Checked};
use crate::made_again::{repeat_line, replay_line};
use crate::visitor::Visitor;
use dine_arbiter::Arbiter;
use dine_journal::overtakes_somebody;
use dine_words::{Header, JournalVersion, MAX_LINE};
use std::alloc::{AllocError, Global};

// So many entries are replayed. None of 64 bits counts more lines.
const MOST_ENTRIES: u64 = u64::MAX - 1;

/// What a journal leaves once its calls were made again: the arbiter after them, which goes on as the journal's own
/// would.
#[derive(Drop)]
pub struct Replayed {
    /// The arbiter after all of the journal's calls.
    pub arbiter: Arbiter,
    /// The version that the journal's header names.
    pub version: JournalVersion,
    /// How many entries there are.
    pub entries: u64,
    /// Whether a task was ever overtaken.
    pub is_overtaken: bool,
    /// Whether a last line lacked its line feed, and was dropped.
    pub is_torn: bool,
}

impl Replayed {
    ghost use Rattle.dine_replay.specs.Lines.{AddsLines, IsOpened};

    // What a header alone leaves.
    pub(crate) fn new(alloc: Global, header: Header) -> Result<Replayed, AllocError>
        ensures { IfOk result (IsOpened header) }
    {
        Ok(Replayed {
            arbiter: Arbiter::new(alloc, header.limits)?,
            version: header.version,
            entries: 0,
            is_overtaken: false,
            is_torn: false,
        })
    }

    // Makes the calls of the lines of a text again, in order, up to the first that is refused, and tells the visitor each
    // entry. The front of the text from a refused line on is put into `left`, for people. The fault is `Read` where there may
    // be more entries than are counted, and `Memory` where the visitor has none.
    pub(crate) fn take_in<V: Visitor>(
        &mut self,
        text: &[u8],
        visitor: &mut V,
        left: &mut Vec<u8>,
    ) -> Result<(), AuditFault>
        requires clock { self.old.arbiter.table.clock ≤ self.old.entries }
        requires few { self.old.entries < 2 ^ 64 - 1 }
        ensures ok { OnOk result (AddsLines self.old self.new
            (V.told visitor.old) (V.told visitor.new) text.now) }
        ensures err { IfErr result (IsStoppedIn self.old.version self.old.arbiter.table
            self.old.entries text.now) }
    {
        // Each entry takes a byte at least. So nothing has to be counted with care below.
        if text.len() as u64 > MOST_ENTRIES - self.entries {
            return Err(AuditFault::Read);
        }
        let mut rest = text;
        let mut entries = self.entries;
        let mut is_overtaken = self.is_overtaken;
        while !rest.is_empty() {
            let line = entries + 1;
            // Of nearly all lines nothing is put together. The others find the arbiter as it was.
            if let Some((was_overtaken, after)) = repeat_line(
                &mut self.arbiter,
                is_overtaken,
                visitor,
                rest,
            )? {
                is_overtaken = was_overtaken;
                rest = after;
            } else {
                match replay_line(&mut self.arbiter, self.version, line, rest) {
                    Ok((entry, after)) => {
                        is_overtaken = is_overtaken || overtakes_somebody(&self.arbiter, &entry);
                        visitor.visit(entry)?;
                        rest = after;
                    }
                    Err(fault) => {
                        keep_front(left, rest);
                        return Err(fault);
                    }
                }
            }
            entries = line;
        }
        self.entries = entries;
        self.is_overtaken = is_overtaken;
        Ok(())
    }

    // What an audit tells of it.
    pub(crate) fn checked(&self) -> Checked
        ensures entries { result.entries ≡ self.now.entries }
        ensures most { result.most_overtakes ≡ from_bool self.now.is_overtaken }
    {
        Checked {
            entries: self.entries,
            most_overtakes: u64::from(self.is_overtaken),
        }
    }
}

/// Keeps the front of a text, as much of it as a line may have, if there is memory for it.
pub(crate) fn keep_front(left: &mut Vec<u8>, text: &[u8]) {
    let len = text.len().min(MAX_LINE + 1);
    let _ = left.extend_from_slice(&text[..len]);
}
