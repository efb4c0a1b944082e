//! A test bench's run: calls are made, their journal is written, and the text is audited.

ghost use Rattle.std.specs.Prelude.{◌≡◌, [], IfErr, IfOk, List, OnOk, length};
ghost use Rattle.dine_words.specs.declared.entry.Entry.{Entry};
ghost use Rattle.dine_words.specs.Versions.{written_version};
ghost use Rattle.dine_words.specs.Texts.{IsEntryOf};
ghost use Rattle.dine_journal.specs.JournalText.{journal_text};
ghost use Rattle.dine_journal.specs.Overtakes.{most_overtaken};
ghost use Rattle.dine_uses.specs.Recording.{HasMade, IsRecordOf};

use dine_journal::{Hall, Journal};
use dine_replay::{AuditFault, Checked, check_text};
use dine_words::{Call, Entry, Limits, Marked, Reply};
use std::alloc::{AllocError, Global};

// The pass of the calls.
const PASS: u32 = 0;

/// The text of a journal, and what its audit tells.
#[derive(Drop)]
pub struct Recorded {
    pub text: Vec<u8>,
    pub checked: Checked,
}

/// Makes calls at a table where nobody is present, writes their journal, and audits the text.
///
/// The one error is want of memory: what is written passes the audit.
pub fn keep_record(alloc: Global, limits: Limits, calls: &[Call]) -> Result<Recorded, AuditFault>
    ensures entries { IfOk result (λ recorded. recorded.checked.entries ≡ length calls.now) }
    ensures recorded { IfOk result (λ recorded.
        (history : List Entry) × IsRecordOf limits calls.now history
        × (recorded.text.items ≡ journal_text limits history)
        × (recorded.checked.most_overtakes ≡ most_overtaken limits history)) }
    ensures fault { IfErr result (λ fault. fault ≡ AuditFault.Memory) }
{
    let mut hall = Hall::new(alloc, limits)?;
    make_all(&mut hall, calls)?;
    let text = text_of(alloc, &hall.into_journal())?;
    let checked = check_text(alloc, &text)?;
    Ok(Recorded { text, checked })
}

// Makes the calls in order, at a hall without any.
fn make_all(hall: &mut Hall, calls: &[Call]) -> Result<(), AllocError>
    requires { hall.old.history ≡ [] }
    ensures limits { hall.new.limits ≡ hall.old.limits }
    ensures made { OnOk result (HasMade calls.now hall.new.history) }
{
    for call in calls {
        let answer = hall.act(PASS, *call)?;
        known(*call, answer.reply);
    }
    Ok(())
}

// The text of a journal. An error is want of memory.
fn text_of(alloc: Global, journal: &Journal) -> Result<Vec<u8>, AllocError>
    ensures { IfOk result (λ text. text.items ≡
        journal_text journal.now.limits journal.now.entries) }
{
    let mut text = Marked::new(Vec::new(alloc));
    match journal.write_text(alloc, &mut text) {
        Ok(()) => Ok(text.into_inner()),
        Err(_) => Err(AllocError),
    }
}

// The numbers of a call and of a reply fit their types, so the entry of the two can be written.
fn known(call: Call, reply: Reply)
    ensures { IsEntryOf written_version (record { pass = 0; call = call; reply = reply }) }
{}
