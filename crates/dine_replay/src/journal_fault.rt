//! What is said beside the output where something was wrong with a journal, in words for people. Where there is no memory
//! for the words, nothing is said.

use crate::audit_answer::AuditFault;
use dine_lines::{
    Listener, Remark, error_remark, journal_from, push_entry_fault, push_header_fault,
    push_other_reply,
};
use std::alloc::{AllocError, Global};

/// Tells what is wrong with a journal whose audit answered this fault. Nothing is said where memory ran out, which whoever gives
/// up for it tells.
pub fn explain_journal<L: Listener>(
    alloc: Global,
    text: &[u8],
    fault: AuditFault,
    listener: &mut L,
) {
    let number = match fault {
        AuditFault::Line(number) | AuditFault::Wrong(number, _) => number,
        AuditFault::Header | AuditFault::Read | AuditFault::Memory => 0,
    };
    explain_refused_line(alloc, journal_from(text, number), fault, listener);
}

/// Tells what is wrong with a journal that was read to the line at fault, and whose text is this from there on. Nothing is
/// said where a read failed or memory ran out: the text has nothing to do with that, and whoever gives up for it tells it.
pub fn explain_left<L: Listener>(alloc: Global, left: &[u8], fault: AuditFault, listener: &mut L) {
    explain_refused_line(alloc, left, fault, listener);
}

// Tells what is wrong with a journal whose audit answered this fault, and whose text is this from the line at fault on, if it is
// the text that is at fault.
fn explain_refused_line<L: Listener>(
    alloc: Global,
    text: &[u8],
    fault: AuditFault,
    listener: &mut L,
) {
    match fault {
        AuditFault::Read | AuditFault::Memory => {}
        AuditFault::Header | AuditFault::Line(_) | AuditFault::Wrong(..) => {
            if let Ok(remark) = journal_remark(alloc, text, fault) {
                listener.tell(&remark);
            }
        }
    }
}

// What is said of a journal whose audit answered this fault, and whose text is this from the line at fault on.
fn journal_remark(alloc: Global, text: &[u8], fault: AuditFault) -> Result<Remark, AllocError> {
    let mut remark = error_remark(alloc)?;
    push_fault(alloc, &mut remark, text, fault)?;
    Ok(remark)
}

// Appends what is wrong with that journal. It stands apart, since it owns nothing that each way out would have to drop.
fn push_fault(
    alloc: Global,
    remark: &mut Remark,
    text: &[u8],
    fault: AuditFault,
) -> Result<(), AllocError> {
    match fault {
        AuditFault::Header => push_header_fault(remark, text),
        AuditFault::Line(number) => push_entry_fault(remark, text, number),
        AuditFault::Wrong(number, wanted) => push_other_reply(alloc, remark, text, number, wanted),
        AuditFault::Read | AuditFault::Memory => Ok(()),
    }
}
