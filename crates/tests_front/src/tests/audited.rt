//! Journals of fronts that are closed, audited as texts.

use crate::tests::same::same;
use dine_journal::Journal;
use dine_replay::check_text;
use dine_words::Marked;
use tests_kit::Machine;

// The text of a journal.
fn text_of(rt: &impl Machine, journal: &Journal) -> Vec<u8> {
    let mut writer = Marked::new(Vec::new(rt.alloc()));
    let written = journal.write_text(rt.alloc(), &mut writer);
    same(rt, written.is_ok(), true);
    writer.into_inner()
}

/// The text of the journal is audited as legal, with as many entries as the journal has.
pub fn is_audited(rt: &impl Machine, journal: &Journal) {
    let checked = check_text(rt.alloc(), &text_of(rt, journal));
    let entries = checked.ok().map(|checked| checked.entries);
    same(rt, entries, Some(journal.len()));
}
