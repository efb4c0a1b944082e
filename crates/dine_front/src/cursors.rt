//! How the receipts of all passes are compared with a history in one walk over it.

ghost use Rattle.std.specs.Prelude.{◌≡◌, ◌+◌, ◌<◌, ◌≤◌, IfErr, IfNone, IfOk, IfSome, List, None, Some, false, length, slice_index_or};
ghost use Rattle.dine_words.specs.declared.entry.Entry.{Entry};
ghost use Rattle.dine_front.specs.Cursors.{AllFollow, IsCompared};
ghost use Rattle.dine_front.specs.Mine.{receipts_of};
ghost use Rattle.dine_front.specs.Passes.{Pass as PassRecord, most_passes};
ghost use Rattle.dine_front.specs.Verdicts.{AllSettled, IsDiffering, IsMissing};

use crate::naming::Naming;
use crate::pass::Pass;
use crate::waiting::PLACES;
use dine_journal::{Entries, Receipts};

/// How far the receipts of a pass were compared with a history.
#[derive(Clone, Copy)]
pub(crate) struct Cursor {
    // Where the pass stands among those that were handed in.
    at: usize,
    // So many of its receipts are what the history says.
    matched: usize,
    // The next one isn't, or there is none.
    is_parted: bool,
}

/// A cursor for each of so many passes, before the first entry. The error is the first pass that was not handed in.
pub(crate) fn opened<J: Naming>(passes: &[Pass<J>], count: u32) -> Result<[Cursor; PLACES], u32>
    requires { count ≤ most_passes }
    ensures ok { IfOk result (λ cursors. (history : List Entry) →
        AllFollow count passes.now history 0 cursors) }
    ensures missing { IfErr result (λ k. IsMissing count passes.now k) }
{
    let mut cursors = [start(0); PLACES];
    for number in 0..count {
        let Some(at) = place_of(passes, number) else {
            return Err(number);
        };
        cursors[number as usize] = start(at);
    }
    Ok(cursors)
}

// The cursor of the pass that stands there, before the first entry.
fn start(at: usize) -> Cursor
    ensures { result ≡ record { at = at; matched = 0; is_parted = false } }
{
    Cursor {
        at,
        matched: 0,
        is_parted: false,
    }
}

// Where the pass with this number stands among those that were handed in, the first of them where there are several.
fn place_of<J: Naming>(passes: &[Pass<J>], number: u32) -> Option<usize>
    ensures within { IfSome result (λ at. at < length passes.now) }
    ensures some { IfSome result (λ at. (p : PassRecord) →
        receipts_of number passes.now ≡ Some (slice_index_or passes.now at p).receipts) }
    ensures none { IfNone result (receipts_of number passes.now ≡ None) }
{
    for at in 0..passes.len() {
        if passes[at].number() == number {
            return Some(at);
        }
    }
    None
}

/// Goes through the history once. Each entry is compared with the next receipt of its pass.
pub(crate) fn walk<J: Naming>(
    history: &Entries<'_>,
    passes: &[Pass<J>],
    count: u32,
    cursors: &mut [Cursor; PLACES],
)
    requires count { count ≤ most_passes }
    requires start { AllFollow count passes.now history.now 0 cursors.old }
    ensures { AllFollow count passes.now history.now (length history.now) cursors.new }
{
    for place in 0..history.len() {
        let number = history.pass_at(place);
        if number < count {
            let cursor = &mut cursors[number as usize];
            let receipts = passes[cursor.at].receipts();
            advance(cursor, number, &receipts, history, place);
        }
    }
}

// Compares the entry at this place, which is the pass's, with its next receipt.
#[inline(always)]
fn advance(
    cursor: &mut Cursor,
    number: u32,
    receipts: &Receipts<'_>,
    history: &Entries<'_>,
    place: usize,
)
    requires within { place < length history.now }
    requires own { (e : Entry) → (slice_index_or history.now place e).pass ≡ number }
    requires before { IsCompared place number history.now receipts.now cursor.old }
    ensures at { cursor.new.at ≡ cursor.old.at }
    ensures behind { IsCompared (place + 1) number history.now receipts.now cursor.new }
{
    if cursor.is_parted {
        return;
    }
    let matched = cursor.matched;
    if matched < receipts.len() && receipts.is_for(matched, history, place) {
        cursor.matched = matched + 1;
    } else {
        cursor.is_parted = true;
    }
}

/// After the whole history: the first of so many passes whose receipts are not what it says, and where they part.
pub(crate) fn first_parted<J: Naming>(
    history: &Entries<'_>,
    passes: &[Pass<J>],
    count: u32,
    cursors: &[Cursor; PLACES],
) -> Option<(u32, u64)>
    requires count { count ≤ most_passes }
    requires walked { AllFollow count passes.now history.now (length history.now) cursors.now }
    ensures some { IfSome result (λ found.
        IsDiffering count passes.now history.now found.0 found.1) }
    ensures none { IfNone result (AllSettled count passes.now history.now) }
{
    for number in 0..count {
        let cursor = cursors[number as usize];
        let receipts = passes[cursor.at].receipts();
        if cursor.is_parted || cursor.matched < receipts.len() {
            return Some((number, cursor.matched as u64));
        }
    }
    None
}
