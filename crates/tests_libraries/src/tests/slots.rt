//! Sets of slots, over more than one word.

ghost use Rattle.std.specs.Prelude.{◌≡◌, ◌≤◌, length};

use crate::tests::same::{same, same_at};
use dine_forks::SlotSet;
use std::alloc::AllocError;
use std::process::Abort;

// So many slots stand in three words, of which the last has two.
const SLOTS: u32 = 130;

// A slot, and the least member from it on.
type Row = (u32, u32);

// The set finds these members, and has these words. The bits of the last number tell which words may have a member.
fn has(rt: &impl Abort, set: &SlotSet, rows: &[Row], words: [u64; 3], marks: u64)
    requires { length set.now ≡ 130 }
{
    for (from, found) in rows {
        if *from <= SLOTS {
            same_at(rt, *from, set.first_from(*from), *found);
        }
    }
    same(rt, [set.word(0), set.word(1), set.word(2)], words);
    same(rt, set.word_marks(), marks);
}

const NONE: [Row; 3] = [(0, 130), (64, 130), (130, 130)];

const TWO: [Row; 6] = [(0, 3), (3, 3), (4, 129), (64, 129), (129, 129), (130, 130)];

const ALL: [Row; 4] = [(0, 0), (63, 63), (64, 64), (130, 130)];

#[test]
fn a_set_finds_its_least_member_from_a_slot_on(rt: HostRuntime) -> Result<(), AllocError> {
    let mut set = SlotSet::new(rt.alloc(), SLOTS)?;
    has(&rt, &set, &NONE, [0, 0, 0], 0);
    set.insert(3);
    set.insert(129);
    has(&rt, &set, &TWO, [8, 0, 2], 5);
    set.remove(3);
    set.remove(129);
    has(&rt, &set, &NONE, [0, 0, 0], 0);
    Ok(())
}

#[test]
fn a_set_of_all_has_no_slot_beyond(rt: HostRuntime) -> Result<(), AllocError> {
    let set = SlotSet::all(rt.alloc(), SLOTS)?;
    has(&rt, &set, &ALL, [u64::MAX, u64::MAX, 3], 7);
    Ok(())
}
