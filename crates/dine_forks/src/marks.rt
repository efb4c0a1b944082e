//! The marks: a slot that has eaten is marked, and each fork that it holds is seen dirty.
//!
//! So a begin writes no dirt, and a finish none of its own slot. It is written when a mark ends: by the walk of the slot's next
//! hunger, and else before a clean fork comes.

ghost use Rattle.std.specs.Prelude.{◌≡◌, ℕ, ◌<◌, false, length, map};
ghost use Rattle.dine_forks.specs.Counts.{count_in};
ghost use Rattle.dine_forks.specs.Marks.{IsSeenAlike, is_marked, own_dirtied_at};

use crate::lists::Lists;
use crate::record::Fork;

/// Makes a slot ready to hold a fork, dirty or clean. The slot lacks so many. A clean fork ends its mark, and the forks that it
/// holds are written dirty. What is seen of the book stays.
#[inline(always)]
pub fn make_ready(lists: &mut Lists, marks: &mut [bool], dirty: bool, slot: u32, lacked: u32)
    requires slot { slot < lists.old.slots }
    requires marked { length marks.old ≡ lists.old.slots }
    requires lacked { lacked ≡ (count_in lists.old.records slot).lacked }
    ensures same { IsSeenAlike lists.old marks.old lists.new marks.new }
    ensures ready { dirty ≡ false → is_marked marks.new slot ≡ false }
    ensures off { (s : ℕ) → is_marked marks.old s ≡ false → is_marked marks.new s ≡ false }
{
    lists.are_sound();
    if !dirty && marks[slot as usize] {
        marks[slot as usize] = false;
        // One that lacks as many as it has records holds none.
        if lacked < lists.degree(slot) {
            write_dirt(lists, slot);
        }
    }
}

// Writes the forks dirty that a slot holds. It is built once: a caller that it is built into saves registers for it.
#[cold]
#[inline(never)]
fn write_dirt(lists: &mut Lists, slot: u32)
    requires { slot < lists.old.slots }
    ensures { lists.new ≡ record lists.old {
      records = map (own_dirtied_at slot) lists.old.records;
    } }
{
    lists.are_sound();
    let mut next = lists.first_of(slot);
    while let Some(id) = next {
        let visit = lists.visit(slot, id);
        let fork = visit.record.fork;
        let dirty = fork.dirty | (slot == visit.record.holder());
        lists.write(id, Fork { dirty, ..fork });
        next = visit.next;
    }
}
