//! A search for the slots whose task may begin, the least first.

ghost use Rattle.std.specs.Prelude.{◌≡◌, ◌∷◌, ◌<◌, ◌≤◌, [], if◌then◌else◌, IfNone, IfSome, length};
ghost use Rattle.dine_forks.specs.Book.{ForkBook as Book};
ghost use Rattle.dine_arbiter.specs.Searches.{IsSearch, holds_all_at, ready_slots, slots_left, weight_of};

use dine_forks::{ForkBook, SlotSet};

/// How far a search has come among the slots whose task is hungry.
#[derive(Clone, Copy)]
pub struct Search {
    // The words of 64 slots each that are still to be gone through, as bits.
    words: u64,
    // The first slot of the word that is gone through, and those of its slots that are still to be asked about, as bits.
    first: u32,
    members: u64,
}

impl Search {
    /// A search among all slots whose task is hungry.
    #[inline(always)]
    pub fn new(hungry: &SlotSet) -> Search
        requires some { 1 ≤ length hungry.now }
        requires few { length hungry.now ≤ 4096 }
        ensures kept { IsSearch hungry.now result }
        ensures all { (book : Book) →
            slots_left result hungry.now book ≡ ready_slots hungry.now book }
    {
        Search {
            words: hungry.word_marks(),
            first: 0,
            members: 0,
        }
    }

    /// The next of the hungry slots that holds all of its forks, or `None` where none is left.
    #[inline(always)]
    pub fn next(&mut self, hungry: &SlotSet, book: &ForkBook) -> Option<u32>
        requires kept { IsSearch hungry.now self.old }
        requires slots { length hungry.now ≡ book.now.slots }
        ensures kept { IsSearch hungry.now self.new }
        ensures found { IfSome result (λ slot. slots_left self.old hungry.now book.now
            ≡ slot ∷ slots_left self.new hungry.now book.now) }
        ensures none { IfNone result (slots_left self.old hungry.now book.now ≡ []) }
    {
        while let Some(slot) = self.next_member(hungry, book) {
            if book.holds_all(slot) {
                return Some(slot);
            }
        }
        None
    }

    // The next of the hungry slots that isn't known to lack a fork: those that are known to are passed over, 64 at once.
    #[inline(always)]
    fn next_member(&mut self, hungry: &SlotSet, book: &ForkBook) -> Option<u32>
        requires kept { IsSearch hungry.now self.old }
        requires slots { length hungry.now ≡ book.now.slots }
        ensures kept { IsSearch hungry.now self.new }
        ensures within { IfSome result (λ slot. slot < length hungry.now) }
        ensures fewer { IfSome result (λ slot. weight_of self.new < weight_of self.old) }
        ensures found { IfSome result (λ slot. slots_left self.old hungry.now book.now
            ≡ (if holds_all_at book.now slot then slot ∷ slots_left self.new hungry.now book.now
            else slots_left self.new hungry.now book.now)) }
        ensures none { IfNone result (slots_left self.old hungry.now book.now ≡ []) }
    {
        while self.members == 0 {
            if self.words == 0 {
                return None;
            }
            let word = self.words.trailing_zeros();
            self.words &= self.words - 1;
            self.first = 64 * word;
            self.members = hungry.word(word as usize) & !book.lacking_word(word as usize);
        }
        let slot = self.first + self.members.trailing_zeros();
        self.members &= self.members - 1;
        Some(slot)
    }
}
