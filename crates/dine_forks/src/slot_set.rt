//! Sets of slots, kept as bits, so that the least member from a slot on is found in a few steps.

ghost use Rattle.std.specs.Prelude.{◌≡◌, ◌+◌, ◌*◌, ◌/◌, ◌<◌, ◌≤◌, ◌^◌, IfOk, false, length, replicate, slice_index_or, slice_set, true};
ghost use Rattle.std.specs.Int.{bit_at};
ghost use Rattle.dine_forks.specs.SlotSets.{AreMembers, AreWords, IsFirstSet, bit_in, first_member};

use std::alloc::{AllocError, Global};
use std::marker::Model;

/// A set of slots.
#[derive(Drop)]
pub struct SlotSet {
    slots: u32,
    // The bit of each member's place is set: bit k % 64 of word k / 64 for slot k.
    words: Vec<u64>,
    // The bit of each word's place that is not 0, so that a search passes over the words that have no member.
    marks: Vec<u64>,
}

impl Model for SlotSet {
    ghost use Rattle.std.specs.Prelude.{Bool, List};
    ghost use Rattle.dine_forks.specs.SlotSets.{MarksWords, members_of};

    ghost Value = { List Bool };

    ghost view = { λ s. members_of s.slots s.words.items };

    ghost invariant = { λ s. MarksWords s.slots s.words.items s.marks.items };
}

impl SlotSet {
    /// A set of none of so many slots.
    #[tactic(auto, using(crate::proofs::SlotBits::members_none))]
    pub fn new(alloc: Global, slots: u32) -> Result<SlotSet, AllocError>
        ensures { IfOk result (λ set. set ≡ replicate slots false) }
    {
        let words = (slots as usize).div_ceil(64);
        Ok(SlotSet {
            slots,
            words: vec![in alloc; 0; words]?,
            marks: vec![in alloc; 0; words.div_ceil(64)]?,
        })
    }

    /// A set of all of so many slots.
    pub fn all(alloc: Global, slots: u32) -> Result<SlotSet, AllocError>
        ensures { IfOk result (λ set. set ≡ replicate slots true) }
    {
        let mut set = SlotSet::new(alloc, slots)?;
        for slot in 0..slots {
            set.insert(slot);
        }
        Ok(set)
    }

    /// Puts a slot in.
    #[inline]
    #[tactic(auto, using(crate::proofs::SlotBits::insert_members, crate::proofs::SlotBits::insert_kept))]
    pub fn insert(&mut self, slot: u32)
        requires { slot < length self.old }
        ensures { self.new ≡ slice_set self.old slot true }
    {
        let word = slot as usize / 64;
        let before = self.words[word];
        self.words[word] = before | 1 << (slot % 64);
        if before == 0 {
            self.marks[word / 64] |= 1 << (word % 64);
        }
    }

    /// Takes a slot out.
    #[inline]
    #[tactic(auto, using(crate::proofs::SlotBits::remove_kept, crate::proofs::SlotBits::remove_members))]
    pub fn remove(&mut self, slot: u32)
        requires { slot < length self.old }
        ensures { self.new ≡ slice_set self.old slot false }
    {
        let word = slot as usize / 64;
        let left = self.words[word] & !(1 << (slot % 64));
        self.words[word] = left;
        if left == 0 {
            self.marks[word / 64] &= !(1 << (word % 64));
        }
    }

    // Whether a slot is a member.
    #[inline(always)]
    pub(crate) fn has(&self, slot: u32) -> bool
        requires { slot < length self.now }
        ensures { result ≡ slice_index_or self.now slot false }
    {
        (self.word(slot as usize / 64) >> (slot % 64)) & 1 == 1
    }

    /// The least member from a slot on, or the number of slots where there is none.
    pub fn first_from(&self, from: u32) -> u32
        requires { from ≤ length self.now }
        ensures { result ≡ first_member from self.now }
    {
        if from == self.slots {
            return from;
        }
        let word = from as usize / 64;
        let bit = first_bit(self.words[word], from % 64);
        if bit < 64 {
            return (64 * word + bit as usize) as u32;
        }
        let next = first_set(&self.marks, word + 1);
        if next >= self.words.len() {
            return self.slots;
        }
        let bit = first_bit(self.words[next], 0);
        (64 * next + bit as usize) as u32
    }

    /// The members among the slots from 64 times a number on, as bits: bit k for the slot k behind the first of them.
    #[inline(always)]
    #[tactic(auto, using(crate::proofs::SlotBits::word_told))]
    pub fn word(&self, word: usize) -> u64
        requires { 64 * word < length self.now }
        ensures { AreMembers self.now word result }
    {
        self.words[word]
    }

    /// The words that may have a member, as bits: bit k for the word k, which has the slots from 64 k on. A word whose bit
    /// is 0 has none. One number has the bits of all words, since there are no more than 4,096 slots.
    #[inline(always)]
    #[tactic(auto, using(crate::proofs::SlotBits::has_marks, crate::proofs::SlotBits::words_told))]
    pub fn word_marks(&self) -> u64
        requires some { 1 ≤ length self.now }
        requires few { length self.now ≤ 4096 }
        ensures { AreWords self.now result }
    {
        self.marks[0]
    }
}

// The first bit of a word that is set, from a bit on, or 64 where none is.
#[tactic(auto, using(crate::proofs::SlotBits::first_bit_is))]
fn first_bit(word: u64, from: u32) -> u32
    requires { from < 64 }
    ensures { IsFirstSet (bit_at word) from 64 result }
{
    (word & (u64::MAX << from)).trailing_zeros()
}

// The first place whose bit is set, from a place on, or the number of bits where none is.
fn first_set(words: &[u64], from: usize) -> usize
    requires from { from ≤ 64 * length words.now }
    requires small { length words.now < 2 ^ 32 }
    ensures { IsFirstSet (bit_in words.now) from (64 * length words.now) result }
{
    let mut word = from / 64;
    let mut skipped = (from % 64) as u32;
    while word < words.len() {
        let bit = first_bit(words[word], skipped);
        if bit < 64 {
            return 64 * word + bit as usize;
        }
        word += 1;
        skipped = 0;
    }
    64 * words.len()
}
