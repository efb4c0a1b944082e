//! How many forks each slot lacks and is asked for, and which slots lack some.
//!
//! Who lacks a fork is kept as a set, so that 64 slots are passed over in one look. Each member lacks some, and who is no
//! member may lack some too: a slot that only loses forks, or gets a record more, isn't written there.

ghost use Rattle.std.specs.Prelude.{◌≡◌, ℕ, ◌<◌, ◌≤◌, false, length, slice_set, true};
ghost use Rattle.dine_forks.specs.Counts.{CanAdd, CanRemove, count_at, count_with, count_without, counted_less, counted_more, is_asked, kept_set, lacks, one_if, relieved};
ghost use Rattle.dine_forks.specs.Held.{non_holder};

use crate::record::{Fork, ForkRecord};
use crate::rules::Reach;
use crate::slot_set::SlotSet;

/// How many forks a slot lacks, and is asked for.
#[derive(Clone, Copy)]
pub struct Count {
    /// How many forks it lacks: the other ends of so many of its records have them.
    pub lacked: u32,
    /// How many of those that it holds it is asked for: it has their request tokens too.
    pub asked: u32,
}

impl Count {
    /// No fork is lacked, and none asked for.
    pub const NONE: Count = Count {
        lacked: 0,
        asked: 0,
    };

    /// The count with a fork more, of which the slot is the first end or the second.
    #[inline(always)]
    pub fn with(self, first: bool, fork: Fork) -> Count
        requires few { self.lacked ≤ 65536 }
        requires few_asked { self.asked ≤ 65536 }
        ensures { result ≡ count_with first fork self }
    {
        Count {
            lacked: self.lacked + lacked_at(first, fork),
            asked: self.asked + asked_at(first, fork),
        }
    }

    /// The count with that fork less.
    #[inline(always)]
    pub fn without(self, first: bool, fork: Fork) -> Count
        requires some { one_if (lacks first fork) ≤ self.lacked }
        requires some_asked { one_if (is_asked first fork) ≤ self.asked }
        ensures { result ≡ count_without first fork self }
    {
        Count {
            lacked: self.lacked - lacked_at(first, fork),
            asked: self.asked - asked_at(first, fork),
        }
    }
}

/// 1 if the end lacks the fork, and else 0.
#[inline(always)]
pub fn lacked_at(first: bool, fork: Fork) -> u32
    ensures { result ≡ one_if (lacks first fork) }
{
    u32::from(fork.at_first != first)
}

// 1 if the end has the fork and is asked for it, and else 0.
#[inline(always)]
fn asked_at(first: bool, fork: Fork) -> u32
    ensures { result ≡ one_if (is_asked first fork) }
{
    u32::from(fork.at_first == first && fork.token_first == first)
}

/// A record comes: its fork is counted at both of its ends.
#[inline(always)]
pub fn add(counts: &mut [Count], coming: ForkRecord)
    requires { CanAdd coming counts.old }
    ensures counted { (s : ℕ) →
        count_at counts.new s ≡ counted_more s coming (count_at counts.old s) }
    ensures places { length counts.new ≡ length counts.old }
{
    let first = coming.fork.at_first;
    let holder = coming.holder() as usize;
    let other = coming.non_holder() as usize;
    counts[holder] = counts[holder].with(first, coming.fork);
    counts[other] = counts[other].with(!first, coming.fork);
}

/// A record goes: its fork is counted at no end any more. The end that lacked it is taken out of the set where it lacks none.
#[inline(always)]
pub fn remove(counts: &mut [Count], lacking: &mut SlotSet, going: ForkRecord)
    requires can { CanRemove going counts.old }
    requires place { non_holder going < length lacking.old }
    ensures counted { (s : ℕ) →
        count_at counts.new s ≡ counted_less s going (count_at counts.old s) }
    ensures places { length counts.new ≡ length counts.old }
    ensures set { lacking.new ≡ relieved (non_holder going) true
        (count_at counts.new (non_holder going)).lacked lacking.old }
{
    let first = going.fork.at_first;
    let holder = going.holder() as usize;
    let other = going.non_holder() as usize;
    counts[holder] = counts[holder].without(first, going.fork);
    let after = counts[other].without(!first, going.fork);
    counts[other] = after;
    // Where nobody is hungry no slot is in the set.
    if after.lacked == 0 && lacking.has(other as u32) {
        lacking.remove(other as u32);
    }
}

/// A slot was walked: where it lacks no fork, it is taken out of the set, and where it has asked for those that it lacks, it is
/// put in.
#[inline(always)]
pub fn settle(counts: &[Count], lacking: &mut SlotSet, slot: u32, reach: Reach)
    requires slot { slot < length counts.now }
    requires place { slot < length lacking.old }
    ensures { lacking.new ≡ kept_set slot (count_at counts.now slot).lacked reach lacking.old }
{
    if counts[slot as usize].lacked == 0 {
        if lacking.has(slot) {
            lacking.remove(slot);
        }
    } else if reach == Reach::Lacked {
        lacking.insert(slot);
    }
}

/// A slot that got a fork is taken out of the set where it lacks none any more.
#[inline(always)]
pub fn relieve(lacking: &mut SlotSet, slot: u32, gained: bool, lacked: u32)
    requires { slot < length lacking.old }
    ensures { lacking.new ≡ relieved slot gained lacked lacking.old }
{
    if gained && lacked == 0 {
        lacking.remove(slot);
    }
}
