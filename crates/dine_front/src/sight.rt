//! A beginning of the history that was seen.

ghost use Rattle.std.specs.Prelude.{◌≡◌, ◌≤◌, ◌++◌, ◌∷◌, [], length, IfSome};
ghost use mathlib.Core.List.{IsPrefix};
ghost use Rattle.dine_table.specs.Calls.{reply_of};
ghost use Rattle.dine_table.specs.History.{IsLegal, table_after};
ghost use Rattle.dine_front.specs.Published.{counter_of};

use crate::counted::{Count, Counted, Counter, Nothing, Write};
use crate::naming::Naming;
use dine_words::Entry;
use logbook::{Offer, Seen};
use std::marker::{Model, PhantomData};

// So many entries and more are not counted.
const MOST_ENTRIES: u64 = 1 << 62;

/// A beginning of the history that was seen. It has no entries when the program runs, only their number. Contracts see it
/// as the entries.
#[derive(Drop)]
pub(crate) struct Sight<J: Naming> {
    count: u64,
    seen: Seen<Entry, u64, Counted>,
    front: PhantomData<J>,
}

impl<J: Naming> Model for Sight<J> {
    ghost use Rattle.std.specs.Prelude.{◌≡◌, List, length};
    ghost use Rattle.dine_words.specs.declared.entry.Entry.{Entry};
    ghost use Rattle.dine_table.specs.History.{IsLegal};

    ghost Value = { List Entry };

    ghost view = { λ sight. sight.seen.log };

    ghost invariant = { λ sight. (sight.count ≡ length sight.seen.log) × (sight.seen.book ≡ J.book)
        × IsLegal J.limits sight.seen.log };
}

impl<J: Naming> Sight<J> {
    // Of a book in which nothing is written.
    pub(crate) fn first(seen: Seen<Entry, u64, Counted>) -> Sight<J>
        requires { (seen.log ≡ []) × (seen.book ≡ J.book) }
        ensures { result ≡ [] }
    {
        Sight {
            count: 0,
            seen,
            front: PhantomData,
        }
    }

    // How many entries it has.
    pub(crate) fn len(&self) -> u64
        ensures length { result ≡ length self.now }
        ensures legal { IsLegal J.limits self.now }
    {
        self.count
    }

    // A copy.
    pub(crate) fn again(&self) -> Sight<J>
        ensures { result ≡ self.now }
    {
        Sight {
            count: self.count,
            seen: self.seen.again(),
            front: PhantomData,
        }
    }

    // Of two beginnings the shorter begins the longer. It does nothing when the program runs.
    pub(crate) fn begins(&self, other: &Sight<J>)
        requires { length self.now ≤ length other.now }
        ensures { IsPrefix self.now other.now }
    {
        let mut both = self.seen.again();
        both.learn(&other.seen);
    }

    // Whether no other entry is written yet. Who asks without the lock may be answered late: no contract tells that.
    #[inline(always)]
    pub(crate) fn is_whole(&self, counter: &Counter) -> bool
        requires counter { counter.now ≡ counter_of J.book }
    {
        let mut seen = self.seen.again();
        let mut offer: Offer<Entry, u64, Counted, Nothing> = seen.plain::<Nothing, (), Count>(&());
        counter.load::<Count, Nothing>(&mut seen, &mut offer) == self.count
    }

    // All that was seen with an entry behind it, which is written into the book, for a pass that has seen this much. `None`
    // where the history is longer, or too long to count. Else the pass has seen no more than this, so its list begins the
    // new one.
    pub(crate) fn extended(
        &self,
        mine: &Sight<J>,
        counter: &Counter,
        entry: Entry,
    ) -> Option<Sight<J>>
        requires counter { counter.now ≡ counter_of J.book }
        requires legal { entry.reply ≡ reply_of (table_after J.limits self.now) entry.call }
        ensures next { IfSome result (λ sight. sight ≡ self.now ++ entry ∷ []) }
        ensures begins { IfSome result (λ sight. IsPrefix mine.now sight) }
    {
        let count = self.count;
        // Never so: a history of so many entries has room in no memory. The counter could not count them.
        if count >= MOST_ENTRIES {
            return None;
        }
        let mut seen = self.seen.again();
        seen.learn(&mine.seen);
        let mut offer: Offer<Entry, u64, Counted, Nothing> = seen.plain::<Nothing, Entry, Write>(
            &entry,
        );
        let mut pen = seen.no_pen();
        let found = counter.compare_exchange::<Write, Nothing>(
            count,
            count + 1,
            &mut seen,
            &mut offer,
            &mut pen,
        );
        // Never so: under the lock the whole history was seen, and nobody writes without the lock. No contract tells that.
        if found != count {
            return None;
        }
        Some(Sight {
            count: count + 1,
            seen,
            front: PhantomData,
        })
    }
}

/// A list that several beginnings of the history begin. It has no entries when the program runs. Contracts see it as the
/// entries.
#[derive(Drop)]
pub(crate) struct Whole<J: Naming> {
    seen: Seen<Entry, u64, Counted>,
    front: PhantomData<J>,
}

impl<J: Naming> Model for Whole<J> {
    ghost use Rattle.std.specs.Prelude.{◌≡◌, List};
    ghost use Rattle.dine_words.specs.declared.entry.Entry.{Entry};

    ghost Value = { List Entry };

    ghost view = { λ whole. whole.seen.log };

    ghost invariant = { λ whole. whole.seen.book ≡ J.book };
}

impl<J: Naming> Whole<J> {
    // The beginning itself.
    pub(crate) fn new(sight: &Sight<J>) -> Whole<J>
        ensures { result ≡ sight.now }
    {
        Whole {
            seen: sight.seen.again(),
            front: PhantomData,
        }
    }

    // It grows, so that this beginning begins it too.
    pub(crate) fn take_in(&mut self, sight: &Sight<J>)
        ensures grown { IsPrefix self.old self.new }
        ensures begun { IsPrefix sight.now self.new }
    {
        self.seen.learn(&sight.seen);
    }
}
