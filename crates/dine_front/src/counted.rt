//! The book that a front's history is written in. When the program runs it is one word, the number of entries; the
//! entries themselves are known to proofs alone. Whoever has seen the book holds a token of what was written then,
//! which takes no bytes, and of two tokens the shorter begins the longer.

ghost use Rattle.std.specs.Prelude.{◌≡◌, [], IfOk};
ghost use Rattle.dine_front.specs.Published.{counter_of};

use crossbeam_utils::CachePadded;
use dine_words::Entry;
use logbook::{Gain, Plain, Play, Rule, Seen, Start, Word};
use std::alloc::{AllocError, Global};
use std::marker::Model;
use std::sync::Arc;

/// The rule of the book: its first word counts the entries. It says nothing of what may be written: that each reply is the
/// table's is the invariant of [`Sight`](crate::sight::Sight), since it depends on a front's limits.
pub struct Counted;

impl Rule<Entry, u64> for Counted {
    ghost use Rattle.std.specs.Prelude.{[]};
    ghost use base.Fml.{ftrue};
    ghost use Rattle.dine_front.specs.Published.{IsCountedBy};

    ghost holds = { λ cells log. IsCountedBy cells log };

    ghost first = { [] };

    ghost hinted = { λ n log. Unit {0} };

    ghost shows = { λ log. [] };

    ghost keeps = { λ names log. ftrue };

    ghost moves = { λ ask before after answer. Unit {0} };
}

/// Those who use the book trade nothing.
pub struct Nothing;

impl Gain<Entry, u64> for Nothing {
    ghost use base.Fml.{ftrue};

    ghost after = { λ names about answer. ftrue };
}

/// The step that changes the book: an entry is written.
pub struct Write;

impl Play<Entry, u64> for Write {
    ghost use Rattle.dine_front.specs.Published.{Writes};

    ghost then = { Writes };
}

/// What the step asks for: the entry.
impl Plain<Entry, Entry, u64> for Write {
    ghost use Rattle.std.specs.Prelude.{None};

    ghost ask = { λ entry. entry };

    ghost state = { λ entry. None };
}

/// The step that leaves the book as it is: the entries are counted.
pub struct Count;

impl Play<Entry, u64> for Count {
    ghost use Rattle.dine_front.specs.Published.{Counts};

    ghost then = { Counts };
}

/// What the step asks for: nothing, so any entry stands there.
impl Plain<(), Entry, u64> for Count {
    ghost use Rattle.std.specs.Prelude.{None};
    ghost use Rattle.dine_front.specs.Published.{no_entry};

    ghost ask = { λ _. no_entry };

    ghost state = { λ _. None };
}

/// The word that counts the entries of a book.
pub(crate) type Counter = Word<Entry, u64, Counted>;

/// The counter, shared by who writes the book and by all who look. It has cache lines of its own, so that whoever looks
/// waits for no other line than the one that a new entry changes. Contracts see it as the counter.
#[derive(Drop)]
pub(crate) struct SharedCounter {
    word: Arc<CachePadded<Counter>, Global>,
}

impl Model for SharedCounter {
    ghost use Rattle.std.specs.Arc.{arc_value};
    ghost use Rattle.crossbeam_utils.specs.Padded.{padded_value};
    ghost use Rattle.logbook.specs.Pages.{Named};

    ghost Value = { Named };

    ghost view = { λ shared. padded_value (arc_value shared.word) };
}

impl SharedCounter {
    // An error is want of memory.
    pub(crate) fn new(alloc: Global, counter: Counter) -> Result<SharedCounter, AllocError>
        ensures { IfOk result (λ shared. shared ≡ counter) }
    {
        match Arc::new(alloc, CachePadded::new(counter)) {
            Ok(word) => Ok(SharedCounter { word }),
            Err(_) => Err(AllocError),
        }
    }

    // For one more who looks. An error would be too many of them.
    pub(crate) fn again(&self) -> Result<SharedCounter, AllocError>
        ensures { IfOk result (λ shared. shared ≡ self.now) }
    {
        let word = Arc::try_clone(&self.word)?;
        Ok(SharedCounter { word })
    }

    // The counter itself.
    pub(crate) fn word(&self) -> &Counter
        ensures { result.now ≡ self.now }
    {
        &self.word
    }
}

/// A book in which nothing is written yet.
#[derive(Drop)]
pub(crate) struct EmptyBook {
    pub(crate) counter: Counter,
    pub(crate) seen: Seen<Entry, u64, Counted>,
    pub ghost empty: { seen.log ≡ [] },
    pub ghost counts: { counter ≡ counter_of seen.book },
}

impl EmptyBook {
    // A new book, with its counter at 0.
    pub(crate) fn new() -> EmptyBook {
        let (seen, mut first, _second) = Seen::open(Start::alone(), 0, 0);
        EmptyBook {
            counter: Word::tracked(0, &mut first),
            seen,
        }
    }
}
