//! Which front a value belongs to.

use std::marker::Brand;
use std::sync::ledger::Ledger;

// The most passes that a front may have.
pub(crate) const MAX_PASSES: u32 = 16;

/// The parts of a front's ledger: one for each pass that it may have, and one that stays with the front.
pub const LEDGER_PARTS: u64 = MAX_PASSES as u64 + 1;

/// Names one front: its ledger, how many passes it has, the limits of its table, and the book that its history is written
/// in. A call that opens a front picks them, so that what lies under the lock can speak of what stands beside it.
pub trait Naming: Ledger {
    ghost use Rattle.std.specs.Prelude.{ℕ};
    ghost use Rattle.dine_words.specs.declared.limits.Limits.{Limits};
    ghost use Rattle.logbook.specs.Pages.{Book};

    ghost passes: { ℕ };

    ghost limits: { Limits };

    ghost book: { Book };
}

impl Naming for Brand {
    ghost use Rattle.dine_front.specs.Least.{least_limits, no_book};

    ghost passes = { 0 };

    ghost limits = { least_limits };

    ghost book = { no_book };
}
