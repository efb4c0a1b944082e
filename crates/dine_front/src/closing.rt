//! How the receipts of the passes and what they have seen stand to a history, and all shares put together.

ghost use Rattle.std.specs.Prelude.{◌≡◌, ◌+◌, ◌≤◌, length};
ghost use Rattle.dine_front.specs.Mine.{sum_of_shares};
ghost use Rattle.dine_front.specs.Passes.{AreOfOneHistory, most_passes};
ghost use Rattle.dine_front.specs.Verdicts.{IsVerdict};

use crate::cursors::{first_parted, opened, walk};
use crate::naming::Naming;
use crate::pass::Pass;
use crate::sight::{Sight, Whole};
use crate::verdict::Verdict;
use dine_journal::Entries;
use std::sync::ledger::Share;

/// The verdict over a history and the passes that were handed in, where the front has so many passes. Each entry of the
/// history is looked at once, however many passes there are.
pub(crate) fn verdict_over<J: Naming>(
    history: &Entries<'_>,
    passes: &[Pass<J>],
    count: u32,
) -> Verdict
    requires { count ≤ most_passes }
    ensures { IsVerdict count passes.now history.now result }
{
    let mut cursors = match opened(passes, count) {
        Ok(cursors) => cursors,
        Err(number) => return Verdict::Missing(number),
    };
    walk(history, passes, count, &mut cursors);
    match first_parted(history, passes, count, &cursors) {
        Some((number, place)) => Verdict::Differs(number, place),
        None => Verdict::Settled,
    }
}

/// What the passes have seen are beginnings of one list, and so is the whole history. It does nothing when the program runs.
pub(crate) fn are_of_one_history<J: Naming>(history: &Sight<J>, passes: &[Pass<J>])
    ensures { AreOfOneHistory history.now passes.now }
{
    let mut whole = Whole::new(history);
    for pass in passes {
        whole.take_in(pass.sight());
    }
}

/// Puts the shares of all passes together with the rest.
pub(crate) fn gather<J: Naming>(rest: &mut Share<J>, passes: Vec<Pass<J>>)
    requires { rest.old.parts ≤ J.parts }
    ensures parts { rest.new.parts ≡ rest.old.parts + length passes.items }
    ensures amount { rest.new.amount ≡ rest.old.amount + sum_of_shares passes.items }
    ensures apart { rest.new.parts ≤ J.parts }
{
    for pass in passes {
        rest.merge(pass.into_share());
    }
}
