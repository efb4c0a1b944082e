//! What a caller of a front holds.

ghost use Rattle.std.specs.Prelude.{◌≡◌, ◌<◌, [], length, IfErr, IfOk, OnOk};
ghost use mathlib.Core.List.{IsPrefix};
ghost use Rattle.dine_table.specs.History.{IsLegal, table_after};
ghost use Rattle.dine_table.specs.Table.{state_of};
ghost use Rattle.dine_front.specs.Passes.{Sees, most_passes};

use crate::front_fault::Gone;
use crate::known::Known;
use crate::lookout::Lookout;
use crate::naming::Naming;
use crate::sight::Sight;
use dine_journal::{Answer, FlatReceipt, Receipts};
use dine_words::{Call, State, Task};
use std::alloc::Global;
use std::marker::Model;
use std::sync::ledger::Share;

/// The right to call a front. It can't be copied, and carries a receipt for each call that was made with it.
///
/// Passes come from [`Front::open`](crate::Front::open), and are handed back to [`Front::close`](crate::Front::close).
#[derive(Drop)]
pub struct Pass<J: Naming> {
    pub(crate) number: u32,
    pub(crate) share: Share<J>,
    pub(crate) receipts: Vec<FlatReceipt>,
    pub(crate) alloc: Global,
    pub(crate) known: Known<J>,
    // None where the front was opened without looks.
    lookout: Option<Lookout<J>>,
}

impl<J: Naming> Model for Pass<J> {
    ghost use Rattle.std.specs.Prelude.{◌≡◌, ◌<◌, length};
    ghost use Rattle.dine_front.specs.Passes.{Pass as PassRecord, most_passes};

    ghost Value = { PassRecord };

    ghost use Rattle.dine_journal.specs.Flat.{receipts_of_flat};

    ghost view = { λ pass. record {
      number = pass.number;
      receipts = receipts_of_flat pass.receipts.items;
      seen = pass.known;
    } };

    // The pass has one part of the ledger, its share is the number of its receipts, and its number is one of a front's.
    ghost invariant = { λ pass. (pass.share.parts ≡ 1)
        × (pass.share.amount ≡ length (receipts_of_flat pass.receipts.items)) × (pass.number < most_passes) };
}

impl<J: Naming> Pass<J> {
    // A pass that made no call.
    pub(crate) fn new(
        alloc: Global,
        number: u32,
        share: Share<J>,
        sight: Sight<J>,
        lookout: Option<Lookout<J>>,
    ) -> Self
        requires new { (share.parts ≡ 1) × (share.amount ≡ 0) × (sight ≡ []) }
        requires in_range { number < most_passes }
        ensures number { result.number ≡ number }
        ensures receipts { result.receipts ≡ [] }
        ensures seen { result.seen ≡ [] }
    {
        Pass {
            number,
            share,
            receipts: Vec::new(alloc),
            alloc,
            known: Known::new(sight),
            lookout,
        }
    }

    /// The state of a task in the table that a beginning of the history leaves, or `None` where it isn't present there.
    /// That beginning is never shorter than what the pass has seen, and the pass has seen it from then on. It takes no lock,
    /// waits for nobody, and makes no entry. Where the pass looked at this task before and no entry was written since, by
    /// whichever pass, it is answered what that look told: one word is read for it.
    ///
    /// `Gone` is answered where the front was opened without looks, and may be once it was closed. The pass has seen nothing
    /// more then.
    pub fn look(&mut self, task: Task) -> Result<Option<State>, Gone>
        ensures number { self.new.number ≡ self.old.number }
        ensures receipts { self.new.receipts ≡ self.old.receipts }
        ensures sees { OnOk result (Sees J.limits self.old self.new) }
        ensures state { IfOk result (λ state.
            state ≡ state_of (table_after J.limits self.new.seen) task) }
        ensures gone { IfErr result (λ _. self.new ≡ self.old) }
    {
        let Pass { known, lookout, .. } = self;
        let Some(lookout) = lookout else {
            return Err(Gone);
        };
        if let Some(state) = known.told(task) {
            if known.sight().is_whole(lookout.counter()) {
                return Ok(state);
            }
        }
        look_anew(known, lookout, task)
    }

    /// Which pass of the front it is, counted from 0. No call changes it.
    pub fn number(&self) -> u32
        ensures { result ≡ self.now.number }
    {
        self.number
    }

    // The same, as the place that belongs to the pass among those of all.
    pub(crate) fn index(&self) -> usize
        ensures in_range { result < most_passes }
        ensures number { result ≡ self.now.number }
    {
        self.number as usize
    }

    /// How many entries of the history are calls of this pass: its share of the ledger, one for each receipt.
    pub fn count(&self) -> u64
        ensures { result ≡ length self.now.receipts }
    {
        self.receipts().len() as u64
    }

    /// The calls that were made with this pass, each with its answer, in order.
    pub fn receipts(&self) -> Receipts<'_>
        ensures { result ≡ self.now.receipts }
    {
        Receipts::new(self.receipts.as_slice())
    }

    // The beginning of the history that it has seen.
    pub(crate) fn sight(&self) -> &Sight<J>
        ensures { result.now ≡ self.now.seen }
    {
        self.known.sight()
    }

    // Its share of the ledger, which counts its receipts.
    pub(crate) fn into_share(self) -> Share<J>
        ensures parts { result.parts ≡ 1 }
        ensures amount { result.amount ≡ length self.receipts }
    {
        let Pass {
            number: _,
            share,
            receipts: _,
            alloc: _,
            known: _,
            lookout: _,
        } = self;
        share
    }
}

// Looks at the board that is shown. It stands apart, so that a look with nothing new to see is a few instructions where
// it is made.
#[inline(never)]
fn look_anew<J: Naming>(
    known: &mut Known<J>,
    lookout: &mut Lookout<J>,
    task: Task,
) -> Result<Option<State>, Gone>
    ensures begins { OnOk result (IsPrefix known.old known.new) }
    ensures legal { OnOk result (IsLegal J.limits known.new) }
    ensures state { IfOk result (λ state.
        state ≡ state_of (table_after J.limits known.new) task) }
    ensures gone { IfErr result (λ _. known.new ≡ known.old) }
{
    let Some((state, sight)) = lookout.read(task) else {
        return Err(Gone);
    };
    // Never so: what is shown is the whole history up to then, and only grows. No contract tells that here.
    if sight.len() < known.sight().len() {
        return Err(Gone);
    }
    known.sight().begins(&sight);
    known.look(sight, task, state);
    Ok(state)
}
