//! What lies under the lock of a front.

ghost use Rattle.std.specs.Prelude.{◌≡◌, ◌+◌, ◌<◌, ◌↔◌, ◌++◌, ◌∷◌, [], if◌then◌else◌, IfErr, IfOk, IsFalse, IsTrue, None, OnErr, OnOk, Some, length, map, vec_capacity, vec_len};
ghost use Rattle.dine_table.specs.Calls.{reply_of};
ghost use Rattle.dine_front.specs.Passes.{Acted, HasEntry, Sees, most_passes};
ghost use Rattle.dine_front.specs.UnderLock.{noted_if, table_kept, with_waiting};
ghost use Rattle.dine_front.specs.Waits.{has_turn, nobody_waits, somebody_waits, still_awaited};

use crate::front_fault::FrontFault;
use crate::naming::Naming;
use crate::pass::Pass;
use crate::published::Published;
use crate::shown::{Event, Shown};
use crate::waiting::{Told, Waiting};
use dine_journal::{Answer, Aside, FlatReceipt, Hall};
use dine_words::{Call, Entry, Refusal, Reply, Task};
use left_right::Absorb;
use std::alloc::AllocError;
use std::marker::Model;
use std::sync::Wait;
use std::sync::ledger::{Book, Share};

/// The hall, the total of the ledger that counts its history, the share that no pass has, the book that the history is
/// written in and that looks read, whether the front is stopped, and who waits for which task. Contracts see the
/// limits, the history, the mark of stop and who waits.
pub(crate) struct Locked<J: Naming>
where
    Shown<J>: Absorb<Event<J>, State = [Entry; 0]>,
{
    pub(crate) hall: Hall,
    pub(crate) total: Book<J>,
    pub(crate) rest: Share<J>,
    pub(crate) published: Published<J>,
    pub(crate) is_stopped: bool,
    pub(crate) waiting: Waiting,
}

impl<J: Naming> Model for Locked<J>
where
    Shown<J>: Absorb<Event<J>, State = [Entry; 0]>,
{
    ghost use Rattle.std.specs.Prelude.{◌≡◌};
    ghost use Rattle.dine_front.specs.UnderLock.{CountsHistory, Locked as Guarded};

    ghost Value = { Guarded };

    ghost view = { λ locked. record {
      limits = locked.hall.limits;
      history = locked.hall.history;
      is_stopped = locked.is_stopped;
      waiting = locked.waiting;
    } };

    // What is published is the history.
    ghost invariant = { λ locked. CountsHistory J.limits J.passes J.parts
        locked.hall locked.total.total locked.rest.parts locked.rest.amount
        × (locked.published ≡ locked.hall.history) };
}

impl<J: Naming> Locked<J> {
    // What lies under the lock of a front that nobody called yet.
    pub(crate) fn new(hall: Hall, total: Book<J>, rest: Share<J>, published: Published<J>) -> Self
        requires hall { (hall.limits ≡ J.limits) × (hall.history ≡ []) }
        requires total { total.total ≡ 0 }
        requires rest { (rest.parts + J.passes ≡ J.parts) × (rest.amount ≡ 0) }
        requires published { published ≡ [] }
        ensures history { result.history ≡ [] }
        ensures open { IsFalse result.is_stopped }
        ensures waiting { result.waiting ≡ nobody_waits }
    {
        Locked {
            hall,
            total,
            rest,
            published,
            is_stopped: false,
            waiting: Waiting::nobody(),
        }
    }

    /// Makes a call of a pass, whose reply is known. Room for the entry and for the receipt is made first, so an error,
    /// which is want of memory, leaves all as it was. The pass has then seen the whole history.
    #[inline(always)]
    pub(crate) fn act_answered<R: Wait>(
        &mut self,
        rt: &R,
        pass: &mut Pass<J>,
        call: Call,
        reply: Reply,
    ) -> Result<Answer, FrontFault>
        requires { reply ≡ reply_of (table_kept self.old) call }
        ensures limits { self.new.limits ≡ self.old.limits }
        ensures stopped { self.new.is_stopped ≡ self.old.is_stopped }
        ensures waiting { self.new.waiting ≡ self.old.waiting }
        ensures entry { IfOk result (λ answer. self.new.history ≡
            self.old.history
            ++ record { pass = pass.old.number; call = call; reply = answer.reply } ∷ []) }
        ensures place { IfOk result (λ answer. answer.place ≡ length self.old.history) }
        ensures reply { IfOk result (λ answer. answer.reply ≡ reply) }
        ensures pass { IfOk result (λ answer. Acted pass.old call answer pass.new) }
        ensures seen { OnOk result (pass.new.seen ≡ self.new.history) }
        ensures sees { OnOk result (Sees J.limits pass.old pass.new) }
        ensures stands { IfOk result (λ answer. HasEntry pass.new call answer) }
        ensures fault { IfErr result (λ fault. fault ≡ FrontFault.Memory) }
        ensures err { OnErr result (self.new.history ≡ self.old.history) }
        ensures err_pass { OnErr result (pass.new ≡ pass.old) }
    {
        let Locked {
            hall,
            total,
            published,
            ..
        } = self;
        make_room(hall, &mut pass.receipts)?;
        let aside = Aside::new(pass.alloc, call)?;
        let entry = Entry {
            pass: pass.number,
            call,
            reply,
        };
        let sight = published.write(rt, pass.known.sight(), entry)?;
        let answer = hall.act_answered(entry);
        total.add(&mut pass.share, 1);
        let receipt = FlatReceipt::new(pass.number, call, answer, aside);
        pass.receipts.push_reserved(receipt);
        pass.known.see(sight);
        Ok(answer)
    }

    /// The reply that the call would get now.
    #[inline(always)]
    pub(crate) fn reply_to(&self, call: Call) -> Reply
        ensures { result ≡ reply_of (table_kept self.now) call }
    {
        self.hall.reply_to(call)
    }

    /// Whether a `Begin` of the task would be answered `NotYet` now.
    pub(crate) fn would_wait(&self, task: Task) -> bool
        ensures { IsTrue result ↔
            (reply_of (table_kept self.now) (Call.Begin task) ≡ Reply.Refused Refusal.NotYet) }
    {
        self.hall.would_wait(task)
    }

    /// Whether the front was stopped before the turn of the task came: a `Begin` would still be answered `NotYet`. A turn
    /// that came first is no less a turn.
    pub(crate) fn waits_in_vain(&self, task: Task) -> bool
        ensures { IsTrue result ↔ (IsTrue self.now.is_stopped
            × (reply_of (table_kept self.now) (Call.Begin task) ≡ Reply.Refused Refusal.NotYet)) }
    {
        self.is_stopped && self.would_wait(task)
    }

    /// Whether the pass with this number has to wait to begin the task: a `Begin` would be answered `NotYet`, and the front
    /// isn't stopped. It is noted then that it waits for the task.
    pub(crate) fn has_to_wait(&mut self, number: usize, task: Task) -> bool
        requires { number < most_passes }
        ensures waits { IsTrue result ↔ (IsFalse self.old.is_stopped
            × (reply_of (table_kept self.old) (Call.Begin task) ≡ Reply.Refused Refusal.NotYet)) }
        ensures noted { self.new ≡ noted_if result number task self.old }
    {
        let waits = !self.is_stopped && self.would_wait(task);
        if waits {
            self.waiting.note(number, task);
        }
        waits
    }

    /// The passes whose turn has come, or `None` where nobody waits. They wait no longer, so whoever asks has to tell them.
    pub(crate) fn end_waits(&mut self) -> Option<Told>
        ensures told { result ≡ (if somebody_waits self.old.waiting
            then Some (map (has_turn (table_kept self.old)) self.old.waiting) else None) }
        ensures left { self.new ≡ with_waiting
            (map (still_awaited (table_kept self.old)) self.old.waiting) self.old }
    {
        let Locked { hall, waiting, .. } = self;
        waiting.end(hall)
    }

    /// Stops the front for good. From then on nobody waits, so whoever stops it has to tell all.
    pub(crate) fn stop(&mut self)
        ensures stopped { IsTrue self.new.is_stopped }
        ensures limits { self.new.limits ≡ self.old.limits }
        ensures history { self.new.history ≡ self.old.history }
        ensures waiting { self.new.waiting ≡ nobody_waits }
    {
        self.is_stopped = true;
        self.waiting = Waiting::nobody();
    }
}

// Makes room for one entry more, and for one receipt more.
#[inline(always)]
fn make_room(hall: &mut Hall, receipts: &mut Vec<FlatReceipt>) -> Result<(), AllocError>
    ensures limits { hall.new.limits ≡ hall.old.limits }
    ensures history { hall.new.history ≡ hall.old.history }
    ensures receipts { receipts.new.items ≡ receipts.old.items }
    ensures room { OnOk result (0 < hall.new.room) }
    ensures receipt_room { OnOk result (vec_len receipts.new < vec_capacity receipts.new) }
{
    hall.reserve()?;
    receipts.reserve(1)
}
