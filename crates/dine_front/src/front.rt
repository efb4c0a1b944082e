//! The front of an arbiter: one lock, and the calls that threads make through it.

ghost use Rattle.std.specs.Prelude.{◌≡◌, ◌≢◌, ◌<◌, IfErr, IfOk, OnOk, length};
ghost use Rattle.std.specs.Sync.Mutex.{mutex_guard_value};
ghost use Rattle.dine_table.specs.Calls.{reply_of};
ghost use Rattle.dine_table.specs.History.{IsLegal};
ghost use Rattle.dine_front.specs.Mine.{sum_of_shares};
ghost use Rattle.dine_front.specs.Opening.{CanOpen};
ghost use Rattle.dine_front.specs.Passes.{Acted, AreNew, AreOfOneHistory, HasEntry, Sees, most_passes};
ghost use Rattle.dine_front.specs.UnderLock.{table_kept};
ghost use Rattle.dine_front.specs.Verdicts.{IsVerdict, UnlessMissing};

use crate::closing::{are_of_one_history, gather, verdict_over};
use crate::front_fault::{FrontFault, OpenFault};
use crate::locked::Locked;
use crate::naming::Naming;
use crate::opening::{Opened, hand_out, opened_hall};
use crate::pass::Pass;
use crate::shown::{Event, Shown};
use crate::turns::Turns;
use crate::verdict::Closed;
use dine_journal::Answer;
use dine_words::{Call, Entry, Limits, Refusal, Reply, Task};
use left_right::Absorb;
use std::alloc::Global;
use std::hint::spin_loop;
use std::marker::Model;
use std::sync::ledger::Blank;
use std::sync::{Mutex, MutexGuard, Wait};

// So often whoever finds the lock taken tries again before it sleeps, in some hundred microseconds.
const TRIES: u32 = 20;

// So long it pauses before the second try. Each pause is twice as long as the one before, up to the longest: several
// calls then go by on the processor that has their memory at hand, where each would wait for it if all who wait kept
// asking for the lock.
const FIRST_PAUSE: u32 = 20;

// The longest pause.
const LONGEST_PAUSE: u32 = 640;

/// An arbiter for many threads: a hall under one lock. Each thread calls it through a pass of its own.
///
/// Whatever calls threads make, the history kept under the lock is a history of one thread of the table of last meals, and
/// has as many calls as the threads' shares together. [`Front::close`] hands it out, and says so in its clauses
/// `history_of_one_thread` and `sum_of_the_shares`. What that table answers is told by the laws of `dine_table`: a hungry
/// task begins exactly where no neighbour eats and no hungry neighbour's last meal is earlier, and a refused call changes
/// nothing but the history.
pub struct Front<J: Naming>
where
    Shown<J>: Absorb<Event<J>, State = [Entry; 0]>,
{
    locked: Mutex<Locked<J>>,
    turns: Turns,
    limits: Limits,
    passes: u32,
}

impl<J: Naming> Model for Front<J>
where
    Shown<J>: Absorb<Event<J>, State = [Entry; 0]>,
{
    ghost use Rattle.std.specs.Prelude.{◌≡◌, ◌≤◌};
    ghost use Rattle.dine_front.specs.Passes.{Front as Terms, most_passes};

    ghost Value = { Terms };

    ghost view = { λ front. record { limits = front.limits; passes = front.passes } };

    ghost invariant = { λ front. (front.limits ≡ J.limits)
        × (front.passes ≡ J.passes) × (front.passes ≤ most_passes) };
}

impl<J: Naming> Front<J> {
    /// Opens a front with no entry, and gives its passes, numbered from 0.
    ///
    /// `Memory` is answered where there is none for the table or for the passes, and `NoPlace` where a pass would have
    /// no place to look from. Either spends the ledger and what the front was to be opened from. The caller picks the
    /// name of the front: see [`Naming`].
    pub fn open<R: Wait>(
        rt: &R,
        alloc: Global,
        ledger: Blank,
        opened: Opened,
    ) -> Result<(Self, Vec<Pass<J>>), OpenFault>
        requires { CanOpen J.name J.parts J.limits J.passes J.book ledger opened }
        ensures fault { IfErr result (λ fault. fault ≢ OpenFault.Count) }
        ensures limits { IfOk result (λ front. front.0.limits ≡ opened.limits) }
        ensures passes { IfOk result (λ front. front.0.passes ≡ opened.passes) }
        ensures new { IfOk result (λ front. AreNew opened.passes front.1.items) }
    {
        let places = opened.places();
        let Opened {
            limits,
            passes,
            has_looks: _,
            book,
        } = opened;
        let Ok((hall, published)) = opened_hall(rt, alloc, limits, book, places) else {
            return Err(OpenFault::Memory);
        };
        let (total, mut rest) = ledger.open::<J>();
        match hand_out(alloc, &mut rest, passes, &published) {
            Ok(handed) => {
                let front = Front {
                    locked: Mutex::new(Locked::new(hall, total, rest, published)),
                    turns: Turns::new(),
                    limits,
                    passes,
                };
                Ok((front, handed))
            }
            Err(fault) => {
                published.end(rt);
                Err(fault)
            }
        }
    }

    /// Makes a call, which gets one entry of the history, refused or not. It waits for the lock alone, whether or not the
    /// front is stopped. Those whose turn has come by it are told, and the processor is let go for them.
    ///
    /// The one fault is `Memory`: the call was not made then, and is in no history and no share. The pass has to be of
    /// this front.
    #[inline(always)]
    pub fn act<R: Wait>(&self, rt: &R, pass: &mut Pass<J>, call: Call) -> Result<Answer, FrontFault>
        ensures done { IfOk result (λ answer. Acted pass.old call answer pass.new) }
        ensures sees { OnOk result (Sees J.limits pass.old pass.new) }
        ensures entry { IfOk result (λ answer. HasEntry pass.new call answer) }
        ensures fault { IfErr result (λ fault. fault ≡ FrontFault.Memory) }
        ensures unchanged { IfErr result (λ _. pass.new ≡ pass.old) }
    {
        let locked = self.take_lock(rt);
        let reply = locked.reply_to(call);
        self.act_answered(rt, locked, pass, call, reply)
    }

    /// Waits while a `Begin` of the task would be answered `NotYet`, and then makes that call once. Waiting adds no entry.
    ///
    /// `Stopped` is answered where it would have to wait and the front is stopped, and else `Memory` as by
    /// [`Front::act`]. The call was not made then, and is in no history and no share. The pass has to be of this front.
    #[inline(always)]
    pub fn begin_in_turn<R: Wait>(
        &self,
        rt: &R,
        pass: &mut Pass<J>,
        task: Task,
    ) -> Result<Answer, FrontFault>
        ensures done { IfOk result (λ answer. Acted pass.old (Call.Begin task) answer pass.new) }
        ensures sees { OnOk result (Sees J.limits pass.old pass.new) }
        ensures entry { IfOk result (λ answer. HasEntry pass.new (Call.Begin task) answer) }
        ensures granted { IfOk result (λ answer. answer.reply ≢ Reply.Refused Refusal.NotYet) }
        ensures unchanged { IfErr result (λ _. pass.new ≡ pass.old) }
    {
        let begin = Call::Begin(task);
        let mut locked = self.take_lock(rt);
        let mut reply = locked.reply_to(begin);
        if reply == Reply::Refused(Refusal::NotYet) {
            locked = self.wait_for_turn(rt, locked, pass.index(), task)?;
            reply = locked.reply_to(begin);
        }
        self.act_answered(rt, locked, pass, begin, reply)
    }

    /// Stops the front for good, and tells those who wait. It makes no entry, and all other calls go on as before.
    pub fn stop<R: Wait>(&self, rt: &R) {
        let mut locked = self.locked.lock(rt);
        locked.stop();
        MutexGuard::unlock(locked);
        self.turns.tell_all();
    }

    /// Ends the front. It hands out the journal, whatever the verdict, and says how the receipts of the passes stand to it.
    /// It takes no memory.
    ///
    /// The passes may come in any order, and have to be of this front. Unless one is missing, the journal has as many
    /// entries as their shares together. What passes have seen and the journal are beginnings of one list: of two of them
    /// the shorter begins the longer, as `who_has_seen_less_has_seen_a_beginning` says.
    pub fn close<R: Wait>(self, rt: &R, passes: Vec<Pass<J>>) -> Closed
        ensures limits { result.journal.limits ≡ self.limits }
        ensures history_of_one_thread { IsLegal result.journal.limits result.journal.entries }
        ensures verdict { IsVerdict self.passes passes.items result.journal.entries result.verdict }
        ensures sum_of_the_shares { UnlessMissing result.verdict
            (length result.journal.entries ≡ sum_of_shares passes.items) }
        ensures one_history { AreOfOneHistory result.journal.entries passes.items }
    {
        let Front {
            locked,
            turns: _,
            limits: _,
            passes: count,
        } = self;
        let Locked {
            hall,
            mut total,
            mut rest,
            published,
            is_stopped: _,
            waiting: _,
        } = locked.into_inner();
        let history = published.sight();
        are_of_one_history(&history, &passes);
        published.end(rt);
        let verdict = verdict_over(&hall.history(), &passes, count);
        gather(&mut rest, passes);
        total.audit(&mut rest);
        Closed {
            journal: hall.into_journal(),
            verdict,
        }
    }

    // Takes the lock. Where another call has it, this one tries a while before it sleeps.
    #[inline(always)]
    fn take_lock<R: Wait>(&self, rt: &R) -> MutexGuard<'_, Locked<J>> {
        match self.locked.try_lock() {
            Some(locked) => locked,
            None => self.wait_for_lock(rt),
        }
    }

    // The same, where another call has it.
    #[inline(never)]
    fn wait_for_lock<R: Wait>(&self, rt: &R) -> MutexGuard<'_, Locked<J>> {
        let mut pause = FIRST_PAUSE;
        for _ in 0..TRIES {
            for _ in 0..pause {
                spin_loop();
            }
            if let Some(locked) = self.locked.try_lock() {
                return locked;
            }
            pause = pause.saturating_mul(2).min(LONGEST_PAUSE);
        }
        self.locked.lock(rt)
    }

    // Lets the lock go where the pass with this number has to wait, and looks a while whether it is told that its turn
    // has come. Then it takes the lock again.
    fn look_for_turn<'f, R: Wait>(
        &'f self,
        rt: &R,
        mut locked: MutexGuard<'f, Locked<J>>,
        number: usize,
        task: Task,
    ) -> MutexGuard<'f, Locked<J>>
        requires { number < most_passes }
    {
        if !locked.has_to_wait(number, task) {
            return locked;
        }
        let told = self.turns.told_so_far(number);
        MutexGuard::unlock(locked);
        self.turns.look(number, told);
        self.take_lock(rt)
    }

    // Lets the lock go until the turn of the task has come, for the pass with this number, and takes it again. The one
    // fault is `Stopped`. It stands apart from the calls that wait for the lock alone.
    #[inline(never)]
    fn wait_for_turn<'f, R: Wait>(
        &'f self,
        rt: &R,
        locked: MutexGuard<'f, Locked<J>>,
        number: usize,
        task: Task,
    ) -> Result<MutexGuard<'f, Locked<J>>, FrontFault>
        requires { number < most_passes }
        ensures granted { IfOk result (λ locked.
            reply_of (table_kept (mutex_guard_value locked)) (Call.Begin task)
            ≢ Reply.Refused Refusal.NotYet) }
        ensures fault { IfErr result (λ fault. fault ≡ FrontFault.Stopped) }
    {
        let locked = self.turns.of(number).wait_while(
            rt,
            self.look_for_turn(rt, locked, number, task),
            |locked| locked.has_to_wait(number, task),
        );
        if locked.waits_in_vain(task) {
            MutexGuard::unlock(locked);
            return Err(FrontFault::Stopped);
        }
        Ok(locked)
    }

    // Makes a call whose reply is known, lets the lock go, and tells those whose turn has come by it. It is compiled
    // into its callers, so that a call whose kind is known there passes through no memory.
    #[inline(always)]
    fn act_answered<R: Wait>(
        &self,
        rt: &R,
        mut locked: MutexGuard<'_, Locked<J>>,
        pass: &mut Pass<J>,
        call: Call,
        reply: Reply,
    ) -> Result<Answer, FrontFault>
        requires { reply ≡ reply_of (table_kept (mutex_guard_value locked)) call }
        ensures done { IfOk result (λ answer. Acted pass.old call answer pass.new) }
        ensures sees { OnOk result (Sees J.limits pass.old pass.new) }
        ensures entry { IfOk result (λ answer. HasEntry pass.new call answer) }
        ensures reply { IfOk result (λ answer. answer.reply ≡ reply) }
        ensures fault { IfErr result (λ fault. fault ≡ FrontFault.Memory) }
        ensures unchanged { IfErr result (λ _. pass.new ≡ pass.old) }
    {
        let made = locked.act_answered(rt, pass, call, reply);
        let ends_waits = match made {
            Ok(answer) => call.may_end_waits(answer.reply),
            Err(_) => false,
        };
        let told = if ends_waits { locked.end_waits() } else { None };
        MutexGuard::unlock(locked);
        if let Some(told) = told {
            self.turns.tell(&told);
        }
        made
    }
}
