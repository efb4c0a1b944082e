//! The arbiter: tasks in their seats, and a book of the forks between them.
//!
//! A task begins to eat by the forks that it holds, and by nothing else. The stamps of the seats, which tell the order of last
//! meals, only say who holds the fork of a new conflict and which of the ready tasks comes first.

#![tactic(auto, using(crate::proofs::Seen::seen))]

ghost use Rattle.std.specs.Prelude.{◌≡◌, ◌<◌, ◌≢◌, ◌-◌, ◌^◌, [], IfOk, IfSome, IsSome, None, Some, if◌then◌else◌, map, option_map};
ghost use Rattle.dine_words.specs.declared.call.Call.TheVariants as call;
ghost use Rattle.dine_words.specs.declared.call.Refusal.TheVariants.{Apart};
ghost use Rattle.dine_words.specs.declared.call.Reply.TheVariants.{Done, Joined, Refused};
ghost use Rattle.dine_table.specs.Table.{is_ready, neighbours_if_present, next_ready_of, opening_table, stands_before, state_of};
ghost use Rattle.dine_table.specs.Calls.{newcomer, refusal_of, reply_of};
ghost use Rattle.dine_table.specs.Sound.{IsSound};
ghost use Rattle.dine_forks.specs.Book.{ends_of, fork_of};
ghost use Rattle.dine_arbiter.specs.Edge.{ForksAgree};
ghost use Rattle.dine_arbiter.specs.Arbitration.{CarriesOut, early_refusal_of, refusal_of_two, slots_of};
ghost use Rattle.dine_arbiter.specs.Hunger.{has_hungry_neighbour};

mod refusals;
mod waiting;

use crate::search::Search;
use crate::seats::{Seat, Seats, is_earlier};
use crate::turn::{Finish, Hunger, Withdrawal};
use crate::walk;
use dine_forks::ForkBook;
use dine_words::{Call, Limits, Refusal, Reply, State, Task};
use std::alloc::{AllocError, Global};
use std::marker::Model;

/// Decides which of the tasks in conflict may eat, by the forks between them.
#[derive(Drop)]
pub struct Arbiter {
    seats: Seats,
    // How many of the seats are taken.
    present: u32,
    book: ForkBook,
    clock: u64,
    limits: Limits,
    // The messages of the last call.
    messages: u32,
}

impl Model for Arbiter {
    ghost use Rattle.dine_arbiter.specs.Arbitration.{Arbiter as Arbitration, IsKeptArbiter, forks_of, table_of};

    ghost Value = { Arbitration };

    ghost view = { λ a. record {
      table = table_of a.seats a.book.records a.clock a.limits;
      forks = forks_of a.book.records;
      messages = a.messages;
    } };

    ghost invariant = { λ a. IsKeptArbiter a.seats a.present a.book a.clock a.limits };
}

impl Arbiter {
    /// An arbiter with nobody present, and room for as many tasks and conflicts as the limits allow.
    ///
    /// All memory is taken here, so no other call can want any but those that list tasks: [`Arbiter::neighbours`],
    /// [`Arbiter::blockers`] and [`Arbiter::ready`]. An error is want of it.
    pub fn new(alloc: Global, limits: Limits) -> Result<Arbiter, AllocError>
        ensures table { IfOk result (λ a. a.table ≡ opening_table limits) }
        ensures forks { IfOk result (λ a. a.forks ≡ []) }
        ensures messages { IfOk result (λ a. a.messages ≡ 0) }
    {
        Ok(Arbiter {
            seats: Seats::new(alloc, limits.tasks)?,
            present: 0,
            book: ForkBook::new(alloc, limits.tasks, limits.conflicts)?,
            clock: 0,
            limits,
            messages: 0,
        })
    }

    /// Carries a call out, or refuses it. The first refusal that applies is answered, and a refused call changes
    /// nothing but [`Arbiter::messages`], which is 0 then.
    ///
    /// The clock is below `u64::MAX`: it counts the joins and finishes that were accepted.
    #[inline(always)]
    pub fn apply(&mut self, call: Call) -> Reply
        requires { self.old.table.clock < 2 ^ 64 - 1 }
        ensures { CarriesOut self.old call result self.new }
    {
        match self.early_refusal_of(call) {
            Some(refusal) => {
                self.messages = 0;
                Reply::Refused(refusal)
            }
            None => self.accept(call),
        }
    }

    /// Carries a call out whose reply is known: [`Arbiter::reply_to`] gave it, and no call was made since. It does what
    /// [`Arbiter::apply`] does, and decides nothing again.
    #[inline(always)]
    pub fn apply_answered(&mut self, call: Call, reply: Reply)
        requires clock { self.old.table.clock < 2 ^ 64 - 1 }
        requires reply { reply ≡ reply_of self.old.table call }
        ensures { CarriesOut self.old call reply self.new }
    {
        match reply {
            Reply::Refused(_) => self.messages = 0,
            Reply::Joined(_) | Reply::Done => {
                self.accept(call);
            }
        }
    }

    /// The reply that [`Arbiter::apply`] would give.
    #[inline(always)]
    pub fn reply_to(&self, call: Call) -> Reply
        ensures { result ≡ reply_of self.now.table call }
    {
        match (self.refusal_of(call), call) {
            (Some(refusal), _) => Reply::Refused(refusal),
            (None, Call::Join) => Reply::Joined(self.newcomer()),
            (None, _) => Reply::Done,
        }
    }

    /// The state of a task, or `None` where it isn't present.
    pub fn state(&self, task: Task) -> Option<State>
        ensures { result ≡ state_of self.now.table task }
    {
        self.seats.state_at(task)
    }

    /// Whether the task is hungry and holds all of its forks, so that it may begin to eat.
    #[inline(always)]
    pub fn is_ready(&self, task: Task) -> bool
        ensures { result ≡ is_ready self.now.table task }
    {
        match self.state(task) {
            Some(State::Hungry) => self.book.holds_all(task.slot),
            _ => false,
        }
    }

    /// The ready task whose last meal is the earliest, or `None` where nobody is ready. Where a task is hungry and nobody
    /// eats, somebody is ready.
    pub fn next_ready(&self) -> Option<Task>
        ensures next { result ≡ next_ready_of self.now.table }
        ensures somebody { (u : Task) → state_of self.now.table u ≡ Some State.Hungry →
            ((v : Task) → state_of self.now.table v ≢ Some State.Eating) → IsSome result }
    {
        let seats = &self.seats;
        let book = &self.book;
        let hungry = seats.hungry_slots();
        let mut search = Search::new(hungry);
        let mut earliest: Option<Seat> = None;
        // No seat is looked at but those of tasks that are ready.
        while let Some(slot) = search.next(hungry, book) {
            let seat = seats.get(slot);
            if is_earlier(seat, earliest) {
                earliest = seat;
            }
        }
        Some(earliest?.diner.task)
    }

    /// Whether the one task stands before the other in the order of last meals, the earliest first. Who isn't present stands
    /// before nobody, and behind all who are.
    pub fn stands_before(&self, first: Task, second: Task) -> bool
        ensures { result ≡ stands_before self.now.table.order first second }
    {
        self.seats.stands_before(first, second)
    }

    /// Whether a task is in conflict with one that is hungry. `false` for a task that isn't present.
    pub fn has_hungry_neighbour(&self, task: Task) -> bool
        ensures { result ≡ has_hungry_neighbour self.now.table task }
    {
        let seats = &self.seats;
        let book = &self.book;
        // No walk is made where nobody at all is hungry.
        if self.state(task).is_none() || book.len() == 0 || seats.hungry_slots().word_marks() == 0 {
            return false;
        }
        let mut next = book.first_of(task.slot);
        while let Some(id) = next {
            let visit = book.visit(task.slot, id);
            if seats.seat_state(visit.other) == State::Hungry {
                return true;
            }
            next = visit.next;
        }
        false
    }

    /// The task at a slot, or `None` where nobody sits there. It takes no memory, and looks at one seat.
    ///
    /// This project's own: a caller that walks the book, which tells slots alone, finds the tasks by it.
    pub fn task_at(&self, slot: u32) -> Option<Task>
        ensures seated { IfSome result (λ u.
            (u.slot ≡ slot) × IsSome (state_of self.now.table u)) }
        ensures found { (u : Task) → u.slot ≡ slot → IsSome (state_of self.now.table u) →
            result ≡ Some u }
    {
        Some(self.seats.get(slot)?.diner.task)
    }

    /// How many joins and finishes were accepted.
    pub fn clock(&self) -> u64
        ensures { result ≡ self.now.table.clock }
    {
        self.clock
    }

    /// The limits that the arbiter was made with.
    pub fn limits(&self) -> Limits
        ensures { result ≡ self.now.table.limits }
    {
        self.limits
    }

    /// How many tokens and forks were sent in the last call of [`Arbiter::apply`], 0 before the first.
    ///
    /// With d conflicts of its task these are at most 3 d for a call of `Hungry`, d for one of `Finish` and 2 d for one of
    /// `Withdraw`, at most 3 for a new conflict, and none for any other call.
    pub fn messages(&self) -> u32
        ensures { result ≡ self.now.messages }
    {
        self.messages
    }

    /// The tasks that a task is in conflict with, in the order in which the conflicts were declared, or `None` where
    /// it isn't present. An error is want of memory for the list.
    pub fn neighbours(&self, alloc: Global, task: Task) -> Result<Option<Vec<Task>>, AllocError>
        ensures { IfOk result (λ found.
            option_map (λ tasks. tasks.items) found ≡ neighbours_if_present self.now.table task) }
    {
        match self.state(task) {
            Some(_) => Ok(Some(walk::tasks_around(
                alloc,
                &self.seats,
                &self.book,
                task.slot,
                false,
            )?)),
            None => Ok(None),
        }
    }

    /// The book of forks: one record for each conflict, in the order in which they were declared, between the slots of
    /// the two tasks.
    pub fn book(&self) -> &ForkBook
        ensures slots { result.now.slots ≡ self.now.table.limits.tasks }
        ensures room { result.now.room ≡ self.now.table.limits.conflicts }
        ensures sound { IsSound self.now.table }
        ensures ends { map ends_of result.now.records ≡ map slots_of self.now.table.conflicts }
        ensures forks { map fork_of result.now.records ≡ self.now.forks }
        ensures agree { ForksAgree self.now.table self.now.forks }
    {
        &self.book
    }

    // Carries out a call that nothing speaks against, or refuses to end a conflict that isn't there.
    #[inline(always)]
    fn accept(&mut self, call: Call) -> Reply
        requires accepted { early_refusal_of self.old.table call ≡ None }
        requires clock { self.old.table.clock < 2 ^ 64 - 1 }
        ensures { CarriesOut self.old call result self.new }
    {
        match call {
            Call::Join => return Reply::Joined(self.join()),
            Call::Leave(task) => self.leave(task),
            Call::Conflict(first, second) => self.conflict(first, second),
            Call::Separate(first, second) => {
                if !self.separate(first, second) {
                    return Reply::Refused(Refusal::Apart);
                }
            }
            Call::Hungry(task) => self.grow_hungry(task),
            Call::Begin(task) => self.begin(task),
            Call::Finish(task) => self.finish(task),
            Call::Withdraw(task) => self.withdraw(task),
        }
        Reply::Done
    }

    // A new task is seated at the least free slot, and counts as having eaten last.
    fn join(&mut self) -> Task
        requires accepted { refusal_of self.old.table call.Join ≡ None }
        requires clock { self.old.table.clock < 2 ^ 64 - 1 }
        ensures task { result ≡ newcomer self.old.table }
        ensures done { CarriesOut self.old call.Join (Joined result) self.new }
    {
        let newcomer = self.newcomer();
        self.seats.seat_newcomer(newcomer, self.clock);
        self.present += 1;
        self.clock += 1;
        self.messages = 0;
        newcomer
    }

    // A thinking task leaves its seat, and its conflicts end.
    fn leave(&mut self, task: Task)
        requires accepted { refusal_of self.old.table (call.Leave task) ≡ None }
        ensures { CarriesOut self.old (call.Leave task) Done self.new }
    {
        walk::unlink_around(&mut self.book, task.slot);
        self.seats.vacate(task.slot);
        self.present -= 1;
        self.messages = 0;
    }

    // The two tasks never eat at the same time from now on.
    fn conflict(&mut self, first: Task, second: Task)
        requires accepted { refusal_of self.old.table (call.Conflict first second) ≡ None }
        ensures { CarriesOut self.old (call.Conflict first second) Done self.new }
    {
        self.messages = walk::link_between(&self.seats, &mut self.book, first.slot, second.slot);
    }

    // The conflict of two tasks ends, and its fork is gone. Where there is none, that is refused, and `false` is answered.
    fn separate(&mut self, first: Task, second: Task) -> bool
        requires able { refusal_of_two self.old.table first second ≡ None }
        ensures { CarriesOut self.old (call.Separate first second)
            (if result then Done else Refused Apart) self.new }
    {
        let was_there = walk::unlink_between(&mut self.book, first.slot, second.slot);
        self.messages = 0;
        was_there
    }

    // A thinking task is hungry from now on, and asks for the forks that it lacks.
    fn grow_hungry(&mut self, task: Task)
        requires accepted { refusal_of self.old.table (call.Hungry task) ≡ None }
        ensures { CarriesOut self.old (call.Hungry task) Done self.new }
    {
        self.seats.set_state(task, State::Hungry);
        // It was thinking, and its edges were at rest: so nothing is to be sent for a fork that it has.
        let by_slot = self.seats.states();
        let before = self.book.count(task.slot);
        self.book.walk(task.slot, &Hunger { by_slot });
        let after = self.book.count(task.slot);
        // A token goes for each fork that was lacked, a fork comes for each that isn't any more, and the token with it for each
        // that is asked for now.
        self.messages = 2 * before.lacked + after.asked - after.lacked - before.asked;
    }

    // A hungry task that holds all of its forks eats, and they get dirty.
    fn begin(&mut self, task: Task)
        requires accepted { refusal_of self.old.table (call.Begin task) ≡ None }
        ensures { CarriesOut self.old (call.Begin task) Done self.new }
    {
        self.seats.set_state(task, State::Eating);
        self.book.take_in_use(task.slot);
        self.messages = 0;
    }

    // An eating task thinks again, has eaten last, and gives up the forks that were asked for.
    fn finish(&mut self, task: Task)
        requires accepted { refusal_of self.old.table (call.Finish task) ≡ None }
        requires clock { self.old.table.clock < 2 ^ 64 - 1 }
        ensures { CarriesOut self.old (call.Finish task) Done self.new }
    {
        self.seats.seat_last(task, self.clock);
        self.clock += 1;
        // It was eating, with all of its forks dirty: so those that nobody asked for stay.
        let by_slot = self.seats.states();
        self.messages = self.book.count(task.slot).asked;
        self.book.walk(task.slot, &Finish { by_slot });
    }

    // A hungry task thinks again without a meal, and gives back its clean forks and the tokens that it sent. It is built apart:
    // few calls are withdrawals, and the others are shorter without it.
    #[inline(never)]
    fn withdraw(&mut self, task: Task)
        requires accepted { refusal_of self.old.table (call.Withdraw task) ≡ None }
        ensures { CarriesOut self.old (call.Withdraw task) Done self.new }
    {
        self.seats.set_state(task, State::Thinking);
        let before = self.book.count(task.slot);
        self.book.walk(task.slot, &Withdrawal);
        let after = self.book.count(task.slot);
        // A token comes back for each fork that was lacked. A fork goes for each that is lacked more, and its token comes where
        // the slot hadn't it.
        self.messages = 2 * after.lacked + after.asked - before.lacked - before.asked;
    }
}
