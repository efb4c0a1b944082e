//! The seats by slot, and the state of the task at each: questions on them, and changes of one seat.

ghost use Rattle.std.specs.Prelude.{◌≡◌, ◌<◌, ◌^◌, IfOk, IsSome, None, length, map, replicate, slice_index_or, slice_set};
ghost use Rattle.dine_words.specs.declared.task.State.TheVariants.{Thinking};
ghost use Rattle.dine_arbiter.specs.Seats.{first_free, is_sooner_at, is_stamped_before, seat_at, seat_state};
ghost use Rattle.dine_arbiter.specs.Seats.{seats_last, seats_put, stamp_at, stands_before_at, state_at, task_at};
ghost use Rattle.dine_arbiter.specs.Hunger.{hungry_slots, is_hungry};
ghost use Rattle.dine_arbiter.specs.Turns.{states_by};

use dine_forks::SlotSet;
use dine_words::{Diner, State, Task};
use std::alloc::{AllocError, Global};
use std::marker::Model;

/// A task that is present, with the stamp of its last meal: the clock just before the meal ended, or just before the
/// task joined where it never ate.
#[derive(Clone, Copy, Debug, PartialEq, Eq, Hash)]
pub struct Seat {
    pub diner: Diner,
    pub stamp: u64,
}

/// The seats by slot, each free or with its task.
#[derive(Drop)]
pub struct Seats {
    places: Vec<Option<Seat>>,
    // The state of the task at each slot once more, thinking at a free one.
    by_slot: Vec<State>,
    // The slots whose task is hungry, so that a search for one passes over the others.
    hungry: SlotSet,
    // The slots with no task, so that the least is found with no look at the seats.
    free: SlotSet,
}

impl Model for Seats {
    ghost use Rattle.std.specs.Prelude.{List, Option};
    ghost use Rattle.dine_arbiter.specs.declared.seats.Seat.{Seat};
    ghost use Rattle.dine_arbiter.specs.Hunger.{IsTold};

    ghost Value = { List (Option Seat) };

    ghost view = { λ s. s.places.items };

    ghost invariant = { λ s. IsTold s.places.items s.by_slot.items s.hungry s.free };
}

impl Seats {
    /// So many free seats.
    pub fn new(alloc: Global, slots: u32) -> Result<Seats, AllocError>
        ensures { IfOk result (λ seats. seats ≡ replicate slots None) }
    {
        Ok(Seats {
            places: vec![in alloc; None; slots as usize]?,
            by_slot: vec![in alloc; State::Thinking; slots as usize]?,
            hungry: SlotSet::new(alloc, slots)?,
            free: SlotSet::all(alloc, slots)?,
        })
    }

    /// The state of a task, if it is present.
    pub fn state_at(&self, task: Task) -> Option<State>
        ensures { result ≡ state_at self.now task }
    {
        Some(self.seat_at(task)?.diner.state)
    }

    /// The seat at a slot, if a task has it.
    #[inline(always)]
    pub fn get(&self, slot: u32) -> Option<Seat>
        ensures { result ≡ slice_index_or self.now slot None }
    {
        *self.places.get(slot as usize)?
    }

    /// The task at a slot. It is asked for where there is one.
    pub fn task_at(&self, slot: u32) -> Task
        ensures { result ≡ task_at self.now slot }
    {
        self.get(slot)
            .map_or(Task { slot, born: 0 }, |seat| seat.diner.task)
    }

    /// The stamp of the task at a slot. It is asked for where there is one.
    pub fn stamp_at(&self, slot: u32) -> u64
        ensures { result ≡ stamp_at self.now slot }
    {
        match self.places.get(slot as usize) {
            Some(Some(seat)) => seat.stamp,
            _ => 0,
        }
    }

    /// The state of the task at a slot. It is asked for where there is one.
    #[inline]
    pub fn seat_state(&self, slot: u32) -> State
        requires { slot < length self.now }
        ensures { result ≡ seat_state self.now slot }
    {
        self.by_slot[slot as usize]
    }

    /// The state of the task at each slot, the one of slot 0 first. It is asked for where there is one.
    #[inline(always)]
    pub fn states(&self) -> &[State]
        ensures places { length result.now ≡ length self.now }
        ensures states { states_by result.now ≡ seat_state self.now }
    {
        self.by_slot.as_slice()
    }

    /// Whether the last meal of the task at the one slot is sooner than that of the task at the other. A meal in
    /// progress is later than every finished one.
    pub fn is_sooner_at(&self, first: u32, second: u32) -> bool
        requires first { first < length self.now }
        requires second { second < length self.now }
        ensures { result ≡ is_sooner_at self.now first second }
    {
        match (self.places[first as usize], self.places[second as usize]) {
            // Which of the stamps is less follows no rule that a processor could guess, so nothing is decided here.
            (Some(first), Some(second)) => {
                (first.diner.state != State::Eating)
                    & ((second.diner.state == State::Eating) | (first.stamp < second.stamp))
            }
            _ => false,
        }
    }

    // The seat of a task, if it is present: its slot is the seat's place, so nothing but its birth tells it from others.
    #[inline(always)]
    fn seat_at(&self, task: Task) -> Option<Seat>
        ensures { result ≡ seat_at self.now task }
    {
        match self.places.get(task.slot as usize) {
            Some(Some(seat)) if seat.diner.task.born == task.born => Some(*seat),
            _ => None,
        }
    }

    /// Whether the one task stands before the other in the order of last meals. Who isn't present stands behind all.
    pub fn stands_before(&self, first: Task, second: Task) -> bool
        ensures { result ≡ stands_before_at self.now first second }
    {
        is_earlier(self.seat_at(first), self.seat_at(second))
    }

    /// The least slot that no task has, or the number of slots where each has one.
    #[tactic(auto, using(crate::proofs::PassedOver::first_free_member))]
    pub fn first_free(&self) -> u32
        requires { length self.now < 2 ^ 32 }
        ensures { result ≡ first_free self.now }
    {
        self.free.first_from(0)
    }

    /// The slots whose task is hungry.
    #[inline(always)]
    pub fn hungry_slots(&self) -> &SlotSet
        ensures { result.now ≡ hungry_slots self.now }
    {
        &self.hungry
    }

    /// Puts a task that is present into a state. Its stamp stays.
    pub fn set_state(&mut self, task: Task, state: State)
        requires { IsSome (state_at self.old task) }
        ensures { self.new ≡ seats_put state task self.old }
    {
        let seat = self.places[task.slot as usize].as_mut().unwrap();
        seat.diner.state = state;
        put(&mut self.by_slot, &mut self.hungry, task.slot, state);
    }

    /// A task that is present thinks from now on, with the stamp.
    pub fn seat_last(&mut self, task: Task, stamp: u64)
        requires { IsSome (state_at self.old task) }
        ensures { self.new ≡ seats_last task stamp self.old }
    {
        let state = State::Thinking;
        let seat = self.places[task.slot as usize].as_mut().unwrap();
        seat.diner.state = state;
        seat.stamp = stamp;
        put(&mut self.by_slot, &mut self.hungry, task.slot, state);
    }

    /// Seats a task at its slot that is free, thinking, with the stamp: the state there is that of a newcomer already.
    pub fn seat_newcomer(&mut self, task: Task, stamp: u64)
        requires slot { task.slot < length self.old }
        requires free { slice_index_or self.old task.slot None ≡ None }
        ensures { self.new ≡ seats_last task stamp self.old }
    {
        let state = State::Thinking;
        let diner = Diner { task, state };
        self.places[task.slot as usize] = Some(Seat { diner, stamp });
        self.free.remove(task.slot);
    }

    /// Makes the seat at a slot free, whose task thinks: the state there stays.
    pub fn vacate(&mut self, slot: u32)
        requires slot { slot < length self.old }
        requires thinks { seat_state self.old slot ≡ Thinking }
        ensures { self.new ≡ slice_set self.old slot None }
    {
        self.places[slot as usize] = None;
        self.free.insert(slot);
    }
}

/// Whether a seat has a task whose stamp is earlier than that of the seat found so far, if one was found.
#[inline(always)]
pub fn is_earlier(next: Option<Seat>, found: Option<Seat>) -> bool
    ensures { result ≡ is_stamped_before next found }
{
    match (next, found) {
        (Some(seat), Some(best)) => seat.stamp < best.stamp,
        (Some(_), None) => true,
        (None, _) => false,
    }
}

// Puts a state at a slot, and the slot among those of hungry tasks or out of them.
#[inline]
fn put(by_slot: &mut Vec<State>, hungry: &mut SlotSet, slot: u32, state: State)
    requires slot { slot < length by_slot.old.items }
    requires told { hungry.old ≡ map is_hungry by_slot.old.items }
    ensures states { by_slot.new.items ≡ slice_set by_slot.old.items slot state }
    ensures told { hungry.new ≡ map is_hungry by_slot.new.items }
{
    let before = by_slot[slot as usize];
    by_slot[slot as usize] = state;
    // The end of a meal is no change of hunger, and writes nothing more.
    if state == State::Hungry {
        hungry.insert(slot);
    } else if before == State::Hungry {
        hungry.remove(slot);
    }
}
