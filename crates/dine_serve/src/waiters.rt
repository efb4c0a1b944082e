//! The begins that wait, by the slots of their tasks.

ghost use Rattle.std.specs.Prelude.{◌≡◌, if◌then◌else◌, ◌+◌, ◌-◌, ◌<◌, ◌^◌, ◌∷◌, ◌++◌, [], IfNone, IfSome, OnErr, OnOk, drop, length, vec_len, take, true, false};
ghost use Rattle.dine_serve.specs.Queues.{Changes, SameQueues, first_of, queue_at, rows_of};
ghost use Rattle.dine_serve.specs.Waits.{is_noted, taken_back};

use crate::awaits::Await;
use dine_words::Task;
use std::alloc::{AllocError, Global};
use std::collections::VecDeque;
use std::marker::Model;

/// The begins that wait: for each slot a queue, in the order in which they came. Slots behind the last at which anyone
/// waited take no memory.
#[derive(Drop)]
pub struct Waiters {
    alloc: Global,
    queues: Vec<VecDeque<Await, Global>>,
    len: usize,
}

impl Model for Waiters {
    ghost use Rattle.dine_serve.specs.Queues.{Waiters as Queues, rows_of};

    ghost Value = { Queues };

    ghost view = { λ w. record { rows = rows_of w.queues.items; len = w.len } };
}

impl Waiters {
    /// Nobody waits. It takes no memory.
    pub fn new(alloc: Global) -> Waiters
        ensures rows { result.rows ≡ [] }
        ensures len { result.len ≡ 0 }
    {
        Waiters {
            alloc,
            queues: Vec::new(alloc),
            len: 0,
        }
    }

    /// How many wait.
    #[inline(always)]
    pub fn len(&self) -> usize
        ensures { result ≡ self.now.len }
    {
        self.len
    }

    /// The begin at a slot that came first.
    #[inline(always)]
    pub fn first_at(&self, slot: u32) -> Option<Await>
        ensures { result ≡ first_of (queue_at self.now.rows slot) }
    {
        match self.queues.get(slot as usize) {
            Some(queue) => queue.front().copied(),
            None => None,
        }
    }

    /// Notes a begin behind those of its slot. An error is want of memory, and leaves those who wait as they are.
    pub fn note(&mut self, awaited: Await) -> Result<(), AllocError>
        requires { self.old.len < 2 ^ 64 - 1 }
        ensures noted { OnOk result (Changes self.old.rows self.new.rows awaited.task.slot
            (queue_at self.old.rows awaited.task.slot ++ awaited ∷ [])) }
        ensures len { OnOk result (self.new.len ≡ self.old.len + 1) }
        ensures kept { OnErr result (SameQueues self.old.rows self.new.rows) }
        ensures kept_len { OnErr result (self.new.len ≡ self.old.len) }
    {
        push_at(self.alloc, &mut self.queues, awaited)?;
        self.len += 1;
        Ok(())
    }

    /// Takes the begin at a slot out that came first.
    #[inline(always)]
    pub fn take_first(&mut self, slot: u32)
        requires some { 0 < self.old.len }
        ensures taken { Changes self.old.rows self.new.rows slot
            (drop 1 (queue_at self.old.rows slot)) }
        ensures len { self.new.len ≡ self.old.len - 1 }
    {
        pop_at(&mut self.queues, slot as usize);
        self.len -= 1;
    }

    /// Takes the first begin of a task back that a pass asked for, and tells whether there was one.
    pub fn take_back(&mut self, pass: u32, task: Task) -> bool
        requires { is_noted pass task (queue_at self.old.rows task.slot) ≡ true →
            0 < self.old.len }
        ensures found { result ≡ is_noted pass task (queue_at self.old.rows task.slot) }
        ensures left { Changes self.old.rows self.new.rows task.slot
            (taken_back pass task (queue_at self.old.rows task.slot)) }
        ensures len { self.new.len ≡ (if result then self.old.len - 1 else self.old.len) }
    {
        let was_noted = remove_at(&mut self.queues, pass, task);
        if was_noted {
            self.len -= 1;
        }
        was_noted
    }
}

// Puts a begin behind those of its slot.
fn push_at(
    alloc: Global,
    queues: &mut Vec<VecDeque<Await, Global>>,
    awaited: Await,
) -> Result<(), AllocError>
    ensures noted { OnOk result (Changes (rows_of queues.old.items) (rows_of queues.new.items)
        awaited.task.slot
        (queue_at (rows_of queues.old.items) awaited.task.slot ++ awaited ∷ [])) }
    ensures kept { OnErr result
        (SameQueues (rows_of queues.old.items) (rows_of queues.new.items)) }
{
    let slot = awaited.task.slot as usize;
    while queues.len() <= slot {
        queues.push(VecDeque::new(alloc))?;
    }
    make_room(alloc, queues, slot)?;
    queues[slot].push_back(awaited)?;
    Ok(())
}

// Room for one begin at a slot that never had one: most tasks are awaited once at a time.
fn make_room(
    alloc: Global,
    queues: &mut Vec<VecDeque<Await, Global>>,
    slot: usize,
) -> Result<(), AllocError>
    requires { slot < vec_len queues.old }
    ensures same { SameQueues (rows_of queues.old.items) (rows_of queues.new.items) }
    ensures len { vec_len queues.new ≡ vec_len queues.old }
{
    if queues[slot].capacity() == 0 {
        queues[slot] = VecDeque::with_capacity(alloc, 1)?;
    }
    Ok(())
}

// Takes the begin at a slot out that came first.
#[inline(always)]
fn pop_at(queues: &mut Vec<VecDeque<Await, Global>>, slot: usize)
    ensures { Changes (rows_of queues.old.items) (rows_of queues.new.items) slot
        (drop 1 (queue_at (rows_of queues.old.items) slot)) }
{
    if queues.len() <= slot {
        return;
    }
    queues[slot].pop_front();
}

// Takes the first begin of a task out that a pass asked for, and tells whether there was one.
fn remove_at(queues: &mut Vec<VecDeque<Await, Global>>, pass: u32, task: Task) -> bool
    ensures found { result ≡ is_noted pass task
        (queue_at (rows_of queues.old.items) task.slot) }
    ensures left { Changes (rows_of queues.old.items) (rows_of queues.new.items) task.slot
        (taken_back pass task (queue_at (rows_of queues.old.items) task.slot)) }
{
    let slot = task.slot as usize;
    if queues.len() <= slot {
        return false;
    }
    let Some(place) = place_asked(&queues[slot], pass, task) else {
        return false;
    };
    queues[slot].remove(place);
    true
}

// The place of the first begin of a task that a pass asked for.
fn place_asked(queue: &VecDeque<Await, Global>, pass: u32, task: Task) -> Option<usize>
    ensures bound { IfSome result (λ place. place < length queue.now.items) }
    ensures found { IfSome result (λ place. is_noted pass task queue.now.items ≡ true) }
    ensures left { IfSome result (λ place. taken_back pass task queue.now.items
        ≡ take place queue.now.items ++ drop (place + 1) queue.now.items) }
    ensures none { IfNone result (is_noted pass task queue.now.items ≡ false) }
    ensures all { IfNone result (taken_back pass task queue.now.items ≡ queue.now.items) }
{
    let mut place = 0;
    while let Some(awaited) = queue.get(place) {
        if awaited.pass == pass && task == awaited.task {
            return Some(place);
        }
        place += 1;
    }
    None
}
