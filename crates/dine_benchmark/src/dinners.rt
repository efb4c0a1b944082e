//! Tasks that eat by turns, and come and go: what they ask for, drawn by a seed, as the lines of a script or of a service.
//!
//! An arbiter goes along, so that the lines are those of users who heed what they are answered.

use crate::graph::Graph;
use dine_arbiter::Arbiter;
use dine_words::{Call, CallOnTwo, Limits, Refusal, Reply, State, Task, push_number};
use std::alloc::{AllocError, Global};
use tests_kit::Draw;

/// What is written of what the tasks ask for.
#[derive(Clone, Copy, Debug, PartialEq, Eq)]
pub enum Form {
    /// The lines of a script.
    Script,
    /// The requests of a service, whose clients wait for their turn.
    Requests,
    /// The same with numbers.
    Numbered,
}

/// How the tasks behave. Each number is of so many steps, of which one is such; 0 is none.
#[derive(Clone, Copy)]
pub struct Habits {
    /// A task that thinks leaves, and another takes its place, with the same conflicts.
    pub leaves: usize,
    /// A conflict ends, and is declared again.
    pub separates: usize,
    /// Somebody asks a question.
    pub asks: usize,
    /// A task that has to wait asks to begin nevertheless.
    pub polls: usize,
    /// A task that waits gives its hunger up.
    pub withdraws: usize,
    /// A line has a fault, or is written in a strange way.
    pub errs: usize,
    /// Of four tasks that think and could grow hungry so many do.
    pub hunger: usize,
}

/// Dinners, with nothing but meals.
pub const MEALS: Habits = Habits {
    leaves: 0,
    separates: 0,
    asks: 0,
    polls: 0,
    withdraws: 0,
    errs: 0,
    hunger: 3,
};

/// Meals of tasks that are hungry nearly always.
pub const HUNGRY: Habits = Habits { hunger: 4, ..MEALS };

/// How far dinners go on.
#[derive(Clone, Copy)]
pub enum Until {
    /// About so many lines were written.
    Lines(usize),
    /// About so many lines more were written.
    More(usize),
}

// Who sits at a place.
#[derive(Clone, Copy)]
struct Guest {
    task: Task,
    // Which of all who joined it is.
    serial: u64,
    // Whether its client waits for the begin.
    waits: bool,
}

// Where lines with a fault come from.
const ODD_LINES: [&[u8]; 6] = [
    b"begin nobody\n",
    b"hungry t0 t1\n",
    b"# a remark on what is done here, of some length, as people write them\n",
    b"finish\n",
    b"eat t0\n",
    b"\n",
];

/// A table at which tasks eat, and the text of what they ask for.
#[derive(Drop)]
pub struct Dinners {
    form: Form,
    habits: Habits,
    draw: Draw,
    arbiter: Arbiter,
    graph: Graph,
    guests: Vec<Guest>,
    eaters: Vec<u32>,
    joined: u64,
    // How many lines were written.
    lines: usize,
    /// The lines.
    pub text: Vec<u8>,
}

impl Dinners {
    /// A table whose tasks have joined and whose conflicts are declared.
    pub fn open(
        alloc: Global,
        form: Form,
        habits: Habits,
        limits: Limits,
        graph: Graph,
        seed: u64,
    ) -> Result<Self, AllocError> {
        let mut dinners = Dinners {
            form,
            habits,
            draw: Draw { state: seed },
            arbiter: Arbiter::new(alloc, limits)?,
            graph,
            guests: Vec::new(alloc),
            eaters: Vec::new(alloc),
            joined: 0,
            lines: 0,
            text: Vec::new(alloc),
        };
        for _ in 0..dinners.graph.neighbours.len() {
            let guest = dinners.join()?;
            dinners.guests.push(guest)?;
        }
        for at in 0..dinners.graph.pairs.len() {
            if let Some((first, second)) = dinners.graph.pairs.get(at).copied() {
                dinners.call_on_two(CallOnTwo::Conflict, first, second)?;
            }
        }
        Ok(dinners)
    }

    /// Goes on until that.
    pub fn go_on(&mut self, until: Until) -> Result<(), AllocError> {
        let lines = match until {
            Until::Lines(lines) => lines,
            Until::More(lines) => self.lines.saturating_add(lines),
        };
        for _ in 0..lines.saturating_mul(8) {
            if lines <= self.lines {
                break;
            }
            self.step()?;
        }
        Ok(())
    }

    /// All tasks grow hungry, as far as they think.
    pub fn all_grow_hungry(&mut self) -> Result<(), AllocError> {
        for place in 0..self.guests.len() as u64 {
            self.grow_hungry((place & 0xffff) as u32)?;
        }
        Ok(())
    }

    // Whether something that one step in so many does is done at this one.
    fn happens(&mut self, of: usize) -> bool {
        of != 0 && self.draw.below(of) == 0
    }

    // Who sits at a place.
    fn guest(&self, place: u32) -> Option<Guest> {
        self.guests.get(place as usize).copied()
    }

    // A place that is drawn.
    fn any_place(&mut self) -> u32 {
        (self.draw.below(self.guests.len()) & 0xffff) as u32
    }

    // The reply to a call.
    fn reply(&mut self, call: Call) -> Reply {
        if self.arbiter.clock() < u64::MAX {
            self.arbiter.apply(call)
        } else {
            Reply::Refused(Refusal::Full)
        }
    }

    // One thing that happens.
    fn step(&mut self) -> Result<(), AllocError> {
        let habits = self.habits;
        if self.happens(habits.errs) {
            return self.push_odd_line();
        }
        if self.happens(habits.asks) {
            return self.ask();
        }
        if self.happens(habits.leaves) {
            return self.change_guest();
        }
        if self.happens(habits.separates) {
            return self.part();
        }
        let place = self.any_place();
        let Some(guest) = self.guest(place) else {
            return Ok(());
        };
        match self.arbiter.state(guest.task) {
            Some(State::Thinking) if self.draw.below(4) < habits.hunger => self.grow_hungry(place),
            Some(State::Hungry) if self.happens(habits.polls) => self.poll(place),
            Some(State::Hungry) if self.happens(habits.withdraws) => self.withdraw(place),
            _ => self.finish_somebody(),
        }
    }

    // A task joins.
    fn join(&mut self) -> Result<Guest, AllocError> {
        let serial = self.joined;
        self.joined = self.joined.wrapping_add(1);
        self.push_pass(serial)?;
        self.text.extend_from_slice(b"join")?;
        if self.form == Form::Script {
            self.text.extend_from_slice(b" t")?;
            push_number(&mut self.text, serial)?;
        }
        self.end_line()?;
        let task = match self.reply(Call::Join) {
            Reply::Joined(task) => task,
            Reply::Done | Reply::Refused(_) => Task { slot: 0, born: 0 },
        };
        Ok(Guest {
            task,
            serial,
            waits: false,
        })
    }

    // The task at a place grows hungry if it thinks, and begins to eat if it may.
    fn grow_hungry(&mut self, place: u32) -> Result<(), AllocError> {
        let Some(guest) = self.guest(place) else {
            return Ok(());
        };
        if self.arbiter.state(guest.task) != Some(State::Thinking) {
            return Ok(());
        }
        self.call_on_one(b"hungry", guest, Call::Hungry(guest.task))?;
        if self.form == Form::Script {
            return self.begin_if_ready(place);
        }
        self.push_line_on_one(b"await", guest)?;
        if self.arbiter.is_ready(guest.task) {
            return self.begin_silently(place);
        }
        if let Some(found) = self.guests.get_mut(place as usize) {
            found.waits = true;
        }
        Ok(())
    }

    // The task at a place begins to eat, where it may.
    fn begin_if_ready(&mut self, place: u32) -> Result<(), AllocError> {
        let Some(guest) = self.guest(place) else {
            return Ok(());
        };
        if !self.arbiter.is_ready(guest.task) {
            return Ok(());
        }
        self.call_on_one(b"begin", guest, Call::Begin(guest.task))?;
        self.eaters.push(place)?;
        Ok(())
    }

    // The task at a place begins to eat, as it was awaited.
    fn begin_silently(&mut self, place: u32) -> Result<(), AllocError> {
        let Some(guest) = self.guest(place) else {
            return Ok(());
        };
        let _ = self.reply(Call::Begin(guest.task));
        if let Some(found) = self.guests.get_mut(place as usize) {
            found.waits = false;
        }
        self.eaters.push(place)?;
        Ok(())
    }

    // The task at a place asks to begin, whether or not it may.
    fn poll(&mut self, place: u32) -> Result<(), AllocError> {
        let Some(guest) = self.guest(place) else {
            return Ok(());
        };
        if self.arbiter.is_ready(guest.task) {
            return self.begin_if_ready(place);
        }
        self.call_on_one(b"begin", guest, Call::Begin(guest.task))
    }

    // The task at a place gives its hunger up.
    fn withdraw(&mut self, place: u32) -> Result<(), AllocError> {
        let Some(guest) = self.guest(place) else {
            return Ok(());
        };
        if guest.waits {
            self.push_line_on_one(b"cancel", guest)?;
            if let Some(found) = self.guests.get_mut(place as usize) {
                found.waits = false;
            }
        }
        self.call_on_one(b"withdraw", guest, Call::Withdraw(guest.task))?;
        self.begin_around(place)
    }

    // One of those who eat finishes.
    fn finish_somebody(&mut self) -> Result<(), AllocError> {
        if self.eaters.is_empty() {
            return Ok(());
        }
        let at = self.draw.below(self.eaters.len());
        if self.eaters.len() <= at {
            return Ok(());
        }
        let place = self.eaters.swap_remove(at);
        let Some(guest) = self.guest(place) else {
            return Ok(());
        };
        self.call_on_one(b"finish", guest, Call::Finish(guest.task))?;
        self.begin_around(place)
    }

    // Those around a place begin who wait no longer.
    fn begin_around(&mut self, place: u32) -> Result<(), AllocError> {
        let count = match self.graph.neighbours.get(place as usize) {
            Some(found) => found.len(),
            None => 0,
        };
        for at in 0..count {
            let Some(other) = self.neighbour(place, at) else {
                return Ok(());
            };
            self.begin_that_waits(other)?;
        }
        Ok(())
    }

    // The neighbour of a place that stands there among them.
    fn neighbour(&self, place: u32, at: usize) -> Option<u32> {
        self.graph.neighbours.get(place as usize)?.get(at).copied()
    }

    // The task at a place begins to eat, if its turn has come.
    fn begin_that_waits(&mut self, place: u32) -> Result<(), AllocError> {
        let Some(guest) = self.guest(place) else {
            return Ok(());
        };
        if !self.arbiter.is_ready(guest.task) {
            return Ok(());
        }
        if guest.waits {
            self.begin_silently(place)
        } else {
            self.begin_if_ready(place)
        }
    }

    // A task that thinks leaves, and another takes its place.
    fn change_guest(&mut self) -> Result<(), AllocError> {
        let place = self.any_place();
        let Some(guest) = self.guest(place) else {
            return Ok(());
        };
        if self.arbiter.state(guest.task) != Some(State::Thinking) {
            return Ok(());
        }
        self.call_on_one(b"leave", guest, Call::Leave(guest.task))?;
        let newcomer = self.join()?;
        if let Some(found) = self.guests.get_mut(place as usize) {
            *found = newcomer;
        }
        let count = match self.graph.neighbours.get(place as usize) {
            Some(found) => found.len(),
            None => 0,
        };
        for at in 0..count {
            if let Some(other) = self.neighbour(place, at) {
                self.call_on_two(CallOnTwo::Conflict, place, other)?;
            }
        }
        self.begin_around(place)
    }

    // A conflict ends, and is declared again.
    fn part(&mut self) -> Result<(), AllocError> {
        let at = self.draw.below(self.graph.pairs.len());
        let Some((first, second)) = self.graph.pairs.get(at).copied() else {
            return Ok(());
        };
        self.call_on_two(CallOnTwo::Separate, first, second)?;
        self.begin_that_waits(first)?;
        self.begin_that_waits(second)?;
        self.call_on_two(CallOnTwo::Conflict, second, first)
    }

    // Somebody asks a question.
    fn ask(&mut self) -> Result<(), AllocError> {
        let place = self.any_place();
        let Some(guest) = self.guest(place) else {
            return Ok(());
        };
        match self.draw.below(8) {
            0 => self.text.extend_from_slice(b"next")?,
            1 | 2 => {
                self.text.extend_from_slice(b"neighbours ")?;
                self.push_task(guest)?;
            }
            _ => {
                self.text.extend_from_slice(b"state ")?;
                self.push_task(guest)?;
            }
        }
        self.end_line()
    }

    // Writes a line with a fault, or a remark.
    fn push_odd_line(&mut self) -> Result<(), AllocError> {
        let at = self.draw.below(ODD_LINES.len());
        if let Some(line) = ODD_LINES.get(at) {
            self.text.extend_from_slice(*line)?;
            self.lines = self.lines.wrapping_add(1);
        }
        Ok(())
    }

    // Makes a call on one task, and writes its line.
    fn call_on_one(&mut self, word: &[u8], guest: Guest, call: Call) -> Result<(), AllocError> {
        let _ = self.reply(call);
        self.push_line_on_one(word, guest)
    }

    // Makes a call on two tasks, and writes its line.
    fn call_on_two(&mut self, asked: CallOnTwo, first: u32, second: u32) -> Result<(), AllocError> {
        let (Some(one), Some(two)) = (self.guest(first), self.guest(second)) else {
            return Ok(());
        };
        let _ = self.reply(asked.on(one.task, two.task));
        self.push_pass(one.serial)?;
        self.text.extend_from_slice(match asked {
            CallOnTwo::Conflict => b"conflict ",
            CallOnTwo::Separate => b"separate ",
        })?;
        self.push_task(one)?;
        self.text.extend_from_slice(b" ")?;
        self.push_task(two)?;
        self.end_line()
    }

    // Writes a line on one task.
    fn push_line_on_one(&mut self, word: &[u8], guest: Guest) -> Result<(), AllocError> {
        self.push_pass(guest.serial)?;
        self.text.extend_from_slice(word)?;
        self.text.extend_from_slice(b" ")?;
        self.push_task(guest)?;
        self.end_line()
    }

    // Writes the front of a line: the pass that asks, and the number of its request, where it has one.
    fn push_pass(&mut self, serial: u64) -> Result<(), AllocError> {
        if self.form == Form::Script {
            return Ok(());
        }
        push_number(&mut self.text, serial & 0xfff)?;
        self.text.extend_from_slice(b" ")?;
        if self.form == Form::Numbered {
            push_number(&mut self.text, self.lines as u64)?;
            self.text.extend_from_slice(b" ")?;
        }
        Ok(())
    }

    // Writes a task, as the form names it.
    fn push_task(&mut self, guest: Guest) -> Result<(), AllocError> {
        if self.form == Form::Script {
            self.text.extend_from_slice(b"t")?;
            return push_number(&mut self.text, guest.serial);
        }
        push_number(&mut self.text, u64::from(guest.task.slot))?;
        self.text.extend_from_slice(b".")?;
        push_number(&mut self.text, guest.task.born)
    }

    fn end_line(&mut self) -> Result<(), AllocError> {
        self.lines = self.lines.wrapping_add(1);
        self.text.extend_from_slice(b"\n")
    }
}
