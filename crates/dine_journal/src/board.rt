//! What a history leaves, by its replies alone: one place for each slot.

ghost use Rattle.std.specs.Prelude.{◌≡◌, IfOk, Some};
ghost use Rattle.dine_journal.specs.Told.{opening_board, put_told, shown_at, told_by};

use dine_words::{Call, Entry, Limits, Reply, State, Task};
use std::alloc::{AllocError, Global};
use std::marker::Model;

/// What an entry tells of a task: its state from then on, or `None` where it left.
#[derive(Clone, Copy, Debug, PartialEq, Eq, Hash)]
pub struct Change {
    /// The task of which it tells.
    pub task: Task,
    /// Its state from then on, or `None` where it left.
    pub state: Option<State>,
}

impl Change {
    /// What an entry tells by its call and its reply alone, or `None` where it tells of no task's state: a refused call
    /// doesn't, nor does a conflict or a separation.
    pub fn told_by(entry: Entry) -> Option<Self>
        ensures { result ≡ told_by entry }
    {
        let (task, state) = match entry.reply {
            Reply::Joined(task) => (task, Some(State::Thinking)),
            Reply::Done => match entry.call {
                Call::Leave(task) => (task, None),
                Call::Hungry(task) => (task, Some(State::Hungry)),
                Call::Begin(task) => (task, Some(State::Eating)),
                Call::Finish(task) | Call::Withdraw(task) => (task, Some(State::Thinking)),
                Call::Join | Call::Conflict(..) | Call::Separate(..) => return None,
            },
            Reply::Refused(_) => return None,
        };
        Some(Change { task, state })
    }
}

// A place at the table: who sat there last, by its `born`, and its state, or `None` where it left.
#[derive(Clone, Copy, Debug, PartialEq, Eq, Hash)]
pub(crate) struct Place {
    pub(crate) born: u64,
    pub(crate) state: Option<State>,
}

/// The state of each task, as the replies of a history tell it. It knows of no order and of no conflict.
///
/// Over a legal history it shows the states of the table of last meals: see
/// [`replies_tell_the_states`](crate::replies_tell_the_states).
#[derive(Drop)]
pub struct Board {
    places: Vec<Place>,
}

impl Model for Board {
    ghost use Rattle.std.specs.Prelude.{List};
    ghost use Rattle.dine_journal.specs.declared.board.Place.{Place};

    ghost Value = { List Place };

    ghost view = { λ board. board.places.items };
}

impl Board {
    /// The board of no entry, with a place for each task that the limits allow. An error is want of memory.
    pub fn new(alloc: Global, limits: Limits) -> Result<Self, AllocError>
        ensures { IfOk result (λ board. board ≡ opening_board limits) }
    {
        let empty = Place {
            born: 0,
            state: None,
        };
        Ok(Board {
            places: vec![in alloc; empty; limits.tasks as usize]?,
        })
    }

    /// Takes in what the next entry tells. It writes one place at most, and needs no memory.
    pub fn take_in(&mut self, told: Option<Change>)
        ensures { self.new ≡ put_told self.old told }
    {
        if let Some(change) = told {
            put(&mut self.places, change);
        }
    }

    /// The state of a task, or `None` where it isn't present.
    pub fn state(&self, task: Task) -> Option<State>
        ensures { result ≡ shown_at self.now task }
    {
        match self.places.get(task.slot as usize) {
            Some(place) if place.born == task.born => place.state,
            _ => None,
        }
    }
}

// Writes the place of the task's slot, if there is one.
fn put(places: &mut Vec<Place>, change: Change)
    ensures { places.new.items ≡ put_told places.old.items (Some change) }
{
    let slot = change.task.slot as usize;
    if slot < places.len() {
        places[slot] = Place {
            born: change.task.born,
            state: change.state,
        };
    }
}
