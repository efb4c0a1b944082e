//! Lanes: one for each task that joined.

ghost use Rattle.std.specs.Prelude.{◌≡◌, IfOk};
ghost use Rattle.dine_bars.specs.Lanes.{lane_from, lane_with, lanes_of, opening_lane};

use crate::bar::{Bar, BarKind};
use crate::mark::{Mark, TaskMark};
use dine_words::Task;
use std::alloc::{AllocError, Global};

/// A task from its joining on, and what its bars come to.
#[derive(Clone, Copy, Debug, PartialEq, Eq, Hash)]
pub struct Lane {
    pub task: Task,
    /// The place at which it is present first.
    pub joined: u64,
    /// The place at which it is present no longer, or `None` where it stays to the end.
    pub left: Option<u64>,
    /// How many meals it began.
    pub meals: u64,
    /// At how many places it was kept waiting.
    pub kept_waiting: u64,
}

impl Lane {
    // The lane of a task that joined just now.
    fn opening(joined: TaskMark) -> Self
        ensures { result ≡ opening_lane joined }
    {
        Lane {
            task: joined.task,
            joined: joined.place,
            left: None,
            meals: 0,
            kept_waiting: 0,
        }
    }

    // The lane with the next mark.
    fn with(self, mark: Mark) -> Self
        ensures { result ≡ lane_with self mark }
    {
        match mark {
            Mark::Bar(bar) => self.with_bar(bar),
            Mark::Left(left) => self.with_leave(left),
            Mark::Joined(_) | Mark::Declared(_) | Mark::Separated(_) | Mark::Refused(_) => self,
        }
    }

    // The lane with the next bar, if it is of its task.
    fn with_bar(self, bar: Bar) -> Self
        ensures { result ≡ lane_with self (Mark.Bar bar) }
    {
        if bar.task != self.task {
            return self;
        }
        match bar.kind {
            BarKind::Meal => Lane {
                meals: self.meals.saturating_add(1),
                ..self
            },
            BarKind::KeptWaiting => Lane {
                kept_waiting: self.kept_waiting.saturating_add(bar.places()),
                ..self
            },
            BarKind::MayBegin => self,
        }
    }

    // The lane, which ends here if it is its task that left.
    fn with_leave(self, left: TaskMark) -> Self
        ensures { result ≡ lane_with self (Mark.Left left) }
    {
        if left.task == self.task {
            Lane {
                left: Some(left.place),
                ..self
            }
        } else {
            self
        }
    }
}

/// The lanes of a history's marks, in the order in which the tasks joined. So they are in the order of `born`, too.
///
/// An error is want of memory.
pub fn lanes(alloc: Global, marks: &[Mark]) -> Result<Vec<Lane>, AllocError>
    ensures { IfOk result (λ lanes. lanes.items ≡ lanes_of marks.now) }
{
    let mut lanes = Vec::new(alloc);
    for (place, mark) in marks.iter().enumerate() {
        if let Mark::Joined(joined) = *mark {
            lanes.push(followed(Lane::opening(joined), &marks[place + 1..]))?;
        }
    }
    Ok(lanes)
}

// The lane with the marks up to its end.
fn followed(lane: Lane, marks: &[Mark]) -> Lane
    ensures { result ≡ lane_from lane marks.now }
{
    let mut lane = lane;
    for mark in marks {
        lane = lane.with(*mark);
        if lane.left.is_some() {
            return lane;
        }
    }
    lane
}
