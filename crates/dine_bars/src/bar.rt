//! Bars: what a task does over some places of a history.

ghost use Rattle.std.specs.Prelude.{◌≡◌, ℕ, ◌-◌, ◌&&◌, IfSome};
ghost use Rattle.dine_bars.specs.Bars.{is_within, covered_by};
ghost use Rattle.dine_bars.specs.Marks.{bar_until};

use dine_words::Task;

/// What a bar says of its task. Nothing is drawn of a task that thinks.
#[derive(Clone, Copy, Debug, PartialEq, Eq, Hash)]
pub enum BarKind {
    /// The task eats.
    Meal,
    /// The task is hungry, and a neighbour keeps it waiting.
    KeptWaiting,
    /// The task is hungry and holds all its forks, so that it may begin.
    MayBegin,
}

/// Which call ended a wait: by whose finish, withdrawal or separation the task might begin.
#[derive(Clone, Copy, Debug, PartialEq, Eq, Hash)]
pub struct Turn {
    /// The task that finished, withdrew or was separated from the one that waited.
    pub giver: Task,
    /// The place that the call leads to.
    pub place: u64,
}

/// A task does one thing from a place on and up to another.
///
/// Place n of a history is the table after n of its entries, from 0 to the number of entries. It is also the number of the
/// journal's line that leads to it.
#[derive(Clone, Copy, Debug, PartialEq, Eq, Hash)]
pub struct Bar {
    pub task: Task,
    pub kind: BarKind,
    /// The first place that the bar covers: that to which the call leads that began it.
    pub from: u64,
    /// The first place that the bar no longer covers. It is one more than the number of entries where the history ends
    /// first.
    pub to: u64,
    /// Which call ended the wait of a hunger that may begin; which call gave a meal the turn that it took. `None` where
    /// the task was not kept waiting just before.
    pub turn: Option<Turn>,
}

impl Bar {
    /// How many places the bar covers.
    pub fn places(self) -> u64
        ensures { result ≡ self.to - self.from }
    {
        self.to.saturating_sub(self.from)
    }
}

/// A bar that hasn't ended yet.
#[derive(Clone, Copy, Debug, PartialEq, Eq, Hash)]
pub(crate) struct OpenBar {
    pub(crate) task: Task,
    pub(crate) kind: BarKind,
    pub(crate) from: u64,
    pub(crate) turn: Option<Turn>,
}

impl OpenBar {
    /// The bar, which ends before a place.
    pub(crate) fn until(self, to: u64) -> Bar
        ensures { result ≡ bar_until to self }
    {
        Bar {
            task: self.task,
            kind: self.kind,
            from: self.from,
            to,
            turn: self.turn,
        }
    }
}

/// The places from one on and up to, and without, another: those that are drawn.
#[derive(Clone, Copy, Debug, PartialEq, Eq, Hash)]
pub struct Window {
    /// The first place that is drawn.
    pub from: u64,
    /// The first place after those that are drawn.
    pub to: u64,
}

impl Window {
    /// Whether a place is drawn.
    pub fn has(self, place: u64) -> bool
        ensures { result ≡ is_within self.from self.to place }
    {
        self.from <= place && place < self.to
    }

    /// The part of a bar that is drawn, or `None` where no place of it is.
    pub fn clip(self, bar: Bar) -> Option<Bar>
        ensures places { (place : ℕ) → covered_by result place
            ≡ (is_within bar.from bar.to place && is_within self.from self.to place) }
        ensures task { IfSome result (λ clipped. clipped.task ≡ bar.task) }
        ensures kind { IfSome result (λ clipped. clipped.kind ≡ bar.kind) }
        ensures turn { IfSome result (λ clipped. clipped.turn ≡ bar.turn) }
    {
        let from = bar.from.max(self.from);
        let to = bar.to.min(self.to);
        if from < to {
            Some(Bar { from, to, ..bar })
        } else {
            None
        }
    }
}
