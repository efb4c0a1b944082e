//! Where a pass looks from.

ghost use Rattle.std.specs.Prelude.{◌≡◌, IfSome};
ghost use Rattle.dine_table.specs.History.{IsLegal, table_after};
ghost use Rattle.dine_table.specs.Table.{state_of};
ghost use Rattle.dine_front.specs.Published.{counter_of};

use crate::counted::{Counter, SharedCounter};
use crate::naming::Naming;
use crate::shown::Shown;
use crate::sight::Sight;
use core::mem::replace_with;
use crossbeam_utils::rule::Unruled;
use dine_words::{State, Task};
use left_right::reader::Reader;
use std::marker::Model;

// A place at the panel.
type Place<J> = Reader<Shown<J>, (), Unruled>;

/// A place at the panel, and the counter of the book, which tells whether there is anything new on the panel. Contracts
/// see it as the counter.
#[derive(Drop)]
pub(crate) struct Lookout<J: Naming> {
    place: Place<J>,
    counter: SharedCounter,
}

impl<J: Naming> Model for Lookout<J> {
    ghost use Rattle.std.specs.Prelude.{◌≡◌};
    ghost use Rattle.logbook.specs.Pages.{Named};
    ghost use Rattle.dine_front.specs.Published.{counter_of};

    ghost Value = { Named };

    ghost view = { λ lookout. lookout.counter };

    ghost invariant = { λ lookout. lookout.counter ≡ counter_of J.book };
}

impl<J: Naming> Lookout<J> {
    pub(crate) fn new(place: Place<J>, counter: SharedCounter) -> Self
        requires { counter ≡ counter_of J.book }
    {
        Lookout { place, counter }
    }

    /// The counter of the book.
    #[inline(always)]
    pub(crate) fn counter(&self) -> &Counter
        ensures { result.now ≡ counter_of J.book }
    {
        self.counter.word()
    }

    /// Reads the state of a task on the board that is shown, and which beginning of the history that is. `None` is answered
    /// where nothing is shown any more.
    pub(crate) fn read(&mut self, task: Task) -> Option<(Option<State>, Sight<J>)>
        ensures { IfSome result (λ found. (found.0 ≡ state_of (table_after J.limits found.1) task)
            × IsLegal J.limits found.1) }
    {
        replace_with(&mut self.place, task, |place, task| read(place, task))
    }
}

// The same, from a place that is given back.
fn read<J: Naming>(place: Place<J>, task: Task) -> (Place<J>, Option<(Option<State>, Sight<J>)>)
    ensures { IfSome result.1 (λ found. (found.0 ≡ state_of (table_after J.limits found.1) task)
        × IsLegal J.limits found.1) }
{
    match place.enter_as::<Unruled>() {
        Ok(reading) => {
            let shown: &Shown<J> = reading.get();
            let state = shown.state(task);
            let sight = shown.sight();
            (reading.leave(), Some((state, sight)))
        }
        Err(place) => (place, None),
    }
}
