//! What looks read: the board of a beginning of the history, and the events that it absorbs.

ghost use Rattle.std.specs.Prelude.{◌≡◌, List, []};
ghost use Rattle.dine_words.specs.declared.entry.Entry.{Entry};
ghost use Rattle.dine_table.specs.History.{IsLegal, table_after};
ghost use Rattle.dine_table.specs.Table.{state_of};
ghost use Rattle.dine_journal.specs.Told.{board_after, opening_board};
ghost use Rattle.dine_front.specs.Published.{last_told};

use crate::naming::Naming;
use crate::sight::Sight;
use dine_journal::{Board, Change};
use dine_words::{Entry, State, Task};
use left_right::Absorb;
use std::alloc::AllocError;
use std::marker::Model;

/// The board that a beginning of the history leaves. Contracts see it as that beginning.
#[derive(Drop)]
pub(crate) struct Shown<J: Naming> {
    pub(crate) board: Board,
    pub(crate) sight: Sight<J>,
}

impl<J: Naming> Model for Shown<J> {
    ghost Value = { List Entry };

    ghost view = { λ shown. shown.sight };

    ghost invariant = { λ shown. shown.board ≡ board_after J.limits shown.sight };
}

/// One entry more, for a board that lacks it: what the entry tells, and the beginning of the history that ends with it. With
/// no entry it is the empty beginning, and tells nothing. Contracts see it as that beginning.
#[derive(Drop)]
pub(crate) struct Event<J: Naming> {
    told: Option<Change>,
    sight: Sight<J>,
}

impl<J: Naming> Model for Event<J> {
    ghost Value = { List Entry };

    ghost view = { λ event. event.sight };

    ghost invariant = { λ event. event.told ≡ last_told event.sight };
}

impl<J: Naming> Shown<J> {
    pub(crate) fn new(board: Board, sight: Sight<J>) -> Self
        requires { (board ≡ opening_board J.limits) × (sight ≡ []) }
        ensures { result ≡ [] }
    {
        Shown { board, sight }
    }

    // The beginning whose board it is.
    pub(crate) fn sight(&self) -> Sight<J>
        ensures { result ≡ self.now }
    {
        self.sight.again()
    }

    // The state of a task in the table that the beginning leaves.
    pub(crate) fn state(&self, task: Task) -> Option<State>
        ensures state { result ≡ state_of (table_after J.limits self.now) task }
        ensures legal { IsLegal J.limits self.now }
    {
        let _legal = self.sight.len();
        self.board.state(task)
    }
}

impl<J: Naming> Event<J> {
    pub(crate) fn new(told: Option<Change>, sight: Sight<J>) -> Self
        requires { told ≡ last_told sight }
        ensures { result ≡ sight }
    {
        Event { told, sight }
    }
}

impl<J: Naming> Absorb<Event<J>> for Shown<J> {
    ghost use Rattle.dine_front.specs.Published.{longer_by_one};

    // A clause reads an array as a list, of any length.
    type State = [Entry; 0];

    ghost state = { λ shown. shown };

    ghost applied = { longer_by_one };

    ghost never_fails = { Unit {0} };

    // An event that isn't the next changes nothing, so this never fails. Only the two empty ones of the opening aren't.
    fn absorb_first(&mut self, event: &Event<J>, _other: &Shown<J>) -> Result<(), AllocError> {
        let (mine, new) = (self.sight.len(), event.sight.len());
        if mine < new && new - mine == 1 {
            self.sight.begins(&event.sight);
            self.board.take_in(event.told);
            self.sight = event.sight.again();
        }
        Ok(())
    }
}
