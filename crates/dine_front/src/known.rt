//! What a pass knows of the history.

ghost use Rattle.std.specs.Prelude.{◌≡◌, IfSome};
ghost use Rattle.dine_table.specs.History.{IsLegal, table_after};
ghost use Rattle.dine_table.specs.Table.{state_of};

use crate::naming::Naming;
use crate::sight::Sight;
use dine_words::{Entry, State, Task};
use std::marker::Model;

/// The beginning of the history that a pass has seen, and what its last look told. Contracts see it as that beginning.
#[derive(Drop)]
pub(crate) struct Known<J: Naming> {
    sight: Sight<J>,
    // None where the pass has not looked since its last call.
    looked: Option<Looked>,
}

/// What a look told: the state of a task, or `None` where it wasn't present.
#[derive(Clone, Copy)]
struct Looked {
    task: Task,
    state: Option<State>,
}

impl<J: Naming> Model for Known<J> {
    ghost use Rattle.std.specs.Prelude.{◌≡◌, List, IfSome};
    ghost use Rattle.dine_words.specs.declared.entry.Entry.{Entry};
    ghost use Rattle.dine_table.specs.History.{table_after};
    ghost use Rattle.dine_table.specs.Table.{state_of};

    ghost Value = { List Entry };

    ghost view = { λ known. known.sight };

    // What the last look told is so in the table that the beginning leaves.
    ghost invariant = { λ known. IfSome known.looked (λ looked.
        looked.state ≡ state_of (table_after J.limits known.sight) looked.task) };
}

impl<J: Naming> Known<J> {
    pub(crate) fn new(sight: Sight<J>) -> Self
        ensures { result ≡ sight }
    {
        Known {
            sight,
            looked: None,
        }
    }

    /// The beginning that was seen.
    pub(crate) fn sight(&self) -> &Sight<J>
        ensures { result.now ≡ self.now }
    {
        &self.sight
    }

    /// What the last look told, if it was at this task and no call was made since.
    #[inline(always)]
    pub(crate) fn told(&self, task: Task) -> Option<Option<State>>
        ensures state { IfSome result (λ state.
            state ≡ state_of (table_after J.limits self.now) task) }
        ensures legal { IsLegal J.limits self.now }
    {
        let _legal = self.sight.len();
        match self.looked {
            Some(looked) if looked.task == task => Some(looked.state),
            Some(_) | None => None,
        }
    }

    /// A call has shown this beginning.
    #[inline(always)]
    pub(crate) fn see(&mut self, sight: Sight<J>)
        ensures { self.new ≡ sight }
    {
        self.sight = sight;
        self.looked = None;
    }

    /// A look has shown this beginning, and the state of a task in the table that it leaves.
    pub(crate) fn look(&mut self, sight: Sight<J>, task: Task, state: Option<State>)
        requires { state ≡ state_of (table_after J.limits sight) task }
        ensures { self.new ≡ sight }
    {
        self.sight = sight;
        self.looked = Some(Looked { task, state });
    }
}
