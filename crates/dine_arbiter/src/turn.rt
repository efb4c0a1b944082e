//! The rules of a walk of a task's records: it grows hungry, finishes or withdraws.

ghost use Rattle.std.specs.Prelude.{◌≡◌};
ghost use Rattle.dine_forks.specs.Sending.{after};
ghost use Rattle.dine_forks.specs.Edges.{is_first};
ghost use Rattle.dine_arbiter.specs.Turns.{settled_beside};

use crate::edge::{sent_back, sent_on};
use dine_forks::{End, Fork, Reach, Rules, Sent};
use dine_words::State;

/// A task has grown hungry, and asks for the forks that it lacks. The states of all tasks are lent by slot.
#[derive(Clone, Copy)]
pub struct Hunger<'a> {
    pub by_slot: &'a [State],
}

/// A task has eaten, and gives up the forks that it is asked for.
#[derive(Clone, Copy)]
pub struct Finish<'a> {
    pub by_slot: &'a [State],
}

/// A task gives its hunger up, with what it holds clean and what it asked for.
#[derive(Clone, Copy)]
pub struct Withdrawal;

impl Rules for Hunger<'_> {
    ghost use Rattle.std.specs.Prelude.{length};
    ghost use Rattle.dine_words.specs.declared.task.State.TheVariants.{Hungry};
    ghost use Rattle.dine_forks.specs.declared.rules.Reach.TheVariants.{Lacked};
    ghost use Rattle.dine_arbiter.specs.Turns.{has_token_alone, settles, states_by};

    ghost places = { λ hunger. length hunger.by_slot.now };

    ghost reach = { λ _. Lacked };

    ghost meets = { λ _. has_token_alone };

    ghost forks = { λ hunger. settles Hungry (states_by hunger.by_slot.now) };

    #[inline(always)]
    fn reach(&self) -> Reach {
        Reach::Lacked
    }

    #[inline(always)]
    fn met(&self, end: End, fork: Fork) -> Fork {
        let first = end.is_first();
        Fork {
            at_first: !first,
            token_first: first,
            ..fork
        }
    }

    #[inline(always)]
    fn sent(&self, end: End, other: u32, fork: Fork) -> Sent {
        sent_beside(fork, end, State::Hungry, self.by_slot[other as usize])
    }
}

impl Rules for Finish<'_> {
    ghost use Rattle.std.specs.Prelude.{length};
    ghost use Rattle.dine_words.specs.declared.task.State.TheVariants.{Thinking};
    ghost use Rattle.dine_forks.specs.declared.rules.Reach.TheVariants.{Asked};
    ghost use Rattle.dine_arbiter.specs.Turns.{has_dirty_pair, settles, states_by};

    ghost places = { λ finish. length finish.by_slot.now };

    ghost reach = { λ _. Asked };

    ghost meets = { λ _. has_dirty_pair };

    ghost forks = { λ finish. settles Thinking (states_by finish.by_slot.now) };

    #[inline(always)]
    fn reach(&self) -> Reach {
        Reach::Asked
    }

    #[inline(always)]
    fn met(&self, end: End, _fork: Fork) -> Fork {
        let first = end.is_first();
        Fork {
            at_first: first,
            dirty: true,
            token_first: first,
        }
    }

    #[inline(always)]
    fn sent(&self, end: End, other: u32, fork: Fork) -> Sent {
        sent_beside(fork, end, State::Thinking, self.by_slot[other as usize])
    }
}

impl Rules for Withdrawal {
    ghost use Rattle.std.specs.Prelude.{true};
    ghost use Rattle.dine_forks.specs.declared.rules.Reach.TheVariants.{All};
    ghost use Rattle.dine_arbiter.specs.Edge.{withdrawn};

    ghost places = { λ _. 65536 };

    ghost reach = { λ _. All };

    ghost meets = { λ _ _ _. true };

    ghost forks = { λ _ first _ fork. withdrawn first fork };

    #[inline(always)]
    fn reach(&self) -> Reach {
        Reach::All
    }

    #[inline(always)]
    fn met(&self, _end: End, fork: Fork) -> Fork {
        fork
    }

    #[inline(always)]
    fn sent(&self, end: End, _other: u32, fork: Fork) -> Sent {
        sent_back(fork, end.is_first())
    }
}

// What is sent on an edge of which the task in the own state is this end, until neither rule is enabled.
#[inline(always)]
fn sent_beside(fork: Fork, end: End, own: State, beside: State) -> Sent
    ensures { after result fork ≡ settled_beside own beside (is_first end) fork }
{
    match end {
        End::First => sent_on(fork, own, beside),
        End::Second => sent_on(fork, beside, own),
    }
}
