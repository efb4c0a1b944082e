//! Why a call is refused for the state that its task is in. Every body of the table has it from here.

ghost use Rattle.std.specs.Prelude.{◌≡◌};
ghost use Rattle.dine_table.specs.Calls.{refusal_unless};

use dine_words::{Refusal, State};

/// Why a call is refused that needs a task in one state, by the state in which the task is found, which is `None` where it
/// isn't present.
///
/// The answer is `Unknown` where it isn't present, `WrongState` with the state found where that is another than the one
/// needed, and `None` where it is the one needed: then its state is no reason to refuse the call.
#[inline(always)]
pub fn refusal_unless(needed: State, found: Option<State>) -> Option<Refusal>
    ensures { result ≡ refusal_unless needed found }
{
    match found {
        None => Some(Refusal::Unknown),
        Some(state) if state == needed => None,
        Some(state) => Some(Refusal::WrongState(state)),
    }
}
