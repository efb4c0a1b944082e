//! The two rules of forks on one edge, and what the two ends send by them.
//!
//! A hungry task with the request token and without the fork sends the token. A task that isn't eating, with the token
//! and a dirty fork, sends the fork, cleaned. Both are rules of the 1984 paper of Chandy and Misra.

ghost use Rattle.std.specs.Prelude.{◌≡◌, ◌≤◌};
ghost use Rattle.dine_arbiter.specs.Edge.{IsQuiet, ReachedBy, Settles, withdrawn};
ghost use Rattle.dine_forks.specs.Sending.{after, messages_in};
ghost use Rattle.dine_arbiter.specs.Forks.{new_fork};

use dine_forks::{Fork, Sent};
use dine_words::State;

/// Lets the two ends, which are in these states, send token and fork until neither rule is enabled.
///
/// The number is the messages sent, 0 to 3: each is one token or one fork. Any fork and any two states will do, also such as
/// never stand between calls of the arbiter. That the rules run at once is this project's own: in the 1984 paper messages travel.
#[inline(always)]
pub fn settle_edge(fork: Fork, first: State, second: State) -> (Fork, u8)
    ensures reached { ReachedBy result.1 fork first second result.0 }
    ensures quiet { IsQuiet result.0 first second }
    ensures bound { result.1 ≤ 3 }
{
    let sent = sent_on(fork, first, second);
    (sent.after(fork), sent.messages() as u8)
}

/// What the two ends send each other, in these states, until neither rule is enabled.
#[inline(always)]
pub(crate) fn sent_on(fork: Fork, first: State, second: State) -> Sent
    ensures { Settles fork first second (after result fork) (messages_in result) }
{
    let asker = if fork.token_first { first } else { second };
    let owner = if fork.at_first { first } else { second };
    match (fork.at_first == fork.token_first, fork.dirty, asker, owner) {
        // Who has both gives a dirty fork away unless it eats, and asks for it again if it is hungry.
        (true, true, State::Thinking, _) => Sent::Fork,
        (true, true, State::Hungry, _) => Sent::Both,
        // Else a hungry end asks for the fork. It gets a dirty one that isn't in use, and a hungry owner asks for it again.
        (false, true, State::Hungry, State::Thinking) => Sent::Both,
        (false, true, State::Hungry, State::Hungry) => Sent::Crossed,
        (false, _, State::Hungry, _) => Sent::Token,
        _ => Sent::Nothing,
    }
}

/// What an end sends, the first or the second, that gives its hunger up. A clean fork that it holds goes to the other
/// end, dirty, and a dirty one stays. It has the request token of each fork that it lacks then.
///
/// The 1984 paper has no such step.
#[inline(always)]
pub(crate) fn sent_back(fork: Fork, is_first: bool) -> Sent
    ensures { after result fork ≡ withdrawn is_first fork }
{
    let asks = fork.token_first == is_first;
    match (fork.at_first == is_first, fork.dirty) {
        (true, true) => Sent::Nothing,
        (true, false) if asks => Sent::Back,
        (true, false) => Sent::BackAsked,
        (false, _) if asks => Sent::Nothing,
        (false, _) => Sent::Token,
    }
}

/// The fork of a new conflict: the end with the later meal holds it, dirty, and the other end has the token.
///
/// The 1984 paper starts with such forks, on a graph that is fixed. Conflicts that are declared later are this project's own.
pub(crate) fn new_fork(first_is_sooner: bool) -> Fork
    ensures { result ≡ new_fork first_is_sooner }
{
    Fork {
        at_first: !first_is_sooner,
        dirty: true,
        token_first: first_is_sooner,
    }
}
