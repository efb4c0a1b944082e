//! The numbers of calls, replies, faults and states.

ghost use Rattle.std.specs.Prelude.{◌≡◌};
ghost use Rattle.dine_embed.specs.Numbers.{call_numbered, number_of_fault, number_of_reply, number_of_state};

use dine_words::{Call, Reply, State, Task};

/// Why there is no reply.
#[derive(Clone, Copy, Debug, PartialEq, Eq)]
pub enum Fault {
    /// No call has this number.
    NoSuchCall,
    /// The clock is at its end: 2^64 - 1 joins and finishes were accepted, and there is no number for another.
    ClockEnded,
    /// The limits are out of their ranges.
    OutOfRange,
    /// Memory ran out.
    NoMemory,
    /// The place for an answer is too short.
    NoSpace,
}

impl Fault {
    /// The number of the fault. No refusal has it.
    pub fn number(self) -> u32
        ensures { result ≡ number_of_fault self }
    {
        match self {
            Fault::NoSuchCall => 100,
            Fault::ClockEnded => 101,
            Fault::OutOfRange => 102,
            Fault::NoMemory => 103,
            Fault::NoSpace => 105,
        }
    }
}

/// The call that a number names, of these tasks, or `None` where no call has the number.
pub fn call_numbered(number: u32, first: Task, second: Task) -> Option<Call>
    ensures { result ≡ call_numbered number first second }
{
    match number {
        1 => Some(Call::Join),
        2 => Some(Call::Leave(first)),
        3 => Some(Call::Conflict(first, second)),
        4 => Some(Call::Separate(first, second)),
        5 => Some(Call::Hungry(first)),
        6 => Some(Call::Begin(first)),
        7 => Some(Call::Finish(first)),
        8 => Some(Call::Withdraw(first)),
        _ => None,
    }
}

/// The number of a reply: 0 where the call was carried out, and else the refusal's.
pub fn number_of_reply(reply: Reply) -> u32
    ensures { result ≡ number_of_reply reply }
{
    match reply {
        Reply::Joined(_) | Reply::Done => 0,
        Reply::Refused(refusal) => refusal.number(),
    }
}

/// The number of a task's state, and 0 where it isn't present.
pub fn number_of_state(state: Option<State>) -> u32
    ensures { result ≡ number_of_state state }
{
    match state {
        None => 0,
        Some(State::Thinking) => 1,
        Some(State::Hungry) => 2,
        Some(State::Eating) => 3,
    }
}
