//! Usual limits, the tasks that join first, and drawn calls.

use crate::draw::Draw;
use dine_words::{Call, Limits, Task};

/// The limits that the program has by itself.
pub const LIMITS: Limits = Limits {
    tasks: 64,
    conflicts: 256,
};

/// The tasks that join first, where nobody has left.
pub const A: Task = Task { slot: 0, born: 0 };

pub const B: Task = Task { slot: 1, born: 1 };

pub const C: Task = Task { slot: 2, born: 2 };

pub const D: Task = Task { slot: 3, born: 3 };

pub const E: Task = Task { slot: 4, born: 4 };

pub const F: Task = Task { slot: 5, born: 5 };

/// A drawn call of one task or of both.
pub fn draw_call(draw: &mut Draw, first: Task, second: Task) -> Call {
    match draw.below(22) {
        0..=1 => Call::Join,
        2 => Call::Leave(first),
        3..=6 => Call::Conflict(first, second),
        7 => Call::Separate(first, second),
        8..=11 => Call::Hungry(first),
        12..=16 => Call::Begin(first),
        17..=19 => Call::Finish(first),
        _ => Call::Withdraw(first),
    }
}
