//! What one edge gives and asks, by the states of its two ends.

use crate::tests::same::same_at;
use dine_arbiter::settle_edge;
use dine_forks::Fork;
use dine_words::State::{self, Eating, Hungry, Thinking};
use std::test::Fail;

// Whether the first end has the fork, whether it is dirty, and whether the first end has the request token.
type Edge = (bool, bool, bool);

fn fork((at_first, dirty, token_first): Edge) -> Fork {
    Fork {
        at_first,
        dirty,
        token_first,
    }
}

// An edge, the states of its two ends, how it is left, and the messages that this takes.
type Row = (Edge, State, State, Edge, u8);

const ROWS: [Row; 6] = [
    ((false, true, true), Hungry, Hungry, (true, false, true), 3),
    ((true, true, false), Eating, Hungry, (true, true, true), 1),
    (
        (true, true, false),
        Thinking,
        Thinking,
        (true, true, false),
        0,
    ),
    (
        (false, true, true),
        Hungry,
        Thinking,
        (true, false, false),
        2,
    ),
    ((false, true, true), Hungry, Eating, (false, true, false), 1),
    (
        (true, true, true),
        Hungry,
        Thinking,
        (false, false, false),
        2,
    ),
];

#[test]
fn settles_as_the_rules_say(rt: HostRuntime) -> Result<(), Fail> {
    for (place, (edge, first, second, settled, messages)) in ROWS.iter().enumerate() {
        same_at(
            &rt,
            place,
            settle_edge(fork(*edge), *first, *second),
            (fork(*settled), *messages),
        );
    }
    Ok(())
}
