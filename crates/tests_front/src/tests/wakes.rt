//! Several passes wait at once: each is woken when its turn comes, whatever the order, and a stop wakes all. A turn that comes
//! just before a stop is taken.

use crate::tests::front::{Case, SETTLED, Then, check};
use crate::tests::threads::Part::{self, End, EndAndStop, Wait};
use crate::tests::threads::{Ending, Tally};
use dine_words::Call::{Finish, Separate, Withdraw};
use tests_kit::{A, B, C, D, E, F};

// The first task eats, and two others, who are in conflict with it alone, are hungry.
const TWO_HUNGRY: &str = "0 join -> joined 0.0; 0 join -> joined 1.1; 0 join -> joined 2.2; \
    0 conflict 0.0 1.1 -> done; 0 conflict 0.0 2.2 -> done; 0 hungry 0.0 -> done; \
    0 begin 0.0 -> done; 0 hungry 1.1 -> done; 0 hungry 2.2 -> done";

// Three pairs in conflict. Of the first two one task eats, of the third one is hungry and ate earlier; the other of each is
// hungry.
const THREE_PAIRS: &str = "0 join -> joined 0.0; 0 join -> joined 1.1; 0 join -> joined 2.2; \
    0 join -> joined 3.3; 0 join -> joined 4.4; 0 join -> joined 5.5; 0 conflict 0.0 1.1 -> done; \
    0 conflict 2.2 3.3 -> done; 0 conflict 4.4 5.5 -> done; 0 hungry 0.0 -> done; \
    0 begin 0.0 -> done; 0 hungry 2.2 -> done; 0 begin 2.2 -> done; 0 hungry 4.4 -> done; \
    0 hungry 1.1 -> done; 0 hungry 3.3 -> done; 0 hungry 5.5 -> done";

// One task eats, and the other is hungry.
const ONE_HUNGRY: &str = "0 join -> joined 0.0; 0 join -> joined 1.1; 0 conflict 0.0 1.1 -> done; \
    0 hungry 0.0 -> done; 0 begin 0.0 -> done; 0 hungry 1.1 -> done";

const MEAL: Ending = (Finish(A), &[B]);

const CONFLICT: Ending = (Separate(D, C), &[D]);

const HUNGER: Ending = (Withdraw(E), &[F]);

// The orders in which three waits end.
const ORDERS: [&[Part]; 6] = [
    &[End(&[MEAL, CONFLICT, HUNGER]), Wait(B), Wait(D), Wait(F)],
    &[End(&[MEAL, HUNGER, CONFLICT]), Wait(B), Wait(D), Wait(F)],
    &[End(&[CONFLICT, MEAL, HUNGER]), Wait(B), Wait(D), Wait(F)],
    &[End(&[CONFLICT, HUNGER, MEAL]), Wait(B), Wait(D), Wait(F)],
    &[End(&[HUNGER, MEAL, CONFLICT]), Wait(B), Wait(D), Wait(F)],
    &[End(&[HUNGER, CONFLICT, MEAL]), Wait(B), Wait(D), Wait(F)],
];

// The passes behind the first wait, and it ends their waits, or stops the front.
const WOKEN: Case = Case {
    name: "each is woken in its turn",
    steps: THREE_PAIRS,
    counts: &[20, 1, 1, 1],
    ..SETTLED
};

const IN_TURN: Tally = [3, 6, 0, 0, 0, 117];

const ROWS: [Case; 5] = [
    Case {
        name: "one call wakes both",
        steps: TWO_HUNGRY,
        then: Then::SideBySide(
            &[End(&[(Finish(A), &[B, C])]), Wait(B), Wait(C)],
            [2, 3, 0, 0, 0, 30],
        ),
        counts: &[10, 1, 1],
        ..SETTLED
    },
    Case {
        name: "a stop wakes both",
        steps: TWO_HUNGRY,
        then: Then::SideBySide(&[End(&[]), Wait(B), Wait(C)], [0, 0, 0, 0, 2, 0]),
        counts: &[9, 0, 0],
        ..SETTLED
    },
    Case {
        name: "a withdrawal wakes whoever waits for the task",
        steps: ONE_HUNGRY,
        then: Then::SideBySide(&[End(&[(Withdraw(B), &[])]), Wait(B)], [0, 1, 0, 1, 0, 13]),
        counts: &[7, 1],
        ..SETTLED
    },
    Case {
        name: "all for one",
        steps: THREE_PAIRS,
        then: Then::SideBySide(&[End(&[MEAL]), Wait(B)], [1, 2, 14, 0, 0, 392]),
        counts: &[18, 1, 1, 1, 1, 1, 1, 1, 1, 1, 1, 1, 1, 1, 1, 1],
        ..SETTLED
    },
    Case {
        name: "a stop wakes all",
        steps: THREE_PAIRS,
        then: Then::SideBySide(&[End(&[]), Wait(B), Wait(D), Wait(F)], [0, 0, 0, 0, 15, 0]),
        counts: &[17, 0, 0, 0, 0, 0, 0, 0, 0, 0, 0, 0, 0, 0, 0, 0],
        ..SETTLED
    },
];

#[test]
fn each_is_woken_in_its_turn(rt: HostRuntime) {
    for order in &ORDERS {
        let then = Then::SideBySide(*order, IN_TURN);
        check(&rt, &Case { then, ..WOKEN });
    }
}

#[test]
fn all_who_wait_are_woken(rt: HostRuntime) {
    for case in &ROWS {
        check(&rt, case);
    }
}

// In so many rounds the front is stopped at least once before the other thread is awake.
const ROUNDS: u32 = 100;

// Whoever waits is answered by its turn, and not by the stop after it.
const TURN_AND_STOP: Case = Case {
    name: "a turn that comes before a stop is taken",
    steps: ONE_HUNGRY,
    then: Then::SideBySide(&[EndAndStop, Wait(B)], [0, 2, 0, 0, 0, 13]),
    counts: &[7, 1],
    ..SETTLED
};

#[test]
fn a_turn_that_comes_before_a_stop_is_taken(rt: HostRuntime) {
    for _ in 0..ROUNDS {
        check(&rt, &TURN_AND_STOP);
    }
}
