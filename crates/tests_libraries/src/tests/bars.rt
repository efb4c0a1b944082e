//! What the program doesn't ask of drawings: all marks at once, how far one has come, and the part of a bar in a window.

use crate::tests::same::{same, same_at};
use dine_bars::{Bar, BarKind, Drawing, Mark, Turn, Window, draw};
use dine_journal::{Hall, Journal};
use dine_words::Call::{self, Conflict, Hungry, Join, Withdraw};
use std::alloc::Global;
use std::test::Fail;
use tests_kit::{A, B, LIMITS};

const BAR: Bar = Bar {
    task: A,
    kind: BarKind::Meal,
    from: 3,
    to: 7,
    turn: None,
};

// A window, and what it has of the bar.
const CLIPPED: [((u64, u64), Option<(u64, u64)>); 8] = [
    ((0, 100), Some((3, 7))),
    ((3, 7), Some((3, 7))),
    ((4, 6), Some((4, 6))),
    ((0, 4), Some((3, 4))),
    ((6, 100), Some((6, 7))),
    ((0, 3), None),
    ((7, 100), None),
    ((6, 4), None),
];

#[test]
fn bars_are_clipped_to_a_window(rt: HostRuntime) -> Result<(), Fail> {
    for ((from, to), wanted) in CLIPPED {
        let clipped = Window { from, to }.clip(BAR);
        same_at(&rt, from, clipped.map(|bar| (bar.from, bar.to)), wanted);
    }
    let none = Window { from: 3, to: 3 };
    same(&rt, (none.has(3), none.clip(BAR)), (false, None));
    Ok(())
}

const HUNGRY: [Call; 5] = [Join, Join, Conflict(A, B), Hungry(A), Hungry(B)];

// A keeps B waiting, and withdraws. No meal takes the turn.
fn journal(alloc: Global) -> Result<Journal, Fail> {
    let mut hall = Hall::new(alloc, LIMITS)?;
    for call in HUNGRY {
        let _ = hall.act(0, call)?;
    }
    let _ = hall.act(0, Withdraw(A))?;
    Ok(hall.into_journal())
}

#[test]
fn a_turn_that_no_meal_takes_is_drawn(rt: HostRuntime) -> Result<(), Fail> {
    let marks = draw(rt.alloc(), &journal(rt.alloc())?)?;
    let last = match marks.last() {
        Some(Mark::Bar(bar)) => Some((bar.task, bar.from, bar.turn)),
        _ => None,
    };
    let turn = Turn { giver: A, place: 6 };
    same(&rt, last, Some((B, 6, Some(turn))));
    Ok(())
}

#[test]
fn marks_come_with_their_entries(rt: HostRuntime) -> Result<(), Fail> {
    let journal = journal(rt.alloc())?;
    let mut drawing = Drawing::new(rt.alloc(), LIMITS)?;
    let mut marks = Vec::new(rt.alloc());
    for place in 0..6 {
        let entry = journal.entry(place).ok_or("there are as many entries")?;
        marks.clear();
        let reply = drawing.take_in(rt.alloc(), entry, &mut marks)?;
        same_at(&rt, place, reply, entry.reply);
    }
    let ready = drawing.arbiter().is_ready(B);
    same(&rt, (drawing.place(), marks.len(), ready), (6, 2, true));
    Ok(())
}
