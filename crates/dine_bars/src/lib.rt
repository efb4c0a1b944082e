//! What is to be drawn of a history: the meals of its tasks, the hunger that a neighbour keeps waiting and the hunger
//! that may begin, who joined, left, was refused and was put in conflict with whom.
#![tactic(auto)]

mod bar;
mod call;
mod drawing;
mod lane;
mod law;
mod look;
mod mark;

pub use bar::{Bar, BarKind, Turn, Window};
// Tests alone take `draw`: pictures take what a `Drawing` hands out.
pub use drawing::{Drawing, draw};
pub use lane::{Lane, lanes};
pub use law::{
    bars_are_the_history, each_place_is_covered_once, meals_drawn_are_those_granted,
    meals_in_conflict_share_no_place,
};
pub use look::kind_of;
pub use mark::{ConflictMark, Mark, RefusedCall, TaskMark};
