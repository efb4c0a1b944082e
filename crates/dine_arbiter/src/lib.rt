//! The arbiter, which lets hungry tasks eat by the forks that they hold.
#![tactic(auto)]

mod arbiter;
mod edge;
mod law;
mod search;
mod seats;
mod turn;
mod walk;

pub use arbiter::Arbiter;
pub use edge::settle_edge;
pub use law::{
    a_hungry_end_holds_the_fork_it_may_use, edges_keep_their_shapes, forks_follow_the_order,
    forks_tell_who_is_ready,
};
