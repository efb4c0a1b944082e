//! The table of last meals, in which every contract speaks: a task's state and its conflicts, what each call is answered and
//! what it leaves, histories, and what calls cost in messages. It is a definition, with the laws that are proved of it, and
//! with the rules of it that are code in more than one of the crates above.
#![tactic(auto)]

mod law;
mod meal;
mod refusal;

pub use law::{
    a_hungry_task_may_begin_exactly_where_nobody_blocks_it, a_name_is_never_given_again,
    a_refused_call_changes_nothing, a_task_begins_exactly_where_it_may,
    an_accepted_call_makes_its_transition, conflicts_join_two_tasks_once, each_task_stands_once,
    every_reached_table_is_sound, neighbours_are_those_in_conflict,
    newcomers_slot_is_the_least_free, no_two_neighbours_eat, nobody_is_overtaken_twice,
    somebody_is_ready, the_clock_never_goes_back, the_limits_are_kept, the_next_ready_ate_earliest,
    the_next_ready_is_the_first_of_all,
};
pub use meal::eater_of;
pub use refusal::refusal_unless;
