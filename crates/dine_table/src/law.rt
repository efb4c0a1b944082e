//! The laws of the table of last meals, whatever is called. Each is the contract of a function that does nothing.

ghost use Rattle.std.specs.Prelude.{◌≡◌, ◌≢◌, ◌↔◌, ℕ, ◌+◌, ◌<◌, ◌≤◌, true, false, List, [], ◌∷◌, ◌++◌, length, slice_get, Some, None, IsSome};
ghost use Rattle.std.specs.List.{All, AllPairs, Any, Contains};
ghost use Rattle.dine_words.specs.declared.call.Call.{Call};
ghost use Rattle.dine_words.specs.declared.call.Refusal.{Refusal};
ghost use Rattle.dine_words.specs.declared.call.Reply.{Reply};
ghost use Rattle.dine_words.specs.declared.entry.Entry.{Entry};
ghost use Rattle.dine_words.specs.declared.limits.Limits.{Limits};
ghost use Rattle.dine_words.specs.declared.task.State.{State};
ghost use Rattle.dine_words.specs.declared.task.Task.{Task};
ghost use Rattle.dine_table.specs.Table.{Table, opening_table, state_of, is_between, are_in_conflict, neighbours_of, is_ready, keeps_waiting, next_ready_of, stands_before};
ghost use Rattle.dine_table.specs.Waiting.{blockers_of, ready_of};
ghost use Rattle.dine_table.specs.Calls.{newcomer, refusal_of, reply_of, table_after_call};
ghost use Rattle.dine_table.specs.History.{IsLegal, overtaken, table_after};
ghost use Rattle.dine_table.specs.Messages.{cost_of};
ghost use Rattle.dine_table.specs.Sound.{IsSound, MayBegin};
ghost use Rattle.dine_table.specs.Transitions.{Transition, transition_of};

/// Whatever was called, the table is sound: each task and each conflict stands once, no slot is used twice, conflicts
/// are between tasks that differ, are present and don't both eat, and the limits are kept.
pub fn every_reached_table_is_sound()
    ensures at_opening { (limits : Limits) → IsSound (opening_table limits) }
    ensures after_a_call { (t : Table) (c : Call) → IsSound t → IsSound (table_after_call t c) }
    ensures after_a_history { (limits : Limits) (history : List Entry) →
        IsSound (table_after limits history) }
{}

/// A refused call leaves the table as it was, and costs no message.
pub fn a_refused_call_changes_nothing()
    ensures table { (t : Table) (c : Call) (refusal : Refusal) →
        reply_of t c ≡ Reply.Refused refusal → table_after_call t c ≡ t }
    ensures messages { (t : Table) (c : Call) (refusal : Refusal) →
        reply_of t c ≡ Reply.Refused refusal → cost_of t c ≡ 0 }
{}

/// No call changes the limits, and there are never more tasks or conflicts than they allow.
pub fn the_limits_are_kept()
    ensures unchanged { (limits : Limits) (history : List Entry) →
        (table_after limits history).limits ≡ limits }
    ensures tasks { (limits : Limits) (history : List Entry) →
        length (table_after limits history).order ≤ limits.tasks }
    ensures conflicts { (limits : Limits) (history : List Entry) →
        length (table_after limits history).conflicts ≤ limits.conflicts }
{}

/// A call leaves the clock or moves it on by one, so it is never past the number of calls.
pub fn the_clock_never_goes_back()
    ensures not_back { (t : Table) (c : Call) → t.clock ≤ (table_after_call t c).clock }
    ensures by_one_at_most { (t : Table) (c : Call) → (table_after_call t c).clock ≤ t.clock + 1 }
    ensures calls { (limits : Limits) (history : List Entry) →
        (table_after limits history).clock ≤ length history }
{}

/// Each task stands once in the order of last meals, and no two sit in the same slot.
pub fn each_task_stands_once()
    ensures tasks_differ { (t : Table) → IsSound t → AllPairs (λ d e. d.task ≢ e.task) t.order }
    ensures slots_differ { (t : Table) → IsSound t →
        AllPairs (λ d e. d.task.slot ≢ e.task.slot) t.order }
{}

/// Whoever joins gets the least free slot. Where a join isn't refused, that slot is below the limit of tasks.
pub fn newcomers_slot_is_the_least_free()
    ensures free { (t : Table) → All (λ d. d.task.slot ≢ (newcomer t).slot) t.order }
    ensures least { (t : Table) (s : ℕ) → s < (newcomer t).slot →
        Any (λ d. d.task.slot ≡ s) t.order }
    ensures below_the_limit { (t : Table) → refusal_of t Call.Join ≡ None →
        (newcomer t).slot < t.limits.tasks }
{}

/// A name is given to one task alone, even after the task left: no two entries of a legal history give the same name.
/// Whatever the history, legal or not, the name that an accepted join gives is at no later time the next newcomer's.
pub fn a_name_is_never_given_again()
    ensures not_present { (t : Table) → IsSound t → state_of t (newcomer t) ≡ None }
    ensures given_once { (limits : Limits) (history : List Entry) → IsLegal limits history →
        AllPairs
        (λ e f. (u : Task) → e.reply ≡ Reply.Joined u → f.reply ≢ Reply.Joined u)
        history }
    ensures newcomers_differ { (limits : Limits) (before between : List Entry) (e : Entry) →
        e.call ≡ Call.Join → refusal_of (table_after limits before) Call.Join ≡ None →
        newcomer (table_after limits (before ++ e ∷ between))
        ≢ newcomer (table_after limits before) }
{}

/// A conflict is between two tasks that differ and are present, and stands once. Its ends may be named in either
/// order.
pub fn conflicts_join_two_tasks_once()
    ensures ends_differ { (t : Table) (u v : Task) → IsSound t →
        are_in_conflict t u v ≡ true → u ≢ v }
    ensures ends_present { (t : Table) (u v : Task) → IsSound t →
        are_in_conflict t u v ≡ true → IsSome (state_of t u) × IsSome (state_of t v) }
    ensures each_pair_once { (t : Table) → IsSound t →
        AllPairs (λ c d. is_between c.0 c.1 d ≡ false) t.conflicts }
    ensures either_way { (t : Table) (u v : Task) →
        are_in_conflict t u v ≡ are_in_conflict t v u }
{}

/// The neighbours of a task are those in conflict with it, each once.
pub fn neighbours_are_those_in_conflict()
    ensures members { (t : Table) (u v : Task) →
        Contains (neighbours_of t u) v ↔ (are_in_conflict t u v ≡ true) }
    ensures each_once { (t : Table) (u : Task) → IsSound t →
        AllPairs (λ v w. v ≢ w) (neighbours_of t u) }
{}

/// A begin is answered `Done` exactly where the task is ready: it is hungry, none of its neighbours eats, and no hungry
/// neighbour's last meal is earlier.
pub fn a_task_begins_exactly_where_it_may()
    ensures ready { (t : Table) (u : Task) → IsSound t → (is_ready t u ≡ true) ↔ MayBegin t u }
    ensures reply { (t : Table) (u : Task) → IsSound t →
        (reply_of t (Call.Begin u) ≡ Reply.Done) ↔ MayBegin t u }
{}

/// An accepted call finds its task in the state that the call's transition goes from, and leaves it in the one that it
/// goes to, or gone where it goes to none.
pub fn an_accepted_call_makes_its_transition()
    ensures before { (t : Table) (c : Call) (asked : Transition) →
        transition_of c ≡ Some asked → refusal_of t c ≡ None →
        state_of t asked.task ≡ Some asked.before }
    ensures after { (t : Table) (c : Call) (asked : Transition) →
        transition_of c ≡ Some asked → refusal_of t c ≡ None →
        state_of (table_after_call t c) asked.task ≡ asked.after }
{}

/// Whatever was called, two tasks in conflict never eat at the same time.
pub fn no_two_neighbours_eat()
    ensures { (limits : Limits) (history : List Entry) (u v : Task) →
        let t = table_after limits history in
        are_in_conflict t u v ≡ true →
        state_of t u ≡ Some State.Eating → state_of t v ≢ Some State.Eating }
{}

/// Where a task is hungry and nobody eats, somebody is ready.
pub fn somebody_is_ready()
    ensures { (t : Table) (u : Task) → IsSound t →
        state_of t u ≡ Some State.Hungry → ((v : Task) → state_of t v ≢ Some State.Eating) →
        IsSome (next_ready_of t) }
{}

/// Whoever is named next is ready, and nobody else who is ready has eaten earlier. Somebody is named wherever somebody
/// is ready.
pub fn the_next_ready_ate_earliest()
    ensures ready { (t : Table) (v : Task) → next_ready_of t ≡ Some v → is_ready t v ≡ true }
    ensures earliest { (t : Table) (v w : Task) → next_ready_of t ≡ Some v →
        is_ready t w ≡ true → stands_before t.order w v ≡ false }
    ensures none { (t : Table) (w : Task) → next_ready_of t ≡ None → is_ready t w ≡ false }
{}

/// A hungry task waits for the neighbours that eat, and for those that are hungry with an earlier last meal. It may begin
/// exactly where there are none.
pub fn a_hungry_task_may_begin_exactly_where_nobody_blocks_it()
    ensures blockers { (t : Table) (u v : Task) → state_of t u ≡ Some State.Hungry →
        Contains (blockers_of t u) v
        ↔ ((are_in_conflict t u v ≡ true) × (keeps_waiting t.order u v ≡ true)) }
    ensures ready { (t : Table) (u : Task) → state_of t u ≡ Some State.Hungry →
        (is_ready t u ≡ true) ↔ (blockers_of t u ≡ []) }
{}

/// All tasks that are ready may begin, and no others. No two of them are in conflict, so none waits for another's begin.
/// Whoever is named next is the first of them, if there is one.
pub fn the_next_ready_is_the_first_of_all()
    ensures members { (t : Table) (u : Task) → Contains (ready_of t) u ↔ (is_ready t u ≡ true) }
    ensures apart { (t : Table) (u v : Task) → IsSound t → is_ready t u ≡ true →
        is_ready t v ≡ true → are_in_conflict t u v ≡ false }
    ensures first { (t : Table) → next_ready_of t ≡ slice_get (ready_of t) 0 }
{}

/// In a legal history a hungry task is overtaken by each neighbour at most once: until it begins or withdraws, the
/// neighbour begins at most one meal while the two are in conflict.
pub fn nobody_is_overtaken_twice()
    ensures { (limits : Limits) (history : List Entry) (u v : Task) →
        IsLegal limits history → overtaken limits history u v ≤ 1 }
{}
