//! The laws of overtaking, and of what replies tell. Each is the contract of a function that does nothing.

ghost use Rattle.std.specs.Prelude.{◌≡◌, ◌≢◌, ◌↔◌, ◌≤◌, IsSome, Some, if◌then◌else◌, List};
ghost use Rattle.std.specs.List.{Contains};
ghost use Rattle.dine_words.specs.declared.entry.Entry.{Entry};
ghost use Rattle.dine_words.specs.declared.limits.Limits.{Limits};
ghost use Rattle.dine_words.specs.declared.task.Task.{Task};
ghost use Rattle.dine_table.specs.History.{IsLegal, overtaken, table_after};
ghost use Rattle.dine_table.specs.Table.{opening_table, state_of};
ghost use Rattle.dine_journal.specs.Overtakes.{joined_tasks, most_overtaken};
ghost use Rattle.dine_journal.specs.Told.{HasStayed, board_after, last_left, shown_at};
ghost use Rattle.dine_journal.specs.Overtaking.{overtakes_at, overtakes_somebody, some_entry};

/// In a legal history one task is overtaken by another, and then once, exactly where the other begins a meal while it is
/// hungry and the two are in conflict. So the most that anybody is overtaken is 1 exactly where a meal is begun beside a
/// hungry neighbour, and else 0.
pub fn who_begins_beside_the_hungry_overtakes_them()
    ensures pair { (limits : Limits) (history : List Entry) (u v : Task) → IsLegal limits history →
        let overtakes = some_entry (overtakes_at u v) (opening_table limits) history in
        overtaken limits history u v ≡ (if overtakes then 1 else 0) }
    ensures most { (limits : Limits) (history : List Entry) → IsLegal limits history →
        let overtakes = some_entry overtakes_somebody (opening_table limits) history in
        most_overtaken limits history ≡ (if overtakes then 1 else 0) }
{}

/// In a legal history nobody is overtaken oftener than the most that is taken over those who joined: only who joined is
/// overtaken, and by another who joined.
pub fn only_who_joined_overtakes()
    ensures greatest { (limits : Limits) (history : List Entry) (u v : Task) →
        IsLegal limits history → overtaken limits history u v ≤ most_overtaken limits history }
    ensures joined { (limits : Limits) (history : List Entry) (u v : Task) →
        IsLegal limits history → 1 ≤ overtaken limits history u v →
        Contains (joined_tasks history) u × Contains (joined_tasks history) v }
    ensures another { (limits : Limits) (history : List Entry) (u v : Task) →
        IsLegal limits history → 1 ≤ overtaken limits history u v → u ≢ v }
{}

/// In a legal history the replies alone tell the state of each task, without the table. A task is present exactly where it
/// joined and did not leave since. Its state is then what its last accepted `Hungry`, `Begin` or `Finish` left, and thinking
/// where there is none. So a board shows it that has one place for each slot, and knows of no order and no conflict.
pub fn replies_tell_the_states()
    ensures present { (limits : Limits) (history : List Entry) (u : Task) → IsLegal limits history →
        (IsSome (state_of (table_after limits history) u) ↔ HasStayed u history) }
    ensures state { (limits : Limits) (history : List Entry) (u : Task) → IsLegal limits history →
        HasStayed u history → state_of (table_after limits history) u ≡ Some (last_left u history) }
    ensures board { (limits : Limits) (history : List Entry) (u : Task) → IsLegal limits history →
        state_of (table_after limits history) u ≡ shown_at (board_after limits history) u }
{}
