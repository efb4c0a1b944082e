//! The laws of what is drawn. Each is the contract of a function that does nothing.

ghost use Rattle.std.specs.Prelude.{◌≡◌, ◌≢◌, ◌↔◌, ℕ, ◌≤◌, true, List, Some, length, take};
ghost use Rattle.std.specs.List.{count_by};
ghost use Rattle.dine_words.specs.declared.entry.Entry.{Entry};
ghost use Rattle.dine_words.specs.declared.limits.Limits.{Limits};
ghost use Rattle.dine_words.specs.declared.task.Task.{Task};
ghost use Rattle.dine_table.specs.History.{IsLegal, grants_meal, table_after};
ghost use Rattle.dine_table.specs.Table.{are_in_conflict};
ghost use Rattle.dine_bars.specs.declared.bar.BarKind.{BarKind};
ghost use Rattle.dine_bars.specs.Bars.{bars_over, is_drawn, kind_at, meals_drawn};
ghost use Rattle.dine_bars.specs.Marks.{marks_of};

/// The bars are the history: whatever is called, a bar of a kind is drawn over a place exactly where the task does this
/// in the table after that many entries.
pub fn bars_are_the_history()
    ensures { (limits : Limits) (history : List Entry) (u : Task) (k : BarKind) (place : ℕ) →
        place ≤ length history →
        ((is_drawn (marks_of limits history) u k place ≡ true)
        ↔ (kind_at (table_after limits (take place history)) u ≡ Some k)) }
{}

/// No two bars of one task lie over one place.
pub fn each_place_is_covered_once()
    ensures { (limits : Limits) (history : List Entry) (u : Task) (place : ℕ) →
        bars_over (marks_of limits history) u place ≤ 1 }
{}

/// Bars of meals of two tasks share no place at which the two are in conflict.
pub fn meals_in_conflict_share_no_place()
    ensures { (limits : Limits) (history : List Entry) (u v : Task) (place : ℕ) →
        place ≤ length history →
        are_in_conflict (table_after limits (take place history)) u v ≡ true →
        is_drawn (marks_of limits history) u BarKind.Meal place ≡ true →
        is_drawn (marks_of limits history) v BarKind.Meal place ≢ true }
{}

/// As many meals are drawn of a task as begins of it were granted, whether they ended or not.
pub fn meals_drawn_are_those_granted()
    ensures { (limits : Limits) (history : List Entry) (u : Task) → IsLegal limits history →
        meals_drawn (marks_of limits history) u ≡ count_by (grants_meal u) history }
{}
