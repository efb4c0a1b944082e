//! The laws of texts that somebody gives, and of graphs. Each is the contract of a function that does nothing.

ghost use Rattle.std.specs.Prelude.{◌≡◌, ◌⊎◌, ℕ, List, true, false};
ghost use Rattle.dine_words.specs.declared.task.Task.{Task};
ghost use Rattle.dine_table.specs.Sound.{IsSound};
ghost use Rattle.dine_table.specs.Table.{Table, are_in_conflict};
ghost use Rattle.dine_chart.specs.Escapes.{is_inert, is_quotable, text_in};
ghost use Rattle.dine_chart.specs.declared.escape.Setting.TheVariants.{Dot, Json, Markup};
ghost use Rattle.dine_chart.specs.Graph.{IsEdge};

/// Whatever the text is, what is written for it in markup begins and ends nothing: no `<`, no `>` and no quote of either
/// kind stands in it, and each `&` begins one of five entities.
pub fn a_name_stays_in_its_element()
    ensures { (text : List ℕ) → is_inert (text_in Markup text) ≡ true }
{}

/// Whatever the text is, what is written for it between quotes of JSON or of DOT ends no quoted text: each quote and each
/// backslash of it stands behind a backslash, and no control character stands there.
pub fn a_name_stays_between_its_quotes()
    ensures json { (text : List ℕ) → is_quotable false (text_in Json text) ≡ true }
    ensures dot { (text : List ℕ) → is_quotable false (text_in Dot text) ≡ true }
{}

/// Of two tasks in conflict one goes before the other: a graph has one edge between them, from that one.
pub fn a_conflict_has_one_edge()
    ensures { (t : Table) (u v : Task) → IsSound t → are_in_conflict t u v ≡ true →
        IsEdge t u v ⊎ IsEdge t v u }
{}
