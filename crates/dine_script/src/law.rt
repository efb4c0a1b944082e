//! The law of scripts: the contract of a function that does nothing.

ghost use Rattle.std.specs.Prelude.{ℕ, List};
ghost use Rattle.dine_words.specs.declared.limits.Limits.{Limits};
ghost use Rattle.dine_table.specs.History.{IsLegal};
ghost use Rattle.dine_script.specs.Script.{script_history};

/// The calls that a script makes are a legal history, whatever its lines: an audit of the journal that `hygienic run
/// --journal` writes finds each reply right.
pub fn a_script_makes_a_legal_history()
    ensures { (limits : Limits) (input : List ℕ) → IsLegal limits (script_history limits input) }
{}
