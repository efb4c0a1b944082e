//! Laws of what a front that is closed leaves, each as the contract of a function that does nothing.

ghost use Rattle.std.specs.Prelude.{◌≡◌, ◌≤◌, ℕ, List, Some, length, slice_get};
ghost use mathlib.Core.List.{IsPrefix};
ghost use Rattle.dine_words.specs.declared.entry.Entry.{Entry};
ghost use Rattle.dine_front.specs.declared.verdict.Verdict.{Verdict};
ghost use Rattle.dine_front.specs.Passes.{AreOfOneHistory, Pass};
ghost use Rattle.dine_front.specs.Verdicts.{IsVerdict};

/// Over a history and the passes that were handed in there is one verdict: which pass is missing, and which pass differs at
/// which receipt, is no choice of [`Front::close`](crate::Front::close).
pub fn there_is_one_verdict()
    ensures { (n : ℕ) (passes : List Pass) (history : List Entry) (v w : Verdict) →
        IsVerdict n passes history v → IsVerdict n passes history w → v ≡ w }
{}

/// Of what two passes of a front have seen the shorter begins the longer. A pass that has not seen more entries than the
/// journal has seen a beginning of it. So no look and no call of one pass tells what those of another contradict.
pub fn who_has_seen_less_has_seen_a_beginning()
    ensures passes { (history : List Entry) (passes : List Pass) (i k : ℕ) (p q : Pass) →
        AreOfOneHistory history passes → slice_get passes i ≡ Some p → slice_get passes k ≡ Some q →
        length p.seen ≤ length q.seen → IsPrefix p.seen q.seen }
    ensures journal { (history : List Entry) (passes : List Pass) (i : ℕ) (p : Pass) →
        AreOfOneHistory history passes → slice_get passes i ≡ Some p →
        length p.seen ≤ length history → IsPrefix p.seen history }
{}
