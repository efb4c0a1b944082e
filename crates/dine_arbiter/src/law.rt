//! Laws of the forks, whatever is called. The functions do nothing: their contracts are what they are for.

ghost use Rattle.std.specs.Prelude.{◌≡◌, ◌≢◌, ◌&&◌, not, ℕ, List, Some, true, false};
ghost use Rattle.dine_words.specs.declared.call.Call.{Call};
ghost use Rattle.dine_words.specs.declared.task.State.{State};
ghost use Rattle.dine_words.specs.declared.task.State.TheVariants as state;
ghost use Rattle.dine_words.specs.declared.task.Task.{Task};
ghost use Rattle.dine_table.specs.Table.{Table, state_of, is_ready, keeps_waiting};
ghost use Rattle.dine_table.specs.Calls.{table_after_call};
ghost use Rattle.dine_table.specs.Messages.{cost_of};
ghost use Rattle.dine_table.specs.Sound.{IsSound};
ghost use Rattle.dine_forks.specs.declared.record.Fork.{Fork};
ghost use Rattle.dine_arbiter.specs.Edge.{ForksAgree, IsQuiet, agrees, asks, holder, holds_all, is_lawful, yields};
ghost use Rattle.dine_arbiter.specs.Forks.{ForksFollow};

/// At each moment at most one of the two rules is enabled on an edge, and none where the edge has one of the six shapes
/// that it has between calls. In each shape the holder of a clean fork is hungry, and an eater holds the fork, dirty.
#[tactic(auto, using(crate::proofs::Settling::shapes))]
pub fn edges_keep_their_shapes()
    ensures one_rule { (fork : Fork) (first second : State) →
        (asks fork first second && yields fork first second) ≡ false }
    ensures quiet { (fork : Fork) (first second : State) →
        is_lawful fork first second ≡ true → IsQuiet fork first second }
    ensures clean { (fork : Fork) (first second : State) →
        is_lawful fork first second ≡ true → fork.dirty ≡ false →
        holder fork first second ≡ state.Hungry }
    ensures first_eats { (fork : Fork) (second : State) →
        is_lawful fork state.Eating second ≡ true →
        (fork.at_first ≡ true) × (fork.dirty ≡ true) }
    ensures second_eats { (fork : Fork) (first : State) →
        is_lawful fork first state.Eating ≡ true →
        (fork.at_first ≡ false) × (fork.dirty ≡ true) }
{}

/// Each call keeps the forks in agreement with the order of last meals, and sends as many messages as the table says.
#[tactic(auto, using(crate::proofs::Following::forks_follow))]
pub fn forks_follow_the_order()
    ensures agree { (t : Table) (call : Call) (old new : List Fork) (n : ℕ) →
        IsSound t → ForksAgree t old → ForksFollow t call old new n →
        ForksAgree (table_after_call t call) new }
    ensures cost { (t : Table) (call : Call) (old new : List Fork) (n : ℕ) →
        IsSound t → ForksAgree t old → ForksFollow t call old new n →
        n ≡ cost_of t call }
{}

/// A hungry task holds all of its forks exactly where it is ready.
#[tactic(auto, using(crate::proofs::Following::holds_all_is_ready))]
pub fn forks_tell_who_is_ready()
    ensures { (t : Table) (u : Task) (forks : List Fork) →
        IsSound t → ForksAgree t forks → state_of t u ≡ Some state.Hungry →
        holds_all u t.conflicts forks ≡ is_ready t u }
{}

/// On each edge a hungry end holds the fork exactly where the other end doesn't keep it waiting: the other end doesn't
/// eat, and isn't hungry with an earlier last meal.
#[tactic(auto, using(crate::proofs::EdgeLaws::holds_first, crate::proofs::EdgeLaws::holds_second))]
pub fn a_hungry_end_holds_the_fork_it_may_use()
    ensures first { (t : Table) (u v : Task) (fork : Fork) → u ≢ v →
        agrees t.order (u, v) fork ≡ true → state_of t u ≡ Some state.Hungry →
        fork.at_first ≡ not (keeps_waiting t.order u v) }
    ensures second { (t : Table) (u v : Task) (fork : Fork) → u ≢ v →
        agrees t.order (u, v) fork ≡ true → state_of t v ≡ Some state.Hungry →
        not fork.at_first ≡ not (keeps_waiting t.order v u) }
{}
