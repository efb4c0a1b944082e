//! Two threads over one front, whose tasks are in conflict and eat by turns.

ghost use Rattle.std.specs.Prelude.{◌≡◌, ◌∷◌, [], IfOk, OnOk, false};
ghost use Rattle.dine_words.specs.declared.call.Call.TheVariants as call;
ghost use Rattle.dine_words.specs.declared.task.Task.{Task};
ghost use Rattle.dine_front.specs.Opening.{CanOpen};
ghost use Rattle.dine_front.specs.Passes.{AreNew};
ghost use Rattle.dine_uses.specs.Sharing.{HaveEaten, IsShared, MadeCallsMore, is_refused, meals_of, setting};

use crate::use_fault::Fault;
use dine_front::{Closed, Front, LEDGER_PARTS, Naming, Opened, Pass};
use dine_words::{Call, Limits, Reply, Task};
use std::alloc::Global;
use std::marker::Brand;
use std::sync::Wait;
use std::sync::ledger::Blank;
use std::thread::{Threads, join};

/// Opens a front for two workers whose tasks are in conflict. Each eats so many meals in a thread of its own, and the
/// front is closed.
///
/// An error is want of memory for one of them, or a front that was not opened, or a table with no place for the two.
pub fn eat_in_turns<R: Threads + Wait + Sync>(
    rt: &R,
    alloc: Global,
    limits: Limits,
    meals: u32,
) -> Result<Closed, Fault>
    ensures { IfOk result (λ closed. IsShared limits meals closed.journal closed.verdict) }
{
    let opened = Opened::new(limits, 2)?;
    share::<Brand, R>(rt, alloc, Blank::new(LEDGER_PARTS), opened, meals)
}

// The same, for a front of this name.
fn share<J: Naming + Send + Sync, R: Threads + Wait + Sync>(
    rt: &R,
    alloc: Global,
    ledger: Blank,
    opened: Opened,
    meals: u32,
) -> Result<Closed, Fault>
    requires opens { CanOpen J.name J.parts J.limits J.passes J.book ledger opened }
    requires two { opened.passes ≡ 2 }
    ensures { IfOk result (λ closed.
        IsShared opened.limits meals closed.journal closed.verdict) }
{
    let (front, passes) = Front::<J>::open(rt, alloc, ledger, opened)?;
    let eaten = eat_all(rt, &front, passes, meals);
    match eaten {
        Ok(passes) => Ok(front.close(rt, passes)),
        Err(fault) => {
            front.close(rt, Vec::new(alloc));
            Err(fault)
        }
    }
}

// Sets the table, and lets the two workers eat at the same time. Their passes come back in order.
fn eat_all<J: Naming + Send + Sync, R: Threads + Wait + Sync>(
    rt: &R,
    front: &Front<J>,
    mut passes: Vec<Pass<J>>,
    meals: u32,
) -> Result<Vec<Pass<J>>, Fault>
    requires { AreNew 2 passes.items }
    ensures { IfOk result (λ after. HaveEaten meals after.items) }
{
    let second = passes.remove(1);
    let mut first = passes.remove(0);
    let (task, rival) = set_the_table(rt, front, &mut first)?;
    let (first, second) = join(
        rt,
        move || -> Result<Pass<J>, Fault>
            ensures { IfOk result (MadeCallsMore first (meals_of task meals)) }
        { work(rt, front, first, task, meals) },
        move || -> Result<Pass<J>, Fault>
            ensures { IfOk result (MadeCallsMore second (meals_of rival meals)) }
        { work(rt, front, second, rival, meals) },
    );
    passes.reserve(2)?;
    passes.push_reserved(first?);
    passes.push_reserved(second?);
    Ok(passes)
}

// Two tasks join, and are in conflict.
fn set_the_table<J: Naming, R: Wait>(
    rt: &R,
    front: &Front<J>,
    pass: &mut Pass<J>,
) -> Result<(Task, Task), Fault>
    ensures { IfOk result (λ tasks. MadeCallsMore pass.old (setting tasks.0 tasks.1) pass.new) }
{
    let first = joins(rt, front, pass)?;
    let second = joins(rt, front, pass)?;
    done(front.act(rt, pass, Call::Conflict(first, second))?.reply)?;
    Ok((first, second))
}

// A task joins.
fn joins<J: Naming, R: Wait>(rt: &R, front: &Front<J>, pass: &mut Pass<J>) -> Result<Task, Fault>
    ensures { OnOk result (MadeCallsMore pass.old (call.Join ∷ []) pass.new) }
{
    match front.act(rt, pass, Call::Join)?.reply {
        Reply::Joined(task) => Ok(task),
        Reply::Refused(refusal) => Err(Fault::Refused(refusal)),
        // No join is answered so.
        Reply::Done => Err(Fault::Stopped),
    }
}

// Lets the task eat so many meals, and hands the pass back. A worker that can't go on stops the front, so that the other
// doesn't wait for it for ever.
fn work<J: Naming, R: Wait>(
    rt: &R,
    front: &Front<J>,
    pass: Pass<J>,
    task: Task,
    meals: u32,
) -> Result<Pass<J>, Fault>
    ensures { IfOk result (MadeCallsMore pass (meals_of task meals)) }
{
    let eaten = eat_meals(rt, front, pass, task, meals);
    if eaten.is_err() {
        front.stop(rt);
    }
    eaten
}

// So many meals of a task.
fn eat_meals<J: Naming, R: Wait>(
    rt: &R,
    front: &Front<J>,
    mut pass: Pass<J>,
    task: Task,
    meals: u32,
) -> Result<Pass<J>, Fault>
    ensures { IfOk result (MadeCallsMore pass (meals_of task meals)) }
{
    for _meal in 0..meals {
        eat(rt, front, &mut pass, task)?;
    }
    Ok(pass)
}

// A refusal is an error here.
fn done(reply: Reply) -> Result<(), Fault>
    ensures { OnOk result (is_refused reply ≡ false) }
{
    match reply {
        Reply::Joined(_) | Reply::Done => Ok(()),
        Reply::Refused(refusal) => Err(Fault::Refused(refusal)),
    }
}

// One meal, begun once it is the task's turn.
fn eat<J: Naming, R: Wait>(
    rt: &R,
    front: &Front<J>,
    pass: &mut Pass<J>,
    task: Task,
) -> Result<(), Fault>
    ensures { OnOk result (MadeCallsMore pass.old
        (call.Hungry task ∷ call.Begin task ∷ call.Finish task ∷ []) pass.new) }
{
    done(front.act(rt, pass, Call::Hungry(task))?.reply)?;
    done(front.begin_in_turn(rt, pass, task)?.reply)?;
    // What is done in the meal stands here.
    done(front.act(rt, pass, Call::Finish(task))?.reply)?;
    Ok(())
}
