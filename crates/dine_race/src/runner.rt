//! Lines of a scenario, carried out over a front.

ghost use Rattle.std.specs.Prelude.{◌≡◌, ◌≢◌, ◌∷◌, [], List, true, IfErr, IsErrOf, IsFalse, IsTrue, OnOk};
ghost use Rattle.dine_race.specs.declared.bound.BoundStep.{BoundStep};
ghost use Rattle.dine_race.specs.BoundSteps.{HasDone, bound_may_wait};
ghost use Rattle.dine_race.specs.StepKinds.{may_wait};
ghost use Rattle.dine_race.specs.Runners.{HasRun, MadeCalls};
ghost use Rattle.dine_race.specs.Runs.{IsMeal, Made, names_after};

use crate::bound::BoundStep;
use dine_front::{Front, FrontFault, Naming, Pass};
use dine_journal::Receipts;
use dine_lines::{Name, Names};
use dine_scenario::{NamedCall, Step};
use dine_words::{Call, Reply, Task};
use std::alloc::AllocError;
use std::marker::Model;
use std::sync::Wait;

/// Who carries out lines: a pass, and the names that it has bound.
#[derive(Drop)]
pub(crate) struct Runner<J: Naming> {
    pass: Pass<J>,
    names: Names,
}

impl<J: Naming> Model for Runner<J> {
    ghost use Rattle.dine_race.specs.Runners.{Runner as RunnerRecord};

    ghost Value = { RunnerRecord };

    ghost view = { λ runner. record { pass = runner.pass; names = runner.names } };
}

impl<J: Naming> Runner<J> {
    /// Carries out lines with this pass, by these names.
    pub(crate) fn new(pass: Pass<J>, names: Names) -> Self
        ensures pass { result.pass ≡ pass }
        ensures names { result.names ≡ names }
    {
        Runner { pass, names }
    }

    /// Which pass it has.
    pub(crate) fn number(&self) -> u32
        ensures { result ≡ self.now.pass.number }
    {
        self.pass.number()
    }

    /// Its pass. The names are forgotten.
    pub(crate) fn into_pass(self) -> Pass<J>
        ensures { result ≡ self.pass }
    {
        let Runner { pass, names: _ } = self;
        pass
    }

    /// Its pass, and its names.
    pub(crate) fn into_parts(self) -> (Pass<J>, Names)
        ensures pass { result.0 ≡ self.pass }
        ensures names { result.1 ≡ self.names }
    {
        let Runner { pass, names } = self;
        (pass, names)
    }

    /// The receipts of its pass.
    pub(crate) fn receipts(&self) -> Receipts<'_>
        ensures { result ≡ self.now.pass.receipts }
    {
        self.pass.receipts()
    }

    /// The names that it has bound.
    pub(crate) fn names(&self) -> &Names
        ensures { result.now ≡ self.now.names }
    {
        &self.names
    }

    /// Carries out one line. Only a meal can be stopped.
    pub(crate) fn take<R: Wait>(
        &mut self,
        rt: &R,
        front: &Front<J>,
        line: &Step,
    ) -> Result<(), FrontFault>
        ensures run { OnOk result (HasRun self.old (line.now ∷ []) self.new) }
        ensures stopped { IsErrOf result FrontFault.Stopped → may_wait line.now ≡ true }
    {
        let step = BoundStep::new(&self.names, line);
        self.do_step(rt, front, &step)
    }

    /// Does one step whose names were looked up. Only a meal can be stopped. It is compiled into its callers, and what
    /// makes calls stands apart, so that a look there is a few instructions.
    #[inline(always)]
    pub(crate) fn do_step<R: Wait>(
        &mut self,
        rt: &R,
        front: &Front<J>,
        step: &BoundStep,
    ) -> Result<(), FrontFault>
        ensures done { OnOk result (HasDone self.old step.now self.new) }
        ensures stopped { IsErrOf result FrontFault.Stopped → bound_may_wait step.now ≡ true }
    {
        match step {
            BoundStep::Join(name) => self.join(rt, front, *name),
            BoundStep::Call(call) => self.call(rt, front, *call),
            BoundStep::Eat(task) => dine(rt, front, &mut self.pass, *task),
            BoundStep::Look(task) => {
                let _ = self.pass.look(*task);
                Ok(())
            }
            BoundStep::Nothing => Ok(()),
        }
    }

    // A task joins, and takes the name.
    #[inline(never)]
    fn join<R: Wait>(&mut self, rt: &R, front: &Front<J>, name: Name) -> Result<(), FrontFault>
        ensures done { OnOk result (HasDone self.old (BoundStep.Join name) self.new) }
        ensures memory { IfErr result (λ fault. fault ≡ FrontFault.Memory) }
    {
        let reply = front.act(rt, &mut self.pass, Call::Join)?.reply;
        take_name(&mut self.names, NamedCall::Join(name), reply)?;
        Ok(())
    }

    // Makes a call that binds no name.
    #[inline(never)]
    fn call<R: Wait>(&mut self, rt: &R, front: &Front<J>, call: Call) -> Result<(), FrontFault>
        ensures done { OnOk result (HasDone self.old (BoundStep.Call call) self.new) }
        ensures memory { IfErr result (λ fault. fault ≡ FrontFault.Memory) }
    {
        front.act(rt, &mut self.pass, call)?;
        Ok(())
    }
}

// A task grows hungry, begins once its turn has come, and finishes. It ends at the first refusal.
#[inline(never)]
fn dine<J: Naming, R: Wait>(
    rt: &R,
    front: &Front<J>,
    pass: &mut Pass<J>,
    task: Task,
) -> Result<(), FrontFault>
    ensures { OnOk result ((calls : List Made)
        × MadeCalls pass.old calls pass.new × IsMeal task calls) }
{
    if !is_done(front.act(rt, pass, Call::Hungry(task))?.reply) {
        return Ok(());
    }
    if !is_done(front.begin_in_turn(rt, pass, task)?.reply) {
        return Ok(());
    }
    front.act(rt, pass, Call::Finish(task))?;
    Ok(())
}

// Whether a call was carried out.
fn is_done(reply: Reply) -> bool
    ensures done { IsTrue result → reply ≡ Reply.Done }
    ensures refused { IsFalse result → reply ≢ Reply.Done }
{
    reply == Reply::Done
}

// Binds the name of a join to the task that joined, if one did.
fn take_name(names: &mut Names, line: NamedCall, reply: Reply) -> Result<(), AllocError>
    ensures { OnOk result (names.new ≡ names_after line reply names.old) }
{
    match line {
        NamedCall::Join(name) => match reply {
            Reply::Joined(task) => names.rebind(name, task),
            Reply::Done | Reply::Refused(_) => Ok(()),
        },
        NamedCall::OnOne(..) | NamedCall::OnTwo(..) => Ok(()),
    }
}
