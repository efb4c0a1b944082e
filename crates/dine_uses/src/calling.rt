//! Calls that have to be accepted.

ghost use Rattle.std.specs.Prelude.{◌≡◌, ◌≢◌, ◌^◌, ◌-◌, Err, IfErr, IfOk, OnErr, OnOk, None};
ghost use Rattle.dine_table.specs.Calls.{changed_by, newcomer, refusal_of};
ghost use Rattle.dine_table.specs.Sound.{IsSound};

use crate::use_fault::Fault;
use dine_arbiter::Arbiter;
use dine_words::{Call, Reply, Task};

/// Makes a call that has to be accepted, and is no join.
///
/// `Refused` is answered where the arbiter refuses the call, and `ClockEnded` where its clock is at its end. Nothing has
/// changed then.
pub(crate) fn carry_out(arbiter: &mut Arbiter, call: Call) -> Result<(), Fault>
    ensures accepted { OnOk result (refusal_of arbiter.old.table call ≡ None) }
    ensures table { OnOk result (arbiter.new.table ≡ changed_by arbiter.old.table call) }
    ensures sound { IsSound arbiter.old.table → IsSound arbiter.new.table }
    ensures fault { IfErr result (λ fault. fault ≢ Fault.Memory) }
    ensures ended { result ≡ Err Fault.ClockEnded → arbiter.old.table.clock ≡ 2 ^ 64 - 1 }
    ensures err { OnErr result (arbiter.new.table ≡ arbiter.old.table) }
{
    if arbiter.clock() == u64::MAX {
        return Err(Fault::ClockEnded);
    }
    match arbiter.apply(call) {
        Reply::Joined(_) | Reply::Done => Ok(()),
        Reply::Refused(refusal) => Err(Fault::Refused(refusal)),
    }
}

/// A new task joins. The errors are those of [`carry_out`].
pub(crate) fn join(arbiter: &mut Arbiter) -> Result<Task, Fault>
    ensures accepted { OnOk result (refusal_of arbiter.old.table Call.Join ≡ None) }
    ensures task { IfOk result (λ task. task ≡ newcomer arbiter.old.table) }
    ensures table { OnOk result (arbiter.new.table ≡ changed_by arbiter.old.table Call.Join) }
    ensures sound { IsSound arbiter.old.table → IsSound arbiter.new.table }
    ensures fault { IfErr result (λ fault. fault ≢ Fault.Memory) }
    ensures ended { result ≡ Err Fault.ClockEnded → arbiter.old.table.clock ≡ 2 ^ 64 - 1 }
    ensures err { OnErr result (arbiter.new.table ≡ arbiter.old.table) }
{
    match arbiter.reply_to(Call::Join) {
        Reply::Joined(task) => {
            carry_out(arbiter, Call::Join)?;
            Ok(task)
        }
        Reply::Refused(why) => Err(Fault::Refused(why)),
        // No join is answered so.
        Reply::Done => Err(Fault::ClockEnded),
    }
}
