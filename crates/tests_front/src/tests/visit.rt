//! Fronts that are opened for what is done at them.

ghost use Rattle.dine_front.specs.Opening.{CanOpen};

use crate::tests::front::{Case, settles};
use crate::tests::order::keeps_order;
use dine_front::{Front, LEDGER_PARTS, Naming, OpenFault, Opened, Pass};
use std::marker::Brand;
use std::process::Abort;
use std::sync::ledger::Blank;
use tests_kit::{LIMITS, Machine};

/// What is done at a front with its passes.
#[derive(Clone, Copy)]
pub(crate) enum Visit<'a> {
    Case(&'a Case),
    Order,
}

// Does it, and closes the front.
fn visits<J: Naming + Send + Sync>(
    rt: &impl Machine,
    front: Front<J>,
    passes: Vec<Pass<J>>,
    visit: Visit<'_>,
) {
    match visit {
        Visit::Case(case) => settles(rt, front, passes, case),
        Visit::Order => keeps_order(rt, front, passes),
    }
}

fn open_and_visit<J: Naming + Send + Sync, R: Machine>(
    rt: &R,
    ledger: Blank,
    from: Opened,
    visit: Visit<'_>,
) -> Option<OpenFault>
    requires { CanOpen J.name J.parts J.limits J.passes J.book ledger from }
{
    match Front::<J>::open(rt, rt.alloc(), ledger, from) {
        Ok((front, passes)) => {
            visits(rt, front, passes, visit);
            None
        }
        Err(fault) => Some(fault),
    }
}

/// Opens a front and visits it, or says why it can't be opened.
pub(crate) fn visit_a_front<R: Machine>(
    rt: &R,
    from: Opened,
    visit: Visit<'_>,
) -> Option<OpenFault> {
    open_and_visit::<Brand, R>(rt, Blank::new(LEDGER_PARTS), from, visit)
}

/// What a front of so many passes is opened from, over the usual limits.
pub(crate) fn from(rt: &impl Abort, passes: u32) -> Opened {
    Opened::new(LIMITS, passes).ok().expect(rt, "passes")
}
