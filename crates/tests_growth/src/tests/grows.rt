//! Calls that take memory. Whoever counts growths has to find one in each of these tests, or it finds none anywhere.

use crate::tests::steady::{begins, ends};
use dine_arbiter::Arbiter;
use dine_words::Call;
use std::alloc::AllocError;
use tests_kit::{A, B, LIMITS};

#[test]
fn a_list_of_neighbours_takes_memory(rt: HostRuntime) -> Result<(), AllocError> {
    let mut arbiter = Arbiter::new(rt.alloc(), LIMITS)?;
    for call in [Call::Join, Call::Join, Call::Conflict(A, B)] {
        assert!(&rt; arbiter.clock() < 10);
        let _ = arbiter.apply(call);
    }
    begins(rt.alloc());
    let found = arbiter.neighbours(rt.alloc(), A)?;
    ends(rt.alloc());
    assert!(&rt; found.is_some());
    Ok(())
}
