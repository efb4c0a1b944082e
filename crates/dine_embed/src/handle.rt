//! What C holds of an arbiter.

ghost use Rattle.std.specs.Prelude.{◌≡◌, Bool, true, false};
ghost use Rattle.std.specs.Fn.{FnOnceReturnsAt};
ghost use Rattle.dine_arbiter.specs.Arbitration.{Arbiter as Arbitration};
ghost use Rattle.std.specs.Ptr.{null_ptr};

use crate::loose::Loose;
use dine_arbiter::Arbiter;
use std::alloc::Global;
use std::marker::Model;
use std::mem;

/// What lies behind a handle, for C: nothing that it may look at.
#[repr(C)]
pub struct Opaque {
    unused: u8,
}

/// C's `dine`: one address. An open handle owns the arbiter there, and a closed one owns nothing, at null.
///
/// It is not `Drop`: an open handle can't be let go, and so no arbiter is forgotten.
#[repr(C)]
pub struct Handle {
    address: *mut Opaque,
    alloc: Global,
    ghost holds: { Bool },
    ghost value: { Arbitration },
}

impl Model for Handle {
    ghost use Rattle.dine_embed.specs.Owned.{owned_if};
    ghost use Rattle.std_alloc.specs.Box.Ownership.{box_owns};
    ghost use Rattle.dine_arbiter.specs.contracts.arbiter.Arbiter.{the_row};
    ghost use Rattle.std_heap.specs.contracts.GlobalAllocator.TheImpl.{ghosts};

    ghost also_owns = { λ h. owned_if h.holds
        (box_owns (ghosts.dealloc_token h.alloc) the_row h.address h.value) };
}

impl Handle {
    /// Takes the arbiter out of an open handle, and leaves it closed.
    pub fn take(&mut self, alloc: Global) -> Box<Arbiter, Global>
        requires { self.old.holds ≡ true }
        ensures value { result.value ≡ self.old.value }
        ensures closed { self.new.holds ≡ false }
        ensures null { self.new.address ≡ null_ptr }
    {
        mem::replace(self, Handle::closed(alloc))
            .into_loose()
            .into_box()
    }

    /// Puts an arbiter into a closed handle, and leaves it open.
    pub fn put(&mut self, arbiter: Box<Arbiter, Global>)
        requires { self.old.holds ≡ false }
        ensures open { self.new.holds ≡ true }
        ensures value { self.new.value ≡ arbiter.value }
    {
        mem::replace(self, Handle::from_loose(Loose::from_box(arbiter))).let_go();
    }

    /// Asks the arbiter of an open handle, which stays open.
    #[inline(always)]
    pub fn look<R, F: FnOnce(&Arbiter) -> R>(&mut self, alloc: Global, ask: F) -> R
        requires open { self.old.holds ≡ true }
        requires callable { F.IsAlwaysCallable ask }
        ensures answer { FnOnceReturnsAt F.FnOnce ask self.old.value result }
        ensures open { self.new.holds ≡ true }
        ensures value { self.new.value ≡ self.old.value }
    {
        let arbiter = self.take(alloc);
        let answer = ask(&arbiter);
        self.put(arbiter);
        answer
    }

    // A handle that owns nothing.
    fn closed(alloc: Global) -> Handle
        ensures closed { result.holds ≡ false }
        ensures null { result.address ≡ null_ptr }
    {
        let address = std::ptr::null_mut();
        Handle { address, alloc }
    }

    // Lets a closed handle go.
    fn let_go(self)
        requires { self.holds ≡ false }
    {
        let Handle {
            address: _address,
            alloc: _alloc,
        } = self;
    }

    // What an open handle owns.
    fn into_loose(self) -> Loose<Arbiter, Global>
        requires { self.holds ≡ true }
        ensures { result.value ≡ self.value }
    {
        let Handle { address, alloc } = self;
        let address = address as *mut Arbiter;
        Loose { address, alloc }
    }

    // An open handle that owns it.
    fn from_loose(loose: Loose<Arbiter, Global>) -> Handle
        ensures open { result.holds ≡ true }
        ensures value { result.value ≡ loose.value }
    {
        let Loose { address, alloc } = loose;
        let address = address as *mut Opaque;
        Handle { address, alloc }
    }
}
