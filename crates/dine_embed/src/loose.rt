//! A box as an address, for what can keep nothing else: C.
//!
//! A `Box` can't go to C, and the address of its value says nothing of what lies there. `Loose` is between the two: it
//! is as plain as an address, and owns what the box owned.

ghost use Rattle.std.specs.Prelude.{◌≡◌};
ghost use Rattle.std_alloc.specs.Box.Ownership.{box_owns};

use std::alloc::Allocator;
use std::marker::Model;

/// A box that was taken apart: the address of its value, and the allocator that takes the block back.
///
/// It still owns the value and the block, so nothing of this type can be let go: it is made a box again, or its two
/// parts are put where something else owns them.
pub struct Loose<T, A: Allocator> {
    /// Where the value lies. It is never null.
    pub address: *mut T,
    pub alloc: A,
    pub ghost value: { T },
}

impl<T, A: Allocator> Model for Loose<T, A> {
    ghost also_owns = { λ loose.
        box_owns (A.dealloc_token loose.alloc) T.row loose.address loose.value };
}

impl<T: Drop, A: Allocator> Loose<T, A> {
    /// Takes a box apart. Nothing is moved, and nothing is freed.
    pub fn from_box(value: Box<T, A>) -> Loose<T, A>
        ensures { result.value ≡ value.value }
    {
        let (address, alloc) = Box::into_raw_with_allocator(value);
        Loose { address, alloc }
    }

    /// Puts the box together again, with the value that it had.
    pub fn into_box(self) -> Box<T, A>
        ensures { result.value ≡ self.value }
    {
        let Loose { address, alloc } = self;
        unsafe { Box::from_raw(alloc, address) }
    }
}
