//! What the front writes and all passes read: a writer of `left_right` with no rule.

ghost use Rattle.std.specs.Prelude.{◌≡◌, ◌<◌, ◌∷◌, [], drop, fold, IfOk, OnOk, OnErr};

use core::mem::replace_with;
use crossbeam_utils::rule::Unruled;
use left_right::Absorb;
use left_right::reader::Factory;
use left_right::writer::Writer;
use std::alloc::{AllocError, Global};
use std::sync::Wait;

/// Two copies of a value, of which readers see one. Operations are put at the other, which is then shown in its place.
///
/// It has no ghost field, so that a struct may hold one at a value with a type parameter.
pub(crate) struct Panel<T: Absorb<O> + Drop, O: Drop> {
    pub(crate) writer: Writer<T, O, (), Unruled>,
}

impl<T: Absorb<O> + Drop, O: Drop> Panel<T, O> {
    /// Shows the first value, with places for so many readers. An error is want of memory.
    pub(crate) fn new(
        alloc: Global,
        first: T,
        second: T,
        readers: u32,
    ) -> Result<Panel<T, O>, AllocError>
        requires readers { 0 < readers }
        requires alike { T.state first ≡ T.state second }
        ensures shown { IfOk result (λ panel. panel.writer.desk.shown.value ≡ first) }
        ensures pending { IfOk result (λ panel.
            drop panel.writer.behind panel.writer.log.items ≡ []) }
    {
        // Never so: a front has 16 passes at most.
        if readers == u32::MAX {
            return Err(AllocError);
        }
        Ok(Panel {
            writer: Writer::new(alloc, first, second, readers as usize)?,
        })
    }

    /// What makes places to read from.
    pub(crate) fn factory(&self) -> &Factory<T, (), Unruled> {
        self.writer.factory()
    }

    /// What readers take now.
    pub(crate) fn published(&self) -> &T
        ensures { result.now ≡ self.now.writer.desk.shown.value }
    {
        self.writer.published()
    }

    /// Appends an operation, which readers do not see yet.
    pub(crate) fn put(&mut self, op: O) -> Result<(), AllocError>
        requires { drop self.old.writer.behind self.old.writer.log.items ≡ [] }
        ensures shown { self.new.writer.desk.shown.value ≡ self.old.writer.desk.shown.value }
        ensures ok { OnOk result (drop self.new.writer.behind self.new.writer.log.items ≡ op ∷ []) }
        ensures err { OnErr result (drop self.new.writer.behind self.new.writer.log.items ≡ []) }
    {
        match self.writer.append(op) {
            Ok(()) => Ok(()),
            Err(_) => Err(AllocError),
        }
    }

    /// Shows readers what was appended. It waits for those that still read the copy from before, and does not fail where
    /// taking in never does.
    #[inline(always)]
    pub(crate) fn show<R: Wait>(&mut self, rt: &R)
        requires { T.never_fails }
        ensures shown { T.state self.new.writer.desk.shown.value
            ≡ fold T.applied (T.state self.old.writer.desk.shown.value)
            (drop self.old.writer.behind self.old.writer.log.items) }
        ensures pending { drop self.new.writer.behind self.new.writer.log.items ≡ [] }
    {
        let _shown = replace_with(&mut self.writer, rt, |writer, rt| {
            writer.publish_as::<Unruled, R>(rt)
        });
    }

    /// Ends it, once nobody reads. From then on readers find nothing.
    pub(crate) fn end<R: Wait>(self, rt: &R) {
        let Panel { writer } = self;
        drop(writer.take(rt));
    }
}
