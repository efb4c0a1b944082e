//! The machine and the person that a program runs for.

ghost use Rattle.std.specs.Prelude.{ℕ, List, Option, MatchOption};

use crate::request::Request;
use dine_lines::{Listener, Remark};
use dine_streams::CliFault;
use dine_words::{Marked, Source};

/// The machine and the person that a program runs for: the machine opens the files that the words name, and the person is
/// told what is wrong.
pub trait Host: Listener {
    // The file at a path can't be opened.
    ghost lacks: { List ℕ → Type 0 };

    // The file at a path can have these bytes, if they are known.
    ghost holds: { List ℕ → Option (List ℕ) → Type 0 };

    /// A file that is open.
    type File: Source + Drop;

    /// The words were read, and they ask for this. No file is open yet, and nothing was read.
    fn begin(&mut self, request: &Request);

    /// The input is read from the standard input. Each file is open by now, and nothing was read.
    fn read_standard(&mut self);

    /// Opens the file at a path. `None` says that it can't be opened. The person was told why.
    fn open(&mut self, path: &str) -> Option<Self::File>
        ensures { MatchOption result (lacks path.now)
            (λ file. holds path.now (Self.File.remaining file)) };

    /// The run gave up for this reason, and has written its last line.
    fn give_up(&mut self, fault: CliFault);
}

/// A host that has no files. A listener is told what is wrong with the input.
#[derive(Drop)]
pub struct NoFiles<L> {
    /// The listener.
    pub listener: L,
}

impl<L: Listener> Listener for NoFiles<L> {
    fn tell(&mut self, remark: &Remark) {
        self.listener.tell(remark);
    }
}

impl<L: Listener> Host for NoFiles<L> {
    ghost lacks = { λ _. Unit {0} };

    ghost holds = { λ _ _. ⊥ };

    type File = Marked<&'static [u8]>;

    fn begin(&mut self, _request: &Request) {}

    fn read_standard(&mut self) {}

    fn open(&mut self, _path: &str) -> Option<Marked<&'static [u8]>> {
        None
    }

    fn give_up(&mut self, _fault: CliFault) {}
}
