//! Traits for what is read from and what is written to. They tell their bytes where these are known, and remember a
//! failure, so that a failed read or write that nobody saw cannot be answered.

ghost use Rattle.std.specs.Prelude.{◌≡◌, ℕ, Bool, Option, List, false};
ghost use Rattle.std.specs.Io.{ReadsAtMost, WritesAtMost};
ghost use Rattle.std.specs.Io.KnownBytes.{ReadConsumes, WriteAppends};

use std::io::{Read, Write};

/// A read or a write failed. The cause is not kept.
#[derive(Clone, Copy, Debug, PartialEq, Eq, Hash)]
pub struct Failed;

/// What bytes are read from.
pub trait Source {
    ghost use Rattle.dine_words.specs.Marking.{mark_after_read};

    // The bytes that reads will give from here on, where they are known.
    ghost remaining: { Self → Option (List ℕ) };

    // A read failed since the mark was last unset.
    ghost mark: { Self → Bool };

    /// Reads some bytes into the front of the buffer, and says how many. 0 is the end, or a buffer with no room.
    fn read(&mut self, buffer: &mut [u8]) -> Result<usize, Failed>
        ensures bound { ReadsAtMost result buffer.new }
        ensures bytes { ReadConsumes (remaining self.old) (remaining self.new) result buffer.new }
        ensures mark { mark self.new ≡ mark_after_read (mark self.old) result };
}

/// What bytes are written to.
pub trait Sink {
    ghost use Rattle.dine_words.specs.Marking.{mark_after_write};

    // The bytes that were written, where they are known.
    ghost contents: { Self → Option (List ℕ) };

    // A write failed, or took none of some bytes, since the mark was last unset.
    ghost mark: { Self → Bool };

    /// Writes some of the bytes, from the front, and says how many. 0 for some bytes is as good as a failure.
    fn write(&mut self, bytes: &[u8]) -> Result<usize, Failed>
        ensures bound { WritesAtMost result bytes.now }
        ensures bytes { WriteAppends (contents self.old) (contents self.new) result bytes.now }
        ensures mark { mark self.new ≡ mark_after_write (mark self.old) result bytes.now };
}

/// A reader or a writer of std, with a mark.
#[derive(Drop)]
pub struct Marked<T> {
    inner: T,
    marked: bool,
}

impl<T> Marked<T> {
    ghost use Rattle.dine_words.specs.Marked.{inner_of, is_marked};

    /// The reader or writer, unmarked.
    pub fn new(inner: T) -> Self
        ensures inner { inner_of result ≡ inner }
        ensures mark { is_marked result ≡ false }
    {
        Marked {
            inner,
            marked: false,
        }
    }

    /// Whether a read or a write failed, or a write took none of some bytes.
    pub fn is_marked(&self) -> bool
        ensures { result ≡ is_marked self.now }
    {
        self.marked
    }

    /// The reader or writer, without the mark.
    pub fn into_inner(self) -> T
        ensures { result ≡ inner_of self }
    {
        let Marked { inner, marked: _ } = self;
        inner
    }
}

impl<T: Read> Source for Marked<T> {
    ghost use Rattle.dine_words.specs.Marked.{inner_of, is_marked};

    ghost remaining = { λ m. T.remaining (inner_of m) };

    ghost mark = { is_marked };

    fn read(&mut self, buffer: &mut [u8]) -> Result<usize, Failed> {
        match self.inner.read(buffer) {
            Ok(count) => Ok(count),
            Err(_) => {
                self.marked = true;
                Err(Failed)
            }
        }
    }
}

impl<T: Write> Sink for Marked<T> {
    ghost use Rattle.dine_words.specs.Marked.{inner_of, is_marked};

    ghost contents = { λ m. T.contents (inner_of m) };

    ghost mark = { is_marked };

    fn write(&mut self, bytes: &[u8]) -> Result<usize, Failed> {
        match self.inner.write(bytes) {
            Ok(0) if !bytes.is_empty() => {
                self.marked = true;
                Ok(0)
            }
            Ok(count) => Ok(count),
            Err(_) => {
                self.marked = true;
                Err(Failed)
            }
        }
    }
}
