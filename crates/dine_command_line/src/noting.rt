//! A stream of which it is noted why it failed.

use std::cell::Cell;
use std::io::{self, ErrorKind, Read, Write};

/// Why the streams of a run failed last, if they did.
#[derive(Drop)]
pub struct Failures {
    /// Why a read failed.
    pub read: Cell<Option<ErrorKind>>,
    /// Why a write failed.
    pub write: Cell<Option<ErrorKind>>,
}

impl Failures {
    /// Nothing has failed yet.
    pub fn none() -> Failures {
        Failures {
            read: Cell::new(None),
            write: Cell::new(None),
        }
    }
}

/// A reader or a writer. It is noted here why it failed last.
#[derive(Drop)]
pub struct Noting<'a, T> {
    inner: T,
    failure: &'a Cell<Option<ErrorKind>>,
}

impl<'a, T> Noting<'a, T> {
    /// The stream. The note is changed when it fails.
    pub fn new(inner: T, failure: &'a Cell<Option<ErrorKind>>) -> Noting<'a, T> {
        Noting { inner, failure }
    }
}

impl<'a, T: Read> Read for Noting<'a, T> {
    ghost remaining = { λ noting. T.remaining noting.inner };

    fn read(&mut self, buffer: &mut [u8]) -> io::Result<usize> {
        let outcome = self.inner.read(buffer);
        if let Err(error) = &outcome {
            self.failure.set(Some(error.kind()));
        }
        outcome
    }
}

impl<'a, T: Write> Write for Noting<'a, T> {
    ghost contents = { λ noting. T.contents noting.inner };

    fn write(&mut self, bytes: &[u8]) -> io::Result<usize> {
        let outcome = self.inner.write(bytes);
        if let Err(error) = &outcome {
            self.failure.set(Some(error.kind()));
        }
        outcome
    }

    fn flush(&mut self) -> io::Result<()> {
        self.inner.flush()
    }
}
