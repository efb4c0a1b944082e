//! Readers and writers that fail, never end, or take little at a time.

ghost use Rattle.std.specs.Prelude.{None, Bool};

use dine_words::{Failed, Sink, Source};

/// A reader that gives a few bytes at a time, and fails at a read and at each later one.
#[derive(Drop)]
pub struct FailingReader<'a> {
    rest: &'a [u8],
    most: usize,
    reads_left: u32,
    /// How many reads failed.
    pub failures: u32,
    is_marked: bool,
}

impl<'a> FailingReader<'a> {
    /// A reader that gives at most this many bytes at once, and fails after this many reads.
    pub fn new(text: &'a [u8], most: usize, reads_left: u32) -> Self {
        FailingReader {
            rest: text,
            most,
            reads_left,
            failures: 0,
            is_marked: false,
        }
    }
}

impl Source for FailingReader<'_> {
    ghost remaining = { λ _. None };

    ghost mark = { λ r. r.is_marked };

    fn read(&mut self, buffer: &mut [u8]) -> Result<usize, Failed> {
        if self.reads_left == 0 {
            self.is_marked = true;
            self.failures = self.failures.saturating_add(1);
            return Err(Failed);
        }
        self.reads_left -= 1;
        let count = self.rest.len().min(buffer.len()).min(self.most);
        buffer[..count].copy_from_slice(&self.rest[..count]);
        self.rest = &self.rest[count..];
        Ok(count)
    }
}

/// A reader that never ends.
#[derive(Drop)]
pub struct EndlessReader;

impl Source for EndlessReader {
    ghost remaining = { λ _. None };

    ghost mark = { λ _. Bool.false };

    fn read(&mut self, buffer: &mut [u8]) -> Result<usize, Failed> {
        Ok(buffer.len())
    }
}

/// A writer that takes a few bytes at a time, keeps the first of them in an array, and fails at a write and at each later one.
/// It takes no memory.
#[derive(Drop)]
pub struct FailingWriter {
    bytes: [u8; KEPT],
    /// How many bytes were written.
    pub len: usize,
    most: usize,
    writes_left: u32,
    /// How many writes did not fail.
    pub writes: u32,
    /// How many writes failed.
    pub failures: u32,
    is_marked: bool,
}

// So many bytes are kept.
const KEPT: usize = 1024;

impl FailingWriter {
    /// A writer that takes at most this many bytes at once, and fails after this many writes.
    pub fn new(most: usize, writes_left: u32) -> Self {
        FailingWriter {
            bytes: [0; KEPT],
            len: 0,
            most,
            writes_left,
            writes: 0,
            failures: 0,
            is_marked: false,
        }
    }

    /// What was written, as far as it is kept.
    pub fn written(&self) -> &[u8] {
        self.bytes.get(..self.len).unwrap_or(&self.bytes)
    }

    /// Whether what was written is whole lines from the front of a text.
    pub fn holds_lines_of(&self, text: &[u8]) -> bool {
        let written = self.written();
        text.starts_with(written) && (written.is_empty() || written.ends_with(b"\n"))
    }
}

impl Sink for FailingWriter {
    ghost contents = { λ _. None };

    ghost mark = { λ w. w.is_marked };

    fn write(&mut self, bytes: &[u8]) -> Result<usize, Failed> {
        if self.writes_left == 0 {
            self.is_marked = true;
            self.failures = self.failures.saturating_add(1);
            return Err(Failed);
        }
        self.writes_left -= 1;
        self.writes = self.writes.saturating_add(1);
        let count = bytes.len().min(self.most);
        if let Some(room) = self.bytes.get_mut(self.len..) {
            let kept = count.min(room.len());
            room[..kept].copy_from_slice(&bytes[..kept]);
        }
        self.len = self.len.saturating_add(count);
        if count == 0 && !bytes.is_empty() {
            self.is_marked = true;
        }
        Ok(count)
    }
}
