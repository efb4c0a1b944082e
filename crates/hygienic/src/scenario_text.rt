//! The text of a race's scenario, kept for its watch while it is read.

use crate::watch::Watch;
use std::io::{self, Read};

/// A reader. If a person watches, the watch is shown the whole text once it is read.
#[derive(Drop)]
pub struct Kept<'a, F> {
    inner: F,
    reading: Option<Reading<'a>>,
}

// What was read so far, and the watch that it is for.
#[derive(Drop)]
struct Reading<'a> {
    watch: &'a Watch,
    text: Vec<u8>,
}

impl<'a, F> Kept<'a, F> {
    /// The reader, of which nothing was read yet.
    pub fn new(inner: F, watch: Option<&'a Watch>) -> Kept<'a, F> {
        let reading = match watch {
            Some(watch) => Some(Reading {
                watch,
                text: Vec::new(watch.alloc()),
            }),
            None => None,
        };
        Kept { inner, reading }
    }
}

// Takes note of what a read gave, which is nothing at the end. If there is no memory for it, nobody is shown the text.
fn note<'a>(reading: &mut Option<Reading<'a>>, bytes: &[u8]) {
    let Some(mut noted) = reading.take() else {
        return;
    };
    if bytes.is_empty() {
        noted.watch.show(noted.text);
    } else if noted.text.extend_from_slice(bytes).is_ok() {
        *reading = Some(noted);
    }
}

impl<'a, F: Read> Read for Kept<'a, F> {
    ghost remaining = { λ kept. F.remaining kept.inner };

    fn read(&mut self, buffer: &mut [u8]) -> io::Result<usize> {
        let outcome = self.inner.read(buffer);
        if let Ok(count) = &outcome {
            if let Some(bytes) = buffer.get(..*count) {
                note(&mut self.reading, bytes);
            }
        }
        outcome
    }
}
