//! What people are told on standard error.

use dine_lines::{Listener, Remark};
use dine_streams::CliFault;
use std::alloc::{AllocError, Global};
use std::io::{ErrorKind, IsTerminal, Stderr, Write};

/// Tells standard error what was wrong, or nobody.
#[derive(Drop)]
pub struct Telling {
    alloc: Global,
    stderr: Stderr,
    is_quiet: bool,
}

impl Listener for Telling {
    fn tell(&mut self, remark: &Remark) {
        if self.is_quiet {
            return;
        }
        // A run goes on whether or not it can be told of.
        if self.stderr.write_all(remark.text()).is_ok() {
            let _ = self.stderr.write_all(b"\n");
        }
    }
}

impl Telling {
    /// A listener that writes each remark on this standard error, as a line of its own.
    pub fn new(alloc: Global, stderr: Stderr) -> Telling {
        Telling {
            alloc,
            stderr,
            is_quiet: false,
        }
    }

    /// From now on nobody is told.
    pub(crate) fn hush(&mut self) {
        self.is_quiet = true;
    }

    /// Whether a person watches a run, who may be told how far it is.
    pub fn is_watched(&self) -> bool {
        !self.is_quiet && self.stderr.is_terminal()
    }

    /// Tells a text.
    pub(crate) fn say(&mut self, text: &[u8]) {
        let mut remark = Remark::new(self.alloc);
        if remark.push(text).is_ok() {
            self.tell(&remark);
        }
    }

    /// Tells that a file cannot be opened, and why.
    pub(crate) fn cannot_open(&mut self, path: &[u8], why: ErrorKind) {
        let mut remark = Remark::new(self.alloc);
        if push_cannot_open(self.alloc, &mut remark, path, why).is_ok() {
            self.tell(&remark);
        }
    }

    /// Tells why a run gave up, with why its streams failed, if they did. Of a reader of the output that went away
    /// nothing is told: it has read what it wanted.
    pub(crate) fn give_up(
        &mut self,
        fault: CliFault,
        read: Option<ErrorKind>,
        write: Option<ErrorKind>,
    ) {
        match (fault, read, write) {
            (CliFault::Memory, _, _) => self.say(b"error: out of memory"),
            (CliFault::Read, None, _) => self.say(
                b"error: the input is longer than 16777216 bytes",
            ),
            (CliFault::Read, Some(why), _) => self.failed(b"error: cannot read: ", why),
            (CliFault::Write, _, Some(ErrorKind::BrokenPipe)) => {}
            (CliFault::Write, _, Some(why)) => self.failed(b"error: cannot write: ", why),
            (CliFault::Write, _, None) => self.say(b"error: cannot write"),
        }
    }

    // Tells what could not be done, and why.
    fn failed(&mut self, what: &[u8], why: ErrorKind) {
        let mut remark = Remark::new(self.alloc);
        if remark.push(what).is_ok() && push_kind(self.alloc, &mut remark, why).is_ok() {
            self.tell(&remark);
        }
    }
}

// Says that a file cannot be opened, and why.
fn push_cannot_open(
    alloc: Global,
    remark: &mut Remark,
    path: &[u8],
    why: ErrorKind,
) -> Result<(), AllocError> {
    remark.push(b"error: cannot open ")?;
    remark.push_quoted(path)?;
    remark.push(b": ")?;
    push_kind(alloc, remark, why)
}

// Says of which kind a failure is.
fn push_kind(alloc: Global, remark: &mut Remark, why: ErrorKind) -> Result<(), AllocError> {
    let text = why.to_string(alloc)?;
    remark.push(text.as_bytes())
}
