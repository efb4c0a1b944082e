//! Runs of the program on texts in memory.

use crate::commands::{AUDIT, AUDIT_LONG, RUN, TO_JOURNAL};
use crate::digest::Digest;
use crate::dinners::{Form, Habits, Until};
use crate::graph::Shape;
use crate::inputs::Inputs;
use dine_cli::{NoFiles, NoGate, Seed, Silence, run_words};
use dine_words::Marked;
use std::alloc::{AllocError, Global};
use std::sync::Wait;
use std::thread::Threads;

/// What a job is handed: it gives memory, starts threads and waits.
pub trait Machine: AllocGlobal + Threads + Wait + Sync {}

impl<R: AllocGlobal + Threads + Wait + Sync> Machine for R {}

/// Runs the program with these words, takes what it answers into the digest, and returns what it wrote.
pub fn run(rt: &impl Machine, words: &[&str], input: &[u8], digest: &mut Digest) -> Vec<u8> {
    let mut reader = Marked::new(input);
    let mut writer = Marked::new(Vec::new(rt.alloc()));
    let status = run_words(
        rt,
        rt.alloc(),
        words,
        &mut reader,
        &mut writer,
        &mut NoFiles { listener: Silence },
        &NoGate,
        Seed::fixed(),
    );
    let written = writer.into_inner();
    digest.take(status, written.as_slice());
    written
}

/// What a script is drawn by.
pub type Script = (Shape, Habits, Until);

/// Each script is drawn, and goes the whole way.
pub fn run_scripts(
    rt: &impl Machine,
    inputs: &mut Inputs,
    scripts: &[Script],
    digest: &mut Digest,
) -> Result<(), AllocError> {
    for (shape, habits, until) in scripts {
        let mut dinners = inputs.open(Form::Script, *shape, *habits)?;
        dinners.go_on(*until)?;
        run_script(rt, dinners.text.as_slice(), digest);
    }
    Ok(())
}

// A script goes the whole way: its replies, its journal, and the audit.
fn run_script(rt: &impl Machine, script: &[u8], digest: &mut Digest) {
    let _replies = run(rt, &RUN, script, digest);
    let journal = run(rt, &TO_JOURNAL, script, digest);
    let _verdict = run(rt, &AUDIT, journal.as_slice(), digest);
}

/// A broker with these words serves requests, and one that comes up again replays the journal.
pub fn serve(
    rt: &impl Machine,
    words: &[&str],
    requests: &[u8],
    digest: &mut Digest,
) -> Result<(), AllocError> {
    let served = run(rt, words, requests, digest);
    let journal = journal_of(rt.alloc(), served.as_slice())?;
    let _verdict = run(rt, &AUDIT_LONG, journal.as_slice(), digest);
    Ok(())
}

// The journal among the lines that a service wrote: those that are no answer to a question, no fault and nothing that came
// again.
fn journal_of(alloc: Global, served: &[u8]) -> Result<Vec<u8>, AllocError> {
    let mut journal = Vec::new(alloc);
    for line in served.split_inclusive(|byte| *byte == b'\n') {
        match line.first() {
            Some(b'?' | b'!' | b'=') | None => {}
            Some(_) => journal.extend_from_slice(line)?,
        }
    }
    Ok(journal)
}
