//! The program over streams, and long texts for it.

use dine_cli::{CommandLine, Listener, NoFiles, NoGate, Seed, run_words};
use dine_words::{Sink, Source};
use std::alloc::{AllocError, Global};
use tests_kit::Machine;

/// A front, and then a part so often.
pub fn text_of(
    alloc: Global,
    front: &[u8],
    part: &[u8],
    times: usize,
) -> Result<Vec<u8>, AllocError> {
    let mut text = front.to_vec(alloc)?;
    for _ in 0..times {
        text.extend_from_slice(part)?;
    }
    Ok(text)
}

/// Runs the program over these streams, tells whoever listens what is wrong, and answers the status.
pub fn run_over<C: CommandLine, R: Source, W: Sink, L: Listener>(
    rt: &impl Machine,
    words: C,
    reader: &mut R,
    writer: &mut W,
    listener: L,
) -> (u8, L) {
    let mut host = NoFiles { listener };
    let seed = Seed::fixed();
    let status = run_words(
        rt,
        rt.alloc(),
        words,
        reader,
        writer,
        &mut host,
        &NoGate,
        seed,
    );
    let NoFiles { listener } = host;
    (status, listener)
}
