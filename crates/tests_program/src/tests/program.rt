//! The program run on a text, as the tests do it.

use crate::tests::same::same;
use dine_cli::{NoFiles, NoGate, Seed, Silence, run_words};
use dine_words::Marked;
use std::alloc::AllocError;
use tests_kit::{Machine, push_lines};

/// What the program writes and its status, over the words and an input.
pub fn run_on(rt: &impl Machine, words: &[&str], input: &[u8]) -> (Vec<u8>, u8) {
    let mut reader = Marked::new(input);
    let mut writer = Marked::new(Vec::new(rt.alloc()));
    let status = run_words(
        rt,
        rt.alloc(),
        words,
        &mut reader,
        &mut writer,
        &mut NoFiles { listener: Silence },
        &NoGate,
        Seed::fixed(),
    );
    (writer.into_inner(), status)
}

/// The lines of a row.
pub fn lines_of(rt: &impl Machine, row: &str) -> Vec<u8> {
    let mut text = Vec::new(rt.alloc());
    same(rt, push_lines(&mut text, row), Ok(()));
    text
}

fn push_words<'a>(words: &mut Vec<&'a str>, line: &'a str) -> Result<(), AllocError> {
    words.push("hygienic")?;
    for word in line.split_whitespace() {
        words.push(word)?;
    }
    Ok(())
}

/// The words of a command line, behind the program's name.
pub fn words_of<'a>(rt: &impl Machine, line: &'a str) -> Vec<&'a str> {
    let mut words = Vec::new(rt.alloc());
    same(rt, push_words(&mut words, line), Ok(()));
    words
}
