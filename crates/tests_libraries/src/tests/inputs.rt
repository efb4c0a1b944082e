//! Inputs that are read a piece at a time, and lines of streams that come in small pieces, or that fail.

use crate::tests::same::{same, same_at};
use dine_streams::{InputBuffer, Line, LineBuffer};
use std::alloc::{AllocError, Global};
use std::process::Abort;
use tests_kit::{FailingReader, Host};

const TEXT: &[u8] = b"join a\nstate a\nnext";

// How many bytes a read gives at most, how many are enough, what is heard, and whether the end is.
type Row = (usize, usize, &'static [u8], bool);

const ROWS: [Row; 7] = [
    (4, 0, b"", false),
    (4, 1, b"join", false),
    (4, 4, b"join", false),
    (4, 5, b"join a\ns", false),
    (4, 19, TEXT, false),
    (4, 20, TEXT, true),
    (100, 1, TEXT, false),
];

#[test]
fn an_input_is_heard_until_enough_has_come(rt: HostRuntime) -> Result<(), AllocError> {
    for (row, (most, enough, heard, is_at_end)) in ROWS.iter().enumerate() {
        let mut reader = FailingReader::new(TEXT, *most, 100);
        let mut input = InputBuffer::new(rt.alloc())?;
        same_at(&rt, row, input.hear(&mut reader, *enough).is_ok(), true);
        same_at(&rt, row, input.text(), *heard);
        let found = (input.heard(), input.is_at_end());
        same_at(&rt, row, found, (heard.len(), *is_at_end));
    }
    Ok(())
}

// What was dealt with is forgotten.
fn forget(rt: &impl Abort, input: &mut InputBuffer, count: usize) {
    assert!(rt; count <= input.text().len());
    input.forget(count);
}

// Once the end has come the reader is asked for nothing: this one would fail.
#[test]
fn what_was_dealt_with_is_forgotten(rt: HostRuntime) -> Result<(), AllocError> {
    let mut reader = FailingReader::new(TEXT, 10, 3);
    let mut input = InputBuffer::new(rt.alloc())?;
    let mut heard = input.hear(&mut reader, 1).is_ok();
    same(&rt, input.text(), b"join a\nsta".as_slice());
    // The last line feed is found from before it on, and at its place, and none behind it.
    for (from, len) in [(0, 7), (6, 7), (7, 0), (10, 0)] {
        assert!(&rt; from <= input.text().len());
        same_at(&rt, from, input.lines_len(from), len);
    }
    forget(&rt, &mut input, 7);
    same(&rt, input.text(), b"sta".as_slice());
    heard = heard && input.hear(&mut reader, usize::MAX).is_ok();
    heard = heard && input.hear(&mut reader, usize::MAX).is_ok();
    same(&rt, (heard, reader.failures), (true, 0));
    same(&rt, (input.heard(), input.is_at_end()), (19, true));
    forget(&rt, &mut input, 8);
    same(&rt, input.into_text().as_slice(), b"next".as_slice());
    Ok(())
}

// What came before is kept where a later read fails, and what came with it isn't.
#[test]
fn a_failed_read_is_told(rt: HostRuntime) -> Result<(), AllocError> {
    let mut reader = FailingReader::new(TEXT, 5, 2);
    let mut input = InputBuffer::new(rt.alloc())?;
    let first = input.hear(&mut reader, 1).is_ok();
    let second = input.hear(&mut reader, 100).is_ok();
    same(&rt, (first, second), (true, false));
    same(&rt, (input.heard(), reader.failures), (5, 1));
    same(&rt, input.text(), b"join ".as_slice());
    Ok(())
}

// More reads than any stream here takes.
const MANY: u32 = 1_000_000;

// Puts each line behind the others, with `|` after it.
fn push_lines(seen: &mut Vec<u8>, text: &[u8]) -> Result<(), AllocError> {
    let mut rest = text;
    for _ in 0..text.len() {
        if let Some((Line::Whole(bytes), after)) = Line::cut(rest) {
            seen.extend_from_slice(bytes)?;
            seen.push(b'|')?;
            rest = after;
        }
    }
    Ok(())
}

// Hears a stream to its end, or to the read that fails, and keeps its lines. Tells whether one had begun after them.
fn hear(alloc: Global, reader: &mut FailingReader, seen: &mut Vec<u8>) -> Result<bool, AllocError> {
    let mut buffer = LineBuffer::new(alloc)?;
    for _ in 0..MANY {
        match buffer.hear(reader) {
            Ok(true) => push_lines(seen, buffer.lines())?,
            Ok(false) | Err(_) => break,
        }
    }
    Ok(buffer.has_begun())
}

// A text, its lines, and whether the last is torn.
const TEXTS: [(&[u8], &[u8], bool); 8] = [
    (b"", b"", false),
    (b"\n", b"|", false),
    (b"a", b"", true),
    (b"a\n", b"a|", false),
    (b"a\nb\n", b"a|b|", false),
    (b"a\n\n\nb", b"a|||", true),
    (b"join a\r\nnext\n", b"join a\r|next|", false),
    (b"5 finish 1.12\n5 finish 1.1", b"5 finish 1.12|", true),
];

#[test]
fn lines_are_the_same_however_they_come(rt: HostRuntime) {
    for (text, lines, is_torn) in &TEXTS {
        for most in [1, 2, 3, 1000] {
            let mut seen = Vec::new(rt.alloc());
            let mut reader = FailingReader::new(text, most, MANY);
            let has_begun = hear(rt.alloc(), &mut reader, &mut seen);
            same_at(&rt, most, has_begun, Ok(*is_torn));
            same_at(&rt, most, seen.as_slice(), *lines);
        }
    }
}

// What came before a read that fails is told, and nothing of it twice.
#[test]
fn a_failed_read_forgets_nothing_that_was_heard(rt: HostRuntime) {
    let mut reader = FailingReader::new(b"a\nbc\nd\n", 4, 1);
    let mut seen = Vec::new(rt.alloc());
    let has_begun = hear(rt.alloc(), &mut reader, &mut seen);
    same(&rt, seen.as_slice(), b"a|".as_slice());
    same(&rt, (has_begun, reader.failures), (Ok(true), 1));
}
