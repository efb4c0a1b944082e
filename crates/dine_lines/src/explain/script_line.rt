//! What is wrong with a line that was to be carried out.

use crate::explain::remark::Remark;
use crate::line_fault::LineFault;
use crate::line_words::{is_too_long, next_word};
use crate::name::Name;
use std::alloc::AllocError;

/// Where a line stands. What it can ask for depends on it.
#[derive(Clone, Copy, Debug, PartialEq, Eq, Hash)]
pub enum Place {
    /// In a script.
    Script,
    /// In the setup of a scenario.
    Setup,
    /// Among the steps of a worker.
    Step,
}

/// Says what is wrong with a line that stands in such a place and has this fault. On `Err` memory has run out, and a part
/// may have been said.
pub fn push_line_fault(
    remark: &mut Remark,
    place: Place,
    line: &[u8],
    fault: LineFault,
) -> Result<(), AllocError> {
    match fault {
        LineFault::Words => push_words_fault(remark, place, line),
        LineFault::Name => push_name_fault(remark, line),
        LineFault::Bound => {
            remark.push(b"the name ")?;
            remark.push_quoted(word_at(line, 1))?;
            remark.push(b" is taken by another task")
        }
        LineFault::Unbound => push_unbound(remark, line),
    }
}

// Says why the words of a line ask for nothing.
fn push_words_fault(remark: &mut Remark, place: Place, line: &[u8]) -> Result<(), AllocError> {
    if is_too_long(line) {
        return remark.push(b"the line is longer than 4096 bytes");
    }
    let word = word_at(line, 0);
    if word.starts_with(b"\xef\xbb\xbf") {
        return remark.push(b"the line begins with a byte order mark");
    }
    if word.is_empty() {
        return remark.push(b"the line is empty");
    }
    match names_wanted(place, word) {
        Some(names) => {
            remark.push_quoted(word)?;
            remark.push(b" takes ")?;
            remark.push(names.as_bytes())
        }
        None => {
            remark.push(b"no such call ")?;
            remark.push_quoted(word)
        }
    }
}

// How many names a word takes in such a place, where it asks for something there.
fn names_wanted(place: Place, word: &[u8]) -> Option<&'static str> {
    match word {
        b"join" | b"leave" | b"hungry" | b"begin" | b"finish" | b"withdraw" => Some("one name"),
        b"conflict" | b"separate" => Some("two names"),
        b"state" | b"neighbours" if place == Place::Script => Some("one name"),
        b"next" if place == Place::Script => Some("no name"),
        b"eat" | b"look" if place == Place::Step => Some("one name"),
        _ => None,
    }
}

// Says which word is no name, and what a name is.
fn push_name_fault(remark: &mut Remark, line: &[u8]) -> Result<(), AllocError> {
    let first = word_at(line, 1);
    let word = if Name::read(first).is_none() {
        first
    } else {
        word_at(line, 2)
    };
    remark.push_quoted(word)?;
    remark.push(b" is no name: a name has 1 to 16 letters from a to z and digits")
}

// Says which name nobody has.
fn push_unbound(remark: &mut Remark, line: &[u8]) -> Result<(), AllocError> {
    remark.push(b"no task has the name ")?;
    remark.push_quoted(word_at(line, 1))?;
    let second = word_at(line, 2);
    if second.is_empty() {
        return Ok(());
    }
    remark.push(b", or none has ")?;
    remark.push_quoted(second)
}

// The word with this number of a line, from 0, or nothing where there are fewer.
fn word_at(line: &[u8], number: usize) -> &[u8] {
    let mut rest = line;
    for _ in 0..number {
        match next_word(rest) {
            Some((_, after)) => rest = after,
            None => return &[],
        }
    }
    match next_word(rest) {
        Some((word, _)) => word,
        None => &[],
    }
}
