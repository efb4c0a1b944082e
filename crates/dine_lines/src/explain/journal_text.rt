//! What is wrong with a journal. Lines are counted from 0, the header's.

use crate::explain::remark::Remark;
use crate::line_words::next_line;
use dine_words::{MAX_LINE, Reply};
use std::alloc::{AllocError, Global};

// Says which line it is.
fn push_line_number(remark: &mut Remark, number: u64) -> Result<(), AllocError> {
    remark.push(b"line ")?;
    remark.push_number(number)?;
    remark.push(b": ")
}

/// Says why the first line of a text is no header. Of a line that is too long the text may be the front alone. On `Err`
/// memory has run out, and a part may have been said.
pub fn push_header_fault(remark: &mut Remark, text: &[u8]) -> Result<(), AllocError> {
    let line = first_line(text);
    push_line_number(remark, 0)?;
    if text.is_empty() {
        remark.push(b"the input is empty")
    } else if line.starts_with(b"\xef\xbb\xbf") {
        remark.push(b"it begins with a byte order mark")
    } else if line.ends_with(b"\r") {
        push_carriage_return(remark)
    } else if !line.starts_with(b"dine ") {
        remark.push_quoted(line)?;
        remark.push(b" is no header: 'hygienic run' reads scripts, 'hygienic race' scenarios")
    } else if line.len() == text.len() && line.len() <= MAX_LINE {
        remark.push(b"it lacks its line feed")
    } else {
        remark.push_quoted(line)?;
        remark.push(b" is no header of version 1 or 2, which is as 'dine 2 64 256'")
    }
}

/// Says why the first line of a text, which has this number in its journal, is no entry. On `Err` memory has run out, and a
/// part may have been said.
pub fn push_entry_fault(remark: &mut Remark, text: &[u8], number: u64) -> Result<(), AllocError> {
    push_line_number(remark, number)?;
    let line = first_line(text);
    if line.is_empty() {
        remark.push(b"it is empty")
    } else if line.ends_with(b"\r") {
        push_carriage_return(remark)
    } else if line.starts_with(b"dine ") {
        remark.push(b"another journal begins here")
    } else {
        remark.push_quoted(line)?;
        remark.push(b" is no entry, which is as '0 hungry 1.1 -> done', or lacks its line feed")
    }
}

// Says that lines have no carriage return.
fn push_carriage_return(remark: &mut Remark) -> Result<(), AllocError> {
    remark.push(b"it ends with a carriage return, and a journal's lines end with a line feed alone")
}

/// Says what the entry on the first line of a text, which has this number in its journal, answers, and what the table does.
/// On `Err` memory has run out, and a part may have been said.
pub fn push_other_reply(
    alloc: Global,
    remark: &mut Remark,
    text: &[u8],
    number: u64,
    wanted: Reply,
) -> Result<(), AllocError> {
    push_line_number(remark, number)?;
    let mut reply = Vec::new(alloc);
    wanted.write_to(&mut reply)?;
    remark.push_quoted(first_line(text))?;
    remark.push(b", where the table of last meals answers ")?;
    remark.push_quoted(&reply)
}

/// The text of a journal from the line with this number on, or nothing where it has fewer lines.
pub fn journal_from(text: &[u8], number: u64) -> &[u8] {
    let mut rest = text;
    for _ in 0..number {
        match next_line(rest) {
            Some((_, after)) => rest = after,
            None => return &[],
        }
    }
    rest
}

// The first line of a text without its line feed, or nothing where there is none.
fn first_line(text: &[u8]) -> &[u8] {
    match next_line(text) {
        Some((line, _)) => line,
        None => &[],
    }
}
