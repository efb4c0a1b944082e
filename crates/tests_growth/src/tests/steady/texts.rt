//! Texts for which there is room, and texts that are read.

use super::{begins, ends};
use crate::tests::same::same;
use dine_words::{Entry, Limits, MAX_ENTRY_LINE, Task, put_text};
use std::alloc::{AllocError, Global};
use std::process::Abort;
use tests_kit::{A, Host, LIMITS};

#[test]
fn a_text_for_which_there_is_room_takes_no_memory(rt: HostRuntime) -> Result<(), AllocError> {
    for text in ["", "x", "hungry", "a text that is longer than the others"] {
        let mut out = Vec::with_capacity(rt.alloc(), text.len())?;
        begins(rt.alloc());
        put_text(&mut out, text.as_bytes());
        ends(rt.alloc());
        same(&rt, out.as_slice(), text.as_bytes());
    }
    Ok(())
}

// A task whose text is as long as one can be.
const LONG: Task = Task {
    slot: u32::MAX,
    born: u64::MAX,
};

// Each call and each reply, with short parts and with the longest.
const CALLS: &str = "join; leave 4294967295.18446744073709551615; \
    conflict 4294967295.18446744073709551615 0.0; separate 0.0 4294967295.18446744073709551615; \
    hungry 12.345; begin 4294967295.18446744073709551615; finish 0.0; \
    withdraw 4294967295.18446744073709551615";

const REPLIES: &str = "joined 4294967295.18446744073709551615; joined 0.0; done; refused full; \
    refused unknown; refused same; refused already; refused apart; refused both-eating; \
    refused no-room; refused thinking; refused hungry; refused eating; refused not-yet";

// Writes an entry, its line, its reply, the line of that, and the lines of tasks that have joined.
fn write_all(entry: &Entry, out: &mut Vec<u8>) -> Result<(), AllocError> {
    out.push(b'x')?;
    entry.write_to(out)?;
    out.push(b'|')?;
    entry.write_line_to(out)?;
    entry.reply.write_to(out)?;
    out.push(b'|')?;
    entry.reply.write_line_to(out)?;
    LONG.write_joined_line(out)?;
    A.write_joined_line(out)
}

// Whatever is written is the text again, behind what was there.
fn check_written(rt: &impl Host, out: &mut Vec<u8>, text: &str) {
    let entry = Entry::read(text).expect(rt, "an entry");
    let (_, reply) = text.split_once(" -> ").expect(rt, "a reply");
    out.clear();
    begins(rt.alloc());
    let written = write_all(&entry, out);
    ends(rt.alloc());
    same(rt, written, Ok(()));
    let wanted = format!(in rt.alloc();
        "x{text}|{text}\n{reply}|{reply}\n\
joined 4294967295.18446744073709551615\njoined 0.0\n"
    );
    let wanted = wanted.ok().expect(rt, "memory");
    same(rt, out.as_slice(), wanted.as_bytes());
}

#[test]
fn a_line_for_which_there_is_room_takes_no_memory(rt: HostRuntime) -> Result<(), AllocError> {
    let mut out = Vec::with_capacity(rt.alloc(), 6 * MAX_ENTRY_LINE)?;
    for call in CALLS.split("; ") {
        for reply in REPLIES.split("; ") {
            for pass in [0, 10, 999, 1000, u32::MAX] {
                let text = format!(in rt.alloc(); "{pass} {call} -> {reply}")?;
                check_written(&rt, &mut out, &text);
            }
        }
    }
    Ok(())
}

// Texts are read as what they say.
fn check_read(rt: &impl Abort) {
    same(rt, Task::read("0.0"), Some(A));
    same(rt, Limits::new(64, 256), Some(LIMITS));
    let entry = Entry::read(
        "7 conflict 0.0 4294967295.18446744073709551615 -> refused both-eating",
    );
    same(rt, entry.map(|entry| entry.pass), Some(7));
    same(rt, Entry::read("7 conflict 0.0 1 -> done"), None);
}

#[test]
fn what_is_read_takes_no_memory(rt: HostRuntime) {
    begins(rt.alloc());
    check_read(&rt);
    ends(rt.alloc());
}
