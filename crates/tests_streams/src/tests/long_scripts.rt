//! Scripts that are longer than a read: those that print less than they say, which are answered while they are read, and those
//! that print more.

use crate::tests::engine::Engine;
use crate::tests::program::text_of;
use crate::tests::same::same_at;
use dine_cli::{CliFault, Ended, Print};
use dine_words::Marked;
use std::alloc::{AllocError, Global};
use tests_kit::{FailingReader, FailingWriter, Machine};

// How many lines are equal.
const LINES: usize = 30_000;

// A line and its reply, and how many reads of 50,000 bytes the script takes up to its end.
type Row = (&'static [u8], &'static [u8], u32);

const ROWS: [Row; 2] = [
    (b"neighbours a\n", b"neighbours\n", 8),
    (b"state a\n", b"state thinking\n", 5),
];

const REPLIES: Engine = Engine::Script(Print::Replies);

// A task joins, and then it is asked for. The last line lacks its line feed.
fn script_of(alloc: Global, line: &[u8]) -> Result<Vec<u8>, AllocError> {
    let mut script = text_of(alloc, b"join a\n", line, LINES)?;
    script.pop();
    Ok(script)
}

fn check_pieces(rt: &impl Machine, script: &[u8], replies: &[u8], most: usize) {
    let mut reader = FailingReader::new(script, most, 1_000_000);
    let mut writer = Marked::new(Vec::new(rt.alloc()));
    let ended = REPLIES.run(rt, &mut reader, &mut writer);
    same_at(rt, "the end", most, ended, Ok(Ended::Good));
    assert!(rt; writer.into_inner().as_slice() == replies);
}

#[test]
fn a_long_script_is_answered_however_it_comes(rt: HostRuntime) -> Result<(), AllocError> {
    for (line, reply, _) in &ROWS {
        let script = script_of(rt.alloc(), line)?;
        let replies = text_of(rt.alloc(), b"joined 0.0\n", reply, LINES)?;
        for most in [999, 65_536, 1_000_000] {
            check_pieces(&rt, &script, &replies, most);
        }
    }
    Ok(())
}

// A script of which so many reads succeed, how it ends, and how many reads fail.
fn check_reads(rt: &impl Machine, script: &[u8], reads: u32, wanted: CliFault) {
    let mut reader = FailingReader::new(script, 50_000, reads);
    let mut writer = FailingWriter::new(1024, 0);
    let ended = REPLIES.run(rt, &mut reader, &mut writer);
    let place = reads as usize;
    same_at(rt, "the end", place, ended, Err(wanted));
    let failed = u32::from(wanted == CliFault::Read);
    same_at(rt, "failed reads", place, reader.failures, failed);
    same_at(rt, "writes", place, (writer.writes, writer.len), (0, 0));
}

// However far a script has come, a read that fails is all that is told. Behind the end nothing is read: so many reads and one
// more are enough.
#[test]
fn nothing_is_written_where_a_late_read_fails(rt: HostRuntime) -> Result<(), AllocError> {
    for (line, _, reads) in &ROWS {
        let script = script_of(rt.alloc(), line)?;
        for few in 0..=*reads {
            check_reads(&rt, &script, few, CliFault::Read);
        }
        check_reads(&rt, &script, reads.saturating_add(1), CliFault::Write);
    }
    Ok(())
}
