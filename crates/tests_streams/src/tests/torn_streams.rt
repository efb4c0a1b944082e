//! Reads and writes that fail in mid-stream, and streams that move little at a time.

use crate::tests::engine::Engine;
use crate::tests::same::same;
use dine_cli::{CliFault, Ended, Print};
use dine_journal::{Journal, TextFault};
use dine_replay::{AuditFault, audit};
use dine_words::Marked;
use tests_kit::{EndlessReader, FailingReader, FailingWriter, JOURNAL, Machine, REPLIES, SCRIPT};

const SCENARIO: &str = "[[worker]]\nrepeat = 2\nsteps = ['join x', 'eat x', 'leave x']\n";

const REPORT: &str = "workers 1\ncalls 10\nsettled\n";

const VERDICT: &str = "legal 9\novertakes 0\n";

const TO_REPLIES: Engine = Engine::Script(Print::Replies);

const TO_JOURNAL: Engine = Engine::Script(Print::Journal);

// An engine, an input of it, and the output.
type Row = (Engine, &'static str, &'static str);

const ROWS: [Row; 5] = [
    (TO_REPLIES, SCRIPT, REPLIES),
    (TO_JOURNAL, SCRIPT, JOURNAL),
    (Engine::Audit, JOURNAL, VERDICT),
    (Engine::LongAudit, JOURNAL, VERDICT),
    (Engine::Race, SCENARIO, REPORT),
];

// More reads or writes than any of the runs makes.
const MANY: u32 = 1000;

// An engine ended well, and wrote the output.
fn check_well(
    rt: &impl Machine,
    ended: Result<Ended, CliFault>,
    writer: &FailingWriter,
    output: &str,
) {
    same(rt, ended, Ok(Ended::Good));
    same(rt, writer.written(), output.as_bytes());
}

// Runs an engine whose reads give so many bytes at most, and fail after so many. Says whether it met no failure.
fn reads_all(rt: &impl Machine, row: &Row, most: usize, reads: u32) -> bool {
    let (engine, input, output) = *row;
    let mut reader = FailingReader::new(input.as_bytes(), most, reads);
    let mut writer = FailingWriter::new(1024, MANY);
    let ended = engine.run(rt, &mut reader, &mut writer);
    if reader.failures == 0 {
        check_well(rt, ended, &writer, output);
        return true;
    }
    same(rt, ended, Err(CliFault::Read));
    same(rt, (reader.failures, writer.writes), (1, 0));
    false
}

// Runs an engine whose reads give one byte each, and whose writes take so many bytes at most, and fail after so many. Says
// whether it met no failure.
fn writes_all(rt: &impl Machine, row: &Row, most: usize, writes: u32) -> bool {
    let (engine, input, output) = *row;
    let mut reader = FailingReader::new(input.as_bytes(), 1, MANY);
    let mut writer = FailingWriter::new(most, writes);
    let ended = engine.run(rt, &mut reader, &mut writer);
    if writer.failures == 0 {
        check_well(rt, ended, &writer, output);
        return true;
    }
    same(rt, ended, Err(CliFault::Write));
    same(rt, (writer.writes, writer.failures), (writes, 1));
    assert!(rt; output.as_bytes().starts_with(writer.written()));
    assert!(rt; writer.len < output.len());
    false
}

// Lets each read or write of an engine, of so many bytes at most, fail in turn, until a run meets no failure. Says how many
// that run makes.
fn check_failures(rt: &impl Machine, row: &Row, is_read: bool, most: usize) -> u32 {
    for left in 0..MANY {
        let met_none = if is_read {
            reads_all(rt, row, most, left)
        } else {
            writes_all(rt, row, most, left)
        };
        if met_none {
            return left;
        }
    }
    MANY
}

#[test]
fn each_read_that_fails_writes_nothing(rt: HostRuntime) {
    for row in &ROWS {
        for most in [1, 7] {
            let reads = check_failures(&rt, row, true, most);
            assert!(&rt; reads > 5 && reads < MANY);
        }
    }
}

#[test]
fn nothing_is_written_after_a_failed_write(rt: HostRuntime) {
    for row in &ROWS {
        for most in [1, 10, 1024] {
            let writes = check_failures(&rt, row, false, most);
            assert!(&rt; writes > 0 && writes < MANY);
        }
    }
}

// Audits a journal of which so many reads succeed.
fn check_failed_audit(rt: &impl Machine, reads: u32) {
    let mut reader = FailingReader::new(JOURNAL.as_bytes(), 27, reads);
    let fault = audit(rt.alloc(), &mut reader).err();
    same(rt, (fault, reader.failures), (Some(AuditFault::Read), 1));
}

#[test]
fn an_audit_tells_each_read_that_fails(rt: HostRuntime) {
    for reads in 0..10 {
        check_failed_audit(&rt, reads);
    }
}

// The first call names a task that isn't there.
const WRONG: &[u8] =
    b"dine 2 64 256\n0 begin 0.0 -> done\n0 join -> joined 0.0\n0 hungry 0.0 -> done\n";

// An audit that isn't long has its answer at the wrong line, and reads on all the same: to the eleven reads of the text
// comes the one that meets its end.
#[test]
fn a_read_that_fails_behind_a_wrong_line_is_told(rt: HostRuntime) {
    for reads in 0..14 {
        let mut reader = FailingReader::new(WRONG, 7, reads);
        let mut writer = FailingWriter::new(1024, MANY);
        let ended = Engine::Audit.run(&rt, &mut reader, &mut writer);
        same(&rt, reader.failures == 0, reads >= 12);
        if reads >= 12 {
            same(&rt, ended, Ok(Ended::Wrong));
            let told = b"wrong 1 want refused unknown\n";
            same(&rt, writer.written(), told.as_slice());
        } else {
            same(&rt, (ended, writer.writes), (Err(CliFault::Read), 0));
        }
    }
}

fn check_nothing_taken(rt: &impl Machine, row: &Row) {
    let (engine, input, _) = *row;
    let mut writer = FailingWriter::new(0, MANY);
    let ended = engine.run(rt, &mut Marked::new(input.as_bytes()), &mut writer);
    same(rt, (ended, writer.writes), (Err(CliFault::Write), 1));
}

fn legal_journal(rt: &impl Machine) -> Journal {
    let journal = audit(rt.alloc(), &mut Marked::new(JOURNAL.as_bytes()));
    journal.ok().expect(rt, "the journal is legal")
}

// A write of a journal's text fails after so many.
fn check_torn_text(rt: &impl Machine, journal: &Journal, writes: u32) {
    let mut writer = FailingWriter::new(5, writes);
    let written = journal.write_text(rt.alloc(), &mut writer);
    same(rt, written, Err(TextFault::Write));
    same(rt, (writer.writes, writer.failures), (writes, 1));
    assert!(rt; JOURNAL.as_bytes().starts_with(writer.written()));
}

// A writer that takes no byte is as good as one that fails, for a journal's text too.
#[test]
fn a_write_that_takes_nothing_has_failed(rt: HostRuntime) {
    for row in &ROWS {
        check_nothing_taken(&rt, row);
    }
    let journal = legal_journal(&rt);
    for writes in 0..3 {
        check_torn_text(&rt, &journal, writes);
    }
}

// But for the long audit, which has its answer once the first line is too long.
#[test]
fn an_endless_input_is_a_failed_read(rt: HostRuntime) {
    for (engine, _, _) in &ROWS {
        let mut writer = FailingWriter::new(1024, MANY);
        let ended = engine.run(&rt, &mut EndlessReader, &mut writer);
        if let Engine::LongAudit = engine {
            same(&rt, ended, Ok(Ended::Fault));
            same(&rt, writer.written(), b"fault header\n".as_slice());
        } else {
            same(&rt, (ended, writer.writes), (Err(CliFault::Read), 0));
        }
    }
    let fault = audit(rt.alloc(), &mut EndlessReader).err();
    same(&rt, fault, Some(AuditFault::Read));
}
